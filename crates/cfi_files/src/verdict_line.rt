//! The line that says whether the table of a header is faithful to its section.
ghost use Rattle.cfi_text.specs.Texts.{Puts};
ghost use Rattle.cfi_files.specs.CheckLines.{reason_text, refused_text, unfaithful_object};
ghost use Rattle.cfi_files.specs.CheckLines.{verdict_line, verdict_object, verdict_text};

use cfi_text::error_words::ErrorWords;
use cfi_text::style::Format;
use cfi_text::text::Text;
use gimli_cfi::{Error, Unfaithful, Verdict};

/// Appends the line of a verdict. In JSON it is the end of an object that begins with the name of
/// the file.
pub fn put_verdict(text: &mut Text, format: Format, verdict: Verdict)
    ensures { Puts (verdict_line format verdict) text.old text.new }
{
    match format {
        Format::Text => {
            put_text(text, verdict);
            text.put(b"\n");
        }
        Format::Json => put_object(text, verdict),
    }
}

/// Appends a verdict as text.
fn put_text(text: &mut Text, verdict: Verdict)
    ensures { Puts (verdict_text verdict) text.old text.new }
{
    match verdict {
        Verdict::Faithful(rows) => {
            text.put(b"faithful ");
            text.number(rows);
        }
        Verdict::Unfaithful(reason) => put_reason(text, reason),
        Verdict::NoTable => text.put(b"header: has no table"),
        Verdict::Refused(refusal) => put_reason(text, Unfaithful::Header(refusal)),
    }
}

/// Appends a verdict as the end of an object of JSON.
fn put_object(text: &mut Text, verdict: Verdict)
    ensures { Puts (verdict_object verdict) text.old text.new }
{
    match verdict {
        Verdict::Faithful(rows) => {
            text.put(b"\"result\":\"faithful\",\"rows\":");
            text.json_number(rows);
            text.put(b"}\n");
        }
        Verdict::Unfaithful(reason) => put_unfaithful(text, reason),
        Verdict::NoTable => {
            text.put(b"\"result\":\"no table\",\"reason\":\"header: has no table\"}\n");
        }
        Verdict::Refused(refusal) => put_unfaithful(text, Unfaithful::Header(refusal)),
    }
}

/// Appends the end of an object of JSON for a table that isn't faithful, with the reason.
fn put_unfaithful(text: &mut Text, reason: Unfaithful)
    ensures { Puts (unfaithful_object reason) text.old text.new }
{
    text.put(b"\"result\":\"unfaithful\",\"reason\":\"");
    put_reason(text, reason);
    text.put(b"\"}\n");
}

/// Appends a reason: where the fault is, by row or by the offset of an entry, and what it is.
fn put_reason(text: &mut Text, reason: Unfaithful)
    ensures { Puts (reason_text reason) text.old text.new }
{
    match reason {
        Unfaithful::Header(refusal) => {
            text.put(b"header");
            put_refused(text, refusal);
        }
        Unfaithful::Row { row, refusal } => {
            text.put(b"row ");
            text.number(row);
            put_refused(text, refusal);
        }
        Unfaithful::Order { row, before, start } => put_order(text, row, before, start),
        Unfaithful::Entry { offset, refusal } => {
            text.put(b"entry ");
            text.address(offset);
            put_refused(text, refusal);
        }
        Unfaithful::Fde { offset, refusal } => {
            text.put(b"FDE ");
            text.address(offset);
            put_refused(text, refusal);
        }
        Unfaithful::NoRow { offset, address } => put_no_row(text, offset, address),
        Unfaithful::Overlap { offset, end, next } => put_overlap(text, offset, end, next),
        Unfaithful::Count { rows, fdes } => put_count(text, rows, fdes),
    }
}

/// Appends that something can't be read, with the error.
fn put_refused(text: &mut Text, error: Error)
    ensures { Puts (refused_text error) text.old text.new }
{
    text.put(b": refused ");
    let format = Format::Text;
    text.show(ErrorWords { format, error });
}

/// Appends that a row doesn't start above the row before it.
fn put_order(text: &mut Text, row: u64, before: u64, start: u64)
    ensures { Puts (reason_text (Unfaithful.Order row before start)) text.old text.new }
{
    text.put(b"row ");
    text.number(row);
    text.put(b": starts at ");
    text.address(start);
    text.put(b", the row before it at ");
    text.address(before);
}

/// Appends that no row leads to the FDE at an offset, whose first address is given.
fn put_no_row(text: &mut Text, offset: u64, address: u64)
    ensures { Puts (reason_text (Unfaithful.NoRow offset address)) text.old text.new }
{
    text.put(b"FDE ");
    text.address(offset);
    text.put(b": no row starts at ");
    text.address(address);
    text.put(b" and leads to it");
}

/// Appends that the FDE at an offset contains the start of the row after its own.
fn put_overlap(text: &mut Text, offset: u64, end: u64, next: u64)
    ensures { Puts (reason_text (Unfaithful.Overlap offset end next)) text.old text.new }
{
    text.put(b"FDE ");
    text.address(offset);
    text.put(b": ends at ");
    text.address(end);
    text.put(b", the next row starts at ");
    text.address(next);
}

/// Appends that the section has fewer FDEs than the table has rows.
fn put_count(text: &mut Text, rows: u64, fdes: u64)
    ensures { Puts (reason_text (Unfaithful.Count rows fdes)) text.old text.new }
{
    text.put(b"table: ");
    text.number(rows);
    text.put(b" rows for ");
    text.number(fdes);
    text.put(b" FDEs");
}
