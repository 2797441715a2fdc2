//! The rows of each FDE, or of those that contain one of some addresses, after a line with its
//! addresses and the name of the function that begins there.
ghost use Rattle.std.specs.Prelude.{◌≡◌, ◌++◌, option_map, IfOk};
ghost use Rattle.cfi_read_core.specs.ReaderCalls.{map_ok};
ghost use Rattle.cfi_entry.specs.Sections.{section_of};
ghost use Rattle.cfi_unwind.specs.CachedCie.{IsCacheOf};
ghost use Rattle.cfi_unwind.specs.FdeViews.{HasCieOf, IsFdeOf, fde_view};
ghost use Rattle.cfi_unwind.specs.WalkViews.{IsEntryOf, IsPartialOf, cie_or_fde_view, partial_view};
ghost use Rattle.cfi_unwind.specs.Scan.{read_fde};
ghost use Rattle.cfi_elf.specs.FunctionNames.{name_in};
ghost use Rattle.cfi_text.specs.Texts.{Puts};
ghost use Rattle.cfi_files.specs.DumpRowTexts.{asked_rows, contains_any, fde_line, fde_object};
ghost use Rattle.cfi_files.specs.DumpRowTexts.{function_member, function_text, given_addresses};
ghost use Rattle.cfi_files.specs.DumpRowTexts.{is_asked_for, item_rows, line_in, line_of_fde};
ghost use Rattle.cfi_files.specs.DumpRowTexts.{read_rows, rows_if_asked_for};
ghost use Rattle.cfi_files.specs.FdeRows.{answer_lines, fde_rows};
ghost use Rattle.cfi_row_text.specs.Wordings.{of_section};
ghost use Rattle.cfi_files.specs.Sending.{Sends};

use crate::dump::fde_rows::write_rows;
use crate::dump::lines::write_refused;
use crate::dump::printed::AskedRows;
use crate::dump::section::whole;
use crate::dump::walk::Walk;
use cfi_elf::FunctionNames;
use cfi_entry::in_section::InSection;
use cfi_row_text::style::Style;
use cfi_text::escapes::Escaping;
use cfi_text::style::Format;
use cfi_text::text::Text;
use gimli_cfi::{
    _UnwindSectionPrivate, CieCache, CieOrFde, FrameDescriptionEntry, PartialFrameDescriptionEntry,
    Reader, Result, UnwindSection,
};
use std::io;
use std::io::Write;

/// Adds for each FDE that is asked for in order a line with its addresses, and its rows.
///
/// An error has a line of its own: in place of an entry that can't be read, after which there are
/// no more; in place of an FDE that can't be read whole; where the instructions of an FDE's CIE
/// fail; and among the rows, which then continue as `next_row` does.
pub(crate) fn write_asked_rows<R: Reader<Offset = usize>, S: UnwindSection<R>, W: Write>(
    output: &mut W,
    walk: &mut Walk,
    style: Style,
    asked: AskedRows<'_>,
    at: &InSection<'_, S>,
) -> io::Result<()>
    ensures { let from = section_of (S.view at.now.section) at.now.bases.now in
        Sends walk.old.text walk.new.text (W.contents output.old) (W.contents output.new) result
        (asked_rows style asked.entry from) }
{
    let mut cies: CieCache<R> = CieCache::new();
    for entry in at.section.entries(at.bases) {
        write_entry_rows(output, walk, &mut cies, style, asked, at, entry)?;
    }
    Ok(())
}

/// Adds the addresses and the rows of an entry that is an FDE, and is asked for; or the error in
/// place of an entry. A CIE has no text.
fn write_entry_rows<R: Reader<Offset = usize>, S: UnwindSection<R>, W: Write>(
    output: &mut W,
    walk: &mut Walk,
    cies: &mut CieCache<R>,
    style: Style,
    asked: AskedRows<'_>,
    at: &InSection<'_, S>,
    entry: Result<CieOrFde<'_, S, R>>,
) -> io::Result<()>
    requires entry { IfOk entry (IsEntryOf S.view R.position at.now.section at.now.bases.now) }
    requires cies { IsCacheOf R.position (λ n. n) (S.view at.now.section) at.now.bases.now
        cies.old }
    ensures written { let found = map_ok (cie_or_fde_view R.position (λ n. n)) entry.entry in
        let from = section_of (S.view at.now.section) at.now.bases.now in
        Sends walk.old.text walk.new.text (W.contents output.old) (W.contents output.new) result
        (item_rows style asked.entry from found) }
    ensures cies { IsCacheOf R.position (λ n. n) (S.view at.now.section) at.now.bases.now
        cies.new }
{
    match entry {
        Ok(CieOrFde::Cie(_)) => Ok(()),
        Ok(CieOrFde::Fde(partial)) => {
            write_partial_rows(output, walk, cies, style, asked, at, &partial)
        }
        Err(error) => write_refused(output, &mut walk.text, style.format, error),
    }
}

/// Adds the addresses and the rows of the FDE, if it is asked for; or why it can't be read whole.
fn write_partial_rows<R: Reader<Offset = usize>, S: UnwindSection<R>, W: Write>(
    output: &mut W,
    walk: &mut Walk,
    cies: &mut CieCache<R>,
    style: Style,
    asked: AskedRows<'_>,
    at: &InSection<'_, S>,
    partial: &PartialFrameDescriptionEntry<'_, S, R>,
) -> io::Result<()>
    requires of { IsPartialOf at.now.section at.now.bases.now partial.now }
    requires cies { IsCacheOf R.position (λ n. n) (S.view at.now.section) at.now.bases.now
        cies.old }
    ensures written { let from = section_of (S.view at.now.section) at.now.bases.now in
        let found = partial_view R.position (λ n. n) partial.now in
        Sends walk.old.text walk.new.text (W.contents output.old) (W.contents output.new) result
        (read_rows style asked.entry from (read_fde from found)) }
    ensures cies { IsCacheOf R.position (λ n. n) (S.view at.now.section) at.now.bases.now
        cies.new }
{
    match whole(cies, &at.section, at.bases, partial) {
        Ok(fde) => write_if_asked_for(output, walk, style, asked, at, &fde),
        Err(error) => write_refused(output, &mut walk.text, style.format, error),
    }
}

/// Adds the addresses and the rows of the FDE, if it is asked for.
fn write_if_asked_for<R: Reader<Offset = usize>, S: UnwindSection<R>, W: Write>(
    output: &mut W,
    walk: &mut Walk,
    style: Style,
    asked: AskedRows<'_>,
    at: &InSection<'_, S>,
    fde: &FrameDescriptionEntry<R>,
) -> io::Result<()>
    requires own { IsFdeOf R.position (S.view at.now.section).position fde.now }
    requires cie { HasCieOf R.position (S.view at.now.section).position fde.now }
    ensures { let from = section_of (S.view at.now.section) at.now.bases.now in
        Sends walk.old.text walk.new.text (W.contents output.old) (W.contents output.new) result
        (rows_if_asked_for style asked.entry from (fde_view R.position (λ n. n) fde.now)) }
{
    if is_asked_for(asked.addresses, fde) {
        write_addressed_rows(output, walk, style, asked.functions, at, fde)
    } else {
        Ok(())
    }
}

/// Returns whether the FDE contains one of the addresses; true where none are given.
fn is_asked_for<R: Reader<Offset = usize>>(
    addresses: Option<&[u64]>,
    fde: &FrameDescriptionEntry<R>,
) -> bool
    ensures { result ≡ is_asked_for (given_addresses addresses.entry)
        (fde_view R.position (λ n. n) fde.now) }
{
    match addresses {
        None => true,
        Some(addresses) => contains_any(addresses, fde),
    }
}

/// Returns whether the FDE contains one of the addresses.
fn contains_any<R: Reader<Offset = usize>>(
    addresses: &[u64],
    fde: &FrameDescriptionEntry<R>,
) -> bool
    ensures { result ≡ contains_any addresses.now (fde_view R.position (λ n. n) fde.now) }
{
    for address in addresses {
        if fde.contains(*address) {
            return true;
        }
    }
    false
}

/// Adds the line of the FDE's addresses, and the lines of its rows.
fn write_addressed_rows<R: Reader<Offset = usize>, S: UnwindSection<R>, W: Write>(
    output: &mut W,
    walk: &mut Walk,
    style: Style,
    functions: &FunctionNames<'_>,
    at: &InSection<'_, S>,
    fde: &FrameDescriptionEntry<R>,
) -> io::Result<()>
    requires own { IsFdeOf R.position (S.view at.now.section).position fde.now }
    requires cie { HasCieOf R.position (S.view at.now.section).position fde.now }
    ensures { let read = fde_view R.position (λ n. n) fde.now in
        let from = section_of (S.view at.now.section) at.now.bases.now in
        Sends walk.old.text walk.new.text (W.contents output.old) (W.contents output.new) result
        (line_of_fde style.format (name_in functions.now) read
        ++ answer_lines (of_section style from) (fde_rows from read)) }
{
    put_addresses(&mut walk.text, style.format, functions, fde);
    write_rows(output, walk, style, at, fde)
}

/// Appends the line of the FDE's addresses, from the first up to the end, and of the name of the
/// function that begins at the first.
fn put_addresses<R: Reader<Offset = usize>>(
    text: &mut Text,
    format: Format,
    functions: &FunctionNames<'_>,
    fde: &FrameDescriptionEntry<R>,
)
    ensures { Puts
        (line_of_fde format (name_in functions.now) (fde_view R.position (λ n. n) fde.now))
        text.old text.new }
{
    let start = fde.initial_address();
    let name = functions.name_at(start);
    put_line(text, format, start, fde.end_address(), name);
}

/// Appends the line of the addresses, from the first up to the end, and of the name.
fn put_line(text: &mut Text, format: Format, start: u64, end: u64, name: Option<&[u8]>)
    ensures { Puts (line_in format start end (option_map (λ name. name.now) name.entry))
        text.old text.new }
{
    match format {
        Format::Text => put_range(text, start, end, name),
        Format::Json => put_object(text, start, end, name),
    }
}

/// Appends the line of text.
fn put_range(text: &mut Text, start: u64, end: u64, name: Option<&[u8]>)
    ensures { Puts (fde_line start end (option_map (λ name. name.now) name.entry))
        text.old text.new }
{
    text.put(b"fde ");
    text.address(start);
    text.put(b" ");
    text.address(end);
    put_function(text, name);
    text.put(b"\n");
}

/// Appends the name, after a space.
fn put_function(text: &mut Text, name: Option<&[u8]>)
    ensures { Puts (function_text (option_map (λ name. name.now) name.entry)) text.old text.new }
{
    if let Some(name) = name {
        text.put(b" ");
        text.name(name);
    }
}

/// Appends the line of JSON, an object.
fn put_object(text: &mut Text, start: u64, end: u64, name: Option<&[u8]>)
    ensures { Puts (fde_object start end (option_map (λ name. name.now) name.entry))
        text.old text.new }
{
    text.put(b"{\"fde\":{\"start\":\"");
    text.address(start);
    text.put(b"\",\"end\":\"");
    text.address(end);
    text.put(b"\"");
    put_function_member(text, name);
    text.put(b"}}\n");
}

/// Appends the name, as a member after others.
fn put_function_member(text: &mut Text, name: Option<&[u8]>)
    ensures { Puts (function_member (option_map (λ name. name.now) name.entry))
        text.old text.new }
{
    if let Some(name) = name {
        text.put(b",\"function\":\"");
        text.escaped(Escaping::Json, name);
        text.put(b"\"");
    }
}
