//! Whether the table of a header is faithful to its section.
ghost use Rattle.std.specs.Prelude.{◌≡◌};
ghost use Rattle.cfi_c.specs.PassedSections.{header_in, lent};
ghost use Rattle.cfi_c.specs.TableVerdicts.{IsCheckedForC, plain_verdict, refused_verdict};
ghost use Rattle.cfi_c.specs.TableVerdicts.{written_if, written_reason, written_verdict};

use crate::refusal::number_of;
use crate::section::{CfiBases, header_in, is_sized, source_of};
use gimli_cfi::{Error, Unfaithful, Verdict};

/// A verdict on the table of a header, by its kind: 0 faithful, 1 no table, 2 the header can't be
/// read, 3 to 10 a reason why the table isn't faithful.
#[repr(C)]
#[derive(Clone, Copy)]
pub struct CfiVerdict {
    /// What the kind says: how many rows, the index of a row, or the offset of an entry.
    pub first: u64,
    /// The start of the row before, an FDE's first address or its end, or how many FDEs there are.
    pub second: u64,
    /// The start of a row.
    pub third: u64,
    /// The place, byte or number that the error carries, else 0.
    pub refused: u64,
    /// Which verdict it is.
    pub kind: u32,
    /// The number of an error of the sections, else 0.
    pub status: i32,
}

/// Checks whether the table of the header lists the FDEs of `.eh_frame` faithfully: whether a row
/// by it is the row by a scan for every address. Returns the kind of the verdict, which is written.
///
/// Without a header, or if that has no rows, there is no table (1). If the address size is not 1,
/// 2, 4 or 8, the header can't be read (2). Does not allocate.
#[unsafe(no_mangle)]
pub extern "C" fn cfi_check_table(
    section: &[u8],
    header: &[u8],
    bases: &CfiBases,
    verdict: &mut CfiVerdict,
) -> u32
    ensures checked { IsCheckedForC bases.now section.now (header_in header.now) verdict.new }
    ensures kind { result ≡ verdict.new.kind }
{
    *verdict = check(section, header_in(header), bases);
    verdict.kind
}

/// The verdict on the table of the header, if there is one.
fn check(section: &[u8], header: Option<&[u8]>, bases: &CfiBases) -> CfiVerdict
    ensures { IsCheckedForC bases.now section.now (lent header.entry) result }
{
    if !is_sized(bases.address_size) {
        return refused_verdict(2, 0, Error::UnsupportedAddressSize(bases.address_size));
    }
    written_if(source_of(section, header, bases).check())
}

/// The verdict as C sees it; no table where there is no header.
fn written_if(verdict: Option<Verdict>) -> CfiVerdict
    ensures { result ≡ written_if verdict }
{
    match verdict {
        Some(verdict) => written_verdict(verdict),
        None => plain_verdict(1, 0, 0, 0),
    }
}

/// The verdict as C sees it.
fn written_verdict(verdict: Verdict) -> CfiVerdict
    ensures { result ≡ written_verdict verdict }
{
    match verdict {
        Verdict::Faithful(rows) => plain_verdict(0, rows, 0, 0),
        Verdict::Unfaithful(reason) => written_reason(reason),
        Verdict::NoTable => plain_verdict(1, 0, 0, 0),
        Verdict::Refused(error) => refused_verdict(2, 0, error),
    }
}

/// The reason why a table isn't faithful as C sees it.
fn written_reason(reason: Unfaithful) -> CfiVerdict
    ensures { result ≡ written_reason reason }
{
    match reason {
        Unfaithful::Header(error) => refused_verdict(3, 0, error),
        Unfaithful::Row { row, refusal } => refused_verdict(4, row, refusal),
        Unfaithful::Order { row, before, start } => plain_verdict(5, row, before, start),
        Unfaithful::Entry { offset, refusal } => refused_verdict(6, offset, refusal),
        Unfaithful::Fde { offset, refusal } => refused_verdict(7, offset, refusal),
        Unfaithful::NoRow { offset, address } => plain_verdict(8, offset, address, 0),
        Unfaithful::Overlap { offset, end, next } => plain_verdict(9, offset, end, next),
        Unfaithful::Count { rows, fdes } => plain_verdict(10, rows, fdes, 0),
    }
}

/// A verdict without an error.
fn plain_verdict(kind: u32, first: u64, second: u64, third: u64) -> CfiVerdict
    ensures { result ≡ plain_verdict kind first second third }
{
    CfiVerdict {
        first,
        second,
        third,
        refused: 0,
        kind,
        status: 0,
    }
}

/// A verdict by an error, at a row or an offset.
fn refused_verdict(kind: u32, first: u64, error: Error) -> CfiVerdict
    ensures { result ≡ refused_verdict kind first error }
{
    CfiVerdict {
        first,
        second: 0,
        third: 0,
        refused: error.value(),
        kind,
        status: number_of(error),
    }
}
