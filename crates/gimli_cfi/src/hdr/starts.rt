//! Where the rows of a table start, and the search in the starts.
ghost use Rattle.std.specs.Prelude.{◌≡◌, ℕ, ◌+◌, ◌≤◌, ◌<◌, IfOk, IfErr, IfSome, Result, Some};
ghost use Rattle.cfi_read_core.specs.ReaderCalls.{map_ok};
ghost use Rattle.cfi_read_core.specs.declared.error.Error.{Error};
ghost use Rattle.gimli_cfi.specs.BoundaryRows.{IsBoundaryRow, IsRefusalOfRow};
ghost use Rattle.gimli_cfi.specs.EhFrameHdr.{searched_size, value_size};
ghost use Rattle.gimli_cfi.specs.Halving.{search};
ghost use Rattle.gimli_cfi.specs.HalvingSteps.{steps};
ghost use Rattle.gimli_cfi.specs.RowReadings.{ReadsRows};

use crate::call_count::CallCount;
use crate::hdr::header::ParsedEhFrameHdr;
use crate::hdr::row_fields::{base_of_rows, searchable_size, start_of_row};
use crate::hdr::table::EhHdrTable;
use cfi_parts::pointer::BaseAddresses;
use cfi_read_core::{Reader, Result};

/// A source of the starts of rows: one start a call, by the row's index.
///
/// Each index below 2^64 has an answer, a start or an error, which no call changes. The calls are
/// counted for the contracts alone, as by a `CallCount` in the source.
pub trait StartSource {
    /// The answer for each index, whenever it is asked for.
    ghost answer: { Self → ℕ → Result ℕ Error };

    /// How many calls were made, failed ones too.
    ghost calls: { Self → ℕ };

    /// The start of the row with this index, or why it can't be had.
    fn start(&mut self, index: u64) -> Result<u64>
        ensures answered { result ≡ answer self.old index }
        ensures same { answer self.new ≡ answer self.old }
        ensures counted { calls self.new ≡ calls self.old + 1 };
}

/// The starts in the rows of a header's table. A call reads the start of one row where that row is,
/// and no other row.
///
/// A start fails with `UnsupportedOffset` if the row's distance from the first one does not fit a
/// `u64` or the reader's offset type, with `UnexpectedEof` at the first row if the table ends
/// before the row, as any pointer of the section does, and with `UnsupportedIndirectPointer` if it
/// is indirect. It does not allocate (LSB Core, "The .eh_frame_hdr section").
#[derive(Drop)]
pub struct TableStarts<'a, 'bases, R: Reader> {
    hdr: &'a ParsedEhFrameHdr<R>,
    bases: &'bases BaseAddresses,
    size: u64,
    base: Option<u64>,
    pub(crate) calls: CallCount,
    ghost searchable: { value_size hdr.now.table_enc.0 ≡ Some size },
    ghost chosen: { ReadsRows R.position base hdr.now bases.now },
}

impl<'a, 'bases, R: Reader> TableStarts<'a, 'bases, R> {
    ghost use Rattle.gimli_cfi.specs.HeaderViews.{AreStartsOf, calls_made, start_size, table_view};

    /// The starts of a table whose format can be searched: `udata2`, `sdata2`, `udata4`, `sdata4`,
    /// `udata8` or `sdata8`. Fails with `UnsupportedPointerEncoding` of the table's encoding for
    /// another format.
    ///
    /// The bases are those in `BaseAddresses::eh_frame_hdr`. No start is read yet. It does not
    /// allocate.
    #[inline(always)]
    pub fn new(table: &EhHdrTable<'a, R>, bases: &'bases BaseAddresses) -> Result<Self>
        ensures searchable { map_ok start_size result
            ≡ searched_size (table_view R.position table.now).encoding }
        ensures same_section_and_bases { IfOk result (λ starts.
            AreStartsOf starts table.now bases.now) }
        ensures fresh { IfOk result (λ starts. calls_made starts ≡ 0) }
    {
        let size = searchable_size(table.hdr.table_enc)?;
        Ok(TableStarts {
            hdr: table.hdr,
            bases,
            size,
            base: base_of_rows(table.hdr, bases),
            calls: CallCount::none(),
        })
    }
}

impl<R: Reader> StartSource for TableStarts<'_, '_, R> {
    ghost use Rattle.gimli_cfi.specs.HeaderViews.{answers_of, calls_made};

    ghost answer = { answers_of R.position };

    ghost calls = { calls_made };

    #[inline(always)]
    fn start(&mut self, index: u64) -> Result<u64> {
        self.calls = self.calls.next();
        start_of_row(self.hdr, self.bases, self.base, self.size, index)
    }
}

/// The starts of a table whose pointers are four bytes with a sign, as linkers write them, for
/// addresses of eight bytes: those of `TableStarts`, read without a look at the encoding, so that
/// a search in them is a short loop.
#[derive(Drop)]
pub(crate) struct SignedStarts<'a, 'bases, R: Reader> {
    hdr: &'a ParsedEhFrameHdr<R>,
    bases: &'bases BaseAddresses,
    base: u64,
    pub(crate) calls: CallCount,
    ghost searchable: { value_size hdr.now.table_enc.0 ≡ Some 4 },
    ghost chosen: { ReadsRows R.position (Some base) hdr.now bases.now },
}

impl<'a, 'bases, R: Reader> SignedStarts<'a, 'bases, R> {
    ghost use Rattle.gimli_cfi.specs.HeaderViews.{signed_answers, signed_calls, table_starts};
    ghost use Rattle.gimli_cfi.specs.HeaderViews.{table_view};

    /// The starts of the table; `None` if its pointers are others.
    #[inline(always)]
    pub(crate) fn new(table: &EhHdrTable<'a, R>, bases: &'bases BaseAddresses) -> Option<Self>
        ensures starts { IfSome result (λ starts. signed_answers R.position starts
            ≡ table_starts R.position table.now bases.now) }
        ensures searchable { IfSome result (λ _.
            value_size (table_view R.position table.now).encoding ≡ Some 4) }
        ensures fresh { IfSome result (λ starts. signed_calls starts ≡ 0) }
    {
        let base = base_of_rows(table.hdr, bases)?;
        Some(SignedStarts {
            hdr: table.hdr,
            bases,
            base,
            calls: CallCount::none(),
        })
    }
}

impl<R: Reader> StartSource for SignedStarts<'_, '_, R> {
    ghost use Rattle.gimli_cfi.specs.HeaderViews.{signed_answers, signed_calls};

    ghost answer = { signed_answers R.position };

    ghost calls = { signed_calls };

    #[inline(always)]
    fn start(&mut self, index: u64) -> Result<u64> {
        self.calls = self.calls.next();
        start_of_row(self.hdr, self.bases, Some(self.base), 4, index)
    }
}

/// The index of a boundary row for the address, found by halving the first `count` rows, of which
/// there is at least one.
///
/// A boundary row is the first one or starts at or below the address; and it is the last one, or
/// starts at the address, or the next one starts above it. It is one by the answers of the source,
/// whatever their order.
///
/// While more than one row is left, the source is asked for the row after the first half of them,
/// rounded down. A row that starts at the address ends the search; one that starts below it leaves
/// the rows from there on, and one above it the rows before.
///
/// Fails as the source does, for an index below the count. The source is called at most `b` times,
/// `b` being the least number with `count <= 2^b`: which rows it is called for, and how often, is
/// determined by what it returns. It does not allocate.
#[inline(always)]
pub fn search_starts<S: StartSource>(source: &mut S, count: u64, address: u64) -> Result<u64>
    requires { 1 ≤ count }
    ensures searched { result ≡ (search (S.answer source.old) count address).found }
    ensures made { S.calls source.new
        ≡ S.calls source.old + (search (S.answer source.old) count address).reads }
    ensures found { IfOk result (IsBoundaryRow (S.answer source.old) count address) }
    ensures refused { IfErr result (IsRefusalOfRow (S.answer source.old) count) }
    ensures calls { S.calls source.new ≤ S.calls source.old + steps count }
    ensures same { S.answer source.new ≡ S.answer source.old }
{
    let mut first = 0;
    let mut len = count;
    while len > 1 {
        let half = len / 2;
        let start = source.start(first + half)?;
        if start == address {
            return Ok(first + half);
        }
        // Which half is left is a number, and no branch, which would often be mispredicted.
        let is_upper = u64::from(start < address);
        first += half * is_upper;
        len = half + len % 2 * is_upper;
    }
    Ok(first)
}
