//! The rows of a table in order.
ghost use Rattle.std.specs.Prelude.{◌≡◌, ◌≤◌, Err, IfSome, Some};
ghost use Rattle.std.specs.Option.{option_transpose};
ghost use Rattle.std.specs.Iterator.{UpTo, YieldsFirst, at_most};
ghost use Rattle.std.specs.Iterator.SizeHint.{IsWithinCount};
ghost use Rattle.cfi_read_core.specs.AddressSizes.{size_in_bytes};
ghost use Rattle.cfi_read_core.specs.CallFrameSections.{IsOf, IsOf_prop};
ghost use Rattle.cfi_read_core.specs.ReaderCalls.{ReadsValue};
ghost use Rattle.cfi_read_core.specs.declared.error.Error.{Error as Refusal};
ghost use Rattle.gimli_cfi.specs.EhFrameHdr.{header_section, row};
ghost use Rattle.gimli_cfi.specs.HeaderRows.{IsStep, MeetsRow, ReadsNextRow, rows_left, walk_of};
ghost use Rattle.gimli_cfi.specs.PassedRows.{MeetsAfter, walk_past};
ghost use Rattle.gimli_cfi.specs.RowReadings.{ReadsRows};

use crate::hdr::header::ParsedEhFrameHdr;
use crate::hdr::row_fields::{base_of_rows, pass_rows, read_pointer, searchable_size};
use cfi_parts::pointer::{BaseAddresses, Pointer};
use cfi_read_core::{Reader, Result};

/// An iterator over the rows of a table, in order: the start and the target of each.
///
/// It ends after as many rows as the header's count. Rows that can't be read count too.
#[derive(Debug, Drop)]
pub struct EhHdrTableIter<'a, 'bases, R: Reader> {
    hdr: &'a ParsedEhFrameHdr<R>,
    table: R,
    bases: &'bases BaseAddresses,
    base: Option<u64>,
    remain: u64,
    ghost chosen: { ReadsRows R.position base hdr.now bases.now },
    ghost of_section: { IsOf (R.position table)
        (R.position hdr.now.section) } by { IsOf_prop (R.position table)
            (R.position hdr.now.section) },
}

impl<'a, 'bases, R: Reader> EhHdrTableIter<'a, 'bases, R> {
    ghost use Rattle.gimli_cfi.specs.HeaderViews.{IsSameTable, header_section_view, rows_view};
    ghost use Rattle.gimli_cfi.specs.HeaderViews.{walk_view};

    /// All rows of the header's table.
    #[inline(always)]
    pub(crate) fn new(hdr: &'a ParsedEhFrameHdr<R>, bases: &'bases BaseAddresses) -> Self
        ensures all { walk_view R.position result
            ≡ walk_of (header_section_view R.position hdr.now bases.now)
            (rows_view R.position hdr.now) }
    {
        EhHdrTableIter {
            hdr,
            table: hdr.table,
            bases,
            base: base_of_rows(hdr, bases),
            remain: hdr.fde_count,
        }
    }

    /// The next row: its start and its target. `None` once as many rows as the count were
    /// returned, and from then on.
    ///
    /// Fails as any pointer of the section does, for the start and then for the target. Such a row
    /// counts: one fewer remains, and the next is read from where the failed read stopped. It does
    /// not allocate.
    #[tactic(auto, unfolding(crate::specs::HeaderRows::next_row))]
    #[inline(always)]
    pub fn next(&mut self) -> Result<Option<(Pointer, Pointer)>>
        ensures read { ReadsNextRow (walk_view R.position self.old) result
            (walk_view R.position self.new) }
        ensures met { MeetsRow result (walk_view R.position self.old)
            (walk_view R.position self.new) }
        ensures after { IsStep (walk_view R.position self.old) (walk_view R.position self.new) }
        ensures same_section_and_bases { IsSameTable self.old self.new }
    {
        if self.remain == 0 {
            return Ok(None);
        }
        self.remain -= 1;
        let mut rows = self.table;
        let found = read_row(self.hdr, self.bases, self.base, &mut rows);
        self.table = rows;
        Ok(Some(found?))
    }

    /// Skips the next `n` rows without reading them, and returns the row after them. `None`, and no
    /// rows left, if no more than `n` remain.
    ///
    /// Fails with `UnsupportedPointerEncoding` of the table's encoding if its format is not
    /// `udata2`, `sdata2`, `udata4`, `sdata4`, `udata8` or `sdata8`, whatever remains; with
    /// `UnsupportedOffset` if the size of `n` rows does not fit a `u64` or the reader's offset
    /// type; and with `UnexpectedEof` if fewer bytes are left. These leave the iterator unchanged.
    /// Then as `next`. It does not allocate.
    #[inline(always)]
    pub fn nth(&mut self, n: usize) -> Result<Option<(Pointer, Pointer)>>
        ensures met { MeetsAfter (walk_past (walk_view R.position self.old) n)
            (walk_view R.position self.old) result (walk_view R.position self.new) }
        ensures unchanged { (e : Refusal) →
            walk_past (walk_view R.position self.old) n ≡ Err e → self.new ≡ self.old }
        ensures same_section_and_bases { IsSameTable self.old self.new }
    {
        let size = searchable_size(self.hdr.table_enc)?;
        let rows = n as u64;
        if self.remain <= rows {
            self.remain = 0;
            return Ok(None);
        }
        let mut table = self.table;
        pass_rows(&mut table, size, rows)?;
        self.table = table;
        self.remain -= rows;
        self.next()
    }
}

impl<R: Reader> Iterator for EhHdrTableIter<'_, '_, R> {
    type Item = Result<(Pointer, Pointer)>;

    ghost use Rattle.gimli_cfi.specs.HeaderViews.{IsSameTable, walk_view};

    ghost next_gives = { λ it row after.
        YieldsFirst (λ walk. rows_left (walk_view R.position walk)) it row after
        × ReadsNextRow (walk_view R.position it) (option_transpose row) (walk_view R.position after)
        × IsStep (walk_view R.position it) (walk_view R.position after)
        × IsSameTable it after };

    ghost remaining = { λ it. at_most (walk_view R.position it).count };

    #[inline(always)]
    fn next(&mut self) -> Option<Result<(Pointer, Pointer)>> {
        EhHdrTableIter::next(self).transpose()
    }

    /// How many rows remain, for both bounds. Rows that can't be read count too.
    #[inline(always)]
    fn size_hint(&self) -> (usize, Option<usize>)
        ensures lower { IsWithinCount result.0 (at_most (walk_view R.position self.now).count) }
        ensures upper { IfSome result.1 (UpTo (at_most (walk_view R.position self.now).count)) }
        ensures exact { let rows = (walk_view R.position self.now).count in
            result ≡ (rows, Some rows) }
    {
        let rows = self.remain as usize;
        (rows, Some(rows))
    }
}

/// Reads a row: its start and its target.
#[tactic(auto, unfolding(crate::specs::EhFrameHdr::row_by))]
#[inline(always)]
fn read_row<R: Reader>(
    hdr: &ParsedEhFrameHdr<R>,
    bases: &BaseAddresses,
    base: Option<u64>,
    input: &mut R,
) -> Result<(Pointer, Pointer)>
    requires chosen { ReadsRows R.position base hdr.now bases.now }
    requires behind { (R.position hdr.now.section).place ≤ (R.position input.old).place }
    ensures { let section = header_section (R.position hdr.now.section)
        (size_in_bytes hdr.now.address_size) bases.now.eh_frame_hdr in
        ReadsValue R.position (row section hdr.now.table_enc.0) input.old result input.new }
{
    let start = read_pointer(hdr, bases, base, input)?;
    let target = read_pointer(hdr, bases, base, input)?;
    Ok((start, target))
}
