//! The table of a header: its rows in order, and the lookup of an address in them.
ghost use Rattle.std.specs.Prelude.{◌≡◌, ℕ, ◌+◌, ◌≤◌, ⊤, IsSome, None, length};
ghost use Rattle.cfi_read_core.specs.ReaderCalls.{map_ok};
ghost use Rattle.gimli_cfi.specs.BoundaryRows.{AreRising, IsLastUpTo};
ghost use Rattle.gimli_cfi.specs.EhFrameHdr.{value_size};
ghost use Rattle.gimli_cfi.specs.Halving.{looked_up, search, table_reads};
ghost use Rattle.gimli_cfi.specs.HalvingSteps.{steps};
ghost use Rattle.gimli_cfi.specs.HeaderRows.{rows_left, walk_of};
ghost use Rattle.gimli_cfi.specs.TableLookup.{IsFoundBySearch};

use crate::call_count::CallCount;
use crate::hdr::header::ParsedEhFrameHdr;
use crate::hdr::iter::EhHdrTableIter;
use crate::hdr::row_fields::{searchable_size, target_of_row};
use crate::hdr::starts::{SignedStarts, StartSource, TableStarts, search_starts};
use cfi_parts::pointer::{BaseAddresses, Pointer};
use cfi_read_core::{EhFrameOffset, Error, Reader, ReaderOffset, Result};
use std::alloc::AllocError;

/// The table of a header, which has at least one row.
///
/// Each row has the first address of an FDE and a pointer to the FDE, in the same encoding (LSB
/// Core, "The .eh_frame_hdr section").
#[derive(Debug)]
pub struct EhHdrTable<'a, R: Reader> {
    pub(crate) hdr: &'a ParsedEhFrameHdr<R>,
    ghost filled: { 1 ≤ hdr.now.fde_count },
}

impl<R: Reader> Clone for EhHdrTable<'_, R> {
    ghost is_clone = { λ x y. y ≡ x };

    ghost is_infallible = { λ _. ⊤ };

    #[inline(always)]
    fn clone(&self) -> std::result::Result<Self, AllocError> {
        Ok(*self)
    }
}

impl<R: Reader> Copy for EhHdrTable<'_, R> {}

impl<'a, R: Reader> EhHdrTable<'a, R> {
    ghost use Rattle.gimli_cfi.specs.HeaderViews.{table_header, table_section_view};
    ghost use Rattle.gimli_cfi.specs.HeaderViews.{table_view, walk_view};

    /// The table of a header that has rows.
    #[inline(always)]
    pub(crate) fn new(hdr: &'a ParsedEhFrameHdr<R>) -> Self
        requires { 1 ≤ hdr.now.fde_count }
        ensures { table_header result ≡ hdr.now }
    {
        EhHdrTable { hdr }
    }

    /// The rows in order, as many as the header's count. None is read yet.
    ///
    /// The bases are those in `BaseAddresses::eh_frame_hdr`; the address size is the one that the
    /// header was parsed with.
    #[inline(always)]
    pub fn iter<'bases>(&self, bases: &'bases BaseAddresses) -> EhHdrTableIter<'a, 'bases, R>
        ensures all { walk_view R.position result
            ≡ walk_of (table_section_view R.position self.now bases.now)
            (table_view R.position self.now) }
        ensures many { length (rows_left (walk_view R.position result))
            ≡ (table_view R.position self.now).count }
    {
        EhHdrTableIter::new(self.hdr, bases)
    }
}

impl<R: Reader> EhHdrTable<'_, R> {
    ghost use Rattle.gimli_cfi.specs.HeaderViews.{table_offset, table_starts, table_targets};
    ghost use Rattle.gimli_cfi.specs.HeaderViews.{table_view};

    /// The target of a boundary row for the address: where the FDE for the address is, if the table
    /// has one.
    ///
    /// A boundary row is the first one or starts at or below the address; and it is the last one,
    /// or starts at the address, or the next one starts above it. If the starts rise, that is the
    /// last row that starts at or below the address, or the first row if there is none. In any
    /// order it is the row that `search_starts` finds, as in gimli. The FDE there need not contain
    /// the address.
    ///
    /// Fails with `UnsupportedPointerEncoding` of the table's encoding if its format is not
    /// `udata2`, `sdata2`, `udata4`, `sdata4`, `udata8` or `sdata8`; with the error of the start of
    /// a row, as `TableStarts` says; else with that of the boundary row's target:
    /// `UnsupportedOffset` and `UnexpectedEof` as for its start, `UnexpectedEof` at the row if the
    /// table ends before the target, and as any pointer of the section. It reads at most as many
    /// starts as halving the rows takes, so at most 64, and does not allocate (LSB Core, "The
    /// .eh_frame_hdr section").
    ///
    /// The bases are those in `BaseAddresses::eh_frame_hdr`.
    #[inline(always)]
    pub fn lookup(&self, address: u64, bases: &BaseAddresses) -> Result<Pointer>
        ensures found { IsFoundBySearch (table_starts R.position self.now bases.now)
            (table_view R.position self.now) address
            (table_targets R.position self.now bases.now) result }
        ensures searched { let table = table_view R.position self.now in
            let starts = table_starts R.position self.now bases.now in
            result ≡ looked_up table (table_targets R.position self.now bases.now)
            (search starts table.count address).found }
        ensures rising { let table = table_view R.position self.now in
            let starts = table_starts R.position self.now bases.now in
            IsSome (value_size table.encoding) → AreRising starts table.count →
            (k : ℕ) × IsLastUpTo starts table.count address k
            × (result ≡ table_targets R.position self.now bases.now k) }
    {
        let (target, _reads) = self.lookup_counted(address, bases);
        target
    }

    /// What `lookup` returns, with how many starts it read. The count is for contracts alone, and
    /// has no size at run time.
    #[inline(always)]
    pub fn lookup_counted(
        &self,
        address: u64,
        bases: &BaseAddresses,
    ) -> (Result<Pointer>, CallCount)
        ensures found { IsFoundBySearch (table_starts R.position self.now bases.now)
            (table_view R.position self.now) address
            (table_targets R.position self.now bases.now) result.0 }
        ensures searched { let table = table_view R.position self.now in
            let starts = table_starts R.position self.now bases.now in
            result.0 ≡ looked_up table (table_targets R.position self.now bases.now)
            (search starts table.count address).found }
        ensures reads { let table = table_view R.position self.now in
            let starts = table_starts R.position self.now bases.now in
            result.1.calls ≡ table_reads table (search starts table.count address).reads }
        ensures few { result.1.calls ≤ steps (table_view R.position self.now).count }
    {
        if let Some(mut starts) = SignedStarts::new(self, bases) {
            let target = self.lookup_in(&mut starts, address, bases);
            return (target, starts.calls);
        }
        let mut starts = match TableStarts::new(self, bases) {
            Ok(starts) => starts,
            Err(error) => return (Err(error), CallCount::none()),
        };
        let target = self.lookup_in(&mut starts, address, bases);
        (target, starts.calls)
    }

    /// What `lookup` returns, with a source of starts in place of the table's own.
    ///
    /// An error of the source that is returned is that of a row below the count. The source is
    /// called at most as often as halving the rows takes, and not at all if the format can't be
    /// searched.
    #[inline(always)]
    pub fn lookup_in<St: StartSource>(
        &self,
        starts: &mut St,
        address: u64,
        bases: &BaseAddresses,
    ) -> Result<Pointer>
        ensures found { IsFoundBySearch (St.answer starts.old) (table_view R.position self.now)
            address (table_targets R.position self.now bases.now) result }
        ensures searched { let table = table_view R.position self.now in
            result ≡ looked_up table (table_targets R.position self.now bases.now)
            (search (St.answer starts.old) table.count address).found }
        ensures made { let table = table_view R.position self.now in
            St.calls starts.new ≡ St.calls starts.old
            + table_reads table (search (St.answer starts.old) table.count address).reads }
        ensures calls { St.calls starts.new
            ≤ St.calls starts.old + steps (table_view R.position self.now).count }
        ensures not_asked { value_size (table_view R.position self.now).encoding ≡ None →
            St.calls starts.new ≡ St.calls starts.old }
        ensures same { St.answer starts.new ≡ St.answer starts.old }
    {
        let size = searchable_size(self.hdr.table_enc)?;
        let row = search_starts(starts, self.hdr.fde_count, address)?;
        target_of_row(self.hdr, bases, size, row)
    }

    /// The offset in `.eh_frame` of what a pointer points to: how far it is above the header's
    /// pointer to `.eh_frame`.
    ///
    /// Fails with `UnsupportedIndirectPointer` if one of the two is indirect, with
    /// `OffsetOutOfBounds` of the pointer if it is below the other, and with `UnsupportedOffset` if
    /// the difference does not fit the reader's offset type. It does not allocate.
    #[inline(always)]
    pub fn pointer_to_offset(&self, ptr: Pointer) -> Result<EhFrameOffset<R::Offset>>
        ensures { map_ok (λ offset. R.Offset.number offset.0) result
            ≡ table_offset R.position self.now ptr }
    {
        let base = self.hdr.eh_frame_ptr.direct()?;
        let address = ptr.direct()?;
        let Some(distance) = address.checked_sub(base) else {
            return Err(Error::OffsetOutOfBounds(address));
        };
        Ok(EhFrameOffset(R::Offset::from_u64(distance)?))
    }
}
