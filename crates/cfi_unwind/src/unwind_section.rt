//! What a call frame section is asked for: its entries, a CIE or an FDE, and the row of an address.
ghost use Rattle.std.specs.Prelude.{◌≡◌, IfOk};
ghost use Rattle.cfi_read_core.specs.ReaderCalls.{map_ok};
ghost use Rattle.cfi_entry.specs.Entries.{cie_at, partial_fde_at};
ghost use Rattle.cfi_entry.specs.EntryViews.{IsCieOf, cie_view};
ghost use Rattle.cfi_entry.specs.Fdes.{Covers};
ghost use Rattle.cfi_entry.specs.Sections.{section_of};
ghost use Rattle.cfi_state.specs.MappedStates.{row_lent};
ghost use Rattle.cfi_state.specs.Row.{RowContains};
ghost use Rattle.cfi_state.specs.RowExpressions.{HasExpressionsIn};
ghost use Rattle.cfi_unwind.specs.AddressRow.{ScansForRow, ScansForRowFrom};
ghost use Rattle.cfi_unwind.specs.CachedCie.{GetsCie};
ghost use Rattle.cfi_unwind.specs.EntryIterators.{IsAtStart, walk_bases, walk_section};
ghost use Rattle.cfi_unwind.specs.FdeViews.{HasCieOf, IsFdeOf, fde_cie, fde_view};
ghost use Rattle.cfi_unwind.specs.GetCieCalls.{AsksForCie, GivesCiesOf, IsAnswered};
ghost use Rattle.cfi_unwind.specs.GetCieCalls.{ReadsFdeAt, ScansForFde};
ghost use Rattle.cfi_unwind.specs.Scan.{chosen_fde};
ghost use Rattle.cfi_unwind.specs.WalkViews.{IsPartialOf, partial_view};

use crate::cie_cache::CieCache;
use crate::entry::entries::partial_fde_at;
use crate::entry::{
    CfiEntriesIter, CieOrFde, CommonInformationEntry, FrameDescriptionEntry,
    PartialFrameDescriptionEntry,
};
use cfi_entry::cie::cie_at;
pub use cfi_entry::debug_frame::DebugFrame;
pub use cfi_entry::eh_frame::EhFrame;
use cfi_entry::in_section::InSection;
use cfi_parts::pointer::BaseAddresses;
use cfi_read_core::section_properties::{_UnwindSectionPrivate, UnwindOffset};
use cfi_read_core::{DebugFrameOffset, EhFrameOffset, Error, Reader, Result};
use cfi_state::storage::UnwindContextStorage;
use cfi_state::table::context::UnwindContext;
use cfi_state::table::row::UnwindTableRow;
use std::fmt::Debug;

/// A call frame section (DWARF 5 section 6.4.1; LSB Core, "The .eh_frame section").
///
/// The bases are those of the pointers in the section's entries, in `BaseAddresses::eh_frame` for
/// both sections. Only the making of rows may allocate.
///
/// An implementation may replace `entries`, `cie_from_offset` and `partial_fde_from_offset`; its
/// own bodies owe the same contracts.
pub trait UnwindSection<R: Reader>: Copy + Debug + _UnwindSectionPrivate<R> {
    /// An offset in the section.
    type Offset: UnwindOffset<R::Offset>;

    /// Iterates over all entries of the section, from its beginning. None is read yet.
    #[inline(always)]
    fn entries<'bases>(&self, bases: &'bases BaseAddresses) -> CfiEntriesIter<'bases, Self, R>
        ensures section { walk_section result ≡ self.now }
        ensures bases { walk_bases result ≡ bases.now }
        ensures all { IsAtStart Self.view R.position result }
    {
        CfiEntriesIter::new(self, bases)
    }

    /// Reads the CIE at an offset of the section.
    ///
    /// Fails with `UnexpectedEof` of the section's first place where the offset is past the
    /// section's end, with `NoEntryAtGivenOffset` at a length of zero, with `NotCieId` where the id
    /// there is not a CIE's, and as the bytes of the CIE show.
    #[inline(always)]
    fn cie_from_offset(
        &self,
        bases: &BaseAddresses,
        offset: Self::Offset,
    ) -> Result<CommonInformationEntry<R>>
        ensures read { map_ok (cie_view R.position R.Offset.number) result
            ≡ cie_at (section_of (Self.view self.now) bases.now)
            (R.Offset.number (Self.Offset.offset offset)) }
        ensures part { IfOk result (IsCieOf R.position (Self.view self.now).position) }
    {
        let section = *self;
        cie_at(&InSection { section, bases }, UnwindOffset::into(offset))
    }

    /// Reads the FDE at an offset of the section, as far as the offset of its CIE.
    ///
    /// Fails as `cie_from_offset`, but with `NotCiePointer` where the id there is a CIE's; then
    /// with `UnsupportedOffset` where the id does not fit the offset type, and with
    /// `OffsetOutOfBounds` where the CIE would be before the section.
    #[inline(always)]
    fn partial_fde_from_offset<'bases>(
        &self,
        bases: &'bases BaseAddresses,
        offset: Self::Offset,
    ) -> Result<PartialFrameDescriptionEntry<'bases, Self, R>>
        ensures read { map_ok (partial_view R.position R.Offset.number) result
            ≡ partial_fde_at (section_of (Self.view self.now) bases.now)
            (R.Offset.number (Self.Offset.offset offset)) }
        ensures same_section_and_bases { IfOk result (IsPartialOf self.now bases.now) }
    {
        let section = *self;
        partial_fde_at(&InSection { section, bases }, UnwindOffset::into(offset))
    }

    /// Reads the FDE at an offset of the section, with the CIE that `get_cie` returns for the
    /// offset to which it points.
    ///
    /// Fails as `partial_fde_from_offset`, before `get_cie` is called; then with the error of
    /// `get_cie`, and as the bytes of the entry show.
    final fn fde_from_offset<F>(
        &self,
        bases: &BaseAddresses,
        offset: Self::Offset,
        mut get_cie: F,
    ) -> Result<FrameDescriptionEntry<R>>
    where
        F: FnMut(&Self, &BaseAddresses, Self::Offset) -> Result<CommonInformationEntry<R>>,
        requires { F.IsAlwaysCallable get_cie }
        ensures read { (last : F) × ReadsFdeAt
            (AsksForCie F.FnMut R.position R.Offset.number Self.Offset.offset self.now bases.now)
            (fde_view R.position R.Offset.number) (section_of (Self.view self.now) bases.now)
            (R.Offset.number (Self.Offset.offset offset)) get_cie result last }
        ensures cie { IfOk result (λ fde.
            IsAnswered F.FnMut self.now bases.now get_cie (fde_cie fde)) }
        ensures part { IfOk result (IsFdeOf R.position (Self.view self.now).position) }
    {
        self.fde_from_offset_with(bases, offset, &mut get_cie)
    }

    /// Reads the FDE at an offset of the section, as `fde_from_offset`, and borrows `get_cie`, so
    /// that the caller can use what it keeps.
    ///
    /// `get_cie` is called once, or not at all where the way to the offset of the CIE fails. The
    /// contract names the state in which it is left.
    final fn fde_from_offset_with<F>(
        &self,
        bases: &BaseAddresses,
        offset: Self::Offset,
        get_cie: &mut F,
    ) -> Result<FrameDescriptionEntry<R>>
    where
        F: FnMut(&Self, &BaseAddresses, Self::Offset) -> Result<CommonInformationEntry<R>>,
        requires { F.IsAlwaysCallable get_cie.old }
        ensures read { ReadsFdeAt
            (AsksForCie F.FnMut R.position R.Offset.number Self.Offset.offset self.now bases.now)
            (fde_view R.position R.Offset.number) (section_of (Self.view self.now) bases.now)
            (R.Offset.number (Self.Offset.offset offset)) get_cie.old result get_cie.new }
        ensures cie { IfOk result (λ fde.
            IsAnswered F.FnMut self.now bases.now get_cie.old (fde_cie fde)) }
        ensures part { IfOk result (IsFdeOf R.position (Self.view self.now).position) }
    {
        let partial = self.partial_fde_from_offset(bases, offset)?;
        partial.parse_with(get_cie)
    }

    /// Returns the first FDE, in the order of the entries, that contains the address, with the CIEs
    /// that `get_cie` returns for the FDEs before it and for itself.
    ///
    /// Fails with the first error of an entry, of `get_cie` or of an FDE before it, and with
    /// `NoUnwindInfoForAddress` where no FDE contains the address.
    final fn fde_for_address<F>(
        &self,
        bases: &BaseAddresses,
        address: u64,
        mut get_cie: F,
    ) -> Result<FrameDescriptionEntry<R>>
    where
        F: FnMut(&Self, &BaseAddresses, Self::Offset) -> Result<CommonInformationEntry<R>>,
        requires { F.IsAlwaysCallable get_cie }
        ensures scan { (last : F) × ScansForFde
            (AsksForCie F.FnMut R.position R.Offset.number Self.Offset.offset self.now bases.now)
            (fde_view R.position R.Offset.number) (section_of (Self.view self.now) bases.now)
            address get_cie result last }
        ensures cie { IfOk result (λ fde.
            IsAnswered F.FnMut self.now bases.now get_cie (fde_cie fde)) }
        ensures part { IfOk result (IsFdeOf R.position (Self.view self.now).position) }
        ensures contains { IfOk result (λ fde.
            Covers (fde_view R.position R.Offset.number fde) address) }
    {
        self.fde_for_address_with(bases, address, &mut get_cie)
    }

    /// Returns that FDE, as `fde_for_address`, and borrows `get_cie`, so that the caller can use
    /// what it keeps.
    ///
    /// `get_cie` is called once for each FDE up to the one that contains the address, in their
    /// order, and no more. The contract names the state in which it is left.
    final fn fde_for_address_with<F>(
        &self,
        bases: &BaseAddresses,
        address: u64,
        get_cie: &mut F,
    ) -> Result<FrameDescriptionEntry<R>>
    where
        F: FnMut(&Self, &BaseAddresses, Self::Offset) -> Result<CommonInformationEntry<R>>,
        requires { F.IsAlwaysCallable get_cie.old }
        ensures scan { ScansForFde
            (AsksForCie F.FnMut R.position R.Offset.number Self.Offset.offset self.now bases.now)
            (fde_view R.position R.Offset.number) (section_of (Self.view self.now) bases.now)
            address get_cie.old result get_cie.new }
        ensures cie { IfOk result (λ fde.
            IsAnswered F.FnMut self.now bases.now get_cie.old (fde_cie fde)) }
        ensures part { IfOk result (IsFdeOf R.position (Self.view self.now).position) }
        ensures contains { IfOk result (λ fde.
            Covers (fde_view R.position R.Offset.number fde) address) }
    {
        let mut entries = self.entries(bases);
        while let Some(entry) = entries.next()? {
            if let CieOrFde::Fde(partial) = entry {
                let cie = get_cie(self, bases, Self::Offset::from(partial.cie_offset))?;
                let fde = partial.with_cie(&cie)?;
                if fde.contains(address) {
                    return Ok(fde);
                }
            }
        }
        Err(Error::NoUnwindInfoForAddress)
    }

    /// Returns the row of that FDE for the address, borrowed from the context.
    ///
    /// Each CIE that `get_cie` returns must be of this section. Fails as `fde_for_address`; else
    /// as the FDE's own `unwind_info_for_address`, during which `get_cie` is not called. The past
    /// of the context does not matter. With a fixed storage it never fails with `OutOfMemory`; with
    /// another one it may.
    final fn unwind_info_for_address<'ctx, S, F>(
        &self,
        bases: &BaseAddresses,
        ctx: &'ctx mut UnwindContext<R::Offset, S>,
        address: u64,
        mut get_cie: F,
    ) -> Result<&'ctx UnwindTableRow<R::Offset, S::Rules>>
    where
        S: UnwindContextStorage<R::Offset>,
        F: FnMut(&Self, &BaseAddresses, Self::Offset) -> Result<CommonInformationEntry<R>>,
        requires callable { F.IsAlwaysCallable get_cie }
        requires of_section { GivesCiesOf F.FnMut R.position (Self.view self.now).position
            self.now bases.now get_cie }
        ensures row { ScansForRowFrom
            (AsksForCie F.FnMut R.position R.Offset.number Self.Offset.offset self.now bases.now)
            S.Rules.limit S.Stack.limit S.Rules.copies_free
            (section_of (Self.view self.now) bases.now)
            address get_cie (row_lent R.Offset.number result) }
        ensures contains { IfOk result (λ row. RowContains address row.now) }
        ensures expressions { IfOk result (λ row.
            HasExpressionsIn R.Offset.number (Self.view self.now).position row.now.parts) }
    {
        self.unwind_info_for_address_with(bases, ctx, address, &mut get_cie)
    }

    /// Returns that row, as `unwind_info_for_address`, and borrows `get_cie`, so that the caller
    /// can use what it keeps.
    ///
    /// `get_cie` is called as by `fde_for_address_with`, and the contract names the state in which
    /// it is left.
    final fn unwind_info_for_address_with<'ctx, S, F>(
        &self,
        bases: &BaseAddresses,
        ctx: &'ctx mut UnwindContext<R::Offset, S>,
        address: u64,
        get_cie: &mut F,
    ) -> Result<&'ctx UnwindTableRow<R::Offset, S::Rules>>
    where
        S: UnwindContextStorage<R::Offset>,
        F: FnMut(&Self, &BaseAddresses, Self::Offset) -> Result<CommonInformationEntry<R>>,
        requires callable { F.IsAlwaysCallable get_cie.old }
        requires of_section { GivesCiesOf F.FnMut R.position (Self.view self.now).position
            self.now bases.now get_cie.old }
        ensures row { ScansForRow
            (AsksForCie F.FnMut R.position R.Offset.number Self.Offset.offset self.now bases.now)
            S.Rules.limit S.Stack.limit S.Rules.copies_free
            (section_of (Self.view self.now) bases.now)
            address get_cie.old (row_lent R.Offset.number result) get_cie.new }
        ensures contains { IfOk result (λ row. RowContains address row.now) }
        ensures expressions { IfOk result (λ row.
            HasExpressionsIn R.Offset.number (Self.view self.now).position row.now.parts) }
    {
        let fde = self.fde_for_address_with(bases, address, get_cie)?;
        fde.unwind_info_for_address(self, bases, ctx, address)
    }
}

impl<R: Reader> UnwindSection<R> for DebugFrame<R> {
    type Offset = DebugFrameOffset<R::Offset>;

    #[inline(always)]
    fn cie_from_offset(
        &self,
        bases: &BaseAddresses,
        offset: DebugFrameOffset<R::Offset>,
    ) -> Result<CommonInformationEntry<R>> {
        let section = *self;
        cie_at(&InSection { section, bases }, offset.0)
    }

    #[inline(always)]
    fn partial_fde_from_offset<'bases>(
        &self,
        bases: &'bases BaseAddresses,
        offset: DebugFrameOffset<R::Offset>,
    ) -> Result<PartialFrameDescriptionEntry<'bases, Self, R>> {
        let section = *self;
        partial_fde_at(&InSection { section, bases }, offset.0)
    }
}

impl<R: Reader> UnwindSection<R> for EhFrame<R> {
    type Offset = EhFrameOffset<R::Offset>;

    #[inline(always)]
    fn cie_from_offset(
        &self,
        bases: &BaseAddresses,
        offset: EhFrameOffset<R::Offset>,
    ) -> Result<CommonInformationEntry<R>> {
        let section = *self;
        cie_at(&InSection { section, bases }, offset.0)
    }

    #[inline(always)]
    fn partial_fde_from_offset<'bases>(
        &self,
        bases: &'bases BaseAddresses,
        offset: EhFrameOffset<R::Offset>,
    ) -> Result<PartialFrameDescriptionEntry<'bases, Self, R>> {
        let section = *self;
        partial_fde_at(&InSection { section, bases }, offset.0)
    }
}

/// Returns the section's first FDE that contains the address, with the CIE to which it points.
///
/// Fails with the first error of an entry before it, and with `NoUnwindInfoForAddress` where no FDE
/// contains the address.
pub fn scan_for_fde<R: Reader, S: UnwindSection<R>>(
    section: &S,
    bases: &BaseAddresses,
    address: u64,
) -> Result<FrameDescriptionEntry<R>>
    ensures scan { map_ok (fde_view R.position R.Offset.number) result
        ≡ chosen_fde (section_of (S.view section.now) bases.now) address }
    ensures part { IfOk result (IsFdeOf R.position (S.view section.now).position) }
    ensures cie_part { IfOk result (HasCieOf R.position (S.view section.now).position) }
    ensures contains { IfOk result (λ fde.
        Covers (fde_view R.position R.Offset.number fde) address) }
{
    let mut cache = CieCache::new();
    section.fde_for_address(
        bases,
        address,
        |from: &S, bases: &BaseAddresses, offset: S::Offset|
            ensures { GetsCie R.position R.Offset.number (S.view from.now) bases.now
                cache.entry (R.Offset.number (S.Offset.offset offset)) result cache.exit }
        { cache.get(from, bases, offset) },
    )
}
