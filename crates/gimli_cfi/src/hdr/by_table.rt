//! The FDE and the unwind row of an address, by a header's table.
ghost use Rattle.std.specs.Prelude.{◌≡◌, ◌+◌, ◌≤◌, IfOk, None, Ok};
ghost use Rattle.cfi_read_core.specs.ReaderCalls.{map_ok};
ghost use Rattle.cfi_entry.specs.Fdes.{Covers};
ghost use Rattle.cfi_entry.specs.SectionViews.{eh_frame_view};
ghost use Rattle.cfi_state.specs.MappedStates.{row_lent};
ghost use Rattle.cfi_state.specs.Row.{RowContains};
ghost use Rattle.cfi_state.specs.RowExpressions.{HasExpressionsIn};
ghost use Rattle.cfi_unwind.specs.AddressRow.{IsRowByScan};
ghost use Rattle.cfi_unwind.specs.FdeViews.{HasCieOf, IsFdeOf, fde_cie, fde_view};
ghost use Rattle.cfi_unwind.specs.GetCieCalls.{AsksForCie, GivesCiesOf, IsAnswered};
ghost use Rattle.gimli_cfi.specs.EhFrameHdr.{value_size};
ghost use Rattle.gimli_cfi.specs.Halving.{search, table_reads};
ghost use Rattle.gimli_cfi.specs.HalvingSteps.{steps};
ghost use Rattle.gimli_cfi.specs.HeaderViews.{listing_view, section_view};
ghost use Rattle.gimli_cfi.specs.HeaderViews.{table_offset, table_starts, table_view};
ghost use Rattle.gimli_cfi.specs.RowsByTable.{FindsFde, FindsRow, IfFaithful, IsFdeFound};
ghost use Rattle.gimli_cfi.specs.RowsByTable.{IsRowByTable, LeadsToRow};
ghost use Rattle.gimli_cfi.specs.TableLookup.{ReadsAt, fde_by_target};

use crate::call_count::CallCount;
use crate::hdr::starts::StartSource;
use crate::hdr::table::EhHdrTable;
use cfi_parts::pointer::{BaseAddresses, Pointer};
use cfi_read_core::section_properties::_UnwindSectionPrivate;
use cfi_read_core::{EhFrameOffset, Error, Reader, Result};
use cfi_state::storage::UnwindContextStorage;
use cfi_state::table::context::UnwindContext;
use cfi_state::table::row::UnwindTableRow;
use cfi_unwind::entry::{CommonInformationEntry, FrameDescriptionEntry};
use cfi_unwind::unwind_section::{EhFrame, UnwindSection};

/// An offset in `.eh_frame`, as this reader counts.
type Offset<R> = EhFrameOffset<<R as Reader>::Offset>;

/// The unwind row of the address in the section, borrowed from the context, by a header's table.
///
/// It is the row of the FDE at the target of the boundary row for the address that `search_starts`
/// finds, by the answers of the source. If the table lists the FDEs of the section faithfully and
/// the source answers the starts of its rows, as `TableStarts` does, it is what `row_by_scan`
/// returns, row or error.
///
/// Fails as `EhHdrTable::lookup_in`, then as `pointer_to_offset` for the target and as
/// `fde_from_offset` with `cie_from_offset` for the FDE there, and with `NoUnwindInfoForAddress` if
/// that FDE doesn't contain the address; then as the FDE's `unwind_info_for_address`. The source is
/// called at most as often as halving the rows takes. The bases of the header are those in
/// `BaseAddresses::eh_frame_hdr`, those of the section's entries in `BaseAddresses::eh_frame`. Over
/// a fixed storage it does not allocate; over another one it may fail with `OutOfMemory` (LSB Core,
/// "The .eh_frame_hdr section").
///
/// # Example
///
/// ```
/// let bases = BaseAddresses::default().set_eh_frame_hdr(0x1f00).set_eh_frame(0x2000);
/// let header = EhFrameHdr::new(header_bytes, LittleEndian).parse(&bases, 8)?;
/// if let Some(table) = header.table() {
///     let mut starts = TableStarts::new(&table, &bases)?;
///     let row = row_by_table(&table, &mut starts, &eh_frame, &bases, &mut context, 0x1018)?;
/// }
/// ```
pub fn row_by_table<'ctx, R: Reader, St: StartSource, S: UnwindContextStorage<R::Offset>>(
    table: &EhHdrTable<'_, R>,
    starts: &mut St,
    frame: &EhFrame<R>,
    bases: &BaseAddresses,
    ctx: &'ctx mut UnwindContext<R::Offset, S>,
    address: u64,
) -> Result<&'ctx UnwindTableRow<R::Offset, S::Rules>>
    ensures found { IsRowByTable S.Rules.limit S.Stack.limit S.Rules.copies_free
        (St.answer starts.old) (listing_view R.position table.now frame.now bases.now) address
        (row_lent R.Offset.number result) }
    ensures contains { IfOk result (λ row. RowContains address row.now) }
    ensures expressions { IfOk result (λ row. HasExpressionsIn R.Offset.number
        (eh_frame_view R.position frame.now).position row.now.parts) }
    ensures faithful { let listing = listing_view R.position table.now frame.now bases.now in
        IfFaithful (St.answer starts.old) listing
        (IsRowByScan S.Rules.limit S.Stack.limit S.Rules.copies_free listing.section address
        (row_lent R.Offset.number result)) }
    ensures calls { St.calls starts.new
        ≤ St.calls starts.old + steps (table_view R.position table.now).count }
    ensures not_asked { value_size (table_view R.position table.now).encoding ≡ None →
        St.calls starts.new ≡ St.calls starts.old }
    ensures same { St.answer starts.new ≡ St.answer starts.old }
{
    let fde = table_fde(table, starts, frame, bases, address)?;
    fde.unwind_info_for_address(frame, bases, ctx, address)
}

/// The FDE that the table names for the address, with the CIE that it points to.
#[inline(always)]
pub(crate) fn table_fde<R: Reader, St: StartSource>(
    table: &EhHdrTable<'_, R>,
    starts: &mut St,
    frame: &EhFrame<R>,
    bases: &BaseAddresses,
    address: u64,
) -> Result<FrameDescriptionEntry<R>>
    ensures found { IsFdeFound (St.answer starts.old)
        (listing_view R.position table.now frame.now bases.now) address
        (map_ok (fde_view R.position R.Offset.number) result) }
    ensures part { IfOk result (IsFdeOf R.position (eh_frame_view R.position frame.now).position) }
    ensures cie_part { IfOk result
        (HasCieOf R.position (eh_frame_view R.position frame.now).position) }
    ensures contains { IfOk result (λ fde.
        Covers (fde_view R.position R.Offset.number fde) address) }
    ensures calls { St.calls starts.new
        ≤ St.calls starts.old + steps (table_view R.position table.now).count }
    ensures not_asked { value_size (table_view R.position table.now).encoding ≡ None →
        St.calls starts.new ≡ St.calls starts.old }
    ensures same { St.answer starts.new ≡ St.answer starts.old }
{
    let target = table.lookup_in(starts, address, bases)?;
    fde_of_target(table, target, frame, bases, address)
}

/// The FDE that the table names for the address by the starts in its rows, and how many of these
/// were read.
#[inline(always)]
pub(crate) fn own_table_fde<R: Reader>(
    table: &EhHdrTable<'_, R>,
    frame: &EhFrame<R>,
    bases: &BaseAddresses,
    address: u64,
) -> (Result<FrameDescriptionEntry<R>>, CallCount)
    ensures found { IsFdeFound (table_starts R.position table.now bases.now)
        (listing_view R.position table.now frame.now bases.now) address
        (map_ok (fde_view R.position R.Offset.number) result.0) }
    ensures part { IfOk result.0
        (IsFdeOf R.position (eh_frame_view R.position frame.now).position) }
    ensures cie_part { IfOk result.0
        (HasCieOf R.position (eh_frame_view R.position frame.now).position) }
    ensures contains { IfOk result.0 (λ fde.
        Covers (fde_view R.position R.Offset.number fde) address) }
    ensures reads { let rows = table_view R.position table.now in
        let starts = table_starts R.position table.now bases.now in
        result.1.calls ≡ table_reads rows (search starts rows.count address).reads }
    ensures few { result.1.calls ≤ steps (table_view R.position table.now).count }
{
    let (target, reads) = table.lookup_counted(address, bases);
    match target {
        Ok(target) => (fde_of_target(table, target, frame, bases, address), reads),
        Err(error) => (Err(error), reads),
    }
}

/// The FDE that a target names, with the CIE that it points to, if it contains the address.
#[inline(always)]
fn fde_of_target<R: Reader>(
    table: &EhHdrTable<'_, R>,
    target: Pointer,
    frame: &EhFrame<R>,
    bases: &BaseAddresses,
    address: u64,
) -> Result<FrameDescriptionEntry<R>>
    ensures found { let listing = listing_view R.position table.now frame.now bases.now in
        map_ok (fde_view R.position R.Offset.number) result
        ≡ fde_by_target listing.header listing.section listing.eh_frame address (Ok target) }
    ensures part { IfOk result (IsFdeOf R.position (eh_frame_view R.position frame.now).position) }
    ensures cie_part { IfOk result
        (HasCieOf R.position (eh_frame_view R.position frame.now).position) }
    ensures contains { IfOk result (λ fde.
        Covers (fde_view R.position R.Offset.number fde) address) }
{
    let reader = *frame.section();
    fde_at_target(
        table,
        target,
        frame,
        bases,
        address,
        &mut |from: &EhFrame<R>, bases: &BaseAddresses, offset: Offset<R>| {
            // The checker takes the closure only if it captures a value of the reader's type.
            let _reader = reader;
            from.cie_from_offset(bases, offset)
        },
    )
}

/// The FDE at a target, if it contains the address. `get_cie` is borrowed, so that the contract can
/// name the state in which it is left.
#[inline(always)]
fn fde_at_target<R: Reader, F>(
    table: &EhHdrTable<'_, R>,
    target: Pointer,
    frame: &EhFrame<R>,
    bases: &BaseAddresses,
    address: u64,
    get_cie: &mut F,
) -> Result<FrameDescriptionEntry<R>>
where
    F: FnMut(&EhFrame<R>, &BaseAddresses, Offset<R>) -> Result<CommonInformationEntry<R>>,
    requires { F.IsAlwaysCallable get_cie.old }
    ensures read { ReadsAt
        (AsksForCie F.FnMut R.position R.Offset.number (λ o. o.0) frame.now bases.now)
        (section_view R.position frame.now bases.now) address
        (table_offset R.position table.now target)
        get_cie.old (map_ok (fde_view R.position R.Offset.number) result) get_cie.new }
    ensures cie { IfOk result (λ fde.
        IsAnswered F.FnMut frame.now bases.now get_cie.old (fde_cie fde)) }
    ensures part { IfOk result (IsFdeOf R.position (eh_frame_view R.position frame.now).position) }
    ensures contains { IfOk result (λ fde.
        Covers (fde_view R.position R.Offset.number fde) address) }
{
    let offset = table.pointer_to_offset(target)?;
    let fde = frame.fde_from_offset_with(bases, offset, get_cie)?;
    if fde.contains(address) {
        Ok(fde)
    } else {
        Err(Error::NoUnwindInfoForAddress)
    }
}

impl<R: Reader> EhHdrTable<'_, R> {
    /// The FDE that the table names for the address, with the CIE that `get_cie` returns for the
    /// offset that it points to.
    ///
    /// It contains the address. Fails as `lookup`, then as `pointer_to_offset` for the target and
    /// as `fde_from_offset` for the FDE there, and with `NoUnwindInfoForAddress` if that FDE
    /// doesn't contain the address. The bases of the header are those in
    /// `BaseAddresses::eh_frame_hdr`, those of the section's entries in `BaseAddresses::eh_frame`.
    /// It does not allocate (LSB Core, "The .eh_frame_hdr section").
    pub fn fde_for_address<F>(
        &self,
        frame: &EhFrame<R>,
        bases: &BaseAddresses,
        address: u64,
        mut get_cie: F,
    ) -> Result<FrameDescriptionEntry<R>>
    where
        F: FnMut(&EhFrame<R>, &BaseAddresses, Offset<R>) -> Result<CommonInformationEntry<R>>,
        requires { F.IsAlwaysCallable get_cie }
        ensures found { (last : F) × FindsFde
            (AsksForCie F.FnMut R.position R.Offset.number (λ o. o.0) frame.now bases.now)
            (listing_view R.position self.now frame.now bases.now) address
            get_cie (map_ok (fde_view R.position R.Offset.number) result) last }
        ensures cie { IfOk result (λ fde.
            IsAnswered F.FnMut frame.now bases.now get_cie (fde_cie fde)) }
        ensures part { IfOk result
            (IsFdeOf R.position (eh_frame_view R.position frame.now).position) }
        ensures contains { IfOk result (λ fde.
            Covers (fde_view R.position R.Offset.number fde) address) }
    {
        self.fde_for_address_with(frame, bases, address, &mut get_cie)
    }

    /// That FDE, as by `fde_for_address`, with `get_cie` borrowed, so that the caller can use what
    /// it keeps.
    ///
    /// `get_cie` is called once, or not at all if the way to the offset of the CIE fails. The
    /// contract names the state in which it is left.
    pub fn fde_for_address_with<F>(
        &self,
        frame: &EhFrame<R>,
        bases: &BaseAddresses,
        address: u64,
        get_cie: &mut F,
    ) -> Result<FrameDescriptionEntry<R>>
    where
        F: FnMut(&EhFrame<R>, &BaseAddresses, Offset<R>) -> Result<CommonInformationEntry<R>>,
        requires { F.IsAlwaysCallable get_cie.old }
        ensures found { FindsFde
            (AsksForCie F.FnMut R.position R.Offset.number (λ o. o.0) frame.now bases.now)
            (listing_view R.position self.now frame.now bases.now) address
            get_cie.old (map_ok (fde_view R.position R.Offset.number) result) get_cie.new }
        ensures cie { IfOk result (λ fde.
            IsAnswered F.FnMut frame.now bases.now get_cie.old (fde_cie fde)) }
        ensures part { IfOk result
            (IsFdeOf R.position (eh_frame_view R.position frame.now).position) }
        ensures contains { IfOk result (λ fde.
            Covers (fde_view R.position R.Offset.number fde) address) }
    {
        let target = self.lookup(address, bases)?;
        fde_at_target(self, target, frame, bases, address, get_cie)
    }

    /// The row of that FDE for the address, borrowed from the context.
    ///
    /// Each CIE that `get_cie` returns is of the section. Fails as `fde_for_address`, then as the
    /// FDE's own `unwind_info_for_address`. What the context held before doesn't matter. Over a
    /// fixed storage it does not allocate; over another one it may fail with `OutOfMemory`.
    pub fn unwind_info_for_address<'ctx, S, F>(
        &self,
        frame: &EhFrame<R>,
        bases: &BaseAddresses,
        ctx: &'ctx mut UnwindContext<R::Offset, S>,
        address: u64,
        mut get_cie: F,
    ) -> Result<&'ctx UnwindTableRow<R::Offset, S::Rules>>
    where
        S: UnwindContextStorage<R::Offset>,
        F: FnMut(&EhFrame<R>, &BaseAddresses, Offset<R>) -> Result<CommonInformationEntry<R>>,
        requires callable { F.IsAlwaysCallable get_cie }
        requires of_section { GivesCiesOf F.FnMut R.position
            (eh_frame_view R.position frame.now).position frame.now bases.now get_cie }
        ensures row { FindsRow
            (AsksForCie F.FnMut R.position R.Offset.number (λ o. o.0) frame.now bases.now)
            S.Rules.limit S.Stack.limit S.Rules.copies_free
            (listing_view R.position self.now frame.now bases.now) address
            get_cie (row_lent R.Offset.number result) }
        ensures contains { IfOk result (λ row. RowContains address row.now) }
        ensures expressions { IfOk result (λ row. HasExpressionsIn R.Offset.number
            (eh_frame_view R.position frame.now).position row.now.parts) }
    {
        self.unwind_info_for_address_with(frame, bases, ctx, address, &mut get_cie)
    }

    /// That row, as by `unwind_info_for_address`, with `get_cie` borrowed, so that the caller can
    /// use what it keeps.
    ///
    /// `get_cie` is called as by `fde_for_address_with`, and the contract names the state in which
    /// it is left.
    pub fn unwind_info_for_address_with<'ctx, S, F>(
        &self,
        frame: &EhFrame<R>,
        bases: &BaseAddresses,
        ctx: &'ctx mut UnwindContext<R::Offset, S>,
        address: u64,
        get_cie: &mut F,
    ) -> Result<&'ctx UnwindTableRow<R::Offset, S::Rules>>
    where
        S: UnwindContextStorage<R::Offset>,
        F: FnMut(&EhFrame<R>, &BaseAddresses, Offset<R>) -> Result<CommonInformationEntry<R>>,
        requires callable { F.IsAlwaysCallable get_cie.old }
        requires of_section { GivesCiesOf F.FnMut R.position
            (eh_frame_view R.position frame.now).position frame.now bases.now get_cie.old }
        ensures row { LeadsToRow
            (AsksForCie F.FnMut R.position R.Offset.number (λ o. o.0) frame.now bases.now)
            S.Rules.limit S.Stack.limit S.Rules.copies_free
            (listing_view R.position self.now frame.now bases.now) address
            get_cie.old (row_lent R.Offset.number result) get_cie.new }
        ensures contains { IfOk result (λ row. RowContains address row.now) }
        ensures expressions { IfOk result (λ row. HasExpressionsIn R.Offset.number
            (eh_frame_view R.position frame.now).position row.now.parts) }
    {
        let fde = self.fde_for_address_with(frame, bases, address, get_cie)?;
        fde.unwind_info_for_address(frame, bases, ctx, address)
    }
}
