//! The FDE and the unwind row of an address, by a header that isn't parsed yet.
ghost use Rattle.std.specs.Prelude.{◌≡◌, ◌≤◌, IfOk};
ghost use Rattle.cfi_read_core.specs.Addresses.{IsAddressSize};
ghost use Rattle.cfi_read_core.specs.ReaderCalls.{map_ok};
ghost use Rattle.cfi_entry.specs.Fdes.{Covers};
ghost use Rattle.cfi_entry.specs.SectionViews.{eh_frame_view};
ghost use Rattle.cfi_state.specs.MappedStates.{row_lent};
ghost use Rattle.cfi_state.specs.Row.{RowContains};
ghost use Rattle.cfi_state.specs.RowExpressions.{HasExpressionsIn};
ghost use Rattle.cfi_unwind.specs.FdeViews.{HasCieOf, IsFdeOf, fde_view};
ghost use Rattle.gimli_cfi.specs.EhFrameHdr.{header_of};
ghost use Rattle.gimli_cfi.specs.Halving.{most_reads, reads_by_header};
ghost use Rattle.gimli_cfi.specs.HeaderViews.{section_view, unparsed_view};
ghost use Rattle.gimli_cfi.specs.RowsByHeader.{FoundByHeader, IsRowByHeader};

use crate::call_count::CallCount;
use crate::hdr::by_table::own_table_fde;
use crate::hdr::header::EhFrameHdr;
use cfi_parts::pointer::BaseAddresses;
use cfi_read_core::{Reader, Result};
use cfi_state::storage::UnwindContextStorage;
use cfi_state::table::context::UnwindContext;
use cfi_state::table::row::UnwindTableRow;
use cfi_unwind::entry::FrameDescriptionEntry;
use cfi_unwind::unwind_section::{EhFrame, scan_for_fde};

/// The FDE for an address by a header: by its table, or by a scan of the section if it has none.
/// The address size is that of the header's pointers, 1, 2, 4 or 8.
///
/// It contains the address, and has the CIE that it points to. Fails as `EhFrameHdr::parse` and
/// `EhHdrTable::fde_for_address`, or as `scan_for_fde`. Does not allocate (LSB Core, "The
/// .eh_frame_hdr section").
#[inline]
pub fn fde_by_header<R: Reader>(
    header: &EhFrameHdr<R>,
    address_size: u8,
    frame: &EhFrame<R>,
    bases: &BaseAddresses,
    address: u64,
) -> Result<FrameDescriptionEntry<R>>
    requires { IsAddressSize address_size }
    ensures found { let bytes = unparsed_view R.position header.now address_size bases.now in
        FoundByHeader (section_view R.position frame.now bases.now) address bytes
        (header_of bytes) (map_ok (fde_view R.position R.Offset.number) result) }
    ensures part { IfOk result (IsFdeOf R.position (eh_frame_view R.position frame.now).position) }
    ensures cie_part { IfOk result
        (HasCieOf R.position (eh_frame_view R.position frame.now).position) }
    ensures contains { IfOk result (λ fde.
        Covers (fde_view R.position R.Offset.number fde) address) }
{
    let (fde, _reads) = fde_by_header_counted(header, address_size, frame, bases, address);
    fde
}

/// What `fde_by_header` returns, with how many starts of the table's rows it read: none if the
/// header has no rows. The count is for contracts alone, and has no size at run time.
#[inline(always)]
pub fn fde_by_header_counted<R: Reader>(
    header: &EhFrameHdr<R>,
    address_size: u8,
    frame: &EhFrame<R>,
    bases: &BaseAddresses,
    address: u64,
) -> (Result<FrameDescriptionEntry<R>>, CallCount)
    requires { IsAddressSize address_size }
    ensures found { let bytes = unparsed_view R.position header.now address_size bases.now in
        FoundByHeader (section_view R.position frame.now bases.now) address bytes
        (header_of bytes) (map_ok (fde_view R.position R.Offset.number) result.0) }
    ensures part { IfOk result.0
        (IsFdeOf R.position (eh_frame_view R.position frame.now).position) }
    ensures cie_part { IfOk result.0
        (HasCieOf R.position (eh_frame_view R.position frame.now).position) }
    ensures contains { IfOk result.0 (λ fde.
        Covers (fde_view R.position R.Offset.number fde) address) }
    ensures reads { let bytes = unparsed_view R.position header.now address_size bases.now in
        result.1.calls ≡ reads_by_header bytes (header_of bytes) address }
    ensures few { result.1.calls
        ≤ most_reads (header_of (unparsed_view R.position header.now address_size bases.now)) }
{
    let header = match header.parse(bases, address_size) {
        Ok(header) => header,
        Err(error) => return (Err(error), CallCount::none()),
    };
    let Some(table) = header.table() else {
        return (scan_for_fde(frame, bases, address), CallCount::none());
    };
    own_table_fde(&table, frame, bases, address)
}

/// The unwind row of the address in the section, borrowed from the context, by the header's table.
///
/// If the header has no rows, returns what `row_by_scan` returns. Fails as `EhFrameHdr::parse`,
/// then as `TableStarts::new` and `row_by_table`. The address size is that of the header's
/// pointers, 1, 2, 4 or 8. Over a fixed storage it does not allocate (LSB Core, "The .eh_frame_hdr
/// section").
pub fn row_by_header<'ctx, R: Reader, S: UnwindContextStorage<R::Offset>>(
    header: &EhFrameHdr<R>,
    address_size: u8,
    frame: &EhFrame<R>,
    bases: &BaseAddresses,
    ctx: &'ctx mut UnwindContext<R::Offset, S>,
    address: u64,
) -> Result<&'ctx UnwindTableRow<R::Offset, S::Rules>>
    requires { IsAddressSize address_size }
    ensures row { IsRowByHeader S.Rules.limit S.Stack.limit S.Rules.copies_free
        (section_view R.position frame.now bases.now) address
        (unparsed_view R.position header.now address_size bases.now)
        (row_lent R.Offset.number result) }
    ensures contains { IfOk result (λ row. RowContains address row.now) }
    ensures expressions { IfOk result (λ row. HasExpressionsIn R.Offset.number
        (eh_frame_view R.position frame.now).position row.now.parts) }
{
    let (row, _reads) = row_by_header_counted(header, address_size, frame, bases, ctx, address);
    row
}

/// What `row_by_header` returns, with how many starts of the table's rows it read: none if the
/// header has no rows. The count is for contracts alone, and has no size at run time.
#[inline(always)]
pub fn row_by_header_counted<'ctx, R: Reader, S: UnwindContextStorage<R::Offset>>(
    header: &EhFrameHdr<R>,
    address_size: u8,
    frame: &EhFrame<R>,
    bases: &BaseAddresses,
    ctx: &'ctx mut UnwindContext<R::Offset, S>,
    address: u64,
) -> (Result<&'ctx UnwindTableRow<R::Offset, S::Rules>>, CallCount)
    requires { IsAddressSize address_size }
    ensures row { IsRowByHeader S.Rules.limit S.Stack.limit S.Rules.copies_free
        (section_view R.position frame.now bases.now) address
        (unparsed_view R.position header.now address_size bases.now)
        (row_lent R.Offset.number result.0) }
    ensures contains { IfOk result.0 (λ row. RowContains address row.now) }
    ensures expressions { IfOk result.0 (λ row. HasExpressionsIn R.Offset.number
        (eh_frame_view R.position frame.now).position row.now.parts) }
    ensures reads { let bytes = unparsed_view R.position header.now address_size bases.now in
        result.1.calls ≡ reads_by_header bytes (header_of bytes) address }
    ensures few { result.1.calls
        ≤ most_reads (header_of (unparsed_view R.position header.now address_size bases.now)) }
{
    let (fde, reads) = fde_by_header_counted(header, address_size, frame, bases, address);
    match fde {
        Ok(fde) => (
            fde.unwind_info_for_address(frame, bases, ctx, address),
            reads,
        ),
        Err(error) => (Err(error), reads),
    }
}
