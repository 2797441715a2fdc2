//! The row of an address by the scan of a section.
ghost use Rattle.std.specs.Prelude.{IfOk};
ghost use Rattle.cfi_state.specs.MappedStates.{row_lent};
ghost use Rattle.cfi_state.specs.Row.{RowContains};
ghost use Rattle.cfi_state.specs.RowExpressions.{HasExpressionsIn};
ghost use Rattle.cfi_entry.specs.Sections.{section_of};
ghost use Rattle.cfi_unwind.specs.AddressRow.{IsRowByScan};

use cfi_parts::pointer::BaseAddresses;
use cfi_read_core::{Reader, Result};
use cfi_state::storage::UnwindContextStorage;
use cfi_state::table::context::UnwindContext;
use cfi_state::table::row::UnwindTableRow;
use cfi_unwind::unwind_section::{UnwindSection, scan_for_fde};

/// The unwind row of the address in the section, borrowed from the context.
///
/// It is the row of the first FDE, in the order of the entries, that contains the address. Each
/// part of the row is what the last instruction that writes it left, among the instructions up to
/// the row's end, without the stretches that are remembered and restored (DWARF 5 section 6.4.2.4).
/// What the context held before doesn't matter.
///
/// Fails with the first error on the way: of an entry before the FDE, of the FDE or its CIE, of the
/// CIE's initial instructions, or of the FDE's instructions before the row. Fails with
/// `NoUnwindInfoForAddress` if no FDE contains the address. Nothing after the row is checked.
///
/// The bases are those of the pointers in the section's entries. Over a fixed storage it does not
/// allocate; over another one an instruction that needs more room may fail with `OutOfMemory`. The
/// expressions of the row's rules are in the section, so `UnwindExpression::get` does not fail
/// there.
///
/// # Example
///
/// ```
/// let section = EhFrame::new(bytes, LittleEndian);
/// let bases = BaseAddresses::default().set_eh_frame(0x2040);
/// // The context is made once, and used for every address.
/// let mut context: UnwindContext<usize> = UnwindContext::new(alloc)?;
/// for pc in addresses {
///     let row = row_by_scan(&section, &bases, &mut context, *pc)?;
///     let return_address = row.register(Register(16));
/// }
/// ```
pub fn row_by_scan<'ctx, R: Reader, Section: UnwindSection<R>, S: UnwindContextStorage<R::Offset>>(
    section: &Section,
    bases: &BaseAddresses,
    ctx: &'ctx mut UnwindContext<R::Offset, S>,
    address: u64,
) -> Result<&'ctx UnwindTableRow<R::Offset, S::Rules>>
    ensures row { IsRowByScan S.Rules.limit S.Stack.limit S.Rules.copies_free
        (section_of (Section.view section.now) bases.now) address
        (row_lent R.Offset.number result) }
    ensures contains { IfOk result (λ row. RowContains address row.now) }
    ensures expressions { IfOk result (λ row.
        HasExpressionsIn R.Offset.number (Section.view section.now).position row.now.parts) }
{
    let fde = scan_for_fde(section, bases, address)?;
    fde.unwind_info_for_address(section, bases, ctx, address)
}
