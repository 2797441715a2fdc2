//! The caller of a frame by a compiled table.
ghost use Rattle.std.specs.Prelude.{◌≡◌, ◌≤◌, length, OnErr};
ghost use Rattle.cfi_compiled.specs.CompiledTables.{frame_at};
ghost use Rattle.cfi_expression.specs.Frames.{frame_view};
ghost use Rattle.cfi_step.specs.StepsByTable.{IsStepAsScanned, IsStepByFrame};

use crate::abi::Abi;
use crate::step::{Caller, step_by_row};
use cfi_compiled::CompiledTable;
use cfi_expression::{Frame, FrameError, Memory};
use gimli_cfi::{_UnwindSectionPrivate, Reader};

/// The caller of a frame, by the row that a compiled table has for an address: `row_address` of the
/// frame, as the table's section has it.
///
/// The section has the bytes of the expressions in rows. An address in an expression (`DW_OP_addr`)
/// is taken as it is, also if the file is loaded elsewhere. Fails with `FrameError::NoRow` and the
/// error of `CompiledTable::row`, then as `step_by_row`, which says what is written. Does not
/// allocate.
///
/// A table holds the rows of a storage with limits, 192 rules and 4 rows if `CompiledTable::new`
/// made it. The step is that by a scan over such a storage (`step_by_scan`).
pub fn step_by_compiled<R: Reader, Section: _UnwindSectionPrivate<R>, M: Memory>(
    table: &CompiledTable,
    section: &Section,
    address: u64,
    abi: &Abi,
    frame: &Frame<'_, M>,
    caller: &mut [Option<u64>],
) -> Result<Caller, FrameError>
    requires { length caller.old ≤ 0x10000 }
    ensures step { IsStepByFrame (frame_view M.number_at frame.now)
        (Section.view section.now).position abi.now
        (frame_at table.now address) result caller.new }
    ensures scan { IsStepAsScanned (frame_view M.number_at frame.now)
        (Section.view section.now).position abi.now
        table.now address result caller.new }
    ensures unwritten { OnErr result (caller.new ≡ caller.old) }
{
    match table.row(address) {
        Ok(row) => step_by_row(
            &row,
            section,
            row.return_address_register(),
            row.is_signal_trampoline(),
            abi,
            frame,
            caller,
        ),
        Err(error) => Err(FrameError::NoRow(error)),
    }
}
