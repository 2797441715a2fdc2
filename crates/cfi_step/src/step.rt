//! From a frame to its caller (DWARF 5 section 6.4.4).
ghost use Rattle.std.specs.Prelude.{◌≡◌, ◌≤◌, Ok, length, IfOk, OnErr};
ghost use Rattle.cfi_entry.specs.Sections.{section_of};
ghost use Rattle.cfi_unwind.specs.FdeViews.{HasCieOf, IsFdeOf, fde_view};
ghost use Rattle.cfi_unwind.specs.Scan.{chosen_fde};
ghost use Rattle.cfi_expression.specs.Frames.{frame_view};
ghost use Rattle.cfi_step.specs.Callers.{AreRecovered};
ghost use Rattle.cfi_step.specs.Steps.{IsStepBy, caller_by, row_address};

use crate::abi::Abi;
use crate::recover::{frame_address, recover_return_address, write_registers};
use crate::rows::RowRules;
use crate::section::PlacedSection;
use cfi_expression::{Frame, FrameError, Memory};
use gimli_cfi::{
    _UnwindSectionPrivate, FrameDescriptionEntry, Reader, Register, UnwindContext,
    UnwindContextStorage, UnwindSection, scan_for_fde,
};

/// Where the caller of a frame goes on.
#[derive(Clone, Copy, Debug, PartialEq, Eq)]
pub struct Caller {
    /// The canonical frame address of the frame.
    pub cfa: u64,
    /// The pc of the caller; `None` if the frame is the outermost one.
    pub pc: Option<u64>,
    /// Whether a signal interrupted the caller at the pc. The pc is then looked up as it is.
    pub is_interrupted: bool,
    /// How many bytes of arguments the frame itself has pushed (`DW_CFA_GNU_args_size`).
    pub args_size: u64,
}

/// The address by which the row of a frame is found.
///
/// A return address is after the call, which may be the last instruction of a row or of a function,
/// so it is looked up less one. The pc of the innermost frame, and of one that a signal
/// interrupted, is looked up as it is (DWARF 5 section 6.4.4).
pub fn row_address(pc: u64, is_interrupted: bool) -> u64
    ensures { result ≡ row_address pc is_interrupted }
{
    if is_interrupted {
        pc
    } else {
        pc.wrapping_sub(1)
    }
}

/// The caller of a frame, by the row of its address, of an unwind table or of a compiled one.
/// `return_address` is the CIE's return address register, and `is_signal_trampoline` is whether the
/// FDE is a signal trampoline.
///
/// Writes `caller[k]` for each register k for which there is room, as `recover`. Fails as
/// `recover`, then as `recover_return_address`; then nothing is written. Does not allocate.
pub fn step_by_row<R: Reader, Section: _UnwindSectionPrivate<R>, Rules: RowRules, M: Memory>(
    row: &Rules,
    section: &Section,
    return_address: Register,
    is_signal_trampoline: bool,
    abi: &Abi,
    frame: &Frame<'_, M>,
    caller: &mut [Option<u64>],
) -> Result<Caller, FrameError>
    requires { length caller.old ≤ 0x10000 }
    ensures caller { result ≡ caller_by (frame_view M.number_at frame.now)
        (Section.view section.now).position abi.now Rules.Offset.number
        return_address is_signal_trampoline (Rules.parts row.now) }
    ensures registers { IfOk result (λ c. AreRecovered (frame_view M.number_at frame.now)
        (Section.view section.now).position abi.now Rules.Offset.number (Rules.parts row.now)
        c.cfa (length caller.new) caller.new) }
    ensures unwritten { OnErr result (caller.new ≡ caller.old) }
{
    let cfa = frame_address(row.cfa_rule(), section, abi, frame)?;
    let pc = recover_return_address(row, section, abi, frame, cfa, return_address)?;
    write_registers(row, section, abi, frame, cfa, caller);
    Ok(Caller {
        cfa,
        pc,
        is_interrupted: is_signal_trampoline,
        args_size: row.args_size(),
    })
}

/// The caller of a frame, by the FDE of its address (`row_address`).
///
/// The FDE and its CIE are of the section. Fails with `FrameError::NoRow` as the FDE's
/// `unwind_info_for_address`, then as `step_by_row`, which says what is written. Over a fixed
/// storage it does not allocate.
pub fn step_by_fde<
    R: Reader,
    Section: UnwindSection<R>,
    S: UnwindContextStorage<R::Offset>,
    M: Memory,
>(
    fde: &FrameDescriptionEntry<R>,
    placed: &PlacedSection<'_, Section>,
    ctx: &mut UnwindContext<R::Offset, S>,
    address: u64,
    abi: &Abi,
    frame: &Frame<'_, M>,
    caller: &mut [Option<u64>],
) -> Result<Caller, FrameError>
    requires own { IsFdeOf R.position (Section.view placed.now.section.now).position fde.now }
    requires cie { HasCieOf R.position (Section.view placed.now.section.now).position fde.now }
    requires room { length caller.old ≤ 0x10000 }
    ensures step { IsStepBy (frame_view M.number_at frame.now)
        (Section.view placed.now.section.now).position abi.now R.Offset.number
        S.Rules.limit S.Stack.limit S.Rules.copies_free
        (section_of (Section.view placed.now.section.now) placed.now.bases.now) address
        (Ok (fde_view R.position R.Offset.number fde.now)) result caller.new }
    ensures unwritten { OnErr result (caller.new ≡ caller.old) }
{
    let section = placed.section;
    let return_address = fde.cie().return_address_register();
    let is_trampoline = fde.is_signal_trampoline();
    match fde.unwind_info_for_address(section, placed.bases, ctx, address) {
        Ok(row) => step_by_row(
            row,
            section,
            return_address,
            is_trampoline,
            abi,
            frame,
            caller,
        ),
        Err(error) => Err(FrameError::NoRow(error)),
    }
}

/// The caller of a frame, by scanning a section for the FDE of its address (`row_address`).
///
/// Fails with `FrameError::NoRow` as `row_by_scan`, then as `step_by_row`, which says what is
/// written. Over a fixed storage it does not allocate.
pub fn step_by_scan<
    R: Reader,
    Section: UnwindSection<R>,
    S: UnwindContextStorage<R::Offset>,
    M: Memory,
>(
    placed: &PlacedSection<'_, Section>,
    ctx: &mut UnwindContext<R::Offset, S>,
    address: u64,
    abi: &Abi,
    frame: &Frame<'_, M>,
    caller: &mut [Option<u64>],
) -> Result<Caller, FrameError>
    requires { length caller.old ≤ 0x10000 }
    ensures step { IsStepBy (frame_view M.number_at frame.now)
        (Section.view placed.now.section.now).position abi.now R.Offset.number
        S.Rules.limit S.Stack.limit S.Rules.copies_free
        (section_of (Section.view placed.now.section.now) placed.now.bases.now) address
        (chosen_fde (section_of (Section.view placed.now.section.now) placed.now.bases.now) address)
        result caller.new }
    ensures unwritten { OnErr result (caller.new ≡ caller.old) }
{
    match scan_for_fde(placed.section, placed.bases, address) {
        Ok(fde) => step_by_fde(&fde, placed, ctx, address, abi, frame, caller),
        Err(error) => Err(FrameError::NoRow(error)),
    }
}
