//! The step from a frame, with the function of the frame.
ghost use Rattle.std.specs.Prelude.{◌≡◌, ◌≤◌, length, IfOk, OnErr};
ghost use Rattle.cfi_read_core.specs.ReaderCalls.{map_ok};
ghost use Rattle.cfi_entry.specs.Sections.{section_of};
ghost use Rattle.cfi_unwind.specs.FdeViews.{HasCieOf, IsFdeOf, fde_view};
ghost use Rattle.cfi_expression.specs.Frames.{frame_view};
ghost use Rattle.cfi_step.specs.Functions.{IsStepInFunction, function_in};
ghost use Rattle.cfi_step.specs.Modules.{address_in_file};
ghost use Rattle.cfi_step.specs.Steps.{IsStepBy};

use crate::abi::Abi;
use crate::function::{Function, function_of};
use crate::module::{LoadedModule, fde_in_module};
use crate::section::PlacedSection;
use crate::step::{Caller, step_by_fde};
use cfi_expression::{Frame, FrameError, Memory};
use gimli_cfi::{
    FrameDescriptionEntry, Reader, UnwindContext, UnwindContextStorage, UnwindSection,
};

/// A step from a frame, with the function of the frame.
#[derive(Clone, Copy)]
pub struct FunctionStep {
    /// The function; `None` if there is no FDE for its address.
    pub function: Option<Function>,
    /// The caller, or why there is none.
    pub caller: Result<Caller, FrameError>,
}

/// The caller of a frame of a module's code, by its address (`row_address`), with what the FDE says
/// of the function.
///
/// The caller is that of `step_in_module` in a module without a compiled table, which has no FDEs,
/// so it isn't asked. Also where no caller is found, the function is returned if there is an FDE.
/// If the step fails, nothing is written. Over a fixed storage it does not allocate.
pub fn step_in_function<R: Reader, S: UnwindContextStorage<R::Offset>, M: Memory>(
    loaded: &LoadedModule<'_, R>,
    ctx: &mut UnwindContext<R::Offset, S>,
    address: u64,
    abi: &Abi,
    frame: &Frame<'_, M>,
    caller: &mut [Option<u64>],
) -> FunctionStep
    requires { length caller.old ≤ 0x10000 }
    ensures step { IsStepInFunction R.position R.Offset.number (frame_view M.number_at frame.now)
        abi.now S.Rules.limit S.Stack.limit S.Rules.copies_free loaded.now
        (address_in_file loaded.now.bias address) result.function result.caller caller.new }
    ensures unwritten { OnErr result.caller (caller.new ≡ caller.old) }
{
    let address = loaded.address_in_file(address);
    let found = fde_in_module(loaded, frame.address_size.bytes(), address);
    let placed = PlacedSection {
        section: &loaded.frame,
        bases: &loaded.bases,
    };
    function_step(found, &placed, ctx, address, abi, frame, caller)
}

/// The step by the FDE that was found for the address, or the error in its place, with what the FDE
/// says of the function.
///
/// The FDE and its CIE are of the section. Fails and writes as `step_by_fde`.
#[inline(always)]
pub fn function_step<
    R: Reader,
    Section: UnwindSection<R>,
    S: UnwindContextStorage<R::Offset>,
    M: Memory,
>(
    found: gimli_cfi::Result<FrameDescriptionEntry<R>>,
    placed: &PlacedSection<'_, Section>,
    ctx: &mut UnwindContext<R::Offset, S>,
    address: u64,
    abi: &Abi,
    frame: &Frame<'_, M>,
    caller: &mut [Option<u64>],
) -> FunctionStep
    requires own { IfOk found (IsFdeOf R.position (Section.view placed.now.section.now).position) }
    requires cie { IfOk found (HasCieOf R.position (Section.view placed.now.section.now).position) }
    requires room { length caller.old ≤ 0x10000 }
    ensures step { IsStepBy (frame_view M.number_at frame.now)
        (Section.view placed.now.section.now).position abi.now R.Offset.number
        S.Rules.limit S.Stack.limit S.Rules.copies_free
        (section_of (Section.view placed.now.section.now) placed.now.bases.now) address
        (map_ok (fde_view R.position R.Offset.number) found) result.caller caller.new }
    ensures function { result.function
        ≡ function_in (map_ok (fde_view R.position R.Offset.number) found) }
    ensures unwritten { OnErr result.caller (caller.new ≡ caller.old) }
{
    match found {
        Ok(fde) => FunctionStep {
            function: Some(function_of(&fde)),
            caller: step_by_fde(&fde, placed, ctx, address, abi, frame, caller),
        },
        Err(error) => FunctionStep {
            function: None,
            caller: Err(FrameError::NoRow(error)),
        },
    }
}
