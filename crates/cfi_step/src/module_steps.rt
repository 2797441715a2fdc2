//! The caller of a frame of a module's code.
ghost use Rattle.std.specs.Prelude.{◌≡◌, ◌≤◌, ◌↔◌, length, IfSome, IsTrue, OnErr};
ghost use Rattle.cfi_entry.specs.SectionViews.{debug_frame_view, eh_frame_view};
ghost use Rattle.cfi_expression.specs.Frames.{frame_view};
ghost use Rattle.cfi_step.specs.CachedRows.{AreRightIn, StayRightIn};
ghost use Rattle.cfi_step.specs.StepsByTable.{IsStepAsScanned};
ghost use Rattle.cfi_step.specs.Modules.{IsStepByDebug, IsStepByFound, IsStepIn, IsStepOr};
ghost use Rattle.cfi_step.specs.Modules.{IsStepVia, address_in_file, no_fde};

use crate::abi::Abi;
use crate::compiled::step_by_compiled;
use crate::module::{DebugTable, LoadedModule, fde_in_module};
use crate::rows::RowRules;
use crate::slots::{NoRow, RowSlot, held, keep_row};
use crate::step::{Caller, step_by_row};
use cfi_expression::{Frame, FrameError, Memory};
use gimli_cfi::{Error, Reader, UnwindContext, UnwindContextStorage};

/// The caller of a frame of a module's code, by its address (`row_address`).
///
/// The address less the bias is looked up. If the module has a compiled table, by that, as
/// `step_by_compiled`: then neither an FDE nor an instruction is read, and nothing allocates. Else
/// by the FDE that `fde_in_module` finds. Where no FDE has the address, by the compiled table of
/// `.debug_frame`, if the module has that. Fails with `FrameError::NoRow` as these, then as
/// `step_by_fde`, which says what is written. Over a fixed storage it does not allocate.
pub fn step_in_module<R: Reader, S: UnwindContextStorage<R::Offset>, M: Memory>(
    loaded: &LoadedModule<'_, R>,
    ctx: &mut UnwindContext<R::Offset, S>,
    address: u64,
    abi: &Abi,
    frame: &Frame<'_, M>,
    caller: &mut [Option<u64>],
) -> Result<Caller, FrameError>
    requires { length caller.old ≤ 0x10000 }
    ensures step { IsStepIn R.position R.Offset.number (frame_view M.number_at frame.now)
        abi.now S.Rules.limit S.Stack.limit S.Rules.copies_free
        loaded.now address result caller.new }
    ensures scan { IfSome loaded.now.compiled (λ table. IsStepOr loaded.now.debug
        (IsStepAsScanned (frame_view M.number_at frame.now)
        (eh_frame_view R.position loaded.now.frame).position abi.now table.now
        (address_in_file loaded.now.bias address))
        (λ debug. IsStepAsScanned (frame_view M.number_at frame.now)
        (debug_frame_view R.position debug.frame.now).position abi.now debug.compiled.now
        (address_in_file loaded.now.bias address)) result caller.new) }
    ensures unwritten { OnErr result (caller.new ≡ caller.old) }
{
    let mut none: [NoRow<R::Offset>; 0] = [];
    step_in_kept(loaded, &mut none, ctx, address, abi, frame, caller)
}

/// The same with a cache of rows. If the module has no compiled table, by the row that the cache
/// holds for the address in the file, if it does; else that row is kept.
pub(crate) fn step_in_kept<
    R: Reader,
    S: UnwindContextStorage<R::Offset>,
    K: RowSlot + RowRules<Offset = R::Offset>,
    M: Memory,
>(
    loaded: &LoadedModule<'_, R>,
    cache: &mut [K],
    ctx: &mut UnwindContext<R::Offset, S>,
    address: u64,
    abi: &Abi,
    frame: &Frame<'_, M>,
    caller: &mut [Option<u64>],
) -> Result<Caller, FrameError>
    requires room { length caller.old ≤ 0x10000 }
    requires right { AreRightIn R.position R.Offset.number K.slot
        (frame_view M.number_at frame.now).size S.Rules.limit S.Stack.limit S.Rules.copies_free
        loaded.now cache.old }
    ensures step { IsStepIn R.position R.Offset.number (frame_view M.number_at frame.now)
        abi.now S.Rules.limit S.Stack.limit S.Rules.copies_free
        loaded.now address result caller.new }
    ensures scan { IfSome loaded.now.compiled (λ table. IsStepOr loaded.now.debug
        (IsStepAsScanned (frame_view M.number_at frame.now)
        (eh_frame_view R.position loaded.now.frame).position abi.now table.now
        (address_in_file loaded.now.bias address))
        (λ debug. IsStepAsScanned (frame_view M.number_at frame.now)
        (debug_frame_view R.position debug.frame.now).position abi.now debug.compiled.now
        (address_in_file loaded.now.bias address)) result caller.new) }
    ensures unwritten { OnErr result (caller.new ≡ caller.old) }
    ensures kept { StayRightIn R.position R.Offset.number K.slot
        (frame_view M.number_at frame.now).size S.Rules.limit S.Stack.limit S.Rules.copies_free
        loaded.now cache.old cache.new }
{
    let address = loaded.address_in_file(address);
    let step = step_in_eh_frame(loaded, cache, ctx, address, abi, frame, caller);
    let Some(debug) = &loaded.debug else {
        return step;
    };
    if !has_no_fde(&step) {
        return step;
    }
    step_in_debug_frame(debug, address, abi, frame, caller)
}

/// Whether the step failed because no FDE has the address.
fn has_no_fde(step: &Result<Caller, FrameError>) -> bool
    ensures { IsTrue result ↔ (step.now ≡ no_fde) }
{
    match step {
        Err(FrameError::NoRow(error)) => *error == Error::NoUnwindInfoForAddress,
        _ => false,
    }
}

/// The caller of a frame of a module's code, by `.debug_frame`. Apart, so that other steps take no
/// more of the stack for it.
#[inline(never)]
fn step_in_debug_frame<R: Reader, M: Memory>(
    debug: &DebugTable<'_, R>,
    address: u64,
    abi: &Abi,
    frame: &Frame<'_, M>,
    caller: &mut [Option<u64>],
) -> Result<Caller, FrameError>
    requires { length caller.old ≤ 0x10000 }
    ensures step { IsStepByDebug R.position (frame_view M.number_at frame.now) abi.now debug.now
        address result caller.new }
    ensures scan { IsStepAsScanned (frame_view M.number_at frame.now)
        (debug_frame_view R.position debug.now.frame.now).position abi.now debug.now.compiled.now
        address result caller.new }
    ensures unwritten { OnErr result (caller.new ≡ caller.old) }
{
    step_by_compiled(debug.compiled, debug.frame, address, abi, frame, caller)
}

/// The caller of a frame of a module's code, by `.eh_frame`: by its compiled table, or as
/// `step_by_held`.
#[inline(always)]
fn step_in_eh_frame<
    R: Reader,
    S: UnwindContextStorage<R::Offset>,
    K: RowSlot + RowRules<Offset = R::Offset>,
    M: Memory,
>(
    loaded: &LoadedModule<'_, R>,
    cache: &mut [K],
    ctx: &mut UnwindContext<R::Offset, S>,
    address: u64,
    abi: &Abi,
    frame: &Frame<'_, M>,
    caller: &mut [Option<u64>],
) -> Result<Caller, FrameError>
    requires room { length caller.old ≤ 0x10000 }
    requires right { AreRightIn R.position R.Offset.number K.slot
        (frame_view M.number_at frame.now).size S.Rules.limit S.Stack.limit S.Rules.copies_free
        loaded.now cache.old }
    ensures step { IsStepVia R.position R.Offset.number (frame_view M.number_at frame.now)
        abi.now S.Rules.limit S.Stack.limit S.Rules.copies_free
        loaded.now.compiled loaded.now address result caller.new }
    ensures scan { IfSome loaded.now.compiled (λ table. IsStepAsScanned
        (frame_view M.number_at frame.now) (eh_frame_view R.position loaded.now.frame).position
        abi.now table.now address result caller.new) }
    ensures unwritten { OnErr result (caller.new ≡ caller.old) }
    ensures kept { StayRightIn R.position R.Offset.number K.slot
        (frame_view M.number_at frame.now).size S.Rules.limit S.Stack.limit S.Rules.copies_free
        loaded.now cache.old cache.new }
{
    match loaded.compiled {
        Some(table) => step_by_compiled(table, &loaded.frame, address, abi, frame, caller),
        None => step_by_held(loaded, cache, ctx, address, abi, frame, caller),
    }
}

/// The caller of a frame of a module's code, by the row that the cache holds for the address of the
/// file, or as `step_by_found`.
#[inline]
fn step_by_held<
    R: Reader,
    S: UnwindContextStorage<R::Offset>,
    K: RowSlot + RowRules<Offset = R::Offset>,
    M: Memory,
>(
    loaded: &LoadedModule<'_, R>,
    cache: &mut [K],
    ctx: &mut UnwindContext<R::Offset, S>,
    address: u64,
    abi: &Abi,
    frame: &Frame<'_, M>,
    caller: &mut [Option<u64>],
) -> Result<Caller, FrameError>
    requires room { length caller.old ≤ 0x10000 }
    requires right { AreRightIn R.position R.Offset.number K.slot
        (frame_view M.number_at frame.now).size S.Rules.limit S.Stack.limit S.Rules.copies_free
        loaded.now cache.old }
    ensures step { IsStepByFound R.position R.Offset.number (frame_view M.number_at frame.now)
        abi.now S.Rules.limit S.Stack.limit S.Rules.copies_free
        loaded.now address result caller.new }
    ensures unwritten { OnErr result (caller.new ≡ caller.old) }
    ensures kept { StayRightIn R.position R.Offset.number K.slot
        (frame_view M.number_at frame.now).size S.Rules.limit S.Stack.limit S.Rules.copies_free
        loaded.now cache.old cache.new }
{
    match held(cache, loaded.file, address) {
        Some(row) => step_by_row(
            row,
            &loaded.frame,
            row.return_address(),
            row.is_signal_trampoline(),
            abi,
            frame,
            caller,
        ),
        None => step_by_found(loaded, cache, ctx, address, abi, frame, caller),
    }
}

/// The caller of a frame of a module's code, by the FDE that `fde_in_module` finds for an address
/// of the file. The row is kept.
fn step_by_found<
    R: Reader,
    S: UnwindContextStorage<R::Offset>,
    K: RowSlot + RowRules<Offset = R::Offset>,
    M: Memory,
>(
    loaded: &LoadedModule<'_, R>,
    cache: &mut [K],
    ctx: &mut UnwindContext<R::Offset, S>,
    address: u64,
    abi: &Abi,
    frame: &Frame<'_, M>,
    caller: &mut [Option<u64>],
) -> Result<Caller, FrameError>
    requires { length caller.old ≤ 0x10000 }
    ensures step { IsStepByFound R.position R.Offset.number (frame_view M.number_at frame.now)
        abi.now S.Rules.limit S.Stack.limit S.Rules.copies_free
        loaded.now address result caller.new }
    ensures unwritten { OnErr result (caller.new ≡ caller.old) }
    ensures kept { StayRightIn R.position R.Offset.number K.slot
        (frame_view M.number_at frame.now).size S.Rules.limit S.Stack.limit S.Rules.copies_free
        loaded.now cache.old cache.new }
{
    let fde = match fde_in_module(loaded, frame.address_size.bytes(), address) {
        Ok(fde) => fde,
        Err(error) => return Err(FrameError::NoRow(error)),
    };
    let section = &loaded.frame;
    let file = loaded.file;
    let return_address = fde.cie().return_address_register();
    let is_trampoline = fde.is_signal_trampoline();
    match fde.unwind_info_for_address(section, &loaded.bases, ctx, address) {
        Ok(row) => {
            keep_row(cache, file, address, row, return_address, is_trampoline);
            step_by_row(
                row,
                section,
                return_address,
                is_trampoline,
                abi,
                frame,
                caller,
            )
        }
        Err(error) => Err(FrameError::NoRow(error)),
    }
}
