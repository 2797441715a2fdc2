//! The caller of one frame.
ghost use Rattle.std.specs.Prelude.{◌≡◌, ◌≤◌, OnErr, length, map};
ghost use Rattle.cfi_read_core.specs.Addresses.{IsAddressSize};
ghost use Rattle.cfi_step.specs.Steps.{row_address};
ghost use Rattle.cfi_c.specs.AddressRows.{is_live};
ghost use Rattle.cfi_c.specs.PassedRegisters.{known_value};
ghost use Rattle.cfi_c.specs.SteppedFrames.{IsHeldStep, IsPassedStep, IsStepWith, IsStepped};
ghost use Rattle.cfi_c.specs.SteppedFrames.{caller_after, caller_or, end_after, function_after};

use crate::context::{CfiContext, Context};
use crate::debug_frame::step_in_debug_frame;
use crate::end::{CfiEnd, end_by, no_context, unsized_end};
use crate::function::{CfiFunction, written_function};
use crate::memory::{CfiMemory, abi_in};
use crate::module::{CfiModule, is_debug_frame, loaded_of};
use crate::register::{CfiValue, FEW, first_registers, write_registers, write_values};
use crate::section::is_sized;
use cfi_step::{
    AddressSize, Caller, Frame, FrameError, FunctionStep, row_address, step_in_function,
};
use std::alloc::Global;
use std::mem;

/// The caller of a frame.
#[repr(C)]
#[derive(Clone, Copy)]
pub struct CfiCaller {
    /// The canonical frame address of the frame.
    pub cfa: u64,
    /// The pc of the caller; 0 if the frame is the outermost one.
    pub pc: u64,
    /// How many bytes of arguments the frame itself has pushed.
    pub args_size: u64,
    /// Whether a signal interrupted the caller at the pc.
    pub is_interrupted: bool,
}

/// Writes the caller of a frame in the code of a module, its registers, and what the FDE says of
/// the frame's function. Registers from 256 on are not read, and not known of the caller.
///
/// Returns the kind of the end: `NONE` if there is a caller, 0 if the frame is the outermost one,
/// else why no caller is found. In the last case neither the caller nor its registers are written.
/// Without a context, or if the address size is not 1, 2, 4 or 8, there is no step. If there is no
/// FDE, the function is all 0. Does not allocate.
#[unsafe(no_mangle)]
pub extern "C" fn cfi_step(
    alloc: Global,
    context: &mut CfiContext,
    module: &CfiModule<'_>,
    memory: &CfiMemory<'_>,
    pc: u64,
    is_interrupted: bool,
    registers: &[CfiValue],
    caller_registers: &mut [CfiValue],
    function: &mut CfiFunction,
    caller: &mut CfiCaller,
    end: &mut CfiEnd,
) -> u32
    ensures stepped { IsStepped context.old.live module.now memory.now
        (row_address pc is_interrupted) registers.now caller_registers.old caller_registers.new
        function.new caller.old caller.new end.new }
    ensures kind { result ≡ end.new.kind }
    ensures kept { context.new.live ≡ context.old.live }
{
    let mut held = mem::replace(context, CfiContext::of(alloc, None)).into_box();
    let address = row_address(pc, is_interrupted);
    let step = step_held(
        &mut held,
        module,
        memory,
        address,
        registers,
        caller_registers,
    );
    *context = CfiContext::of(alloc, held);
    *function = function_after(step);
    *caller = caller_after(*caller, step);
    *end = end_after(step);
    end.kind
}

/// The step with the context that is held, if the size of an address is one; or why there is none.
fn step_held(
    held: &mut Option<Box<Context>>,
    module: &CfiModule<'_>,
    memory: &CfiMemory<'_>,
    address: u64,
    registers: &[CfiValue],
    caller_registers: &mut [CfiValue],
) -> Result<FunctionStep, CfiEnd>
    ensures step { IsHeldStep (is_live held.old) module.now memory.now address registers.now
        caller_registers.old caller_registers.new result }
    ensures kept { is_live held.new ≡ is_live held.old }
{
    let Some(context) = held else {
        return Err(no_context());
    };
    if !is_sized(memory.address_size) {
        return Err(unsized_end(memory.address_size));
    }
    let registers = first_registers(registers);
    let step = step_by_values(
        context.as_mut(),
        module,
        memory,
        address,
        registers,
        caller_registers,
    );
    Ok(step)
}

/// The step from a frame with these values of registers. Writes those of the caller.
///
/// Few registers, as those of x86-64, take little of the stack, which a signal handler may have
/// little of.
fn step_by_values(
    context: &mut Context,
    module: &CfiModule<'_>,
    memory: &CfiMemory<'_>,
    address: u64,
    registers: &[CfiValue],
    caller_registers: &mut [CfiValue],
) -> FunctionStep
    requires size { IsAddressSize memory.now.address_size }
    requires room { length registers.now ≤ 256 }
    ensures step { IsStepWith module.now memory.now address (map known_value registers.now)
        result caller_registers.new }
    ensures unwritten { OnErr result.caller (caller_registers.new ≡ caller_registers.old) }
{
    if registers.len() <= FEW && caller_registers.len() <= FEW {
        step_by_few(
            context,
            module,
            memory,
            address,
            registers,
            caller_registers,
        )
    } else {
        step_by_many(
            context,
            module,
            memory,
            address,
            registers,
            caller_registers,
        )
    }
}

/// The same for at most 32 registers.
#[inline(never)]
fn step_by_few(
    context: &mut Context,
    module: &CfiModule<'_>,
    memory: &CfiMemory<'_>,
    address: u64,
    registers: &[CfiValue],
    caller_registers: &mut [CfiValue],
) -> FunctionStep
    requires size { IsAddressSize memory.now.address_size }
    requires room { length registers.now ≤ 32 }
    requires caller_room { length caller_registers.old ≤ 32 }
    ensures step { IsStepWith module.now memory.now address (map known_value registers.now)
        result caller_registers.new }
    ensures unwritten { OnErr result.caller (caller_registers.new ≡ caller_registers.old) }
{
    let mut known = [None; FEW];
    let mut found = [None; FEW];
    let known = &mut known[..registers.len()];
    let found = &mut found[..caller_registers.len()];
    write_values(registers, known);
    let step = step_from(context, module, memory, address, known, found);
    if step.caller.is_ok() {
        write_registers(found, caller_registers);
    }
    step
}

/// The same for any number of them.
#[inline(never)]
fn step_by_many(
    context: &mut Context,
    module: &CfiModule<'_>,
    memory: &CfiMemory<'_>,
    address: u64,
    registers: &[CfiValue],
    caller_registers: &mut [CfiValue],
) -> FunctionStep
    requires size { IsAddressSize memory.now.address_size }
    requires room { length registers.now ≤ 256 }
    ensures step { IsStepWith module.now memory.now address (map known_value registers.now)
        result caller_registers.new }
    ensures unwritten { OnErr result.caller (caller_registers.new ≡ caller_registers.old) }
{
    let mut known = [None; 256];
    let mut found = [None; 256];
    let known = &mut known[..registers.len()];
    let found = &mut found[..caller_registers.len().min(256)];
    write_values(registers, known);
    let step = step_from(context, module, memory, address, known, found);
    if step.caller.is_ok() {
        write_registers(found, caller_registers);
    }
    step
}

/// The step from a frame with these registers.
fn step_from(
    context: &mut Context,
    module: &CfiModule<'_>,
    memory: &CfiMemory<'_>,
    address: u64,
    registers: &[Option<u64>],
    caller: &mut [Option<u64>],
) -> FunctionStep
    requires size { IsAddressSize memory.now.address_size }
    requires room { length caller.old ≤ 0x10000 }
    ensures { IsPassedStep module.now memory.now address registers.now result caller.new }
{
    let size = memory.address_size;
    let frame = Frame {
        registers,
        memory,
        address_size: AddressSize::new(size),
    };
    let abi = abi_in(memory);
    if is_debug_frame(module) {
        return step_in_debug_frame(module, context, address, &abi, &frame, caller);
    }
    let loaded = loaded_of(module, size);
    step_in_function(&loaded, context, address, &abi, &frame, caller)
}

/// What the FDE says of the function, after a step.
fn function_after(step: Result<FunctionStep, CfiEnd>) -> CfiFunction
    ensures { result ≡ function_after step }
{
    match step {
        Ok(step) => written_function(step.function),
        Err(_end) => written_function(None),
    }
}

/// What is written of the caller, after a step.
fn caller_after(old: CfiCaller, step: Result<FunctionStep, CfiEnd>) -> CfiCaller
    ensures { result ≡ caller_after old step }
{
    match step {
        Ok(step) => caller_or(old, step.caller),
        Err(_end) => old,
    }
}

/// Why there is no caller, after a step; or that there is one.
fn end_after(step: Result<FunctionStep, CfiEnd>) -> CfiEnd
    ensures { result ≡ end_after step }
{
    match step {
        Ok(step) => end_by(step.caller),
        Err(end) => end,
    }
}

/// The caller as C sees it, if one is found.
pub fn caller_or(old: CfiCaller, caller: Result<Caller, FrameError>) -> CfiCaller
    ensures { result ≡ caller_or old caller }
{
    match caller {
        Ok(caller) => CfiCaller {
            cfa: caller.cfa,
            pc: caller.pc.unwrap_or(0),
            args_size: caller.args_size,
            is_interrupted: caller.is_interrupted,
        },
        Err(_error) => old,
    }
}
