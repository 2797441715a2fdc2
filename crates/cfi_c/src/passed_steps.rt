//! The steps of a walk over what C passes.
ghost use Rattle.std.specs.Prelude.{◌≡◌, ◌≤◌, Err, OnErr, length};
ghost use Rattle.cfi_c.specs.PassedSteps.{AreOfStack};
ghost use Rattle.cfi_c.specs.ModuleSteps.{IsStepForC, IsStepInModule};

use crate::context::Context;
use crate::debug_frame::step_in_debug_frame;
use crate::module::{CfiModule, is_debug_frame, loaded_of, module_at};
use crate::stack::CfiStack;
use cfi_step::walk::{Start, checked};
use cfi_step::{
    Abi, AddressSize, Caller, End, Frame, FrameError, Steps, Window, row_address, step_in_module,
};
use gimli_cfi::{EndianSlice, RunTimeEndian};

/// The steps of a walk over what C passes.
#[derive(Drop)]
pub struct PassedSteps<'a> {
    /// The modules, in any order.
    pub modules: &'a [CfiModule<'a>],
    /// Whether they are in the order of their addresses, and none overlaps another.
    pub are_in_order: bool,
    /// The stack, whose size of an address is one.
    pub stack: &'a CfiStack<'a>,
    /// Its bytes as memory.
    pub memory: Window<EndianSlice<'a, RunTimeEndian>>,
    /// What the ABI says of its frames.
    pub abi: Abi,
}

impl<K> Steps<K, Context> for PassedSteps<'_> {
    ghost use Rattle.std.specs.Prelude.{⊤};

    ghost is_step = { λ steps. IsStepForC steps.stack.now steps.modules.now };

    ghost can_step = { λ steps cache. AreOfStack steps };

    ghost keeps = { λ steps old new. ⊤ };

    fn step(
        &self,
        _cache: &mut [K],
        context: &mut Context,
        at: &Start,
        registers: &[Option<u64>],
        caller: &mut [Option<u64>],
    ) -> Result<Caller, End> {
        step_from(self, context, at, registers, caller)
    }

    ghost keeps_none = { λ steps cache. tt };

    ghost keeps_then = { λ steps old next new first then. tt };
}

/// The step from a frame, in the first module whose code its address is in.
fn step_from(
    steps: &PassedSteps<'_>,
    context: &mut Context,
    at: &Start,
    registers: &[Option<u64>],
    caller: &mut [Option<u64>],
) -> Result<Caller, End>
    requires of_stack { AreOfStack steps.now }
    requires room { length caller.old ≤ 0x10000 }
    ensures step { IsStepForC steps.now.stack.now steps.now.modules.now
        (record { at = at.now; registers = registers.now; caller = caller.old })
        result caller.new }
    ensures room { result ≡ Err End.NoRoom → ⊥ }
{
    match module_at(
        steps.modules,
        steps.are_in_order,
        row_address(at.pc, at.is_interrupted),
    ) {
        None => Err(End::NoModule),
        Some(module) => checked(at, step_in(steps, context, module, at, registers, caller)),
    }
}

/// The caller of a frame of the module's code.
fn step_in(
    steps: &PassedSteps<'_>,
    context: &mut Context,
    module: &CfiModule<'_>,
    at: &Start,
    registers: &[Option<u64>],
    caller: &mut [Option<u64>],
) -> Result<Caller, FrameError>
    requires of_stack { AreOfStack steps.now }
    requires room { length caller.old ≤ 0x10000 }
    ensures step { IsStepInModule steps.now.stack.now module.now
        (record { at = at.now; registers = registers.now; caller = caller.old })
        result caller.new }
    ensures unwritten { OnErr result (caller.new ≡ caller.old) }
{
    let size = steps.stack.address_size;
    let frame = Frame {
        registers,
        memory: &steps.memory,
        address_size: AddressSize::new(size),
    };
    let address = row_address(at.pc, at.is_interrupted);
    if is_debug_frame(module) {
        return step_in_debug_frame(module, context, address, &steps.abi, &frame, caller).caller;
    }
    let loaded = loaded_of(module, size);
    step_in_module(&loaded, context, address, &steps.abi, &frame, caller)
}
