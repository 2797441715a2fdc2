//! Steps from the call of a null pointer to where it was made.
ghost use Rattle.std.specs.Prelude.{◌≡◌, length, map};
ghost use Rattle.std.specs.List.{range_with_len};
ghost use Rattle.cfi_step.specs.Callers.{on_ok};
ghost use Rattle.cfi_core_stacks.specs.NullSteps.{by_link, by_pushed, called_from, caller_of};
ghost use Rattle.cfi_core_stacks.specs.NullSteps.{caller_registers, is_null_call, value_in_caller};
ghost use Rattle.cfi_core_stacks.specs.NullSteps.{value_in_frame};

use crate::missing_frames::has_no_frames;
use cfi_expression::frame::register_value;
use cfi_expression::{FrameError, Memory};
use cfi_processes::registers::SampleMachine;
use cfi_step::step::Caller;
use cfi_step::steps::Steps;
use cfi_step::walk::{End, Start, checked};
use gimli_cfi::Register;

/// The stack pointer of x86-64.
const RSP: Register = Register(7);

/// The stack pointer of AArch64.
const SP: Register = Register(31);

/// The register of AArch64 with the address to which a function returns.
const LINK: Register = Register(30);

/// Steps that also lead from the address 0 to the call of it.
///
/// Such a step is one of `steps`. Where it ends since no call frames have the address, and the
/// frame is the innermost one at the address 0, the caller goes on at the number at the stack
/// pointer on x86-64, and at x30 on AArch64. Does not allocate.
#[derive(Drop)]
pub struct NullSteps<'a, P, M> {
    /// The steps by call frames.
    pub steps: P,
    /// The memory of the process.
    pub memory: &'a M,
    /// The machine.
    pub machine: SampleMachine,
}

impl<K, C, P: Steps<K, C>, M: Memory> Steps<K, C> for NullSteps<'_, P, M> {
    ghost use Rattle.cfi_core_stacks.specs.NullSteps.{IsNullStep};

    ghost is_step = { λ s. IsNullStep s.machine (M.number_at s.memory.now) (P.is_step s.steps) };

    ghost can_step = { λ s. P.can_step s.steps };

    ghost keeps = { λ s. P.keeps s.steps };

    fn step(
        &self,
        cache: &mut [K],
        ctx: &mut C,
        at: &Start,
        registers: &[Option<u64>],
        caller: &mut [Option<u64>],
    ) -> Result<Caller, End> {
        let step = self.steps.step(cache, ctx, at, registers, caller);
        if has_no_frames(step) && is_null_call(at) {
            let found = caller_of(self.machine, self.memory, registers);
            write_caller(self.machine, registers, found, caller);
            checked(at, found)
        } else {
            step
        }
    }

    ghost keeps_none = { λ s. P.keeps_none s.steps };

    ghost keeps_then = { λ s. P.keeps_then s.steps };
}

/// Whether the innermost frame was interrupted at the address 0.
fn is_null_call(at: &Start) -> bool
    ensures { result ≡ is_null_call at.now }
{
    at.callee_cfa.is_none() && at.pc == 0
}

/// The caller of that frame.
fn caller_of<M: Memory>(
    machine: SampleMachine,
    memory: &M,
    registers: &[Option<u64>],
) -> Result<Caller, FrameError>
    ensures { result ≡ caller_of machine (M.number_at memory.now) registers.now }
{
    match machine {
        SampleMachine::X86_64 => caller_by_stack(memory, registers),
        SampleMachine::AArch64 => caller_by_link(registers),
    }
}

/// The same on x86-64.
fn caller_by_stack<M: Memory>(memory: &M, registers: &[Option<u64>]) -> Result<Caller, FrameError>
    ensures { result ≡ on_ok (by_pushed (M.number_at memory.now)) (value_in_frame registers.now 7) }
{
    match register_value(registers, RSP) {
        Ok(sp) => by_pushed(memory, sp),
        Err(error) => Err(error),
    }
}

/// The same on AArch64.
fn caller_by_link(registers: &[Option<u64>]) -> Result<Caller, FrameError>
    ensures { result ≡ on_ok (by_link registers.now) (value_in_frame registers.now 31) }
{
    match register_value(registers, SP) {
        Ok(sp) => by_link(registers, sp),
        Err(error) => Err(error),
    }
}

/// The caller by the address that the call pushed.
fn by_pushed<M: Memory>(memory: &M, sp: u64) -> Result<Caller, FrameError>
    ensures { result ≡ by_pushed (M.number_at memory.now) sp }
{
    match memory.read(sp, 8) {
        Some(pc) => Ok(called_from(sp.wrapping_add(8), pc)),
        None => Err(FrameError::UnreadableMemory(sp)),
    }
}

/// The caller by the address in x30.
fn by_link(registers: &[Option<u64>], sp: u64) -> Result<Caller, FrameError>
    ensures { result ≡ by_link registers.now sp }
{
    match register_value(registers, LINK) {
        Ok(pc) => Ok(called_from(sp, pc)),
        Err(error) => Err(error),
    }
}

/// The caller that goes on at this pc, with the CFA.
fn called_from(cfa: u64, pc: u64) -> Caller
    ensures { result ≡ called_from cfa pc }
{
    Caller {
        cfa,
        pc: Some(pc),
        is_interrupted: false,
        args_size: 0,
    }
}

/// Writes the caller's registers, if it was found.
fn write_caller(
    machine: SampleMachine,
    registers: &[Option<u64>],
    found: Result<Caller, FrameError>,
    caller: &mut [Option<u64>],
)
    ensures { caller.new ≡ caller_registers machine registers.now found
        (length caller.old) caller.old }
{
    match found {
        Ok(frame) => write_registers(machine, registers, frame.cfa, caller),
        Err(_) => {}
    }
}

/// Writes the registers, with the CFA as the stack pointer.
fn write_registers(
    machine: SampleMachine,
    registers: &[Option<u64>],
    cfa: u64,
    caller: &mut [Option<u64>],
)
    ensures { caller.new ≡ map (value_in_caller machine registers.now cfa)
        (range_with_len 0 (length caller.old)) }
{
    for k in 0..caller.len() {
        caller[k] = value_in_caller(machine, registers, cfa, k);
    }
}

/// The register with this number of DWARF's in the caller.
fn value_in_caller(
    machine: SampleMachine,
    registers: &[Option<u64>],
    cfa: u64,
    k: usize,
) -> Option<u64>
    ensures { result ≡ value_in_caller machine registers.now cfa k }
{
    if k == usize::from(machine.abi().stack_pointer.0) {
        return Some(cfa);
    }
    if k < registers.len() {
        registers[k]
    } else {
        None
    }
}
