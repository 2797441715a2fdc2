//! Steps from the handler of a signal to what it interrupted, where call frames don't lead there.
ghost use Rattle.std.specs.Prelude.{◌≡◌, ◌<◌, length, map};
ghost use Rattle.std.specs.List.{range_with_len};
ghost use Rattle.cfi_core_stacks.specs.SignalSteps.{calls_sigreturn, interrupted};
ghost use Rattle.cfi_core_stacks.specs.SignalSteps.{interrupted_registers};
ghost use Rattle.cfi_core_stacks.specs.SignalSteps.{is_signal_trampoline};
ghost use Rattle.cfi_core_stacks.specs.SignalSteps.{pc_saved, register_place, saved_in};

use crate::missing_frames::has_no_frames;
use cfi_expression::frame::register_value;
use cfi_expression::{FrameError, Memory};
use cfi_processes::registers::SampleMachine;
use cfi_step::step::Caller;
use cfi_step::steps::Steps;
use cfi_step::walk::{End, Start, checked};
use gimli_cfi::Register;

/// The instructions `mov x8, #139` and `svc #0`, which call `rt_sigreturn`, as a number.
const CALL_OF_SIGRETURN: u64 = 0xd400_0001_d280_1168;

/// The stack pointer.
const SP: Register = Register(31);

/// The pc.
const PC: usize = 32;

/// How many bytes are between the stack pointer and `struct sigcontext`: `siginfo`, and what
/// `struct ucontext` has before it.
const SIGCONTEXT: u64 = 128 + 176;

/// Steps that also lead over the place where a handler of AArch64 returns to, for which the vdso
/// has no call frames (Linux, `struct rt_sigframe`).
///
/// Such a step is one of `steps`. Where it ends since no call frames have the address, and the call
/// of `rt_sigreturn` is at the pc, the caller is what the signal interrupted, by the registers that
/// the kernel wrote to the stack. Does not allocate.
#[derive(Drop)]
pub struct SignalSteps<'a, P, M> {
    /// The steps by call frames.
    pub steps: P,
    /// The memory of the process.
    pub memory: &'a M,
    /// The machine: there are such steps on AArch64 alone.
    pub machine: SampleMachine,
}

impl<K, C, P: Steps<K, C>, M: Memory> Steps<K, C> for SignalSteps<'_, P, M> {
    ghost use Rattle.cfi_core_stacks.specs.SignalSteps.{IsSignalStep};

    ghost is_step = { λ s. IsSignalStep s.machine (M.number_at s.memory.now)
        (P.is_step s.steps) };

    ghost can_step = { λ s. P.can_step s.steps };

    ghost keeps = { λ s. P.keeps s.steps };

    fn step(
        &self,
        cache: &mut [K],
        ctx: &mut C,
        at: &Start,
        registers: &[Option<u64>],
        caller: &mut [Option<u64>],
    ) -> Result<Caller, End> {
        let step = self.steps.step(cache, ctx, at, registers, caller);
        if has_no_frames(step) && is_trampoline(self.machine, self.memory, at.pc) {
            let found = interrupted(self.memory, registers);
            write_saved(self.memory, found, caller);
            checked(at, found)
        } else {
            step
        }
    }

    ghost keeps_none = { λ s. P.keeps_none s.steps };

    ghost keeps_then = { λ s. P.keeps_then s.steps };
}

/// Whether the call of `rt_sigreturn` is at the pc.
fn is_trampoline<M: Memory>(machine: SampleMachine, memory: &M, pc: u64) -> bool
    ensures { result ≡ is_signal_trampoline machine (M.number_at memory.now) pc }
{
    match machine {
        SampleMachine::X86_64 => false,
        SampleMachine::AArch64 => calls_sigreturn(memory.read(pc, 8)),
    }
}

/// Whether the code is the call of `rt_sigreturn`.
fn calls_sigreturn(code: Option<u64>) -> bool
    ensures { result ≡ calls_sigreturn code }
{
    match code {
        Some(code) => code == CALL_OF_SIGRETURN,
        None => false,
    }
}

/// What the signal interrupted, by the registers of the frame of the trampoline.
fn interrupted<M: Memory>(memory: &M, registers: &[Option<u64>]) -> Result<Caller, FrameError>
    ensures { result ≡ interrupted (M.number_at memory.now) registers.now }
{
    match register_value(registers, SP) {
        Ok(sp) => pc_saved(memory, sp.wrapping_add(SIGCONTEXT)),
        Err(error) => Err(error),
    }
}

/// The same by the address of `struct sigcontext`.
fn pc_saved<M: Memory>(memory: &M, context: u64) -> Result<Caller, FrameError>
    ensures { result ≡ pc_saved (M.number_at memory.now) context }
{
    match saved_in(memory, context, PC) {
        Some(pc) => Ok(Caller {
            cfa: context,
            pc: Some(pc),
            is_interrupted: true,
            args_size: 0,
        }),
        None => Err(FrameError::UnreadableMemory(place_in(context, PC))),
    }
}

/// Writes the registers of what was interrupted, if it was found.
fn write_saved<M: Memory>(memory: &M, found: Result<Caller, FrameError>, caller: &mut [Option<u64>])
    ensures { caller.new ≡ interrupted_registers (M.number_at memory.now) found
        (length caller.old) caller.old }
{
    match found {
        Ok(frame) => write_registers(memory, frame.cfa, caller),
        Err(_) => {}
    }
}

/// Writes the registers that `struct sigcontext` at this address has.
fn write_registers<M: Memory>(memory: &M, context: u64, caller: &mut [Option<u64>])
    ensures { caller.new ≡ map (saved_in (M.number_at memory.now) context)
        (range_with_len 0 (length caller.old)) }
{
    for k in 0..caller.len() {
        caller[k] = saved_in(memory, context, k);
    }
}

/// The register with this number of DWARF's, as `struct sigcontext` at this address has it.
fn saved_in<M: Memory>(memory: &M, context: u64, k: usize) -> Option<u64>
    ensures { result ≡ saved_in (M.number_at memory.now) context k }
{
    if k < 33 {
        memory.read(place_in(context, k), 8)
    } else {
        None
    }
}

/// The address at which `struct sigcontext` has a register.
fn place_in(context: u64, k: usize) -> u64
    requires { k < 33 }
    ensures { result ≡ register_place context k }
{
    context.wrapping_add(8 + 8 * k as u64)
}
