//! The frames of a sample, from its copy of the stack.
ghost use Rattle.std.specs.Prelude.{◌≡◌, None, length, true};
ghost use Rattle.cfi_read_core.specs.ReaderCalls.{map_ok};
ghost use Rattle.cfi_step.specs.CachedRows.{AreCachedFor, AreNumbered, KeepsFor};
ghost use Rattle.cfi_step.specs.ModuleLists.{module_list};
ghost use Rattle.cfi_processes.specs.Registers.{register_count};
ghost use Rattle.cfi_processes.specs.SampleStacks.{IsSampleUnwound, innermost_of, known_register};
ghost use Rattle.cfi_processes.specs.SampleStacks.{known_registers, of_64_bits};
ghost use Rattle.cfi_perf.specs.Samples.{registers_view, user_view};

use crate::registers::SampleMachine;
use crate::stack_walk::unwind_from;
use cfi_perf::{UserRegisters, UserState};
use cfi_step::{CachedRow, Modules, StackFrame, Walk, Window};
use gimli_cfi::{EndianSlice, Reader, RunTimeEndian, UnwindContext, UnwindContextStorage};

/// `PERF_SAMPLE_REGS_ABI_64`: the registers are those of a 64-bit program.
const REGS_ABI_64: u64 = 2;

/// Why a sample has no frames.
#[derive(Clone, Copy, Debug, PartialEq, Eq)]
pub enum NoFrames {
    /// It has no registers of user space, as a sample of a thread of the kernel.
    NoRegisters,
    /// Its registers are those of another ABI, as of a 32-bit program (1).
    OtherAbi(u64),
    /// The profile doesn't have the pc of user space.
    NoProgramCounter,
    /// The profile doesn't have the stack pointer of user space.
    NoStackPointer,
}

/// The innermost frame of a sample: its pc and its stack pointer.
#[derive(Clone, Copy)]
pub struct Innermost {
    /// The pc.
    pub pc: u64,
    /// The address of the first byte of the stack.
    pub stack_pointer: u64,
}

/// Writes the frames of a sample, from the innermost one out, as far as there is room, by the
/// modules that its process had then.
///
/// `registers` and `caller` have room for `machine.register_count()` registers, and may hold what
/// the last sample left there. The registers of the innermost frame are the sample's, under DWARF's
/// numbers; its memory is the sample's copy of the stack, which begins at the stack pointer.
/// Everything else is as in `cfi_step::unwind_cached`, by whose conditions modules with one number
/// of a file have the same call frames, and the rows in the cache are those of these modules; an
/// empty slice is right for any modules. A row's expression may do 1000 operations.
///
/// Fails with the reason why there are no frames, and then writes nothing. Over a fixed storage it
/// does not allocate.
pub fn unwind_sample<R: Reader<Offset = usize>, S: UnwindContextStorage<usize>>(
    modules: Modules<'_, R>,
    machine: SampleMachine,
    user: &UserState<'_>,
    cache: &mut [CachedRow],
    ctx: &mut UnwindContext<usize, S>,
    registers: &mut [Option<u64>],
    caller: &mut [Option<u64>],
    frames: &mut [StackFrame],
) -> Result<Walk, NoFrames>
    requires room { length registers.old ≡ register_count machine }
    requires same_room { length caller.old ≡ register_count machine }
    requires numbered { AreNumbered (module_list modules) }
    requires cached { AreCachedFor R.position 8 S.Rules.limit S.Stack.limit S.Rules.copies_free
        (module_list modules) cache.old }
    ensures unwound { IsSampleUnwound R.position (λ n. n)
        S.Rules.limit S.Stack.limit S.Rules.copies_free
        (module_list modules.entry) machine (user_view user.now)
        (record { registers = registers.old; caller = caller.old; frames = frames.old })
        result
        (record { registers = registers.new; caller = caller.new; frames = frames.new }) }
    ensures kept { KeepsFor R.position 8 S.Rules.limit S.Stack.limit S.Rules.copies_free
        (module_list modules.entry) cache.old cache.new }
    ensures cached { AreCachedFor R.position 8 S.Rules.limit S.Stack.limit S.Rules.copies_free
        (module_list modules.entry) cache.new }
{
    let sampled = sampled(user)?;
    let innermost = innermost_of(machine, &sampled)?;
    write_registers(machine, &sampled, registers);
    let memory = Window {
        base: innermost.stack_pointer,
        bytes: EndianSlice::new(user.stack, RunTimeEndian::Little),
    };
    Ok(unwind_from(
        modules,
        machine,
        &memory,
        innermost.pc,
        cache,
        ctx,
        registers,
        caller,
        frames,
    ))
}

/// The registers of user space, if they are those of a 64-bit program.
fn sampled<'input>(user: &UserState<'input>) -> Result<UserRegisters<'input>, NoFrames>
    ensures { map_ok registers_view result ≡ of_64_bits (user_view user.now).registers }
{
    match user.registers {
        None => Err(NoFrames::NoRegisters),
        Some(registers) => {
            if registers.abi == REGS_ABI_64 {
                Ok(registers)
            } else {
                Err(NoFrames::OtherAbi(registers.abi))
            }
        }
    }
}

/// The pc and the stack pointer.
fn innermost_of(
    machine: SampleMachine,
    registers: &UserRegisters<'_>,
) -> Result<Innermost, NoFrames>
    ensures { result ≡ innermost_of machine (registers_view registers.now) }
{
    let Some(pc) = known_register(machine, registers, machine.program_counter()) else {
        return Err(NoFrames::NoProgramCounter);
    };
    let stack_pointer = usize::from(machine.abi().stack_pointer.0);
    match known_register(machine, registers, stack_pointer) {
        Some(stack_pointer) => Ok(Innermost { pc, stack_pointer }),
        None => Err(NoFrames::NoStackPointer),
    }
}

/// Writes the value of each register by its number of DWARF's, where the sample has it.
fn write_registers(machine: SampleMachine, registers: &UserRegisters<'_>, known: &mut [Option<u64>])
    requires { length known.old ≡ register_count machine }
    ensures { known.new ≡ known_registers machine (registers_view registers.now) }
{
    for k in 0..known.len() {
        known[k] = known_register(machine, registers, k);
    }
}

/// The value of the register with this number of DWARF's, if the sample has it.
fn known_register(
    machine: SampleMachine,
    registers: &UserRegisters<'_>,
    register: usize,
) -> Option<u64>
    ensures { result ≡ known_register machine (registers_view registers.now) register }
{
    match machine.perf_number(register) {
        Some(number) => registers.get(number),
        None => None,
    }
}
