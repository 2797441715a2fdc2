//! The frames of a thread of a core file.
ghost use Rattle.std.specs.Prelude.{◌≡◌, length};
ghost use Rattle.cfi_cores.specs.CoreThreads.{thread_view};
ghost use Rattle.cfi_step.specs.CachedRows.{AreCachedFor, AreNumbered, KeepsFor};
ghost use Rattle.cfi_step.specs.ModuleLists.{module_list};
ghost use Rattle.cfi_processes.specs.Registers.{register_count};
ghost use Rattle.cfi_core_stacks.specs.ThreadFrames.{IsThreadWalk, IsUnwound, thread_registers};

use crate::null_steps::NullSteps;
use crate::signal_steps::SignalSteps;
use cfi_cores::CoreThread;
use cfi_expression::Memory;
use cfi_processes::registers::SampleMachine;
use cfi_processes::sample_stack::NoFrames;
use cfi_step::{AddressSize, CachedRow, Modules, Process, StackFrame, Walk, write_frames};
use gimli_cfi::{Reader, UnwindContext, UnwindContextStorage};

/// Writes the frames of a thread, from the innermost one out, as far as there is room, by the
/// modules and the memory of its process.
///
/// `registers` and `caller` have room for `machine.register_count()` registers, and may hold
/// anything. A handler of AArch64 is followed by what its signal interrupted, also where no call
/// frames lead there (`signal_steps`), and an innermost frame at the address 0 by the call of it
/// (`null_steps`). Everything else is as in `cfi_processes::unwind_from`.
///
/// Fails with `NoProgramCounter` where the pc isn't known, and then writes nothing. Over a fixed
/// storage it does not allocate.
pub fn unwind_thread<R: Reader<Offset = usize>, S: UnwindContextStorage<usize>, M: Memory>(
    modules: Modules<'_, R>,
    machine: SampleMachine,
    thread: &CoreThread<'_>,
    memory: &M,
    cache: &mut [CachedRow],
    ctx: &mut UnwindContext<usize, S>,
    registers: &mut [Option<u64>],
    caller: &mut [Option<u64>],
    frames: &mut [StackFrame],
) -> Result<Walk, NoFrames>
    requires room { length registers.old ≡ register_count machine }
    requires same_room { length caller.old ≡ register_count machine }
    requires numbered { AreNumbered (module_list modules) }
    requires cached { AreCachedFor R.position 8 S.Rules.limit S.Stack.limit S.Rules.copies_free
        (module_list modules) cache.old }
    ensures unwound { IsUnwound R.position (λ n. n)
        S.Rules.limit S.Stack.limit S.Rules.copies_free
        (module_list modules.entry) machine (M.number_at memory.now) (thread_view thread.now)
        (record { registers = registers.old; caller = caller.old; frames = frames.old })
        result
        (record { registers = registers.new; caller = caller.new; frames = frames.new }) }
    ensures kept { KeepsFor R.position 8 S.Rules.limit S.Stack.limit S.Rules.copies_free
        (module_list modules.entry) cache.old cache.new }
    ensures cached { AreCachedFor R.position 8 S.Rules.limit S.Stack.limit S.Rules.copies_free
        (module_list modules.entry) cache.new }
{
    let Some(pc) = thread.register(machine, machine.program_counter()) else {
        return Err(NoFrames::NoProgramCounter);
    };
    write_registers(machine, thread, registers);
    Ok(walk_from(
        modules, machine, memory, pc, cache, ctx, registers, caller, frames,
    ))
}

/// Writes the frames from the innermost one on, whose registers are these.
fn walk_from<R: Reader<Offset = usize>, S: UnwindContextStorage<usize>, M: Memory>(
    modules: Modules<'_, R>,
    machine: SampleMachine,
    memory: &M,
    pc: u64,
    cache: &mut [CachedRow],
    ctx: &mut UnwindContext<usize, S>,
    registers: &mut [Option<u64>],
    caller: &mut [Option<u64>],
    frames: &mut [StackFrame],
) -> Walk
    requires room { length registers.old ≡ register_count machine }
    requires same_room { length caller.old ≡ register_count machine }
    requires numbered { AreNumbered (module_list modules) }
    requires cached { AreCachedFor R.position 8 S.Rules.limit S.Stack.limit S.Rules.copies_free
        (module_list modules) cache.old }
    ensures walk { IsThreadWalk R.position (λ n. n)
        S.Rules.limit S.Stack.limit S.Rules.copies_free
        (module_list modules.entry) machine (M.number_at memory.now) pc registers.old
        (record { registers = registers.old; caller = caller.old; frames = frames.old })
        result
        (record { registers = registers.new; caller = caller.new; frames = frames.new }) }
    ensures kept { KeepsFor R.position 8 S.Rules.limit S.Stack.limit S.Rules.copies_free
        (module_list modules.entry) cache.old cache.new }
    ensures cached { AreCachedFor R.position 8 S.Rules.limit S.Stack.limit S.Rules.copies_free
        (module_list modules.entry) cache.new }
{
    let process = Process {
        modules,
        memory,
        address_size: AddressSize::new(8),
        abi: machine.abi(),
    };
    let called = NullSteps {
        steps: process,
        memory,
        machine,
    };
    let steps = SignalSteps {
        steps: called,
        memory,
        machine,
    };
    write_frames(&steps, cache, ctx, pc, registers, caller, frames)
}

/// Writes the value of each register by its number of DWARF's.
fn write_registers(machine: SampleMachine, thread: &CoreThread<'_>, known: &mut [Option<u64>])
    requires { length known.old ≡ register_count machine }
    ensures { known.new ≡ thread_registers machine (thread_view thread.now) }
{
    for k in 0..known.len() {
        known[k] = thread.register(machine, k);
    }
}
