//! The frames of a stack, over any memory.
ghost use Rattle.std.specs.Prelude.{◌≡◌, length, true};
ghost use Rattle.cfi_step.specs.CachedRows.{AreCachedFor, AreNumbered, KeepsFor};
ghost use Rattle.cfi_step.specs.ModuleLists.{module_list};
ghost use Rattle.cfi_processes.specs.Registers.{register_count};
ghost use Rattle.cfi_processes.specs.SampleStacks.{IsWalkOver};

use crate::registers::SampleMachine;
use cfi_expression::Memory;
use cfi_step::{AddressSize, CachedRow, Modules, Process, StackFrame, Walk, unwind_cached};
use gimli_cfi::{Reader, UnwindContext, UnwindContextStorage};

/// Writes the frames of a stack, from the innermost one out, as far as there is room, by the
/// modules of its process.
///
/// `pc` and `registers` are those of the innermost frame, under DWARF's numbers; a register that is
/// not known is `None`. `registers` and `caller` have room for `machine.register_count()`
/// registers, and `caller` may hold anything. Addresses have 64 bits. Everything else is as in
/// `cfi_step::unwind_cached`, by whose conditions modules with one number of a file have the same
/// call frames, and the rows in the cache are those of these modules; an empty slice is right for
/// any modules. A row's expression may do 1000 operations.
///
/// Over a fixed storage it does not allocate.
pub fn unwind_from<R: Reader<Offset = usize>, S: UnwindContextStorage<usize>, M: Memory>(
    modules: Modules<'_, R>,
    machine: SampleMachine,
    memory: &M,
    pc: u64,
    cache: &mut [CachedRow],
    ctx: &mut UnwindContext<usize, S>,
    registers: &mut [Option<u64>],
    caller: &mut [Option<u64>],
    frames: &mut [StackFrame],
) -> Walk
    requires room { length registers.old ≡ register_count machine }
    requires same_room { length caller.old ≡ register_count machine }
    requires numbered { AreNumbered (module_list modules) }
    requires cached { AreCachedFor R.position 8 S.Rules.limit S.Stack.limit S.Rules.copies_free
        (module_list modules) cache.old }
    ensures walk { IsWalkOver R.position (λ n. n)
        S.Rules.limit S.Stack.limit S.Rules.copies_free
        (module_list modules.entry) machine (M.number_at memory.now) pc registers.old
        (record { registers = registers.old; caller = caller.old; frames = frames.old })
        result
        (record { registers = registers.new; caller = caller.new; frames = frames.new }) }
    ensures kept { KeepsFor R.position 8 S.Rules.limit S.Stack.limit S.Rules.copies_free
        (module_list modules.entry) cache.old cache.new }
    ensures cached { AreCachedFor R.position 8 S.Rules.limit S.Stack.limit S.Rules.copies_free
        (module_list modules.entry) cache.new }
{
    let process = Process {
        modules,
        memory,
        address_size: AddressSize::new(8),
        abi: machine.abi(),
    };
    unwind_cached(&process, cache, ctx, pc, registers, caller, frames)
}
