//! The frames of a stack, with a cache of rows.
ghost use Rattle.std.specs.Prelude.{◌≡◌, ◌≤◌, drop, length, take, true, None};
ghost use Rattle.cfi_read_core.specs.AddressSizes.{size_in_bytes};
ghost use Rattle.cfi_step.specs.CachedRows.{AreCachedFor, AreNumbered, KeepsFor};
ghost use Rattle.cfi_step.specs.ModuleLists.{module_list};
ghost use Rattle.cfi_step.specs.Walks.{IsWalk};

use crate::cached_rows::CachedRow;
use crate::process::Process;
use crate::walk::{End, StackFrame, Walk, write_frames};
use cfi_expression::Memory;
use gimli_cfi::{Reader, UnwindContext, UnwindContextStorage};

/// Writes the frames of a stack as `unwind`, with a cache of rows.
///
/// The cache has any number of slots, which are empty or were filled by such walks. In a module
/// without a compiled table, the row that the cache holds for the file and an address of it is
/// taken as it is; else the row is found as by `step_in_module`, and kept if it has at most 8 rules
/// of registers. What is promised of the frames is what `unwind` promises.
///
/// Modules with one number of a file have the same sections and bases, here and in all walks with
/// the cache. So it may be kept while modules come and go, and for several processes. The size of
/// an address and the type of context stay the same. Empty it, by `clear_rows`, before any of that
/// changes.
///
/// Over a fixed storage it does not allocate; a row that is held needs no memory over any storage.
pub fn unwind_cached<R: Reader<Offset = usize>, S: UnwindContextStorage<usize>, M: Memory>(
    process: &Process<'_, R, M>,
    cache: &mut [CachedRow],
    ctx: &mut UnwindContext<usize, S>,
    pc: u64,
    registers: &mut [Option<u64>],
    caller: &mut [Option<u64>],
    frames: &mut [StackFrame],
) -> Walk
    requires room { length registers.old ≤ 0x10000 }
    requires same_room { length caller.old ≡ length registers.old }
    requires numbered { AreNumbered (module_list process.now.modules) }
    requires cached { AreCachedFor R.position (size_in_bytes process.now.address_size)
        S.Rules.limit S.Stack.limit S.Rules.copies_free
        (module_list process.now.modules) cache.old }
    ensures walk { IsWalk R.position (λ n. n) M.number_at
        S.Rules.limit S.Stack.limit S.Rules.copies_free process.now
        (record {
          at = record { pc = pc; is_interrupted = true; callee_cfa = None };
          registers = registers.old;
          caller = caller.old;
        })
        (take result.count frames.new) result.end registers.new caller.new }
    ensures rest { drop result.count frames.new ≡ drop result.count frames.old }
    ensures count { result.count ≤ length frames.new }
    ensures full { result.end ≡ End.NoRoom → result.count ≡ length frames.new }
    ensures kept { KeepsFor R.position (size_in_bytes process.now.address_size)
        S.Rules.limit S.Stack.limit S.Rules.copies_free
        (module_list process.now.modules) cache.old cache.new }
    ensures cached { AreCachedFor R.position (size_in_bytes process.now.address_size)
        S.Rules.limit S.Stack.limit S.Rules.copies_free
        (module_list process.now.modules) cache.new }
{
    write_frames(process, cache, ctx, pc, registers, caller, frames)
}
