//! The caller of one frame, by a row that a cache holds, in the place of the frame.
ghost use Rattle.std.specs.Prelude.{◌≡◌, ◌*◌, ◌≤◌, length, false, true};
ghost use Rattle.std.specs.Option.{option_map};
ghost use Rattle.cfi_step.specs.PackedRows.{rows_in};
ghost use Rattle.cfi_step.specs.Steps.{row_address};
ghost use Rattle.cfi_c.specs.CachedSteps.{IsCachedFor, cache_rows, held_rows};
ghost use Rattle.cfi_c.specs.declared.module.CfiModule.{CfiModule};
ghost use Rattle.cfi_c.specs.PackedSteps.{IsSteppedByHeld};
ghost use Rattle.cfi_c.specs.PassedRegisters.{plain_of};
ghost use Rattle.cfi_c.specs.SteppedFrames.{IsStepped};

use crate::cache::CfiCache;
use crate::end::CfiEnd;
use crate::function::CfiFunction;
use crate::memory::CfiMemory;
use crate::packed_step::step_in_place;
use crate::register::CfiValue;
use crate::step::CfiCaller;
use cfi_step::{RowCache, row_address};
use std::alloc::Global;
use std::mem;

/// The step of `cfi_step`, if the cache holds the row of the file and the address, with the
/// registers of the caller in the place of the frame's. Returns whether it is made: what is written
/// is then what `cfi_step` writes, with the end in `end`. Else the registers and the caller stay as
/// they were: `cfi_step_cached` makes the step, and keeps the row.
///
/// The value of a register of the caller that isn't known is any: `plain_of` has 0 in its place, as
/// `cfi_step` writes it. `file` is that of `cfi_step_cached`. With more than 256 registers, or if
/// addresses don't have eight bytes, it makes no step. Does not allocate.
#[unsafe(no_mangle)]
pub extern "C" fn cfi_step_held(
    alloc: Global,
    cache: &mut CfiCache,
    file: u64,
    memory: &CfiMemory<'_>,
    pc: u64,
    is_interrupted: bool,
    registers: &mut [CfiValue],
    function: &mut CfiFunction,
    caller: &mut CfiCaller,
    end: &mut CfiEnd,
) -> bool
    ensures stepped { result ≡ true → (loaded : CfiModule) →
        IsCachedFor memory.now.address_size file loaded (cache_rows cache.old) →
        IsStepped true loaded memory.now (row_address pc is_interrupted) registers.old
        (plain_of registers.old) (plain_of registers.new) function.new caller.old caller.new
        end.new }
    ensures unwritten { result ≡ false →
        (registers.new ≡ registers.old) × (caller.new ≡ caller.old) }
    ensures kept { cache_rows cache.new ≡ cache_rows cache.old }
{
    if registers.len() > 256 || memory.address_size != 8 || !cache.live {
        return false;
    }
    let held = mem::replace(cache, CfiCache::of(alloc, None)).into_box();
    let address = row_address(pc, is_interrupted);
    let is_stepped = step_by_held(
        &held, file, memory, address, registers, function, caller, end,
    );
    *cache = CfiCache::of(alloc, held);
    is_stepped
}

/// The step by a row of the cache, if there is one.
#[inline(always)]
fn step_by_held(
    held: &Option<Box<RowCache>>,
    file: u64,
    memory: &CfiMemory<'_>,
    address: u64,
    registers: &mut [CfiValue],
    function: &mut CfiFunction,
    caller: &mut CfiCaller,
    end: &mut CfiEnd,
) -> bool
    requires size { memory.now.address_size ≡ 8 }
    requires room { length registers.old ≤ 256 }
    ensures stepped { result ≡ true → IsSteppedByHeld memory.now file address
        (held_rows (option_map (λ cache. cache.value) held.now)) registers.old
        (plain_of registers.old) (plain_of registers.new) function.new caller.old caller.new
        end.new }
    ensures unwritten { result ≡ false →
        (registers.new ≡ registers.old) × (caller.new ≡ caller.old) }
{
    match held {
        Some(rows) => step_by_rows(
            rows.as_ref(),
            file,
            memory,
            address,
            registers,
            function,
            caller,
            end,
        ),
        None => false,
    }
}

/// The step by a row of the cache that is there.
#[inline(always)]
fn step_by_rows(
    rows: &RowCache,
    file: u64,
    memory: &CfiMemory<'_>,
    address: u64,
    registers: &mut [CfiValue],
    function: &mut CfiFunction,
    caller: &mut CfiCaller,
    end: &mut CfiEnd,
) -> bool
    requires size { memory.now.address_size ≡ 8 }
    requires room { length registers.old ≤ 256 }
    ensures stepped { result ≡ true →
        IsSteppedByHeld memory.now file address (rows_in rows.now) registers.old
        (plain_of registers.old) (plain_of registers.new) function.new caller.old caller.new
        end.new }
    ensures unwritten { result ≡ false →
        (registers.new ≡ registers.old) × (caller.new ≡ caller.old) }
{
    match rows.held(file, address) {
        Some(row) => {
            step_in_place(row, memory, registers, function, caller, end);
            true
        }
        None => false,
    }
}
