//! The caller of one frame, with a cache of rows.
ghost use Rattle.std.specs.Prelude.{◌≡◌, ◌≤◌, false, length, true};
ghost use Rattle.std.specs.Option.{option_map};
ghost use Rattle.cfi_read_core.specs.Addresses.{IsAddressSize};
ghost use Rattle.cfi_step.specs.PackedRows.{rows_in};
ghost use Rattle.cfi_step.specs.Steps.{row_address};
ghost use Rattle.cfi_c.specs.AddressRows.{is_live};
ghost use Rattle.cfi_c.specs.CachedSteps.{IsCachedFor, StaysCachedFor, cache_rows, held_rows};
ghost use Rattle.cfi_c.specs.PackedSteps.{IsSteppedByHeld};
ghost use Rattle.cfi_c.specs.SteppedFrames.{IsStepped};

use crate::cache::CfiCache;
use crate::context::{CfiContext, Context};
use crate::debug_frame::keep_in_debug_frame;
use crate::end::CfiEnd;
use crate::function::CfiFunction;
use crate::memory::CfiMemory;
use crate::module::{CfiModule, is_debug_frame, loaded_of};
use crate::packed_step::step_by_packed;
use crate::register::{CfiValue, first_registers};
use crate::section::is_sized;
use crate::step::{CfiCaller, cfi_step};
use cfi_step::{RowCache, keep_row, row_address};
use std::alloc::Global;
use std::mem;

/// The step of `cfi_step`, with the same result, registers, function, caller and end, with a cache
/// of rows: by the row that the cache holds for the file and the address, if it does; else the row
/// is found as by `cfi_step`, and kept if it can be packed (`RowCache::keep`).
///
/// `file` is a number that the modules of one file share, here and in all calls with the cache:
/// they have the same sections and bases, and the size of an address stays the same. Else the
/// caller may be another one. Without a cache it is `cfi_step`. Does not allocate.
#[unsafe(no_mangle)]
pub extern "C" fn cfi_step_cached(
    alloc: Global,
    context: &mut CfiContext,
    cache: &mut CfiCache,
    file: u64,
    module: &CfiModule<'_>,
    memory: &CfiMemory<'_>,
    pc: u64,
    is_interrupted: bool,
    registers: &[CfiValue],
    caller_registers: &mut [CfiValue],
    function: &mut CfiFunction,
    caller: &mut CfiCaller,
    end: &mut CfiEnd,
) -> u32
    ensures stepped { IsCachedFor memory.now.address_size file module.now (cache_rows cache.old) →
        IsStepped context.old.live module.now memory.now (row_address pc is_interrupted)
        registers.now caller_registers.old caller_registers.new function.new caller.old caller.new
        end.new }
    ensures kind { result ≡ end.new.kind }
    ensures context { context.new.live ≡ context.old.live }
    ensures kept { StaysCachedFor memory.now.address_size file module.now
        (cache_rows cache.old) (cache_rows cache.new) }
{
    let mut held = mem::replace(cache, CfiCache::of(alloc, None)).into_box();
    let address = row_address(pc, is_interrupted);
    let is_stepped = step_by_held(
        alloc,
        context,
        &mut held,
        file,
        module,
        memory,
        address,
        registers,
        caller_registers,
        function,
        caller,
        end,
    );
    *cache = CfiCache::of(alloc, held);
    if is_stepped {
        return end.kind;
    }
    cfi_step(
        alloc,
        context,
        module,
        memory,
        pc,
        is_interrupted,
        registers,
        caller_registers,
        function,
        caller,
        end,
    )
}

/// The step by a row of the cache. Returns whether it is made; else neither the caller nor its
/// registers are written.
#[inline(always)]
fn step_by_held(
    alloc: Global,
    context: &mut CfiContext,
    held: &mut Option<Box<RowCache>>,
    file: u64,
    module: &CfiModule<'_>,
    memory: &CfiMemory<'_>,
    address: u64,
    registers: &[CfiValue],
    caller_registers: &mut [CfiValue],
    function: &mut CfiFunction,
    caller: &mut CfiCaller,
    end: &mut CfiEnd,
) -> bool
    ensures stepped { result ≡ true →
        IsCachedFor memory.now.address_size file module.now
        (held_rows (option_map (λ cache. cache.value) held.old)) →
        IsStepped context.old.live module.now memory.now address registers.now
        caller_registers.old caller_registers.new function.new caller.old caller.new end.new }
    ensures unwritten { result ≡ false →
        (caller_registers.new ≡ caller_registers.old) × (caller.new ≡ caller.old) }
    ensures context { context.new.live ≡ context.old.live }
    ensures kept { StaysCachedFor memory.now.address_size file module.now
        (held_rows (option_map (λ cache. cache.value) held.old))
        (held_rows (option_map (λ cache. cache.value) held.new)) }
{
    if !context.live || caller_registers.len() > 256 || !is_sized(memory.address_size) {
        return false;
    }
    let registers = first_registers(registers);
    match held {
        Some(rows) => step_by_rows(
            alloc,
            context,
            rows.as_mut(),
            file,
            module,
            memory,
            address,
            registers,
            caller_registers,
            function,
            caller,
            end,
        ),
        None => false,
    }
}

/// The step by a row of the cache that is there, or that is kept.
#[inline(always)]
fn step_by_rows(
    alloc: Global,
    context: &mut CfiContext,
    rows: &mut RowCache,
    file: u64,
    module: &CfiModule<'_>,
    memory: &CfiMemory<'_>,
    address: u64,
    registers: &[CfiValue],
    caller_registers: &mut [CfiValue],
    function: &mut CfiFunction,
    caller: &mut CfiCaller,
    end: &mut CfiEnd,
) -> bool
    requires size { IsAddressSize memory.now.address_size }
    requires room { length registers.now ≤ 256 }
    requires caller_room { length caller_registers.old ≤ 256 }
    ensures stepped { result ≡ true → IsSteppedByHeld memory.now file address (rows_in rows.new)
        registers.now caller_registers.old caller_registers.new function.new caller.old caller.new
        end.new }
    ensures unwritten { result ≡ false →
        (caller_registers.new ≡ caller_registers.old) × (caller.new ≡ caller.old) }
    ensures context { context.new.live ≡ context.old.live }
    ensures kept { StaysCachedFor memory.now.address_size file module.now
        (rows_in rows.old) (rows_in rows.new) }
{
    match rows.held(file, address) {
        Some(row) => {
            step_by_packed(
                row,
                memory,
                registers,
                caller_registers,
                function,
                caller,
                end,
            );
            true
        }
        None => step_after_keeping(
            alloc,
            context,
            rows,
            file,
            module,
            memory,
            address,
            registers,
            caller_registers,
            function,
            caller,
            end,
        ),
    }
}

/// The step by the row that is found and kept, if it can be.
#[inline(never)]
fn step_after_keeping(
    alloc: Global,
    context: &mut CfiContext,
    rows: &mut RowCache,
    file: u64,
    module: &CfiModule<'_>,
    memory: &CfiMemory<'_>,
    address: u64,
    registers: &[CfiValue],
    caller_registers: &mut [CfiValue],
    function: &mut CfiFunction,
    caller: &mut CfiCaller,
    end: &mut CfiEnd,
) -> bool
    requires size { IsAddressSize memory.now.address_size }
    requires room { length registers.now ≤ 256 }
    requires caller_room { length caller_registers.old ≤ 256 }
    ensures stepped { result ≡ true → IsSteppedByHeld memory.now file address (rows_in rows.new)
        registers.now caller_registers.old caller_registers.new function.new caller.old caller.new
        end.new }
    ensures unwritten { result ≡ false →
        (caller_registers.new ≡ caller_registers.old) × (caller.new ≡ caller.old) }
    ensures context { context.new.live ≡ context.old.live }
    ensures kept { StaysCachedFor memory.now.address_size file module.now
        (rows_in rows.old) (rows_in rows.new) }
{
    if rows.is_refused(file, address) {
        return false;
    }
    keep_found(
        alloc,
        context,
        rows,
        file,
        module,
        memory.address_size,
        address,
    );
    match rows.held(file, address) {
        Some(row) => {
            step_by_packed(
                row,
                memory,
                registers,
                caller_registers,
                function,
                caller,
                end,
            );
            true
        }
        None => false,
    }
}

/// Keeps the row that the module has for the address, with the context if there is one.
fn keep_found(
    alloc: Global,
    context: &mut CfiContext,
    rows: &mut RowCache,
    file: u64,
    module: &CfiModule<'_>,
    size: u8,
    address: u64,
)
    requires { IsAddressSize size }
    ensures context { context.new.live ≡ context.old.live }
    ensures kept { StaysCachedFor size file module.now (rows_in rows.old) (rows_in rows.new) }
{
    let mut held = mem::replace(context, CfiContext::of(alloc, None)).into_box();
    keep_with(&mut held, rows, file, module, size, address);
    *context = CfiContext::of(alloc, held);
}

/// Keeps the row, with the context that is held.
fn keep_with(
    held: &mut Option<Box<Context>>,
    rows: &mut RowCache,
    file: u64,
    module: &CfiModule<'_>,
    size: u8,
    address: u64,
)
    requires { IsAddressSize size }
    ensures live { is_live held.new ≡ is_live held.old }
    ensures kept { StaysCachedFor size file module.now (rows_in rows.old) (rows_in rows.new) }
{
    match held {
        Some(context) => keep_in_module(context.as_mut(), rows, file, module, size, address),
        None => {}
    }
}

/// Keeps the row by a context.
fn keep_in_module(
    context: &mut Context,
    rows: &mut RowCache,
    file: u64,
    module: &CfiModule<'_>,
    size: u8,
    address: u64,
)
    requires { IsAddressSize size }
    ensures { StaysCachedFor size file module.now (rows_in rows.old) (rows_in rows.new) }
{
    if is_debug_frame(module) {
        keep_in_debug_frame(module, rows, file, context, size, address);
        return;
    }
    let loaded = loaded_of(module, size);
    keep_row(&loaded, rows, file, context, size, address);
}
