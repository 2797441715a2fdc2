//! The frames of a stack.
ghost use Rattle.std.specs.Prelude.{◌≡◌, ◌≤◌, None, drop, length, map, take, true};
ghost use Rattle.cfi_read_core.specs.Addresses.{IsAddressSize};
ghost use Rattle.cfi_c.specs.AddressRows.{is_live};
ghost use Rattle.cfi_c.specs.StackFrames.{IsUnwoundForC, IsWalkForC, IsWalkTo};
ghost use Rattle.cfi_c.specs.PassedRegisters.{known_value};

use crate::context::{CfiContext, Context};
use crate::end::{CfiEnd, end_of, no_context, unsized_end};
use crate::frame::CfiFrame;
use crate::memory::window_over;
use crate::module::CfiModule;
use crate::passed_steps::PassedSteps;
use crate::register::{CfiValue, FEW, first_registers, write_values};
use crate::section::is_sized;
use crate::stack::{CfiStack, abi_of};
use cfi_step::code_ranges::out_of_order;
use cfi_step::{End, Walk, write_frames};
use std::alloc::Global;
use std::mem;

/// Writes the frames of a stack, from the innermost one out, as far as there is room. The pc and
/// the registers are those of the innermost frame; registers from 256 on are not read.
///
/// Returns how many frames it has written, and writes in `end` why there are no more. Writes
/// nothing behind them. Without a context, or if the address size is not 1, 2, 4 or 8, no frame is
/// written. Does not allocate.
#[unsafe(no_mangle)]
pub extern "C" fn cfi_unwind(
    alloc: Global,
    context: &mut CfiContext,
    modules: &[CfiModule<'_>],
    stack: &CfiStack<'_>,
    pc: u64,
    registers: &[CfiValue],
    frames: &mut [CfiFrame],
    end: &mut CfiEnd,
) -> usize
    ensures unwound { IsUnwoundForC context.old.live modules.now stack.now pc registers.now
        frames.old frames.new result end.new }
    ensures kept { context.new.live ≡ context.old.live }
{
    let mut held = mem::replace(context, CfiContext::of(alloc, None)).into_box();
    let count = unwind(&mut held, modules, stack, pc, registers, frames, end);
    *context = CfiContext::of(alloc, held);
    count
}

/// Writes the frames, with the context that is held, if the size of an address is one.
fn unwind(
    held: &mut Option<Box<Context>>,
    modules: &[CfiModule<'_>],
    stack: &CfiStack<'_>,
    pc: u64,
    registers: &[CfiValue],
    frames: &mut [CfiFrame],
    end: &mut CfiEnd,
) -> usize
    ensures unwound { IsUnwoundForC (is_live held.old) modules.now stack.now pc registers.now
        frames.old frames.new result end.new }
    ensures kept { is_live held.new ≡ is_live held.old }
{
    let Some(context) = held else {
        *end = no_context();
        return 0;
    };
    if !is_sized(stack.address_size) {
        *end = unsized_end(stack.address_size);
        return 0;
    }
    let registers = first_registers(registers);
    let walk = walk_from(context.as_mut(), modules, stack, pc, registers, frames);
    *end = end_of(walk.end);
    walk.count
}

/// Writes the frames, by the registers of the innermost one, and says why there are no more.
///
/// Few registers take little of the stack, as in `cfi_step`.
fn walk_from(
    context: &mut Context,
    modules: &[CfiModule<'_>],
    stack: &CfiStack<'_>,
    pc: u64,
    registers: &[CfiValue],
    frames: &mut [CfiFrame],
) -> Walk
    requires size { IsAddressSize stack.now.address_size }
    requires room { length registers.now ≤ 256 }
    ensures { IsWalkTo result.end modules.now stack.now pc (map known_value registers.now)
        frames.old frames.new result.count }
{
    if registers.len() <= FEW {
        walk_by_few(context, modules, stack, pc, registers, frames)
    } else {
        walk_by_many(context, modules, stack, pc, registers, frames)
    }
}

/// The same for at most 32 registers.
#[inline(never)]
fn walk_by_few(
    context: &mut Context,
    modules: &[CfiModule<'_>],
    stack: &CfiStack<'_>,
    pc: u64,
    registers: &[CfiValue],
    frames: &mut [CfiFrame],
) -> Walk
    requires size { IsAddressSize stack.now.address_size }
    requires room { length registers.now ≤ 32 }
    ensures { IsWalkTo result.end modules.now stack.now pc (map known_value registers.now)
        frames.old frames.new result.count }
{
    let mut known = [None; FEW];
    let mut found = [None; FEW];
    let known = &mut known[..registers.len()];
    let found = &mut found[..registers.len()];
    write_values(registers, known);
    write_values(registers, found);
    walk(context, modules, stack, pc, known, found, frames)
}

/// The same for any number of them.
#[inline(never)]
fn walk_by_many(
    context: &mut Context,
    modules: &[CfiModule<'_>],
    stack: &CfiStack<'_>,
    pc: u64,
    registers: &[CfiValue],
    frames: &mut [CfiFrame],
) -> Walk
    requires size { IsAddressSize stack.now.address_size }
    requires room { length registers.now ≤ 256 }
    ensures { IsWalkTo result.end modules.now stack.now pc (map known_value registers.now)
        frames.old frames.new result.count }
{
    let mut known = [None; 256];
    let mut found = [None; 256];
    let known = &mut known[..registers.len()];
    let found = &mut found[..registers.len()];
    write_values(registers, known);
    write_values(registers, found);
    walk(context, modules, stack, pc, known, found, frames)
}

/// Writes the frames, and says why there are no more.
fn walk(
    context: &mut Context,
    modules: &[CfiModule<'_>],
    stack: &CfiStack<'_>,
    pc: u64,
    registers: &mut [Option<u64>],
    caller: &mut [Option<u64>],
    frames: &mut [CfiFrame],
) -> Walk
    requires size { IsAddressSize stack.now.address_size }
    requires room { length registers.old ≤ 0x10000 }
    requires same_room { length caller.old ≡ length registers.old }
    ensures walk { IsWalkForC modules.now stack.now
        (record {
          at = record { pc = pc; is_interrupted = true; callee_cfa = None };
          registers = registers.old;
          caller = caller.old;
        })
        (take result.count frames.new) result.end registers.new caller.new }
    ensures rest { drop result.count frames.new ≡ drop result.count frames.old }
    ensures count { result.count ≤ length frames.new }
    ensures full { result.end ≡ End.NoRoom → result.count ≡ length frames.new }
{
    let steps = PassedSteps {
        modules,
        are_in_order: out_of_order(modules).is_none(),
        stack,
        memory: window_over(stack.base, stack.bytes, stack.big_endian),
        abi: abi_of(stack),
    };
    let mut no_rows: [(); 0] = [];
    write_frames(&steps, &mut no_rows, context, pc, registers, caller, frames)
}
