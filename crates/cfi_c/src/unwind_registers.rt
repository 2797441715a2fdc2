//! The frames of a stack, with the registers of each.
ghost use Rattle.std.specs.Prelude.{◌≡◌, ◌+◌, ◌++◌, ◌≤◌, ⊤, List, drop, length, map, take, true};
ghost use Rattle.cfi_read_core.specs.Addresses.{IsAddressSize};
ghost use Rattle.cfi_c.specs.AddressRows.{is_live};
ghost use Rattle.cfi_c.specs.PassedRegisters.{known_value, written_value};
ghost use Rattle.cfi_c.specs.RegisterFrames.{IsUnwoundWith, IsWalkedTo};
ghost use Rattle.cfi_c.specs.ModuleSteps.{IsStepForC};

use crate::context::{CfiContext, Context};
use crate::end::{CfiEnd, end_of, no_context, unsized_end};
use crate::frame::CfiFrame;
use crate::memory::window_over;
use crate::module::CfiModule;
use crate::passed_steps::PassedSteps;
use crate::register::{CfiValue, FEW, first_registers, write_values, written_value};
use crate::section::is_sized;
use crate::stack::{CfiStack, abi_of};
use cfi_step::code_ranges::out_of_order;
use cfi_step::walk::{Start, resumed};
use cfi_step::{End, Steps, Walk, WalkFrame};
use std::alloc::Global;
use std::mem;

/// How many frames are written, and why there are no more.
#[derive(Clone, Copy)]
struct Unwound {
    count: usize,
    end: CfiEnd,
}

/// Writes the frames of a stack as `cfi_unwind`, and the registers of each frame: as many for each
/// as are passed, of which those from 256 on are not read. Those of a frame come behind those of
/// the frame that it called; a register that is not known is 0.
///
/// Returns how many frames it has written, and writes in `end` why there are no more: also for want
/// of room for the registers of another frame. Writes nothing behind them. Without a context, or if
/// the address size is not 1, 2, 4 or 8, no frame is written. Does not allocate.
#[unsafe(no_mangle)]
pub extern "C" fn cfi_unwind_registers(
    alloc: Global,
    context: &mut CfiContext,
    modules: &[CfiModule<'_>],
    stack: &CfiStack<'_>,
    pc: u64,
    registers: &[CfiValue],
    frames: &mut [CfiFrame],
    values: &mut [CfiValue],
    end: &mut CfiEnd,
) -> usize
    ensures unwound { IsUnwoundWith context.old.live modules.now stack.now pc registers.now
        frames.old frames.new values.old values.new result end.new }
    ensures kept { context.new.live ≡ context.old.live }
{
    let mut held = mem::replace(context, CfiContext::of(alloc, None)).into_box();
    let unwound = unwind(&mut held, modules, stack, pc, registers, frames, values);
    *context = CfiContext::of(alloc, held);
    *end = unwound.end;
    unwound.count
}

/// Writes the frames and registers, with the context that is held, if the size of an address is
/// one.
fn unwind(
    held: &mut Option<Box<Context>>,
    modules: &[CfiModule<'_>],
    stack: &CfiStack<'_>,
    pc: u64,
    registers: &[CfiValue],
    frames: &mut [CfiFrame],
    values: &mut [CfiValue],
) -> Unwound
    ensures unwound { IsUnwoundWith (is_live held.old) modules.now stack.now pc registers.now
        frames.old frames.new values.old values.new result.count result.end }
    ensures kept { is_live held.new ≡ is_live held.old }
{
    let Some(context) = held else {
        return Unwound {
            count: 0,
            end: no_context(),
        };
    };
    if !is_sized(stack.address_size) {
        return Unwound {
            count: 0,
            end: unsized_end(stack.address_size),
        };
    }
    let registers = first_registers(registers);
    let context = context.as_mut();
    let walk = walk_from(context, modules, stack, pc, registers, frames, values);
    Unwound {
        count: walk.count,
        end: end_of(walk.end),
    }
}

/// Writes them by the registers of the innermost frame, and says why there are no more.
///
/// Few registers take little of the stack, as in `cfi_step`.
fn walk_from(
    context: &mut Context,
    modules: &[CfiModule<'_>],
    stack: &CfiStack<'_>,
    pc: u64,
    registers: &[CfiValue],
    frames: &mut [CfiFrame],
    values: &mut [CfiValue],
) -> Walk
    requires size { IsAddressSize stack.now.address_size }
    requires room { length registers.now ≤ 256 }
    ensures { IsWalkedTo (IsStepForC stack.now modules.now) result.end pc
        (map known_value registers.now) frames.old frames.new values.old values.new result.count }
{
    if registers.len() <= FEW {
        walk_by_few(context, modules, stack, pc, registers, frames, values)
    } else {
        walk_by_many(context, modules, stack, pc, registers, frames, values)
    }
}

/// The same for at most 32 registers.
#[inline(never)]
fn walk_by_few(
    context: &mut Context,
    modules: &[CfiModule<'_>],
    stack: &CfiStack<'_>,
    pc: u64,
    registers: &[CfiValue],
    frames: &mut [CfiFrame],
    values: &mut [CfiValue],
) -> Walk
    requires size { IsAddressSize stack.now.address_size }
    requires room { length registers.now ≤ 32 }
    ensures { IsWalkedTo (IsStepForC stack.now modules.now) result.end pc
        (map known_value registers.now) frames.old frames.new values.old values.new result.count }
{
    let mut known = [None; FEW];
    let mut found = [None; FEW];
    let known = &mut known[..registers.len()];
    let found = &mut found[..registers.len()];
    write_values(registers, known);
    write_values(registers, found);
    walk(context, modules, stack, pc, known, found, frames, values)
}

/// The same for any number of them.
#[inline(never)]
fn walk_by_many(
    context: &mut Context,
    modules: &[CfiModule<'_>],
    stack: &CfiStack<'_>,
    pc: u64,
    registers: &[CfiValue],
    frames: &mut [CfiFrame],
    values: &mut [CfiValue],
) -> Walk
    requires size { IsAddressSize stack.now.address_size }
    requires room { length registers.now ≤ 256 }
    ensures { IsWalkedTo (IsStepForC stack.now modules.now) result.end pc
        (map known_value registers.now) frames.old frames.new values.old values.new result.count }
{
    let mut known = [None; 256];
    let mut found = [None; 256];
    let known = &mut known[..registers.len()];
    let found = &mut found[..registers.len()];
    write_values(registers, known);
    write_values(registers, found);
    walk(context, modules, stack, pc, known, found, frames, values)
}

/// Writes them, and says why there are no more.
fn walk(
    context: &mut Context,
    modules: &[CfiModule<'_>],
    stack: &CfiStack<'_>,
    pc: u64,
    registers: &mut [Option<u64>],
    caller: &mut [Option<u64>],
    frames: &mut [CfiFrame],
    values: &mut [CfiValue],
) -> Walk
    requires size { IsAddressSize stack.now.address_size }
    requires room { length registers.old ≤ 256 }
    requires same { caller.old ≡ registers.old }
    ensures { IsWalkedTo (IsStepForC stack.now modules.now) result.end pc registers.old
        frames.old frames.new values.old values.new result.count }
{
    let steps = PassedSteps {
        modules,
        are_in_order: out_of_order(modules).is_none(),
        stack,
        memory: window_over(stack.base, stack.bytes, stack.big_endian),
        abi: abi_of(stack),
    };
    write_all(&steps, context, pc, registers, caller, frames, values)
}

/// Writes frame after frame, each with its registers, as `write_frames` without a cache.
fn write_all<C, P: Steps<(), C>>(
    steps: &P,
    ctx: &mut C,
    pc: u64,
    registers: &mut [Option<u64>],
    caller: &mut [Option<u64>],
    frames: &mut [CfiFrame],
    values: &mut [CfiValue],
) -> Walk
    requires room { length registers.old ≤ 256 }
    requires same { caller.old ≡ registers.old }
    requires can { (rows : List ⊤) → P.can_step steps.now rows }
    ensures { IsWalkedTo (P.is_step steps.now) result.end pc registers.old
        frames.old frames.new values.old values.new result.count }
{
    let mut no_rows: [(); 0] = [];
    let mut at = Start {
        pc,
        is_interrupted: true,
        callee_cfa: None,
    };
    let mut first = 0;
    for index in 0..frames.len() {
        if values.len() - first < registers.len() {
            return no_room(index);
        }
        write_registers(registers, values, first);
        first += registers.len();
        let step = steps.step(&mut no_rows, ctx, &at, registers, caller);
        frames[index] = CfiFrame::of(&at, step);
        match resumed(step) {
            Ok(next) => {
                at = next;
                registers.copy_from_slice(caller);
            }
            Err(end) => {
                return Walk {
                    count: index + 1,
                    end,
                };
            }
        }
    }
    no_room(frames.len())
}

/// So many frames, and no room for another.
fn no_room(count: usize) -> Walk
    ensures { result ≡ record { count = count; end = End.NoRoom } }
{
    Walk {
        count,
        end: End::NoRoom,
    }
}

/// Writes the registers of a frame from a place on.
fn write_registers(registers: &[Option<u64>], values: &mut [CfiValue], first: usize)
    requires { first + length registers.now ≤ length values.old }
    ensures written { take (first + length registers.now) values.new
        ≡ take first values.old ++ map written_value registers.now }
    ensures behind { drop (first + length registers.now) values.new
        ≡ drop (first + length registers.now) values.old }
{
    for k in 0..registers.len() {
        values[first + k] = written_value(registers[k]);
    }
}
