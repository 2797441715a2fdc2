//! The step from a frame to its caller, by a packed row, from C's values to C's values.
ghost use Rattle.std.specs.Prelude.{◌≡◌, ◌≤◌, Ok, length};
ghost use Rattle.cfi_read_core.specs.Addresses.{IsAddressSize};
ghost use Rattle.cfi_c.specs.PackedSteps.{IsPlacedBy, IsSteppedBy};
ghost use Rattle.cfi_c.specs.PassedRegisters.{plain_of};
ghost use Rattle.cfi_c.specs.SteppedFrames.{caller_or};
ghost use Rattle.cfi_c.specs.Ends.{end_at};

use crate::end::{CfiEnd, NONE, failed_end};
use crate::first_window::FirstWindow;
use crate::function::{CfiFunction, write_function, written_function};
use crate::memory::CfiMemory;
use crate::packed_caller::{caller_by, quick_caller};
use crate::packed_registers::{write_registers, write_ruled};
use crate::register::CfiValue;
use crate::step::CfiCaller;
use cfi_step::{Caller, PackedRow};

/// Writes the caller of a frame by a packed row, its registers, and what the row says of the
/// function.
#[inline(always)]
pub fn step_by_packed(
    row: &PackedRow,
    memory: &CfiMemory<'_>,
    registers: &[CfiValue],
    caller_registers: &mut [CfiValue],
    function: &mut CfiFunction,
    caller: &mut CfiCaller,
    end: &mut CfiEnd,
)
    requires size { IsAddressSize memory.now.address_size }
    requires room { length registers.now ≤ 256 }
    requires caller_room { length caller_registers.old ≤ 256 }
    ensures { IsSteppedBy memory.now registers.now row.now caller_registers.old
        caller_registers.new function.new caller.old caller.new end.new }
{
    *function = written_function(Some(row.function()));
    let first = FirstWindow::of(memory);
    match caller_by(row, memory, &first, registers) {
        Ok(found) => {
            write_registers(row, memory, &first, registers, found.cfa, caller_registers);
            write_caller(caller, found);
            write_end(end, found.pc);
        }
        Err(error) => *end = failed_end(error),
    }
}

/// The same, with the registers of the caller in the place of the frame's.
#[inline(always)]
pub fn step_in_place(
    row: &PackedRow,
    memory: &CfiMemory<'_>,
    registers: &mut [CfiValue],
    function: &mut CfiFunction,
    caller: &mut CfiCaller,
    end: &mut CfiEnd,
)
    requires size { memory.now.address_size ≡ 8 }
    requires room { length registers.old ≤ 256 }
    ensures { IsSteppedBy memory.now registers.old row.now (plain_of registers.old)
        (plain_of registers.new) function.new caller.old caller.new end.new }
{
    let first = FirstWindow::of(memory);
    let rules = row.rules();
    write_function(row, function);
    match quick_caller(row, rules, memory, &first, registers) {
        Some(found) => {
            write_caller(caller, found);
            write_end(end, found.pc);
            write_ruled(row, rules, memory, &first, found.cfa, registers);
        }
        None => step_by_any(row, memory, registers, caller, end),
    }
}

/// The same without the function, whatever the row and the memory are.
#[inline(never)]
fn step_by_any(
    row: &PackedRow,
    memory: &CfiMemory<'_>,
    registers: &mut [CfiValue],
    caller: &mut CfiCaller,
    end: &mut CfiEnd,
)
    requires size { IsAddressSize memory.now.address_size }
    requires room { length registers.old ≤ 256 }
    ensures { IsPlacedBy memory.now registers.old row.now (plain_of registers.old)
        (plain_of registers.new) caller.old caller.new end.new }
{
    let first = FirstWindow::of(memory);
    match caller_by(row, memory, &first, registers) {
        Ok(found) => {
            write_ruled(row, row.rules(), memory, &first, found.cfa, registers);
            write_caller(caller, found);
            write_end(end, found.pc);
        }
        Err(error) => *end = failed_end(error),
    }
}

/// Writes where the caller goes on.
#[inline(always)]
fn write_caller(caller: &mut CfiCaller, found: Caller)
    ensures { caller.new ≡ caller_or caller.old (Ok found) }
{
    // a field at a time, as in `packed_registers`
    caller.cfa = found.cfa;
    caller.pc = found.pc.unwrap_or(0);
    caller.args_size = found.args_size;
    caller.is_interrupted = found.is_interrupted;
}

/// Writes that there is a caller, or that the frame is the outermost one.
#[inline(always)]
fn write_end(end: &mut CfiEnd, pc: Option<u64>)
    ensures { end.new ≡ end_at pc }
{
    end.refused = 0;
    end.kind = if pc.is_some() { NONE } else { 0 };
    end.status = 0;
}
