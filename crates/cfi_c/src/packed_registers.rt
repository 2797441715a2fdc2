//! The registers of a frame's caller, by a packed row, from C's values to C's values.
ghost use Rattle.std.specs.Prelude.{◌≡◌, ◌≤◌, ℕ, List, length, slice_set};
ghost use Rattle.cfi_read_core.specs.Addresses.{IsAddressSize};
ghost use Rattle.cfi_read_core.specs.ReadFunctions.{Position};
ghost use Rattle.cfi_expression.specs.Arithmetic.{displaced};
ghost use Rattle.cfi_step.specs.Callers.{by_rule, found_value};
ghost use Rattle.cfi_step.specs.PackedRows.{counted_rules};
ghost use Rattle.cfi_step.specs.PackedRules.{eightfold, pair_of};
ghost use Rattle.cfi_c.specs.FirstWindows.{IsFirstWindow};
ghost use Rattle.cfi_c.specs.PackedSteps.{AreOfCaller, IsValueBy, passed_frame};
ghost use Rattle.cfi_c.specs.PassedRegisters.{AreValues, known_value, plain_of, values_of};
ghost use Rattle.cfi_c.specs.PassedRegisters.{written_value};
ghost use Rattle.cfi_c.specs.PassedMemories.{abi_in, number_in_memory};
ghost use Rattle.cfi_c.specs.declared.register.CfiValue.{CfiValue};

use crate::first_window::FirstWindow;
use crate::memory::{CfiMemory, displaced};
use crate::register::CfiValue;
use cfi_step::packed_rules::eightfold;
use cfi_step::{Memory, PackedRow, PackedRule, SmallRule};

/// Writes the registers of the caller of a frame with this CFA.
#[inline(always)]
pub fn write_registers(
    row: &PackedRow,
    memory: &CfiMemory<'_>,
    first: &FirstWindow<'_>,
    registers: &[CfiValue],
    cfa: u64,
    caller: &mut [CfiValue],
)
    requires size { IsAddressSize memory.now.address_size }
    requires first { IsFirstWindow memory.now first.now }
    requires caller_room { length caller.old ≤ 256 }
    ensures { AreOfCaller memory.now registers.now row.now cfa caller.new }
{
    copy_values(registers, caller);
    write_ruled(row, row.rules(), memory, first, cfa, caller);
}

/// Writes those registers that aren't what they are in the frame.
#[inline(always)]
pub fn write_ruled(
    row: &PackedRow,
    rules: &[PackedRule],
    memory: &CfiMemory<'_>,
    first: &FirstWindow<'_>,
    cfa: u64,
    caller: &mut [CfiValue],
)
    requires size { IsAddressSize memory.now.address_size }
    requires first { IsFirstWindow memory.now first.now }
    requires rules { rules.now ≡ counted_rules row.now.numbers }
    ensures copied { (registers : List CfiValue) → AreValues (values_of registers) caller.old →
        AreOfCaller memory.now registers row.now cfa caller.new }
    ensures in_place { AreOfCaller memory.now caller.old row.now cfa (plain_of caller.new) }
{
    write_at(caller, usize::from(memory.stack_pointer), Some(cfa));
    // from the last rule to the first, which is the one that holds if a register has two
    for index in (0..rules.len()).rev() {
        write_by_rule(rules[index], memory, first, cfa, caller);
    }
}

/// Writes the value that a register has in the caller, by its rule, if there is room.
#[inline(always)]
fn write_by_rule(
    packed: PackedRule,
    memory: &CfiMemory<'_>,
    first: &FirstWindow<'_>,
    cfa: u64,
    caller: &mut [CfiValue],
)
    requires size { IsAddressSize memory.now.address_size }
    requires first { IsFirstWindow memory.now first.now }
    ensures { (registers : List CfiValue) (bytes : Position) → caller.new
        ≡ slice_set caller.old packed.register
        (written_value (found_value (by_rule (passed_frame memory.now registers) bytes
        (abi_in memory.now) (λ (n : ℕ). n) cfa packed.register (pair_of packed).1))) }
{
    let register = packed.register();
    if usize::from(register) >= caller.len() {
        return;
    }
    let value = value_of(&packed.rule(), memory, first, cfa);
    write_value(caller, register, value);
}

/// The value that a register has in the caller, by its rule; `None` also if it can't be read.
#[inline(always)]
fn value_of(
    rule: &SmallRule,
    memory: &CfiMemory<'_>,
    first: &FirstWindow<'_>,
    cfa: u64,
) -> Option<u64>
    requires size { IsAddressSize memory.now.address_size }
    requires first { IsFirstWindow memory.now first.now }
    ensures { IsValueBy memory.now cfa rule.now result }
{
    // most rules
    if let SmallRule::Offset(words) = *rule {
        if let Some(number) = first.number_at(cfa, words) {
            return Some(number);
        }
    }
    value_by_rule(rule, memory, cfa)
}

/// The same, whatever the rule is.
#[inline(never)]
fn value_by_rule(rule: &SmallRule, memory: &CfiMemory<'_>, cfa: u64) -> Option<u64>
    requires size { IsAddressSize memory.now.address_size }
    ensures { IsValueBy memory.now cfa rule.now result }
{
    match *rule {
        SmallRule::Undefined => None,
        SmallRule::Offset(words) => saved_value(memory, cfa, words),
        SmallRule::Constant(constant) => Some(u64::from(constant)),
    }
}

/// The number that is saved at the CFA plus so many words, if it can be read.
fn saved_value(memory: &CfiMemory<'_>, cfa: u64, words: i8) -> Option<u64>
    requires size { IsAddressSize memory.now.address_size }
    ensures { result ≡ number_in_memory memory.now
        (displaced memory.now.address_size cfa (eightfold words)) memory.now.address_size }
{
    let size = memory.address_size;
    memory.read(displaced(cfa, eightfold(words), size), size)
}

/// Writes what is known of each register for which there is room.
#[inline(always)]
fn copy_values(registers: &[CfiValue], caller: &mut [CfiValue])
    ensures { AreValues (values_of registers.now) caller.new }
{
    let count = registers.len().min(caller.len());
    for k in 0..count {
        copy_at(caller, k, registers[k]);
    }
    for rest in count..caller.len() {
        write_at(caller, rest, None);
    }
}

/// Writes the value of a register by its number, if there is room.
#[inline(always)]
fn write_value(caller: &mut [CfiValue], register: u8, value: Option<u64>)
    ensures { caller.new ≡ slice_set caller.old register (written_value value) }
{
    write_at(caller, usize::from(register), value);
}

/// Writes a value if there is room.
#[inline(always)]
fn write_at(caller: &mut [CfiValue], index: usize, value: Option<u64>)
    ensures { caller.new ≡ slice_set caller.old index (written_value value) }
{
    if index < caller.len() {
        write_into(&mut caller[index], value);
    }
}

/// Writes what is known of a register if there is room.
#[inline(always)]
fn copy_at(caller: &mut [CfiValue], index: usize, register: CfiValue)
    ensures { caller.new ≡ slice_set caller.old index (written_value (known_value register)) }
{
    if index < caller.len() {
        copy_into(&mut caller[index], register);
    }
}

/// Writes what is known of a register: a field at a time, as in `write_into`, and without a branch.
#[inline(always)]
fn copy_into(into: &mut CfiValue, register: CfiValue)
    ensures { into.new ≡ written_value (known_value register) }
{
    into.value = if register.known { register.value } else { 0 };
    into.known = register.known;
}

/// Writes the value of a register: a field at a time, so that the bytes between them aren't copied.
#[inline(always)]
fn write_into(into: &mut CfiValue, value: Option<u64>)
    ensures { into.new ≡ written_value value }
{
    match value {
        Some(value) => {
            into.value = value;
            into.known = true;
        }
        None => {
            into.value = 0;
            into.known = false;
        }
    }
}
