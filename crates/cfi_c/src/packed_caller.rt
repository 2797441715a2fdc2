//! The caller of a frame, by a packed row, from C's values of registers.
ghost use Rattle.std.specs.Prelude.{◌≡◌, ◌≤◌, ℕ, Bool, IfSome, Ok, Some, length};
ghost use Rattle.std.specs.FinMap.{get};
ghost use Rattle.std.specs.Option.{option_map};
ghost use Rattle.cfi_read_core.specs.Addresses.{IsAddressSize};
ghost use Rattle.cfi_read_core.specs.ReadFunctions.{Position};
ghost use Rattle.cfi_expression.specs.Frames.{known};
ghost use Rattle.cfi_expression.specs.declared.error.FrameError.TheVariants.{UnknownRegister};
ghost use Rattle.cfi_step.specs.Callers.{cfa_of, is_signed, return_address, without_rule};
ghost use Rattle.cfi_step.specs.PackedRows.{counted_rules, parts_packed};
ghost use Rattle.cfi_step.specs.PackedRules.{register_numbered, rule_by};
ghost use Rattle.cfi_c.specs.FirstWindows.{IsFirstWindow};
ghost use Rattle.cfi_c.specs.PackedSteps.{Clears, IsCallerBy, IsCallerFrom, IsPcBy, IsPcOf};
ghost use Rattle.cfi_c.specs.PackedSteps.{IsSavedPc, passed_frame};
ghost use Rattle.cfi_c.specs.PassedRegisters.{values_of};
ghost use Rattle.cfi_c.specs.PassedMemories.{abi_in};

use crate::first_window::FirstWindow;
use crate::memory::{CfiMemory, displaced};
use crate::register::{CfiValue, known_value};
use cfi_step::packed_rules::{eightfold, rule_of};
use cfi_step::{Caller, FrameError, Memory, PackedRow, PackedRule, SmallRule};
use gimli_cfi::Register;

/// The number of `RA_SIGN_STATE`.
const SIGN_STATE: u8 = 34;

/// The caller, if its pc is saved in the first window, as most are.
#[inline(always)]
pub fn quick_caller(
    row: &PackedRow,
    rules: &[PackedRule],
    memory: &CfiMemory<'_>,
    first: &FirstWindow<'_>,
    registers: &[CfiValue],
) -> Option<Caller>
    requires size { memory.now.address_size ≡ 8 }
    requires first { IsFirstWindow memory.now first.now }
    requires rules { rules.now ≡ counted_rules row.now.numbers }
    ensures { IfSome result (λ caller. IsCallerBy memory.now registers.now row.now (Ok caller)) }
{
    match quick_frame_address(row, memory, registers) {
        Some(cfa) => quick_caller_from(row, rules, memory, first, registers, cfa),
        None => None,
    }
}

/// The canonical frame address, if it is known.
#[inline(always)]
fn quick_frame_address(
    row: &PackedRow,
    memory: &CfiMemory<'_>,
    registers: &[CfiValue],
) -> Option<u64>
    requires size { memory.now.address_size ≡ 8 }
    ensures { IfSome result (λ cfa. (bytes : Position) → Ok cfa
        ≡ cfa_of (passed_frame memory.now registers.now) bytes (abi_in memory.now) (λ (n : ℕ). n)
        (parts_packed row.now).cfa) }
{
    match known(registers, row.cfa_register()) {
        // addresses have eight bytes, as `size` says
        Some(value) => Some(displaced(value, row.cfa_offset(), 8)),
        None => None,
    }
}

/// The caller of a frame with this CFA, if its pc is saved in the first window.
#[inline(always)]
fn quick_caller_from(
    row: &PackedRow,
    rules: &[PackedRule],
    memory: &CfiMemory<'_>,
    first: &FirstWindow<'_>,
    registers: &[CfiValue],
    cfa: u64,
) -> Option<Caller>
    requires size { memory.now.address_size ≡ 8 }
    requires first { IsFirstWindow memory.now first.now }
    requires rules { rules.now ≡ counted_rules row.now.numbers }
    ensures { IfSome result (λ caller.
        IsCallerFrom memory.now registers.now row.now cfa (Ok caller)) }
{
    match quick_pc(row, rules, memory, first, registers, cfa) {
        Some(pc) => {
            let is_interrupted = row.is_signal_trampoline();
            let args_size = row.args_size();
            Some(Caller {
                cfa,
                pc: Some(pc),
                is_interrupted,
                args_size,
            })
        }
        None => None,
    }
}

/// The pc of the caller, if it is saved in the first window.
#[inline(always)]
fn quick_pc(
    row: &PackedRow,
    rules: &[PackedRule],
    memory: &CfiMemory<'_>,
    first: &FirstWindow<'_>,
    registers: &[CfiValue],
    cfa: u64,
) -> Option<u64>
    requires size { memory.now.address_size ≡ 8 }
    requires first { IsFirstWindow memory.now first.now }
    requires rules { rules.now ≡ counted_rules row.now.numbers }
    ensures { IfSome result (λ pc. (bytes : Position) → Ok (Some pc)
        ≡ return_address (passed_frame memory.now registers.now) bytes (abi_in memory.now)
        (λ (n : ℕ). n) (parts_packed row.now) cfa
        (register_numbered row.now.numbers.return_address)) }
{
    let signature = signature_of(row, memory);
    let register = row.return_address();
    let rule = rule_of(rules, register);
    if let Some(SmallRule::Offset(words)) = rule {
        if let Some(pc) = first.number_at(cfa, words) {
            return Some(pc & !signature);
        }
    }
    None
}

/// The caller.
#[inline(always)]
pub fn caller_by(
    row: &PackedRow,
    memory: &CfiMemory<'_>,
    first: &FirstWindow<'_>,
    registers: &[CfiValue],
) -> Result<Caller, FrameError>
    requires size { IsAddressSize memory.now.address_size }
    requires first { IsFirstWindow memory.now first.now }
    requires room { length registers.now ≤ 256 }
    ensures { IsCallerBy memory.now registers.now row.now result }
{
    match frame_address(row, memory, registers) {
        Ok(cfa) => caller_from(row, memory, first, registers, cfa),
        Err(error) => Err(error),
    }
}

/// The caller of a frame with this CFA.
#[inline(always)]
fn caller_from(
    row: &PackedRow,
    memory: &CfiMemory<'_>,
    first: &FirstWindow<'_>,
    registers: &[CfiValue],
    cfa: u64,
) -> Result<Caller, FrameError>
    requires size { IsAddressSize memory.now.address_size }
    requires first { IsFirstWindow memory.now first.now }
    ensures { IsCallerFrom memory.now registers.now row.now cfa result }
{
    match caller_pc(row, memory, first, registers, cfa) {
        Ok(pc) => Ok(Caller {
            cfa,
            pc,
            is_interrupted: row.is_signal_trampoline(),
            args_size: row.args_size(),
        }),
        Err(error) => Err(error),
    }
}

/// The canonical frame address.
#[inline(always)]
fn frame_address(
    row: &PackedRow,
    memory: &CfiMemory<'_>,
    registers: &[CfiValue],
) -> Result<u64, FrameError>
    requires size { IsAddressSize memory.now.address_size }
    ensures { (bytes : Position) → result ≡ cfa_of (passed_frame memory.now registers.now) bytes
        (abi_in memory.now) (λ (n : ℕ). n) (parts_packed row.now).cfa }
{
    match known(registers, row.cfa_register()) {
        Some(value) => Ok(displaced(value, row.cfa_offset(), memory.address_size)),
        None => Err(unknown(row.cfa_register())),
    }
}

/// The pc of the caller; `None` if the frame is the outermost one.
#[inline(always)]
fn caller_pc(
    row: &PackedRow,
    memory: &CfiMemory<'_>,
    first: &FirstWindow<'_>,
    registers: &[CfiValue],
    cfa: u64,
) -> Result<Option<u64>, FrameError>
    requires size { IsAddressSize memory.now.address_size }
    requires first { IsFirstWindow memory.now first.now }
    ensures { (bytes : Position) → result ≡ return_address (passed_frame memory.now registers.now)
        bytes (abi_in memory.now) (λ (n : ℕ). n) (parts_packed row.now) cfa
        (register_numbered row.now.numbers.return_address) }
{
    let register = row.return_address();
    let rule = rule_of(row.rules(), register);
    let signature = signature_of(row, memory);
    // most rules
    if let Some(SmallRule::Offset(words)) = rule {
        if let Some(pc) = first.number_at(cfa, words) {
            return Ok(Some(pc & !signature));
        }
    }
    pc_by_rule(rule, memory, registers, cfa, register, signature)
}

/// The bits of the return address that hold its signature; 0 if the row doesn't say that there is
/// one.
#[inline(always)]
fn signature_of(row: &PackedRow, memory: &CfiMemory<'_>) -> u64
    ensures { Clears memory.now.signature_mask
        (is_signed (get (parts_packed row.now).rules 34)) result }
{
    let mask = memory.signature_mask;
    // where no address is ever signed, the rule is not looked up
    if mask == 0 {
        return 0;
    }
    if is_signed(rule_of(row.rules(), SIGN_STATE)) {
        mask
    } else {
        0
    }
}

/// Whether the rule of `RA_SIGN_STATE` says that the return address is signed.
fn is_signed(rule: Option<SmallRule>) -> bool
    ensures { result ≡ is_signed (option_map rule_by rule) }
{
    match rule {
        Some(SmallRule::Constant(state)) => state == 1,
        _ => false,
    }
}

/// The pc of the caller, by the rule of the register that holds it, without the bits of its
/// signature.
#[inline(never)]
fn pc_by_rule(
    rule: Option<SmallRule>,
    memory: &CfiMemory<'_>,
    registers: &[CfiValue],
    cfa: u64,
    register: u8,
    signature: u64,
) -> Result<Option<u64>, FrameError>
    requires size { IsAddressSize memory.now.address_size }
    ensures { IsPcBy memory.now registers.now cfa register signature
        (option_map rule_by rule) result }
{
    match rule {
        Some(SmallRule::Undefined) => Ok(None),
        Some(SmallRule::Offset(words)) => saved_pc(
            memory,
            displaced(cfa, eightfold(words), memory.address_size),
            signature,
        ),
        Some(SmallRule::Constant(constant)) => Ok(Some(u64::from(constant) & !signature)),
        None => pc_of(
            without_rule(memory, registers, cfa, register),
            register,
            signature,
        ),
    }
}

/// The pc of the caller, if the register that holds it is known, without these bits.
fn pc_of(value: Option<u64>, register: u8, signature: u64) -> Result<Option<u64>, FrameError>
    ensures { (mask : ℕ) (signed : Bool) → Clears mask signed signature →
        IsPcOf mask signed value (register_numbered register) result }
{
    match value {
        Some(pc) => Ok(Some(pc & !signature)),
        None => Err(unknown(register)),
    }
}

/// The pc that is saved at an address, without these bits.
fn saved_pc(memory: &CfiMemory<'_>, address: u64, signature: u64) -> Result<Option<u64>, FrameError>
    requires size { IsAddressSize memory.now.address_size }
    ensures { IsSavedPc memory.now address signature result }
{
    match memory.read(address, memory.address_size) {
        Some(pc) => Ok(Some(pc & !signature)),
        None => Err(FrameError::UnreadableMemory(address)),
    }
}

/// The value of a register that has no rule: the CFA for the stack pointer, else its own.
fn without_rule(
    memory: &CfiMemory<'_>,
    registers: &[CfiValue],
    cfa: u64,
    register: u8,
) -> Option<u64>
    ensures { (bytes : Position) → Ok result ≡ without_rule (passed_frame memory.now registers.now)
        bytes (abi_in memory.now) (λ (n : ℕ). n) cfa register }
{
    if u16::from(register) == memory.stack_pointer {
        Some(cfa)
    } else {
        known(registers, register)
    }
}

/// The value of a register, where it is known.
#[inline(always)]
fn known(registers: &[CfiValue], register: u8) -> Option<u64>
    ensures { result ≡ known (values_of registers.now) register }
{
    let index = usize::from(register);
    if index < registers.len() {
        known_value(registers[index])
    } else {
        None
    }
}

/// The error for a register whose value isn't known.
fn unknown(register: u8) -> FrameError
    ensures { result ≡ UnknownRegister (register_numbered register) }
{
    FrameError::UnknownRegister(Register(u16::from(register)))
}
