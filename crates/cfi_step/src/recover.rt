//! The registers of a frame's caller (DWARF 5 section 6.4.1).
ghost use Rattle.std.specs.Prelude.{◌≡◌, ◌<◌, ◌≤◌, ℕ, None, length, slice_index_or, slice_set};
ghost use Rattle.std.specs.Prelude.{IfOk, OnErr};
ghost use Rattle.std.specs.FinMap.{get};
ghost use Rattle.cfi_read_core.specs.MappedInstructions.{map_expression};
ghost use Rattle.cfi_expression.specs.Frames.{frame_view, known};
ghost use Rattle.cfi_step.specs.Callers.{AreRecovered, by_rule, cfa_of, expression_value};
ghost use Rattle.cfi_step.specs.Callers.{found_value};
ghost use Rattle.cfi_step.specs.Callers.{is_signed, recovered, recovered_by, return_address};
ghost use Rattle.cfi_step.specs.Callers.{saved_at, unsigned};

use crate::abi::Abi;
use crate::expression_bytes::bytes_of;
use crate::rows::RowRules;
use cfi_expression::frame::{Frame, displaced, known_register, number_at, register_value};
use cfi_expression::memory::Memory;
use cfi_expression::{FrameError, evaluate};
use gimli_cfi::{
    _UnwindSectionPrivate, CfaRule, RA_SIGN_STATE, Reader, ReaderOffset, Register, RegisterRule,
    UnwindExpression,
};

/// The registers that the caller of a frame has, by the row of the frame's pc. Returns the
/// canonical frame address, and writes `caller[k]` for each register k for which there is room:
/// `None` if the value is lost, if it is not known, and if what it is made of cannot be read.
///
/// The row is of an unwind table or of a compiled one, and of the section, which has the bytes of
/// its expressions. A register without a rule keeps its value, but for the stack pointer, which is
/// the CFA.
///
/// Fails if the CFA cannot be found: with `FrameError::UnknownRegister`, or as `evaluate` for its
/// expression. Then nothing is written. Does not allocate.
pub fn recover<R: Reader, Section: _UnwindSectionPrivate<R>, Rules: RowRules, M: Memory>(
    row: &Rules,
    section: &Section,
    abi: &Abi,
    frame: &Frame<'_, M>,
    caller: &mut [Option<u64>],
) -> Result<u64, FrameError>
    requires { length caller.old ≤ 0x10000 }
    ensures cfa { result ≡ cfa_of (frame_view M.number_at frame.now)
        (Section.view section.now).position abi.now Rules.Offset.number (Rules.parts row.now).cfa }
    ensures registers { IfOk result (λ cfa. AreRecovered (frame_view M.number_at frame.now)
        (Section.view section.now).position abi.now Rules.Offset.number (Rules.parts row.now) cfa
        (length caller.new) caller.new) }
    ensures unwritten { OnErr result (caller.new ≡ caller.old) }
{
    let cfa = frame_address(row.cfa_rule(), section, abi, frame)?;
    write_registers(row, section, abi, frame, cfa, caller);
    Ok(cfa)
}

/// Writes the registers of the caller of a frame with this CFA.
pub(crate) fn write_registers<
    R: Reader,
    Section: _UnwindSectionPrivate<R>,
    Rules: RowRules,
    M: Memory,
>(
    row: &Rules,
    section: &Section,
    abi: &Abi,
    frame: &Frame<'_, M>,
    cfa: u64,
    caller: &mut [Option<u64>],
)
    requires { length caller.old ≤ 0x10000 }
    ensures { AreRecovered (frame_view M.number_at frame.now)
        (Section.view section.now).position abi.now Rules.Offset.number (Rules.parts row.now) cfa
        (length caller.new) caller.new }
{
    copy_known(frame.registers, caller);
    write_register(caller, abi.stack_pointer, Some(cfa));
    // from the last rule to the first, which is the one that holds if a register has two
    let rules = row.register_rules();
    for index in (0..rules.len()).rev() {
        let (register, rule) = &rules[index];
        if usize::from(register.0) < caller.len() {
            let value = value_by_rule(rule, section, abi, frame, cfa, *register);
            write_register(caller, *register, value);
        }
    }
}

/// Writes what is known of each register for which there is room.
fn copy_known(registers: &[Option<u64>], caller: &mut [Option<u64>])
    ensures { (k : ℕ) → k < length caller.new →
        slice_index_or caller.new k None ≡ known registers.now k }
{
    let count = registers.len().min(caller.len());
    caller[..count].copy_from_slice(&registers[..count]);
    for k in count..caller.len() {
        caller[k] = None;
    }
}

/// Writes a register if there is room.
fn write_register(caller: &mut [Option<u64>], register: Register, value: Option<u64>)
    ensures { caller.new ≡ slice_set caller.old register.0 value }
{
    let index = usize::from(register.0);
    if index < caller.len() {
        caller[index] = value;
    }
}

/// The value that a register has in the caller, by its rule; `None` also in place of an error.
#[inline(always)]
fn value_by_rule<R: Reader, Section: _UnwindSectionPrivate<R>, T: ReaderOffset, M: Memory>(
    rule: &RegisterRule<T>,
    section: &Section,
    abi: &Abi,
    frame: &Frame<'_, M>,
    cfa: u64,
    register: Register,
) -> Option<u64>
    ensures { result ≡ found_value (by_rule (frame_view M.number_at frame.now)
        (Section.view section.now).position abi.now T.number cfa register.0 rule.now) }
{
    match *rule {
        // most rules: no error is made first
        RegisterRule::Offset(offset) => {
            let address = displaced(cfa, offset, frame.address_size);
            frame.memory.read(address, frame.address_size.bytes())
        }
        _ => match by_rule(rule, section, abi, frame, cfa, register) {
            Ok(value) => value,
            Err(_error) => None,
        },
    }
}

/// The value that one register has in the caller of a frame with this CFA: `None` if it is lost or
/// not known.
///
/// Fails with `FrameError::UnreadableMemory` if it is saved at an address that cannot be read, as
/// `evaluate` for an expression, and with `ArchitecturalRule`. Does not allocate.
pub fn recover_register<R: Reader, Section: _UnwindSectionPrivate<R>, Rules: RowRules, M: Memory>(
    row: &Rules,
    section: &Section,
    abi: &Abi,
    frame: &Frame<'_, M>,
    cfa: u64,
    register: Register,
) -> Result<Option<u64>, FrameError>
    ensures { result ≡ recovered (frame_view M.number_at frame.now)
        (Section.view section.now).position abi.now Rules.Offset.number (Rules.parts row.now)
        cfa register.0 }
{
    recovered_by(
        row.register_rule(register),
        section,
        abi,
        frame,
        cfa,
        register,
    )
}

/// The value that a register has in the caller, by its rule if it has one.
fn recovered_by<R: Reader, Section: _UnwindSectionPrivate<R>, T: ReaderOffset, M: Memory>(
    rule: Option<RegisterRule<T>>,
    section: &Section,
    abi: &Abi,
    frame: &Frame<'_, M>,
    cfa: u64,
    register: Register,
) -> Result<Option<u64>, FrameError>
    ensures { result ≡ recovered_by (frame_view M.number_at frame.now)
        (Section.view section.now).position abi.now T.number cfa register.0 rule }
{
    match rule {
        Some(rule) => by_rule(&rule, section, abi, frame, cfa, register),
        None => {
            if register.0 == abi.stack_pointer.0 {
                Ok(Some(cfa))
            } else {
                Ok(known_register(frame.registers, register))
            }
        }
    }
}

/// The pc of the caller of a frame with this CFA, from the register that holds the return address:
/// `None` if the row says that it is undefined, in the outermost frame.
///
/// If the row says that the address is signed (AArch64), the bits of its signature are cleared.
/// Fails with `FrameError::UnknownRegister` if the value is not known, else as `recover_register`.
pub fn recover_return_address<
    R: Reader,
    Section: _UnwindSectionPrivate<R>,
    Rules: RowRules,
    M: Memory,
>(
    row: &Rules,
    section: &Section,
    abi: &Abi,
    frame: &Frame<'_, M>,
    cfa: u64,
    register: Register,
) -> Result<Option<u64>, FrameError>
    ensures { result ≡ return_address (frame_view M.number_at frame.now)
        (Section.view section.now).position abi.now Rules.Offset.number (Rules.parts row.now)
        cfa register }
{
    let rule = row.register_rule(register);
    if let Some(RegisterRule::Undefined) = rule {
        return Ok(None);
    }
    match recovered_by(rule, section, abi, frame, cfa, register)? {
        None => Err(FrameError::UnknownRegister(register)),
        Some(address) => Ok(Some(without_signature(address, row, abi))),
    }
}

/// An address without the bits of its signature, if the row says that it is signed.
#[tactic(auto, using(crate::proofs::Signatures::no_bits))]
fn without_signature<Rules: RowRules>(address: u64, row: &Rules, abi: &Abi) -> u64
    ensures { result ≡ unsigned abi.now.signature_mask
        (is_signed (get (Rules.parts row.now).rules 34)) address }
{
    // where no address is ever signed, the rule is not looked up
    if abi.signature_mask != 0 && is_signed(row.register_rule(RA_SIGN_STATE)) {
        address & !abi.signature_mask
    } else {
        address
    }
}

/// Whether the rule of `RA_SIGN_STATE` says that the return address is signed.
fn is_signed<T: Copy>(rule: Option<RegisterRule<T>>) -> bool
    ensures { result ≡ is_signed rule }
{
    match rule {
        Some(RegisterRule::Constant(state)) => state == 1,
        _ => false,
    }
}

/// The canonical frame address.
pub(crate) fn frame_address<
    R: Reader,
    Section: _UnwindSectionPrivate<R>,
    T: ReaderOffset,
    M: Memory,
>(rule: &CfaRule<T>, section: &Section, abi: &Abi, frame: &Frame<'_, M>) -> Result<u64, FrameError>
    ensures { result ≡ cfa_of (frame_view M.number_at frame.now)
        (Section.view section.now).position abi.now T.number rule.now }
{
    match *rule {
        CfaRule::RegisterAndOffset { register, offset } => {
            let value = register_value(frame.registers, register)?;
            Ok(displaced(value, offset, frame.address_size))
        }
        CfaRule::Expression(expression) => value_at(&expression, section, abi, frame, None),
    }
}

/// The value that a register has in the caller, by its rule.
fn by_rule<R: Reader, Section: _UnwindSectionPrivate<R>, T: ReaderOffset, M: Memory>(
    rule: &RegisterRule<T>,
    section: &Section,
    abi: &Abi,
    frame: &Frame<'_, M>,
    cfa: u64,
    register: Register,
) -> Result<Option<u64>, FrameError>
    ensures { result ≡ by_rule (frame_view M.number_at frame.now)
        (Section.view section.now).position abi.now T.number cfa register.0 rule.now }
{
    match *rule {
        RegisterRule::Undefined => Ok(None),
        RegisterRule::SameValue => Ok(known_register(frame.registers, register)),
        RegisterRule::Offset(offset) => saved_at(displaced(cfa, offset, frame.address_size), frame),
        RegisterRule::ValOffset(offset) => Ok(Some(displaced(cfa, offset, frame.address_size))),
        RegisterRule::Register(other) => Ok(known_register(frame.registers, other)),
        RegisterRule::Expression(expression) => {
            let address = value_at(&expression, section, abi, frame, Some(cfa))?;
            saved_at(address, frame)
        }
        RegisterRule::ValExpression(expression) => {
            let value = value_at(&expression, section, abi, frame, Some(cfa))?;
            Ok(Some(value))
        }
        RegisterRule::Architectural => Err(FrameError::ArchitecturalRule),
        RegisterRule::Constant(constant) => Ok(Some(constant)),
    }
}

/// What is saved at an address.
fn saved_at<M: Memory>(address: u64, frame: &Frame<'_, M>) -> Result<Option<u64>, FrameError>
    ensures { result ≡ saved_at (frame_view M.number_at frame.now) address }
{
    let number = number_at(frame, address, frame.address_size.bytes())?;
    Ok(Some(number))
}

/// The value of an expression whose bytes are in the section.
fn value_at<R: Reader, Section: _UnwindSectionPrivate<R>, T: ReaderOffset, M: Memory>(
    expression: &UnwindExpression<T>,
    section: &Section,
    abi: &Abi,
    frame: &Frame<'_, M>,
    initial: Option<u64>,
) -> Result<u64, FrameError>
    ensures { result ≡ expression_value (frame_view M.number_at frame.now)
        (Section.view section.now).position abi.now
        (map_expression T.number expression.now) initial }
{
    match bytes_of(expression, section) {
        Ok(bytes) => evaluate(&bytes, frame, initial, abi.max_iterations),
        Err(error) => Err(FrameError::Unreadable(error)),
    }
}
