//! Reads operations of DWARF expressions: the opcode, and the operand that its form says (DWARF 5
//! section 7.7.1).
ghost use Rattle.std.specs.Int.{w8};
ghost use Rattle.cfi_read_core.specs.Numbers.{signed as two_complement};
ghost use Rattle.cfi_read_core.specs.ReaderCalls.{ReadsValue};
ghost use Rattle.cfi_row_text.specs.OperationReads.{address_operand, any_offset, offset_from};
ghost use Rattle.cfi_row_text.specs.OperationReads.{operand, operation, register_operand};
ghost use Rattle.cfi_row_text.specs.OperationReads.{signed_by, signed_operand, unsigned_by};
ghost use Rattle.cfi_row_text.specs.OperationReads.{unsigned_operand};

use crate::operations::{Form, Width, entry_of};
use cfi_read_core::reader::read_register;
use gimli_cfi::{Reader, Register, Result};

/// The operand of an operation.
#[derive(Clone, Copy)]
pub(crate) enum Operand {
    /// The operation isn't in the table.
    Unknown,
    /// There is none.
    Nothing,
    Address(u64),
    Unsigned(u64),
    Signed(i64),
    Register(Register),
    RegisterOffset(Register, i64),
}

/// An operation: its opcode, and its operand.
#[derive(Clone, Copy)]
pub(crate) struct Operation {
    pub(crate) opcode: u8,
    pub(crate) operand: Operand,
}

/// Reads an operation: its opcode, and the operand that the table has for it, by the size of an
/// address in bytes. The operand of an operation that isn't in the table isn't read.
///
/// Returns `Error::UnexpectedEof` where an operand is cut, and the error of a number in LEB128 that
/// has no room, of a register's or of an address. Does not allocate.
#[tactic(auto, unfolding(crate::specs::OperationReads::operation))]
pub(crate) fn read_operation<R: Reader>(input: &mut R, size: u8) -> Result<Operation>
    ensures { ReadsValue R.position (operation size) input.old result input.new }
{
    let opcode = input.read_u8()?;
    let operand = read_operand(entry_of(opcode).form, input, size)?;
    Ok(Operation { opcode, operand })
}

/// Reads an operand of the form.
fn read_operand<R: Reader>(form: Form, input: &mut R, size: u8) -> Result<Operand>
    ensures { ReadsValue R.position (operand size form) input.old result input.new }
{
    match form {
        Form::Unknown => Ok(Operand::Unknown),
        Form::Nothing => Ok(Operand::Nothing),
        Form::Address => read_address(input, size),
        Form::Unsigned(width) => read_unsigned_operand(width, input),
        Form::Signed(width) => read_signed_operand(width, input),
        Form::Register => read_register_operand(input),
        Form::RegisterOffset => read_any_offset(input),
        Form::Named(register) => Ok(Operand::Register(register)),
        Form::OffsetFrom(register) => read_offset_from(register, input),
    }
}

/// Reads an address.
#[tactic(auto, unfolding(crate::specs::OperationReads::address_operand))]
fn read_address<R: Reader>(input: &mut R, size: u8) -> Result<Operand>
    ensures { ReadsValue R.position (address_operand size) input.old result input.new }
{
    Ok(Operand::Address(input.read_address(size)?))
}

/// Reads a number without a sign.
#[tactic(auto, unfolding(crate::specs::OperationReads::unsigned_operand))]
fn read_unsigned_operand<R: Reader>(width: Width, input: &mut R) -> Result<Operand>
    ensures { ReadsValue R.position (unsigned_operand width) input.old result input.new }
{
    Ok(Operand::Unsigned(read_unsigned(width, input)?))
}

/// Reads a number with a sign.
#[tactic(auto, unfolding(crate::specs::OperationReads::signed_operand))]
fn read_signed_operand<R: Reader>(width: Width, input: &mut R) -> Result<Operand>
    ensures { ReadsValue R.position (signed_operand width) input.old result input.new }
{
    Ok(Operand::Signed(read_signed(width, input)?))
}

/// Reads a register.
#[tactic(auto, unfolding(crate::specs::OperationReads::register_operand))]
fn read_register_operand<R: Reader>(input: &mut R) -> Result<Operand>
    ensures { ReadsValue R.position register_operand input.old result input.new }
{
    Ok(Operand::Register(read_register(input)?))
}

/// Reads a register and an offset from its value.
#[tactic(auto, unfolding(crate::specs::OperationReads::any_offset))]
fn read_any_offset<R: Reader>(input: &mut R) -> Result<Operand>
    ensures { ReadsValue R.position any_offset input.old result input.new }
{
    let register = read_register(input)?;
    read_offset_from(register, input)
}

/// Reads an offset from the value of the register.
#[tactic(auto, unfolding(crate::specs::OperationReads::offset_from))]
fn read_offset_from<R: Reader>(register: Register, input: &mut R) -> Result<Operand>
    ensures { ReadsValue R.position (offset_from register) input.old result input.new }
{
    Ok(Operand::RegisterOffset(register, input.read_sleb128()?))
}

/// Reads a number of the width, without a sign.
#[tactic(auto, unfolding(crate::specs::OperationReads::unsigned_by))]
fn read_unsigned<R: Reader>(width: Width, input: &mut R) -> Result<u64>
    ensures { ReadsValue R.position (unsigned_by width) input.old result input.new }
{
    match width {
        Width::One => Ok(u64::from(input.read_u8()?)),
        Width::Two => Ok(u64::from(input.read_u16()?)),
        Width::Four => Ok(u64::from(input.read_u32()?)),
        Width::Eight => input.read_u64(),
        Width::Leb128 => input.read_uleb128(),
    }
}

/// Reads a number of the width, with a sign.
#[tactic(auto, unfolding(crate::specs::OperationReads::signed_by))]
fn read_signed<R: Reader>(width: Width, input: &mut R) -> Result<i64>
    ensures { ReadsValue R.position (signed_by width) input.old result input.new }
{
    match width {
        Width::One => Ok(i64::from(read_i8(input)?)),
        Width::Two => Ok(i64::from(input.read_i16()?)),
        Width::Four => Ok(i64::from(input.read_i32()?)),
        Width::Eight => input.read_i64(),
        Width::Leb128 => input.read_sleb128(),
    }
}

/// Reads a number of one byte, in two's complement.
#[tactic(auto, unfolding(cfi_read_core::specs::Numbers::signed))]
fn read_i8<R: Reader>(input: &mut R) -> Result<i8>
    ensures { ReadsValue R.position (two_complement w8) input.old result input.new }
{
    Ok(input.read_u8()?.cast_signed())
}
