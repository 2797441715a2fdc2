//! Reading the operations of a DWARF expression (DWARF 5 sections 2.5.1 and 7.7.1).
ghost use Rattle.std.specs.Prelude.{◌≡◌};
ghost use Rattle.std.specs.Int.{cast_unsigned, w8, w64};
ghost use Rattle.cfi_read_core.specs.AddressSizes.{size_in_bytes};
ghost use Rattle.cfi_read_core.specs.Numbers.{signed as two_complement};
ghost use Rattle.cfi_read_core.specs.ReaderCalls.{ReadsValue};
ghost use Rattle.cfi_expression.specs.Operations.{by_arithmetic, by_comparison, by_constant};
ghost use Rattle.cfi_expression.specs.Operations.{by_logic, by_long_constant, by_stack, operation};
ghost use Rattle.cfi_expression.specs.Operations.{register_offset, stack_operation};

use crate::operation::{BinaryOperation, Operation, StackOperation, UnaryOperation};
use cfi_read_core::address::AddressSize;
use cfi_read_core::reader::read_register;
use cfi_read_core::{Reader, Register, Result};

/// Reads an operation: its opcode and its operands.
#[tactic(auto, unfolding(crate::specs::Operations::operation))]
pub(crate) fn parse_operation<R: Reader>(input: &mut R, size: AddressSize) -> Result<Operation>
    ensures { ReadsValue R.position (operation (size_in_bytes size)) input.old result input.new }
{
    let opcode = input.read_u8()?;
    match opcode {
        0x28 => Ok(Operation::Bra(input.read_i16()?)),
        0x2f => Ok(Operation::Skip(input.read_i16()?)),
        _ => Ok(Operation::Stack(parse_stack_operation(opcode, input, size)?)),
    }
}

/// Reads the operands of an opcode that acts on the stack.
#[tactic(auto, unfolding(crate::specs::Operations::stack_operation))]
fn parse_stack_operation<R: Reader>(
    opcode: u8,
    input: &mut R,
    size: AddressSize,
) -> Result<StackOperation>
    ensures { ReadsValue R.position (stack_operation (size_in_bytes size) opcode)
        input.old result input.new }
{
    if opcode < 0x30 {
        parse_constant(opcode, input, size)
    } else if opcode < 0x50 {
        // DW_OP_lit0 to lit31
        Ok(StackOperation::Constant(u64::from(opcode - 0x30)))
    } else if opcode < 0x70 {
        // DW_OP_reg0 to reg31, which name a register and push nothing
        Ok(StackOperation::Unsupported(opcode))
    } else if opcode < 0x90 {
        // DW_OP_breg0 to breg31
        parse_register_offset(Register(u16::from(opcode - 0x70)), input)
    } else {
        parse_constant(opcode, input, size)
    }
}

/// Reads the offset that is added to a register's value.
#[tactic(auto, unfolding(crate::specs::Operations::register_offset))]
fn parse_register_offset<R: Reader>(register: Register, input: &mut R) -> Result<StackOperation>
    ensures { ReadsValue R.position (register_offset register) input.old result input.new }
{
    Ok(StackOperation::RegisterOffset {
        register,
        offset: input.read_sleb128()?,
    })
}

/// Reads a constant of at most four bytes (section 2.5.1.1), or the operands of another opcode.
#[tactic(auto, unfolding(crate::specs::Operations::by_constant))]
fn parse_constant<R: Reader>(opcode: u8, input: &mut R, size: AddressSize) -> Result<StackOperation>
    ensures { ReadsValue R.position (by_constant (size_in_bytes size) opcode)
        input.old result input.new }
{
    match opcode {
        // DW_OP_const1u, const2u, const4u
        0x08 => Ok(StackOperation::Constant(u64::from(input.read_u8()?))),
        0x0a => Ok(StackOperation::Constant(u64::from(input.read_u16()?))),
        0x0c => Ok(StackOperation::Constant(u64::from(input.read_u32()?))),
        // DW_OP_const1s, const2s, const4s
        0x09 => Ok(signed(i64::from(read_i8(input)?))),
        0x0b => Ok(signed(i64::from(input.read_i16()?))),
        0x0d => Ok(signed(i64::from(input.read_i32()?))),
        _ => parse_long_constant(opcode, input, size),
    }
}

/// Reads a number of one byte, in two's complement.
#[tactic(auto, unfolding(cfi_read_core::specs::Numbers::signed))]
fn read_i8<R: Reader>(input: &mut R) -> Result<i8>
    ensures { ReadsValue R.position (two_complement w8) input.old result input.new }
{
    Ok(input.read_u8()?.cast_signed())
}

/// A constant with a sign.
fn signed(constant: i64) -> StackOperation
    ensures { result ≡ StackOperation.Constant (cast_unsigned w64 constant) }
{
    StackOperation::Constant(constant.cast_unsigned())
}

/// Reads a longer constant (section 2.5.1.1), a register and an offset (section 2.5.1.2), or the
/// operands of another opcode.
#[tactic(auto, unfolding(crate::specs::Operations::by_long_constant))]
fn parse_long_constant<R: Reader>(
    opcode: u8,
    input: &mut R,
    size: AddressSize,
) -> Result<StackOperation>
    ensures { ReadsValue R.position (by_long_constant (size_in_bytes size) opcode)
        input.old result input.new }
{
    match opcode {
        // DW_OP_addr
        0x03 => Ok(StackOperation::Constant(input.read_address(size.bytes())?)),
        // DW_OP_const8u, const8s, whose bits are the same
        0x0e => Ok(StackOperation::Constant(input.read_u64()?)),
        0x0f => Ok(StackOperation::Constant(input.read_u64()?)),
        // DW_OP_constu, consts
        0x10 => Ok(StackOperation::Constant(input.read_uleb128()?)),
        0x11 => Ok(signed(input.read_sleb128()?)),
        // DW_OP_bregx
        0x92 => {
            let register = read_register(input)?;
            parse_register_offset(register, input)
        }
        _ => parse_stack(opcode, input, size),
    }
}

/// Reads the operand of an opcode that moves entries of the stack (section 2.5.1.3), or of another.
#[tactic(auto, unfolding(crate::specs::Operations::by_stack))]
fn parse_stack<R: Reader>(opcode: u8, input: &mut R, size: AddressSize) -> Result<StackOperation>
    ensures { ReadsValue R.position (by_stack (size_in_bytes size) opcode)
        input.old result input.new }
{
    match opcode {
        // DW_OP_deref, deref_size
        0x06 => Ok(StackOperation::Dereference(size.bytes())),
        0x94 => Ok(StackOperation::Dereference(input.read_u8()?)),
        // DW_OP_dup, over, pick
        0x12 => Ok(StackOperation::Pick(0)),
        0x14 => Ok(StackOperation::Pick(1)),
        0x15 => Ok(StackOperation::Pick(input.read_u8()?)),
        // DW_OP_drop, swap, rot, nop
        0x13 => Ok(StackOperation::Discard),
        0x16 => Ok(StackOperation::Swap),
        0x17 => Ok(StackOperation::Rotate),
        0x96 => Ok(StackOperation::Nop),
        _ => parse_arithmetic(opcode, input),
    }
}

/// Reads the operand of an opcode that computes (section 2.5.1.4), or of another.
#[tactic(auto, unfolding(crate::specs::Operations::by_arithmetic))]
fn parse_arithmetic<R: Reader>(opcode: u8, input: &mut R) -> Result<StackOperation>
    ensures { ReadsValue R.position (by_arithmetic opcode) input.old result input.new }
{
    match opcode {
        0x19 => Ok(StackOperation::Unary(UnaryOperation::Abs)),
        0x1f => Ok(StackOperation::Unary(UnaryOperation::Neg)),
        0x20 => Ok(StackOperation::Unary(UnaryOperation::Not)),
        0x23 => {
            let constant = input.read_uleb128()?;
            Ok(StackOperation::Unary(UnaryOperation::PlusConstant(constant)))
        }
        _ => Ok(logic(opcode)),
    }
}

/// The operation of an opcode that computes from two entries (section 2.5.1.4), or of another.
#[tactic(auto, unfolding(crate::specs::Operations::by_logic))]
fn logic(opcode: u8) -> StackOperation
    ensures { result ≡ by_logic opcode }
{
    match opcode {
        0x1a => StackOperation::Binary(BinaryOperation::And),
        0x1b => StackOperation::Binary(BinaryOperation::Div),
        0x1c => StackOperation::Binary(BinaryOperation::Minus),
        0x1d => StackOperation::Binary(BinaryOperation::Mod),
        0x1e => StackOperation::Binary(BinaryOperation::Mul),
        0x21 => StackOperation::Binary(BinaryOperation::Or),
        0x22 => StackOperation::Binary(BinaryOperation::Plus),
        0x24 => StackOperation::Binary(BinaryOperation::Shl),
        0x25 => StackOperation::Binary(BinaryOperation::Shr),
        0x26 => StackOperation::Binary(BinaryOperation::Shra),
        0x27 => StackOperation::Binary(BinaryOperation::Xor),
        _ => comparison(opcode),
    }
}

/// The operation of an opcode that compares (section 2.5.1.5), or of another.
#[tactic(auto, unfolding(crate::specs::Operations::by_comparison))]
fn comparison(opcode: u8) -> StackOperation
    ensures { result ≡ by_comparison opcode }
{
    match opcode {
        0x29 => StackOperation::Binary(BinaryOperation::Eq),
        0x2a => StackOperation::Binary(BinaryOperation::Ge),
        0x2b => StackOperation::Binary(BinaryOperation::Gt),
        0x2c => StackOperation::Binary(BinaryOperation::Le),
        0x2d => StackOperation::Binary(BinaryOperation::Lt),
        0x2e => StackOperation::Binary(BinaryOperation::Ne),
        _ => StackOperation::Unsupported(opcode),
    }
}
