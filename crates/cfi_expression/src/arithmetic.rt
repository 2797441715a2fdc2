//! Arithmetic of the entries of a stack, which are as wide as an address (DWARF 5 sections 2.5.1.4
//! and 2.5.1.5).
ghost use Rattle.std.specs.Prelude.{◌≡◌, ◌*◌, ◌-◌, ◌/◌, ◌%◌, ◌^◌, ◌<◌, ◌==◌};
ghost use Rattle.cfi_read_core.specs.AddressSizes.{size_in_bytes};
ghost use Rattle.cfi_read_core.specs.Addresses.{wrap};
ghost use Rattle.cfi_expression.specs.Arithmetic.{complement, low, negated, one_of};
ghost use Rattle.cfi_expression.specs.Arithmetic.{quotient, shifted_with_sign};
ghost use Rattle.cfi_expression.specs.Arithmetic.{by_nonzero, is_negative as is_below_zero};
ghost use Rattle.cfi_expression.specs.Arithmetic.{signed, two_of};

use crate::error::FrameError;
use crate::operation::{BinaryOperation, UnaryOperation};
use cfi_read_core::ReaderAddress;
use cfi_read_core::address::AddressSize;

/// The low bits of a number, of which an entry has room.
pub(crate) fn low(number: u64, size: AddressSize) -> u64
    ensures { result ≡ low (size_in_bytes size) number }
{
    number.wrapping_add_sized(0, size.bytes())
}

/// The sum, modulo the size.
pub(crate) fn plus(second: u64, top: u64, size: AddressSize) -> u64
    ensures { result ≡ wrap second top (size_in_bytes size) }
{
    second.wrapping_add_sized(top, size.bytes())
}

/// The greatest entry, of which all bits are set.
fn greatest(size: AddressSize) -> u64
    ensures { result ≡ 2 ^ (8 * size_in_bytes size) - 1 }
{
    match size.bytes() {
        1 => 0xff,
        2 => 0xffff,
        4 => 0xffff_ffff,
        _ => 0xffff_ffff_ffff_ffff,
    }
}

/// The highest bit of an entry.
fn sign_bit(size: AddressSize) -> u64
    ensures { result ≡ 2 ^ (8 * size_in_bytes size - 1) }
{
    match size.bytes() {
        1 => 0x80,
        2 => 0x8000,
        4 => 0x8000_0000,
        _ => 0x8000_0000_0000_0000,
    }
}

/// Whether the highest bit is set.
fn is_negative(entry: u64, size: AddressSize) -> bool
    ensures { result ≡ is_below_zero (size_in_bytes size) entry }
{
    sign_bit(size) <= low(entry, size)
}

/// Each bit turned over (`DW_OP_not`).
fn complement(entry: u64, size: AddressSize) -> u64
    ensures { result ≡ complement (size_in_bytes size) entry }
{
    greatest(size) - low(entry, size)
}

/// The entry with the other sign (`DW_OP_neg`).
fn negated(entry: u64, size: AddressSize) -> u64
    ensures { result ≡ negated (size_in_bytes size) entry }
{
    plus(complement(entry, size), 1, size)
}

/// The entry as a number with a sign.
fn signed(entry: u64, size: AddressSize) -> i64
    ensures { result ≡ signed (size_in_bytes size) entry }
{
    let number = low(entry, size);
    if is_negative(entry, size) {
        (u64::MAX - (greatest(size) - number)).cast_signed()
    } else {
        number.cast_signed()
    }
}

/// What a unary operation gives.
pub(crate) fn one_of(operation: UnaryOperation, top: u64, size: AddressSize) -> u64
    ensures { result ≡ one_of (size_in_bytes size) operation top }
{
    match operation {
        UnaryOperation::Abs => {
            if is_negative(top, size) {
                negated(top, size)
            } else {
                low(top, size)
            }
        }
        UnaryOperation::Neg => negated(top, size),
        UnaryOperation::Not => complement(top, size),
        UnaryOperation::PlusConstant(constant) => plus(top, constant, size),
    }
}

/// What a binary operation gives. Returns `FrameError::DivisionByZero` for a division by zero.
pub(crate) fn two_of(
    operation: BinaryOperation,
    second: u64,
    top: u64,
    size: AddressSize,
) -> Result<u64, FrameError>
    ensures { result ≡ two_of (size_in_bytes size) operation second top }
{
    match operation {
        BinaryOperation::And => Ok(second & top),
        BinaryOperation::Div => quotient(second, top, size),
        BinaryOperation::Minus => Ok(plus(second, negated(top, size), size)),
        BinaryOperation::Mod => remainder(second, top, size),
        BinaryOperation::Mul => Ok(product(second, top, size)),
        BinaryOperation::Or => Ok(second | top),
        BinaryOperation::Plus => Ok(plus(second, top, size)),
        BinaryOperation::Shl => Ok(shifted_left(second, top, size)),
        BinaryOperation::Shr => Ok(shifted_right(second, top)),
        BinaryOperation::Shra => Ok(shifted_with_sign(second, top, size)),
        BinaryOperation::Xor => Ok(second ^ top),
        BinaryOperation::Eq => Ok(u64::from(second == top)),
        BinaryOperation::Ge => Ok(u64::from(signed(top, size) <= signed(second, size))),
        BinaryOperation::Gt => Ok(u64::from(signed(top, size) < signed(second, size))),
        BinaryOperation::Le => Ok(u64::from(signed(second, size) <= signed(top, size))),
        BinaryOperation::Lt => Ok(u64::from(signed(second, size) < signed(top, size))),
        BinaryOperation::Ne => Ok(u64::from(second != top)),
    }
}

/// The product, modulo the size.
fn product(second: u64, top: u64, size: AddressSize) -> u64
    ensures { result ≡ low (size_in_bytes size) (second * top) }
{
    low(second.wrapping_mul(top), size)
}

/// The quotient of the numbers with a sign, rounded towards zero.
fn quotient(second: u64, top: u64, size: AddressSize) -> Result<u64, FrameError>
    ensures { result ≡ by_nonzero (size_in_bytes size) top
        (quotient (size_in_bytes size) second top) }
{
    if low(top, size) == 0 {
        return Err(FrameError::DivisionByZero);
    }
    let quotient = signed(second, size).wrapping_div(signed(top, size));
    Ok(low(quotient.cast_unsigned(), size))
}

/// The remainder of the numbers without a sign.
fn remainder(second: u64, top: u64, size: AddressSize) -> Result<u64, FrameError>
    ensures { result ≡ by_nonzero (size_in_bytes size) top
        (low (size_in_bytes size) second % low (size_in_bytes size) top) }
{
    let divisor = low(top, size);
    if divisor == 0 {
        return Err(FrameError::DivisionByZero);
    }
    Ok(low(second, size) % divisor)
}

/// The bits moved up by so many places.
fn shifted_left(entry: u64, places: u64, size: AddressSize) -> u64
    ensures { result ≡ low (size_in_bytes size) (entry * 2 ^ places) }
{
    if places < 64 {
        low(entry.wrapping_shl(places as u32), size)
    } else {
        0
    }
}

/// The bits moved down by so many places, and filled with zeros.
fn shifted_right(entry: u64, places: u64) -> u64
    ensures { result ≡ entry / 2 ^ places }
{
    if places < 64 {
        entry.wrapping_shr(places as u32)
    } else {
        0
    }
}

/// The bits moved down by so many places, and filled with the highest one.
fn shifted_with_sign(entry: u64, places: u64, size: AddressSize) -> u64
    ensures { result ≡ shifted_with_sign (size_in_bytes size) entry places }
{
    if is_negative(entry, size) {
        greatest(size) - shifted_right(complement(entry, size), places)
    } else {
        shifted_right(entry, places)
    }
}
