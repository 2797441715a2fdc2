//! Readers: a place in bytes, from which numbers are read.
ghost use Rattle.std.specs.Prelude.{◌≡◌, ℕ, ◌-◌, ◌≤◌, ◌<◌, ◌==◌, IfOk, Ok};
ghost use Rattle.std.specs.Int.{w8, w16, w32, w64};
ghost use Rattle.cfi_read_core.specs.ReadFunctions.{Position, skip, split};
ghost use Rattle.cfi_read_core.specs.Numbers.{initial_length, initial_length_view, number_by};
ghost use Rattle.cfi_read_core.specs.Numbers.{offset_leb128, register_leb128, signed};
ghost use Rattle.cfi_read_core.specs.Numbers.{signed_leb128, text, unsigned, unsigned_leb128};
ghost use Rattle.cfi_read_core.specs.Addresses.{address, address_size};
ghost use Rattle.cfi_read_core.specs.ReaderCalls.{IsPartOf, IsSound, Reads, ReadsBy, ReadsValue};
ghost use Rattle.cfi_read_core.specs.ReaderCalls.{bytes_left, end_position, extent_of, find_byte};
ghost use Rattle.cfi_read_core.specs.ReaderCalls.{map_ok, one_back, remaining, same_reader};

use crate::common::{Format, Register};
use crate::endianity::Endianity;
use crate::error::{Error, Result};
use crate::offset::ReaderOffset;
use std::fmt::Debug;

/// A place in bytes, and the bytes that are left from there. A copy reads on its own.
///
/// If `skip`, `split`, `find`, or the read of a fixed-width number, an address or a text fails, the
/// reader stays where it was. A read of several parts leaves it after the parts that succeeded.
/// `Error::UnexpectedEof` holds the place of the first byte of what could not be read. Places count
/// from the start of the bytes over which the reader was made.
pub trait Reader: Copy + Debug + Eq {
    /// How the reader counts its bytes.
    type Offset: ReaderOffset;

    /// The order of the bytes of a number.
    type Endian: Endianity;

    /// The reader's place, and the bytes around it.
    ghost position: { Self → Position };

    /// The order of the bytes of a number.
    fn endian(&self) -> Self::Endian
        ensures { Self.Endian.big_endian result ≡ (position self.now).source.big_endian };

    /// The number of bytes that are left.
    fn len(&self) -> Self::Offset
        ensures { Self.Offset.number result ≡ remaining (position self.now) };

    /// The place, counted from the start of the bytes over which the reader was made.
    fn place(&self) -> Self::Offset
        ensures { Self.Offset.number result ≡ (position self.now).place };

    /// The number of bytes before the next one with this value. Returns `Error::UnexpectedEof` if
    /// there is none.
    fn find(&self, byte: u8) -> Result<Self::Offset>
        ensures { map_ok Self.Offset.number result ≡ find_byte byte (position self.now) };

    /// Skips `len` bytes. Returns `Error::UnexpectedEof` if fewer are left.
    fn skip(&mut self, len: Self::Offset) -> Result<()>
        ensures { ReadsValue position (skip (Self.Offset.number len)) self.old result self.new };

    /// Skips `len` bytes, and returns a reader of them. Returns `Error::UnexpectedEof` if fewer are
    /// left.
    fn split(&mut self, len: Self::Offset) -> Result<Self>
        ensures read { ReadsBy position (λ r. extent_of (position r))
            (split (Self.Offset.number len)) self.old result self.new }
        ensures part { IfOk result (λ r. IsPartOf (position r) (position self.old)) };

    /// Reads a byte.
    fn read_u8(&mut self) -> Result<u8>
        ensures { ReadsValue position (unsigned w8) self.old result self.new };

    /// Reads a number of two bytes.
    fn read_u16(&mut self) -> Result<u16>
        ensures { ReadsValue position (unsigned w16) self.old result self.new };

    /// Reads a number of four bytes.
    fn read_u32(&mut self) -> Result<u32>
        ensures { ReadsValue position (unsigned w32) self.old result self.new };

    /// Reads a number of eight bytes.
    fn read_u64(&mut self) -> Result<u64>
        ensures { ReadsValue position (unsigned w64) self.old result self.new };

    /// Whether no bytes are left.
    #[inline(always)]
    fn is_empty(&self) -> bool
        ensures { result ≡ (remaining (position self.now) == 0) }
    {
        self.len().into_u64() == 0
    }

    /// Skips all bytes that are left.
    #[inline(always)]
    fn empty(&mut self)
        ensures { position self.new ≡ end_position (position self.old) }
    {
        let _ = self.skip(self.len());
    }

    /// The distance in bytes from `base`, a reader of the same bytes, to this reader.
    #[inline(always)]
    fn offset_from(&self, base: &Self) -> Self::Offset
        requires { (position base.now).place ≤ (position self.now).place }
        ensures { Self.Offset.number result
            ≡ (position self.now).place - (position base.now).place }
    {
        // By a subtraction of u64, which needs no test.
        match Self::Offset::from_u64(self.place().into_u64() - base.place().into_u64()) {
            Ok(offset) => offset,
            Err(_) => unreachable!(),
        }
    }

    /// Reads a number of two bytes, in two's complement.
    #[tactic(auto, unfolding(crate::specs::Numbers::signed))]
    #[inline(always)]
    fn read_i16(&mut self) -> Result<i16>
        ensures { ReadsValue position (signed w16) self.old result self.new }
    {
        Ok(self.read_u16()?.cast_signed())
    }

    /// Reads a number of four bytes, in two's complement.
    #[tactic(auto, unfolding(crate::specs::Numbers::signed))]
    #[inline(always)]
    fn read_i32(&mut self) -> Result<i32>
        ensures { ReadsValue position (signed w32) self.old result self.new }
    {
        Ok(self.read_u32()?.cast_signed())
    }

    /// Reads a number of eight bytes, in two's complement.
    #[tactic(auto, unfolding(crate::specs::Numbers::signed))]
    #[inline(always)]
    fn read_i64(&mut self) -> Result<i64>
        ensures { ReadsValue position (signed w64) self.old result self.new }
    {
        Ok(self.read_u64()?.cast_signed())
    }

    /// Reads an unsigned LEB128 number of at most ten bytes (DWARF 5 section 7.6). Accepts padding.
    /// Returns `Error::BadUnsignedLeb128` if the tenth byte does not fit 64 bits; the reader is
    /// then after that byte.
    #[inline(always)]
    final fn read_uleb128(&mut self) -> Result<u64>
        ensures { ReadsValue position unsigned_leb128 self.old result self.new }
    {
        // Most numbers take one byte.
        let first = self.read_u8()?;
        if first < 128 {
            return Ok(u64::from(first));
        }
        longer_uleb128(self, first)
    }

    /// Reads a signed LEB128 number of at most ten bytes (DWARF 5 section 7.6). Accepts padding.
    /// Returns `Error::BadSignedLeb128` if the tenth byte does not repeat the sign; the reader is
    /// then after that byte.
    // Not inlined: few numbers are signed.
    #[inline(never)]
    final fn read_sleb128(&mut self) -> Result<i64>
        ensures { ReadsValue position signed_leb128 self.old result self.new }
    {
        let mut value = 0u64;
        let mut weight = 1u64;
        for index in 0..9u32 {
            let byte = self.read_u8()?;
            value += u64::from(byte % 128) * weight;
            weight *= 128;
            if byte < 128 {
                return Ok(with_sign(byte >= 64, value, weight));
            }
        }
        let tenth = self.read_u8()?;
        if tenth != 0 && tenth != 0x7f {
            return Err(Error::BadSignedLeb128);
        }
        Ok(with_sign(tenth != 0, value, weight))
    }

    /// Reads the initial length of a unit, and returns it with the format (DWARF 5 section 7.4).
    /// Returns `Error::UnknownReservedLength` for a reserved length, and `Error::UnsupportedOffset`
    /// if the length does not fit the offset type.
    #[tactic(auto, unfolding(crate::specs::Numbers::initial_length))]
    #[inline(always)]
    fn read_initial_length(&mut self) -> Result<(Self::Offset, Format)>
        ensures { ReadsBy position (initial_length_view Self.Offset.number) initial_length
            self.old result self.new }
    {
        let word = self.read_u32()?;
        if word < 0xffff_fff0 {
            Ok((Self::Offset::from_u64(u64::from(word))?, Format::Dwarf32))
        } else if word == 0xffff_ffff {
            let long = self.read_u64()?;
            Ok((Self::Offset::from_u64(long)?, Format::Dwarf64))
        } else {
            Err(Error::UnknownReservedLength(word))
        }
    }

    /// Reads an address of `size` bytes. Returns `Error::UnsupportedAddressSize` if the size is not
    /// 1, 2, 4 or 8.
    #[tactic(auto, unfolding(crate::specs::Addresses::address))]
    #[inline(always)]
    fn read_address(&mut self, size: u8) -> Result<u64>
        ensures { ReadsValue position (address size) self.old result self.new }
    {
        match size {
            1 => Ok(u64::from(self.read_u8()?)),
            2 => Ok(u64::from(self.read_u16()?)),
            4 => Ok(u64::from(self.read_u32()?)),
            8 => self.read_u64(),
            _ => Err(Error::UnsupportedAddressSize(size)),
        }
    }

    /// Reads a byte that is an address size: 1, 2, 4 or 8. Returns `Error::UnsupportedAddressSize`
    /// for another byte; the reader is then after it.
    #[tactic(auto, unfolding(crate::specs::Addresses::address_size))]
    #[inline(always)]
    fn read_address_size(&mut self) -> Result<u8>
        ensures { ReadsValue position address_size self.old result self.new }
    {
        let size = self.read_u8()?;
        match size {
            1 | 2 | 4 | 8 => Ok(size),
            _ => Err(Error::UnsupportedAddressSize(size)),
        }
    }

    /// Returns a reader of the bytes before the next zero, and skips them and the zero. Returns
    /// `Error::UnexpectedEof` if there is no zero.
    #[tactic(auto, unfolding(crate::specs::Numbers::text))]
    #[inline(always)]
    fn read_null_terminated_slice(&mut self) -> Result<Self>
        ensures read { ReadsBy position (λ r. bytes_left (position r)) text
            self.old result self.new }
        ensures part { IfOk result (λ r. IsPartOf (position r) (position self.old)) }
        ensures place { IfOk result (λ r. (position r).place ≡ (position self.old).place) }
    {
        let len = self.find(0)?;
        let text = self.split(len)?;
        let _zero = self.read_u8()?;
        Ok(text)
    }

    /// A reader's places are in order, within its bytes, and fit the offset type.
    ghost sound: { (r : Self) → IsSound (position r) };

    /// Readers are equal if the bytes that are left and the byte order are.
    ghost equal: { (x y : Self) → Self.PartialEq.eq x y ≡ same_reader (position x) (position y) };

    /// The greatest offset is that of the offset type.
    ghost greatest: { (r : Self) → (position r).source.greatest ≡ Self.Offset.GREATEST };
}

/// Reads a LEB128 number as an offset. Returns `Error::UnsupportedOffset` if it does not fit the
/// offset type; the reader is then after the number.
#[tactic(auto, unfolding(crate::specs::Numbers::offset_leb128))]
#[inline(always)]
pub fn read_offset<R: Reader>(input: &mut R) -> Result<R::Offset>
    ensures { ReadsBy R.position R.Offset.number offset_leb128 input.old result input.new }
{
    R::Offset::from_u64(input.read_uleb128()?)
}

/// Reads a LEB128 number as a register. Returns `Error::UnsupportedRegister` if it is above 65535;
/// the reader is then after the number.
#[inline(always)]
pub fn read_register<R: Reader>(input: &mut R) -> Result<Register>
    ensures { ReadsValue R.position register_leb128 input.old result input.new }
{
    // A copy is lent to the call, so that only it has to be in memory.
    let mut apart = *input;
    let register = register_apart(&mut apart);
    *input = apart;
    Ok(register?)
}

#[tactic(auto, unfolding(crate::specs::Numbers::register_leb128))]
// Not inlined: most registers are part of their opcode.
#[inline(never)]
fn register_apart<R: Reader>(input: &mut R) -> Result<Register>
    ensures { ReadsValue R.position register_leb128 input.old result input.new }
{
    Register::from_u64(input.read_uleb128()?)
}

/// The same as `rest_of_uleb128`, with the room for its result, which is cleared where it begins.
#[inline(always)]
fn longer_uleb128<R: Reader>(input: &mut R, first: u8) -> Result<u64>
    requires goes_on { 128 ≤ first }
    requires first { Reads (λ x. x) (unsigned w8)
        (one_back (R.position input.old)) (Ok first) (R.position input.old) }
    ensures { Reads (λ x. x) unsigned_leb128
        (one_back (R.position input.old)) result (R.position input.new) }
{
    // A copy is lent to the call, so that only it has to be in memory.
    let mut apart = *input;
    let number = rest_of_uleb128(&mut apart, first);
    *input = apart;
    Ok(number?)
}

/// The unsigned LEB128 number of two bytes or more whose first byte was just read.
// Not inlined, so that callers inline only the case of one byte.
#[inline(never)]
fn rest_of_uleb128<R: Reader>(input: &mut R, first: u8) -> Result<u64>
    requires goes_on { 128 ≤ first }
    requires first { Reads (λ x. x) (unsigned w8)
        (one_back (R.position input.old)) (Ok first) (R.position input.old) }
    ensures { Reads (λ x. x) unsigned_leb128
        (one_back (R.position input.old)) result (R.position input.new) }
{
    let mut value = u64::from(first % 128);
    let mut weight = 128u64;
    for index in 1..10u32 {
        let byte = input.read_u8()?;
        if index == 9 && byte > 1 {
            return Err(Error::BadUnsignedLeb128);
        }
        value += u64::from(byte % 128) * weight;
        if byte < 128 {
            return Ok(value);
        }
        weight *= 128;
    }
    unreachable!()
}

/// `value`, minus `weight` if the sign is set.
#[inline(always)]
fn with_sign(is_negative: bool, value: u64, weight: u64) -> i64
    requires below { value < weight }
    requires room { weight ≤ 9223372036854775808 }
    ensures { result ≡ number_by is_negative value weight }
{
    if is_negative {
        (u64::MAX - (weight - 1 - value)).cast_signed()
    } else {
        value.cast_signed()
    }
}
