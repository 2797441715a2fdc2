//! The CRC-32 of bytes, as IEEE 802.3 and gzip have it (RFC 1952 section 8).
ghost use Rattle.std.specs.Prelude.{◌≡◌};
ghost use Rattle.cfi_elf.specs.Checksums.{crc32, four_bits, next_bit, with_byte};

/// The polynomial without x^32; the lowest bit is the coefficient of x^31.
const POLYNOMIAL: u32 = 0xedb8_8320;

/// Returns the CRC-32 of these bytes. Does not allocate.
#[tactic(auto, unfolding(crate::specs::Checksums::crc32))]
pub fn crc32(bytes: &[u8]) -> u32
    ensures { result ≡ crc32 bytes.now }
{
    let mut remainder = u32::MAX;
    for byte in bytes {
        remainder = with_byte(remainder, *byte);
    }
    remainder ^ u32::MAX
}

/// The remainder after one more byte, the lowest bit of which comes first.
#[inline(always)]
fn with_byte(remainder: u32, byte: u8) -> u32
    ensures { result ≡ with_byte remainder byte }
{
    four_bits(four_bits(remainder ^ u32::from(byte)))
}

/// The remainder after four bits.
#[inline(always)]
fn four_bits(remainder: u32) -> u32
    ensures { result ≡ four_bits remainder }
{
    next_bit(next_bit(next_bit(next_bit(remainder))))
}

/// The remainder after one bit: x times it, modulo the polynomial.
#[inline(always)]
fn next_bit(remainder: u32) -> u32
    ensures { result ≡ next_bit remainder }
{
    if remainder % 2 == 1 {
        remainder / 2 ^ POLYNOMIAL
    } else {
        remainder / 2
    }
}
