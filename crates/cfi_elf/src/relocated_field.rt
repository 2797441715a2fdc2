//! The number in the bytes that a relocation changes, its field (System V ABI chapter 4,
//! "Relocation").
ghost use Rattle.std.specs.Prelude.{◌≡◌, Ok};
ghost use Rattle.std.specs.Int.{byte_len};
ghost use Rattle.cfi_elf.specs.RelocatedFields.{has_field, read_number, width_of_field};
ghost use Rattle.cfi_elf.specs.RelocatedFields.{write_bytes, write_number};
ghost use Rattle.cfi_elf.specs.Results.{and_then};

use crate::bytes::Record;
use crate::error::ElfError;
use crate::relocation_kind::FieldWidth;

/// Writes these bytes from the offset on. Fails with `RelocationOutOfBounds` where the slice ends
/// before they do.
pub(crate) fn write_bytes(bytes: &mut [u8], offset: u64, written: &[u8]) -> Result<(), ElfError>
    ensures { and_then result (λ done. Ok bytes.new) ≡ write_bytes offset written.now bytes.old }
{
    if !has_field(bytes, offset, written.len() as u64) {
        return Err(ElfError::RelocationOutOfBounds);
    }
    let at = offset as usize;
    bytes[at..at + written.len()].copy_from_slice(written);
    Ok(())
}

/// Writes the low bytes of a number from the offset on, as many as the field has. Fails as
/// `write_bytes`.
pub(crate) fn write_number(
    bytes: &mut [u8],
    big_endian: bool,
    width: FieldWidth,
    offset: u64,
    number: u64,
) -> Result<(), ElfError>
    ensures { and_then result (λ done. Ok bytes.new)
        ≡ write_number big_endian (width_of_field width) offset number bytes.old }
{
    match width {
        FieldWidth::Byte => {
            let low = (number % 0x100) as u8;
            let written = if big_endian {
                low.to_be_bytes()
            } else {
                low.to_le_bytes()
            };
            write_bytes(bytes, offset, &written)
        }
        FieldWidth::Half => {
            let low = (number % 0x1_0000) as u16;
            let written = if big_endian {
                low.to_be_bytes()
            } else {
                low.to_le_bytes()
            };
            write_bytes(bytes, offset, &written)
        }
        FieldWidth::Word => {
            let low = (number % 0x1_0000_0000) as u32;
            let written = if big_endian {
                low.to_be_bytes()
            } else {
                low.to_le_bytes()
            };
            write_bytes(bytes, offset, &written)
        }
        FieldWidth::Xword => {
            let written = if big_endian {
                number.to_be_bytes()
            } else {
                number.to_le_bytes()
            };
            write_bytes(bytes, offset, &written)
        }
    }
}

/// Reads the number in a field. Fails with `RelocationOutOfBounds` where the slice ends before it
/// does.
pub(crate) fn read_number(
    bytes: &[u8],
    big_endian: bool,
    width: FieldWidth,
    offset: u64,
) -> Result<u64, ElfError>
    ensures { result ≡ read_number big_endian (width_of_field width) offset bytes.now }
{
    if !has_field(bytes, offset, field_size(width)) {
        return Err(ElfError::RelocationOutOfBounds);
    }
    let at = offset as usize;
    let fields = Record { bytes, big_endian };
    match width {
        FieldWidth::Byte => Ok(u64::from(fields.byte(at))),
        FieldWidth::Half => Ok(u64::from(fields.half(at))),
        FieldWidth::Word => Ok(u64::from(fields.word(at))),
        FieldWidth::Xword => Ok(fields.xword(at)),
    }
}

/// Whether the slice has `size` bytes from the offset on.
fn has_field(bytes: &[u8], offset: u64, size: u64) -> bool
    ensures { result ≡ has_field offset size bytes.now }
{
    let length = bytes.len() as u64;
    size <= length && offset <= length - size
}

/// How many bytes a field of this width has.
pub(crate) fn field_size(width: FieldWidth) -> u64
    ensures { result ≡ byte_len (width_of_field width) }
{
    match width {
        FieldWidth::Byte => 1,
        FieldWidth::Half => 2,
        FieldWidth::Word => 4,
        FieldWidth::Xword => 8,
    }
}
