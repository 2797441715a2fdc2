//! Parts of a slice of bytes.
ghost use Rattle.std.specs.Prelude.{◌≡◌, ◌≤◌, ◌==◌, ◌*◌, IfOk, IfSome, drop, length};
ghost use Rattle.std.specs.Prelude.{option_map, position, take};
ghost use Rattle.cfi_read_core.specs.ReaderCalls.{ReadsBy};
ghost use Rattle.cfi_read_core.specs.ByteOrder.{is_big};
ghost use Rattle.cfi_read_core.specs.SliceReaders.{slice_position};
ghost use Rattle.cfi_perf.specs.ByteReads.{before_zero, header_text, item_bytes, part};

use cfi_read_core::{EndianSlice, Error, Reader, Result, RunTimeEndian};

/// A reader over bytes of a profile.
pub(crate) type Input<'input> = EndianSlice<'input, RunTimeEndian>;

/// The `size` bytes from the offset on, or `None` where there are fewer.
#[inline(always)]
pub(crate) fn part(bytes: &[u8], offset: u64, size: u64) -> Option<&[u8]>
    ensures { option_map (λ found. found.now) result ≡ part bytes.now offset size }
{
    let end = offset.checked_add(size)?;
    if end > bytes.len() as u64 {
        return None;
    }
    Some(&bytes[offset as usize..end as usize])
}

/// The bytes from the offset on; none where it is past the end.
#[inline(always)]
pub(crate) fn bytes_from(bytes: &[u8], offset: u64) -> &[u8]
    ensures { result.now ≡ drop offset bytes.now }
{
    if offset < bytes.len() as u64 {
        &bytes[offset as usize..]
    } else {
        &[]
    }
}

/// The first `count` bytes; all where there are fewer.
#[inline(always)]
pub(crate) fn first_bytes(bytes: &[u8], count: u64) -> &[u8]
    ensures { result.now ≡ take count bytes.now }
{
    if count < bytes.len() as u64 {
        &bytes[..count as usize]
    } else {
        bytes
    }
}

/// The bytes before the first zero, or `None` where there is none.
pub(crate) fn before_zero(bytes: &[u8]) -> Option<&[u8]>
    ensures { option_map (λ found. found.now) result ≡ before_zero bytes.now }
{
    let length = first_zero(bytes)?;
    Some(&bytes[..length])
}

/// The index of the first zero.
fn first_zero(bytes: &[u8]) -> Option<usize>
    ensures value { result ≡ position (λ x. x == 0) bytes.now }
    ensures bound { IfSome result (λ index. index ≤ length bytes.now) }
{
    bytes.iter().position(|byte| *byte == 0)
}

/// Reads the bytes of `count` items of one size. Fails where fewer are left.
#[tactic(auto, unfolding(crate::specs::ByteReads::item_bytes))]
pub(crate) fn read_items<'input>(
    count: u64,
    size: u64,
    input: &mut Input<'input>,
) -> Result<&'input [u8]>
    ensures read { ReadsBy (slice_position is_big) (λ found. found.now) (item_bytes count size)
        input.old result input.new }
    ensures total { IfOk result (λ found. length found.now ≡ count * size) }
{
    let Some(total) = count.checked_mul(size) else {
        return Err(Error::UnsupportedOffset);
    };
    let found = input.split(total as usize)?;
    Ok(found.slice())
}

/// Reads a text of a profile's header, with the zeros at its end.
#[tactic(auto, unfolding(crate::specs::ByteReads::header_text))]
pub(crate) fn read_header_text<'input>(input: &mut Input<'input>) -> Result<&'input [u8]>
    ensures { ReadsBy (slice_position is_big) (λ text. text.now) header_text
        input.old result input.new }
{
    let size = input.read_u32()?;
    read_items(u64::from(size), 1, input)
}
