//! Parts of a slice of bytes, numbers in it, and the entries of a table.
ghost use Rattle.std.specs.Prelude.{◌≡◌, ◌+◌, ◌*◌, ◌<◌, ◌≤◌, ◌==◌, IfSome, MatchOption, drop};
ghost use Rattle.std.specs.Prelude.{length, option_map, position, slice_get};
ghost use Rattle.std.specs.Int.{w8, w16, w32, w64};
ghost use Rattle.cfi_elf.specs.Fields.{before_zero, entries, first_bytes, number_at, part};
ghost use Rattle.cfi_elf.specs.Fields.{until_zero};

/// The `size` bytes from the offset on, or `None` where there are fewer.
#[inline(always)]
pub fn part(bytes: &[u8], offset: u64, size: u64) -> Option<&[u8]>
    ensures { option_map (λ found. found.now) result ≡ part bytes.now offset size }
{
    let end = offset.checked_add(size)?;
    if end > bytes.len() as u64 {
        return None;
    }
    Some(&bytes[offset as usize..end as usize])
}

/// The bytes from the offset on; none where it is past the end.
#[inline(always)]
pub fn bytes_from(bytes: &[u8], offset: u64) -> &[u8]
    ensures { result.now ≡ drop offset bytes.now }
{
    if offset < bytes.len() as u64 {
        &bytes[offset as usize..]
    } else {
        &[]
    }
}

/// The first `count` bytes, or `None` where there are fewer.
pub fn first_bytes(bytes: &[u8], count: u32) -> Option<&[u8]>
    ensures { option_map (λ found. found.now) result ≡ first_bytes count bytes.now }
{
    let count = count as usize;
    if count <= bytes.len() {
        Some(&bytes[..count])
    } else {
        None
    }
}

/// The bytes before the first zero, or `None` where there is none.
pub fn before_zero(bytes: &[u8]) -> Option<&[u8]>
    ensures { option_map (λ found. found.now) result ≡ before_zero bytes.now }
{
    let length = first_zero(bytes)?;
    Some(&bytes[..length])
}

/// The bytes before the first zero, or all where there is none.
pub fn until_zero(bytes: &[u8]) -> &[u8]
    ensures { result.now ≡ until_zero bytes.now }
{
    match before_zero(bytes) {
        Some(found) => found,
        None => bytes,
    }
}

/// The index of the first zero.
fn first_zero(bytes: &[u8]) -> Option<usize>
    ensures value { result ≡ position (λ x. x == 0) bytes.now }
    ensures bound { IfSome result (λ index. index ≤ length bytes.now) }
{
    bytes.iter().position(|byte| *byte == 0)
}

/// The entry at an index of a table whose entries have this size, or `None` where it has fewer.
#[inline(always)]
pub fn entry(table: &[u8], size: u64, index: usize) -> Option<&[u8]>
    requires { 0 < size }
    ensures value { option_map (λ found. found.now) result
        ≡ slice_get (entries size table.now) index }
    ensures size { IfSome result (λ found. length found.now ≡ size) }
{
    let Some(start) = size_of(index as u64, size, table.len() as u64) else {
        return None;
    };
    part(table, start, size)
}

/// How many bytes `count` entries of `size` bytes have, or `None` where that is more than this
/// length.
pub fn size_of(count: u64, size: u64, length: u64) -> Option<u64>
    ensures { MatchOption result (length < count * size) (λ n. n ≡ count * size) }
{
    let all = count.checked_mul(size)?;
    if all <= length { Some(all) } else { None }
}

/// The bytes of a record, and their order.
#[derive(Clone, Copy)]
pub struct Record<'input> {
    pub bytes: &'input [u8],
    pub big_endian: bool,
}

impl Record<'_> {
    /// The number in the byte at an offset.
    #[inline(always)]
    pub fn byte(&self, at: usize) -> u8
        requires { at + 1 ≤ length self.now.bytes.now }
        ensures { result ≡ number_at self.now.big_endian self.now.bytes.now at w8 }
    {
        let spelled = [self.bytes[at]];
        if self.big_endian {
            u8::from_be_bytes(spelled)
        } else {
            u8::from_le_bytes(spelled)
        }
    }

    /// The number in the two bytes from an offset on.
    #[inline(always)]
    pub fn half(&self, at: usize) -> u16
        requires { at + 2 ≤ length self.now.bytes.now }
        ensures { result ≡ number_at self.now.big_endian self.now.bytes.now at w16 }
    {
        let spelled = [self.bytes[at], self.bytes[at + 1]];
        if self.big_endian {
            u16::from_be_bytes(spelled)
        } else {
            u16::from_le_bytes(spelled)
        }
    }

    /// The number in the four bytes from an offset on.
    #[inline(always)]
    pub fn word(&self, at: usize) -> u32
        requires { at + 4 ≤ length self.now.bytes.now }
        ensures { result ≡ number_at self.now.big_endian self.now.bytes.now at w32 }
    {
        let bytes = self.bytes;
        let spelled = [bytes[at], bytes[at + 1], bytes[at + 2], bytes[at + 3]];
        if self.big_endian {
            u32::from_be_bytes(spelled)
        } else {
            u32::from_le_bytes(spelled)
        }
    }

    /// The number in the eight bytes from an offset on.
    #[inline(always)]
    pub fn xword(&self, at: usize) -> u64
        requires { at + 8 ≤ length self.now.bytes.now }
        ensures { result ≡ number_at self.now.big_endian self.now.bytes.now at w64 }
    {
        let bytes = self.bytes;
        let spelled = [
            bytes[at],
            bytes[at + 1],
            bytes[at + 2],
            bytes[at + 3],
            bytes[at + 4],
            bytes[at + 5],
            bytes[at + 6],
            bytes[at + 7],
        ];
        if self.big_endian {
            u64::from_be_bytes(spelled)
        } else {
            u64::from_le_bytes(spelled)
        }
    }
}
