//! Numbers at an index of a slice of bytes, in either byte order.
ghost use Rattle.std.specs.Prelude.{◌≡◌, ◌+◌, ◌≤◌, length, slice_range};
ghost use Rattle.std.specs.Int.{w16, w32, w64};
ghost use Rattle.cfi_read_core.specs.Numbers.{number_of};

/// The two-byte number at index `at`.
#[inline(always)]
pub fn u16_at(bytes: &[u8], at: usize, big_endian: bool) -> u16
    requires { at + 2 ≤ length bytes.now }
    ensures { result ≡ number_of w16 big_endian (slice_range bytes.now at (at + 2)) }
{
    let spelled = [bytes[at], bytes[at + 1]];
    if big_endian {
        u16::from_be_bytes(spelled)
    } else {
        u16::from_le_bytes(spelled)
    }
}

/// The four-byte number at index `at`.
#[inline(always)]
pub fn u32_at(bytes: &[u8], at: usize, big_endian: bool) -> u32
    requires { at + 4 ≤ length bytes.now }
    ensures { result ≡ number_of w32 big_endian (slice_range bytes.now at (at + 4)) }
{
    let spelled = [bytes[at], bytes[at + 1], bytes[at + 2], bytes[at + 3]];
    if big_endian {
        u32::from_be_bytes(spelled)
    } else {
        u32::from_le_bytes(spelled)
    }
}

/// The eight-byte number at index `at`.
#[inline(always)]
pub fn u64_at(bytes: &[u8], at: usize, big_endian: bool) -> u64
    requires { at + 8 ≤ length bytes.now }
    ensures { result ≡ number_of w64 big_endian (slice_range bytes.now at (at + 8)) }
{
    let spelled = [
        bytes[at],
        bytes[at + 1],
        bytes[at + 2],
        bytes[at + 3],
        bytes[at + 4],
        bytes[at + 5],
        bytes[at + 6],
        bytes[at + 7],
    ];
    if big_endian {
        u64::from_be_bytes(spelled)
    } else {
        u64::from_le_bytes(spelled)
    }
}
