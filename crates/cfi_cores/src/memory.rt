//! The memory of a core file.
ghost use Rattle.std.specs.Prelude.{◌≡◌, ⊤, map};
ghost use Rattle.cfi_read_core.specs.Addresses.{IsAddressSize};
ghost use Rattle.cfi_cores.specs.CoreSegments.{AreByAddress, number_among, segment_number};
ghost use Rattle.cfi_cores.specs.CoreSegments.{segment_view};

use crate::segments::CoreSegment;
use cfi_expression::{Memory, Window};
use cfi_read_core::{EndianSlice, RunTimeEndian};
use std::alloc::AllocError;

/// The memory of a core file: its segments, and for what they don't have the files that were
/// mapped there, since a core file has no copy of code, or only its first page.
///
/// The number at an address is that in the last segment that begins at or below it. If that doesn't
/// have all bytes of the number, it is the same of the mapped files. Found by halving; does not
/// allocate.
#[derive(Debug)]
pub struct CoreMemory<'run> {
    dumped: &'run [CoreSegment<'run>],
    mapped: &'run [CoreSegment<'run>],
    ghost dumped_in_order: { AreByAddress dumped.now },
    ghost mapped_in_order: { AreByAddress mapped.now },
}

impl Clone for CoreMemory<'_> {
    ghost is_clone = { λ x y. y ≡ x };

    ghost is_infallible = { λ _. ⊤ };

    #[inline(always)]
    fn clone(&self) -> Result<Self, AllocError> {
        Ok(*self)
    }
}

impl Copy for CoreMemory<'_> {}

impl<'run> CoreMemory<'run> {
    ghost use Rattle.cfi_cores.specs.CoreMemories.{memory_view};

    /// The memory of these segments, as `Core` has them, and of these parts of mapped files. Both
    /// are in the order of their addresses.
    pub fn new(dumped: &'run [CoreSegment<'run>], mapped: &'run [CoreSegment<'run>]) -> Self
        requires dumped { AreByAddress dumped.now }
        requires mapped { AreByAddress mapped.now }
        ensures { memory_view result ≡ record {
          dumped = map segment_view dumped.now;
          mapped = map segment_view mapped.now;
        } }
    {
        CoreMemory { dumped, mapped }
    }
}

impl Memory for CoreMemory<'_> {
    ghost use Rattle.cfi_cores.specs.CoreMemories.{memory_view, memory_number};

    ghost number_at = { λ memory address size. memory_number (memory_view memory) address size };

    fn read(&self, address: u64, size: u8) -> Option<u64> {
        match number_among(self.dumped, address, size) {
            Some(number) => Some(number),
            None => number_among(self.mapped, address, size),
        }
    }
}

/// The number of `size` bytes at the address, by the last segment that begins at or below it.
fn number_among(segments: &[CoreSegment<'_>], address: u64, size: u8) -> Option<u64>
    requires size { IsAddressSize size }
    requires order { AreByAddress segments.now }
    ensures { result ≡ number_among (map segment_view segments.now) address size }
{
    let count = segments.partition_point(|segment| segment.start <= address);
    if count == 0 {
        return None;
    }
    segment_number(&segments[count - 1], address, size)
}

/// The number of `size` bytes at the address, if the segment has all of them.
fn segment_number(segment: &CoreSegment<'_>, address: u64, size: u8) -> Option<u64>
    requires { IsAddressSize size }
    ensures { result ≡ segment_number address size (segment_view segment.now) }
{
    let window = Window {
        base: segment.start,
        bytes: EndianSlice::new(segment.bytes, RunTimeEndian::Little),
    };
    window.read(address, size)
}
