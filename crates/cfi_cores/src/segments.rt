//! The segments of a core file.
ghost use Rattle.std.specs.Prelude.{◌≡◌, ⊤, IfOk, map, option_map};
ghost use Rattle.std.specs.List.{filter_map};
ghost use Rattle.cfi_elf.specs.SegmentLists.{segments_left};
ghost use Rattle.cfi_cores.specs.CoreSegments.{bytes_at, segment_bytes, loaded_in, segment_view};

use cfi_elf::bytes::bytes_from;
use cfi_elf::constants::PT_LOAD;
use cfi_elf::{ProgramHeader, Segments};
use std::alloc::{AllocError, Global};

const PF_X: u32 = 1;

/// Bytes of memory from an address on: a segment of a core file, or a part of a file that was
/// mapped.
#[derive(Copy, Debug)]
pub struct CoreSegment<'run> {
    /// The address of the first byte.
    pub start: u64,
    /// The bytes, as far as the file has them.
    pub bytes: &'run [u8],
    /// Whether they may be executed (`PF_X`).
    pub is_executable: bool,
}

impl Clone for CoreSegment<'_> {
    ghost is_clone = { λ x y. y ≡ x };

    ghost is_infallible = { λ _. ⊤ };

    #[inline(always)]
    fn clone(&self) -> Result<Self, AllocError> {
        Ok(*self)
    }
}

/// The bytes of a segment, as far as the file has them.
pub(crate) fn segment_bytes<'run>(bytes: &'run [u8], header: &ProgramHeader) -> &'run [u8]
    ensures { result.now ≡ segment_bytes bytes.now header.now }
{
    let found = bytes_from(bytes, header.p_offset);
    if header.p_filesz < found.len() as u64 {
        &found[..header.p_filesz as usize]
    } else {
        found
    }
}

/// The segments that are loaded, in the order of their headers. Fails where memory is refused.
pub(crate) fn loaded_segments<'run>(
    alloc: Global,
    bytes: &'run [u8],
    headers: Segments<'run>,
) -> Result<Vec<CoreSegment<'run>>, AllocError>
    ensures { IfOk result (λ list. map segment_view list.items
        ≡ filter_map (loaded_in bytes.now) (segments_left headers.entry)) }
{
    let mut list = Vec::new(alloc);
    for header in headers {
        if let Some(segment) = loaded_in(bytes, &header) {
            list.push(segment)?;
        }
    }
    Ok(list)
}

/// The segment of a header, if it is loaded.
fn loaded_in<'run>(bytes: &'run [u8], header: &ProgramHeader) -> Option<CoreSegment<'run>>
    ensures { option_map segment_view result ≡ loaded_in bytes.now header.now }
{
    if header.p_type != PT_LOAD {
        return None;
    }
    Some(CoreSegment {
        start: header.p_vaddr,
        bytes: segment_bytes(bytes, header),
        is_executable: header.p_flags & PF_X != 0,
    })
}

/// The bytes that the core has from an address on: those of the first segment that begins there, or
/// `None` where none does.
pub(crate) fn bytes_at<'run>(segments: &[CoreSegment<'run>], address: u64) -> Option<&'run [u8]>
    ensures { option_map (λ bytes. bytes.now) result
        ≡ bytes_at (map segment_view segments.now) address }
{
    match segments.iter().find(|segment| segment.start == address) {
        Some(segment) => Some(segment.bytes),
        None => None,
    }
}
