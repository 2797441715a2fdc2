//! What the parts have that were read of a core file, all but the bytes of its memory.
ghost use Rattle.std.specs.Prelude.{◌≡◌, ℕ, List, IfOk, IfSome, Some, map, option_map};
ghost use Rattle.cfi_elf.specs.Fields.{part};
ghost use Rattle.cfi_elf.specs.Images.{IsImageOf, image_view, in_part, in_parts, part_view};
ghost use Rattle.cfi_elf.specs.Images.{parts_view};
ghost use Rattle.cfi_cores.specs.CoreHeads.{HasHeadsOf};
ghost use Rattle.cfi_cores.specs.CoreSegments.{segment_bytes, segment_view};
ghost use Rattle.cfi_cores.specs.MappedFiles.{mapping_view};
ghost use Rattle.cfi_cores.specs.PartialCores.{IsPartial, bytes_if, head_in, is_head};

use crate::core_file::Core;
use crate::core_heads::{CoreHeads, core_heads};
use crate::mapped_files::CoreMapping;
use crate::segments::CoreSegment;
use crate::vdso::size_in;
use cfi_elf::bytes::part;
use cfi_elf::{FilePart, Image, ProgramHeader};
use std::alloc::{AllocError, Global};

const PF_X: u32 = 1;

/// What the parts of a core file have: all but the bytes of its memory, of which they have those
/// where the first byte of a file is mapped.
#[derive(Drop)]
pub struct PartialCore<'run> {
    /// The core. Its segments have all their bytes where the first byte of a file is mapped, and
    /// no bytes elsewhere.
    pub core: Core<'run>,
    /// The headers of the segments, in the order of these.
    pub places: Vec<ProgramHeader>,
}

/// What the parts of a core file have; `None` where they lack something. Fails where memory is
/// refused.
pub fn partial_core<'run>(
    alloc: Global,
    image: Image<'run>,
) -> Result<Option<PartialCore<'run>>, AllocError>
    ensures { (bytes : List ℕ) → IsImageOf (image_view image.entry) bytes
        → IfOk result (λ found. IfSome found (IsPartial bytes)) }
{
    match core_heads(alloc, image)? {
        Some(heads) => with_segments(alloc, image, heads),
        None => Ok(None),
    }
}

/// The core with these headers and notes.
fn with_segments<'run>(
    alloc: Global,
    image: Image<'run>,
    heads: CoreHeads<'run>,
) -> Result<Option<PartialCore<'run>>, AllocError>
    ensures { (bytes : List ℕ) → IsImageOf (image_view image.entry) bytes
        → HasHeadsOf bytes heads.entry → IfOk result (λ found. IfSome found (IsPartial bytes)) }
{
    match head_segments(
        alloc,
        image,
        heads.mapped.as_slice(),
        heads.places.as_slice(),
    )? {
        Some(segments) => Ok(Some(PartialCore {
            core: Core {
                machine: heads.machine,
                name: heads.name,
                threads: heads.threads,
                mapped: heads.mapped,
                segments,
                error: heads.error,
            },
            places: heads.places,
        })),
        None => Ok(None),
    }
}

/// The segments of these headers, as `PartialCore` has them; `None` where bytes are lacking. Fails
/// where memory is refused.
fn head_segments<'run>(
    alloc: Global,
    image: Image<'run>,
    mapped: &[CoreMapping<'run>],
    places: &[ProgramHeader],
) -> Result<Option<Vec<CoreSegment<'run>>>, AllocError>
    ensures { (bytes : List ℕ) → IsImageOf (image_view image.entry) bytes
        → IfOk result (λ found. IfSome found (λ list. map segment_view list.items
        ≡ map (head_in bytes (map mapping_view mapped.now)) places.now)) }
{
    let mut list = Vec::new(alloc);
    for place in places {
        match head_in(image, mapped, place) {
            Some(segment) => list.push(segment)?,
            None => return Ok(None),
        }
    }
    Ok(Some(list))
}

/// The segment of this header, as `PartialCore` has it; `None` where bytes are lacking.
fn head_in<'run>(
    image: Image<'run>,
    mapped: &[CoreMapping<'run>],
    place: &ProgramHeader,
) -> Option<CoreSegment<'run>>
    ensures { (bytes : List ℕ) → IsImageOf (image_view image.entry) bytes
        → IfSome result (λ segment. segment_view segment
        ≡ head_in bytes (map mapping_view mapped.now) place.now) }
{
    let bytes = head_bytes(image, is_head(mapped, place.p_vaddr), place)?;
    Some(CoreSegment {
        start: place.p_vaddr,
        bytes,
        is_executable: place.p_flags & PF_X != 0,
    })
}

/// The bytes of the segment if it is a head, and else none; `None` where they are lacking.
fn head_bytes<'run>(image: Image<'run>, is_head: bool, place: &ProgramHeader) -> Option<&'run [u8]>
    ensures { (bytes : List ℕ) → IsImageOf (image_view image.entry) bytes
        → IfSome result (λ found. found.now ≡ bytes_if bytes is_head place.now) }
{
    if is_head {
        bytes_in(image, place)
    } else {
        Some(&[])
    }
}

/// The bytes of a segment; `None` where not all of them were read.
pub(crate) fn bytes_in<'run>(image: Image<'run>, place: &ProgramHeader) -> Option<&'run [u8]>
    ensures { (bytes : List ℕ) → IsImageOf (image_view image.entry) bytes
        → IfSome result (λ found. found.now ≡ segment_bytes bytes place.now) }
{
    let size = size_in(image.length, place);
    if size == 0 {
        return Some(&[]);
    }
    part_in(image, place.p_offset, size)
}

/// The `size` bytes from the offset on, if a part has them all.
fn part_in<'run>(image: Image<'run>, offset: u64, size: u64) -> Option<&'run [u8]>
    ensures { (bytes : List ℕ) → IsImageOf (image_view image.entry) bytes
        → IfSome result (λ found. part bytes offset size ≡ Some found.now) }
{
    match part(image.first, offset, size) {
        Some(found) => Some(found),
        None => in_parts(image.parts, offset, size),
    }
}

/// The same by the parts after the first.
fn in_parts(parts: &[FilePart], offset: u64, size: u64) -> Option<&[u8]>
    ensures { option_map (λ found. found.now) result
        ≡ in_parts offset size (parts_view parts.now) }
{
    for read in parts {
        if let Some(found) = in_part(read, offset, size) {
            return Some(found);
        }
    }
    None
}

/// The same by this part.
fn in_part(read: &FilePart, offset: u64, size: u64) -> Option<&[u8]>
    ensures { option_map (λ found. found.now) result
        ≡ in_part offset size (part_view read.now) }
{
    if offset < read.offset {
        return None;
    }
    part(read.bytes.as_slice(), offset - read.offset, size)
}

/// Whether the first byte of a file is mapped at the address.
pub(crate) fn is_head(mapped: &[CoreMapping<'_>], address: u64) -> bool
    ensures { result ≡ is_head (map mapping_view mapped.now) address }
{
    mapped
        .iter()
        .any(|one| one.offset == 0 && one.start == address)
}
