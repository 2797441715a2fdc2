//! The part of a thread's stack that was read, from a little below its stack pointer on.
ghost use Rattle.std.specs.Prelude.{◌≡◌, ◌≤◌, ℕ, List, IfSome, map, take};
ghost use Rattle.std.specs.List.Sorted.{IsNonDecreasingBy};
ghost use Rattle.cfi_elf.specs.Images.{ArePartsOf, IsImageOf, IsPartOf, image_view, part_view};
ghost use Rattle.cfi_elf.specs.Images.{parts_view};
ghost use Rattle.cfi_cores.specs.CoreSegments.{segment_view};
ghost use Rattle.cfi_cores.specs.PartialCores.{segment_at};
ghost use Rattle.cfi_cores.specs.StackWindows.{AreFrom, IsStackOf, IsSegmentWindow, start_from};

use crate::segments::CoreSegment;
use cfi_elf::bytes::bytes_from;
use cfi_elf::{FilePart, Image, ProgramHeader};

/// How many bytes below the stack pointer a function of x86-64 may use.
const RED_ZONE: u64 = 128;

/// The bytes of a thread's stack that were read, from a little below its stack pointer on, as a
/// segment; `None` where they weren't read.
///
/// They are those of the last segment that begins at or below the stack pointer, and end where the
/// next one begins. Does not allocate.
pub fn stack_at<'run>(
    image: Image<'run>,
    places: &[ProgramHeader],
    pointer: u64,
) -> Option<CoreSegment<'run>>
    requires { IsNonDecreasingBy (λ (h : ProgramHeader). h.p_vaddr) places.now }
    ensures { (bytes : List ℕ) → IsImageOf (image_view image.entry) bytes
        → IfSome result (λ window. IsStackOf (map (segment_at bytes) places.now)
        (segment_view window)) }
{
    let count = places.partition_point(|place| place.p_vaddr <= pointer);
    if count == 0 {
        return None;
    }
    let place = &places[count - 1];
    let next = start_from(places, count);
    stack_in(image, place, window_start(place, pointer), next)
}

/// How far from the beginning of its segment what may be read of a stack begins.
pub(crate) fn window_start(place: &ProgramHeader, pointer: u64) -> u64 {
    pointer
        .saturating_sub(place.p_vaddr)
        .saturating_sub(RED_ZONE)
}

/// Where the segment with this number begins; the greatest address where there is none.
fn start_from(places: &[ProgramHeader], number: usize) -> u64
    ensures { result ≡ start_from places.now number }
{
    if number < places.len() {
        places[number].p_vaddr
    } else {
        u64::MAX
    }
}

/// The bytes of a segment that were read from a distance on, before the address at which the next
/// one begins.
fn stack_in<'run>(
    image: Image<'run>,
    place: &ProgramHeader,
    distance: u64,
    next: u64,
) -> Option<CoreSegment<'run>>
    ensures window { (bytes : List ℕ) → IsImageOf (image_view image.entry) bytes
        → IfSome result (λ window. IsSegmentWindow (segment_at bytes place.now) next
        (segment_view window)) }
    ensures bound { next ≤ 18446744073709551615 }
{
    let start = place.p_vaddr.checked_add(distance)?;
    let offset = place.p_offset.checked_add(distance)?;
    let size = place.p_filesz.checked_sub(distance)?;
    let room = next.checked_sub(start)?;
    let found = rest_at(image, offset)?;
    Some(CoreSegment {
        start,
        bytes: at_most(size.min(room), found),
        is_executable: false,
    })
}

/// The first bytes, at most so many.
fn at_most(size: u64, bytes: &[u8]) -> &[u8]
    ensures { result.now ≡ take size bytes.now }
{
    if size < bytes.len() as u64 {
        &bytes[..size as usize]
    } else {
        bytes
    }
}

/// The bytes from an offset on, as far as the part goes that has the first of them; `None` where no
/// part begins there or has it.
fn rest_at<'run>(image: Image<'run>, offset: u64) -> Option<&'run [u8]>
    ensures { (bytes : List ℕ) → IsImageOf (image_view image.entry) bytes
        → IfSome result (λ found. AreFrom bytes offset found.now) }
{
    if offset < image.first.len() as u64 {
        return Some(bytes_from(image.first, offset));
    }
    rest_among(image.parts, offset)
}

/// The same by the parts after the first.
fn rest_among(parts: &[FilePart], offset: u64) -> Option<&[u8]>
    ensures { (bytes : List ℕ) → ArePartsOf bytes (parts_view parts.now)
        → IfSome result (λ found. AreFrom bytes offset found.now) }
{
    for read in parts {
        if let Some(found) = rest_in(read, offset) {
            return Some(found);
        }
    }
    None
}

/// The same by this part.
fn rest_in(read: &FilePart, offset: u64) -> Option<&[u8]>
    ensures { (bytes : List ℕ) → IsPartOf bytes (part_view read.now)
        → IfSome result (λ found. AreFrom bytes offset found.now) }
{
    if offset < read.offset || read.bytes.len() as u64 <= offset - read.offset {
        return None;
    }
    Some(bytes_from(read.bytes.as_slice(), offset - read.offset))
}
