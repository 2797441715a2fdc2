//! The notes of a core file of which parts were read.
ghost use Rattle.std.specs.Prelude.{◌≡◌, ℕ, IfOk, IfSome, List, true};
ghost use Rattle.cfi_elf.specs.Images.{IsImageOf, image_view};
ghost use Rattle.cfi_elf.specs.SegmentLists.{segments_left};
ghost use Rattle.cfi_cores.specs.Contents.{contents_of_header, contents_of_headers};
ghost use Rattle.cfi_cores.specs.Contents.{contents_view, then_contents};

use crate::contents::Contents;
use crate::core_file::{core_elf, segments_of_elf};
use crate::needed_ranges::{Range, end_of};
use crate::partial_cores::bytes_in;
use cfi_elf::constants::PT_NOTE;
use cfi_elf::{Image, ProgramHeader, Segments};
use cfi_processes::SampleMachine;
use cfi_text::reading::InputError;
use std::alloc::{AllocError, Global};

/// Where notes are that don't begin among the first bytes, by the headers; none where these weren't
/// read.
pub(crate) fn note_ranges(alloc: Global, image: Image<'_>) -> Result<Vec<Range>, InputError> {
    match ranges_in(alloc, image) {
        Ok(ranges) => Ok(ranges),
        Err(_) => Err(InputError::OutOfMemory),
    }
}

/// The same. Fails where memory is refused.
fn ranges_in(alloc: Global, image: Image<'_>) -> Result<Vec<Range>, AllocError> {
    let Ok(file) = core_elf(image.first) else {
        return Ok(Vec::new(alloc));
    };
    match segments_of_elf(&file) {
        Ok(headers) => ranges_by(alloc, image, headers),
        Err(_) => Ok(Vec::new(alloc)),
    }
}

/// The same by the headers.
fn ranges_by(
    alloc: Global,
    image: Image<'_>,
    headers: Segments<'_>,
) -> Result<Vec<Range>, AllocError> {
    let mut ranges = Vec::new(alloc);
    let first = image.first.len() as u64;
    for header in headers {
        if header.p_type == PT_NOTE && first <= header.p_offset {
            ranges.push(Range {
                start: header.p_offset,
                end: end_of(image.length, &header),
            })?;
        }
    }
    Ok(ranges)
}

/// What the notes of a file's segments say, in the order of their headers; `None` where not all of
/// them were read. Fails where memory is refused.
pub(crate) fn read_noted<'run>(
    alloc: Global,
    machine: SampleMachine,
    image: Image<'run>,
    headers: Segments<'run>,
) -> Result<Option<Contents<'run>>, AllocError>
    ensures { (bytes : List ℕ) → IsImageOf (image_view image.entry) bytes
        → IfOk result (λ found. IfSome found (λ contents. contents_view contents
        ≡ contents_of_headers machine bytes (segments_left headers.entry))) }
{
    let mut contents = Contents::new(alloc);
    for header in headers {
        if !read_noted_header(&mut contents, alloc, machine, image, &header)? {
            return Ok(None);
        }
    }
    Ok(Some(contents))
}

/// Reads the notes of a segment too, if it has notes, and returns whether all of them were read.
/// Fails where memory is refused.
fn read_noted_header<'run>(
    contents: &mut Contents<'run>,
    alloc: Global,
    machine: SampleMachine,
    image: Image<'run>,
    header: &ProgramHeader,
) -> Result<bool, AllocError>
    ensures { (bytes : List ℕ) → IsImageOf (image_view image.entry) bytes
        → IfOk result (λ whole. whole ≡ true → contents_view contents.new
        ≡ then_contents (contents_view contents.old)
        (contents_of_header machine bytes header.now)) }
{
    if header.p_type != PT_NOTE {
        return Ok(true);
    }
    match bytes_in(image, header) {
        Some(bytes) => {
            contents.read_part(alloc, machine, bytes, header.p_filesz)?;
            Ok(true)
        }
        None => Ok(false),
    }
}
