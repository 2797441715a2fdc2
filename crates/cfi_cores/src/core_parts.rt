//! The reading of those parts of a core file that its stacks need.
ghost use Rattle.std.specs.Prelude.{◌≡◌, IfOk};
ghost use Rattle.cfi_object.specs.FileParts.{AreOfInput, image_of};

use crate::core_file::{core_elf, segments_of_elf};
use crate::core_heads::HEADER_SIZE;
use crate::core_notes::note_ranges;
use crate::needed_ranges::{Range, ranges_of};
use cfi_elf::constants::PT_NOTE;
use cfi_elf::{ElfFile, Segments};
use cfi_object::{FileInput, FileParts};
use cfi_text::reading::InputError;
use std::alloc::Global;

/// How many bytes are read at first: mostly they have the headers and the notes.
const FIRST_SIZE: u64 = 131_072;

/// Reads the parts of a core file that are needed for its threads, what is mapped and the stacks:
/// its beginning with all headers, the notes, which may lie after the memory, the segments where
/// the first byte of a file is mapped, and of each thread's stack what lies from its stack pointer
/// on.
///
/// Fails with `Unreadable` where the length can't be told or a read fails, and with `OutOfMemory`.
/// Allocates for the parts.
pub fn read_core_parts<I: FileInput>(alloc: Global, input: &mut I) -> Result<FileParts, InputError>
    ensures read { IfOk result (λ parts. AreOfInput (I.bytes input.old) (image_of parts)) }
    ensures same { I.bytes input.new ≡ I.bytes input.old }
{
    let parts = FileParts::begin(alloc, FIRST_SIZE, input)?;
    // The beginning says where the headers end, and these where the notes are.
    let parts = up_to_notes(alloc, parts, input)?;
    let parts = up_to_notes(alloc, parts, input)?;
    let notes = note_ranges(alloc, parts.image())?;
    let parts = with_ranges(alloc, parts, notes.as_slice(), input)?;
    let ranges = ranges_of(alloc, parts.image())?;
    with_ranges(alloc, parts, ranges.as_slice(), input)
}

/// Reads these ranges too, each if none of its bytes was read.
fn with_ranges<I: FileInput>(
    alloc: Global,
    parts: FileParts,
    ranges: &[Range],
    input: &mut I,
) -> Result<FileParts, InputError>
    requires { AreOfInput (I.bytes input.old) (image_of parts) }
    ensures read { IfOk result (λ parts. AreOfInput (I.bytes input.old) (image_of parts)) }
    ensures same { I.bytes input.new ≡ I.bytes input.old }
{
    let mut parts = parts;
    for range in ranges {
        parts = parts.with_free(alloc, range.start, range.end, input)?;
    }
    Ok(parts)
}

/// Reads the beginning again where the program headers, or notes that begin in it, end after it.
fn up_to_notes<I: FileInput>(
    alloc: Global,
    parts: FileParts,
    input: &mut I,
) -> Result<FileParts, InputError>
    requires { AreOfInput (I.bytes input.old) (image_of parts) }
    ensures read { IfOk result (λ parts. AreOfInput (I.bytes input.old) (image_of parts)) }
    ensures same { I.bytes input.new ≡ I.bytes input.old }
{
    let image = parts.image();
    let end = end_of_heads(image.first);
    if (image.first.len() as u64) < end && end <= image.length {
        FileParts::begin(alloc, end, input)
    } else {
        Ok(parts)
    }
}

/// Where the program headers end, or, where all headers are among these bytes, the notes that begin
/// among them; 0 for bytes that are the beginning of no core file.
fn end_of_heads(first: &[u8]) -> u64 {
    if first.len() < HEADER_SIZE {
        return 0;
    }
    let Ok(file) = core_elf(first) else {
        return 0;
    };
    match segments_of_elf(&file) {
        Ok(headers) => end_of_notes(headers, first.len() as u64),
        Err(_) => end_of_headers(&file),
    }
}

/// Where the last notes end of those that begin before an offset.
fn end_of_notes(headers: Segments<'_>, reached: u64) -> u64 {
    let mut end = 0u64;
    for header in headers {
        if header.p_type == PT_NOTE && header.p_offset < reached {
            end = end.max(header.p_offset.saturating_add(header.p_filesz));
        }
    }
    end
}

/// Where the program headers end.
fn end_of_headers(file: &ElfFile<'_>) -> u64 {
    let header = file.header();
    let size = u64::from(header.sizes.e_phnum) * u64::from(header.sizes.e_phentsize);
    header.offsets.e_phoff.saturating_add(size)
}
