//! Program headers as C passes them (System V ABI chapter 5, "Program Header").
ghost use Rattle.std.specs.Prelude.{◌≡◌, IfSome, find, true};
ghost use Rattle.cfi_c.specs.LoadedImages.{IsRangeMade, end_of_segment, has_file_byte, highest};
ghost use Rattle.cfi_c.specs.LoadedImages.{is_type, lowest, range_of};

use crate::refusal::NO_SEGMENTS;
use cfi_elf::constants::{PT_GNU_EH_FRAME, PT_LOAD};

/// A program header of a file of 64 bits: what a segment is, where it is in the file, and where it
/// is loaded.
#[repr(C)]
#[derive(Clone, Copy)]
pub struct CfiProgramHeader {
    pub p_type: u32,
    pub p_flags: u32,
    pub p_offset: u64,
    pub p_vaddr: u64,
    pub p_paddr: u64,
    pub p_filesz: u64,
    pub p_memsz: u64,
    pub p_align: u64,
}

/// Some addresses of a process.
#[repr(C)]
#[derive(Clone, Copy)]
pub struct CfiRange {
    /// The first address, and the first after them.
    pub start: u64,
    pub end: u64,
}

/// Writes the addresses that the segments of a file take in a process: from the first one of a
/// segment of type `PT_LOAD` to the last, each plus the bias, modulo 2^64.
///
/// Returns 0, or `NO_SEGMENTS` if there is no such segment, and then writes nothing. Does not
/// allocate.
#[unsafe(no_mangle)]
pub extern "C" fn cfi_range_of_headers(
    headers: &[CfiProgramHeader],
    bias: u64,
    range: &mut CfiRange,
) -> i32
    ensures { IsRangeMade (range_of bias headers.now) range.old range.new result }
{
    match range_of(headers, bias) {
        Some(found) => {
            *range = found;
            0
        }
        None => NO_SEGMENTS,
    }
}

/// The addresses of the segments, or `None` if none is loaded.
pub fn range_of(headers: &[CfiProgramHeader], bias: u64) -> Option<CfiRange>
    ensures { result ≡ range_of bias headers.now }
{
    match first_load(headers) {
        Some(_load) => Some(CfiRange {
            start: lowest(headers).wrapping_add(bias),
            end: highest(headers).wrapping_add(bias),
        }),
        None => None,
    }
}

/// The lowest address of a segment that is loaded.
fn lowest(headers: &[CfiProgramHeader]) -> u64
    ensures { result ≡ lowest headers.now }
{
    let mut least = u64::MAX;
    for header in headers {
        if header.p_type == PT_LOAD {
            least = least.min(header.p_vaddr);
        }
    }
    least
}

/// The first address behind all segments that are loaded.
fn highest(headers: &[CfiProgramHeader]) -> u64
    ensures { result ≡ highest headers.now }
{
    let mut greatest = 0;
    for header in headers {
        if header.p_type == PT_LOAD {
            greatest = greatest.max(end_of_segment(header));
        }
    }
    greatest
}

/// Where the segment ends, if there are so many addresses.
fn end_of_segment(header: &CfiProgramHeader) -> u64
    ensures { result ≡ end_of_segment header.now }
{
    header.p_vaddr.saturating_add(header.p_memsz)
}

/// The first segment that is loaded.
fn first_load(headers: &[CfiProgramHeader]) -> Option<CfiProgramHeader>
    ensures { result ≡ find (is_type 1) headers.now }
{
    for header in headers {
        if header.p_type == PT_LOAD {
            return Some(*header);
        }
    }
    None
}

/// The segment of `.eh_frame_hdr`.
pub fn header_segment(headers: &[CfiProgramHeader]) -> Option<CfiProgramHeader>
    ensures { result ≡ find (is_type 0x6474e550) headers.now }
{
    for header in headers {
        if header.p_type == PT_GNU_EH_FRAME {
            return Some(*header);
        }
    }
    None
}

/// The first loaded segment that has a byte of the file at this address of the file.
pub fn segment_at(headers: &[CfiProgramHeader], place: u64) -> Option<CfiProgramHeader>
    ensures found { result ≡ find (has_file_byte place) headers.now }
    ensures has { IfSome result (λ header. has_file_byte place header ≡ true) }
{
    for header in headers {
        if has_address(header, place) {
            return Some(*header);
        }
    }
    None
}

/// Whether the segment is loaded, and has a byte of the file at the address.
fn has_address(header: &CfiProgramHeader, place: u64) -> bool
    ensures { result ≡ has_file_byte place header.now }
{
    header.p_type == PT_LOAD && header.p_vaddr <= place && place - header.p_vaddr < header.p_filesz
}
