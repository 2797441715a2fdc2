//! A module by the program headers of its file, as a loader has mapped it (System V ABI chapter 5,
//! "Program Loading"; LSB Core, "The .eh_frame_hdr section").
ghost use Rattle.std.specs.Prelude.{◌≡◌};
ghost use Rattle.cfi_read_core.specs.Addresses.{IsAddressSize};
ghost use Rattle.cfi_read_core.specs.ReaderCalls.{map_ok};
ghost use Rattle.cfi_c.specs.LoadedImages.{IsModuleMade, bases_of, image_module, image_module_view};
ghost use Rattle.cfi_c.specs.LoadedImages.{image_status, placed_header, placed_in, placed_section};
ghost use Rattle.cfi_c.specs.LoadedImages.{placed_view, pointed_to, refused_by, sized_module};
ghost use Rattle.cfi_c.specs.PassedMemories.{bytes_in};

use crate::memory::{CfiWindow, bytes_in};
use crate::module::CfiModule;
use crate::program_header::{CfiProgramHeader, header_segment, range_of, segment_at};
use crate::refusal::{NO_HEADER, NO_SECTION, NO_SEGMENTS, NOT_IN_MEMORY, number_of};
use crate::section::{CfiBases, bases_of as section_bases, endian_of, is_sized};
use gimli_cfi::{EhFrameHdr, Error};

/// Why no module is found.
#[derive(Clone, Copy)]
pub enum ImageError {
    /// No segment is loaded.
    NoSegments,
    /// There is no segment of `.eh_frame_hdr`.
    NoHeader,
    /// The header points to no segment that is loaded.
    NoSection,
    /// No window has all bytes of the header or of the section.
    NotInMemory,
    /// The header can't be read, or an address has no such size.
    Refused(Error),
}

/// Bytes at an address of the process.
#[derive(Clone, Copy)]
pub struct Placed<'a> {
    pub address: u64,
    pub bytes: &'a [u8],
}

/// Writes the module of a file that is loaded, by its program headers: its code from the first
/// address of a segment to the last; `.eh_frame_hdr` by the segment of type `PT_GNU_EH_FRAME`; and
/// `.eh_frame` from where that points to the end of the file's bytes of the segment.
///
/// `bias` is how far the file is moved. Both sections are in the windows, of whose other bytes none
/// is read. Of the bases those of text and data, the byte order, the vendor and the address size
/// are the module's.
///
/// Returns 0; `NO_SEGMENTS`, `NO_HEADER`, `NO_SECTION` or `NOT_IN_MEMORY`; the number of an error
/// of the header, or of `UnsupportedAddressSize`. After an error nothing is written. Does not
/// allocate.
#[unsafe(no_mangle)]
pub extern "C" fn cfi_module_of_headers<'a>(
    headers: &[CfiProgramHeader],
    bias: u64,
    bases: &CfiBases,
    windows: &[CfiWindow<'a>],
    loaded: &mut CfiModule<'a>,
) -> i32
    ensures { IsModuleMade (image_module bases.now windows.now bias headers.now)
        (image_module_view loaded.old) (image_module_view loaded.new) result }
{
    match module_of(bases, windows, bias, headers) {
        Ok(found) => {
            *loaded = found;
            0
        }
        Err(error) => status_of(error),
    }
}

/// The status of an error.
fn status_of(error: ImageError) -> i32
    ensures { result ≡ image_status error }
{
    match error {
        ImageError::NoSegments => NO_SEGMENTS,
        ImageError::NoHeader => NO_HEADER,
        ImageError::NoSection => NO_SECTION,
        ImageError::NotInMemory => NOT_IN_MEMORY,
        ImageError::Refused(error) => number_of(error),
    }
}

/// The module, with these bases of text and data.
fn module_of<'a>(
    bases: &CfiBases,
    windows: &[CfiWindow<'a>],
    bias: u64,
    headers: &[CfiProgramHeader],
) -> Result<CfiModule<'a>, ImageError>
    ensures { map_ok image_module_view result
        ≡ image_module bases.now windows.now bias headers.now }
{
    if is_sized(bases.address_size) {
        return sized_module(bases, windows, bias, headers);
    }
    Err(ImageError::Refused(Error::UnsupportedAddressSize(bases.address_size)))
}

/// The same, if the size of an address is one.
#[tactic(auto, unfolding(crate::specs::LoadedImages::sized_module))]
fn sized_module<'a>(
    bases: &CfiBases,
    windows: &[CfiWindow<'a>],
    bias: u64,
    headers: &[CfiProgramHeader],
) -> Result<CfiModule<'a>, ImageError>
    requires { IsAddressSize bases.now.address_size }
    ensures { map_ok image_module_view result
        ≡ sized_module bases.now windows.now bias headers.now }
{
    let Some(range) = range_of(headers, bias) else {
        return Err(ImageError::NoSegments);
    };
    let header = header_in(windows, bias, headers)?;
    let address = pointed_to(bases, header)?;
    let section = section_in(windows, bias, headers, address)?;
    Ok(CfiModule {
        start: range.start,
        end: range.end,
        section: section.bytes,
        header: header.bytes,
        bases: bases_of(bases, section.address, header.address),
    })
}

/// The bases of a module whose sections are at these addresses.
fn bases_of(given: &CfiBases, section: u64, header: u64) -> CfiBases
    ensures { result ≡ bases_of given.now section header }
{
    CfiBases {
        section,
        header,
        text: given.text,
        data_base: given.data_base,
        big_endian: given.big_endian,
        debug_frame: false,
        aarch64: given.aarch64,
        address_size: given.address_size,
    }
}

/// The bytes of `.eh_frame_hdr`, where they are loaded.
#[tactic(auto, unfolding(crate::specs::LoadedImages::placed_header))]
fn header_in<'a>(
    windows: &[CfiWindow<'a>],
    bias: u64,
    headers: &[CfiProgramHeader],
) -> Result<Placed<'a>, ImageError>
    ensures { map_ok placed_view result ≡ placed_header windows.now bias headers.now }
{
    let Some(segment) = header_segment(headers) else {
        return Err(ImageError::NoHeader);
    };
    placed_in(
        windows,
        segment.p_vaddr.wrapping_add(bias),
        segment.p_filesz,
    )
}

/// Where the header points.
#[tactic(auto, unfolding(crate::specs::LoadedImages::pointed_to))]
fn pointed_to(bases: &CfiBases, header: Placed<'_>) -> Result<u64, ImageError>
    requires { IsAddressSize bases.now.address_size }
    ensures { result ≡ pointed_to bases.now (placed_view header.entry) }
{
    let at = bases_of(bases, 0, header.address);
    let section = EhFrameHdr::new(header.bytes, endian_of(bases));
    match section.parse(&section_bases(&at), bases.address_size) {
        Ok(parsed) => refused_by(parsed.eh_frame_ptr().direct()),
        Err(error) => Err(ImageError::Refused(error)),
    }
}

/// An error of the header as one of images.
fn refused_by(found: Result<u64, Error>) -> Result<u64, ImageError>
    ensures { result ≡ refused_by found }
{
    match found {
        Ok(address) => Ok(address),
        Err(error) => Err(ImageError::Refused(error)),
    }
}

/// The bytes from an address of the process to the end of the file's bytes of its segment, where
/// they are loaded.
#[tactic(auto, unfolding(crate::specs::LoadedImages::placed_section))]
fn section_in<'a>(
    windows: &[CfiWindow<'a>],
    bias: u64,
    headers: &[CfiProgramHeader],
    address: u64,
) -> Result<Placed<'a>, ImageError>
    ensures { map_ok placed_view result ≡ placed_section windows.now bias headers.now address }
{
    let place = address.wrapping_sub(bias);
    let Some(segment) = segment_at(headers, place) else {
        return Err(ImageError::NoSection);
    };
    placed_in(
        windows,
        address,
        segment.p_filesz - (place - segment.p_vaddr),
    )
}

/// So many bytes at an address.
fn placed_in<'a>(
    windows: &[CfiWindow<'a>],
    address: u64,
    size: u64,
) -> Result<Placed<'a>, ImageError>
    ensures { map_ok placed_view result ≡ placed_in windows.now address size }
{
    match bytes_in(windows, address, size) {
        Some(bytes) => Ok(Placed { address, bytes }),
        None => Err(ImageError::NotInMemory),
    }
}
