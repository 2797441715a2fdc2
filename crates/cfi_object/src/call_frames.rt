//! The sections of call frames in an ELF file, with what the headers of the file say of each.
ghost use Rattle.std.specs.Prelude.{◌≡◌, option_map};
ghost use Rattle.cfi_read_core.specs.AddressSizes.{size_in_bytes};
ghost use Rattle.cfi_read_core.specs.ReaderCalls.{map_ok};
ghost use Rattle.gimli_cfi.specs.SectionSources.{source_view};
ghost use Rattle.cfi_elf.specs.ElfFiles.{address_size_of, class_of_file, file_view};
ghost use Rattle.cfi_elf.specs.Sections.{section_view};
ghost use Rattle.cfi_object.specs.CallFrames.{bases_at, data_base, debug_frame_of};
ghost use Rattle.cfi_object.specs.CallFrames.{eh_frame_address, eh_frame_at, eh_frame_of};
ghost use Rattle.cfi_object.specs.CallFrames.{frames_by_header, frames_by_segment};
ghost use Rattle.cfi_object.specs.CallFrames.{frames_named, named_frames};
ghost use Rattle.cfi_object.specs.CallFrames.{given_section};

use cfi_elf::{ElfError, ElfFile, Section};
use gimli_cfi::{
    AddressSize, BaseAddresses, EhFrameHdr, SectionBaseAddresses, SectionKind, SectionSource,
};

/// The section `.eh_frame`, with its address, the bases of text and of data, and its header.
/// Returns `None` where the file has no such section, or no bytes of it, as a file that was split
/// off for a debugger.
///
/// The section is found by its name. The base of text is then the address of `.text`, that of data
/// the address of `.got.plt`, or of `.got` where there is none, and the header is `.eh_frame_hdr`.
/// Where no section has the name, it is the loaded bytes to which the header in the segment of type
/// `PT_GNU_EH_FRAME` points, with no base of text or data; `None` where the header can't be parsed,
/// its pointer is indirect, or nothing is loaded there.
///
/// Fails as `ElfFile::section` for each of the sections, and as `ElfFile::eh_frame_hdr_segment` and
/// `ElfFile::loaded_bytes` where no section has the name. Does not allocate (LSB Core, "Exception
/// Frames").
#[tactic(auto, unfolding(crate::specs::CallFrames::eh_frame_of))]
pub fn eh_frame<'file>(file: &ElfFile<'file>) -> Result<Option<SectionSource<'file>>, ElfError>
    ensures { map_ok (option_map source_view) result ≡ eh_frame_of (file_view file.now) }
{
    match file.section(b".eh_frame")? {
        Some(section) => frames_named(file, section),
        None => frames_by_segment(file),
    }
}

/// `.eh_frame`, found by its name, if it has bytes in the file.
#[tactic(auto, unfolding(crate::specs::CallFrames::frames_named))]
fn frames_named<'file>(
    file: &ElfFile<'file>,
    section: Section<'file>,
) -> Result<Option<SectionSource<'file>>, ElfError>
    ensures { map_ok (option_map source_view) result
        ≡ frames_named (file_view file.now) (section_view section.entry) }
{
    if section.bytes.is_empty() {
        return Ok(None);
    }
    Ok(Some(named_frames(file, section)?))
}

/// The section `.debug_frame`, with no address and no bases: its pointers are absolute. Returns
/// `None` where the file has no such section.
///
/// Fails as `ElfFile::debug_frame`, so with `Compressed` for a compressed section. Does not
/// allocate (DWARF 5 section 6.4).
#[tactic(auto, unfolding(crate::specs::CallFrames::debug_frame_of))]
pub fn debug_frame<'file>(file: &ElfFile<'file>) -> Result<Option<SectionSource<'file>>, ElfError>
    ensures { map_ok (option_map source_view) result ≡ debug_frame_of (file_view file.now) }
{
    match file.debug_frame()? {
        Some(section) => Ok(Some(given_section(file, SectionKind::DebugFrame, section.bytes))),
        None => Ok(None),
    }
}

/// Returns a section of these bytes, as the file's header says of all. It has no bases and no
/// header. Does not allocate.
pub fn given_section<'file>(
    file: &ElfFile<'file>,
    kind: SectionKind,
    bytes: &'file [u8],
) -> SectionSource<'file>
    ensures { source_view result ≡ given_section (file_view file.now) kind bytes.now }
{
    SectionSource {
        kind,
        endian: file.endian(),
        address_size: address_size(file),
        vendor: file.vendor(),
        bases: bases_at(None, None, None, None),
        bytes,
        header: None,
    }
}

/// The size of an address.
fn address_size(file: &ElfFile<'_>) -> AddressSize
    ensures { size_in_bytes result ≡ address_size_of (class_of_file (file_view file.now)) }
{
    AddressSize::new(file.address_size())
}

/// Returns the bases of a section, and of its header, by the addresses of both. In the header, data
/// is relative to the header itself. Does not allocate.
pub fn bases_at(
    section: Option<u64>,
    text: Option<u64>,
    data_base: Option<u64>,
    header: Option<u64>,
) -> BaseAddresses
    ensures { result ≡ bases_at section text data_base header }
{
    BaseAddresses {
        eh_frame_hdr: SectionBaseAddresses {
            section: header,
            text,
            data_base: header,
        },
        eh_frame: SectionBaseAddresses {
            section,
            text,
            data_base,
        },
    }
}

/// `.eh_frame`, found by its name, with the sections beside it.
#[tactic(auto, unfolding(crate::specs::CallFrames::named_frames))]
fn named_frames<'file>(
    file: &ElfFile<'file>,
    section: Section<'file>,
) -> Result<SectionSource<'file>, ElfError>
    ensures { map_ok source_view result
        ≡ named_frames (file_view file.now) (section_view section.entry) }
{
    let text = file.section_address(b".text")?;
    let data_base = data_base(file)?;
    let header = file.section(b".eh_frame_hdr")?;
    Ok(eh_frame_at(file, section, text, data_base, header))
}

/// The base of data.
#[tactic(auto, unfolding(crate::specs::CallFrames::data_base))]
fn data_base(file: &ElfFile<'_>) -> Result<Option<u64>, ElfError>
    ensures { result ≡ data_base (file_view file.now) }
{
    match file.section_address(b".got.plt")? {
        Some(address) => Ok(Some(address)),
        None => file.section_address(b".got"),
    }
}

/// `.eh_frame`, at its address and with these bases, with its header if there is one.
fn eh_frame_at<'file>(
    file: &ElfFile<'file>,
    section: Section<'file>,
    text: Option<u64>,
    data_base: Option<u64>,
    header: Option<Section<'file>>,
) -> SectionSource<'file>
    ensures { source_view result ≡ eh_frame_at (file_view file.now) (section_view section.entry)
        text data_base (option_map section_view header.entry) }
{
    let frames = given_section(file, SectionKind::EhFrame, section.bytes);
    match header {
        Some(header) => SectionSource {
            bases: bases_at(Some(section.address), text, data_base, Some(header.address)),
            header: Some(header.bytes),
            ..frames
        },
        None => SectionSource {
            bases: bases_at(Some(section.address), text, data_base, None),
            ..frames
        },
    }
}

/// `.eh_frame`, found by the segment of its header.
#[tactic(auto, unfolding(crate::specs::CallFrames::frames_by_segment))]
fn frames_by_segment<'file>(file: &ElfFile<'file>) -> Result<Option<SectionSource<'file>>, ElfError>
    ensures { map_ok (option_map source_view) result ≡ frames_by_segment (file_view file.now) }
{
    match file.eh_frame_hdr_segment()? {
        Some(header) => frames_by_header(file, header),
        None => Ok(None),
    }
}

/// `.eh_frame`, which begins where its header points.
#[tactic(auto, unfolding(crate::specs::CallFrames::frames_by_header))]
fn frames_by_header<'file>(
    file: &ElfFile<'file>,
    header: Section<'file>,
) -> Result<Option<SectionSource<'file>>, ElfError>
    ensures { map_ok (option_map source_view) result
        ≡ frames_by_header (file_view file.now) (section_view header.entry) }
{
    let Some(address) = eh_frame_address(file, header) else {
        return Ok(None);
    };
    match file.loaded_bytes(address)? {
        Some(bytes) => {
            let section = Section { address, bytes };
            Ok(Some(eh_frame_at(file, section, None, None, Some(header))))
        }
        None => Ok(None),
    }
}

/// The address to which a header points. `None` where it can't be parsed, or its pointer is
/// indirect.
fn eh_frame_address(file: &ElfFile<'_>, header: Section<'_>) -> Option<u64>
    ensures { result ≡ eh_frame_address (file_view file.now) (section_view header.entry) }
{
    let bases = bases_at(None, None, None, Some(header.address));
    let section = EhFrameHdr::new(header.bytes, file.endian());
    let parsed = section.parse(&bases, address_size(file).bytes()).ok()?;
    parsed.eh_frame_ptr().direct().ok()
}
