//! What a file has loaded at an address, and where its bytes are loaded, by its program headers
//! (System V ABI chapter 5, "Program Header", "Program Loading").
ghost use Rattle.std.specs.Prelude.{◌≡◌, find, option_map};
ghost use Rattle.cfi_read_core.specs.ReaderCalls.{map_ok};
ghost use Rattle.cfi_elf.specs.ElfFiles.{file_view};
ghost use Rattle.cfi_elf.specs.Sections.{section_view};
ghost use Rattle.cfi_elf.specs.Segments.{address_of_offset, eh_frame_hdr_segment, is_code_at};
ghost use Rattle.cfi_elf.specs.Segments.{is_loaded_at, is_wanted, loaded_address, loaded_bytes};
ghost use Rattle.cfi_elf.specs.Segments.{page_offset, wanted_segment};
ghost use Rattle.cfi_elf.specs.SegmentLists.{program_headers};

use crate::bytes::bytes_from;
use crate::constants::{PF_X, PT_GNU_EH_FRAME, PT_LOAD};
use crate::elf_file::ElfFile;
use crate::error::ElfError;
use crate::program_header::ProgramHeader;
use crate::sections::Section;

/// The bytes of a page, by which files are mapped into memory.
const PAGE_SIZE: u64 = 4096;

/// Which segment is looked for.
#[derive(Clone, Copy)]
enum Wanted {
    /// One of this `p_type`.
    OfType(u32),
    /// One that is loaded, and whose bytes in the file have this address.
    LoadedAt(u64),
    /// One that is loaded and executable, with which the byte at this offset is mapped.
    CodeAt(u64),
}

impl<'input> ElfFile<'input> {
    /// The segment of type `PT_GNU_EH_FRAME`: the address and the bytes of `.eh_frame_hdr`, which
    /// need no section headers. Returns `None` where the file has no such segment.
    ///
    /// Fails with `ProgramEntrySize` or `ProgramTableOutOfBounds` for the program headers, with
    /// `SectionTableOutOfBounds` if their number is in section 0 and that goes past the file's end,
    /// and with `SegmentOutOfBounds`. Does not allocate (LSB Core, "Program Header").
    #[tactic(auto, unfolding(crate::specs::Segments::eh_frame_hdr_segment))]
    pub fn eh_frame_hdr_segment(&self) -> Result<Option<Section<'input>>, ElfError>
        ensures { map_ok (option_map section_view) result
            ≡ eh_frame_hdr_segment (file_view self.now) }
    {
        let Some(header) = self.wanted_segment(Wanted::OfType(PT_GNU_EH_FRAME))? else {
            return Ok(None);
        };
        let bytes = self.segment_bytes(&header)?;
        Ok(Some(Section {
            address: header.p_vaddr,
            bytes,
        }))
    }

    /// The file's bytes that are loaded from this address on, up to the end of the file's bytes of
    /// the first `PT_LOAD` segment that has the address. Returns `None` where no segment has it.
    ///
    /// So `.eh_frame` is found without section headers: it begins where the pointer of
    /// `.eh_frame_hdr` says. The bytes go on to the end of the segment, so what follows `.eh_frame`
    /// there comes with it.
    ///
    /// Fails as `eh_frame_hdr_segment`. Does not allocate (System V ABI chapter 5).
    #[tactic(auto, unfolding(crate::specs::Segments::loaded_bytes))]
    pub fn loaded_bytes(&self, address: u64) -> Result<Option<&'input [u8]>, ElfError>
        ensures { map_ok (option_map (λ bytes. bytes.now)) result
            ≡ loaded_bytes (file_view self.now) address }
    {
        let Some(header) = self.wanted_segment(Wanted::LoadedAt(address))? else {
            return Ok(None);
        };
        let bytes = self.segment_bytes(&header)?;
        Ok(Some(bytes_from(bytes, address.saturating_sub(header.p_vaddr))))
    }

    /// The address at which the file's byte at this offset is loaded, by the first executable
    /// `PT_LOAD` segment that has the offset. Returns `None` where no such segment has it.
    ///
    /// Files are mapped by whole pages, so a segment has the bytes from the beginning of the page
    /// of 4 KiB that its own begin in. The address is the offset plus the difference of the
    /// segment's address and offset, modulo 2^64. What the file has at an address is loaded at this
    /// address plus a bias, which is one for all segments.
    ///
    /// Fails as `eh_frame_hdr_segment`, but not with `SegmentOutOfBounds`: the bytes are not read.
    /// Does not allocate (System V ABI chapter 5, "Program Loading").
    #[tactic(auto, unfolding(crate::specs::Segments::address_of_offset))]
    pub fn address_of_offset(&self, offset: u64) -> Result<Option<u64>, ElfError>
        ensures { result ≡ address_of_offset (file_view self.now) offset }
    {
        match self.wanted_segment(Wanted::CodeAt(offset))? {
            Some(header) => Ok(Some(loaded_address(&header, offset))),
            None => Ok(None),
        }
    }

    /// The first program header that is wanted.
    #[tactic(auto, unfolding(crate::specs::Segments::wanted_segment))]
    fn wanted_segment(&self, wanted: Wanted) -> Result<Option<ProgramHeader>, ElfError>
        ensures { result ≡ wanted_segment (file_view self.now) wanted }
    {
        let table = self.program_table()?;
        Ok(self.first_wanted(table, wanted))
    }

    /// The first header of a table that is wanted.
    fn first_wanted(&self, table: &'input [u8], wanted: Wanted) -> Option<ProgramHeader>
        ensures { result ≡ find (is_wanted wanted)
            (program_headers (file_view self.now) table.now) }
    {
        for index in 0..table.len() {
            let Some(header) = self.program_header_in(table, index) else {
                return None;
            };
            if is_wanted(&header, wanted) {
                return Some(header);
            }
        }
        None
    }
}

/// Whether this segment is looked for.
fn is_wanted(header: &ProgramHeader, wanted: Wanted) -> bool
    ensures { result ≡ is_wanted wanted header.now }
{
    match wanted {
        Wanted::OfType(p_type) => header.p_type == p_type,
        Wanted::LoadedAt(address) => is_loaded_at(header, address),
        Wanted::CodeAt(offset) => is_code_at(header, offset),
    }
}

/// Returns whether a byte of the file is loaded at the address with this segment.
fn is_loaded_at(header: &ProgramHeader, address: u64) -> bool
    ensures { result ≡ is_loaded_at address header.now }
{
    header.p_type == PT_LOAD
        && header.p_vaddr <= address
        && address - header.p_vaddr < header.p_filesz
}

/// Whether the byte at an offset is mapped with this segment, as code.
fn is_code_at(header: &ProgramHeader, offset: u64) -> bool
    ensures { result ≡ is_code_at offset header.now }
{
    header.p_type == PT_LOAD
        && header.p_flags & PF_X != 0
        && page_offset(header) <= offset
        && (offset < header.p_offset || offset - header.p_offset < header.p_filesz)
}

/// The offset of the page that a segment begins in.
fn page_offset(header: &ProgramHeader) -> u64
    ensures { result ≡ page_offset header.now }
{
    header.p_offset - header.p_offset % PAGE_SIZE
}

/// The address at which the byte at an offset is loaded, with this segment.
fn loaded_address(header: &ProgramHeader, offset: u64) -> u64
    ensures { result ≡ loaded_address offset header.now }
{
    header
        .p_vaddr
        .wrapping_sub(header.p_offset)
        .wrapping_add(offset)
}
