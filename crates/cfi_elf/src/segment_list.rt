//! The program headers of a file, in their order (System V ABI chapter 5, "Program Header").
ghost use Rattle.std.specs.Prelude.{◌≡◌, ⊤, slice_get};
ghost use Rattle.cfi_read_core.specs.ReaderCalls.{map_ok};
ghost use Rattle.cfi_elf.specs.ElfFiles.{file_view};
ghost use Rattle.cfi_elf.specs.SegmentLists.{segments, segments_left, program_headers};
ghost use Rattle.cfi_elf.specs.SegmentLists.{program_table, segment_bytes, segment_count};

use crate::bytes::entry;
use crate::constants::PN_XNUM;
use crate::elf_file::ElfFile;
use crate::error::ElfError;
use crate::program_header::{ProgramHeader, parse_program_header, program_header_size};
use std::alloc::AllocError;

/// An iterator over the program headers of a file, in their order.
#[derive(Copy, Debug)]
pub struct Segments<'input> {
    file: ElfFile<'input>,
    table: &'input [u8],
    index: usize,
}

impl Clone for Segments<'_> {
    ghost is_clone = { λ x y. y ≡ x };

    ghost is_infallible = { λ _. ⊤ };

    #[inline(always)]
    fn clone(&self) -> std::result::Result<Self, AllocError> {
        Ok(*self)
    }
}

impl<'input> Iterator for Segments<'input> {
    ghost use Rattle.std.specs.Iterator.{YieldsFirstBy, item_count};

    type Item = ProgramHeader;

    ghost next_gives = { YieldsFirstBy (λ header. header) segments_left };

    ghost remaining = { item_count segments_left };

    fn next(&mut self) -> Option<ProgramHeader> {
        // There are fewer headers than bytes.
        if self.index >= self.table.len() {
            return None;
        }
        let Some(header) = self.file.program_header_in(self.table, self.index) else {
            return None;
        };
        self.index += 1;
        Some(header)
    }
}

impl<'input> ElfFile<'input> {
    /// Iterates over the program headers, in their order; over none where the file has none.
    ///
    /// Fails with `ProgramEntrySize` or `ProgramTableOutOfBounds`, and with
    /// `SectionTableOutOfBounds` if their number is in section 0 and that goes past the file's end.
    /// Does not allocate (System V ABI chapter 5, "Program Header").
    #[tactic(auto, unfolding(crate::specs::SegmentLists::segments))]
    pub fn segments(&self) -> Result<Segments<'input>, ElfError>
        ensures { map_ok segments_left result ≡ segments (file_view self.now) }
    {
        let table = self.program_table()?;
        Ok(Segments {
            file: *self,
            table,
            index: 0,
        })
    }

    /// The program header at an index of a table, or `None` where it has fewer.
    pub(crate) fn program_header_in(
        &self,
        table: &'input [u8],
        index: usize,
    ) -> Option<ProgramHeader>
        ensures { result ≡ slice_get (program_headers (file_view self.now) table.now) index }
    {
        let class = self.identification.class;
        let bytes = entry(table, program_header_size(class), index)?;
        Some(parse_program_header(class, self.fields(bytes)))
    }

    /// The bytes of the program headers; none where the file has none.
    #[tactic(auto, unfolding(crate::specs::SegmentLists::program_table))]
    pub(crate) fn program_table(&self) -> Result<&'input [u8], ElfError>
        ensures { map_ok (λ table. table.now) result ≡ program_table (file_view self.now) }
    {
        let offset = self.header.offsets.e_phoff;
        if offset == 0 {
            return Ok(&[]);
        }
        let size = program_header_size(self.identification.class);
        if u64::from(self.header.sizes.e_phentsize) != size {
            return Err(ElfError::ProgramEntrySize(self.header.sizes.e_phentsize));
        }
        let count = self.segment_count()?;
        let error = ElfError::ProgramTableOutOfBounds;
        self.image.table_at(offset, u64::from(count), size, error)
    }

    /// Returns the number of segments, which section 0 has where the file header has no room for
    /// it. Fails where section 0 can't be read.
    #[tactic(auto, unfolding(crate::specs::SegmentLists::segment_count))]
    fn segment_count(&self) -> Result<u32, ElfError>
        ensures { result ≡ segment_count (file_view self.now) }
    {
        if self.header.sizes.e_phnum == PN_XNUM && self.header.offsets.e_shoff != 0 {
            return Ok(self.first_section_header()?.sh_info);
        }
        Ok(u32::from(self.header.sizes.e_phnum))
    }

    /// The bytes of a segment in the file.
    pub(crate) fn segment_bytes(&self, header: &ProgramHeader) -> Result<&'input [u8], ElfError>
        ensures { map_ok (λ bytes. bytes.now) result
            ≡ segment_bytes (file_view self.now) header.now }
    {
        let error = ElfError::SegmentOutOfBounds;
        self.image.bytes_at(header.p_offset, header.p_filesz, error)
    }
}
