//! The section header table (System V ABI chapter 4, "Section Header").
ghost use Rattle.std.specs.Prelude.{◌≡◌, slice_get};
ghost use Rattle.cfi_read_core.specs.ReaderCalls.{map_ok};
ghost use Rattle.cfi_elf.specs.ElfFiles.{file_view};
ghost use Rattle.cfi_elf.specs.SectionTables.{first_section_header, section_count, section_headers};
ghost use Rattle.cfi_elf.specs.SectionTables.{section_table};

use crate::bytes::entry;
use crate::elf_file::ElfFile;
use crate::error::ElfError;
use crate::section_header::{SectionHeader, parse_section_header, section_header_size};

impl<'input> ElfFile<'input> {
    /// The section header at an index of a table, or `None` where it has fewer.
    pub(crate) fn section_header_in(
        &self,
        table: &'input [u8],
        index: usize,
    ) -> Option<SectionHeader>
        ensures { result ≡ slice_get (section_headers (file_view self.now) table.now) index }
    {
        let class = self.identification.class;
        let bytes = entry(table, section_header_size(class), index)?;
        Some(parse_section_header(class, self.fields(bytes)))
    }

    /// The bytes of the section headers; none where the file has none.
    #[tactic(auto, unfolding(crate::specs::SectionTables::section_table))]
    pub(crate) fn section_table(&self) -> Result<&'input [u8], ElfError>
        ensures { map_ok (λ table. table.now) result ≡ section_table (file_view self.now) }
    {
        let offset = self.header.offsets.e_shoff;
        if offset == 0 {
            return Ok(&[]);
        }
        let size = section_header_size(self.identification.class);
        if u64::from(self.header.sizes.e_shentsize) != size {
            return Err(ElfError::SectionEntrySize(self.header.sizes.e_shentsize));
        }
        let count = self.section_count()?;
        let error = ElfError::SectionTableOutOfBounds;
        self.image.table_at(offset, count, size, error)
    }

    /// Returns the number of sections, which section 0 has where the file header says 0. Fails
    /// where section 0 can't be read.
    #[tactic(auto, unfolding(crate::specs::SectionTables::section_count))]
    fn section_count(&self) -> Result<u64, ElfError>
        ensures { result ≡ section_count (file_view self.now) }
    {
        if self.header.sizes.e_shnum == 0 {
            return Ok(self.first_section_header()?.sh_size);
        }
        Ok(u64::from(self.header.sizes.e_shnum))
    }

    /// Section 0, which has the numbers that the file header has no room for.
    #[tactic(auto, unfolding(crate::specs::SectionTables::first_section_header))]
    pub(crate) fn first_section_header(&self) -> Result<SectionHeader, ElfError>
        ensures { result ≡ first_section_header (file_view self.now) }
    {
        let offset = self.header.offsets.e_shoff;
        let size = section_header_size(self.identification.class);
        let bytes = self
            .image
            .bytes_at(offset, size, ElfError::SectionTableOutOfBounds)?;
        match self.section_header_in(bytes, 0) {
            Some(header) => Ok(header),
            None => Err(ElfError::SectionTableOutOfBounds),
        }
    }
}
