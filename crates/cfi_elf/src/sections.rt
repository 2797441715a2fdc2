//! The sections of a file, by their names (System V ABI chapter 4, "Sections").
ghost use Rattle.std.specs.Prelude.{◌≡◌, IfOk, option_map};
ghost use Rattle.cfi_read_core.specs.ReaderCalls.{map_ok};
ghost use Rattle.cfi_elf.specs.ElfFiles.{file_view};
ghost use Rattle.cfi_elf.specs.FoundSections.{FindsSection};
ghost use Rattle.cfi_elf.specs.Searches.{first_by};
ghost use Rattle.cfi_elf.specs.Sections.{debug_frame, header_named, is_named, section_address};
ghost use Rattle.cfi_elf.specs.Sections.{section_named, section_view};
ghost use Rattle.cfi_elf.specs.SectionTables.{section_headers};

use crate::constants::SHT_NULL;
use crate::elf_file::ElfFile;
use crate::error::ElfError;
use crate::section_header::SectionHeader;
use crate::string_table::name_at;

/// A section, or the file's bytes of a segment: its address and its bytes, which are part of the
/// file.
#[derive(Clone, Copy, Debug)]
pub struct Section<'input> {
    /// The address of the first byte (`sh_addr`, `p_vaddr`).
    pub address: u64,
    /// The bytes.
    pub bytes: &'input [u8],
}

impl<'input> ElfFile<'input> {
    /// The section of this name: its address and its bytes, which are part of the file. Returns
    /// `None` where no section has the name, or the file has no section headers. A section of type
    /// `SHT_NOBITS` has no bytes. Of several sections with the name it is the first.
    ///
    /// Fails with `SectionEntrySize` or `SectionTableOutOfBounds` for the section headers; with
    /// `NoNameSection`, `Compressed` or `SectionOutOfBounds` for the section of the names; with
    /// `NameOutOfBounds` or `NameNotTerminated` for the name of a section before the one looked
    /// for; with `Compressed` or `SectionOutOfBounds` for the section itself. Does not allocate
    /// (System V ABI chapter 4, "Sections", "String Table").
    #[tactic(auto, unfolding(crate::specs::Sections::section_named))]
    pub fn section(&self, name: &[u8]) -> Result<Option<Section<'input>>, ElfError>
        ensures value { map_ok (option_map section_view) result
            ≡ section_named (file_view self.now) name.now }
        ensures first { IfOk result (λ found.
            FindsSection (file_view self.now) name.now (option_map section_view found)) }
    {
        let Some(header) = self.header_named(name)? else {
            return Ok(None);
        };
        let bytes = self.contents(&header)?;
        Ok(Some(Section {
            address: header.sh_addr,
            bytes,
        }))
    }

    /// The address of the section of this name. Returns `None` where no section has the name, or
    /// the file has no section headers. The section's bytes need not have been read.
    ///
    /// Fails as `section`: also with `Compressed` or `SectionOutOfBounds` for the section itself.
    /// Does not allocate.
    #[tactic(auto, unfolding(crate::specs::Sections::section_address))]
    pub fn section_address(&self, name: &[u8]) -> Result<Option<u64>, ElfError>
        ensures { result ≡ section_address (file_view self.now) name.now }
    {
        match self.header_named(name)? {
            Some(header) => Ok(Some(self.address_of(&header)?)),
            None => Ok(None),
        }
    }

    /// The section `.debug_frame`, as `section` returns it.
    ///
    /// Fails as `section`, and with `Compressed` where there is only `.zdebug_frame`.
    #[tactic(auto, unfolding(crate::specs::Sections::debug_frame))]
    pub fn debug_frame(&self) -> Result<Option<Section<'input>>, ElfError>
        ensures { map_ok (option_map section_view) result ≡ debug_frame (file_view self.now) }
    {
        if let Some(section) = self.section(b".debug_frame")? {
            return Ok(Some(section));
        }
        match self.header_named(b".zdebug_frame")? {
            Some(_) => Err(ElfError::Compressed),
            None => Ok(None),
        }
    }

    /// The first section header with this name.
    #[tactic(auto, unfolding(crate::specs::Sections::header_named))]
    fn header_named(&self, name: &[u8]) -> Result<Option<SectionHeader>, ElfError>
        ensures { result ≡ header_named (file_view self.now) name.now }
    {
        let table = self.section_table()?;
        let names = self.section_names(table)?;
        self.first_named(table, names, name)
    }

    /// The first header of a table with this name.
    fn first_named(
        &self,
        table: &'input [u8],
        names: &[u8],
        name: &[u8],
    ) -> Result<Option<SectionHeader>, ElfError>
        ensures { result ≡ first_by (is_named names.now name.now)
            (section_headers (file_view self.now) table.now) }
    {
        for index in 0..table.len() {
            let Some(header) = self.section_header_in(table, index) else {
                return Ok(None);
            };
            if is_named(&header, names, name)? {
                return Ok(Some(header));
            }
        }
        Ok(None)
    }
}

/// Whether the section has this name.
#[tactic(auto, unfolding(crate::specs::Sections::is_named))]
pub(crate) fn is_named(header: &SectionHeader, names: &[u8], name: &[u8]) -> Result<bool, ElfError>
    ensures { result ≡ is_named names.now name.now header.now }
{
    // The other members of such a header have no meaning.
    if header.sh_type == SHT_NULL {
        return Ok(false);
    }
    let found = name_at(names, header.sh_name)?;
    Ok(found == name)
}
