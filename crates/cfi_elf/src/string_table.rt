//! Names in string tables, and the table that has those of sections (System V ABI chapter 4,
//! "String Table").
ghost use Rattle.std.specs.Prelude.{◌≡◌};
ghost use Rattle.cfi_read_core.specs.ReaderCalls.{map_ok};
ghost use Rattle.cfi_elf.specs.ElfFiles.{file_view};
ghost use Rattle.cfi_elf.specs.StringTables.{name_at, name_section, names_at, section_names};
ghost use Rattle.cfi_elf.specs.StringTables.{is_name};

use crate::bytes::{before_zero, bytes_from};
use crate::constants::{SHN_UNDEF, SHN_XINDEX};
use crate::elf_file::ElfFile;
use crate::error::ElfError;

impl<'input> ElfFile<'input> {
    /// The string table with the names of sections.
    #[tactic(auto, unfolding(crate::specs::StringTables::section_names))]
    pub(crate) fn section_names(&self, table: &'input [u8]) -> Result<&'input [u8], ElfError>
        ensures { map_ok (λ names. names.now) result
            ≡ section_names (file_view self.now) table.now }
    {
        if table.len() == 0 {
            return Ok(&[]);
        }
        let index = self.name_section()?;
        self.names_at(table, index)
    }

    /// Returns the index of the section with the names of sections, which section 0 has where the
    /// file header has no room for it. Fails where section 0 can't be read.
    #[tactic(auto, unfolding(crate::specs::StringTables::name_section))]
    fn name_section(&self) -> Result<u32, ElfError>
        ensures { result ≡ name_section (file_view self.now) }
    {
        if self.header.sizes.e_shstrndx == SHN_XINDEX {
            return Ok(self.first_section_header()?.sh_link);
        }
        Ok(u32::from(self.header.sizes.e_shstrndx))
    }

    /// Returns the contents of the section with an index, a string table; nothing for index 0.
    /// Fails with `NoNameSection` where there is no such section, and where it can't be read.
    #[tactic(auto, unfolding(crate::specs::StringTables::names_at))]
    pub(crate) fn names_at(&self, table: &'input [u8], index: u32) -> Result<&'input [u8], ElfError>
        ensures { map_ok (λ names. names.now) result
            ≡ names_at (file_view self.now) table.now index }
    {
        if index == u32::from(SHN_UNDEF) {
            return Ok(&[]);
        }
        match self.section_header_in(table, index as usize) {
            Some(header) => self.contents(&header),
            None => Err(ElfError::NoNameSection(index)),
        }
    }
}

/// The name at an index of a string table.
#[tactic(auto, unfolding(crate::specs::StringTables::name_at))]
pub(crate) fn name_at(strings: &[u8], index: u32) -> Result<&[u8], ElfError>
    ensures { map_ok (λ name. name.now) result ≡ name_at strings.now index }
{
    if index == 0 {
        return Ok(&[]);
    }
    if u64::from(index) >= strings.len() as u64 {
        return Err(ElfError::NameOutOfBounds);
    }
    let name = bytes_from(strings, u64::from(index));
    match before_zero(name) {
        Some(name) => Ok(name),
        None => Err(ElfError::NameNotTerminated),
    }
}

/// Whether the name at an index of a string table is this one.
pub(crate) fn is_name(names: &[u8], index: u32, name: &[u8]) -> bool
    ensures { result ≡ is_name name.now (name_at names.now index) }
{
    match name_at(names, index) {
        Ok(found) => found == name,
        Err(_) => false,
    }
}
