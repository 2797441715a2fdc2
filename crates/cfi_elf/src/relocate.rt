//! A relocatable file with addresses, and its call frames relocated for these (System V ABI chapter
//! 4, "Relocation").
ghost use Rattle.std.specs.Prelude.{◌≡◌, Ok, slice_get};
ghost use Rattle.cfi_read_core.specs.ReaderCalls.{map_ok};
ghost use Rattle.cfi_elf.specs.ElfFiles.{file_view};
ghost use Rattle.cfi_elf.specs.RelocatedFiles.{has_call_frames, has_relocations, is_stored};
ghost use Rattle.cfi_elf.specs.RelocatedFiles.{field_offset, relocate, relocate_by};
ghost use Rattle.cfi_elf.specs.RelocatedFiles.{relocate_frames, relocate_field, relocate_section};
ghost use Rattle.cfi_elf.specs.RelocatedFiles.{relocated, relocated_number, symbol_contents};
ghost use Rattle.cfi_elf.specs.RelocatedFiles.{symbol_offset, tables_view};
ghost use Rattle.cfi_elf.specs.Relocations.{relocations};
ghost use Rattle.cfi_elf.specs.InOrder.{in_order};
ghost use Rattle.cfi_elf.specs.Results.{and_then};
ghost use Rattle.cfi_elf.specs.SectionTables.{section_headers};

use crate::constants::{SHF_COMPRESSED, SHT_NOBITS, SHT_REL, SHT_RELA};
use crate::elf_file::ElfFile;
use crate::error::ElfError;
use crate::relocated_field::{field_size, read_number, write_number};
use crate::relocation::Relocation;
use crate::relocation_kind::{Formula, RelocationKind, kind_of};
use crate::section_header::SectionHeader;
use crate::sections::is_named;
use cfi_read_core::Endianity;

/// What the relocations of a file are read by: the bytes of the section headers, of the section
/// name string table, and of the symbols.
#[derive(Clone, Copy)]
pub(crate) struct RelocationTables<'input> {
    pub(crate) sections: &'input [u8],
    pub(crate) names: &'input [u8],
    pub(crate) symbols: &'input [u8],
}

impl<'input> ElfFile<'input> {
    /// Gives each section of a relocatable file an address, and relocates the sections of call
    /// frames for these: in `bytes`, a copy of the file's bytes. `parse_relocatable` then reads the
    /// copy as a file whose sections, symbols and call frames have addresses.
    ///
    /// The address of a section in memory (`SHF_ALLOC`) is its offset in the file, or the file's
    /// length where its type is `SHT_NOBITS`; that of any other is 0. The value of a symbol is its
    /// offset in its section (`st_value`) and the address of that. The relocations of `.eh_frame`
    /// and `.debug_frame` are those of the sections of type `SHT_REL` and `SHT_RELA` with that
    /// section in `sh_info`, as the psABI of the machine defines their types.
    ///
    /// Fails as `section` for the section headers, the symbols and the relocations; with
    /// `UnknownRelocation`, `NoRelocationSymbol` or `RelocationOutOfBounds` for a relocation; with
    /// `ExtendedSectionIndex` for a symbol whose section's index is elsewhere. A part has been
    /// written then. Does not allocate (System V ABI chapter 4, "Symbol Table", "Relocation").
    #[tactic(auto, unfolding(crate::specs::RelocatedFiles::relocated))]
    pub fn relocate(&self, bytes: &mut [u8]) -> Result<(), ElfError>
        ensures { and_then result (λ done. Ok bytes.new)
            ≡ relocated (file_view self.now) bytes.old }
    {
        let sections = self.section_table()?;
        let names = self.section_names(sections)?;
        let section = self.symbol_section(sections);
        let symbols = self.symbol_contents(section)?;
        let tables = RelocationTables {
            sections,
            names,
            symbols,
        };
        self.write_section_addresses(sections, bytes)?;
        self.write_symbol_values(sections, symbol_offset(section), symbols, bytes)?;
        self.relocate_all(&tables, bytes)
    }

    /// The bytes of the symbols in a section; none where there is no section.
    fn symbol_contents(&self, section: Option<SectionHeader>) -> Result<&'input [u8], ElfError>
        ensures { map_ok (λ bytes. bytes.now) result
            ≡ symbol_contents (file_view self.now) section }
    {
        match section {
            Some(header) => self.contents(&header),
            None => Ok(&[]),
        }
    }

    /// Relocates the sections of call frames, by each section of relocations.
    fn relocate_all(
        &self,
        tables: &RelocationTables<'input>,
        bytes: &mut [u8],
    ) -> Result<(), ElfError>
        ensures { and_then result (λ done. Ok bytes.new)
            ≡ in_order (λ index. relocate_by (file_view self.now) (tables_view tables.now)) 0
            (section_headers (file_view self.now) tables.now.sections.now) bytes.old }
    {
        for index in 0..tables.sections.len() {
            let Some(header) = self.section_header_in(tables.sections, index) else {
                return Ok(());
            };
            self.relocate_by(tables, &header, bytes)?;
        }
        Ok(())
    }

    /// Relocates a section of call frames by this one, if it has relocations.
    fn relocate_by(
        &self,
        tables: &RelocationTables<'input>,
        header: &SectionHeader,
        bytes: &mut [u8],
    ) -> Result<(), ElfError>
        ensures { and_then result (λ done. Ok bytes.new)
            ≡ relocate_by (file_view self.now) (tables_view tables.now) header.now bytes.old }
    {
        if has_relocations(header) {
            self.relocate_frames(tables, header, bytes)
        } else {
            Ok(())
        }
    }

    /// Relocates the section that the header of relocations leads to, if it has call frames.
    fn relocate_frames(
        &self,
        tables: &RelocationTables<'input>,
        header: &SectionHeader,
        bytes: &mut [u8],
    ) -> Result<(), ElfError>
        ensures { and_then result (λ done. Ok bytes.new)
            ≡ relocate_frames (file_view self.now) (tables_view tables.now) header.now
            (slice_get (section_headers (file_view self.now) tables.now.sections.now)
            header.now.sh_info) bytes.old }
    {
        let Some(section) = self.section_header_in(tables.sections, header.sh_info as usize) else {
            return Ok(());
        };
        if has_call_frames(&section, tables.names)? {
            self.relocate_section(tables, header, &section, bytes)
        } else {
            Ok(())
        }
    }

    /// Relocates a section by the relocations of another.
    #[tactic(auto, unfolding(crate::specs::RelocatedFiles::relocate_section))]
    fn relocate_section(
        &self,
        tables: &RelocationTables<'input>,
        header: &SectionHeader,
        section: &SectionHeader,
        bytes: &mut [u8],
    ) -> Result<(), ElfError>
        ensures { and_then result (λ done. Ok bytes.new)
            ≡ relocate_section (file_view self.now) (tables_view tables.now) header.now section.now
            bytes.old }
    {
        let entries = self.contents(header)?;
        let has_addend = header.sh_type == SHT_RELA;
        self.relocate_entries(tables, has_addend, entries, section, bytes)
    }

    /// Relocates a section by these relocations.
    fn relocate_entries(
        &self,
        tables: &RelocationTables<'input>,
        has_addend: bool,
        entries: &'input [u8],
        section: &SectionHeader,
        bytes: &mut [u8],
    ) -> Result<(), ElfError>
        ensures { and_then result (λ done. Ok bytes.new)
            ≡ in_order (λ index.
            relocate (file_view self.now) (tables_view tables.now) section.now) 0
            (relocations (file_view self.now) has_addend entries.now) bytes.old }
    {
        for index in 0..entries.len() {
            let Some(relocation) = self.relocation_in(entries, has_addend, index) else {
                return Ok(());
            };
            self.relocate_entry(tables, section, relocation, bytes)?;
        }
        Ok(())
    }

    /// Applies a relocation to a section.
    #[tactic(auto, unfolding(crate::specs::RelocatedFiles::relocate))]
    fn relocate_entry(
        &self,
        tables: &RelocationTables<'input>,
        section: &SectionHeader,
        relocation: Relocation,
        bytes: &mut [u8],
    ) -> Result<(), ElfError>
        ensures { and_then result (λ done. Ok bytes.new)
            ≡ relocate (file_view self.now) (tables_view tables.now) section.now relocation
            bytes.old }
    {
        let Some(kind) = kind_of(self.header.kind.e_machine, relocation.kind) else {
            return Err(ElfError::UnknownRelocation(relocation.kind));
        };
        let symbol = self.symbol_value_at(tables.sections, tables.symbols, relocation.symbol)?;
        self.relocate_field(section, symbol, relocation, kind, bytes)
    }

    /// Writes what a relocation makes of its field.
    #[tactic(auto, unfolding(crate::specs::RelocatedFiles::relocate_field))]
    fn relocate_field(
        &self,
        section: &SectionHeader,
        symbol: u64,
        relocation: Relocation,
        kind: RelocationKind,
        bytes: &mut [u8],
    ) -> Result<(), ElfError>
        ensures { and_then result (λ done. Ok bytes.new)
            ≡ relocate_field (file_view self.now) section.now symbol relocation kind bytes.old }
    {
        let size = field_size(kind.width);
        let Some(offset) = field_offset(section, relocation.r_offset, size) else {
            return Err(ElfError::RelocationOutOfBounds);
        };
        let big_endian = self.identification.data.is_big_endian();
        let stored = read_number(bytes, big_endian, kind.width, offset)?;
        let value = symbol.wrapping_add(relocation.r_addend.unwrap_or(stored));
        let place = self.section_base(section).wrapping_add(relocation.r_offset);
        let number = relocated_number(kind.formula, value, stored, place);
        write_number(bytes, big_endian, kind.width, offset, number)
    }
}

/// Where a field of a section is in the file, if it is in the section.
fn field_offset(section: &SectionHeader, offset: u64, size: u64) -> Option<u64>
    ensures { result ≡ field_offset section.now offset size }
{
    if size <= section.sh_size && offset <= section.sh_size - size {
        section.sh_offset.checked_add(offset)
    } else {
        None
    }
}

/// The number that is written into a field: by S + A, the number that stands there, and P, the
/// address of the field.
fn relocated_number(formula: Formula, value: u64, stored: u64, place: u64) -> u64
    ensures { result ≡ relocated_number formula value stored place }
{
    match formula {
        Formula::Unchanged => stored,
        Formula::Absolute => value,
        Formula::Relative => value.wrapping_sub(place),
        Formula::Added => stored.wrapping_add(value),
        Formula::Subtracted => stored.wrapping_sub(value),
        Formula::LowSix => stored / 64 * 64 + value % 64,
        Formula::LowSixSubtracted => stored / 64 * 64 + stored.wrapping_sub(value) % 64,
    }
}

/// The offset of the section of symbols, 0 where there is none.
fn symbol_offset(section: Option<SectionHeader>) -> u64
    ensures { result ≡ symbol_offset section }
{
    match section {
        Some(header) => header.sh_offset,
        None => 0,
    }
}

/// Whether it is the header of a section of relocations.
fn has_relocations(header: &SectionHeader) -> bool
    ensures { result ≡ has_relocations header.now }
{
    header.sh_type == SHT_RELA || header.sh_type == SHT_REL
}

/// Whether the bytes of a section are in the file as they are.
fn is_stored(header: &SectionHeader) -> bool
    ensures { result ≡ is_stored header.now }
{
    header.sh_type != SHT_NOBITS && header.sh_flags & SHF_COMPRESSED == 0
}

/// Whether a section has call frames, by its name. Fails where that can't be read.
#[tactic(auto, unfolding(crate::specs::RelocatedFiles::has_call_frames))]
fn has_call_frames(header: &SectionHeader, names: &[u8]) -> Result<bool, ElfError>
    ensures { result ≡ has_call_frames names.now header.now }
{
    if !is_stored(header) {
        return Ok(false);
    }
    if is_named(header, names, b".eh_frame")? {
        return Ok(true);
    }
    is_named(header, names, b".debug_frame")
}
