//! The addresses that the sections and symbols of a relocatable file get (System V ABI chapter 4,
//! "Symbol Values").
ghost use Rattle.std.specs.Prelude.{◌≡◌, ◌≤◌, ◌+◌, ◌*◌, ◌^◌, MatchOption, Ok};
ghost use Rattle.std.specs.Int.{w32, w64};
ghost use Rattle.cfi_elf.specs.ElfFiles.{class_of_file, file_view, is_big_file};
ghost use Rattle.cfi_elf.specs.Layouts.{by_class};
ghost use Rattle.cfi_elf.specs.Placement.{base_of, write_section_address, write_symbol_value};
ghost use Rattle.cfi_elf.specs.Placement.{section_base, symbol_value_at, symbol_value};
ghost use Rattle.cfi_elf.specs.RelocatedFields.{write_number};
ghost use Rattle.cfi_elf.specs.InOrder.{in_order};
ghost use Rattle.cfi_elf.specs.Results.{and_then};
ghost use Rattle.cfi_elf.specs.SectionTables.{section_headers};
ghost use Rattle.cfi_elf.specs.SymbolTables.{symbols_of_bytes};

use crate::bytes::entry;
use crate::constants::{SHF_ALLOC, SHN_XINDEX, SHT_NOBITS, STN_UNDEF};
use crate::elf_file::ElfFile;
use crate::error::ElfError;
use crate::file_header::Class;
use crate::relocated_field::write_number;
use crate::relocation_kind::FieldWidth;
use crate::section_header::{SectionHeader, section_header_size};
use crate::symbol::{Symbol, symbol_size};
use cfi_read_core::Endianity;

impl<'input> ElfFile<'input> {
    /// Writes the address of each section into its header.
    pub(crate) fn write_section_addresses(
        &self,
        table: &'input [u8],
        bytes: &mut [u8],
    ) -> Result<(), ElfError>
        ensures { and_then result (λ done. Ok bytes.new)
            ≡ in_order (write_section_address (file_view self.now)) 0
            (section_headers (file_view self.now) table.now) bytes.old }
    {
        for index in 0..table.len() {
            let Some(header) = self.section_header_in(table, index) else {
                return Ok(());
            };
            self.write_section_address(index, &header, bytes)?;
        }
        Ok(())
    }

    /// Writes the address of a section into its header, the one at this index.
    fn write_section_address(
        &self,
        index: usize,
        header: &SectionHeader,
        bytes: &mut [u8],
    ) -> Result<(), ElfError>
        ensures { and_then result (λ done. Ok bytes.new)
            ≡ write_section_address (file_view self.now) index header.now bytes.old }
    {
        let class = self.identification.class;
        let at = match class {
            Class::Elf32 => 12,
            Class::Elf64 => 16,
        };
        let size = section_header_size(class);
        let table = self.header.offsets.e_shoff;
        let Some(offset) = member_offset(table, index, size, at) else {
            return Err(ElfError::RelocationOutOfBounds);
        };
        self.write_address(offset, self.section_base(header), bytes)
    }

    /// Writes the address of each symbol of a table at an offset.
    pub(crate) fn write_symbol_values(
        &self,
        table: &'input [u8],
        offset: u64,
        symbols: &'input [u8],
        bytes: &mut [u8],
    ) -> Result<(), ElfError>
        ensures { and_then result (λ done. Ok bytes.new)
            ≡ in_order (write_symbol_value (file_view self.now) table.now offset) 0
            (symbols_of_bytes (file_view self.now) symbols.now) bytes.old }
    {
        for index in 0..symbols.len() {
            let Some(symbol) = self.symbol_in(symbols, index) else {
                return Ok(());
            };
            self.write_symbol_value(table, offset, index, &symbol, bytes)?;
        }
        Ok(())
    }

    /// Writes the address of a symbol, the one at this index of a table at an offset.
    fn write_symbol_value(
        &self,
        table: &'input [u8],
        offset: u64,
        index: usize,
        symbol: &Symbol,
        bytes: &mut [u8],
    ) -> Result<(), ElfError>
        ensures { and_then result (λ done. Ok bytes.new)
            ≡ write_symbol_value (file_view self.now) table.now offset index symbol.now bytes.old }
    {
        let address = self.symbol_value(table, symbol)?;
        let class = self.identification.class;
        let at = match class {
            Class::Elf32 => 4,
            Class::Elf64 => 8,
        };
        let Some(offset) = member_offset(offset, index, symbol_size(class), at) else {
            return Err(ElfError::RelocationOutOfBounds);
        };
        self.write_address(offset, address, bytes)
    }

    /// Writes an address, which takes as many bytes as the class says.
    fn write_address(&self, offset: u64, address: u64, bytes: &mut [u8]) -> Result<(), ElfError>
        ensures { and_then result (λ done. Ok bytes.new)
            ≡ write_number (is_big_file (file_view self.now))
            (by_class (class_of_file (file_view self.now)) w32 w64) offset address bytes.old }
    {
        let width = match self.identification.class {
            Class::Elf32 => FieldWidth::Word,
            Class::Elf64 => FieldWidth::Xword,
        };
        let big_endian = self.identification.data.is_big_endian();
        write_number(bytes, big_endian, width, offset, address)
    }

    /// The address of a section.
    pub(crate) fn section_base(&self, header: &SectionHeader) -> u64
        ensures { result ≡ section_base (file_view self.now) header.now }
    {
        if header.sh_flags & SHF_ALLOC == 0 {
            0
        } else if header.sh_type == SHT_NOBITS {
            self.image.length
        } else {
            header.sh_offset
        }
    }

    /// The address of a section, 0 where there is none.
    fn base_of(&self, header: Option<SectionHeader>) -> u64
        ensures { result ≡ base_of (file_view self.now) header }
    {
        match header {
            Some(header) => self.section_base(&header),
            None => 0,
        }
    }

    /// The address of a symbol. Fails with `ExtendedSectionIndex`.
    #[tactic(auto, unfolding(crate::specs::Placement::symbol_value))]
    fn symbol_value(&self, table: &'input [u8], symbol: &Symbol) -> Result<u64, ElfError>
        ensures { result ≡ symbol_value (file_view self.now) table.now symbol.now }
    {
        if symbol.st_shndx == SHN_XINDEX {
            return Err(ElfError::ExtendedSectionIndex);
        }
        let base = self.base_of(self.section_header_in(table, symbol.st_shndx as usize));
        Ok(symbol.st_value.wrapping_add(base))
    }

    /// The address of the symbol at an index, 0 for index 0. Fails with `NoRelocationSymbol` and
    /// `ExtendedSectionIndex`.
    #[tactic(auto, unfolding(crate::specs::Placement::symbol_value_at))]
    pub(crate) fn symbol_value_at(
        &self,
        table: &'input [u8],
        symbols: &'input [u8],
        index: u32,
    ) -> Result<u64, ElfError>
        ensures { result ≡ symbol_value_at (file_view self.now) table.now symbols.now index }
    {
        if index == STN_UNDEF {
            return Ok(0);
        }
        match self.symbol_in(symbols, index as usize) {
            Some(symbol) => self.symbol_value(table, &symbol),
            None => Err(ElfError::NoRelocationSymbol(index)),
        }
    }
}

/// Where a member is that has an offset in the entry at an index of a table; `None` where that
/// doesn't fit 64 bits.
fn member_offset(table: u64, index: usize, size: u64, at: u64) -> Option<u64>
    ensures { MatchOption result (2 ^ 64 ≤ table + index * size + at)
        (λ offset. offset ≡ table + index * size + at) }
{
    let entry = (index as u64).checked_mul(size)?;
    table.checked_add(entry)?.checked_add(at)
}
