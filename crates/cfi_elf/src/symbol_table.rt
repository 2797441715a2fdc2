//! The symbol table of a file (System V ABI chapter 4, "Symbol Table").
ghost use Rattle.std.specs.Prelude.{◌≡◌, Err, IfErr, OnOk, find, slice_get};
ghost use Rattle.cfi_read_core.specs.ReaderCalls.{map_ok};
ghost use Rattle.cfi_elf.specs.ElfFiles.{file_view};
ghost use Rattle.cfi_elf.specs.Images.{IsNotRead, IsRead};
ghost use Rattle.cfi_elf.specs.SectionTables.{section_headers};
ghost use Rattle.cfi_elf.specs.SymbolTables.{is_of_type, symbol_section, symbol_table};
ghost use Rattle.cfi_elf.specs.SymbolTables.{symbol_table_view, symbols, symbols_in};
ghost use Rattle.cfi_elf.specs.SymbolTables.{symbols_of_bytes};

use crate::bytes::entry;
use crate::constants::{SHT_DYNSYM, SHT_SYMTAB};
use crate::elf_file::ElfFile;
use crate::error::ElfError;
use crate::section_header::SectionHeader;
use crate::sections::Section;
use crate::symbol::{Symbol, parse_symbol, symbol_size};

/// The bytes of the symbols of a file, the string table with their names, and the section of the
/// descriptors of functions.
#[derive(Clone, Copy, Debug)]
pub(crate) struct SymbolTable<'input> {
    pub(crate) bytes: &'input [u8],
    pub(crate) names: &'input [u8],
    pub(crate) descriptors: Option<Section<'input>>,
}

impl<'input> ElfFile<'input> {
    /// Whether all was read that `symbol_address` and `functions` need of the file. `functions`
    /// itself returns none where it was not.
    ///
    /// Fails with `NotRead` where section headers, the symbols, their names or `.opd` have not been
    /// read, and with nothing else. Does not allocate.
    pub fn symbols_read(&self) -> Result<(), ElfError>
        ensures ok { OnOk result (IsRead (symbol_table (file_view self.now))) }
        ensures err { IfErr result (λ e. symbol_table (file_view self.now) ≡ Err e) }
        ensures unread { IfErr result (λ e. IsNotRead e) }
    {
        match self.symbol_table() {
            Err(ElfError::NotRead { offset, size }) => Err(ElfError::NotRead { offset, size }),
            _ => Ok(()),
        }
    }

    /// Returns the symbols and the string table of their names; both are empty where no section
    /// has symbols. Fails where a section can't be read.
    #[tactic(auto, unfolding(crate::specs::SymbolTables::symbol_table))]
    pub(crate) fn symbol_table(&self) -> Result<SymbolTable<'input>, ElfError>
        ensures { map_ok symbol_table_view result ≡ symbol_table (file_view self.now) }
    {
        let table = self.section_table()?;
        match self.symbol_section(table) {
            Some(header) => self.symbols_in(table, &header),
            None => Ok(SymbolTable {
                bytes: &[],
                names: &[],
                descriptors: None,
            }),
        }
    }

    /// The first section of type `SHT_SYMTAB`, or else of type `SHT_DYNSYM`.
    pub(crate) fn symbol_section(&self, table: &'input [u8]) -> Option<SectionHeader>
        ensures { result ≡ symbol_section (file_view self.now) table.now }
    {
        if let Some(header) = self.first_of_type(table, SHT_SYMTAB) {
            return Some(header);
        }
        self.first_of_type(table, SHT_DYNSYM)
    }

    /// The first header of a table of this type.
    fn first_of_type(&self, table: &'input [u8], sh_type: u32) -> Option<SectionHeader>
        ensures { result ≡ find (is_of_type sh_type)
            (section_headers (file_view self.now) table.now) }
    {
        for index in 0..table.len() {
            let Some(header) = self.section_header_in(table, index) else {
                return None;
            };
            if header.sh_type == sh_type {
                return Some(header);
            }
        }
        None
    }

    /// The symbols of a section.
    #[tactic(auto, unfolding(crate::specs::SymbolTables::symbols_in))]
    fn symbols_in(
        &self,
        table: &'input [u8],
        header: &SectionHeader,
    ) -> Result<SymbolTable<'input>, ElfError>
        ensures { map_ok symbol_table_view result
            ≡ symbols_in (file_view self.now) table.now header.now }
    {
        let bytes = self.contents(header)?;
        let names = self.names_at(table, header.sh_link)?;
        let descriptors = self.function_descriptors()?;
        Ok(SymbolTable {
            bytes,
            names,
            descriptors,
        })
    }

    /// The symbol at an index, with its address for its value; `None` where there are fewer.
    pub(crate) fn located_in(&self, table: SymbolTable<'input>, index: usize) -> Option<Symbol>
        ensures { result ≡ slice_get
            (symbols (file_view self.now) (symbol_table_view table.entry)) index }
    {
        let symbol = self.symbol_in(table.bytes, index)?;
        Some(self.located(table.descriptors, &symbol))
    }

    /// The symbol at an index of a table, or `None` where it has fewer.
    pub(crate) fn symbol_in(&self, table: &'input [u8], index: usize) -> Option<Symbol>
        ensures { result ≡ slice_get (symbols_of_bytes (file_view self.now) table.now) index }
    {
        let class = self.identification.class;
        let bytes = entry(table, symbol_size(class), index)?;
        Some(parse_symbol(class, self.fields(bytes)))
    }
}
