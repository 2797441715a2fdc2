//! The addresses of symbols, by their names (System V ABI chapter 4, "Symbol Table").
ghost use Rattle.std.specs.Prelude.{◌≡◌, ◌⊎◌, Err, IfErr, IfOk, Ok};
ghost use Rattle.cfi_elf.specs.declared.error.ElfError.TheVariants.{OutOfMemory};
ghost use Rattle.cfi_elf.specs.ElfFiles.{file_view};
ghost use Rattle.cfi_elf.specs.SymbolAddresses.{addresses_with_name, defines_name};
ghost use Rattle.cfi_elf.specs.SymbolAddresses.{is_symbol_named, symbol_address};
ghost use Rattle.cfi_elf.specs.SymbolAddresses.{symbol_addresses};
ghost use Rattle.cfi_elf.specs.SymbolTables.{symbol_table_view, symbols};
ghost use Rattle.cfi_elf.specs.Searches.{first_by};

use crate::address_list::add_distinct;
use crate::constants::SHN_UNDEF;
use crate::elf_file::ElfFile;
use crate::error::ElfError;
use crate::string_table::{is_name, name_at};
use crate::symbol::Symbol;
use crate::symbol_table::SymbolTable;
use std::alloc::Global;

impl<'input> ElfFile<'input> {
    /// The address of the first defined symbol with this name, in `.symtab`, or in `.dynsym` where
    /// there is none. Returns `None` where no symbol has the name, or the file has no symbols.
    ///
    /// The address is the symbol's value (`st_value`), but for functions of two machines: of one of
    /// Arm bit 0 says Thumb, and is cleared; of one of PowerPC64 whose value is in `.opd`, the
    /// address is the first doubleword of the descriptor there (64-bit PowerPC ELF ABI 1.9, section
    /// 3.2.5), unless the file is relocatable.
    ///
    /// Fails as `section` for the section headers, the symbols, their names and `.opd`. Does not
    /// allocate (System V ABI chapter 4, "Symbol Table").
    #[tactic(auto, unfolding(crate::specs::SymbolAddresses::symbol_address))]
    pub fn symbol_address(&self, name: &[u8]) -> Result<Option<u64>, ElfError>
        ensures { result ≡ symbol_address (file_view self.now) name.now }
    {
        let table = self.symbol_table()?;
        match self.symbol_named(table, name)? {
            Some(symbol) => Ok(Some(symbol.st_value)),
            None => Ok(None),
        }
    }

    /// The first symbol that is defined and has this name.
    fn symbol_named(
        &self,
        table: SymbolTable<'input>,
        name: &[u8],
    ) -> Result<Option<Symbol>, ElfError>
        ensures { result ≡ first_by (is_symbol_named table.entry.names.now name.now)
            (symbols (file_view self.now) (symbol_table_view table.entry)) }
    {
        for index in 0..table.bytes.len() {
            let Some(symbol) = self.located_in(table, index) else {
                return Ok(None);
            };
            if is_symbol_named(&symbol, table.names, name)? {
                return Ok(Some(symbol));
            }
        }
        Ok(None)
    }

    /// The addresses of all defined symbols with this name, as `symbol_address` has that of the
    /// first: in the order of the symbols, each address once. There is none where no symbol has the
    /// name, or the file has no symbols; a symbol whose name can't be read has none.
    ///
    /// Fails as `section` for the section headers, the symbols, their names and `.opd`; with
    /// `OutOfMemory`. Allocates the list (System V ABI chapter 4, "Symbol Table").
    #[tactic(auto, unfolding(crate::specs::SymbolAddresses::symbol_addresses))]
    pub fn symbol_addresses(&self, alloc: Global, name: &[u8]) -> Result<Vec<u64>, ElfError>
        ensures ok { IfOk result (λ found. symbol_addresses (file_view self.now) name.now
            ≡ Ok found.items) }
        ensures err { IfErr result (λ e. (e ≡ OutOfMemory)
            ⊎ (symbol_addresses (file_view self.now) name.now ≡ Err e)) }
    {
        let table = self.symbol_table()?;
        self.addresses_among(alloc, table, name)
    }

    /// Those of the symbols of a table.
    fn addresses_among(
        &self,
        alloc: Global,
        table: SymbolTable<'input>,
        name: &[u8],
    ) -> Result<Vec<u64>, ElfError>
        ensures ok { IfOk result (λ found. found.items
            ≡ addresses_with_name table.entry.names.now name.now
            (symbols (file_view self.now) (symbol_table_view table.entry))) }
        ensures err { IfErr result (λ e. e ≡ OutOfMemory) }
    {
        let mut addresses = Vec::new(alloc);
        for index in 0..table.bytes.len() {
            let Some(symbol) = self.located_in(table, index) else {
                return Ok(addresses);
            };
            if defines_name(&symbol, table.names, name) {
                add_distinct(&mut addresses, symbol.st_value)?;
            }
        }
        Ok(addresses)
    }
}

/// Returns whether the symbol is defined and has this name. Fails where its name can't be read.
#[tactic(auto, unfolding(crate::specs::SymbolAddresses::is_symbol_named))]
fn is_symbol_named(symbol: &Symbol, names: &[u8], name: &[u8]) -> Result<bool, ElfError>
    ensures { result ≡ is_symbol_named names.now name.now symbol.now }
{
    if symbol.st_shndx == SHN_UNDEF {
        return Ok(false);
    }
    let found = name_at(names, symbol.st_name)?;
    Ok(found == name)
}

/// Returns whether the symbol is defined and has this name; a name that can't be read is another.
fn defines_name(symbol: &Symbol, names: &[u8], name: &[u8]) -> bool
    ensures { result ≡ defines_name names.now name.now symbol.now }
{
    symbol.st_shndx != SHN_UNDEF && is_name(names, symbol.st_name, name)
}
