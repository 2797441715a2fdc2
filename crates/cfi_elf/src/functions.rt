//! The functions of a file, by their symbols (System V ABI chapter 4, "Symbol Table").
ghost use Rattle.std.specs.Prelude.{◌≡◌, IfOk, map, option_map, find};
ghost use Rattle.std.specs.List.{filter_map};
ghost use Rattle.cfi_elf.specs.ElfFiles.{file_view};
ghost use Rattle.cfi_elf.specs.Functions.{named_function, named_functions, function_view};
ghost use Rattle.cfi_elf.specs.Functions.{function_of_symbol, function_at};
ghost use Rattle.cfi_elf.specs.SymbolTables.{symbol_table_view, symbols};
ghost use Rattle.cfi_read_core.specs.ReaderCalls.{map_ok};
ghost use Rattle.cfi_elf.specs.Symbols.{is_function_at};

use crate::elf_file::ElfFile;
use crate::error::ElfError;
use crate::string_table::name_at;
use crate::symbol::{Symbol, is_function};
use crate::symbol_table::SymbolTable;
use std::alloc::{AllocError, Global};

/// A function that a symbol names.
#[derive(Clone, Copy, Debug)]
pub struct Function<'input> {
    /// The name, without the zero that ends it. Empty if the symbol has none.
    pub name: &'input [u8],
    /// The address of the first instruction, as `ElfFile::symbol_address` has it.
    pub address: u64,
    /// The number of bytes (`st_size`).
    pub size: u64,
    /// How far the name is seen: `STB_LOCAL`, `STB_GLOBAL`, `STB_WEAK` or another number below 16.
    pub binding: u8,
}

impl<'input> ElfFile<'input> {
    /// The first function whose bytes have this address, by the symbols of `.symtab`, or of
    /// `.dynsym` where there is none. Returns `None` where there is no such function; symbols of
    /// size 0 contain no address.
    ///
    /// Fails as `symbol_address`. Does not allocate.
    #[tactic(auto, unfolding(crate::specs::Functions::function_at))]
    pub fn function_at(&self, address: u64) -> Result<Option<Function<'input>>, ElfError>
        ensures { map_ok (option_map function_view) result
            ≡ function_at (file_view self.now) address }
    {
        let table = self.symbol_table()?;
        let Some(symbol) = self.function_among(table, address) else {
            return Ok(None);
        };
        let name = name_at(table.names, symbol.st_name)?;
        Ok(Some(function_of_symbol(&symbol, name)))
    }

    /// The first symbol that is a function with this address.
    fn function_among(&self, table: SymbolTable<'input>, address: u64) -> Option<Symbol>
        ensures { result ≡ find (is_function_at address)
            (symbols (file_view self.now) (symbol_table_view table.entry)) }
    {
        for index in 0..table.bytes.len() {
            let Some(symbol) = self.located_in(table, index) else {
                return None;
            };
            if is_function_at(&symbol, address) {
                return Some(symbol);
            }
        }
        None
    }

    /// The defined functions that have names, in the order of their symbols: those of `.symtab`,
    /// or of `.dynsym` where there is none. Their types are `STT_FUNC` and `STT_GNU_IFUNC`.
    ///
    /// A function whose name is empty or can't be read is left out. There is none where the
    /// symbols can't be read. Fails where memory is refused; allocates the list.
    #[tactic(auto, unfolding(crate::specs::Functions::named_functions))]
    pub fn functions(&self, alloc: Global) -> Result<Vec<Function<'input>>, AllocError>
        ensures { IfOk result (λ functions. map function_view functions.items
            ≡ named_functions (file_view self.now)) }
    {
        let Ok(table) = self.symbol_table() else {
            return Ok(Vec::new(alloc));
        };
        self.functions_among(alloc, table)
    }

    /// Those of the symbols that are functions with names.
    fn functions_among(
        &self,
        alloc: Global,
        table: SymbolTable<'input>,
    ) -> Result<Vec<Function<'input>>, AllocError>
        ensures { IfOk result (λ functions. map function_view functions.items
            ≡ filter_map (named_function table.entry.names.now)
            (symbols (file_view self.now) (symbol_table_view table.entry))) }
    {
        let mut functions = Vec::new(alloc);
        for index in 0..table.bytes.len() {
            let Some(symbol) = self.located_in(table, index) else {
                return Ok(functions);
            };
            if let Some(function) = named_function(&symbol, table.names) {
                functions.push(function)?;
            }
        }
        Ok(functions)
    }
}

/// Returns whether the symbol is a defined function whose bytes have this address.
fn is_function_at(symbol: &Symbol, address: u64) -> bool
    ensures { result ≡ is_function_at address symbol.now }
{
    is_function(symbol) && symbol.st_value <= address && address - symbol.st_value < symbol.st_size
}

/// The function that a symbol names.
fn named_function<'input>(symbol: &Symbol, names: &'input [u8]) -> Option<Function<'input>>
    ensures { option_map function_view result ≡ named_function names.now symbol.now }
{
    if !is_function(symbol) {
        return None;
    }
    let name = name_at(names, symbol.st_name).ok()?;
    if name.is_empty() {
        return None;
    }
    Some(function_of_symbol(symbol, name))
}

/// The function of a symbol, by its name; the binding is in the high four bits of `st_info`.
fn function_of_symbol<'input>(symbol: &Symbol, name: &'input [u8]) -> Function<'input>
    ensures { function_view result ≡ function_of_symbol symbol.now name.now }
{
    Function {
        name,
        address: symbol.st_value,
        size: symbol.st_size,
        binding: symbol.st_info / 16,
    }
}
