//! Symbols of a symbol table (System V ABI chapter 4, "Symbol Table").
ghost use Rattle.std.specs.Prelude.{◌≡◌, ◌<◌, ◌≤◌, length};
ghost use Rattle.cfi_elf.specs.Headers.{symbol, symbol_bytes};
ghost use Rattle.cfi_elf.specs.Symbols.{has_type_of_function, is_function};

use crate::bytes::Record;
use crate::class_fields::by_class;
use crate::constants::{SHN_UNDEF, STT_FUNC, STT_GNU_IFUNC};
use crate::file_header::Class;

/// A symbol.
#[derive(Clone, Copy, Debug, PartialEq, Eq)]
pub struct Symbol {
    /// Where its name begins in the names of symbols.
    pub st_name: u32,
    pub st_value: u64,
    pub st_size: u64,
    pub st_info: u8,
    pub st_shndx: u16,
}

/// The size of a symbol in bytes.
#[inline(always)]
pub(crate) fn symbol_size(class: Class) -> u64
    ensures value { result ≡ symbol_bytes class }
    ensures some { 0 < result }
{
    match class {
        Class::Elf32 => 16,
        Class::Elf64 => 24,
    }
}

/// The symbol in these bytes.
#[inline(always)]
pub(crate) fn parse_symbol(class: Class, fields: Record<'_>) -> Symbol
    requires { symbol_bytes class ≤ length fields.bytes.now }
    ensures { result ≡ symbol class fields.entry.big_endian fields.entry.bytes.now }
{
    Symbol {
        st_name: fields.word(0),
        st_value: fields.widened(class, 4, 8),
        st_size: fields.widened(class, 8, 16),
        st_info: fields.byte(by_class(class, 12, 4)),
        st_shndx: fields.half(by_class(class, 14, 6)),
    }
}

/// Whether the symbol is a defined function.
pub(crate) fn is_function(symbol: &Symbol) -> bool
    ensures { result ≡ is_function symbol.now }
{
    has_type_of_function(symbol) && symbol.st_shndx != SHN_UNDEF
}

/// Whether the symbol is of a function by its type, defined or not.
pub(crate) fn has_type_of_function(symbol: &Symbol) -> bool
    ensures { result ≡ has_type_of_function symbol.now }
{
    let symbol_type = symbol.st_info % 16;
    symbol_type == STT_FUNC || symbol_type == STT_GNU_IFUNC
}
