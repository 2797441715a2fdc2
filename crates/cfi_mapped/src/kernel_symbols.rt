//! The symbols of the kernel, as it tells them (`/proc/kallsyms`, proc(5)).
ghost use Rattle.std.specs.Prelude.{◌≡◌, IfOk, map, option_map};
ghost use Rattle.std.specs.List.{filter_map};
ghost use Rattle.cfi_mapped.specs.KernelSymbols.{address_if, is_data_type, kernel_address_among};
ghost use Rattle.cfi_mapped.specs.KernelSymbols.{is_function_type, is_kernel_name};
ghost use Rattle.cfi_mapped.specs.KernelSymbols.{is_function_of_letter};
ghost use Rattle.cfi_mapped.specs.KernelSymbols.{is_function_of_type, kernel_symbol_from};
ghost use Rattle.cfi_mapped.specs.KernelSymbols.{symbol_named, kernel_symbol_of};
ghost use Rattle.cfi_mapped.specs.KernelSymbols.{symbol_typed, kernel_symbols_of};
ghost use Rattle.cfi_mapped.specs.TextSymbols.{split_at_byte, text_parts_view, symbol_view};

use crate::text_symbols::{TextParts, TextSymbol, split_at_byte, text_lines, told_number};
use std::alloc::{AllocError, Global};

/// What profiles name the kernel's own code.
pub const KERNEL_IMAGE: &[u8] = b"[kernel.kallsyms]";

/// Returns whether a mapping with this name is of the kernel itself: after `KERNEL_IMAGE` it has
/// the name of a symbol, as `_text`. Does not allocate.
pub fn is_kernel_name(name: &[u8]) -> bool
    ensures { result ≡ is_kernel_name name.now }
{
    name.starts_with(KERNEL_IMAGE)
}

/// The symbols of a text, in the order of its lines. Fails where memory is refused.
#[tactic(auto, unfolding(crate::specs::KernelSymbols::kernel_symbols_of))]
pub fn symbols_of<'run>(
    alloc: Global,
    text: &'run [u8],
) -> Result<Vec<TextSymbol<'run>>, AllocError>
    ensures { IfOk result (λ symbols. map symbol_view symbols.items ≡ kernel_symbols_of text.now) }
{
    let lines = text_lines(alloc, text)?;
    symbols_on(alloc, lines.as_slice())
}

/// The symbols of these lines.
fn symbols_on<'run>(
    alloc: Global,
    lines: &[&'run [u8]],
) -> Result<Vec<TextSymbol<'run>>, AllocError>
    ensures { IfOk result (λ symbols. map symbol_view symbols.items
        ≡ filter_map kernel_symbol_of (map (λ line. line.now) lines.now)) }
{
    let mut symbols = Vec::new(alloc);
    for line in lines {
        if let Some(symbol) = symbol_of(line) {
            symbols.push(symbol)?;
        }
    }
    Ok(symbols)
}

/// The symbol of a line; `None` where it isn't a number, a type and a name, or the type is neither
/// that of a function nor of data.
fn symbol_of(line: &[u8]) -> Option<TextSymbol<'_>>
    ensures { option_map symbol_view result ≡ kernel_symbol_of line.now }
{
    symbol_from(split_at_byte(line, b' ')?)
}

/// The symbol of a line of which the first part is its address.
fn symbol_from(line: TextParts<'_>) -> Option<TextSymbol<'_>>
    ensures { option_map symbol_view result ≡ kernel_symbol_from (text_parts_view line.entry) }
{
    let address = told_number(line.front)?;
    symbol_typed(address, split_at_byte(line.rest, b' ')?)
}

/// The symbol at an address, with its type as the first of these parts.
fn symbol_typed(address: u64, parts: TextParts<'_>) -> Option<TextSymbol<'_>>
    ensures { option_map symbol_view result ≡ symbol_typed address (text_parts_view parts.entry) }
{
    let is_function = is_function_of_type(parts.front)?;
    Some(symbol_named(address, is_function, parts.rest))
}

/// The symbol with this name, or with the name and the module that are before and after a tab.
fn symbol_named(address: u64, is_function: bool, name: &[u8]) -> TextSymbol<'_>
    ensures { symbol_view result
        ≡ symbol_named address is_function name.entry.now (split_at_byte 9 name.entry.now) }
{
    match split_at_byte(name, b'\t') {
        Some(parts) => TextSymbol {
            address,
            size: 0,
            is_function,
            name: parts.front,
            owner: Some(parts.rest),
        },
        None => TextSymbol {
            address,
            size: 0,
            is_function,
            name,
            owner: None,
        },
    }
}

/// Whether a symbol of the type is a function; `None` where it is neither that nor data.
fn is_function_of_type(kind: &[u8]) -> Option<bool>
    ensures { result ≡ is_function_of_type kind.now }
{
    let (letter, others) = kind.split_first()?;
    if others.is_empty() {
        is_function_of_letter(*letter)
    } else {
        None
    }
}

/// The same by the letter of the type.
fn is_function_of_letter(letter: u8) -> Option<bool>
    ensures { result ≡ is_function_of_letter letter }
{
    if is_function_type(letter) {
        Some(true)
    } else if is_data_type(letter) {
        Some(false)
    } else {
        None
    }
}

/// Whether the letter is the type of functions.
fn is_function_type(letter: u8) -> bool
    ensures { result ≡ is_function_type letter }
{
    letter == b'T' || letter == b't' || letter == b'W' || letter == b'w'
}

/// Whether the letter is the type of data.
fn is_data_type(letter: u8) -> bool
    ensures { result ≡ is_data_type letter }
{
    letter == b'D' || letter == b'd' || letter == b'B' || letter == b'b'
}

/// The address of the first symbol of the kernel itself with this name. Does not allocate.
pub fn kernel_address_among(symbols: &[TextSymbol<'_>], name: &[u8]) -> Option<u64>
    ensures { result ≡ kernel_address_among (map symbol_view symbols.now) name.now }
{
    for symbol in symbols {
        if let Some(address) = address_if(symbol, name) {
            return Some(address);
        }
    }
    None
}

/// The address of a symbol, if it is one of the kernel itself with this name.
fn address_if(symbol: &TextSymbol<'_>, name: &[u8]) -> Option<u64>
    ensures { result ≡ address_if name.now (symbol_view symbol.now) }
{
    if symbol.owner.is_none() && symbol.name == name {
        Some(symbol.address)
    } else {
        None
    }
}
