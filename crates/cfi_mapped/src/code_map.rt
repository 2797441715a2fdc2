//! The functions of code that a process made, as it tells them (`/tmp/perf-PID.map`).
ghost use Rattle.std.specs.Prelude.{◌≡◌, ℕ, IfOk, map, option_map, string_bytes};
ghost use Rattle.std.specs.List.{filter_map};
ghost use Rattle.cfi_elf.specs.FunctionPlaces.{place_view};
ghost use Rattle.cfi_mapped.specs.CodeMaps.{is_memory_name, map_name, place_by, map_symbol_from};
ghost use Rattle.cfi_mapped.specs.CodeMaps.{map_symbol_of, symbol_sized, map_symbols_of};
ghost use Rattle.cfi_mapped.specs.SortedSymbols.{nearest_in};
ghost use Rattle.cfi_mapped.specs.TextSymbols.{nearest_among, text_parts_view, symbol_view};

use crate::names::Name;
use crate::text_symbols::{
    SortedSymbols, TextParts, TextSymbol, split_at_byte, text_lines, told_number,
};
use cfi_elf::FunctionPlace;
use std::alloc::{AllocError, Global};

/// Returns whether a mapping with this name is of memory that is no file's, in which a process may
/// make code. Does not allocate.
pub fn is_memory_name(name: &[u8]) -> bool
    ensures { result ≡ is_memory_name name.now }
{
    name.starts_with(b"//anon")
        || name.starts_with(b"[anon")
        || name.starts_with(b"/memfd:")
        || name.starts_with(b"/dev/zero")
        || name.starts_with(b"/anon_hugepage")
        || name.starts_with(b"/SYSV")
        || name.starts_with(b"[heap]")
        || name.starts_with(b"[stack")
}

/// Returns the path of the file in which a process tells the functions of code that it made. Fails
/// where memory is refused.
pub fn map_name(alloc: Global, process: u32) -> Result<String, AllocError>
    ensures { IfOk result (λ name. string_bytes name ≡ map_name process) }
{
    format!(in alloc; "/tmp/perf-{process}.map")
}

/// The functions of code that a process made, by their addresses.
#[derive(Drop)]
pub struct CodeMap<'run> {
    /// The path of the text.
    pub name: Name<'run>,
    text: &'run [u8],
    symbols: SortedSymbols<'run>,
    ghost placed: { (address : ℕ)
        → nearest_in symbols address ≡ nearest_among (map_symbols_of text.now) address },
}

impl<'run> CodeMap<'run> {
    ghost use Rattle.std.specs.Prelude.{◌≡◌, IfOk, option_map};
    ghost use Rattle.cfi_elf.specs.FunctionPlaces.{place_view};
    ghost use Rattle.cfi_mapped.specs.CodeMaps.{code_function_at};
    ghost use Rattle.cfi_mapped.specs.CodeMapViews.{code_map_view};

    /// The functions of this text, which has this path. Fails where memory is refused. Allocates:
    /// the functions are sorted once.
    pub fn of(
        alloc: Global,
        name: &'run [u8],
        text: &'run [u8],
    ) -> Result<CodeMap<'run>, AllocError>
        ensures { IfOk result (λ map. code_map_view map
            ≡ record { name = name.entry.now; text = text.entry.now }) }
    {
        let symbols = symbols_of(alloc, text)?;
        Ok(CodeMap {
            name: Name::new(name),
            text,
            symbols: SortedSymbols::of(symbols)?,
        })
    }

    /// The function by which an address is: the one of the last line of those that begin there, or
    /// else nearest before it. `None` where it isn't in one of its bytes. Found by halving; does
    /// not allocate.
    pub fn function_at(&self, address: u64) -> Option<FunctionPlace<'run>>
        ensures { option_map place_view result
            ≡ code_function_at (code_map_view self.now).text address }
    {
        match self.symbols.nearest(address) {
            Some(symbol) => place_by(address, &symbol),
            None => None,
        }
    }
}

/// The place in a function, if the address is in one of its bytes.
fn place_by<'run>(address: u64, symbol: &TextSymbol<'run>) -> Option<FunctionPlace<'run>>
    ensures { option_map place_view result ≡ place_by address (symbol_view symbol.now) }
{
    let offset = address.saturating_sub(symbol.address);
    if offset < symbol.size {
        Some(FunctionPlace {
            name: symbol.name,
            offset,
        })
    } else {
        None
    }
}

/// The functions of a text, in the order of its lines.
#[tactic(auto, unfolding(crate::specs::CodeMaps::map_symbols_of))]
fn symbols_of<'run>(alloc: Global, text: &'run [u8]) -> Result<Vec<TextSymbol<'run>>, AllocError>
    ensures { IfOk result (λ symbols. map symbol_view symbols.items ≡ map_symbols_of text.now) }
{
    let lines = text_lines(alloc, text)?;
    symbols_on(alloc, lines.as_slice())
}

/// The functions of these lines.
fn symbols_on<'run>(
    alloc: Global,
    lines: &[&'run [u8]],
) -> Result<Vec<TextSymbol<'run>>, AllocError>
    ensures { IfOk result (λ symbols. map symbol_view symbols.items
        ≡ filter_map map_symbol_of (map (λ line. line.now) lines.now)) }
{
    let mut symbols = Vec::new(alloc);
    for line in lines {
        if let Some(symbol) = symbol_of(line) {
            symbols.push(symbol)?;
        }
    }
    Ok(symbols)
}

/// The function of a line; `None` where it isn't two numbers and a name.
fn symbol_of(line: &[u8]) -> Option<TextSymbol<'_>>
    ensures { option_map symbol_view result ≡ map_symbol_of line.now }
{
    symbol_from(split_at_byte(line, b' ')?)
}

/// The function of a line of which the first part is its address.
fn symbol_from(line: TextParts<'_>) -> Option<TextSymbol<'_>>
    ensures { option_map symbol_view result ≡ map_symbol_from (text_parts_view line.entry) }
{
    let address = told_number(line.front)?;
    symbol_sized(address, split_at_byte(line.rest, b' ')?)
}

/// The function at an address, with its size as the first of these parts.
fn symbol_sized(address: u64, parts: TextParts<'_>) -> Option<TextSymbol<'_>>
    ensures { option_map symbol_view result ≡ symbol_sized address (text_parts_view parts.entry) }
{
    let size = told_number(parts.front)?;
    Some(TextSymbol {
        address,
        size,
        is_function: true,
        name: parts.rest,
        owner: None,
    })
}
