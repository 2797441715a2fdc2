//! Symbols that are told in a text, a line each.
ghost use Rattle.std.specs.Prelude.{◌≡◌, IfOk, map, option_map};
ghost use Rattle.std.specs.List.Sorted.{IsNonDecreasingBy};
ghost use Rattle.cfi_mapped.specs.TextSymbols.{digit_of, text_lines, told_number, split_at_byte};
ghost use Rattle.cfi_mapped.specs.TextSymbols.{text_parts_view, with_hexadecimal_digit};

use cfi_elf::bytes::bytes_from;
use std::alloc::{AllocError, Global};

/// A symbol that is told in a text.
#[derive(Clone, Copy, Debug)]
pub struct TextSymbol<'run> {
    /// Where it begins.
    pub address: u64,
    /// How many bytes it has; 0 where the text doesn't tell it.
    pub size: u64,
    /// Whether it is a function, and no data.
    pub is_function: bool,
    /// The name.
    pub name: &'run [u8],
    /// The module of the kernel that has it, in brackets; `None` for others.
    pub owner: Option<&'run [u8]>,
}

/// Two parts of a text, with one byte between them.
#[derive(Clone, Copy)]
pub struct TextParts<'run> {
    /// What is before the byte.
    pub front: &'run [u8],
    /// What is after it.
    pub rest: &'run [u8],
}

/// Symbols that are sorted by their addresses.
#[derive(Drop)]
pub struct SortedSymbols<'run> {
    symbols: Vec<TextSymbol<'run>>,
    ghost sorted: { IsNonDecreasingBy (λ symbol. symbol.address) symbols.items },
}

impl<'run> SortedSymbols<'run> {
    ghost use Rattle.std.specs.Prelude.{◌≡◌, ℕ, IfOk, map, option_map};
    ghost use Rattle.cfi_mapped.specs.SortedSymbols.{nearest_in};
    ghost use Rattle.cfi_mapped.specs.TextSymbols.{nearest_among, symbol_view};

    /// These symbols, sorted. Fails where memory is refused.
    pub fn of(symbols: Vec<TextSymbol<'run>>) -> Result<SortedSymbols<'run>, AllocError>
        ensures { (address : ℕ) → IfOk result (λ sorted. nearest_in sorted address
            ≡ nearest_among (map symbol_view symbols.entry.items) address) }
    {
        let mut symbols = symbols;
        symbols.sort_by_key(|symbol| symbol.address)?;
        Ok(SortedSymbols { symbols })
    }

    /// The last symbol of those that begin at the address, or else nearest before it. Found by
    /// halving; does not allocate.
    pub fn nearest(&self, address: u64) -> Option<TextSymbol<'run>>
        ensures { option_map symbol_view result ≡ nearest_in self.now address }
    {
        let count = self
            .symbols
            .partition_point(|symbol| symbol.address <= address);
        if count == 0 {
            return None;
        }
        match self.symbols.get(count - 1) {
            Some(symbol) => Some(*symbol),
            None => None,
        }
    }
}

/// The lines of a text. Fails where memory is refused.
pub fn text_lines<'run>(alloc: Global, text: &'run [u8]) -> Result<Vec<&'run [u8]>, AllocError>
    ensures { IfOk result (λ lines. map (λ line. line.now) lines.items ≡ text_lines text.now) }
{
    text.split(|byte| *byte == b'\n').collect(alloc)
}

/// What is before the first byte of this value, and what is after it. Does not
/// allocate.
pub fn split_at_byte(text: &[u8], byte: u8) -> Option<TextParts<'_>>
    ensures { option_map text_parts_view result ≡ split_at_byte byte text.now }
{
    match text.iter().position(|c| *c == byte) {
        Some(place) => Some(TextParts {
            front: &text[..place],
            rest: bytes_from(text, place as u64 + 1),
        }),
        None => None,
    }
}

/// The number of one hexadecimal digit or more; `None` where it isn't below 2^64. Does not
/// allocate.
pub fn told_number(digits: &[u8]) -> Option<u64>
    ensures { result ≡ told_number digits.now }
{
    if digits.is_empty() {
        return None;
    }
    let mut number = 0;
    for digit in digits {
        number = with_hexadecimal_digit(number, *digit)?;
    }
    Some(number)
}

/// The number with one more digit; `None` where it is no digit or the number 2^64 or more.
fn with_hexadecimal_digit(number: u64, digit: u8) -> Option<u64>
    ensures { result ≡ with_hexadecimal_digit number digit }
{
    let value = digit_of(digit)?;
    if number < 0x1000_0000_0000_0000 {
        Some(number * 16 + value)
    } else {
        None
    }
}

/// The value of a hexadecimal digit.
fn digit_of(digit: u8) -> Option<u64>
    ensures { result ≡ digit_of digit }
{
    if b'0' <= digit && digit <= b'9' {
        Some((digit - b'0') as u64)
    } else if b'a' <= digit && digit <= b'f' {
        Some((digit - b'a') as u64 + 10)
    } else if b'A' <= digit && digit <= b'F' {
        Some((digit - b'A') as u64 + 10)
    } else {
        None
    }
}
