//! The symbols of the kernel that runs, by their addresses.
ghost use Rattle.std.specs.Prelude.{◌≡◌, ℕ, codes};
ghost use Rattle.cfi_mapped.specs.KernelSymbols.{address_of_symbol, kernel_symbol_at};
ghost use Rattle.cfi_mapped.specs.SortedSymbols.{nearest_in};

use crate::kernel_symbols::{kernel_address_among, symbols_of};
use crate::mappings::MappedCode;
use crate::text_symbols::{SortedSymbols, TextSymbol};
use std::alloc::{AllocError, Global};

/// The symbols of the kernel that runs, sorted by their addresses.
#[derive(Drop)]
pub struct KernelNames<'run> {
    text: &'run [u8],
    symbol: &'run [u8],
    /// Where the symbol named `symbol` is.
    start: Option<u64>,
    /// Where the code ends, `_etext`.
    code_end: Option<u64>,
    /// Where the data ends, `_edata`.
    data_end: Option<u64>,
    symbols: SortedSymbols<'run>,
    ghost begins: { start ≡ address_of_symbol text.now symbol.now },
    ghost ends: { code_end ≡ address_of_symbol text.now (codes "_etext") },
    ghost ends_with_data: { data_end ≡ address_of_symbol text.now (codes "_edata") },
    ghost placed: { (address : ℕ)
        → nearest_in symbols address ≡ kernel_symbol_at text.now address },
}

impl<'run> KernelNames<'run> {
    ghost use Rattle.std.specs.Prelude.{◌≡◌, IfOk, option_map};
    ghost use Rattle.cfi_mapped.specs.KernelNames.{is_kernel_of, is_where, kernel_view};
    ghost use Rattle.cfi_mapped.specs.KernelSymbols.{kernel_symbol_at};
    ghost use Rattle.cfi_mapped.specs.TextSymbols.{symbol_view};

    /// The symbols of a text, and the name of that after which the kernel's mapping is named. Fails
    /// where memory is refused. Allocates: the symbols are sorted once.
    pub fn of(
        alloc: Global,
        text: &'run [u8],
        symbol: &'run [u8],
    ) -> Result<KernelNames<'run>, AllocError>
        ensures { IfOk result (λ names. kernel_view names
            ≡ record { text = text.entry.now; symbol = symbol.entry.now }) }
    {
        let symbols = symbols_of(alloc, text)?;
        let list = symbols.as_slice();
        let start = kernel_address_among(list, symbol);
        let code_end = kernel_address_among(list, b"_etext");
        let data_end = kernel_address_among(list, b"_edata");
        Ok(KernelNames {
            text,
            symbol,
            start,
            code_end,
            data_end,
            symbols: SortedSymbols::of(symbols)?,
        })
    }

    /// Returns whether this is the kernel that was mapped: it has the symbol after which the
    /// mapping is named where the mapping's offset says, and ends its code (`_etext`), or its data
    /// (`_edata`), where the mapping ends. An address of 0 isn't told. Does not allocate.
    pub fn is_of(&self, mapped: &MappedCode) -> bool
        ensures { result ≡ is_kernel_of mapped.now (kernel_view self.now) }
    {
        Self::is_where(mapped.offset, self.start)
            && (Self::is_where(mapped.end, self.code_end)
                || Self::is_where(mapped.end, self.data_end))
    }

    /// The last symbol of those that begin at the address, or else nearest before it. Found by
    /// halving; does not allocate.
    pub fn symbol_at(&self, address: u64) -> Option<TextSymbol<'run>>
        ensures { option_map symbol_view result
            ≡ kernel_symbol_at (kernel_view self.now).text address }
    {
        self.symbols.nearest(address)
    }

    /// Whether a symbol is at this place, and not at 0, which stands for an address that isn't
    /// told.
    fn is_where(place: u64, address: Option<u64>) -> bool
        ensures { result ≡ is_where place address }
    {
        match address {
            Some(address) => address == place && address != 0,
            None => false,
        }
    }
}
