//! The address of a function, by the value of its symbol and the machine (ELF for the Arm
//! architecture, "Symbol Values"; 64-bit PowerPC ELF ABI 1.9, section 3.2.5).
ghost use Rattle.std.specs.Prelude.{◌≡◌, Some, option_map};
ghost use Rattle.cfi_read_core.specs.ReaderCalls.{map_ok};
ghost use Rattle.cfi_elf.specs.ElfFiles.{file_view};
ghost use Rattle.cfi_elf.specs.FunctionEntries.{described, located_value, function_descriptors};
ghost use Rattle.cfi_elf.specs.FunctionEntries.{function_entry, has_descriptors, located};
ghost use Rattle.cfi_elf.specs.Sections.{section_view};

use crate::bytes::{Record, part};
use crate::constants::{EM_ARM, EM_PPC64, ET_REL};
use crate::elf_file::ElfFile;
use crate::error::ElfError;
use crate::sections::Section;
use crate::symbol::{Symbol, has_type_of_function};
use cfi_read_core::Endianity;

/// The bytes of a doubleword.
const DOUBLEWORD: u64 = 8;

impl<'input> ElfFile<'input> {
    /// The section of the descriptors of functions; `None` where the file has none. Fails where it
    /// can't be read.
    #[tactic(auto, unfolding(crate::specs::FunctionEntries::function_descriptors))]
    pub(crate) fn function_descriptors(&self) -> Result<Option<Section<'input>>, ElfError>
        ensures { map_ok (option_map section_view) result
            ≡ function_descriptors (file_view self.now) }
    {
        if self.has_descriptors() {
            self.section(b".opd")
        } else {
            Ok(None)
        }
    }

    /// Whether the symbols of functions may be those of descriptors.
    fn has_descriptors(&self) -> bool
        ensures { result ≡ has_descriptors (file_view self.now) }
    {
        self.header.kind.e_machine == EM_PPC64 && self.header.kind.e_type != ET_REL
    }

    /// The symbol, with the address of the function for its value if it is one.
    pub(crate) fn located(&self, descriptors: Option<Section<'input>>, symbol: &Symbol) -> Symbol
        ensures { result ≡ located (file_view self.now) (option_map section_view descriptors.entry)
            symbol.now }
    {
        let mut located = *symbol;
        located.st_value = self.located_value(descriptors, symbol);
        located
    }

    /// The address of the function that a symbol is, or the value of any other symbol.
    fn located_value(&self, descriptors: Option<Section<'input>>, symbol: &Symbol) -> u64
        ensures { result ≡ located_value (file_view self.now)
            (option_map section_view descriptors.entry) symbol.now }
    {
        if has_type_of_function(symbol) {
            self.function_entry(descriptors, symbol.st_value)
        } else {
            symbol.st_value
        }
    }

    /// The address of a function whose symbol has this value.
    fn function_entry(&self, descriptors: Option<Section<'input>>, value: u64) -> u64
        ensures { result ≡ function_entry (file_view self.now)
            (option_map section_view descriptors.entry) value }
    {
        if self.header.kind.e_machine == EM_ARM {
            // Bit 0 says that the instructions are those of Thumb.
            return value - value % 2;
        }
        let big_endian = self.identification.data.is_big_endian();
        match descriptors {
            Some(section) => described(big_endian, &section, value),
            None => value,
        }
    }
}

/// The first doubleword of the descriptor at an address; the address where the section has none
/// there.
fn described(big_endian: bool, section: &Section<'_>, address: u64) -> u64
    ensures { result ≡ described big_endian (Some (section_view section.now)) address }
{
    if address < section.address {
        return address;
    }
    match part(section.bytes, address - section.address, DOUBLEWORD) {
        Some(bytes) => Record { bytes, big_endian }.xword(0),
        None => address,
    }
}
