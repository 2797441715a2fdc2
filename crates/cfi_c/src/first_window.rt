//! The window of memory from which most is read.
ghost use Rattle.std.specs.Prelude.{◌≡◌, ◌+◌, ◌≤◌, length, slice_range, false};
ghost use Rattle.std.specs.Int.{w64};
ghost use Rattle.cfi_read_core.specs.Numbers.{number_of};
ghost use Rattle.cfi_expression.specs.Arithmetic.{displaced};
ghost use Rattle.cfi_step.specs.PackedRules.{eightfold};
ghost use Rattle.cfi_c.specs.WindowPlaces.{ArePlacesIn};

use crate::memory::CfiMemory;
use cfi_step::packed_rules::eightfold;
use gimli_cfi::ReaderAddress;

/// The first window of memory, if addresses have eight bytes, the least significant one first, as
/// most have. It has most of what is read.
#[derive(Drop)]
pub struct FirstWindow<'a> {
    bytes: &'a [u8],
    base: u64,
    /// At how many places, from the first on, there are eight bytes.
    places: u64,
    ghost inside: { ArePlacesIn (length bytes.now) base places },
}

impl<'a> FirstWindow<'a> {
    ghost use Rattle.std.specs.Prelude.{◌≡◌, length, Some, IfSome};
    ghost use Rattle.cfi_expression.specs.Arithmetic.{displaced};
    ghost use Rattle.cfi_step.specs.PackedRules.{eightfold};
    ghost use Rattle.cfi_c.specs.declared.memory.CfiMemory.{CfiMemory};
    ghost use Rattle.cfi_c.specs.FirstWindows.{HasAt, IsFirstWindow};
    ghost use Rattle.cfi_c.specs.PassedMemories.{number_in_memory};

    /// The first window of the memory.
    #[inline(always)]
    pub fn of(memory: &CfiMemory<'a>) -> FirstWindow<'a>
        ensures { IsFirstWindow memory.now result }
    {
        if memory.address_size != 8 || memory.big_endian || memory.windows.is_empty() {
            return FirstWindow {
                bytes: &[],
                base: 0,
                places: 0,
            };
        }
        let window = &memory.windows[0];
        FirstWindow {
            bytes: window.bytes,
            base: window.base,
            places: places_in(window.bytes, window.base),
        }
    }

    /// The number that is saved at the CFA plus so many words, if the window has it.
    #[inline(always)]
    pub fn number_at(&self, cfa: u64, words: i8) -> Option<u64>
        ensures { (memory : CfiMemory) → IsFirstWindow memory self.now → IfSome result (λ n.
            number_in_memory memory (displaced memory.address_size cfa (eightfold words))
            memory.address_size ≡ Some n) }
    {
        self.number(displaced_by(cfa, words))
    }

    /// The number at an address, if the window has it.
    #[inline(always)]
    fn number(&self, address: u64) -> Option<u64>
        ensures { IfSome result (HasAt self.now address) }
    {
        // of an address below the base it is too large
        let place = address.wrapping_sub(self.base);
        if place < self.places {
            Some(number_in(self.bytes, place as usize))
        } else {
            None
        }
    }
}

/// An address plus so many words of eight bytes.
#[inline(always)]
fn displaced_by(address: u64, words: i8) -> u64
    ensures { result ≡ displaced 8 address (eightfold words) }
{
    address.wrapping_add_sized(eightfold(words).cast_unsigned(), 8)
}

/// At how many places of the bytes there are eight, none of which has an address that is too large.
#[inline(always)]
fn places_in(bytes: &[u8], base: u64) -> u64
    ensures { ArePlacesIn (length bytes.now) base result }
{
    let count = bytes.len();
    if count < 8 {
        return 0;
    }
    let places = (count - 7) as u64;
    places.min(u64::MAX - base)
}

/// The number that eight bytes make.
#[inline(always)]
fn number_in(bytes: &[u8], at: usize) -> u64
    requires { at + 8 ≤ length bytes.now }
    ensures { result ≡ number_of w64 false (slice_range bytes.now at (at + 8)) }
{
    u64::from_le_bytes([
        bytes[at],
        bytes[at + 1],
        bytes[at + 2],
        bytes[at + 3],
        bytes[at + 4],
        bytes[at + 5],
        bytes[at + 6],
        bytes[at + 7],
    ])
}
