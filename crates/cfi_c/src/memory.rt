//! Memory in several windows, as C passes it.
ghost use Rattle.std.specs.Prelude.{◌≡◌, option_map};
ghost use Rattle.cfi_read_core.specs.Addresses.{IsAddressSize};
ghost use Rattle.cfi_read_core.specs.ByteOrder.{is_big};
ghost use Rattle.cfi_read_core.specs.SliceReaders.{slice_over, slice_position};
ghost use Rattle.cfi_expression.specs.Arithmetic.{displaced};
ghost use Rattle.cfi_c.specs.PassedMemories.{abi_in, bytes_in, bytes_in_window, number_in_window};

use cfi_elf::bytes::part;
use cfi_step::{Abi, Memory, Window};
use gimli_cfi::{EndianSlice, ReaderAddress, Register, RunTimeEndian};

/// Some bytes of memory.
#[repr(C)]
pub struct CfiWindow<'a> {
    /// The address of the first byte.
    pub base: u64,
    pub bytes: &'a [u8],
}

/// Memory, as far as it is there, and what the ABI says of frames.
#[repr(C)]
pub struct CfiMemory<'a> {
    /// In any order. A number is read of the first that has all its bytes.
    pub windows: &'a [CfiWindow<'a>],
    /// The bits of a return address that hold its signature; 0 if none is signed.
    pub signature_mask: u64,
    /// How many operations an expression may do.
    pub max_iterations: u32,
    /// The number of the register that is the stack pointer.
    pub stack_pointer: u16,
    pub big_endian: bool,
    /// 1, 2, 4 or 8.
    pub address_size: u8,
}

impl Memory for CfiMemory<'_> {
    ghost use Rattle.cfi_c.specs.PassedMemories.{number_in_memory};

    ghost number_at = { number_in_memory };

    fn read(&self, address: u64, size: u8) -> Option<u64> {
        for window in self.windows {
            let number = read_in(window, self.big_endian, address, size);
            if number.is_some() {
                return number;
            }
        }
        None
    }
}

/// The number at an address, if the window has all its bytes.
fn read_in(window: &CfiWindow<'_>, big_endian: bool, address: u64, size: u8) -> Option<u64>
    requires { IsAddressSize size }
    ensures { result ≡ number_in_window big_endian window.now address size }
{
    window_over(window.base, window.bytes, big_endian).read(address, size)
}

/// The bytes from an address on as memory, in which numbers have this order.
#[inline(always)]
pub fn window_over<'a>(
    base: u64,
    bytes: &'a [u8],
    big_endian: bool,
) -> Window<EndianSlice<'a, RunTimeEndian>>
    ensures base { result.base ≡ base }
    ensures bytes { slice_position is_big result.bytes ≡ slice_over bytes.now big_endian }
{
    let endian = if big_endian {
        RunTimeEndian::Big
    } else {
        RunTimeEndian::Little
    };
    Window {
        base,
        bytes: EndianSlice::new(bytes, endian),
    }
}

/// What the ABI says.
pub fn abi_in(memory: &CfiMemory<'_>) -> Abi
    ensures { result ≡ abi_in memory.now }
{
    Abi {
        stack_pointer: Register(memory.stack_pointer),
        signature_mask: memory.signature_mask,
        max_iterations: memory.max_iterations,
    }
}

/// So many bytes at an address, of the first window that has them all.
pub fn bytes_in<'a>(windows: &[CfiWindow<'a>], address: u64, size: u64) -> Option<&'a [u8]>
    ensures { option_map (λ bytes. bytes.now) result ≡ bytes_in address size windows.now }
{
    for window in windows {
        if let Some(bytes) = bytes_in_window(window, address, size) {
            return Some(bytes);
        }
    }
    None
}

/// The same, of this window.
fn bytes_in_window<'a>(window: &CfiWindow<'a>, address: u64, size: u64) -> Option<&'a [u8]>
    ensures { option_map (λ bytes. bytes.now) result ≡ bytes_in_window address size window.now }
{
    if address < window.base {
        return None;
    }
    part(window.bytes, address - window.base, size)
}

/// An address plus a number with a sign, modulo the size.
#[inline(always)]
pub fn displaced(address: u64, offset: i64, size: u8) -> u64
    requires { IsAddressSize size }
    ensures { result ≡ displaced size address offset }
{
    address.wrapping_add_sized(offset.cast_unsigned(), size)
}
