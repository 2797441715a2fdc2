//! A frame, as an expression sees it.
ghost use Rattle.std.specs.Prelude.{◌≡◌, ⊤, ok_or};
ghost use Rattle.cfi_read_core.specs.AddressSizes.{size_in_bytes};
ghost use Rattle.cfi_expression.specs.Arithmetic.{displaced};
ghost use Rattle.cfi_expression.specs.Frames.{frame_view, known, number_at};
ghost use Rattle.cfi_expression.specs.declared.error.FrameError.TheVariants.{UnknownRegister};

use crate::error::FrameError;
use crate::memory::Memory;
use cfi_read_core::address::AddressSize;
use cfi_read_core::{ReaderAddress, Register};
use std::alloc::AllocError;

/// A frame: what is known of its registers and its memory.
pub struct Frame<'a, M> {
    /// The value of each register by its number, where it is known.
    pub registers: &'a [Option<u64>],
    /// The memory of the process.
    pub memory: &'a M,
    /// The size of an address, which is that of an entry of the stack of an expression (DWARF 5
    /// section 2.5.1).
    pub address_size: AddressSize,
}

impl<M> Clone for Frame<'_, M> {
    ghost is_clone = { λ x y. y ≡ x };

    ghost is_infallible = { λ _. ⊤ };

    fn clone(&self) -> std::result::Result<Self, AllocError> {
        Ok(*self)
    }
}

impl<M> Copy for Frame<'_, M> {}

/// The value of a register, where it is known.
pub fn known_register(registers: &[Option<u64>], register: Register) -> Option<u64>
    ensures { result ≡ known registers.now register.0 }
{
    let index = usize::from(register.0);
    if index < registers.len() {
        registers[index]
    } else {
        None
    }
}

/// The value of a register. Returns `FrameError::UnknownRegister` if it is not known.
pub fn register_value(registers: &[Option<u64>], register: Register) -> Result<u64, FrameError>
    ensures { result ≡ ok_or (known registers.now register.0) (UnknownRegister register) }
{
    match known_register(registers, register) {
        Some(value) => Ok(value),
        None => Err(FrameError::UnknownRegister(register)),
    }
}

/// The number of `size` bytes at an address.
///
/// Returns `FrameError::UnsupportedSize` if the size is not 1, 2, 4 or 8 or is wider than an
/// address, and `FrameError::UnreadableMemory` if the memory cannot be read.
pub fn number_at<M: Memory>(frame: &Frame<'_, M>, address: u64, size: u8) -> Result<u64, FrameError>
    ensures { result ≡ number_at (frame_view M.number_at frame.now) address size }
{
    if !matches!(size, 1 | 2 | 4 | 8) || size > frame.address_size.bytes() {
        return Err(FrameError::UnsupportedSize(size));
    }
    match frame.memory.read(address, size) {
        Some(number) => Ok(number),
        None => Err(FrameError::UnreadableMemory(address)),
    }
}

/// An address plus a number with a sign, modulo the size.
pub fn displaced(address: u64, offset: i64, size: AddressSize) -> u64
    ensures { result ≡ displaced (size_in_bytes size) address offset }
{
    address.wrapping_add_sized(offset.cast_unsigned(), size.bytes())
}
