//! Addresses of 1, 2, 4 or 8 bytes, and their sums.
ghost use Rattle.std.specs.Prelude.{◌≡◌, ⊤, ℕ, true};
ghost use Rattle.cfi_read_core.specs.Addresses.{IsAddressSize, checked_sum, fits, is_sized, wrap};
ghost use Rattle.cfi_read_core.specs.ReaderCalls.{map_ok};

use crate::error::{Error, Result};
use std::alloc::AllocError;

/// The size of an address: 1, 2, 4 or 8 bytes.
#[derive(Debug, PartialEq, Eq)]
pub struct AddressSize {
    bytes: u8,
    ghost sized: { is_sized bytes ≡ true },
}

impl Clone for AddressSize {
    ghost is_clone = { λ x y. y ≡ x };

    ghost is_infallible = { λ _. ⊤ };

    #[inline(always)]
    fn clone(&self) -> std::result::Result<Self, AllocError> {
        Ok(*self)
    }
}

impl Copy for AddressSize {}

impl AddressSize {
    ghost use Rattle.cfi_read_core.specs.AddressSizes.{size_in_bytes};

    /// The size of so many bytes: 1, 2, 4 or 8.
    #[inline(always)]
    pub fn new(bytes: u8) -> Self
        requires { IsAddressSize bytes }
        ensures { size_in_bytes result ≡ bytes }
    {
        AddressSize { bytes }
    }

    /// The size in bytes.
    #[inline(always)]
    pub fn bytes(self) -> u8
        ensures { result ≡ size_in_bytes self }
    {
        self.bytes
    }
}

/// An address, with sums that respect its size.
pub trait ReaderAddress: Copy {
    /// The number.
    ghost number: { Self → ℕ };

    /// Adds `length` to an address of `size` bytes: 1, 2, 4 or 8. Returns
    /// `Error::AddressOverflow` if the sum does not fit `size` bytes.
    fn add_sized(self, length: u64, size: u8) -> Result<Self>
        requires { IsAddressSize size }
        ensures { map_ok number result ≡ checked_sum (number self) length size };

    /// Adds `length` to an address of `size` bytes, 1, 2, 4 or 8, and wraps on overflow.
    fn wrapping_add_sized(self, length: u64, size: u8) -> Self
        requires { IsAddressSize size }
        ensures { number result ≡ wrap (number self) length size };
}

impl ReaderAddress for u64 {
    ghost number = { λ n. n };

    #[inline(always)]
    fn add_sized(self, length: u64, size: u8) -> Result<u64> {
        match self.checked_add(length) {
            // Most addresses have eight bytes.
            Some(sum) if size == 8 || fits(sum, size) => Ok(sum),
            _ => Err(Error::AddressOverflow),
        }
    }

    #[inline(always)]
    fn wrapping_add_sized(self, length: u64, size: u8) -> u64 {
        let sum = self.wrapping_add(length);
        match size {
            1 => sum % 0x100,
            2 => sum % 0x1_0000,
            4 => sum % 0x1_0000_0000,
            _ => sum,
        }
    }
}

/// Whether the sum is an address of `size` bytes.
// Not inlined, so that its tests aren't made for addresses of eight bytes.
#[inline(never)]
fn fits(sum: u64, size: u8) -> bool
    requires { IsAddressSize size }
    ensures { result ≡ fits size sum }
{
    match size {
        1 => sum <= 0xff,
        2 => sum <= 0xffff,
        4 => sum <= 0xffff_ffff,
        _ => true,
    }
}
