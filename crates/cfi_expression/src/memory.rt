//! Memory that may be read.
ghost use Rattle.std.specs.Prelude.{◌≡◌, ℕ, Option};
ghost use Rattle.cfi_read_core.specs.Addresses.{IsAddressSize};
ghost use Rattle.cfi_read_core.specs.ReaderCalls.{ReadsValue};
ghost use Rattle.cfi_expression.specs.Windows.{at_distance, number_in};

use cfi_read_core::{Reader, ReaderOffset};

/// The memory of a process, as far as it can be read.
pub trait Memory {
    /// The number of so many bytes at an address; `None` if one of them cannot be read.
    ghost number_at: { Self → ℕ → ℕ → Option ℕ };

    /// The number of `size` bytes at the address; `None` if one of them cannot be read. The order
    /// of the bytes is that of the process.
    fn read(&self, address: u64, size: u8) -> Option<u64>
        requires { IsAddressSize size }
        ensures { result ≡ number_at self.now address size };
}

/// The bytes of memory from an address on, as a copy of a stack has them.
#[derive(Clone, Copy, Debug)]
pub struct Window<R> {
    /// The address of the first byte.
    pub base: u64,
    /// The bytes.
    pub bytes: R,
}

impl<R: Reader> Memory for Window<R> {
    ghost number_at = { λ window address size.
        number_in (R.position window.bytes) window.base address size };

    #[inline(always)]
    fn read(&self, address: u64, size: u8) -> Option<u64> {
        if address < self.base {
            return None;
        }
        let mut input = self.bytes;
        match number_at_distance(&mut input, address - self.base, size) {
            Ok(number) => Some(number),
            Err(_error) => None,
        }
    }
}

/// Skips so many bytes, and reads a number.
#[tactic(auto, unfolding(cfi_read_core::specs::Addresses::address))]
#[inline(always)]
fn number_at_distance<R: Reader>(
    input: &mut R,
    distance: u64,
    size: u8,
) -> cfi_read_core::Result<u64>
    ensures { ReadsValue R.position (at_distance distance size) input.old result input.new }
{
    input.skip(R::Offset::from_u64(distance)?)?;
    // Most programs have addresses of eight bytes.
    if size == 8 {
        return input.read_u64();
    }
    input.read_address(size)
}
