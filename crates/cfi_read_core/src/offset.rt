//! The offset types of readers.
ghost use Rattle.std.specs.Prelude.{◌≡◌, ℕ, ◌≤◌, ◌<◌, ◌^◌, Result, Ok, Err, true, ◌↔◌, refl};
ghost use Rattle.std.specs.Option.{option_map};
ghost use Rattle.cfi_read_core.specs.Offsets.{offset_up_to, difference};
ghost use Rattle.cfi_read_core.specs.ReaderCalls.{map_ok};

use crate::error::{Error, Result};
use std::fmt::Debug;

/// A type that counts the bytes of a reader.
pub trait ReaderOffset: Copy + Eq + Ord + Debug {
    /// The number.
    ghost number: { Self → ℕ };

    /// The type's greatest number.
    ghost GREATEST: { ℕ };

    /// The type's greatest number.
    const GREATEST: u64;

    /// The number as an offset. Returns `Error::UnsupportedOffset` if it is above `GREATEST`.
    fn from_u64(value: u64) -> Result<Self>
        ensures { map_ok number result ≡ offset_up_to GREATEST value };

    /// The offset as a number.
    fn into_u64(self) -> u64
        ensures value { result ≡ number self }
        ensures bound { result ≤ GREATEST };

    /// The difference, or `None` if `other` is greater.
    fn checked_sub(self, other: Self) -> Option<Self>
        ensures { option_map number result ≡ difference (number self) (number other) };

    /// Offsets with the same number are equal.
    ghost exact: { (x y : Self) → number x ≡ number y → x ≡ y };
}

impl ReaderOffset for usize {
    ghost number = { λ n. n };

    ghost GREATEST = { 18446744073709551615 };

    const GREATEST: u64 = 18446744073709551615;

    #[inline(always)]
    fn from_u64(value: u64) -> Result<usize> {
        Ok(value as usize)
    }

    #[inline(always)]
    fn into_u64(self) -> u64 {
        self as u64
    }

    #[inline(always)]
    fn checked_sub(self, other: usize) -> Option<usize> {
        self.checked_sub(other)
    }

    ghost exact = { λ x y e. e };
}

impl ReaderOffset for u32 {
    ghost number = { λ n. n };

    ghost GREATEST = { 4294967295 };

    const GREATEST: u64 = 4294967295;

    #[inline(always)]
    fn from_u64(value: u64) -> Result<u32> {
        if value <= 4294967295 {
            Ok(value as u32)
        } else {
            Err(Error::UnsupportedOffset)
        }
    }

    #[inline(always)]
    fn into_u64(self) -> u64 {
        self as u64
    }

    #[inline(always)]
    fn checked_sub(self, other: u32) -> Option<u32> {
        self.checked_sub(other)
    }

    ghost exact = { λ x y e. e };
}
