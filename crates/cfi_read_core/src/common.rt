//! Types that every layer uses: formats, encodings, registers, vendors, sections and offsets.
ghost use Rattle.std.specs.Prelude.{◌≡◌, ◌≤◌, Ok, Err, nat_le, if◌then◌else◌};
ghost use Rattle.cfi_read_core.specs.Numbers.{initial_length_size, register_of};

use crate::error::{Error, Result};

/// Whether lengths and section offsets take four bytes or eight (DWARF 5 section 7.4).
#[derive(Clone, Copy, Debug, PartialEq, Eq)]
pub enum Format {
    /// 32-bit DWARF: four bytes.
    Dwarf32,
    /// 64-bit DWARF: eight bytes.
    Dwarf64,
}

impl Format {
    /// The size of an initial length in bytes: 4, or 12 in 64-bit DWARF (DWARF 5 section 7.4).
    #[inline(always)]
    pub fn initial_length_size(self) -> u8
        ensures { result ≡ initial_length_size self }
    {
        match self {
            Format::Dwarf32 => 4,
            // Four bytes mark the format; the length follows.
            Format::Dwarf64 => 4 + 8,
        }
    }
}

/// The parameters of an entry's encoding.
#[derive(Clone, Copy, Debug, PartialEq, Eq)]
pub struct Encoding {
    /// The format of lengths and offsets.
    pub format: Format,
    /// The version field.
    pub version: u16,
    /// The size of an address in bytes: 1, 2, 4 or 8.
    pub address_size: u8,
}

/// A register, by the number that the processor's ABI gives it (DWARF 5 section 2.6.1.1.3).
#[derive(Clone, Copy, Debug, Default, PartialEq, Eq)]
pub struct Register(pub u16);

impl Register {
    /// The register with this number. Returns `Error::UnsupportedRegister` if it is above 65535.
    #[inline(always)]
    pub fn from_u64(number: u64) -> Result<Register>
        ensures { result ≡ register_of number }
    {
        if number <= 0xffff {
            Ok(Register(number as u16))
        } else {
            Err(Error::UnsupportedRegister(number))
        }
    }
}

/// Which vendor opcodes are known (DWARF 5 section 7.24, `DW_CFA_lo_user` to `DW_CFA_hi_user`).
#[derive(Clone, Copy, Debug, PartialEq, Eq)]
pub enum Vendor {
    /// GNU extensions only.
    Default,
    /// GNU extensions and those of the AArch64 ABI.
    AArch64,
}

/// Which section a reader is over.
#[derive(Clone, Copy, Debug, PartialEq, Eq)]
pub enum SectionId {
    /// `.debug_frame` (DWARF 5 section 6.4).
    DebugFrame,
    /// `.eh_frame` (LSB Core, "The .eh_frame section").
    EhFrame,
    /// `.eh_frame_hdr` (LSB Core, "The .eh_frame_hdr section").
    EhFrameHdr,
}

/// An offset in `.debug_frame`.
#[derive(Clone, Copy, Debug, PartialEq, Eq)]
pub struct DebugFrameOffset<T>(pub T);

/// An offset in `.eh_frame`.
#[derive(Clone, Copy, Debug, PartialEq, Eq)]
pub struct EhFrameOffset<T>(pub T);

impl<T> From<T> for DebugFrameOffset<T> {
    ghost from_gives = { λ x y. y.0 ≡ x };

    #[inline(always)]
    fn from(offset: T) -> Self {
        DebugFrameOffset(offset)
    }
}

impl<T> From<T> for EhFrameOffset<T> {
    ghost from_gives = { λ x y. y.0 ≡ x };

    #[inline(always)]
    fn from(offset: T) -> Self {
        EhFrameOffset(offset)
    }
}

/// The storage with room for 192 register rules in a row and for 4 rows, which are on the heap.
#[derive(Clone, Copy, Debug, PartialEq, Eq)]
pub struct StoreOnHeap;
