//! The section `.debug_frame`, with how it differs from the other one.
ghost use Rattle.std.specs.Prelude.{◌≡◌, refl, ⊤};
ghost use Rattle.cfi_read_core.specs.Addresses.{IsAddressSize};
ghost use Rattle.cfi_read_core.specs.AddressSizes.{has_address_size, size_in_bytes};
ghost use Rattle.cfi_read_core.specs.declared.common.Vendor.TheVariants.{Default as no_vendor};
ghost use Rattle.cfi_read_core.specs.ReaderCalls.{all_of};
ghost use Rattle.cfi_read_core.specs.SliceReaders.{slice_position};
ghost use Rattle.cfi_read_core.specs.CallFrameSections.{DebugFrame as debug_frame, section_id};
ghost use Rattle.cfi_entry.specs.SectionViews.{IsNewDebugFrame, debug_frame_address_size};
ghost use Rattle.cfi_entry.specs.SectionViews.{debug_frame_reader, debug_frame_vendor};
ghost use Rattle.cfi_entry.specs.SectionViews.{debug_frame_view};

use cfi_read_core::address::AddressSize;
use cfi_read_core::section_properties::{_UnwindSectionPrivate, CieOffsetEncoding};
use cfi_read_core::{EndianSlice, Endianity, Format, Reader, Section, SectionId, Vendor};
use std::alloc::AllocError;

/// The section `.debug_frame` (DWARF 5 section 6.4.1).
///
/// When made from a reader, addresses take 8 bytes where a CIE gives no size, and no vendor's
/// opcodes are read.
///
/// # Example
///
/// ```
/// let mut section = DebugFrame::new(bytes, BigEndian);
/// section.set_address_size(4);
/// let cie = section.cie_from_offset(&BaseAddresses::default(), DebugFrameOffset(0))?;
/// ```
#[derive(Copy, Debug, PartialEq, Eq)]
pub struct DebugFrame<R> {
    section: R,
    address_size: AddressSize,
    vendor: Vendor,
}

impl<R: Copy> Clone for DebugFrame<R> {
    ghost is_clone = { λ x y. y ≡ x };

    ghost is_infallible = { λ _. ⊤ };

    #[inline(always)]
    fn clone(&self) -> std::result::Result<Self, AllocError> {
        Ok(*self)
    }
}

impl<'input, E: Endianity> DebugFrame<EndianSlice<'input, E>> {
    /// Makes the section of these bytes, in this byte order. The bytes are borrowed, not copied.
    #[inline(always)]
    pub fn new(section: &'input [u8], endian: E) -> Self
        ensures section { slice_position E.big_endian (debug_frame_reader result)
            ≡ all_of section.now (E.big_endian endian) 18446744073709551615 }
        ensures size { size_in_bytes (debug_frame_address_size result) ≡ 8 }
        ensures vendor { debug_frame_vendor result ≡ no_vendor }
    {
        Self::from(EndianSlice::new(section, endian))
    }
}

impl<R> DebugFrame<R> {
    /// Sets how many bytes an address takes where a CIE gives no size: 1, 2, 4 or 8.
    #[inline(always)]
    pub fn set_address_size(&mut self, size: u8)
        requires { IsAddressSize size }
        ensures size { size_in_bytes (debug_frame_address_size self.new) ≡ size }
        ensures section { debug_frame_reader self.new ≡ debug_frame_reader self.old }
        ensures vendor { debug_frame_vendor self.new ≡ debug_frame_vendor self.old }
    {
        self.address_size = AddressSize::new(size);
    }

    /// Sets whose vendor opcodes are read.
    #[inline(always)]
    pub fn set_vendor(&mut self, vendor: Vendor)
        ensures vendor { debug_frame_vendor self.new ≡ vendor }
        ensures section { debug_frame_reader self.new ≡ debug_frame_reader self.old }
        ensures size { debug_frame_address_size self.new ≡ debug_frame_address_size self.old }
    {
        self.vendor = vendor;
    }
}

impl<R> From<R> for DebugFrame<R> {
    ghost from_gives = { λ r s. IsNewDebugFrame r s };

    #[inline(always)]
    fn from(section: R) -> Self {
        DebugFrame {
            section,
            address_size: AddressSize::new(8),
            vendor: Vendor::Default,
        }
    }
}

impl<R> Section<R> for DebugFrame<R> {
    ghost bytes = { λ s. debug_frame_reader s };

    ghost ID = { section_id debug_frame };

    #[inline(always)]
    fn id() -> SectionId {
        SectionId::DebugFrame
    }

    #[inline(always)]
    fn reader(&self) -> &R {
        &self.section
    }

    ghost of_reader = { λ r s e. e.0 };
}

impl<R: Reader> _UnwindSectionPrivate<R> for DebugFrame<R> {
    ghost view = { λ s. debug_frame_view R.position s };

    ghost KIND = { debug_frame };

    #[inline(always)]
    fn section(&self) -> &R {
        &self.section
    }

    #[inline(always)]
    fn has_zero_terminator() -> bool {
        false
    }

    #[inline(always)]
    fn is_cie(format: Format, id: u64) -> bool {
        match format {
            Format::Dwarf32 => id == 0xffff_ffff,
            Format::Dwarf64 => id == 0xffff_ffff_ffff_ffff,
        }
    }

    #[inline(always)]
    fn cie_offset_encoding(format: Format) -> CieOffsetEncoding {
        match format {
            Format::Dwarf32 => CieOffsetEncoding::U32,
            Format::Dwarf64 => CieOffsetEncoding::U64,
        }
    }

    #[inline(always)]
    fn resolve_cie_offset(&self, _base: R::Offset, offset: R::Offset) -> Option<R::Offset> {
        Some(offset)
    }

    #[inline(always)]
    fn has_address_and_segment_sizes(version: u8) -> bool {
        version == 4
    }

    #[inline(always)]
    fn address_size(&self) -> u8 {
        self.address_size.bytes()
    }

    #[inline(always)]
    fn vendor(&self) -> Vendor {
        self.vendor
    }

    ghost kind = { λ s. refl };

    ghost sized = { λ s. has_address_size (debug_frame_address_size s) };

    ghost sound = { λ s. R.sound (debug_frame_reader s) };

    ghost greatest = { λ s. R.greatest (debug_frame_reader s) };
}
