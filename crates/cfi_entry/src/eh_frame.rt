//! The section `.eh_frame`, with how it differs from the other one.
ghost use Rattle.std.specs.Prelude.{◌≡◌, refl};
ghost use Rattle.cfi_read_core.specs.Addresses.{IsAddressSize};
ghost use Rattle.cfi_read_core.specs.AddressSizes.{has_address_size, size_in_bytes};
ghost use Rattle.cfi_read_core.specs.declared.common.Vendor.TheVariants.{Default as no_vendor};
ghost use Rattle.cfi_read_core.specs.ReaderCalls.{all_of};
ghost use Rattle.cfi_read_core.specs.SliceReaders.{slice_position};
ghost use Rattle.cfi_read_core.specs.CallFrameSections.{EhFrame as eh_frame, section_id};
ghost use Rattle.cfi_entry.specs.SectionViews.{IsNewEhFrame, eh_frame_address_size};
ghost use Rattle.cfi_entry.specs.SectionViews.{eh_frame_reader, eh_frame_vendor, eh_frame_view};

use cfi_read_core::address::AddressSize;
use cfi_read_core::section_properties::{_UnwindSectionPrivate, CieOffsetEncoding};
use cfi_read_core::{
    EndianSlice, Endianity, Format, Reader, ReaderOffset, Section, SectionId, Vendor,
};

/// The section `.eh_frame` (LSB Core, "The .eh_frame section").
///
/// When made from a reader, addresses take 8 bytes, and no vendor's opcodes are read.
///
/// # Example
///
/// ```
/// let mut section = EhFrame::new(bytes, LittleEndian);
/// section.set_vendor(Vendor::AArch64);
/// let bases = BaseAddresses::default().set_eh_frame(0x2040);
/// let mut entries = section.entries(&bases);
/// while let Some(entry) = entries.next()? {
///     match entry {
///         CieOrFde::Cie(cie) => { /* a CIE, read whole */ }
///         CieOrFde::Fde(partial) => {
///             let fde = partial.parse(|section: &EhFrame<_>, bases, offset| {
///                 section.cie_from_offset(bases, offset)
///             })?;
///         }
///     }
/// }
/// ```
#[derive(Clone, Copy, Debug, PartialEq, Eq)]
pub struct EhFrame<R> {
    section: R,
    address_size: AddressSize,
    vendor: Vendor,
}

impl<'input, E: Endianity> EhFrame<EndianSlice<'input, E>> {
    /// Makes the section of these bytes, in this byte order. The bytes are borrowed, not copied.
    #[inline(always)]
    pub fn new(section: &'input [u8], endian: E) -> Self
        ensures section { slice_position E.big_endian (eh_frame_reader result)
            ≡ all_of section.now (E.big_endian endian) 18446744073709551615 }
        ensures size { size_in_bytes (eh_frame_address_size result) ≡ 8 }
        ensures vendor { eh_frame_vendor result ≡ no_vendor }
    {
        Self::from(EndianSlice::new(section, endian))
    }
}

impl<R> EhFrame<R> {
    /// Sets how many bytes an address takes: 1, 2, 4 or 8.
    #[inline(always)]
    pub fn set_address_size(&mut self, size: u8)
        requires { IsAddressSize size }
        ensures size { size_in_bytes (eh_frame_address_size self.new) ≡ size }
        ensures section { eh_frame_reader self.new ≡ eh_frame_reader self.old }
        ensures vendor { eh_frame_vendor self.new ≡ eh_frame_vendor self.old }
    {
        self.address_size = AddressSize::new(size);
    }

    /// Sets whose vendor opcodes are read.
    #[inline(always)]
    pub fn set_vendor(&mut self, vendor: Vendor)
        ensures vendor { eh_frame_vendor self.new ≡ vendor }
        ensures section { eh_frame_reader self.new ≡ eh_frame_reader self.old }
        ensures size { eh_frame_address_size self.new ≡ eh_frame_address_size self.old }
    {
        self.vendor = vendor;
    }
}

impl<R> From<R> for EhFrame<R> {
    ghost from_gives = { λ r s. IsNewEhFrame r s };

    #[inline(always)]
    fn from(section: R) -> Self {
        EhFrame {
            section,
            address_size: AddressSize::new(8),
            vendor: Vendor::Default,
        }
    }
}

impl<R> Section<R> for EhFrame<R> {
    ghost bytes = { λ s. eh_frame_reader s };

    ghost ID = { section_id eh_frame };

    #[inline(always)]
    fn id() -> SectionId {
        SectionId::EhFrame
    }

    #[inline(always)]
    fn reader(&self) -> &R {
        &self.section
    }

    ghost of_reader = { λ r s e. e.0 };
}

impl<R: Reader> _UnwindSectionPrivate<R> for EhFrame<R> {
    ghost view = { λ s. eh_frame_view R.position s };

    ghost KIND = { eh_frame };

    #[inline(always)]
    fn section(&self) -> &R {
        &self.section
    }

    #[inline(always)]
    fn has_zero_terminator() -> bool {
        true
    }

    #[inline(always)]
    fn is_cie(_format: Format, id: u64) -> bool {
        id == 0
    }

    #[inline(always)]
    fn cie_offset_encoding(_format: Format) -> CieOffsetEncoding {
        CieOffsetEncoding::U32
    }

    #[inline(always)]
    fn resolve_cie_offset(&self, base: R::Offset, offset: R::Offset) -> Option<R::Offset> {
        base.checked_sub(offset)
    }

    #[inline(always)]
    fn has_address_and_segment_sizes(_version: u8) -> bool {
        false
    }

    #[inline(always)]
    fn address_size(&self) -> u8 {
        self.address_size.bytes()
    }

    #[inline(always)]
    fn vendor(&self) -> Vendor {
        self.vendor
    }

    ghost kind = { λ s. refl };

    ghost sized = { λ s. has_address_size (eh_frame_address_size s) };

    ghost sound = { λ s. R.sound (eh_frame_reader s) };

    ghost greatest = { λ s. R.greatest (eh_frame_reader s) };
}
