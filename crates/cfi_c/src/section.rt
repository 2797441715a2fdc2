//! The sections that C passes.
ghost use Rattle.std.specs.Prelude.{◌≡◌, ◌↔◌, Some, IsTrue};
ghost use Rattle.cfi_read_core.specs.ByteOrder.{is_big};
ghost use Rattle.cfi_read_core.specs.Addresses.{IsAddressSize, is_sized};
ghost use Rattle.gimli_cfi.specs.SectionSources.{source_view};
ghost use Rattle.cfi_c.specs.PassedSections.{header_in, kind_beside, lent, passed_source};
ghost use Rattle.cfi_c.specs.PassedSections.{passed_vendor};

use gimli_cfi::{
    AddressSize, BaseAddresses, RunTimeEndian, SectionBaseAddresses, SectionKind, SectionSource,
    Vendor,
};

/// The addresses of the sections, and how their numbers are read.
#[repr(C)]
#[derive(Drop)]
pub struct CfiBases {
    /// The address of the section, and that of its header.
    pub section: u64,
    pub header: u64,
    /// The bases of text and data.
    pub text: u64,
    pub data_base: u64,
    pub big_endian: bool,
    /// Whether the section is `.debug_frame`; a section with a header is `.eh_frame`.
    pub debug_frame: bool,
    /// Whether the opcodes are those of AArch64.
    pub aarch64: bool,
    /// 1, 2, 4 or 8.
    pub address_size: u8,
}

/// Returns whether addresses may have this size.
pub fn is_sized(size: u8) -> bool
    ensures size { IsTrue result ↔ IsAddressSize size }
    ensures test { result ≡ is_sized size }
{
    size == 1 || size == 2 || size == 4 || size == 8
}

/// The section that C passes, with all that it says of it.
pub fn source_of<'a>(
    section: &'a [u8],
    header: Option<&'a [u8]>,
    bases: &CfiBases,
) -> SectionSource<'a>
    requires { IsAddressSize bases.now.address_size }
    ensures { source_view result ≡ passed_source bases.now section.now (lent header.entry) }
{
    SectionSource {
        kind: kind_beside(header, bases),
        endian: endian_of(bases),
        address_size: AddressSize::new(bases.address_size),
        vendor: vendor_of(bases),
        bases: bases_of(bases),
        bytes: section,
        header,
    }
}

/// Which section it is: beside a header it is `.eh_frame`, whatever C says.
fn kind_beside(header: Option<&[u8]>, bases: &CfiBases) -> SectionKind
    ensures { result ≡ kind_beside bases.now.debug_frame (lent header.entry) }
{
    match header {
        Some(_) => SectionKind::EhFrame,
        None if bases.debug_frame => SectionKind::DebugFrame,
        None => SectionKind::EhFrame,
    }
}

/// Returns the byte order of the sections.
pub fn endian_of(bases: &CfiBases) -> RunTimeEndian
    ensures { is_big result ≡ bases.now.big_endian }
{
    if bases.big_endian {
        RunTimeEndian::Big
    } else {
        RunTimeEndian::Little
    }
}

/// Returns the vendor whose opcodes are read.
pub fn vendor_of(bases: &CfiBases) -> Vendor
    ensures { result ≡ passed_vendor bases.now.aarch64 }
{
    if bases.aarch64 {
        Vendor::AArch64
    } else {
        Vendor::Default
    }
}

/// Returns the bases of the pointers in the section, and of those in its header.
pub fn bases_of(bases: &CfiBases) -> BaseAddresses
    ensures section { result.eh_frame ≡ record {
      section = Some bases.now.section;
      text = Some bases.now.text;
      data_base = Some bases.now.data_base;
    } }
    ensures header { result.eh_frame_hdr ≡ record {
      section = Some bases.now.header;
      text = Some bases.now.text;
      data_base = Some bases.now.header;
    } }
{
    BaseAddresses {
        eh_frame_hdr: SectionBaseAddresses {
            section: Some(bases.header),
            text: Some(bases.text),
            data_base: Some(bases.header),
        },
        eh_frame: SectionBaseAddresses {
            section: Some(bases.section),
            text: Some(bases.text),
            data_base: Some(bases.data_base),
        },
    }
}

/// Returns the header, or `None` where it is empty.
pub fn header_in(header: &[u8]) -> Option<&[u8]>
    ensures { lent result ≡ header_in header.now }
{
    if header.is_empty() {
        return None;
    }
    Some(header)
}
