//! What is asked of the library.
ghost use Rattle.cfi_read_core.specs.Addresses.{IsAddressSize};

use gimli_cfi::{BaseAddresses, RunTimeEndian, SectionBaseAddresses, Vendor};

/// What is asked, and how the section is read.
#[repr(C)]
pub struct Asked {
    /// The bases of the section's entries: the section's address, text and data.
    pub section: u64,
    pub text: u64,
    pub data_base: u64,
    /// The same of the header.
    pub header: u64,
    pub header_text: u64,
    pub header_data: u64,
    /// Its bits, from the lowest on, tell which of the six bases are set.
    pub set: u32,
    /// Which answers, as each export says.
    pub what: u32,
    /// The storage of a context: 0 `StoreOnHeap`, 1 `StoreGrowing`, otherwise a small one.
    pub storage: u32,
    /// 1, 2 or 4, otherwise 8.
    pub address_size: u8,
    pub big_endian: bool,
    /// Whether the section is `.debug_frame`; a section with a header is `.eh_frame`.
    pub debug_frame: bool,
    /// Whether the opcodes are those of AArch64.
    pub aarch64: bool,
}

/// The base, where bit `bit` says that it is set.
fn base(set: u32, bit: u32, value: u64) -> Option<u64> {
    if set & bit == 0 { None } else { Some(value) }
}

/// The bases of the pointers in the section, and of those in its header.
pub fn bases_of(asked: &Asked) -> BaseAddresses {
    BaseAddresses {
        eh_frame_hdr: SectionBaseAddresses {
            section: base(asked.set, 8, asked.header),
            text: base(asked.set, 16, asked.header_text),
            data_base: base(asked.set, 32, asked.header_data),
        },
        eh_frame: SectionBaseAddresses {
            section: base(asked.set, 1, asked.section),
            text: base(asked.set, 2, asked.text),
            data_base: base(asked.set, 4, asked.data_base),
        },
    }
}

/// The size of an address.
pub fn size_of(asked: &Asked) -> u8
    ensures { IsAddressSize result }
{
    match asked.address_size {
        1 => 1,
        2 => 2,
        4 => 4,
        _ => 8,
    }
}

/// The byte order.
pub fn endian_of(asked: &Asked) -> RunTimeEndian {
    if asked.big_endian {
        RunTimeEndian::Big
    } else {
        RunTimeEndian::Little
    }
}

/// The vendor whose opcodes are read.
pub fn vendor_of(asked: &Asked) -> Vendor {
    if asked.aarch64 {
        Vendor::AArch64
    } else {
        Vendor::Default
    }
}
