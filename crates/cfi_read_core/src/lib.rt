//! Readers over bytes, DWARF's numbers, addresses and constants, call frame instructions, the
//! properties of call frame sections, lists with an optional limit, and the errors of the call
//! frame layer.
#![tactic(auto)]

pub mod address;
pub mod array_like;
mod bytes;
pub mod common;
pub mod constants;
pub mod dwarf_section;
pub mod endian_slice;
pub mod endianity;
pub mod error;
mod error_sentence;
pub mod instruction;
pub mod offset;
pub mod reader;
pub mod reserved;
pub mod section_properties;

pub use address::ReaderAddress;
pub use common::{
    DebugFrameOffset, EhFrameOffset, Encoding, Format, Register, SectionId, StoreOnHeap, Vendor,
};
pub use constants::{DwCfa, DwEhPe};
pub use dwarf_section::Section;
pub use endian_slice::{EndianSlice, NarrowSlice, SliceReader};
pub use endianity::{BigEndian, Endianity, LittleEndian, RunTimeEndian};
pub use error::{Error, ReaderOffsetId, Result};
pub use offset::ReaderOffset;
pub use reader::Reader;
