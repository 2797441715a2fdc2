//! Encoded pointers and their bases.

pub use cfi_parts::pointer::{
    BaseAddresses, Pointer, PointerEncodingParameters, SectionBaseAddresses,
};
pub use cfi_read_core::address::AddressSize;
