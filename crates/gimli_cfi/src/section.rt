//! The call frame sections, and a cache for the CIEs of one.

pub use cfi_read_core::section_properties::{
    _UnwindSectionPrivate, CieOffsetEncoding, UnwindOffset,
};
pub use cfi_unwind::cie_cache::CieCache;
pub use cfi_unwind::unwind_section::{DebugFrame, EhFrame, UnwindSection, scan_for_fde};
