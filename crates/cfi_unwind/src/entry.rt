//! The entries of a call frame section (DWARF 5 section 6.4.1; LSB Core, "The .eh_frame section").

pub(crate) mod entries;
pub(crate) mod fde;
mod instructions;
pub(crate) mod partial;

pub use cfi_entry::augmentation::Augmentation;
pub use cfi_entry::cie::CommonInformationEntry;
pub use entries::{CfiEntriesIter, CieOrFde};
pub use fde::FrameDescriptionEntry;
pub use partial::PartialFrameDescriptionEntry;
