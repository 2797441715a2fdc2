//! Entries of a call frame section.

pub use cfi_unwind::entry::{
    Augmentation, CfiEntriesIter, CieOrFde, CommonInformationEntry, FrameDescriptionEntry,
    PartialFrameDescriptionEntry,
};
