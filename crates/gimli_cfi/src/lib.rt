//! The call frame layer of gimli: from the bytes of `.debug_frame` and `.eh_frame` (DWARF 5 section
//! 6.4; LSB Core, "Exception Frames") to the unwind row of an address, or an error.
//!
//! The root has all that a user needs, under gimli's names, as gimli's root has them:
//! `use gimli_cfi::{EhFrame, EndianSlice, ..}`. The modules are gimli's names by subject: sections,
//! entries, instructions, pointers, rows and tables, storages, and the header with its table. In
//! the same way the specs module `Words` has every definition that a contract cites. The crates
//! below have the bodies; what they need of each other isn't passed on.
//!
//! Version 0.1.0, after gimli 0.34.0.
#![tactic(auto)]

mod by_scan;
pub mod call_count;
pub mod entry;
pub mod hdr;
pub mod instruction;
pub mod pointer;
pub mod section;
pub mod source;
pub mod storage;
pub mod table;

pub use call_count::CallCount;
pub use cfi_read_core::dwarf_section::Expression;
pub use cfi_read_core::{
    BigEndian, DebugFrameOffset, DwCfa, DwEhPe, EhFrameOffset, Encoding, EndianSlice, Endianity,
    Error, Format, LittleEndian, NarrowSlice, Reader, ReaderAddress, ReaderOffset, ReaderOffsetId,
    Register, Result, RunTimeEndian, Section, SectionId, SliceReader, Vendor, constants,
};
pub use entry::{
    Augmentation, CfiEntriesIter, CieOrFde, CommonInformationEntry, FrameDescriptionEntry,
    PartialFrameDescriptionEntry,
};
pub use hdr::{
    EhFrameHdr, EhHdrTable, EhHdrTableIter, FaithfulTable, ParsedEhFrameHdr, StartSource,
    TableStarts, Unfaithful, Verdict, check_table, fde_by_header, fde_by_header_counted,
    row_by_header, row_by_header_counted, row_by_table, search_starts,
};
pub use instruction::{
    CallFrameInstruction, CallFrameInstructionIter, InstructionVisitor, UnwindExpression,
};
pub use pointer::{
    AddressSize, BaseAddresses, Pointer, PointerEncodingParameters, SectionBaseAddresses,
};
pub use section::{
    _UnwindSectionPrivate, CieCache, CieOffsetEncoding, DebugFrame, EhFrame, UnwindOffset,
    UnwindSection, scan_for_fde,
};
pub use source::{CallFrameSection, SectionKind, SectionSource};
pub use storage::{
    ArrayLike, CapacityFull, CopyList, Refused, StoreGrowing, StoreOnHeap, UnwindContextStorage,
    Why,
};
pub use table::{
    CfaRule, RA_SIGN_STATE, RegisterRule, RegisterRuleIter, UnwindContext, UnwindTable,
    UnwindTableRow, row_by_scan,
};
