//! Lines of errors: that the longest ones are written, and what to do.
use crate::comparison::expect;
use cfi_files::verdict_line::put_verdict;
use cfi_text::refusals::{write_refusal_end, write_refusal_told};
use cfi_text::style::Format;
use cfi_text::text::Text;
use gimli_cfi::{DwCfa, DwEhPe, Error, ReaderOffsetId, Unfaithful, Verdict};
use std::alloc::Global;
use std::test::Fail;

/// The errors, with the greatest values that they carry.
const ERRORS: [Error; 31] = [
    Error::UnexpectedEof(ReaderOffsetId(u64::MAX)),
    Error::BadUnsignedLeb128,
    Error::BadSignedLeb128,
    Error::UnknownReservedLength(u32::MAX),
    Error::UnsupportedAddressSize(u8::MAX),
    Error::UnsupportedOffset,
    Error::UnsupportedRegister(u64::MAX),
    Error::AddressOverflow,
    Error::UnknownVersion(u64::MAX),
    Error::UnsupportedSegmentSize(u8::MAX),
    Error::UnknownAugmentation,
    Error::UnknownPointerEncoding(DwEhPe(0x7f)),
    Error::CannotParseOmitPointerEncoding,
    Error::UnsupportedPointerEncoding(DwEhPe(0x50)),
    Error::PcRelativePointerButSectionBaseIsUndefined,
    Error::TextRelativePointerButTextBaseIsUndefined,
    Error::DataRelativePointerButDataBaseIsUndefined,
    Error::FuncRelativePointerInBadContext,
    Error::UnsupportedIndirectPointer,
    Error::NotCieId(u64::MAX),
    Error::NotCiePointer(u64::MAX),
    Error::NoEntryAtGivenOffset(u64::MAX),
    Error::OffsetOutOfBounds(u64::MAX),
    Error::UnknownCallFrameInstruction(DwCfa(0x3c)),
    Error::CfiInstructionInInvalidContext,
    Error::InvalidCfiSetLoc(u64::MAX),
    Error::StackFull,
    Error::PopWithEmptyStack,
    Error::TooManyRegisterRules,
    Error::NoUnwindInfoForAddress,
    Error::OutOfMemory,
];

/// Whether the line that tells an error is written, and the longest one with it.
fn is_written(alloc: Global, error: Error) -> Result<bool, Fail> {
    let mut line = Vec::new(alloc);
    write_refusal_told(&mut line, Format::Text, error)?;
    let (offset, refusal) = (u64::MAX, error);
    let verdict = Verdict::Unfaithful(Unfaithful::Entry { offset, refusal });
    let mut longest = Text::new(alloc);
    put_verdict(&mut longest, Format::Text, verdict);
    Ok(longest.as_bytes().ends_with(line.as_slice()))
}

#[test]
fn lines_of_errors(rt: HostRuntime) -> Result<(), Fail> {
    for error in &ERRORS {
        expect(&rt, error.name(), &is_written(rt.alloc(), *error)?, &true);
    }
    Ok(())
}

/// The ends of lines that say what to do.
const ADVICE: [(Error, &str); 6] = [
    (
        Error::UnknownCallFrameInstruction(DwCfa(0x2d)),
        " opcode 0x2d; DW_CFA_GNU_window_save of SPARC isn't supported\"}\n",
    ),
    (
        Error::UnknownCallFrameInstruction(DwCfa(0x1d)),
        " opcode 0x1d; DW_CFA_MIPS_advance_loc8 isn't supported\"}\n",
    ),
    (
        Error::TextRelativePointerButTextBaseIsUndefined,
        " base; cfi_rows takes one by text=N\"}\n",
    ),
    (
        Error::DataRelativePointerButDataBaseIsUndefined,
        " base; cfi_rows takes one by data=N\"}\n",
    ),
    (
        Error::StackFull,
        " room for; cfi_rows has room by store=vec\"}\n",
    ),
    (
        Error::TooManyRegisterRules,
        " room for; cfi_rows has room by store=vec\"}\n",
    ),
];

/// Whether the end of an error's line in JSON ends so.
fn ends_so(alloc: Global, error: Error, end: &str) -> Result<bool, Fail> {
    let mut line = Vec::new(alloc);
    write_refusal_end(&mut line, Format::Json, error)?;
    Ok(line.as_slice().ends_with(end.as_bytes()))
}

#[test]
fn advice_on_errors(rt: HostRuntime) -> Result<(), Fail> {
    for (error, end) in &ADVICE {
        expect(&rt, *end, &ends_so(rt.alloc(), *error, end)?, &true);
    }
    Ok(())
}
