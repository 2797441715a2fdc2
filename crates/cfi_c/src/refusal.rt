//! Errors as numbers and names. Up to 63 they are the library's, from 64 on those of C alone.
ghost use Rattle.std.specs.Prelude.{◌≡◌, ◌<◌, ℕ, length, pos, slice_index_or};
ghost use Rattle.cfi_read_core.specs.RefusalNames.{name_of};
ghost use Rattle.cfi_c.specs.Refusals.{status_name, error_status};

use gimli_cfi::{DwCfa, DwEhPe, Error, ReaderOffsetId};

/// The status where there is no context.
pub const NO_CONTEXT: i32 = 64;

/// The status where there is no table.
pub const NO_TABLE: i32 = 65;

/// The status of a file of which no segment is loaded.
pub const NO_SEGMENTS: i32 = 66;

/// The status of a file without a segment of `.eh_frame_hdr`.
pub const NO_HEADER: i32 = 67;

/// The status of a header that points to no segment that is loaded.
pub const NO_SECTION: i32 = 68;

/// The status where no window has the bytes of a header or a section.
pub const NOT_IN_MEMORY: i32 = 69;

/// Returns the status of an error: its number, from 1 on.
pub fn number_of(error: Error) -> i32
    ensures { result ≡ error_status error }
{
    i32::from(error.number())
}

/// The errors in the order of their numbers, from 1 on; `tools/errors` writes them. A name does not
/// show what an error carries, so that is 0 here.
const REFUSALS: [Error; 31] = [
    Error::UnexpectedEof(ReaderOffsetId(0)),
    Error::BadUnsignedLeb128,
    Error::BadSignedLeb128,
    Error::UnknownReservedLength(0),
    Error::UnsupportedAddressSize(0),
    Error::UnsupportedOffset,
    Error::UnsupportedRegister(0),
    Error::AddressOverflow,
    Error::UnknownVersion(0),
    Error::UnsupportedSegmentSize(0),
    Error::UnknownAugmentation,
    Error::UnknownPointerEncoding(DwEhPe(0)),
    Error::CannotParseOmitPointerEncoding,
    Error::UnsupportedPointerEncoding(DwEhPe(0)),
    Error::PcRelativePointerButSectionBaseIsUndefined,
    Error::TextRelativePointerButTextBaseIsUndefined,
    Error::DataRelativePointerButDataBaseIsUndefined,
    Error::FuncRelativePointerInBadContext,
    Error::UnsupportedIndirectPointer,
    Error::NotCieId(0),
    Error::NotCiePointer(0),
    Error::NoEntryAtGivenOffset(0),
    Error::OffsetOutOfBounds(0),
    Error::UnknownCallFrameInstruction(DwCfa(0)),
    Error::CfiInstructionInInvalidContext,
    Error::InvalidCfiSetLoc(0),
    Error::StackFull,
    Error::PopWithEmptyStack,
    Error::TooManyRegisterRules,
    Error::NoUnwindInfoForAddress,
    Error::OutOfMemory,
];

/// Writes the name of a status and a zero after it, as much of both as fits, and returns the length
/// of the name in bytes: `Ok` for 0, `NoContext` for `NO_CONTEXT`, `Unknown` for a number that is
/// not a status.
#[unsafe(no_mangle)]
pub extern "C" fn cfi_status_name(status: i32, name: &mut [u8]) -> usize
    ensures length { result ≡ length (status_name status) }
    ensures written { (k : ℕ) → k < length name.new → k < length (status_name status) →
        slice_index_or name.new k 0 ≡ slice_index_or (status_name status) k 0 }
    ensures ended { slice_index_or name.new (length (status_name status)) 0 ≡ 0 }
    ensures rest { (k : ℕ) → length (status_name status) < k →
        slice_index_or name.new k 0 ≡ slice_index_or name.old k 0 }
    ensures refusals { (e : Error) → status_name (error_status e) ≡ name_of e }
{
    let text = name_of(status);
    for k in 0..text.len() {
        if k < name.len() {
            name[k] = text[k];
        }
    }
    if text.len() < name.len() {
        name[text.len()] = 0;
    }
    text.len()
}

/// Returns the name of a status.
pub fn name_of(status: i32) -> &'static [u8]
    ensures { result.now ≡ status_name status }
{
    let Ok(number) = usize::try_from(status) else {
        return b"Unknown";
    };
    if number == 0 {
        return b"Ok";
    }
    if number > 63 {
        return own_name(number);
    }
    if number > REFUSALS.len() {
        return b"Unknown";
    }
    REFUSALS[number - 1].name().as_bytes()
}

/// Returns the name of a status that is no error of the sections.
fn own_name(number: usize) -> &'static [u8]
    requires { 63 < number }
    ensures { result.now ≡ status_name (pos number) }
{
    if number > 69 {
        return b"Unknown";
    }
    if number == 64 {
        return b"NoContext";
    }
    if number == 65 {
        return b"NoTable";
    }
    if number == 66 {
        return b"NoSegments";
    }
    if number == 67 {
        return b"NoHeader";
    }
    if number == 68 {
        return b"NoSection";
    }
    b"NotInMemory"
}
