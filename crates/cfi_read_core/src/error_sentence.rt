//! What errors say, in a sentence.
ghost use Rattle.std.specs.Prelude.{◌≡◌, Some};
ghost use Rattle.std.specs.Fmt.{decimal};
ghost use Rattle.cfi_read_core.specs.ErrorSentences.{around, hexadecimal, sentence_of};
ghost use Rattle.cfi_read_core.specs.Sayings.{number_text, saying_text};

use crate::error::Error;
use std::fmt;

/// A number in a sentence.
#[derive(Clone, Copy)]
enum Number {
    Absent,
    Decimal(u64),
    Hexadecimal(u64),
}

impl fmt::Display for Number {
    ghost output = { λ number. Some (number_text number) };

    fn fmt<W: fmt::Write>(&self, f: &mut fmt::Formatter<W>) -> fmt::Result {
        match *self {
            Number::Absent => Ok(()),
            Number::Decimal(number) => write!(f, "{number}"),
            Number::Hexadecimal(number) => write!(f, "0x{number:x}"),
        }
    }
}

/// A sentence, with a number in it.
#[derive(Clone, Copy)]
pub(crate) struct Saying {
    before: &'static str,
    number: Number,
    after: &'static str,
}

impl fmt::Display for Saying {
    ghost output = { λ saying. Some (saying_text saying) };

    fn fmt<W: fmt::Write>(&self, f: &mut fmt::Formatter<W>) -> fmt::Result {
        let before = self.before;
        let number = self.number;
        let after = self.after;
        write!(f, "{before}{number}{after}")
    }
}

/// A sentence without a number.
fn plain(text: &'static str) -> Saying
    ensures { saying_text result ≡ text.now }
{
    Saying {
        before: text,
        number: Number::Absent,
        after: "",
    }
}

/// A sentence with a decimal number.
fn decimal(before: &'static str, number: u64, after: &'static str) -> Saying
    ensures { saying_text result ≡ around before.now (decimal number) after.now }
{
    let number = Number::Decimal(number);
    Saying {
        before,
        number,
        after,
    }
}

/// A sentence with a hexadecimal number, as addresses are printed.
fn hexadecimal(before: &'static str, number: u64, after: &'static str) -> Saying
    ensures { saying_text result ≡ around before.now (hexadecimal number) after.now }
{
    let number = Number::Hexadecimal(number);
    Saying {
        before,
        number,
        after,
    }
}

/// Returns what an error says.
pub(crate) fn saying_of(error: Error) -> Saying
    ensures { saying_text result ≡ sentence_of error }
{
    match error {
        Error::UnexpectedEof(place) => hexadecimal(
            "unexpected end of input at place ",
            place.0,
            "",
        ),
        Error::BadUnsignedLeb128 => plain("an unsigned LEB128 number does not fit 64 bits"),
        Error::BadSignedLeb128 => plain("a signed LEB128 number does not fit 64 bits"),
        Error::UnknownReservedLength(n) => hexadecimal("the length ", u64::from(n), " is reserved"),
        Error::UnsupportedAddressSize(n) => decimal(
            "the address size ",
            u64::from(n),
            " is not 1, 2, 4 or 8",
        ),
        Error::UnsupportedOffset => plain("a number does not fit the offset type"),
        Error::UnsupportedRegister(n) => decimal("the register ", n, " is above 65535"),
        Error::AddressOverflow => plain("an address does not fit the address size"),
        Error::UnknownVersion(n) => decimal("unknown version ", n, ""),
        Error::UnsupportedSegmentSize(n) => decimal(
            "segment selectors of size ",
            u64::from(n),
            " are not supported",
        ),
        Error::UnknownAugmentation => plain("unknown augmentation string"),
        Error::UnknownPointerEncoding(encoding) => hexadecimal(
            "the byte ",
            u64::from(encoding.0),
            " is not a pointer encoding",
        ),
        Error::CannotParseOmitPointerEncoding => plain("a required pointer is encoded as omitted"),
        Error::UnsupportedPointerEncoding(encoding) => hexadecimal(
            "the pointer encoding ",
            u64::from(encoding.0),
            " is not supported here",
        ),
        Error::PcRelativePointerButSectionBaseIsUndefined => plain(
            "section-relative pointer without the address of the section",
        ),
        Error::TextRelativePointerButTextBaseIsUndefined => plain(
            "text-relative pointer without a text base",
        ),
        Error::DataRelativePointerButDataBaseIsUndefined => plain(
            "data-relative pointer without a data base",
        ),
        Error::FuncRelativePointerInBadContext => plain(
            "function-relative pointer without a function base",
        ),
        Error::UnsupportedIndirectPointer => plain("indirect pointers are not supported"),
        Error::NotCieId(n) => hexadecimal("the entry at offset ", n, " is not a CIE"),
        Error::NotCiePointer(n) => hexadecimal("the entry at offset ", n, " is not an FDE"),
        Error::NoEntryAtGivenOffset(n) => hexadecimal("there is no entry at offset ", n, ""),
        Error::OffsetOutOfBounds(n) => hexadecimal(
            "the pointer ",
            n,
            " points before the start of the section",
        ),
        Error::UnknownCallFrameInstruction(opcode) => hexadecimal(
            "unknown call frame opcode ",
            u64::from(opcode.0),
            "",
        ),
        Error::CfiInstructionInInvalidContext => plain(
            "a call frame instruction is not valid in its context",
        ),
        Error::InvalidCfiSetLoc(n) => hexadecimal("the location is moved back to ", n, ""),
        Error::StackFull => plain("more remembered states than there is room for"),
        Error::PopWithEmptyStack => plain("restore_state without remember_state"),
        Error::TooManyRegisterRules => plain("more register rules than there is room for"),
        Error::NoUnwindInfoForAddress => plain("no unwind information for the address"),
        Error::OutOfMemory => plain("out of memory"),
    }
}
