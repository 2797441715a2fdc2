//! Why there are no more frames, or no caller, as C sees it.
ghost use Rattle.std.specs.Prelude.{◌≡◌};
ghost use Rattle.cfi_read_core.specs.declared.error.Error.TheVariants.{UnsupportedAddressSize};
ghost use Rattle.cfi_c.specs.Ends.{end_by, failed_end, no_context, plain_end, refused_end};
ghost use Rattle.cfi_c.specs.Ends.{written_end};

use crate::refusal::{NO_CONTEXT, number_of};
use cfi_step::{Caller, End, FrameError};
use gimli_cfi::Error;

/// The kind of an end where nothing is walked.
const NOT_WALKED: u32 = 16;

/// The kind of an end where there is a caller.
pub const NONE: u32 = 17;

/// Why there are no more frames.
#[repr(C)]
#[derive(Clone, Copy)]
pub struct CfiEnd {
    /// The place, byte or number that the error carries, else 0.
    pub refused: u64,
    /// 0: outermost, 1: no module, 2: the CFA does not rise, 3: no room, 4 to 15: no caller is
    /// found, 16: nothing is walked.
    pub kind: u32,
    /// The number of an error of the sections, else 0.
    pub status: i32,
}

/// Why a walk has no more frames, as C sees it.
pub fn end_of(end: End) -> CfiEnd
    ensures { result ≡ written_end end }
{
    match end {
        End::Outermost => plain_end(0, 0),
        End::NoModule => plain_end(1, 0),
        End::NotRising => plain_end(2, 0),
        End::NoRoom => plain_end(3, 0),
        End::Failed(error) => failed_end(error),
    }
}

/// Why no caller is found, as C sees it.
pub fn failed_end(error: FrameError) -> CfiEnd
    ensures { result ≡ failed_end error }
{
    match error {
        FrameError::NoRow(error) => refused_end(4, error),
        FrameError::Unreadable(error) => refused_end(5, error),
        FrameError::UnsupportedOperation(opcode) => plain_end(6, u64::from(opcode)),
        FrameError::UnsupportedSize(size) => plain_end(7, u64::from(size)),
        FrameError::UnknownRegister(register) => plain_end(8, u64::from(register.0)),
        FrameError::UnreadableMemory(address) => plain_end(9, address),
        FrameError::NotEnoughStackItems => plain_end(10, 0),
        FrameError::StackFull => plain_end(11, 0),
        FrameError::DivisionByZero => plain_end(12, 0),
        FrameError::BadBranchTarget(distance) => plain_end(13, u64::from(distance.cast_unsigned())),
        FrameError::TooManyIterations => plain_end(14, 0),
        FrameError::ArchitecturalRule => plain_end(15, 0),
    }
}

/// An end without an error of the sections.
pub fn plain_end(kind: u32, refused: u64) -> CfiEnd
    ensures { result ≡ plain_end kind refused }
{
    CfiEnd {
        refused,
        kind,
        status: 0,
    }
}

/// An end by an error of the sections.
fn refused_end(kind: u32, error: Error) -> CfiEnd
    ensures { result ≡ refused_end kind error }
{
    CfiEnd {
        refused: error.value(),
        kind,
        status: number_of(error),
    }
}

/// The end without a context.
pub fn no_context() -> CfiEnd
    ensures { result ≡ no_context }
{
    CfiEnd {
        refused: 0,
        kind: NOT_WALKED,
        status: NO_CONTEXT,
    }
}

/// The end where no address has this size.
pub fn unsized_end(size: u8) -> CfiEnd
    ensures { result ≡ refused_end 16 (UnsupportedAddressSize size) }
{
    refused_end(NOT_WALKED, Error::UnsupportedAddressSize(size))
}

/// Why there is no caller, or that there is one.
pub fn end_by(caller: Result<Caller, FrameError>) -> CfiEnd
    ensures { result ≡ end_by caller }
{
    match caller {
        Ok(caller) => match caller.pc {
            Some(_pc) => plain_end(NONE, 0),
            None => plain_end(0, 0),
        },
        Err(error) => failed_end(error),
    }
}
