//! Why a stack has no more frames, as it is printed.
ghost use Rattle.std.specs.Prelude.{◌≡◌, None, Some, option_map};
ghost use Rattle.cfi_frames.specs.Reasons.{reason_for, reason_of, reason_of_error, reason_view};
ghost use Rattle.cfi_frames.specs.Reasons.{reason_without};

use cfi_processes::sample_stack::NoFrames;
use cfi_step::{End, FrameError, Walk};
use gimli_cfi::Error;

/// The name of a variant, what it says in words, and the error of the call frames that it carries.
#[derive(Clone, Copy, Debug)]
pub struct Reason {
    /// The name of the variant of `End`, `FrameError` or `NoFrames`.
    pub name: &'static str,
    /// The same in words.
    pub words: &'static str,
    /// The error that `FrameError::NoRow` or `FrameError::Unreadable` carries.
    pub error: Option<Error>,
}

/// The reason why a walk has no more frames; `None` where its last frame is the outermost one.
fn reason_of(end: End) -> Option<Reason>
    ensures { option_map reason_view result ≡ reason_of end }
{
    match end {
        End::Outermost => None,
        End::NoModule => Some(named("NoModule", "no file with call frames is mapped here")),
        End::Failed(error) => Some(reason_of_error(error)),
        End::NotRising => Some(named("NotRising", "the caller's frame isn't above this one")),
        End::NoRoom => Some(named("NoRoom", "there are more frames than can be kept")),
    }
}

/// The reason why a sample has no frames.
fn reason_without(why: NoFrames) -> Reason
    ensures { reason_view result ≡ reason_without why }
{
    match why {
        NoFrames::NoRegisters => named("NoRegisters", "the sample has no registers of user space"),
        NoFrames::OtherAbi(_) => named(
            "OtherAbi",
            "the registers aren't those of a 64-bit program",
        ),
        NoFrames::NoProgramCounter => named("NoProgramCounter", "the program counter isn't known"),
        NoFrames::NoStackPointer => named("NoStackPointer", "the stack pointer isn't known"),
    }
}

/// Why a walk has no more frames, or none at all.
pub fn reason_for(found: Result<Walk, NoFrames>) -> Option<Reason>
    ensures { option_map reason_view result ≡ reason_for found }
{
    match found {
        Ok(walk) => reason_of(walk.end),
        Err(why) => Some(reason_without(why)),
    }
}

/// The reason why the step from the last frame failed.
fn reason_of_error(error: FrameError) -> Reason
    ensures { reason_view result ≡ reason_of_error error }
{
    match error {
        FrameError::NoRow(error) => carrying(
            "NoRow",
            "the call frames have no row for this address",
            error,
        ),
        FrameError::Unreadable(error) => carrying(
            "Unreadable",
            "the call frames can't be read",
            error,
        ),
        FrameError::UnsupportedOperation(_) => named(
            "UnsupportedOperation",
            "an expression has an unsupported operation",
        ),
        FrameError::UnsupportedSize(_) => named(
            "UnsupportedSize",
            "an expression reads a number of an unsupported size",
        ),
        FrameError::UnknownRegister(_) => named("UnknownRegister", "a needed register isn't known"),
        FrameError::UnreadableMemory(_) => named("UnreadableMemory", "needed memory isn't there"),
        FrameError::NotEnoughStackItems => named(
            "NotEnoughStackItems",
            "an expression takes more than it has",
        ),
        FrameError::StackFull => named("StackFull", "an expression needs more room than there is"),
        FrameError::DivisionByZero => named("DivisionByZero", "an expression divides by zero"),
        FrameError::BadBranchTarget(_) => named(
            "BadBranchTarget",
            "an expression branches out of itself",
        ),
        FrameError::TooManyIterations => named(
            "TooManyIterations",
            "an expression has too many steps",
        ),
        FrameError::ArchitecturalRule => named("ArchitecturalRule", "the rule is architectural"),
    }
}

/// Returns the reason with a name, which carries no error.
fn named(name: &'static str, words: &'static str) -> Reason
    ensures { reason_view result ≡ record { name = name.now; words = words.now; error = None } }
{
    Reason {
        name,
        words,
        error: None,
    }
}

/// Returns the reason with a name and the error that it carries.
fn carrying(name: &'static str, words: &'static str, error: Error) -> Reason
    ensures { reason_view result
        ≡ record { name = name.now; words = words.now; error = Some error } }
{
    Reason {
        name,
        words,
        error: Some(error),
    }
}
