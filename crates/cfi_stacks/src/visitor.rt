//! What the stacks of a profile's samples are handed to.
ghost use Rattle.std.specs.Prelude.{◌≡◌, IfErr, OnOk};
ghost use Rattle.cfi_stacks.specs.SampleOutputs.{Stack, stack_view};
ghost use Rattle.cfi_stacks.specs.Visits.{ended};

use crate::sample_stack::SampleStack;
use cfi_perf::PerfError;
use cfi_text::reading::InputError;

/// What the stacks of a profile's samples are handed to, one after the other. It adds each to a
/// target, which may be an output, or itself.
pub trait Visitor<T> {
    /// Why a stack isn't taken.
    type Error: Drop;

    /// What a visit makes of the visitor and the target.
    ghost visits: { Self × T → Stack → Self × T → Type 0 };

    /// What a visit that fails makes of these, and why it fails.
    ghost refuses: { Self × T → Stack → Self × T → Self.Error → Type 0 };

    /// Takes the stack of a sample. No other is handed over after an error.
    fn visit(&mut self, stack: &SampleStack<'_, '_>, target: &mut T) -> Result<(), Self::Error>
        ensures visited { OnOk result (visits (self.old, target.old) (stack_view stack.now)
            (self.new, target.new)) }
        ensures refused { IfErr result (refuses (self.old, target.old) (stack_view stack.now)
            (self.new, target.new)) };
}

/// Why not all stacks of a profile were handed over, or not all records were read.
#[derive(Drop)]
pub enum VisitError<E> {
    /// The input couldn't be read, or memory was refused. Stacks may have been handed over before.
    Input(InputError),
    /// This is no profile, or what it has before and after its records can't be read.
    Profile(PerfError),
    /// The registers of the profile's machine aren't known.
    UnknownMachine,
    /// This record can't be read. The stacks of all records before it were handed over.
    Records(PerfError),
    /// The visitor returned an error.
    Visitor(E),
}

/// What is returned after the last stack: the error that ended the records, if there is one.
pub(crate) fn ended<E: Drop>(error: Option<PerfError>) -> Result<(), VisitError<E>>
    ensures { result ≡ ended error }
{
    match error {
        None => Ok(()),
        Some(error) => Err(VisitError::Records(error)),
    }
}
