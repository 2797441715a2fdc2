//! What takes the results of addresses step by step.
ghost use Rattle.std.specs.Prelude.{◌≤◌, ◌+◌, ℕ, Result, Ok, Err, OnOk};
ghost use Rattle.cfi_read_core.specs.declared.error.Error.{Error as TheError};
ghost use Rattle.cfi_compiled.specs.FrameParts.{FrameParts, frame_parts};
ghost use Rattle.cfi_compiled.specs.Steps.{IsFrom, SameBelow};

use crate::facts::CieFacts;
use cfi_read_core::{Error, Register};
use cfi_state::storage::ArrayLike;
use cfi_state::table::row::UnwindTableRow;
use cfi_state::table::rules::RegisterRule;
use std::alloc::{AllocError, AllocFailed};

/// Memory was refused.
#[derive(Clone, Copy, Debug)]
pub(crate) struct NoMemory;

impl From<AllocError> for NoMemory {
    fn from(_error: AllocError) -> NoMemory {
        NoMemory
    }
}

impl<T: Drop> From<AllocFailed<T>> for NoMemory {
    fn from(_error: AllocFailed<T>) -> NoMemory {
        NoMemory
    }
}

/// What takes steps one by one, each above the one before.
pub(crate) trait StepSink {
    /// The result for each address, by the steps so far.
    ghost answer: { Self → ℕ → Result FrameParts TheError };

    /// The least address from which the next step may be.
    ghost free: { Self → ℕ };

    /// From this address on the result is what the row and its CIE say.
    fn row<A: ArrayLike<Item = (Register, RegisterRule<usize>)>>(
        &mut self,
        from: u64,
        row: &UnwindTableRow<usize, A>,
        facts: CieFacts,
    ) -> std::result::Result<(), NoMemory>
        requires { free self.old ≤ from }
        ensures before { OnOk result (SameBelow from (answer self.new) (answer self.old)) }
        ensures after { OnOk result (IsFrom from (answer self.new)
            (Ok (frame_parts facts row.now.parts))) }
        ensures free { OnOk result (free self.new ≤ from + 1) };

    /// From this address on the result is this error.
    fn error(&mut self, from: u64, error: Error) -> std::result::Result<(), NoMemory>
        requires { free self.old ≤ from }
        ensures before { OnOk result (SameBelow from (answer self.new) (answer self.old)) }
        ensures after { OnOk result (IsFrom from (answer self.new) (Err error)) }
        ensures free { OnOk result (free self.new ≤ from + 1) };
}
