//! Where no call frames have the address of a frame.
ghost use Rattle.std.specs.Prelude.{◌≡◌};
ghost use Rattle.cfi_core_stacks.specs.MissingFrames.{has_no_frames, is_absent, lacks_frames};
ghost use Rattle.cfi_core_stacks.specs.MissingFrames.{lacks_row};

use cfi_expression::FrameError;
use cfi_step::Caller;
use cfi_step::walk::End;
use gimli_cfi::Error;

/// Whether a step ends since no call frames have the address.
pub(crate) fn has_no_frames(step: Result<Caller, End>) -> bool
    ensures { result ≡ has_no_frames step }
{
    match step {
        Ok(_) => false,
        Err(end) => lacks_frames(end),
    }
}

/// Whether a walk ends since no call frames have the address.
pub(crate) fn lacks_frames(end: End) -> bool
    ensures { result ≡ lacks_frames end }
{
    match end {
        End::NoModule => true,
        End::Failed(error) => lacks_row(error),
        _ => false,
    }
}

/// Whether there is no row since no FDE has the address.
fn lacks_row(error: FrameError) -> bool
    ensures { result ≡ lacks_row error }
{
    match error {
        FrameError::NoRow(error) => is_absent(error),
        _ => false,
    }
}

/// Whether no FDE has the address.
fn is_absent(error: Error) -> bool
    ensures { result ≡ is_absent error }
{
    match error {
        Error::NoUnwindInfoForAddress => true,
        _ => false,
    }
}
