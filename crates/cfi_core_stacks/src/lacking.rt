//! Whether a walk might go on with more of the memory.
ghost use Rattle.std.specs.Prelude.{◌≡◌};
ghost use Rattle.cfi_core_stacks.specs.KnownCores.{end_lacks, error_lacks, may_be_signal};
ghost use Rattle.cfi_core_stacks.specs.KnownCores.{misses_value};
ghost use Rattle.cfi_core_stacks.specs.KnownCores.{walk_lacks};

use crate::missing_frames::lacks_frames;
use cfi_expression::FrameError;
use cfi_processes::registers::SampleMachine;
use cfi_processes::sample_stack::NoFrames;
use cfi_step::{End, Walk};

/// Whether a walk ended where a register or a number of the memory isn't known, or where no call
/// frames have the address and it may be that a signal handler returned to it: with more of the
/// memory it might go on.
pub(crate) fn walk_lacks(machine: SampleMachine, found: Result<Walk, NoFrames>) -> bool
    ensures { result ≡ walk_lacks machine found }
{
    match found {
        Ok(walk) => end_lacks(machine, walk.end),
        Err(_) => false,
    }
}

/// The same by how it ended.
fn end_lacks(machine: SampleMachine, end: End) -> bool
    ensures { result ≡ end_lacks machine end }
{
    misses_value(end) || may_be_signal(machine, end)
}

/// Whether a register or a number of the memory isn't known.
fn misses_value(end: End) -> bool
    ensures { result ≡ misses_value end }
{
    match end {
        End::Failed(error) => error_lacks(error),
        _ => false,
    }
}

/// The same by the error.
fn error_lacks(error: FrameError) -> bool
    ensures { result ≡ error_lacks error }
{
    match error {
        FrameError::UnknownRegister(_) | FrameError::UnreadableMemory(_) => true,
        _ => false,
    }
}

/// Whether a handler may have returned there, whose trampoline has no call frames.
fn may_be_signal(machine: SampleMachine, end: End) -> bool
    ensures { result ≡ may_be_signal machine end }
{
    match machine {
        SampleMachine::X86_64 => false,
        SampleMachine::AArch64 => lacks_frames(end),
    }
}
