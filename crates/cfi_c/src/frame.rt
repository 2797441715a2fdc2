//! A frame of a stack, as C sees it.
ghost use Rattle.std.specs.Prelude.{◌≡◌};
ghost use Rattle.cfi_c.specs.StackFrames.{written_frame};

use cfi_step::walk::Start;
use cfi_step::{Caller, End, StackFrame, WalkFrame};

/// A frame of a stack.
#[repr(C)]
#[derive(Clone, Copy)]
pub struct CfiFrame {
    /// Where the frame goes on, or was interrupted.
    pub pc: u64,
    /// The canonical frame address; 0 if the walk ends here without it.
    pub cfa: u64,
    pub has_cfa: bool,
    pub is_interrupted: bool,
}

impl WalkFrame for CfiFrame {
    ghost use Rattle.cfi_c.specs.StackFrames.{frame_by};

    ghost written = { frame_by };

    fn of(at: &Start, step: Result<Caller, End>) -> CfiFrame {
        frame_of(StackFrame::of(at, step))
    }
}

/// The frame as C sees it.
fn frame_of(frame: StackFrame) -> CfiFrame
    ensures { result ≡ written_frame frame }
{
    match frame.cfa {
        Some(cfa) => CfiFrame {
            pc: frame.pc,
            cfa,
            has_cfa: true,
            is_interrupted: frame.is_interrupted,
        },
        None => CfiFrame {
            pc: frame.pc,
            cfa: 0,
            has_cfa: false,
            is_interrupted: frame.is_interrupted,
        },
    }
}
