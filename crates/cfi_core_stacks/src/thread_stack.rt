//! The stack of a thread of a core file as a value.
ghost use Rattle.std.specs.Prelude.{◌≡◌, ◌≤◌, IfOk, length, map};
ghost use Rattle.cfi_cores.specs.CoreThreads.{thread_view};
ghost use Rattle.cfi_mapped.specs.Mappings.{AreMappedInOrder};
ghost use Rattle.cfi_mapped.specs.ThreadNames.{name_bytes};
ghost use Rattle.cfi_processes.specs.Frames.{frame_view, walked_frame};
ghost use Rattle.cfi_processes.specs.KnownFiles.{known_view};
ghost use Rattle.cfi_processes.specs.Rooms.{found_frames};
ghost use Rattle.cfi_core_stacks.specs.ThreadOutputs.{stack_view, stack_with};

use crate::core_process::CoreProcess;
use cfi_cores::CoreThread;
use cfi_frames::reasons::{Reason, reason_for};
use cfi_mapped::Name;
use cfi_processes::Frame;
use cfi_processes::sample_stack::NoFrames;
use cfi_step::{StackFrame, Walk};
use std::alloc::{AllocError, Global};

/// The stack of a thread.
#[derive(Drop)]
pub struct ThreadStack<'s, 'run> {
    /// The name of the process, if it has one.
    pub process: Option<Name<'s>>,
    pub thread: &'s CoreThread<'s>,
    /// From the innermost one out.
    pub frames: &'s [Frame<'run>],
    /// Why there are no more; `None` where the last frame is the outermost one.
    pub reason: Option<Reason>,
}

impl<'a, 'files, 'run> CoreProcess<'a, 'files, 'run> {
    /// The frames that a walk found. Without functions, none is looked up. Fails where memory is
    /// refused. Allocates for the frames.
    pub(crate) fn found_frames(
        &self,
        alloc: Global,
        with_functions: bool,
        found: Result<Walk, NoFrames>,
        walked: &[StackFrame],
    ) -> Result<Vec<Frame<'run>>, AllocError>
        requires order { AreMappedInOrder 0 self.now.code.mappings.now }
        requires count { IfOk found (λ walk. walk.count ≤ length walked.now) }
        ensures { IfOk result (λ frames. map frame_view frames.items
            ≡ map (walked_frame with_functions (map known_view self.now.code.files.now)
            self.now.code.mappings.now) (found_frames found walked.now)) }
    {
        let mut frames = Vec::new(alloc);
        if let Ok(walk) = found {
            self.code
                .push_walked(with_functions, &walked[..walk.count], &mut frames)?;
        }
        Ok(frames)
    }

    /// The stack of a thread with these frames.
    pub(crate) fn stack<'s>(
        &'s self,
        thread: &'s CoreThread<'s>,
        found: Result<Walk, NoFrames>,
        frames: &'s [Frame<'run>],
    ) -> ThreadStack<'s, 'run>
        ensures { stack_view result ≡ stack_with (name_bytes self.now.name)
            (thread_view thread.now) found (map frame_view frames.now) }
    {
        ThreadStack {
            process: self.name,
            thread,
            frames,
            reason: reason_for(found),
        }
    }
}
