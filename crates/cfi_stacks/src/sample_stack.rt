//! The stack of a sample as a value.
ghost use Rattle.std.specs.Prelude.{◌≡◌, ◌≤◌, ◌++◌, IfOk, OnOk, length, map, option_map};
ghost use Rattle.cfi_perf.specs.Samples.{sample_view};
ghost use Rattle.cfi_mapped.specs.Mappings.{AreMappedInOrder};
ghost use Rattle.cfi_processes.specs.Frames.{frame_view};
ghost use Rattle.cfi_frames.specs.Reasons.{reason_view};
ghost use Rattle.cfi_stacks.specs.SampleOutputs.{frames_of, sample_reason, stack_view, stack_with};
ghost use Rattle.cfi_stacks.specs.SampleOutputs.{user_frames_of};
ghost use Rattle.cfi_stacks.specs.TakenSamples.{taken_view};

use crate::taken_sample::TakenSample;
use cfi_frames::reasons::{Reason, reason_for};
use cfi_mapped::Name;
use cfi_perf::Sample;
use cfi_processes::sample_stack::NoFrames;
use cfi_processes::{Frame, FrameKind};
use cfi_step::{StackFrame, Walk};
use std::alloc::AllocError;

/// The stack of a sample.
#[derive(Drop)]
pub struct SampleStack<'s, 'run> {
    /// The name of the thread, if one is known.
    pub name: Option<Name<'s>>,
    /// In nanoseconds.
    pub time: u64,
    pub sample: Sample<'s>,
    /// Those of the kernel, and then those of user space, each from the innermost one out.
    pub frames: &'s [Frame<'run>],
    /// Why there are no more; `None` where the last frame is the outermost one, or is of a call
    /// chain.
    pub reason: Option<Reason>,
}

impl<'a, 'files, 'run> TakenSample<'a, 'files, 'run> {
    /// Makes these the frames of the sample: those of the kernel, and those of user space that
    /// were found, or those of the call chain where the sample's event copies no stacks. Without
    /// functions, none is looked up. Fails where memory is refused. Allocates where there is no
    /// room for a frame.
    pub(crate) fn collect_frames(
        &self,
        with_functions: bool,
        found: Result<Walk, NoFrames>,
        walked: &[StackFrame],
        frames: &mut Vec<Frame<'run>>,
    ) -> Result<(), AllocError>
        requires kernel { AreMappedInOrder 0 self.now.kernel.mappings.now }
        requires order { AreMappedInOrder 0 self.now.code.mappings.now }
        requires count { IfOk found (λ walk. walk.count ≤ length walked.now) }
        ensures { OnOk result (map frame_view frames.new.items
            ≡ frames_of with_functions (taken_view self.now) found walked.now) }
    {
        frames.clear();
        let kernel_frames = self.sample.kernel_frames();
        self.kernel
            .push_called(FrameKind::Kernel, with_functions, kernel_frames, frames)?;
        self.push_user_frames(with_functions, found, walked, frames)
    }

    /// Appends the frames of user space.
    fn push_user_frames(
        &self,
        with_functions: bool,
        found: Result<Walk, NoFrames>,
        walked: &[StackFrame],
        frames: &mut Vec<Frame<'run>>,
    ) -> Result<(), AllocError>
        requires order { AreMappedInOrder 0 self.now.code.mappings.now }
        requires count { IfOk found (λ walk. walk.count ≤ length walked.now) }
        ensures { OnOk result (map frame_view frames.new.items ≡ map frame_view frames.old.items
            ++ user_frames_of with_functions (taken_view self.now) found walked.now) }
    {
        if !self.sample.copies_stack {
            let user_frames = self.sample.user_frames();
            return self
                .code
                .push_called(FrameKind::User, with_functions, user_frames, frames);
        }
        match found {
            Ok(walk) => self
                .code
                .push_walked(with_functions, &walked[..walk.count], frames),
            Err(_) => Ok(()),
        }
    }

    /// The stack of the sample with these frames.
    pub(crate) fn stack<'s>(
        &'s self,
        found: Result<Walk, NoFrames>,
        frames: &'s [Frame<'run>],
    ) -> SampleStack<'s, 'run>
        ensures { stack_view result
            ≡ stack_with (taken_view self.now) found (map frame_view frames.now) }
    {
        SampleStack {
            name: self.name,
            time: self.time,
            sample: self.sample,
            frames,
            reason: sample_reason(&self.sample, found),
        }
    }
}

/// Why a sample has no more frames, if there is a reason.
pub(crate) fn sample_reason(sample: &Sample<'_>, found: Result<Walk, NoFrames>) -> Option<Reason>
    ensures { option_map reason_view result ≡ sample_reason (sample_view sample.now) found }
{
    if sample.copies_stack {
        reason_for(found)
    } else {
        None
    }
}
