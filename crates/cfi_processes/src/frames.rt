//! The frames of a stack as values: the address of each, and where its code is.
ghost use Rattle.std.specs.Prelude.{◌≡◌, ◌++◌, OnOk, map};
ghost use Rattle.cfi_perf.specs.CallChains.{addresses_left};
ghost use Rattle.cfi_mapped.specs.Mappings.{AreMappedInOrder};
ghost use Rattle.cfi_processes.specs.Frames.{called_frame, frame_site, frame_view, walked_frame};
ghost use Rattle.cfi_processes.specs.KnownFiles.{known_view};
ghost use Rattle.cfi_processes.specs.Sites.{site_view};

use crate::process_code::ProcessCode;
use crate::sites::Site;
use cfi_perf::Addresses;
use cfi_step::{StackFrame, row_address};
use std::alloc::AllocError;

/// Whose code a frame is in.
#[derive(Clone, Copy, Debug, PartialEq, Eq)]
pub enum FrameKind {
    /// The process's.
    User,
    /// The kernel's.
    Kernel,
}

/// A frame of a stack, and where its code is.
#[derive(Clone, Copy, Debug)]
pub struct Frame<'run> {
    /// The address that the code was looked up by: of an interrupted frame its pc, of another one
    /// its return address less one; of a frame of a call chain the address that stands there.
    pub address: u64,
    pub kind: FrameKind,
    /// Whether the frame was interrupted at this address, and didn't call; false for all frames of
    /// a call chain, which doesn't say it.
    pub is_interrupted: bool,
    pub site: Site<'run>,
}

impl<'a, 'files, 'run> ProcessCode<'a, 'files, 'run> {
    /// Appends the frames that a walk over a stack of this process found; without functions, none
    /// is looked up. Fails where memory is refused. Allocates where there is no room for a frame.
    pub fn push_walked(
        &self,
        with_functions: bool,
        walked: &[StackFrame],
        frames: &mut Vec<Frame<'run>>,
    ) -> Result<(), AllocError>
        requires { AreMappedInOrder 0 self.now.mappings.now }
        ensures { OnOk result (map frame_view frames.new.items ≡ map frame_view frames.old.items
            ++ map (walked_frame with_functions (map known_view self.now.files.now)
            self.now.mappings.now) walked.now) }
    {
        for frame in walked {
            frames.push(self.walked_frame(with_functions, frame))?;
        }
        Ok(())
    }

    /// Appends the frames of a call chain of this process, or of the kernel, if this is what is
    /// mapped into `KERNEL`; without functions, none is looked up. Fails where memory is refused.
    /// Allocates where there is no room for a frame.
    pub fn push_called(
        &self,
        kind: FrameKind,
        with_functions: bool,
        addresses: Addresses<'_>,
        frames: &mut Vec<Frame<'run>>,
    ) -> Result<(), AllocError>
        requires { AreMappedInOrder 0 self.now.mappings.now }
        ensures { OnOk result (map frame_view frames.new.items ≡ map frame_view frames.old.items
            ++ map (called_frame kind with_functions (map known_view self.now.files.now)
            self.now.mappings.now) (addresses_left addresses.entry)) }
    {
        for address in addresses {
            frames.push(self.called_frame(kind, with_functions, address))?;
        }
        Ok(())
    }

    /// A frame that a walk found.
    fn walked_frame(&self, with_functions: bool, frame: &StackFrame) -> Frame<'run>
        requires { AreMappedInOrder 0 self.now.mappings.now }
        ensures { frame_view result ≡ walked_frame with_functions
            (map known_view self.now.files.now) self.now.mappings.now frame.now }
    {
        let address = row_address(frame.pc, frame.is_interrupted);
        Frame {
            address,
            kind: FrameKind::User,
            is_interrupted: frame.is_interrupted,
            site: self.frame_site(FrameKind::User, with_functions, address),
        }
    }

    /// A frame of a call chain.
    fn called_frame(&self, kind: FrameKind, with_functions: bool, address: u64) -> Frame<'run>
        requires { AreMappedInOrder 0 self.now.mappings.now }
        ensures { frame_view result ≡ called_frame kind with_functions
            (map known_view self.now.files.now) self.now.mappings.now address }
    {
        Frame {
            address,
            kind,
            is_interrupted: false,
            site: self.frame_site(kind, with_functions, address),
        }
    }

    /// Where the code of a frame is.
    fn frame_site(&self, kind: FrameKind, with_functions: bool, address: u64) -> Site<'run>
        requires { AreMappedInOrder 0 self.now.mappings.now }
        ensures { site_view result ≡ frame_site kind with_functions
            (map known_view self.now.files.now) self.now.mappings.now address }
    {
        match kind {
            FrameKind::User if with_functions => self.site(address),
            FrameKind::User => self.place(address),
            FrameKind::Kernel if with_functions => self.kernel_site(address),
            FrameKind::Kernel => self.kernel_place(address),
        }
    }
}
