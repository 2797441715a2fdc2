//! How the files of a profile are opened.
ghost use Rattle.std.specs.Prelude.{◌≡◌, Option};
ghost use Rattle.cfi_mapped.specs.Notices.{Notice, lost, missing, without_stacks};
ghost use Rattle.cfi_mapped.specs.Wanted.{FilePlace, at_path, code_map, copy_of, debug_of};
ghost use Rattle.cfi_mapped.specs.Wanted.{kernel_symbols, linked};

use crate::wanted::LinkFolder;
use cfi_object::FileInput;
use std::io::Read;

/// Opens files by the names that a profile has for them.
pub trait Opener {
    /// An open file.
    type File: FileInput + Read + Drop;

    /// What may be opened at a place; none where nothing can be opened.
    ghost may_open: { Self → FilePlace → Option Self.File → Type 0 };

    /// What it has said.
    ghost has_said: { Self → Notice → Type 0 };

    /// Opens the file with this name; `None` where it can't be opened, which it says.
    fn open(&self, name: &[u8]) -> Option<Self::File>
        ensures { may_open self.now (at_path name.now) result };

    /// Opens the file with this name, and says nothing where it can't be opened.
    fn find(&self, name: &[u8]) -> Option<Self::File>
        ensures { may_open self.now (at_path name.now) result };

    /// Opens the copy of the file of this build that the recorder kept; `None` where it can't be
    /// opened. Says nothing.
    fn open_copy(&self, build: &[u8]) -> Option<Self::File>
        ensures { may_open self.now (copy_of build.now) result };

    /// Opens the debug file of the file of this build, which has the symbols that the file itself
    /// was stripped of; `None` where it can't be opened. Says nothing.
    fn open_debug(&self, build: &[u8]) -> Option<Self::File>
        ensures { may_open self.now (debug_of build.now) result };

    /// Opens the debug file to which the link of the file with this name may lead, in a folder;
    /// `None` where it can't be opened. Says nothing.
    fn open_linked(&self, folder: LinkFolder, name: &[u8], link: &[u8]) -> Option<Self::File>
        ensures { may_open self.now (linked folder name.now link.now) result };

    /// Opens what the kernel tells of its symbols (`/proc/kallsyms`, proc(5)); `None` where it
    /// can't be opened. Says nothing.
    fn open_kernel_symbols(&self) -> Option<Self::File>
        ensures { may_open self.now kernel_symbols result };

    /// Opens what a process tells of the functions of code that it made (`/tmp/perf-PID.map`);
    /// `None` where it can't be opened. Says nothing.
    fn open_code_map(&self, process: u32) -> Option<Self::File>
        ensures { may_open self.now (code_map process) result };

    /// Says that for the file with this name none of the build that ran was found.
    fn tell_missing(&self, name: &[u8])
        ensures { has_said self.now (missing name.now) };

    /// Says that the profile was recorded without copies of stacks, and how it is recorded with
    /// them.
    fn tell_without_stacks(&self)
        ensures { has_said self.now without_stacks };

    /// Says how many of the profile's records were lost, and how many of its samples. One of these
    /// numbers may be 0.
    fn tell_lost(&self, records: u64, samples: u64)
        ensures { has_said self.now (lost records samples) };

    /// Of each file the bytes that it has left as a reader are those that it has by parts.
    ghost same_bytes: { (file : Self.File) → Self.File.remaining file ≡ Self.File.bytes file };
}
