//! The files that a profile or a core file names, as the system opens them.
ghost use Rattle.std.specs.Prelude.{◌≡◌, ⊤, IfSome, string_bytes};
ghost use Rattle.cfi_commands.specs.Disks.{disk_of};
ghost use Rattle.cfi_commands.specs.Folders.{folder_of, folders_view, linked_path, path_below};
ghost use Rattle.cfi_commands.specs.NamedFiles.{MayOpenAt};

use crate::folders::{Folders, copy_path, debug_path, folder_of, linked_path, path_below};
use crate::system::System;
use cfi_mapped::code_map::map_name;
use cfi_mapped::{LinkFolder, Opener};
use std::alloc::Global;
use std::str;

/// Where Linux tells the symbols of the kernel that runs (proc(5)).
const KERNEL_SYMBOLS: &str = "/proc/kallsyms";

/// The files of a system, by the names that a profile has for them.
#[derive(Drop)]
pub struct ProfileOpener<'s, S> {
    /// The system.
    pub system: &'s S,
    /// Where the files are.
    pub folders: Folders<'s>,
    /// The path of the profile, or of the core file.
    pub path: &'s str,
}

/// Returns the path of the file with this name, if it is UTF-8. `None` also where memory is
/// refused.
fn path_of(alloc: Global, folders: Folders, name: &[u8]) -> Option<String>
    ensures { IfSome result (λ path. string_bytes path
        ≡ path_below (folders_view folders.entry).symfs name.now) }
{
    match str::from_utf8(name) {
        Ok(name) => path_below(alloc, folders, name),
        Err(_) => None,
    }
}

/// Returns the path of the debug file with the name `link`, in a folder where it may be of the file
/// with this name, if both are UTF-8. `None` also where memory is refused.
fn linked_path_of(
    alloc: Global,
    folders: Folders,
    place: LinkFolder,
    name: &[u8],
    link: &[u8],
) -> Option<String>
    ensures { IfSome result (λ path. string_bytes path
        ≡ linked_path (folders_view folders.entry) place (folder_of name.now) link.now) }
{
    let folder = str::from_utf8(folder_of(name)).ok()?;
    let link = str::from_utf8(link).ok()?;
    linked_path(alloc, folders, place, folder, link)
}

impl<S: System> Opener for ProfileOpener<'_, S> {
    type File = S::File;

    ghost may_open = { λ opener place opened.
        MayOpenAt (disk_of (S.may_open opener.system.now) S.File.bytes)
        (folders_view opener.folders) place opened };

    ghost has_said = { λ _ _. ⊤ };

    /// Opens the file with this name, if it is UTF-8 and a regular file.
    fn open(&self, name: &[u8]) -> Option<S::File> {
        let path = path_of(self.system.alloc(), self.folders, name)?;
        self.system.open_regular(path.as_str())
    }

    fn find(&self, name: &[u8]) -> Option<S::File> {
        let path = path_of(self.system.alloc(), self.folders, name)?;
        self.system.find_regular(path.as_str())
    }

    fn open_copy(&self, build: &[u8]) -> Option<S::File> {
        let copy = match self.folders.symfs {
            Some(root) => copy_path(self.system.alloc(), root, build)?,
            None => {
                let home = self.system.home()?;
                copy_path(self.system.alloc(), home.as_str(), build)?
            }
        };
        self.system.find_regular(copy.as_str())
    }

    fn open_debug(&self, build: &[u8]) -> Option<S::File> {
        let debug = debug_path(self.system.alloc(), self.folders, build)?;
        self.system.find_regular(debug.as_str())
    }

    fn open_linked(&self, folder: LinkFolder, name: &[u8], link: &[u8]) -> Option<S::File> {
        let linked = linked_path_of(self.system.alloc(), self.folders, folder, name, link)?;
        self.system.find_regular(linked.as_str())
    }

    fn open_kernel_symbols(&self) -> Option<S::File> {
        self.system.find_regular(KERNEL_SYMBOLS)
    }

    fn open_code_map(&self, process: u32) -> Option<S::File> {
        let map = map_name(self.system.alloc(), process).ok()?;
        self.system.find_regular(map.as_str())
    }

    fn tell_missing(&self, name: &[u8]) {
        self.system.warn_missing(name);
    }

    fn tell_without_stacks(&self) {
        self.system.warn_without_stacks(self.path);
    }

    fn tell_lost(&self, records: u64, samples: u64) {
        self.system.warn_lost(self.path, records, samples);
    }

    ghost same_bytes = { λ file. S.same_bytes file };
}
