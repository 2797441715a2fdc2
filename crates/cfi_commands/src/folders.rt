//! The folders in which the files are that a profile or a core file names.
ghost use Rattle.std.specs.Prelude.{◌≡◌, ◌++◌, IfSome, codes, string_bytes};
ghost use Rattle.cfi_commands.specs.Folders.{build_path, debug_folder, debug_path, folder_of};
ghost use Rattle.cfi_commands.specs.Folders.{folders_view, linked_path, path_below};

use cfi_mapped::LinkFolder;
use std::alloc::Global;

/// The folders in which the files are that a profile or a core file names.
#[derive(Clone, Copy, Debug)]
pub struct Folders<'w> {
    /// The folder below which they are, in the place of the root of the system.
    pub symfs: Option<&'w str>,
    /// The folder of debug files, in the place of `/usr/lib/debug`.
    pub debug_dir: Option<&'w str>,
}

/// Returns the path of the file with this name, below the root if there is one and the name is an
/// absolute path. `None` where memory is refused.
pub fn path_below(alloc: Global, folders: Folders, name: &str) -> Option<String>
    ensures { IfSome result (λ path. string_bytes path
        ≡ path_below (folders_view folders.entry).symfs name.now) }
{
    match folders.symfs {
        Some(root) if name.starts_with("/") => joined(alloc, root, name),
        _ => joined(alloc, "", name),
    }
}

/// Returns the path of the copy of the file of this build, below the folder `.debug` of a folder
/// (perf-buildid-cache(1)). `None` where the identification is empty, or memory is refused.
pub fn copy_path(alloc: Global, folder: &str, build: &[u8]) -> Option<String>
    ensures { IfSome result (λ path. string_bytes path
        ≡ build_path (folder.now ++ codes "/.debug") build.now (codes "/elf")) }
{
    let copies = joined(alloc, folder, "/.debug")?;
    build_path(alloc, copies.as_str(), build, "/elf")
}

/// Returns the path of the debug file of the file of this build (gdb's manual, "Debugging
/// Information in Separate Files"). `None` where the identification is empty, or memory is refused.
pub fn debug_path(alloc: Global, folders: Folders, build: &[u8]) -> Option<String>
    ensures { IfSome result (λ path. string_bytes path
        ≡ debug_path (folders_view folders.entry) build.now) }
{
    let folder = debug_folder(alloc, folders)?;
    build_path(alloc, folder.as_str(), build, ".debug")
}

/// Returns the folder of debug files. `None` where memory is refused.
fn debug_folder(alloc: Global, folders: Folders) -> Option<String>
    ensures { IfSome result (λ path. string_bytes path
        ≡ debug_folder (folders_view folders.entry)) }
{
    match folders.debug_dir {
        Some(folder) => joined(alloc, folder, ""),
        None => path_below(alloc, folders, "/usr/lib/debug"),
    }
}

/// Returns the path of the debug file with the name `link`, as the file's own link has it, in a
/// folder where it may be of the file in this folder (gdb's manual, "Separate Debug Files"). `None`
/// where memory is refused.
pub fn linked_path(
    alloc: Global,
    folders: Folders,
    place: LinkFolder,
    folder: &str,
    link: &str,
) -> Option<String>
    ensures { IfSome result (λ path. string_bytes path
        ≡ linked_path (folders_view folders.entry) place folder.now link.now) }
{
    match place {
        LinkFolder::Beside => path_in_root(alloc, folders, folder, "/", link),
        LinkFolder::Below => path_in_root(alloc, folders, folder, "/.debug/", link),
        LinkFolder::Central => central_path(alloc, folders, folder, link),
    }
}

/// Returns the path of the debug file in the folder of the file, or below that. `None` where memory
/// is refused.
fn path_in_root(
    alloc: Global,
    folders: Folders,
    folder: &str,
    below: &str,
    link: &str,
) -> Option<String>
    ensures { IfSome result (λ path. string_bytes path
        ≡ path_below (folders_view folders.entry).symfs (folder.now ++ below.now ++ link.now)) }
{
    let path = path_of_three(alloc, folder, below, link)?;
    path_below(alloc, folders, path.as_str())
}

/// Returns the path of the debug file in the folder of debug files. `None` where memory is refused.
fn central_path(alloc: Global, folders: Folders, folder: &str, link: &str) -> Option<String>
    ensures { IfSome result (λ path. string_bytes path
        ≡ debug_folder (folders_view folders.entry) ++ folder.now ++ codes "/" ++ link.now) }
{
    let root = debug_folder(alloc, folders)?;
    let folder = joined(alloc, root.as_str(), folder)?;
    path_of_three(alloc, folder.as_str(), "/", link)
}

/// Returns three texts, one behind the other. `None` where memory is refused.
fn path_of_three(alloc: Global, first: &str, second: &str, third: &str) -> Option<String>
    ensures { IfSome result (λ text. string_bytes text ≡ first.now ++ second.now ++ third.now) }
{
    let front = joined(alloc, first, second)?;
    joined(alloc, front.as_str(), third)
}

/// Returns the path of the folder of a file: what is before the last slash of its path; nothing
/// where there is no slash. Does not allocate.
pub fn folder_of(path: &[u8]) -> &[u8]
    ensures { result.now ≡ folder_of path.now }
{
    match path.iter().rposition(|byte| *byte == b'/') {
        Some(length) => &path[..length],
        None => &[],
    }
}

/// Returns the path of a file by the identification of a build: its first byte names a folder, and
/// the others a file there. `None` where it is empty, or memory is refused.
fn build_path(alloc: Global, folder: &str, build: &[u8], end: &str) -> Option<String>
    ensures { IfSome result (λ path. string_bytes path
        ≡ build_path folder.now build.now end.now) }
{
    if build.is_empty() {
        return None;
    }
    let (first, others) = build.split_at(1);
    let first = hex::encode(alloc, first).ok()?;
    let others = hex::encode(alloc, others).ok()?;
    format!(in alloc; "{folder}/.build-id/{first}/{others}{end}").ok()
}

/// Returns one text behind the other. `None` where memory is refused.
fn joined(alloc: Global, first: &str, second: &str) -> Option<String>
    ensures { IfSome result (λ text. string_bytes text ≡ first.now ++ second.now) }
{
    format!(in alloc; "{first}{second}").ok()
}
