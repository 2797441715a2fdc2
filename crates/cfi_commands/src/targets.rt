//! Which files a check is of: those that are named, and those in folders.
ghost use Rattle.std.specs.Prelude.{◌≡◌, ◌==◌, ◌++◌, [], ◌∷◌, IfOk, IfSome, OnOk, map};
ghost use Rattle.std.specs.Prelude.{string_bytes};
ghost use Rattle.std.specs.List.{slice_split};
ghost use Rattle.cfi_commands.specs.Disks.{disk_of};
ghost use Rattle.cfi_commands.specs.Targets.{Adds, AreIn, AreListedFiles, AreNamedFiles};
ghost use Rattle.cfi_commands.specs.Targets.{AreNamesInOrder, AreOfEntry, AreTargets, IsAtPath};
ghost use Rattle.cfi_commands.specs.Targets.{IsEntry, IsListEntry, IsListRead, IsNamedEntry};
ghost use Rattle.cfi_commands.specs.Targets.{depth_of_paths};
ghost use Rattle.cfi_commands.specs.Targets.{found_entry, is_above, named_entry, names_listed};
ghost use Rattle.cfi_commands.specs.Targets.{names_view, of_list, rest_of, target_view};
ghost use Rattle.cfi_commands.specs.Targets.{tree_entry_view};
ghost use Rattle.cfi_commands.specs.Trees.{path_in, tree_of};

use crate::files::open_named;
use crate::system::{Kind, System};
use crate::words::FileArguments;
use cfi_text::reading::{InputError, read_all};
use std::alloc::{AllocError, Global};
use std::str;

/// How many folders lie one in another at most: with more, their path has more than 4,096 bytes,
/// which Linux opens nothing by (`PATH_MAX`).
const DEPTH: usize = 2048;

/// A file that a check is of.
#[derive(Drop)]
pub enum Target {
    /// It was named.
    Named(String),
    /// It was found in a folder.
    Found(String),
    /// A name by which nothing can be opened, or a folder that can't be read.
    Unread,
}

/// What a name comes to.
#[derive(Drop)]
pub enum TreeEntry {
    /// This file.
    One(Target),
    /// The files in this folder.
    Folder(String),
    /// No file.
    PassedOver,
}

/// Returns the files that a check is of. `None` where they are named by a list that can't be read,
/// which is said on standard error. Fails where memory is refused. Allocates for the list, for the
/// paths of the files, and for the names in the folders on the way.
pub fn targets_of<S: System>(
    system: &S,
    recursive: bool,
    names: FileArguments,
) -> Result<Option<Vec<Target>>, AllocError>
    ensures { IfOk result (λ found. IfSome found (λ targets. AreTargets
        (disk_of (S.may_open system.now) S.File.bytes)
        (tree_of (S.may_be system.now) (S.may_list system.now)) recursive
        (names_view names.entry) (map target_view targets.items))) }
{
    match names {
        FileArguments::Files(files) => {
            let targets = files_of(system, recursive, files)?;
            Ok(Some(targets))
        }
        FileArguments::List(list) => files_listed(system, recursive, list),
    }
}

/// Returns the files that a check of those is of that the list at a path names. `None` where it
/// can't be read, which is said on standard error. Fails where memory is refused.
fn files_listed<S: System>(
    system: &S,
    recursive: bool,
    list: &str,
) -> Result<Option<Vec<Target>>, AllocError>
    ensures { IfOk result (λ found. IfSome found (λ targets. AreTargets
        (disk_of (S.may_open system.now) S.File.bytes)
        (tree_of (S.may_be system.now) (S.may_list system.now)) recursive
        (of_list list.now) (map target_view targets.items))) }
{
    match read_list(system, list)? {
        Some(text) => {
            let targets = files_in(system, recursive, list, text.as_slice())?;
            Ok(Some(targets))
        }
        None => Ok(None),
    }
}

/// Reads the list at a path. Where it can't be opened or read, the reason is said on standard
/// error, and there is none. Fails where memory is refused.
fn read_list<S: System>(system: &S, list: &str) -> Result<Option<Vec<u8>>, AllocError>
    ensures { IfOk result (λ read. IfSome read (λ text. IsListRead
        (disk_of (S.may_open system.now) S.File.bytes) list.now text.items)) }
{
    match open_named(system, list) {
        Some(mut input) => match read_all(system.alloc(), &mut input) {
            Ok(text) => Ok(Some(text)),
            Err(InputError::OutOfMemory) => Err(AllocError),
            Err(_) => {
                system.warn_unread(list);
                Ok(None)
            }
        },
        None => Ok(None),
    }
}

/// Returns the files that a check of these names is of; if `recursive`, in the place of a folder
/// those in it.
fn files_of<S: System>(
    system: &S,
    recursive: bool,
    names: &[&str],
) -> Result<Vec<Target>, AllocError>
    ensures { IfOk result (λ targets. Adds
        (AreNamedFiles (tree_of (S.may_be system.now) (S.may_list system.now)) recursive
        (map (λ name. name.now) names.now)) [] targets.items) }
{
    let mut targets = Vec::new(system.alloc());
    for name in names {
        let entry = entry_named(system, recursive, name)?;
        push_entry(system, DEPTH, entry, &mut targets)?;
    }
    Ok(targets)
}

/// Returns the files that a check of the names of a list is of, each of which is ended by a zero
/// byte, as `files_of`. A name by which nothing can be opened is said on standard error.
fn files_in<S: System>(
    system: &S,
    recursive: bool,
    list: &str,
    text: &[u8],
) -> Result<Vec<Target>, AllocError>
    ensures { IfOk result (λ targets. Adds
        (AreListedFiles (tree_of (S.may_be system.now) (S.may_list system.now)) recursive text.now)
        [] targets.items) }
{
    let names = names_listed(system.alloc(), text)?;
    let mut targets = Vec::new(system.alloc());
    for name in names.as_slice() {
        let entry = entry_listed(system, recursive, list, name)?;
        push_entry(system, DEPTH, entry, &mut targets)?;
    }
    Ok(targets)
}

/// Returns the names of a list, each of which is ended by a zero byte.
fn names_listed<'l>(alloc: Global, list: &'l [u8]) -> Result<Vec<&'l [u8]>, AllocError>
    ensures { IfOk result (λ names. map (λ name. name.now) names.items ≡ names_listed list.now) }
{
    let mut names = pieces_of(alloc, list)?;
    match names.pop() {
        Some(rest) => with_rest(names, rest),
        None => Ok(names),
    }
}

/// Appends what is behind the last zero byte, unless it is empty.
fn with_rest<'l>(mut names: Vec<&'l [u8]>, rest: &'l [u8]) -> Result<Vec<&'l [u8]>, AllocError>
    ensures { IfOk result (λ all. map (λ name. name.now) all.items
        ≡ map (λ name. name.now) names.entry.items ++ rest_of rest.entry.now) }
{
    if !rest.is_empty() {
        names.push(rest)?;
    }
    Ok(names)
}

/// Returns what is between the zero bytes of a list, before the first and behind the last.
fn pieces_of<'l>(alloc: Global, list: &'l [u8]) -> Result<Vec<&'l [u8]>, AllocError>
    ensures { IfOk result (λ pieces. map (λ piece. piece.now) pieces.items
        ≡ slice_split (λ c. c == 0) list.now) }
{
    list.split(|byte| *byte == 0).collect(alloc)
}

/// Returns what a name of a list comes to.
fn entry_listed<S: System>(
    system: &S,
    recursive: bool,
    list: &str,
    name: &[u8],
) -> Result<TreeEntry, AllocError>
    ensures { IfOk result (λ entry.
        IsListEntry (tree_of (S.may_be system.now) (S.may_list system.now)) recursive name.now
        (tree_entry_view entry)) }
{
    if name.is_empty() {
        system.warn_empty_name(list);
        return Ok(TreeEntry::One(Target::Unread));
    }
    match str::from_utf8(name) {
        Ok(name) => entry_named(system, recursive, name),
        Err(_) => {
            system.warn_no_text(name);
            Ok(TreeEntry::One(Target::Unread))
        }
    }
}

/// Returns what a name comes to: a folder, if `recursive` and it is one, and else a file.
fn entry_named<S: System>(system: &S, recursive: bool, name: &str) -> Result<TreeEntry, AllocError>
    ensures { IfOk result (λ entry.
        IsNamedEntry (tree_of (S.may_be system.now) (S.may_list system.now)) recursive name.now
        (tree_entry_view entry)) }
{
    let text = String::from_str(system.alloc(), name)?;
    if !recursive || name == "-" {
        return Ok(TreeEntry::One(Target::Named(text)));
    }
    Ok(match system.kind(name, true) {
        Kind::Folder => TreeEntry::Folder(text),
        _ => TreeEntry::One(Target::Named(text)),
    })
}

/// Appends the files of an entry, where so many folders may lie one in another.
#[cycle(walk)]
fn push_entry<S: System>(
    system: &S,
    depth: usize,
    entry: TreeEntry,
    targets: &mut Vec<Target>,
) -> Result<(), AllocError>
    ensures { OnOk result (Adds
        (AreOfEntry (AreIn (tree_of (S.may_be system.now) (S.may_list system.now)) depth)
        (tree_entry_view entry)) targets.old.items targets.new.items) }
{
    match entry {
        TreeEntry::One(target) => push(targets, target),
        TreeEntry::Folder(path) => push_folder(system, depth, path.as_str(), targets),
        TreeEntry::PassedOver => Ok(()),
    }
}

/// Appends the files in a folder, in the order of their names, and where a folder is among them
/// those in that. A folder that can't be read is
/// said on standard error. Links aren't followed.
#[cycle(walk)]
fn push_folder<S: System>(
    system: &S,
    depth: usize,
    folder: &str,
    targets: &mut Vec<Target>,
) -> Result<(), AllocError>
    ensures { OnOk result (Adds
        (AreIn (tree_of (S.may_be system.now) (S.may_list system.now)) depth folder.now)
        targets.old.items targets.new.items) }
{
    if depth == 0 {
        let path = String::from_str(system.alloc(), folder)?;
        return push(targets, Target::Found(path));
    }
    let Some(list) = system.list(folder) else {
        return push(targets, Target::Unread);
    };
    let names = names_in_order(system.alloc(), list.as_slice())?;
    for name in names.as_slice() {
        let entry = entry_in(system, folder, name)?;
        push_entry(system, depth - 1, entry, targets)?;
    }
    Ok(())
}

/// Appends a file.
fn push(targets: &mut Vec<Target>, target: Target) -> Result<(), AllocError>
    ensures { OnOk result (targets.new.items ≡ targets.old.items ++ target ∷ []) }
{
    targets.push(target)?;
    Ok(())
}

/// Returns the names of a list in the order of their bytes.
fn names_in_order<'l>(alloc: Global, list: &'l [u8]) -> Result<Vec<&'l [u8]>, AllocError>
    ensures { IfOk result (λ names.
        AreNamesInOrder (names_listed list.now) (map (λ name. name.now) names.items)) }
{
    let mut names = names_listed(alloc, list)?;
    names.sort_by_key(|name| *name)?;
    Ok(names)
}

/// Returns what a name in a folder comes to. One that isn't UTF-8 is said on
/// standard error.
fn entry_in<S: System>(system: &S, folder: &str, name: &[u8]) -> Result<TreeEntry, AllocError>
    ensures { IfOk result (λ entry.
        IsEntry (tree_of (S.may_be system.now) (S.may_list system.now)) folder.now name.now
        (tree_entry_view entry)) }
{
    if is_above(name) {
        return Ok(TreeEntry::PassedOver);
    }
    let path = path_in(system.alloc(), folder, name)?;
    entry_at(system, path.as_slice())
}

/// Returns whether a name in a folder is that of the folder or of its parent.
fn is_above(name: &[u8]) -> bool
    ensures { result ≡ is_above name.now }
{
    name == b".".as_slice() || name == b"..".as_slice()
}

/// Returns the path of a name in a folder.
pub fn path_in(alloc: Global, folder: &str, name: &[u8]) -> Result<Vec<u8>, AllocError>
    ensures { IfOk result (λ path. path.items ≡ path_in folder.now name.now) }
{
    let mut path = folder.as_bytes().to_vec(alloc)?;
    if !folder.as_bytes().ends_with(b"/") {
        path.extend_from_slice(b"/")?;
    }
    path.extend_from_slice(name)?;
    Ok(path)
}

/// Returns what is at a path in a folder.
fn entry_at<S: System>(system: &S, path: &[u8]) -> Result<TreeEntry, AllocError>
    ensures { IfOk result (λ entry.
        IsAtPath (tree_of (S.may_be system.now) (S.may_list system.now)) path.now
        (tree_entry_view entry)) }
{
    match str::from_utf8(path) {
        Ok(path) => {
            let text = String::from_str(system.alloc(), path)?;
            Ok(found_entry(system.kind(path, false), text))
        }
        Err(_) => {
            system.warn_no_text(path);
            Ok(TreeEntry::One(Target::Unread))
        }
    }
}

/// Returns what a path in a folder comes to, where this is at it.
fn found_entry(kind: Kind, path: String) -> TreeEntry
    ensures { tree_entry_view result ≡ found_entry kind (string_bytes path) }
{
    match kind {
        Kind::File => TreeEntry::One(Target::Found(path)),
        Kind::Folder => TreeEntry::Folder(path),
        Kind::Other => TreeEntry::PassedOver,
    }
}
