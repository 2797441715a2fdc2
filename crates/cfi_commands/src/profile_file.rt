//! The file of a profile.
ghost use Rattle.std.specs.Prelude.{IfOk};
ghost use Rattle.cfi_commands.specs.declared.system.Kind.TheVariants.{Folder};
ghost use Rattle.cfi_commands.specs.Disks.{disk_of};
ghost use Rattle.cfi_commands.specs.NamedFiles.{MayOpenIn, MayOpenProfile};
ghost use Rattle.cfi_commands.specs.Trees.{tree_of};

use crate::files::path_of;
use crate::system::{Kind, System};
use crate::targets::path_in;
use std::alloc::AllocError;
use std::str;

/// The file with the header, in the folder of a profile.
const DATA: &[u8] = b"data";

/// Opens the profile that a command names, `-` for standard input: of a folder, as
/// `perf record --kcore` writes, the file `data` in it. Where it can't be opened, the reason is
/// printed on standard error, and there is none. Fails where memory for a path is refused.
pub fn open_profile<S: System>(system: &S, name: &str) -> Result<Option<S::File>, AllocError>
    ensures { IfOk result (MayOpenProfile (disk_of (S.may_open system.now) S.File.bytes)
        (tree_of (S.may_be system.now) (S.may_list system.now)) name.now) }
{
    let path = path_of(name);
    match system.kind(path, true) {
        Kind::Folder => open_in(system, path),
        Kind::File => Ok(system.open(path)),
        Kind::Other => Ok(system.open(path)),
    }
}

/// Opens the file `data` in a folder.
fn open_in<S: System>(system: &S, folder: &str) -> Result<Option<S::File>, AllocError>
    ensures { IfOk result
        (MayOpenIn (disk_of (S.may_open system.now) S.File.bytes) Folder folder.now) }
{
    let path = path_in(system.alloc(), folder, DATA)?;
    match str::from_utf8(path.as_slice()) {
        Ok(path) => Ok(system.open(path)),
        // The parts are UTF-8, so the path is.
        Err(_) => Ok(None),
    }
}
