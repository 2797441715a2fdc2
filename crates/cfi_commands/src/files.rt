//! The file that a command names, and where it is.
ghost use Rattle.std.specs.Prelude.{◌≡◌};
ghost use Rattle.cfi_commands.specs.Disks.{of_any_kind, path_of};

use crate::system::System;

/// Opens the file that a command names, `-` for standard input. Where it can't be opened, the
/// reason is printed on standard error, and there is none.
pub fn open_named<S: System>(system: &S, name: &str) -> Option<S::File>
    ensures { S.may_open system.now of_any_kind (path_of name.now) result }
{
    system.open(path_of(name))
}

/// Returns the path of a file that a command names: for `-` that of standard input.
pub fn path_of(name: &str) -> &str
    ensures { result.now ≡ path_of name.now }
{
    if name == "-" { "/dev/stdin" } else { name }
}
