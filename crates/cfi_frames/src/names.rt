//! Names that are printed, and of which some are known to be plain.
ghost use Rattle.std.specs.Prelude.{◌≡◌, option_map};
ghost use Rattle.cfi_mapped.specs.ThreadNames.{name_bytes};

use cfi_mapped::Name;

/// The name of the process, if it is known, to be printed.
pub fn shown_name(name: Option<&[u8]>) -> Option<Name<'_>>
    ensures { name_bytes result ≡ option_map (λ name. name.now) name.entry }
{
    match name {
        Some(name) => Some(Name::new(name)),
        None => None,
    }
}
