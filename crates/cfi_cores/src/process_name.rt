//! The name of the process of a core file.
ghost use Rattle.std.specs.Prelude.{◌≡◌, option_map};
ghost use Rattle.cfi_cores.specs.ProcessNames.{process_name};

use cfi_elf::bytes::{before_zero, part};

/// Where the name begins in what a note says of the process (`pr_fname` of `struct elf_prpsinfo`).
const PR_FNAME: u64 = 40;

/// How many bytes it has, with the zeros behind it.
const NAME_SIZE: u64 = 16;

/// The name of the process of which these bytes tell; `None` where they have too few for it.
pub(crate) fn process_name(desc: &[u8]) -> Option<&[u8]>
    ensures { option_map (λ name. name.now) result ≡ process_name desc.now }
{
    let bytes = part(desc, PR_FNAME, NAME_SIZE)?;
    match before_zero(bytes) {
        Some(name) => Some(name),
        None => Some(bytes),
    }
}
