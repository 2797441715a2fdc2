//! The files that are wanted of a profile: by their names, builds and processes.
ghost use Rattle.std.specs.Prelude.{◌≡◌, option_map};
ghost use Rattle.cfi_mapped.specs.Wanted.{is_text, same_id, same_process};

use crate::kernel_symbols::is_kernel_name;

/// Where the debug file is looked for to which the link of a file leads (GDB's manual, "Separate
/// Debug Files").
#[derive(Clone, Copy, Debug)]
pub enum LinkFolder {
    /// The folder of the file.
    Beside,
    /// The folder `.debug` in that of the file.
    Below,
    /// The folder that has the path of the file's folder in that of debug files.
    Central,
}

/// A file that a profile's mappings are of, or memory of a process.
#[derive(Clone, Copy, Debug)]
pub struct WantedFile<'run> {
    /// The name, as the mappings have it.
    pub name: &'run [u8],
    /// The identification of its build, if it is known.
    pub build_id: Option<&'run [u8]>,
    /// The process whose memory it is, where it is no file's.
    pub process: Option<u32>,
}

/// Returns whether what is read for this name is a text, and no file of code: the kernel's symbols,
/// or what a process tells of its memory. Does not allocate.
pub fn is_text(name: &[u8], process: Option<u32>) -> bool
    ensures { result ≡ is_text name.now process }
{
    is_kernel_name(name) || process.is_some()
}

/// Returns whether both are the same identification, or both are none. Does not allocate.
pub fn same_id(one: Option<&[u8]>, other: Option<&[u8]>) -> bool
    ensures { result ≡ same_id (option_map (λ id. id.now) one.entry)
        (option_map (λ id. id.now) other.entry) }
{
    match one {
        Some(one) => match other {
            Some(other) => one == other,
            None => false,
        },
        None => other.is_none(),
    }
}

/// Returns whether both are the same process, or both are none. Does not allocate.
pub fn same_process(one: Option<u32>, other: Option<u32>) -> bool
    ensures { result ≡ same_process one other }
{
    match one {
        Some(one) => match other {
            Some(other) => one == other,
            None => false,
        },
        None => other.is_none(),
    }
}
