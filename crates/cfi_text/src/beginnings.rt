//! Inputs that are read on only if they begin as a file that is asked about does.
ghost use Rattle.std.specs.Prelude.{◌≡◌, IfErr, IfOk, IfSome};
ghost use Rattle.cfi_text.specs.Readings.{IsReadRefused};
ghost use Rattle.cfi_text.specs.Beginnings.{IsReadAsEither, begins_as_elf};
ghost use Rattle.cfi_text.specs.Beginnings.{begins_as_profile, may_be_either};

use crate::reading::{InputError, read_more, room};
use std::alloc::Global;
use std::io::Read;

/// Reads the input to its end, if it begins as an ELF file or a profile of perf does. If it
/// doesn't, no more is read than the first bytes and what came with them, as of an input that has
/// no end.
///
/// Fails with `Unreadable` where a read fails, an interrupted one too, and with `OutOfMemory`.
/// Allocates for the bytes.
pub fn read_elf_or_profile<R: Read>(alloc: Global, input: &mut R) -> Result<Vec<u8>, InputError>
    ensures read { IfOk result (λ read.
        IfSome (R.remaining input.old) (IsReadAsEither read.items)) }
    ensures refused { IfErr result IsReadRefused }
{
    let mut bytes = room(alloc);
    for _ in 0..u64::MAX {
        if !may_be_either(bytes.as_slice()) {
            return Ok(bytes);
        }
        if !read_more(input, &mut bytes)? {
            return Ok(bytes);
        }
    }
    Err(InputError::Unreadable)
}

/// Whether a file that begins with these bytes can be of either format. Fewer than the first bytes
/// of a format don't tell.
fn may_be_either(bytes: &[u8]) -> bool
    ensures { result ≡ may_be_either bytes.now }
{
    begins_as_elf(bytes) || begins_as_profile(bytes)
}

/// The same of ELF files: 0x7f and `ELF` (`EI_MAG0` to `EI_MAG3`).
fn begins_as_elf(bytes: &[u8]) -> bool
    ensures { result ≡ begins_as_elf bytes.now }
{
    bytes.len() < 4 || bytes.starts_with(b"\x7fELF")
}

/// The same of profiles: `PERFILE2`, or in the other byte order `2ELIFREP`.
fn begins_as_profile(bytes: &[u8]) -> bool
    ensures { result ≡ begins_as_profile bytes.now }
{
    bytes.len() < 8 || bytes.starts_with(b"PERFILE2") || bytes.starts_with(b"2ELIFREP")
}
