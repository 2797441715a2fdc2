//! A relocatable file, relocated in a copy of its bytes.
ghost use Rattle.std.specs.Prelude.{◌≡◌, IfErr, IfOk};
ghost use Rattle.cfi_elf.specs.ElfFiles.{object_file};
ghost use Rattle.cfi_elf.specs.RelocatedFiles.{relocated_file};
ghost use Rattle.cfi_files.specs.Listings.{IsElfOr};

use crate::error::FileError;
use cfi_elf::ElfFile;
use cfi_object::{FileInput, read_whole};
use std::alloc::Global;

/// Reads all bytes of a relocatable file, and returns them relocated. The address of a section is
/// then its offset in the file.
///
/// Fails with `Input` where they can't be read, where a read fails or memory is refused, and as
/// `relocate`. Allocates for the bytes and for a copy.
pub(crate) fn read_relocated<I: FileInput>(
    alloc: Global,
    input: &mut I,
) -> Result<Vec<u8>, FileError> {
    let bytes = read_whole(alloc, input)?;
    relocate(alloc, bytes.as_slice())
}

/// Returns the bytes of a relocatable file, relocated. Fails with the error of the file or of a
/// relocation, and where memory is refused. Allocates for the copy.
#[tactic(auto, unfolding(cfi_elf::specs::RelocatedFiles::relocated_file))]
fn relocate(alloc: Global, bytes: &[u8]) -> Result<Vec<u8>, FileError>
    ensures relocated { IfOk result (λ copy. object_file copy.items ≡ relocated_file bytes.now) }
    ensures refused { IfErr result (IsElfOr (relocated_file bytes.now)) }
{
    let file = ElfFile::parse_relocatable(bytes)?;
    let mut copy = bytes.to_vec(alloc)?;
    file.relocate(copy.as_mut_slice())?;
    Ok(copy)
}
