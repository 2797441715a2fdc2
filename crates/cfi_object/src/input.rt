//! Files whose bytes are read where they are needed.
ghost use Rattle.std.specs.Prelude.{◌≡◌, ℕ, List, Option, IfErr, IfOk, Some};
ghost use Rattle.cfi_object.specs.FileInputs.{IsLength, IsLengthRefused, IsPartRead};
ghost use Rattle.cfi_text.specs.Readings.{AreLeft};
ghost use Rattle.cfi_object.specs.FileInputs.{IsPartRefused};

use cfi_text::reading::InputError;
use std::alloc::Global;

/// A file whose bytes are read where they are needed. Its length is asked first: a file that can't
/// be read by parts, as a pipe, is read for it.
pub trait FileInput {
    /// All bytes of the file, where they are known.
    ghost bytes: { Self → Option (List ℕ) };

    /// Returns how many bytes the file has.
    ///
    /// Fails with `Unreadable` where that can't be told, and with `OutOfMemory`. May allocate where
    /// the file has to be read for it.
    fn length(&mut self, alloc: Global) -> Result<u64, InputError>
        ensures length { IfOk result (IsLength (bytes self.old)) }
        ensures refused { IfErr result (IsLengthRefused (bytes self.old)) }
        ensures same { bytes self.new ≡ bytes self.old };

    /// Reads `size` bytes from the offset on.
    ///
    /// Fails with `Unreadable` where a read fails or the file has fewer bytes, and with
    /// `OutOfMemory`. Allocates for the bytes.
    fn read_part(&mut self, alloc: Global, offset: u64, size: u64) -> Result<Vec<u8>, InputError>
        ensures read { IfOk result (λ part. IsPartRead (bytes self.old) offset size part.items) }
        ensures refused { IfErr result (IsPartRefused (bytes self.old) offset size) }
        ensures same { bytes self.new ≡ bytes self.old };
}

/// A file in memory.
impl FileInput for &[u8] {
    ghost bytes = { λ file. Some file.now };

    fn length(&mut self, _alloc: Global) -> Result<u64, InputError> {
        Ok(self.len() as u64)
    }

    fn read_part(&mut self, alloc: Global, offset: u64, size: u64) -> Result<Vec<u8>, InputError> {
        copy_part(alloc, self, offset, size)
    }
}

/// Returns a copy of the `size` bytes from the offset on. Fails with `Unreadable` where there are
/// fewer, and with `OutOfMemory`.
pub fn copy_part(alloc: Global, bytes: &[u8], offset: u64, size: u64) -> Result<Vec<u8>, InputError>
    ensures read { IfOk result (λ part. IsPartRead (Some bytes.now) offset size part.items) }
    ensures refused { IfErr result (IsPartRefused (Some bytes.now) offset size) }
{
    match offset.checked_add(size) {
        Some(end) if end <= bytes.len() as u64 => {
            copy_of(alloc, &bytes[offset as usize..end as usize])
        }
        _ => Err(InputError::Unreadable),
    }
}

/// Returns a copy of the bytes.
fn copy_of(alloc: Global, bytes: &[u8]) -> Result<Vec<u8>, InputError>
    ensures copied { IfOk result (λ copy. copy.items ≡ bytes.now) }
    ensures refused { IfErr result (λ e. e ≡ InputError.OutOfMemory) }
{
    match bytes.to_vec(alloc) {
        Ok(copy) => Ok(copy),
        Err(_) => Err(InputError::OutOfMemory),
    }
}

/// Reads all bytes of a file.
///
/// Fails with `Unreadable` where its length can't be told or the read fails, and with
/// `OutOfMemory`. Allocates for the bytes.
pub fn read_whole<I: FileInput>(alloc: Global, input: &mut I) -> Result<Vec<u8>, InputError>
    ensures read { IfOk result (λ bytes. AreLeft (I.bytes input.old) bytes.items) }
    ensures same { I.bytes input.new ≡ I.bytes input.old }
{
    let length = input.length(alloc)?;
    input.read_part(alloc, 0, length)
}
