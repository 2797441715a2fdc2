//! Inputs that are read to their end.
ghost use Rattle.std.specs.Prelude.{◌≡◌, [], IfErr, IfOk, IfSome, OnOk};
ghost use Rattle.cfi_text.specs.Readings.{AreLeft, IsAppended, IsReadRefused};

use std::alloc::Global;
use std::io::Read;

/// Why there are no bytes.
#[derive(Clone, Copy)]
pub enum InputError {
    /// A read failed.
    Unreadable,
    /// The text is not hexadecimal.
    NotHexadecimal,
    /// An allocation failed.
    OutOfMemory,
}

/// How many bytes a read asks for.
const CHUNK: usize = 16384;

/// How many bytes there is room for before the first read. A system gives memory as it is used.
const ROOM: usize = 1 << 20;

/// Reads the input to its end. Fails with `Unreadable` where a read fails, an interrupted one too,
/// and with `OutOfMemory`. Allocates for the bytes.
pub fn read_all<R: Read>(alloc: Global, input: &mut R) -> Result<Vec<u8>, InputError>
    ensures all { IfOk result (λ bytes. AreLeft (R.remaining input.old) bytes.items) }
    ensures refused { IfErr result IsReadRefused }
{
    let mut bytes = room(alloc);
    for _ in 0..u64::MAX {
        if !read_more(input, &mut bytes)? {
            return Ok(bytes);
        }
    }
    Err(InputError::Unreadable)
}

/// Reads some more bytes of the input, appends them, and returns whether there were any. Fails as
/// `read_all`. Allocates for the bytes.
pub fn read_more<R: Read>(input: &mut R, bytes: &mut Vec<u8>) -> Result<bool, InputError>
    ensures read { IfOk result (IsAppended (R.remaining input.old) (R.remaining input.new)
        bytes.old.items bytes.new.items) }
    ensures refused { IfErr result IsReadRefused }
{
    let mut chunk = [0u8; CHUNK];
    match input.read(&mut chunk) {
        Ok(n) => match bytes.extend_from_slice(&chunk[..n]) {
            Ok(()) => Ok(n > 0),
            Err(_) => Err(InputError::OutOfMemory),
        },
        Err(_) => Err(InputError::Unreadable),
    }
}

/// Returns an empty vector, with room for the input of a small file where there is memory for it.
pub fn room(alloc: Global) -> Vec<u8>
    ensures { result.items ≡ [] }
{
    match Vec::with_capacity(alloc, ROOM) {
        Ok(bytes) => bytes,
        Err(_) => Vec::new(alloc),
    }
}
