//! An open file of a runtime, which is read by parts.
ghost use Rattle.std.specs.Prelude.{◌≡◌, None, IfErr, IfOk, length};
ghost use Rattle.cfi_text.specs.Readings.{IsReadRefused};

use cfi_object::FileInput;
use cfi_object::input::copy_part;
use cfi_text::beginnings::read_elf_or_profile;
use cfi_text::reading::InputError;
use std::alloc::Global;
use std::io;
use std::io::{Read, Seek, SeekFrom};

/// An open file of a runtime. std says nothing of what is in it.
#[derive(Drop)]
pub struct HostFile<F> {
    file: F,
    /// All bytes, where it can't be read by parts, as a pipe.
    bytes: Option<Vec<u8>>,
}

impl<F> HostFile<F> {
    /// Returns a file that was opened, of which nothing is read yet.
    pub fn new(file: F) -> HostFile<F> {
        HostFile { file, bytes: None }
    }
}

impl<F: Read> Read for HostFile<F> {
    fn read(&mut self, buf: &mut [u8]) -> io::Result<usize> {
        self.file.read(buf)
    }
}

impl<F: Read + Seek> FileInput for HostFile<F> {
    ghost bytes = { λ _. None };

    fn length(&mut self, alloc: Global) -> Result<u64, InputError> {
        if let Some(bytes) = &self.bytes {
            return Ok(bytes.len() as u64);
        }
        match self.file.seek(SeekFrom::End(0)) {
            // Some files that the system makes up tell more than they have, as 4,096: then a part
            // is too short, and can't be read.
            Ok(length) if length > 0 => Ok(length),
            // A pipe has no end to seek, and other files that the system makes up tell 0.
            _ => self.read_whole(alloc),
        }
    }

    fn read_part(&mut self, alloc: Global, offset: u64, size: u64) -> Result<Vec<u8>, InputError> {
        match &self.bytes {
            Some(bytes) => copy_part(alloc, bytes.as_slice(), offset, size),
            None => read_at(alloc, &mut self.file, offset, size),
        }
    }
}

impl<F: Read> HostFile<F> {
    /// Reads the file to its end, and returns how many bytes it has; of one that begins neither as
    /// an ELF file nor as a profile, which may have no end, as `/dev/zero`, the first bytes alone.
    fn read_whole(&mut self, alloc: Global) -> Result<u64, InputError>
        ensures { IfErr result IsReadRefused }
    {
        let bytes = read_elf_or_profile(alloc, &mut self.file)?;
        let length = bytes.len() as u64;
        self.bytes = Some(bytes);
        Ok(length)
    }
}

/// Reads `size` bytes from the offset on.
fn read_at<F: Read + Seek>(
    alloc: Global,
    file: &mut F,
    offset: u64,
    size: u64,
) -> Result<Vec<u8>, InputError>
    ensures read { IfOk result (λ part. length part.items ≡ size) }
    ensures refused { IfErr result IsReadRefused }
{
    let mut part = zeros(alloc, size)?;
    if file.seek(SeekFrom::Start(offset)).is_err() {
        return Err(InputError::Unreadable);
    }
    match file.read_exact(part.as_mut_slice()) {
        Ok(()) => Ok(part),
        Err(_) => Err(InputError::Unreadable),
    }
}

/// Returns so many zeros.
fn zeros(alloc: Global, size: u64) -> Result<Vec<u8>, InputError>
    ensures zeros { IfOk result (λ zeros. length zeros.items ≡ size) }
    ensures refused { IfErr result IsReadRefused }
{
    match vec![in alloc; 0u8; size as usize] {
        Ok(zeros) => Ok(zeros),
        Err(_) => Err(InputError::OutOfMemory),
    }
}
