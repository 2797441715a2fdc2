//! The parts of a file that were read so far, and the reading of another one.
ghost use Rattle.std.specs.Prelude.{◌≡◌};
ghost use Rattle.cfi_elf.specs.Images.{part_view, parts_view};
ghost use Rattle.cfi_object.specs.FileParts.{are_apart, is_apart};

use crate::input::{FileInput, read_whole};
use cfi_elf::{FilePart, Image};
use cfi_text::reading::InputError;
use std::alloc::Global;

/// The parts of a file that were read: its first bytes, and others.
#[derive(Drop)]
pub struct FileParts {
    length: u64,
    first: Vec<u8>,
    parts: Vec<FilePart>,
}

impl FileParts {
    ghost use Rattle.std.specs.Prelude.{◌≡◌, IfOk, length, true};
    ghost use Rattle.cfi_elf.specs.Images.{image_view, whole};
    ghost use Rattle.cfi_object.specs.FileParts.{AreOfInput, IsAllOf, IsBeginning, IsLongerTo};
    ghost use Rattle.cfi_object.specs.FileParts.{IsWithFree, IsWithMore, IsWithPart, image_of};
    ghost use Rattle.cfi_object.specs.FileParts.{is_free};

    /// Returns all bytes of a file as its only part. Does not allocate.
    pub fn whole(alloc: Global, bytes: Vec<u8>) -> FileParts
        ensures { image_of result ≡ whole bytes.items }
    {
        FileParts {
            length: bytes.len() as u64,
            first: bytes,
            parts: Vec::new(alloc),
        }
    }

    /// Reads a file as its only part. Fails as `read_whole`. Allocates for the bytes.
    pub fn read_whole<I: FileInput>(alloc: Global, input: &mut I) -> Result<FileParts, InputError>
        ensures read { IfOk result (λ parts. IsAllOf (I.bytes input.old) (image_of parts)) }
        ensures same { I.bytes input.new ≡ I.bytes input.old }
    {
        let bytes = read_whole(alloc, input)?;
        Ok(Self::whole(alloc, bytes))
    }

    /// Reads the first `size` bytes of a file, or all where it has fewer. Fails with `Unreadable`
    /// where its length can't be told or the read fails, and with `OutOfMemory`. Allocates for the
    /// bytes.
    pub fn begin<I: FileInput>(
        alloc: Global,
        size: u64,
        input: &mut I,
    ) -> Result<FileParts, InputError>
        ensures read { IfOk result (λ parts. AreOfInput (I.bytes input.old) (image_of parts)) }
        ensures first { IfOk result (λ parts. IsBeginning size (image_of parts)) }
        ensures same { I.bytes input.new ≡ I.bytes input.old }
    {
        let length = input.length(alloc)?;
        let first = input.read_part(alloc, 0, length.min(size))?;
        Ok(FileParts {
            length,
            first,
            parts: Vec::new(alloc),
        })
    }

    /// Returns the file, as far as it was read. Does not allocate.
    pub fn image(&self) -> Image<'_>
        ensures { image_view result ≡ image_of self.now }
    {
        Image {
            length: self.length,
            first: self.first.as_slice(),
            parts: self.parts.as_slice(),
        }
    }

    /// Returns whether the bytes between two offsets are in the file, and none of them was read.
    fn is_free(&self, start: u64, end: u64) -> bool
        ensures { result ≡ is_free (image_of self.now) start end }
    {
        start <= end
            && end <= self.length
            && self.first.len() as u64 <= start
            && are_apart(self.parts.as_slice(), start, end)
    }

    /// Reads the `size` bytes from the offset on too, or the whole file where some of them were
    /// read. What begins within the first bytes, or where they end, makes them longer. Fails with
    /// `Unreadable` where a read fails, and with `OutOfMemory`. Allocates for the bytes.
    pub(crate) fn with_part<I: FileInput>(
        self,
        alloc: Global,
        offset: u64,
        size: u64,
        input: &mut I,
    ) -> Result<FileParts, InputError>
        requires { AreOfInput (I.bytes input.old) (image_of self) }
        ensures read { IfOk result (λ parts. AreOfInput (I.bytes input.old) (image_of parts)) }
        ensures part { IfOk result (λ parts. IsWithPart offset size (image_of self)
            (image_of parts)) }
        ensures same { I.bytes input.new ≡ I.bytes input.old }
    {
        let reached = self.first.len() as u64;
        let end = offset.saturating_add(size);
        if offset <= reached && self.is_free(reached, end) {
            self.with_longer(alloc, end, input)
        } else if self.is_free(offset, end) {
            self.with_more(alloc, offset, end, input)
        } else {
            drop(self);
            Self::read_whole(alloc, input)
        }
    }

    /// Reads the bytes between two offsets too, if they are in the file and none of them was read.
    /// Fails with `Unreadable` where the read fails, and with `OutOfMemory`. Allocates for the
    /// bytes.
    pub fn with_free<I: FileInput>(
        self,
        alloc: Global,
        start: u64,
        end: u64,
        input: &mut I,
    ) -> Result<FileParts, InputError>
        requires { AreOfInput (I.bytes input.old) (image_of self) }
        ensures read { IfOk result (λ parts. AreOfInput (I.bytes input.old) (image_of parts)) }
        ensures part { IfOk result (λ parts. IsWithFree start end (image_of self)
            (image_of parts)) }
        ensures same { I.bytes input.new ≡ I.bytes input.old }
    {
        if self.is_free(start, end) {
            self.with_more(alloc, start, end, input)
        } else {
            Ok(self)
        }
    }

    /// Reads from the end of the first bytes up to this one.
    fn with_longer<I: FileInput>(
        self,
        alloc: Global,
        end: u64,
        input: &mut I,
    ) -> Result<FileParts, InputError>
        requires read { AreOfInput (I.bytes input.old) (image_of self) }
        requires free { is_free (image_of self) (length (image_of self).first) end ≡ true }
        ensures read { IfOk result (λ parts. AreOfInput (I.bytes input.old) (image_of parts)) }
        ensures longer { IfOk result (λ parts. IsLongerTo end (image_of self) (image_of parts)) }
        ensures same { I.bytes input.new ≡ I.bytes input.old }
    {
        let mut parts = self;
        let start = parts.first.len() as u64;
        let bytes = input.read_part(alloc, start, end - start)?;
        match parts.first.extend_from_slice(bytes.as_slice()) {
            Ok(()) => Ok(parts),
            Err(_) => Err(InputError::OutOfMemory),
        }
    }

    /// Reads the bytes between two offsets.
    fn with_more<I: FileInput>(
        self,
        alloc: Global,
        offset: u64,
        end: u64,
        input: &mut I,
    ) -> Result<FileParts, InputError>
        requires read { AreOfInput (I.bytes input.old) (image_of self) }
        requires free { is_free (image_of self) offset end ≡ true }
        ensures read { IfOk result (λ parts. AreOfInput (I.bytes input.old) (image_of parts)) }
        ensures more { IfOk result (λ parts. IsWithMore offset end (image_of self)
            (image_of parts)) }
        ensures same { I.bytes input.new ≡ I.bytes input.old }
    {
        let mut parts = self;
        let bytes = input.read_part(alloc, offset, end - offset)?;
        match parts.parts.push(FilePart { offset, bytes }) {
            Ok(()) => Ok(parts),
            Err(_) => Err(InputError::OutOfMemory),
        }
    }
}

/// Returns whether none of the parts has a byte between two offsets.
fn are_apart(parts: &[FilePart], start: u64, end: u64) -> bool
    ensures { result ≡ are_apart start end (parts_view parts.now) }
{
    for part in parts {
        if !is_apart(part, start, end) {
            return false;
        }
    }
    true
}

/// Returns whether the part has no byte between two offsets.
fn is_apart(part: &FilePart, start: u64, end: u64) -> bool
    ensures { result ≡ is_apart start end (part_view part.now) }
{
    let size = part.bytes.len() as u64;
    end <= part.offset || (size <= start && part.offset <= start - size)
}
