//! Files of which parts were read.
ghost use Rattle.std.specs.Prelude.{◌≡◌, ◌+◌, ◌*◌, nat_le, option_map};
ghost use Rattle.cfi_read_core.specs.ReaderCalls.{map_ok};
ghost use Rattle.cfi_elf.specs.Images.{bytes_at, image_view, in_part, in_parts, image_part};
ghost use Rattle.cfi_elf.specs.Images.{part_view, parts_view, whole};

use crate::bytes::{part, size_of};
use crate::error::ElfError;

/// A part of a file that was read.
#[derive(Drop, Debug)]
pub struct FilePart {
    /// Where in the file its first byte is.
    pub offset: u64,
    /// The bytes.
    pub bytes: Vec<u8>,
}

/// A file of which parts were read. What needs other bytes of it fails with `ElfError::NotRead`.
#[derive(Clone, Copy, Debug)]
pub struct Image<'input> {
    /// How many bytes the file has.
    pub length: u64,
    /// The bytes from the beginning on.
    pub first: &'input [u8],
    /// Other parts, in any order.
    pub parts: &'input [FilePart],
}

impl<'input> Image<'input> {
    /// A file all of whose bytes were read. Does not allocate.
    pub fn whole(bytes: &'input [u8]) -> Self
        ensures { image_view result ≡ whole bytes.now }
    {
        Image {
            length: bytes.len() as u64,
            first: bytes,
            parts: &[],
        }
    }

    /// Whether the file has `size` bytes from the offset on.
    pub(crate) fn has(&self, offset: u64, size: u64) -> bool
        ensures { result ≡ nat_le (offset + size) (image_view self.now).length }
    {
        size <= self.length && offset <= self.length - size
    }

    /// The `size` bytes from the offset on, or `None` where the file has fewer.
    ///
    /// Fails with `NotRead` where no part has all of them. Does not allocate.
    pub(crate) fn part(&self, offset: u64, size: u64) -> Result<Option<&'input [u8]>, ElfError>
        ensures { map_ok (option_map (λ found. found.now)) result
            ≡ image_part (image_view self.now) offset size }
    {
        if !self.has(offset, size) {
            return Ok(None);
        }
        if let Some(found) = part(self.first, offset, size) {
            return Ok(Some(found));
        }
        match in_parts(self.parts, offset, size) {
            Some(found) => Ok(Some(found)),
            None => Err(ElfError::NotRead { offset, size }),
        }
    }

    /// The `size` bytes from the offset on. Fails with this error where the file has fewer, and
    /// with `NotRead`.
    #[tactic(auto, unfolding(crate::specs::Images::bytes_at))]
    pub(crate) fn bytes_at(
        &self,
        offset: u64,
        size: u64,
        error: ElfError,
    ) -> Result<&'input [u8], ElfError>
        ensures { map_ok (λ found. found.now) result
            ≡ bytes_at (image_view self.now) offset size error }
    {
        match self.part(offset, size)? {
            Some(bytes) => Ok(bytes),
            None => Err(error),
        }
    }

    /// The bytes of a table of `count` entries of `size` bytes at an offset. Fails with this error
    /// where the file has fewer, and with `NotRead`.
    pub(crate) fn table_at(
        &self,
        offset: u64,
        count: u64,
        size: u64,
        error: ElfError,
    ) -> Result<&'input [u8], ElfError>
        ensures { map_ok (λ found. found.now) result
            ≡ bytes_at (image_view self.now) offset (count * size) error }
    {
        match size_of(count, size, self.length) {
            Some(length) => self.bytes_at(offset, length, error),
            None => Err(error),
        }
    }
}

/// The `size` bytes from the offset on, by the first part that has them all.
fn in_parts(parts: &[FilePart], offset: u64, size: u64) -> Option<&[u8]>
    ensures { option_map (λ found. found.now) result
        ≡ in_parts offset size (parts_view parts.now) }
{
    for read in parts {
        if let Some(found) = in_part(read, offset, size) {
            return Some(found);
        }
    }
    None
}

/// The same, by this part.
fn in_part(read: &FilePart, offset: u64, size: u64) -> Option<&[u8]>
    ensures { option_map (λ found. found.now) result
        ≡ in_part offset size (part_view read.now) }
{
    if offset < read.offset {
        return None;
    }
    part(read.bytes.as_slice(), offset - read.offset, size)
}
