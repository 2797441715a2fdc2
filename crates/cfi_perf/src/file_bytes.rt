//! The bytes of a profile's file, of which those of the records may not be at hand.
ghost use Rattle.std.specs.Prelude.{◌≡◌, ◌-◌, drop, length, option_map};
ghost use Rattle.cfi_perf.specs.FileParts.{part_after, parts_at_hand, file_parts};

use crate::bytes::{bytes_from, part};
use crate::file_header::FileSection;

/// The bytes before a place of the file, and those after it.
#[derive(Clone, Copy, Debug)]
pub(crate) struct FileBytes<'input> {
    /// The first bytes of the file; they may be all.
    pub(crate) before: &'input [u8],
    /// Where `after` begins in the file.
    pub(crate) end: u64,
    /// The last bytes of the file.
    pub(crate) after: &'input [u8],
}

impl<'input> FileBytes<'input> {
    /// All bytes of a file, and those from this place on.
    pub(crate) fn whole(bytes: &'input [u8], end: u64) -> Self
        ensures parts { parts_at_hand result ≡ file_parts bytes.now }
        ensures after { result.after.now ≡ drop end bytes.now }
        ensures end { result.end ≡ length bytes.now - length (drop end bytes.now) }
    {
        let after = bytes_from(bytes, end);
        FileBytes {
            before: bytes,
            end: (bytes.len() as u64).saturating_sub(after.len() as u64),
            after,
        }
    }

    /// The bytes of a part of the file. `None` where the file has none there, or they aren't at
    /// hand.
    pub(crate) fn part(&self, place: FileSection) -> Option<&'input [u8]>
        ensures { option_map (λ found. found.now) result ≡ parts_at_hand self.now place }
    {
        match part(self.before, place.offset, place.size) {
            Some(found) => Some(found),
            None => self.part_after(place),
        }
    }

    /// The bytes of a part of the last bytes.
    fn part_after(&self, place: FileSection) -> Option<&'input [u8]>
        ensures { option_map (λ found. found.now) result
            ≡ part_after self.now.end self.now.after.now place }
    {
        if place.offset < self.end {
            None
        } else {
            part(self.after, place.offset - self.end, place.size)
        }
    }
}
