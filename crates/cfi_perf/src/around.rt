//! A profile of which the bytes of the records aren't at hand.
ghost use Rattle.std.specs.Prelude.{◌≡◌, option_map};
ghost use Rattle.cfi_read_core.specs.ReaderCalls.{map_ok};
ghost use Rattle.cfi_perf.specs.ProfileHeads.{head_view};
ghost use Rattle.cfi_perf.specs.ProfilesAround.{has_all, has_feature, has_ids, head_if};
ghost use Rattle.cfi_perf.specs.ProfilesAround.{lies_between, profile_around};
ghost use Rattle.cfi_perf.specs.Sections.{sections_view};

use crate::bytes::part;
use crate::error::PerfError;
use crate::event_entry::read_entry;
use crate::event_section::events_by;
use crate::file_bytes::FileBytes;
use crate::file_header::{FILE_HEADER_SIZE, FileHeader, byte_order, file_header};
use crate::pipe::is_pipe;
use crate::profile::ProfileHead;
use crate::sections::{HEADER_ARCH, HEADER_BUILD_ID, HEADER_EVENT_DESC, Sections};
use cfi_read_core::{EndianSlice, Reader};

/// Reads what a profile says before its records, by its bytes before them and after them.
#[tactic(auto, unfolding(crate::specs::ProfilesAround::profile_around))]
pub(crate) fn head_around<'input>(
    before: &'input [u8],
    after: &'input [u8],
    length: u64,
) -> Result<Option<ProfileHead<'input>>, PerfError>
    ensures { map_ok (option_map head_view) result
        ≡ profile_around before.now after.now length }
{
    if (before.len() as u64) < FILE_HEADER_SIZE {
        return Ok(None);
    }
    let endian = byte_order(before)?;
    if is_pipe(endian, before) {
        return Ok(None);
    }
    let header = file_header(endian, before)?;
    if !lies_between(&header, before, after, length) {
        return Ok(None);
    }
    let events = events_by(endian, before, &header)?;
    let end = length.saturating_sub(after.len() as u64);
    let size = end.saturating_sub(before.len() as u64);
    let sections = Sections {
        bytes: FileBytes { before, end, after },
        endian,
        events,
        features: header.features,
        is_cut: size < header.records.size,
    };
    Ok(sections.head_if(size))
}

/// Whether the records are all that lies between the bytes, and the attributes lie before them.
fn lies_between(header: &FileHeader, before: &[u8], after: &[u8], length: u64) -> bool
    ensures { result ≡ lies_between header.now before.now after.now length }
{
    let end = header.records.offset.saturating_add(header.records.size);
    header.records.offset == before.len() as u64
        && end.min(length) == length.saturating_sub(after.len() as u64)
        && part(before, header.attrs.offset, header.attrs.size).is_some()
}

impl<'input> Sections<'input> {
    /// What the profile says before its records, if all that is read for it is at hand.
    fn head_if(&self, size: u64) -> Option<ProfileHead<'input>>
        ensures { option_map head_view result ≡ head_if (sections_view self.now) size }
    {
        if self.has_all() {
            Some(self.head(size))
        } else {
            None
        }
    }

    /// Whether it is.
    fn has_all(&self) -> bool
        ensures { result ≡ has_all (sections_view self.now) }
    {
        self.has_ids()
            && self.has_feature(HEADER_BUILD_ID, HEADER_BUILD_ID - 1)
            && self.has_feature(HEADER_ARCH, HEADER_ARCH - 1)
            && self.has_feature(HEADER_EVENT_DESC, HEADER_EVENT_DESC - 1)
    }

    /// Whether the ids of all events are.
    fn has_ids(&self) -> bool
        ensures { result ≡ has_ids (sections_view self.now) }
    {
        let mut entries = EndianSlice::new(self.events.attrs, self.endian);
        for index in 0..self.events.count {
            let Ok(entry) = read_entry(self.events.form, &mut entries) else {
                return true;
            };
            if self.bytes.part(entry.ids).is_none() {
                return false;
            }
        }
        true
    }

    /// Whether the section of the feature of a bit is, if there is one.
    fn has_feature(&self, bit: u64, lower: u64) -> bool
        ensures { result ≡ has_feature (sections_view self.now) bit lower }
    {
        if self.features & bit == 0 {
            return true;
        }
        match self.feature_place((self.features & lower).count_ones()) {
            Ok(place) => self.bytes.part(place).is_some(),
            Err(_) => true,
        }
    }
}
