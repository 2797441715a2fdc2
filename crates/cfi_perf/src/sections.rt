//! The sections of the file of a profile, which its header names (`perf.data-file-format.txt`).
ghost use Rattle.std.specs.Prelude.{◌≡◌, option_map};
ghost use Rattle.cfi_read_core.specs.ReaderCalls.{map_ok};
ghost use Rattle.cfi_perf.specs.EventTables.{event_table_view};
ghost use Rattle.cfi_perf.specs.ProfileHeads.{head_view};
ghost use Rattle.cfi_perf.specs.Sections.{architecture_in, build_ids, descriptions, event_table};
ghost use Rattle.cfi_perf.specs.Sections.{feature_or_nothing, feature_place, feature_section};
ghost use Rattle.cfi_perf.specs.Sections.{sections_view};
ghost use Rattle.cfi_perf.specs.ProfileHeads.{head_of};

use crate::architecture::{machine_by, text_in};
use crate::bytes::{bytes_from, part};
use crate::error::PerfError;
use crate::event_section::EventSection;
use crate::event_table::EventTable;
use crate::file_bytes::FileBytes;
use crate::file_header::{FileSection, read_file_section};
use crate::profile::ProfileHead;
use cfi_read_core::{EndianSlice, RunTimeEndian};

/// The feature bit of the builds of files.
pub(crate) const HEADER_BUILD_ID: u64 = 1 << 2;

/// The feature bit of the architecture's name.
pub(crate) const HEADER_ARCH: u64 = 1 << 6;

/// The feature bit of the events' names.
pub(crate) const HEADER_EVENT_DESC: u64 = 1 << 12;

/// The parts of the file but for the records.
#[derive(Clone, Copy, Debug)]
pub(crate) struct Sections<'input> {
    pub(crate) bytes: FileBytes<'input>,
    pub(crate) endian: RunTimeEndian,
    pub(crate) events: EventSection<'input>,
    /// Which sections stand after the records.
    pub(crate) features: u64,
    /// Whether the file ends before the records do.
    pub(crate) is_cut: bool,
}

impl<'input> Sections<'input> {
    /// What the profile says before its records, of which so many bytes are there.
    pub(crate) fn head(&self, size: u64) -> ProfileHead<'input>
        ensures { head_view result ≡ head_of (sections_view self.now) size }
    {
        ProfileHead::new(
            self.endian,
            self.event_table(),
            self.architecture(),
            self.bytes.end,
            size,
            self.is_cut,
        )
    }

    /// The name of the machine's architecture. Fails with `FeatureOutOfBounds`.
    #[tactic(auto, unfolding(crate::specs::Sections::architecture_in))]
    fn architecture(&self) -> Result<Option<&'input [u8]>, PerfError>
        ensures { map_ok (option_map (λ name. name.now)) result
            ≡ architecture_in (sections_view self.now) }
    {
        if self.is_cut {
            let mask = self.events.first.attribute.layout.sample_regs_user;
            return Ok(machine_by(self.endian, mask));
        }
        if self.features & HEADER_ARCH == 0 {
            return Ok(None);
        }
        let index = (self.features & (HEADER_ARCH - 1)).count_ones();
        let contents = self.feature_section(index)?;
        let name = text_in(self.endian, contents)?;
        Ok(Some(name))
    }

    /// The events.
    #[tactic(auto, unfolding(crate::specs::Sections::event_table))]
    fn event_table(&self) -> EventTable<'input>
        ensures { event_table_view result ≡ event_table (sections_view self.now) }
    {
        let descriptions = self.descriptions();
        EventTable::new(
            self.endian,
            self.bytes,
            &self.events,
            descriptions,
            self.build_ids(),
        )
    }

    /// The section that names the events; nothing where there is none that can be read.
    #[tactic(auto, unfolding(crate::specs::Sections::descriptions))]
    fn descriptions(&self) -> &'input [u8]
        ensures { result.now ≡ descriptions (sections_view self.now) }
    {
        self.feature_or_nothing(HEADER_EVENT_DESC, HEADER_EVENT_DESC - 1)
    }

    /// The section with the builds of files; nothing where there is none that can be read.
    #[tactic(auto, unfolding(crate::specs::Sections::build_ids))]
    fn build_ids(&self) -> &'input [u8]
        ensures { result.now ≡ build_ids (sections_view self.now) }
    {
        self.feature_or_nothing(HEADER_BUILD_ID, HEADER_BUILD_ID - 1)
    }

    /// The section of the feature of a bit, by it and those before it.
    fn feature_or_nothing(&self, bit: u64, lower: u64) -> &'input [u8]
        ensures { result.now ≡ feature_or_nothing (sections_view self.now) bit lower }
    {
        if self.features & bit == 0 {
            return &[];
        }
        match self.feature_section((self.features & lower).count_ones()) {
            Ok(section) => section,
            Err(_) => &[],
        }
    }

    /// The section of an index of those after the records.
    fn feature_section(&self, index: u32) -> Result<&'input [u8], PerfError>
        ensures { map_ok (λ contents. contents.now) result
            ≡ feature_section (sections_view self.now) index }
    {
        let place = self.feature_place(index)?;
        match self.bytes.part(place) {
            Some(contents) => Ok(contents),
            None => Err(PerfError::FeatureOutOfBounds),
        }
    }

    /// Where that section is.
    pub(crate) fn feature_place(&self, index: u32) -> Result<FileSection, PerfError>
        ensures { result ≡ feature_place (sections_view self.now) index }
    {
        let place = bytes_from(self.bytes.after, 16 * u64::from(index));
        let mut input = EndianSlice::new(place, self.endian);
        match read_file_section(&mut input) {
            Ok(place) => Ok(place),
            Err(_) => Err(PerfError::FeatureOutOfBounds),
        }
    }
}
