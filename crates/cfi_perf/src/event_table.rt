//! The events of a profile, and which of them a record is of (perf_event_open(2), `PERF_SAMPLE_ID`
//! and `PERF_SAMPLE_IDENTIFIER`).
ghost use Rattle.std.specs.Prelude.{◌≡◌, option_map};
ghost use Rattle.std.specs.Int.{w64};
ghost use Rattle.cfi_read_core.specs.ByteOrder.{is_big};
ghost use Rattle.cfi_read_core.specs.Numbers.{unsigned};
ghost use Rattle.cfi_perf.specs.FileParts.{parts_at_hand};
ghost use Rattle.cfi_perf.specs.ByteReads.{read_from};
ghost use Rattle.cfi_perf.specs.EventSections.{event_section_view};
ghost use Rattle.cfi_perf.specs.EventTables.{event_table_of};
ghost use Rattle.cfi_perf.specs.EventTables.{event_by, event_of_id, event_of_sample};
ghost use Rattle.cfi_perf.specs.EventTables.{profile_event_view};
ghost use Rattle.cfi_perf.specs.EventTables.{first_with_id, has_id, id_place, known_event};
ghost use Rattle.cfi_perf.specs.EventTables.{layout_of_other};
ghost use Rattle.cfi_perf.specs.EventTables.{numbered_event, event_table_view};

use crate::attribute::Attribute;
use crate::bytes::bytes_from;
use crate::event_entry::{EntryForm, EventEntry, read_entry};
use crate::event_names::event_name;
use crate::event_section::EventSection;
use crate::file_bytes::FileBytes;
use crate::layout::{EventLayout, PERF_SAMPLE_IDENTIFIER};
use cfi_read_core::{EndianSlice, Reader, RunTimeEndian};

/// `PERF_SAMPLE_ID` and `PERF_SAMPLE_IDENTIFIER`.
const SAMPLE_IDS: u64 = 1 << 6 | 1 << 16;

/// The fields before `PERF_SAMPLE_ID`: `PERF_SAMPLE_IP`, `_TID`, `_TIME` and `_ADDR`.
const BEFORE_ID: u64 = 1 << 0 | 1 << 1 | 1 << 2 | 1 << 3;

/// What an event's records have in them, and its name.
#[derive(Clone, Copy, Debug)]
pub(crate) struct ProfileEvent<'input> {
    pub(crate) layout: EventLayout,
    pub(crate) name: &'input [u8],
}

/// The events of a profile.
#[derive(Clone, Copy, Debug)]
pub(crate) struct EventTable<'input> {
    pub(crate) endian: RunTimeEndian,
    /// The bytes of the file, in which the ids are.
    pub(crate) bytes: FileBytes<'input>,
    /// The section with the names.
    pub(crate) descriptions: &'input [u8],
    pub(crate) attrs: &'input [u8],
    /// How many events the attributes are.
    pub(crate) count: u64,
    /// How each is written.
    pub(crate) form: EntryForm,
    pub(crate) first: ProfileEvent<'input>,
    /// The section with the builds of files.
    pub(crate) build_ids: &'input [u8],
}

impl<'input> EventTable<'input> {
    /// The events of this section, in a file of these bytes, with the sections of their names and
    /// of builds.
    pub(crate) fn new(
        endian: RunTimeEndian,
        bytes: FileBytes<'input>,
        events: &EventSection<'input>,
        descriptions: &'input [u8],
        build_ids: &'input [u8],
    ) -> Self
        ensures { event_table_view result ≡ event_table_of (is_big endian)
            (parts_at_hand bytes.entry) (event_section_view events.now) descriptions.now
            build_ids.now }
    {
        let attribute = &events.first.attribute;
        EventTable {
            endian,
            bytes,
            descriptions,
            attrs: events.attrs,
            count: events.count,
            form: events.form,
            first: ProfileEvent {
                layout: attribute.layout,
                name: event_name(endian, descriptions, 0, attribute),
            },
            build_ids,
        }
    }

    /// The event of a sample. `None` where no event has its id.
    pub(crate) fn event_of_sample(&self, body: &[u8]) -> Option<ProfileEvent<'input>>
        ensures { option_map profile_event_view result
            ≡ event_of_sample (event_table_view self.now) body.now }
    {
        if self.count == 1 || !self.first.layout.has(SAMPLE_IDS) {
            return Some(self.first);
        }
        self.event_by(bytes_from(body, id_place(&self.first.layout)))
    }

    /// The layout of the event of another record; that of the first where no event has its id.
    pub(crate) fn layout_of_other(&self, body: &[u8]) -> EventLayout
        ensures { result ≡ layout_of_other (event_table_view self.now) body.now }
    {
        if self.count == 1 || !self.first.layout.has(PERF_SAMPLE_IDENTIFIER) {
            return self.first.layout;
        }
        let place = (body.len() as u64).saturating_sub(8);
        match self.event_by(bytes_from(body, place)) {
            Some(event) => event.layout,
            None => self.first.layout,
        }
    }

    /// The event whose id these bytes begin with.
    fn event_by(&self, bytes: &[u8]) -> Option<ProfileEvent<'input>>
        ensures { option_map profile_event_view result ≡ event_by (event_table_view self.now)
            (read_from (is_big self.now.endian) bytes.now (unsigned w64)) }
    {
        let mut input = EndianSlice::new(bytes, self.endian);
        match input.read_u64() {
            Ok(0) => Some(self.first),
            Ok(id) => self.first_with_id(id),
            Err(_) => Some(self.first),
        }
    }

    /// The first event with this id.
    fn first_with_id(&self, id: u64) -> Option<ProfileEvent<'input>>
        ensures { option_map profile_event_view result
            ≡ first_with_id (event_table_view self.now) id 0 (event_table_view self.now).entries }
    {
        let mut entries = EndianSlice::new(self.attrs, self.endian);
        for index in 0..self.count {
            let Ok(entry) = read_entry(self.form, &mut entries) else {
                return None;
            };
            if self.has_id(&entry, id) {
                return Some(self.numbered_event(index, &entry.attribute));
            }
        }
        None
    }

    /// What the event of an index has in it, and its name.
    fn numbered_event(&self, index: u64, attribute: &Attribute) -> ProfileEvent<'input>
        ensures { profile_event_view result
            ≡ numbered_event (event_table_view self.now) index attribute.now }
    {
        ProfileEvent {
            layout: attribute.layout,
            name: event_name(self.endian, self.descriptions, index, attribute),
        }
    }

    /// Whether the id is among those of an event.
    fn has_id(&self, entry: &EventEntry, id: u64) -> bool
        ensures { result ≡ has_id
            (known_event (is_big self.now.endian) (parts_at_hand self.now.bytes) entry.now) id }
    {
        let Some(bytes) = self.bytes.part(entry.ids) else {
            return false;
        };
        let count = bytes.len() as u64 / 8;
        let mut ids = EndianSlice::new(bytes, self.endian);
        for index in 0..count {
            let Ok(known) = ids.read_u64() else {
                return false;
            };
            if known == id {
                return true;
            }
        }
        false
    }
}

/// Where in a sample its event's id is.
fn id_place(layout: &EventLayout) -> u64
    ensures { result ≡ id_place layout.now }
{
    if layout.has(PERF_SAMPLE_IDENTIFIER) {
        0
    } else {
        8 * u64::from((layout.sample_type & BEFORE_ID).count_ones())
    }
}
