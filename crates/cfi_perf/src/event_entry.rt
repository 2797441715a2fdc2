//! The events of a profile, as they are written one after the other: as entries of a file, or as
//! records of a pipe.
ghost use Rattle.std.specs.Prelude.{◌≡◌};
ghost use Rattle.cfi_read_core.specs.ByteOrder.{is_big};
ghost use Rattle.cfi_read_core.specs.ReaderCalls.{ReadsValue};
ghost use Rattle.cfi_read_core.specs.SliceReaders.{slice_position};
ghost use Rattle.cfi_perf.specs.ByteReads.{entries};
ghost use Rattle.cfi_perf.specs.EventEntries.{are_readable, entry, event, has_all_attributes};
ghost use Rattle.cfi_perf.specs.EventEntries.{pipe_event};
ghost use Rattle.cfi_perf.specs.EventEntries.{first_event};

use crate::attribute::{Attribute, SizedAttribute, read_attribute, read_sized_attribute};
use crate::bytes::{Input, read_items};
use crate::error::PerfError;
use crate::file_header::{FileSection, read_file_section};
use crate::pipe::PERF_RECORD_HEADER_ATTR;
use crate::record_frame::{RecordHeader, read_record_header};
use cfi_read_core::{Error, Reader, Result};

/// The bytes of an event that are read: those of its attributes up to the registers, and where its
/// ids are.
const READ_SIZE: u64 = 88 + 16;

/// The bytes of an event's attributes that are read: those up to the registers.
const ATTRIBUTE_SIZE: u64 = 88;

/// The least size of an event's attributes (`PERF_ATTR_SIZE_VER3`).
const LEAST_SIZE: u64 = 96;

const RECORD_HEADER_SIZE: u64 = 8;

/// An event as the profile has it.
#[derive(Clone, Copy, Debug, PartialEq, Eq)]
pub(crate) struct EventEntry {
    pub(crate) attribute: Attribute,
    /// Where the ids are by which records name it.
    pub(crate) ids: FileSection,
}

/// How an event is written.
#[derive(Clone, Copy, Debug, PartialEq, Eq)]
pub(crate) enum EntryForm {
    /// As an entry of this size, of a file.
    Sized(u64),
    /// As a record, of a pipe.
    Records,
}

impl EventEntry {
    /// Returns whether the records of both events can be read.
    fn is_readable_with(&self, other: &EventEntry) -> bool
        ensures { result ≡ are_readable self.now other.now }
    {
        let layout = &other.attribute.layout;
        self.attribute.layout.is_same(layout) || self.attribute.layout.are_identified(layout)
    }
}

/// The first of `count` events of one form, if the records of all can be read.
///
/// Fails with `NoEvents` or `MixedEvents`.
pub(crate) fn first_event(
    count: u64,
    form: EntryForm,
    events: Input<'_>,
) -> std::result::Result<EventEntry, PerfError>
    ensures { result ≡ first_event (entries count (entry form)
        (slice_position is_big events.entry).source (slice_position is_big events.entry).place) }
{
    let mut events = events;
    if count == 0 {
        return Err(PerfError::NoEvents);
    }
    let Ok(first) = read_entry(form, &mut events) else {
        return Err(PerfError::NoEvents);
    };
    for index in 1..count {
        let Ok(other) = read_entry(form, &mut events) else {
            return Ok(first);
        };
        if !first.is_readable_with(&other) {
            return Err(PerfError::MixedEvents);
        }
    }
    Ok(first)
}

/// Reads an event of this form.
pub(crate) fn read_entry(form: EntryForm, input: &mut Input<'_>) -> Result<EventEntry>
    ensures { ReadsValue (slice_position is_big) (entry form) input.old result input.new }
{
    match form {
        EntryForm::Sized(size) => read_event(size, input),
        EntryForm::Records => read_pipe_event(input),
    }
}

/// Reads an event of a pipe: a record with its attributes and its ids.
#[tactic(auto, unfolding(crate::specs::EventEntries::pipe_event))]
fn read_pipe_event(input: &mut Input<'_>) -> Result<EventEntry>
    ensures { ReadsValue (slice_position is_big) pipe_event input.old result input.new }
{
    let header = read_record_header(input)?;
    let sized = read_sized_attribute(input)?;
    let size = u64::from(sized.size);
    let _others = read_items(size.saturating_sub(ATTRIBUTE_SIZE), 1, input)?;
    let place = input.place() as u64;
    let ids = u64::from(header.size).saturating_sub(RECORD_HEADER_SIZE + size);
    let _ids = read_items(ids, 1, input)?;
    if !is_whole(&header, &sized) {
        return Err(Error::UnsupportedOffset);
    }
    Ok(EventEntry {
        attribute: sized.attribute,
        ids: FileSection {
            offset: place,
            size: ids,
        },
    })
}

/// Whether a record has all attributes of an event.
fn is_whole(header: &RecordHeader, sized: &SizedAttribute) -> bool
    ensures { result ≡ has_all_attributes header.now sized.now }
{
    let size = u64::from(sized.size);
    header.kind == PERF_RECORD_HEADER_ATTR
        && LEAST_SIZE <= size
        && RECORD_HEADER_SIZE + size <= u64::from(header.size)
}

/// Reads an event of a file: its attributes, and where its ids are.
#[tactic(auto, unfolding(crate::specs::EventEntries::event))]
fn read_event(size: u64, input: &mut Input<'_>) -> Result<EventEntry>
    ensures { ReadsValue (slice_position is_big) (event size) input.old result input.new }
{
    let attribute = read_attribute(input)?;
    let _others = read_items(size.saturating_sub(READ_SIZE), 1, input)?;
    let ids = read_file_section(input)?;
    Ok(EventEntry { attribute, ids })
}
