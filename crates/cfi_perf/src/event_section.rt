//! The part of a profile with its events.
ghost use Rattle.std.specs.Prelude.{◌≡◌};
ghost use Rattle.cfi_read_core.specs.ReaderCalls.{map_ok};
ghost use Rattle.cfi_perf.specs.EventSections.{events_by, event_section_view};

use crate::bytes::part;
use crate::error::PerfError;
use crate::event_entry::{EntryForm, EventEntry, first_event};
use crate::file_header::FileHeader;
use cfi_read_core::{EndianSlice, RunTimeEndian};

/// The least size of an event: attributes that say which registers samples have
/// (`PERF_ATTR_SIZE_VER3`), and where the event's ids are.
const LEAST_EVENT_SIZE: u64 = 96 + 16;

/// The part of the file with the events.
#[derive(Clone, Copy, Debug)]
pub(crate) struct EventSection<'input> {
    /// How each is written.
    pub(crate) form: EntryForm,
    pub(crate) count: u64,
    /// The bytes of all.
    pub(crate) attrs: &'input [u8],
    pub(crate) first: EventEntry,
}

/// The events, if the records of all can be read.
#[tactic(auto, unfolding(crate::specs::EventSections::events_by))]
pub(crate) fn events_by<'input>(
    endian: RunTimeEndian,
    bytes: &'input [u8],
    header: &FileHeader,
) -> Result<EventSection<'input>, PerfError>
    ensures { map_ok event_section_view result ≡ events_by endian bytes.now header.now }
{
    let size = header.attr_size;
    if size < LEAST_EVENT_SIZE {
        return Err(PerfError::AttributeSize(size));
    }
    let Some(attrs) = part(bytes, header.attrs.offset, header.attrs.size) else {
        return Err(PerfError::AttributesOutOfBounds);
    };
    let count = attrs.len() as u64 / size;
    let first = first_event(
        count,
        EntryForm::Sized(size),
        EndianSlice::new(attrs, endian),
    )?;
    Ok(EventSection {
        form: EntryForm::Sized(size),
        count,
        attrs,
        first,
    })
}
