//! A profile that was written to a pipe: records alone, some of which say what the header of a file
//! and its other parts do (`perf.data-file-format.txt`).
ghost use Rattle.std.specs.Prelude.{◌≡◌, ◌≤◌, option_map};
ghost use Rattle.cfi_read_core.specs.ByteOrder.{is_big};
ghost use Rattle.cfi_read_core.specs.ReaderCalls.{map_ok};
ghost use Rattle.cfi_perf.specs.EventTables.{event_table_view};
ghost use Rattle.cfi_perf.specs.Pipes.{attributes_in, build_ids_in, events_of, feature};
ghost use Rattle.cfi_perf.specs.Pipes.{is_feature, is_pipe};
ghost use Rattle.cfi_perf.specs.Pipes.{pipe_architecture, pipe_descriptions, pipe_head};
ghost use Rattle.cfi_perf.specs.Pipes.{pipe_section, pipe_table, stand_first};
ghost use Rattle.cfi_perf.specs.ProfileHeads.{head_view};
ghost use Rattle.cfi_perf.specs.RecordFrames.{framed_view};
ghost use Rattle.cfi_perf.specs.EventSections.{event_section_view};

use crate::architecture::{machine_by, text_in};
use crate::build_ids::PERF_RECORD_HEADER_BUILD_ID;
use crate::bytes::bytes_from;
use crate::error::PerfError;
use crate::event_entry::{EntryForm, EventEntry, first_event, read_entry};
use crate::event_section::EventSection;
use crate::event_table::EventTable;
use crate::file_bytes::FileBytes;
use crate::file_header::PIPE_HEADER_SIZE;
use crate::profile::ProfileHead;
use crate::record_frame::{Framed, split_record};
use cfi_read_core::{EndianSlice, Reader, RunTimeEndian};

/// `PERF_RECORD_HEADER_ATTR`.
pub(crate) const PERF_RECORD_HEADER_ATTR: u32 = 64;

const PERF_RECORD_HEADER_FEATURE: u32 = 80;

/// The number of the feature of the architecture's name.
const FEATURE_ARCH: u64 = 6;

/// The number of the feature of the events' names.
const FEATURE_EVENT_DESC: u64 = 12;

/// Whether the header is that of a pipe.
pub(crate) fn is_pipe(endian: RunTimeEndian, bytes: &[u8]) -> bool
    ensures { result ≡ is_pipe endian bytes.now }
{
    let mut sizes = EndianSlice::new(bytes_from(bytes, 8), endian);
    match sizes.read_u64() {
        Ok(size) => size == PIPE_HEADER_SIZE,
        Err(_) => false,
    }
}

/// What the records of a pipe say before they are read.
///
/// Fails with `NoEvents` or `MixedEvents`, and with `PipeMode` where the attributes of an event
/// can't be read, or stand after another record.
#[tactic(auto, unfolding(crate::specs::Pipes::pipe_head))]
pub(crate) fn pipe_head<'input>(
    endian: RunTimeEndian,
    records: &'input [u8],
) -> Result<ProfileHead<'input>, PerfError>
    ensures { map_ok head_view result ≡ pipe_head endian records.now }
{
    let events = pipe_section(endian, records)?;
    Ok(ProfileHead::new(
        endian,
        pipe_table(endian, records, &events),
        pipe_architecture(endian, records, &events.first),
        PIPE_HEADER_SIZE.saturating_add(records.len() as u64),
        records.len() as u64,
        false,
    ))
}

/// The events.
fn pipe_section(endian: RunTimeEndian, records: &[u8]) -> Result<EventSection<'_>, PerfError>
    ensures { map_ok event_section_view result ≡ pipe_section (is_big endian) records.now }
{
    let count = attributes_in(endian, records);
    let form = EntryForm::Records;
    let first = first_event(count, form, EndianSlice::new(records, endian))?;
    if !stand_first(endian, records, count) {
        return Err(PerfError::PipeMode);
    }
    Ok(EventSection {
        form,
        count,
        attrs: records,
        first,
    })
}

/// How many records have the attributes of an event.
fn attributes_in(endian: RunTimeEndian, records: &[u8]) -> u64
    ensures { result ≡ attributes_in (is_big endian) records.now }
{
    let mut left = records;
    let mut count = 0u64;
    // Each record takes a byte at least.
    for _ in 0..records.len() {
        match split_record(endian, left) {
            Ok(record) => {
                count += events_of(&record);
                left = record.others;
            }
            Err(_) => return count,
        }
    }
    count
}

/// Of how many events a record has the attributes: of one or none.
fn events_of(framed: &Framed<'_>) -> u64
    ensures value { result ≡ events_of (framed_view framed.now) }
    ensures bound { result ≤ 1 }
{
    if framed.header.kind == PERF_RECORD_HEADER_ATTR {
        1
    } else {
        0
    }
}

/// Whether the attributes of so many events stand first, one after the other.
fn stand_first(endian: RunTimeEndian, records: &[u8], count: u64) -> bool
    ensures { result ≡ stand_first (is_big endian) records.now count }
{
    let mut entries = EndianSlice::new(records, endian);
    for index in 0..count {
        match read_entry(EntryForm::Records, &mut entries) {
            Ok(_) => {}
            Err(_) => return false,
        }
    }
    true
}

/// The events of a pipe, with their names.
fn pipe_table<'input>(
    endian: RunTimeEndian,
    records: &'input [u8],
    events: &EventSection<'input>,
) -> EventTable<'input>
    ensures { event_table_view result
        ≡ pipe_table (is_big endian) records.now (event_section_view events.now) }
{
    let descriptions = pipe_descriptions(endian, records);
    let bytes = FileBytes::whole(records, u64::MAX);
    EventTable::new(
        endian,
        bytes,
        events,
        descriptions,
        build_ids_in(endian, records),
    )
}

/// The records from the first on that has the build of a file; none where there is no such record.
fn build_ids_in(endian: RunTimeEndian, records: &[u8]) -> &[u8]
    ensures { result.now ≡ build_ids_in (is_big endian) records.now }
{
    let mut left = records;
    // Each record takes a byte at least.
    for _ in 0..records.len() {
        match split_record(endian, left) {
            Ok(record) => {
                if record.header.kind == PERF_RECORD_HEADER_BUILD_ID {
                    return left;
                }
                left = record.others;
            }
            Err(_) => return &[],
        }
    }
    &[]
}

/// The section that names the events; nothing where there is none.
fn pipe_descriptions(endian: RunTimeEndian, records: &[u8]) -> &[u8]
    ensures { result.now ≡ pipe_descriptions (is_big endian) records.now }
{
    match feature(endian, records, FEATURE_EVENT_DESC) {
        Some(section) => section,
        None => &[],
    }
}

/// The name of the machine's architecture; by the registers of an event where no record has it.
/// Fails with `FeatureOutOfBounds`.
fn pipe_architecture<'input>(
    endian: RunTimeEndian,
    records: &'input [u8],
    event: &EventEntry,
) -> Result<Option<&'input [u8]>, PerfError>
    ensures { map_ok (option_map (λ name. name.now)) result
        ≡ pipe_architecture (is_big endian) records.now event.now }
{
    match feature(endian, records, FEATURE_ARCH) {
        Some(section) => match text_in(endian, section) {
            Ok(name) => Ok(Some(name)),
            Err(error) => Err(error),
        },
        None => Ok(machine_by(endian, event.attribute.layout.sample_regs_user)),
    }
}

/// The section of the feature of this number, in the first record that has it.
fn feature(endian: RunTimeEndian, records: &[u8], number: u64) -> Option<&[u8]>
    ensures { option_map (λ section. section.now) result
        ≡ feature (is_big endian) records.now number }
{
    let mut left = records;
    // Each record takes a byte at least.
    for _ in 0..records.len() {
        match split_record(endian, left) {
            Ok(record) => {
                if is_feature(endian, number, &record) {
                    return Some(bytes_from(record.body, 8));
                }
                left = record.others;
            }
            Err(_) => return None,
        }
    }
    None
}

/// Whether a record has the feature of this number.
fn is_feature(endian: RunTimeEndian, number: u64, framed: &Framed<'_>) -> bool
    ensures { result ≡ is_feature (is_big endian) number (framed_view framed.now) }
{
    let mut input = EndianSlice::new(framed.body, endian);
    match input.read_u64() {
        Ok(found) => framed.header.kind == PERF_RECORD_HEADER_FEATURE && found == number,
        Err(_) => false,
    }
}
