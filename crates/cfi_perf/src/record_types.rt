//! What a record says, by its type (perf_event_open(2), "MMAP layout").
ghost use Rattle.std.specs.Prelude.{◌≡◌, option_map};
ghost use Rattle.cfi_read_core.specs.ByteOrder.{is_big};
ghost use Rattle.cfi_read_core.specs.ReaderCalls.{map_ok};
ghost use Rattle.cfi_perf.specs.EventTables.{event_table_view};
ghost use Rattle.cfi_perf.specs.EventTables.{profile_event_view as event_of_table};
ghost use Rattle.cfi_perf.specs.Events.{event_view, mapping_record_view, record_view, lost};
ghost use Rattle.cfi_perf.specs.Events.{lost_samples};
ghost use Rattle.cfi_perf.specs.RecordTypes.{event_of, fork_event, lost_event, mapping_event};
ghost use Rattle.cfi_perf.specs.RecordTypes.{record_by_type, known_sample, sample_of};

use crate::build_ids::with_build_id;
use crate::error::PerfError;
use crate::event_table::{EventTable, ProfileEvent};
use crate::record::{Event, Mapping, Record};
use crate::record_fields::{mapping, mapping2, program, read_fork, read_lost, read_lost_samples};
use crate::record_frame::RecordHeader;
use crate::sample_fields::read_sample;
use crate::sample_id::without_id;
use cfi_read_core::{EndianSlice, RunTimeEndian};

const PERF_RECORD_MMAP: u32 = 1;

const PERF_RECORD_LOST: u32 = 2;

const PERF_RECORD_COMM: u32 = 3;

const PERF_RECORD_FORK: u32 = 7;

const PERF_RECORD_SAMPLE: u32 = 9;

const PERF_RECORD_MMAP2: u32 = 10;

const PERF_RECORD_LOST_SAMPLES: u32 = 13;

const PERF_RECORD_COMPRESSED: u32 = 81;

const PERF_RECORD_COMPRESSED2: u32 = 83;

/// Reads what a record says, by its type.
#[tactic(auto, unfolding(crate::specs::RecordTypes::record_by_type))]
pub(crate) fn record_of<'input>(
    events: &EventTable<'input>,
    endian: RunTimeEndian,
    header: &RecordHeader,
    body: &'input [u8],
) -> Result<Record<'input>, PerfError>
    ensures { map_ok record_view result
        ≡ record_by_type (event_table_view events.now) (is_big endian) header.now body.now }
{
    if header.kind == PERF_RECORD_SAMPLE {
        return sample_of(events.event_of_sample(body), endian, header.misc, body);
    }
    if header.kind == PERF_RECORD_COMPRESSED || header.kind == PERF_RECORD_COMPRESSED2 {
        return Err(PerfError::Compressed);
    }
    let found = without_id(events, endian, header.kind, body)?;
    let event = event_of(events, endian, header, found.fields)?;
    Ok(Record {
        time: found.time,
        event,
    })
}

/// Reads a sample of this event. A sample of none says nothing.
fn sample_of<'input>(
    event: Option<ProfileEvent<'input>>,
    endian: RunTimeEndian,
    misc: u16,
    body: &'input [u8],
) -> Result<Record<'input>, PerfError>
    ensures { map_ok record_view result
        ≡ sample_of (option_map event_of_table event.entry) (is_big endian) misc body.now }
{
    match event {
        Some(event) => sample_record(&event, endian, misc, body),
        None => Ok(Record {
            time: 0,
            event: Event::Other,
        }),
    }
}

/// Reads a sample.
fn sample_record<'input>(
    event: &ProfileEvent<'input>,
    endian: RunTimeEndian,
    misc: u16,
    body: &'input [u8],
) -> Result<Record<'input>, PerfError>
    ensures { map_ok record_view result
        ≡ known_sample (event_of_table event.now) (is_big endian) misc body.now }
{
    let mut input = EndianSlice::new(body, endian);
    match read_sample(event, misc, &mut input) {
        Ok(timed) => Ok(Record {
            time: timed.time,
            event: Event::Sample(timed.sample),
        }),
        Err(_) => Err(PerfError::RecordCut),
    }
}

/// Reads a record that isn't a sample, by its type.
fn event_of<'input>(
    events: &EventTable<'input>,
    endian: RunTimeEndian,
    header: &RecordHeader,
    fields: &'input [u8],
) -> Result<Event<'input>, PerfError>
    ensures { map_ok event_view result
        ≡ event_of (event_table_view events.now) (is_big endian) header.now fields.now }
{
    match header.kind {
        PERF_RECORD_MMAP => {
            let mapped = mapping(endian, header.misc, fields)?;
            Ok(mapping_event(events, endian, mapped))
        }
        PERF_RECORD_LOST => lost_event(endian, fields),
        PERF_RECORD_COMM => Ok(Event::Program(program(endian, header.misc, fields)?)),
        PERF_RECORD_FORK => fork_event(endian, fields),
        PERF_RECORD_MMAP2 => {
            let mapped = mapping2(endian, header.misc, fields)?;
            Ok(mapping_event(events, endian, mapped))
        }
        PERF_RECORD_LOST_SAMPLES => lost_samples_event(endian, fields),
        _ => Ok(Event::Other),
    }
}

/// Returns the event of a mapped file, with the build that the profile knows it has.
fn mapping_event<'input>(
    events: &EventTable<'input>,
    endian: RunTimeEndian,
    mapped: Mapping<'input>,
) -> Event<'input>
    ensures { event_view result
        ≡ mapping_event (event_table_view events.now) (is_big endian)
        (mapping_record_view mapped.entry) }
{
    Event::Mapping(with_build_id(endian, events.build_ids, mapped))
}

/// Returns the event of a new process. Fails with `RecordCut`.
fn fork_event(endian: RunTimeEndian, fields: &[u8]) -> Result<Event<'_>, PerfError>
    ensures { map_ok event_view result ≡ fork_event (is_big endian) fields.now }
{
    let mut input = EndianSlice::new(fields, endian);
    match read_fork(&mut input) {
        Ok(fork) => Ok(Event::Fork(fork)),
        Err(_) => Err(PerfError::RecordCut),
    }
}

/// Returns the event of lost records. Fails with `RecordCut`.
fn lost_event(endian: RunTimeEndian, fields: &[u8]) -> Result<Event<'_>, PerfError>
    ensures { map_ok event_view result ≡ lost_event (is_big endian) lost fields.now }
{
    let mut input = EndianSlice::new(fields, endian);
    match read_lost(&mut input) {
        Ok(lost) => Ok(Event::Lost(lost)),
        Err(_) => Err(PerfError::RecordCut),
    }
}

/// Returns the event of lost samples. Fails with `RecordCut`.
fn lost_samples_event(endian: RunTimeEndian, fields: &[u8]) -> Result<Event<'_>, PerfError>
    ensures { map_ok event_view result ≡ lost_event (is_big endian) lost_samples fields.now }
{
    let mut input = EndianSlice::new(fields, endian);
    match read_lost_samples(&mut input) {
        Ok(lost) => Ok(Event::Lost(lost)),
        Err(_) => Err(PerfError::RecordCut),
    }
}
