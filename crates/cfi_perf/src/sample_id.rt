//! The fields of a sample that other records have at their end (perf_event_open(2),
//! `struct sample_id`).
ghost use Rattle.std.specs.Prelude.{◌≡◌};
ghost use Rattle.cfi_read_core.specs.ByteOrder.{is_big};
ghost use Rattle.cfi_read_core.specs.ReaderCalls.{ReadsValue, map_ok};
ghost use Rattle.cfi_perf.specs.EventTables.{event_table_view};
ghost use Rattle.cfi_perf.specs.SampleIds.{sample_id_size, sample_id_time, split_id, without_id};
ghost use Rattle.cfi_perf.specs.SampleIds.{without_id_by, without_id_view};

use crate::bytes::{bytes_from, first_bytes};
use crate::error::PerfError;
use crate::event_table::EventTable;
use crate::layout::{EventLayout, PERF_SAMPLE_TID, PERF_SAMPLE_TIME};
use crate::sample_fields::read_number_if;
use cfi_read_core::{EndianSlice, Reader, RunTimeEndian};

/// The first type of the records that perf itself writes.
const PERF_RECORD_USER_TYPE_START: u32 = 64;

/// The fields of a sample that other records have at their end: `PERF_SAMPLE_TID`, `_TIME`, `_ID`,
/// `_CPU`, `_STREAM_ID` and `_IDENTIFIER`.
const SAMPLE_ID_FIELDS: u64 = 1 << 1 | 1 << 2 | 1 << 6 | 1 << 7 | 1 << 9 | 1 << 16;

/// A record's fields without those of a sample at its end, and its time.
#[derive(Clone, Copy, Debug)]
pub(crate) struct WithoutId<'input> {
    pub(crate) time: u64,
    pub(crate) fields: &'input [u8],
}

/// Splits the fields of a sample off the end of a record.
#[tactic(auto, unfolding(crate::specs::SampleIds::without_id))]
pub(crate) fn without_id<'input>(
    events: &EventTable<'input>,
    endian: RunTimeEndian,
    kind: u32,
    body: &'input [u8],
) -> Result<WithoutId<'input>, PerfError>
    ensures { map_ok without_id_view result
        ≡ without_id (event_table_view events.now) (is_big endian) kind body.now }
{
    if !events.first.layout.sample_id_all || kind >= PERF_RECORD_USER_TYPE_START {
        return Ok(WithoutId {
            time: 0,
            fields: body,
        });
    }
    without_id_by(&events.layout_of_other(body), endian, body)
}

/// Splits the fields of a sample off the end of a record of this layout.
fn without_id_by<'input>(
    layout: &EventLayout,
    endian: RunTimeEndian,
    body: &'input [u8],
) -> Result<WithoutId<'input>, PerfError>
    ensures { map_ok without_id_view result
        ≡ without_id_by layout.now (is_big endian) body.now }
{
    let size = sample_id_size(layout);
    let length = body.len() as u64;
    if length < size {
        return Err(PerfError::RecordCut);
    }
    split_id(layout, endian, body, length - size)
}

/// The size of the fields of a sample that other records have.
fn sample_id_size(layout: &EventLayout) -> u64
    ensures { result ≡ sample_id_size layout.now }
{
    8 * u64::from((layout.sample_type & SAMPLE_ID_FIELDS).count_ones())
}

/// The first `length` bytes of a record, and the time after them.
fn split_id<'input>(
    layout: &EventLayout,
    endian: RunTimeEndian,
    body: &'input [u8],
    length: u64,
) -> Result<WithoutId<'input>, PerfError>
    ensures { map_ok without_id_view result
        ≡ split_id layout.now (is_big endian) body.now length }
{
    let mut input = EndianSlice::new(bytes_from(body, length), endian);
    match read_sample_id_time(layout, &mut input) {
        Ok(time) => Ok(WithoutId {
            time,
            fields: first_bytes(body, length),
        }),
        Err(_) => Err(PerfError::RecordCut),
    }
}

/// Reads the time of the fields of a sample at a record's end.
#[tactic(auto, unfolding(crate::specs::SampleIds::sample_id_time))]
fn read_sample_id_time<R: Reader>(layout: &EventLayout, input: &mut R) -> cfi_read_core::Result<u64>
    ensures { ReadsValue R.position (sample_id_time layout.now) input.old result input.new }
{
    let _thread = read_number_if(layout.has(PERF_SAMPLE_TID), input)?;
    read_number_if(layout.has(PERF_SAMPLE_TIME), input)
}
