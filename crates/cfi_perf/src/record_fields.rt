//! The records of mapped files, programs and new processes (perf_event_open(2), "MMAP layout").
ghost use Rattle.std.specs.Prelude.{◌≡◌, option_map};
ghost use Rattle.cfi_read_core.specs.ReaderCalls.{ReadsValue, map_ok};
ghost use Rattle.cfi_read_core.specs.ByteOrder.{is_big};
ghost use Rattle.cfi_perf.specs.Events.{fork, mapped_range, mapping, mapping2, mapping_record_view};
ghost use Rattle.cfi_perf.specs.Events.{lost, lost_samples, own_build_id};
ghost use Rattle.cfi_perf.specs.Events.{program, program_view};

use crate::build_ids::{count_at, counted_id};
use crate::bytes::{before_zero, bytes_from};
use crate::error::PerfError;
use crate::layout::has_any;
use crate::record::{Fork, Lost, Mapping, Program};
use crate::sample_fields::read_thread;
use cfi_read_core::{EndianSlice, Reader, Result, RunTimeEndian};

const PERF_RECORD_MISC_MMAP_DATA: u64 = 1 << 13;

const PERF_RECORD_MISC_MMAP_BUILD_ID: u64 = 1 << 14;

const PERF_RECORD_MISC_COMM_EXEC: u64 = 1 << 13;

const PROT_EXEC: u64 = 4;

/// What is mapped where.
#[derive(Clone, Copy, Debug, PartialEq, Eq)]
pub(crate) struct MappedRange {
    pub(crate) pid: u32,
    pub(crate) address: u64,
    pub(crate) length: u64,
    pub(crate) offset: u64,
}

/// Reads the fields of `PERF_RECORD_MMAP`.
#[tactic(auto, unfolding(crate::specs::Events::mapping))]
pub(crate) fn mapping(
    endian: RunTimeEndian,
    misc: u16,
    fields: &[u8],
) -> std::result::Result<Mapping<'_>, PerfError>
    ensures { map_ok mapping_record_view result ≡ mapping (is_big endian) misc fields.now }
{
    let mut input = EndianSlice::new(fields, endian);
    let Ok(range) = read_mapped_range(&mut input) else {
        return Err(PerfError::RecordCut);
    };
    let Some(name) = before_zero(bytes_from(fields, 32)) else {
        return Err(PerfError::RecordCut);
    };
    Ok(Mapping {
        pid: range.pid,
        address: range.address,
        length: range.length,
        offset: range.offset,
        is_executable: !has_any(PERF_RECORD_MISC_MMAP_DATA, u64::from(misc)),
        name,
        build_id: None,
    })
}

/// Reads the fields of `PERF_RECORD_MMAP2`.
#[tactic(auto, unfolding(crate::specs::Events::mapping2))]
pub(crate) fn mapping2(
    endian: RunTimeEndian,
    misc: u16,
    fields: &[u8],
) -> std::result::Result<Mapping<'_>, PerfError>
    ensures { map_ok mapping_record_view result ≡ mapping2 (is_big endian) misc fields.now }
{
    let mut input = EndianSlice::new(fields, endian);
    let Ok(range) = read_mapped_range(&mut input) else {
        return Err(PerfError::RecordCut);
    };
    let mut flags = EndianSlice::new(bytes_from(fields, 56), endian);
    let Ok(prot) = flags.read_u32() else {
        return Err(PerfError::RecordCut);
    };
    let Some(name) = before_zero(bytes_from(fields, 64)) else {
        return Err(PerfError::RecordCut);
    };
    Ok(Mapping {
        pid: range.pid,
        address: range.address,
        length: range.length,
        offset: range.offset,
        is_executable: has_any(PROT_EXEC, u64::from(prot)),
        name,
        build_id: own_build_id(misc, fields),
    })
}

/// The identification that `PERF_RECORD_MMAP2` has itself, if it has one.
fn own_build_id(misc: u16, fields: &[u8]) -> Option<&[u8]>
    ensures { option_map (λ id. id.now) result ≡ own_build_id misc fields.now }
{
    if has_any(PERF_RECORD_MISC_MMAP_BUILD_ID, u64::from(misc)) {
        counted_id(count_at(32, fields), bytes_from(fields, 36))
    } else {
        None
    }
}

/// Reads the fields that both records of mapped files begin with.
#[tactic(auto, unfolding(crate::specs::Events::mapped_range))]
fn read_mapped_range<R: Reader>(input: &mut R) -> Result<MappedRange>
    ensures { ReadsValue R.position mapped_range input.old result input.new }
{
    let pid = input.read_u32()?;
    let _tid = input.read_u32()?;
    let address = input.read_u64()?;
    let length = input.read_u64()?;
    let offset = input.read_u64()?;
    Ok(MappedRange {
        pid,
        address,
        length,
        offset,
    })
}

/// Reads the fields of `PERF_RECORD_COMM`.
#[tactic(auto, unfolding(crate::specs::Events::program))]
pub(crate) fn program(
    endian: RunTimeEndian,
    misc: u16,
    fields: &[u8],
) -> std::result::Result<Program<'_>, PerfError>
    ensures { map_ok program_view result ≡ program (is_big endian) misc fields.now }
{
    let mut input = EndianSlice::new(fields, endian);
    let Ok(thread) = read_thread(&mut input) else {
        return Err(PerfError::RecordCut);
    };
    let Some(name) = before_zero(bytes_from(fields, 8)) else {
        return Err(PerfError::RecordCut);
    };
    Ok(Program {
        pid: thread.pid,
        tid: thread.tid,
        name,
        is_exec: has_any(PERF_RECORD_MISC_COMM_EXEC, u64::from(misc)),
    })
}

/// Reads the fields of `PERF_RECORD_FORK` up to the thread that made the new one.
#[tactic(auto, unfolding(crate::specs::Events::fork))]
pub(crate) fn read_fork<R: Reader>(input: &mut R) -> Result<Fork>
    ensures { ReadsValue R.position fork input.old result input.new }
{
    let pid = input.read_u32()?;
    let parent = input.read_u32()?;
    let tid = input.read_u32()?;
    let parent_tid = input.read_u32()?;
    Ok(Fork {
        pid,
        parent,
        tid,
        parent_tid,
    })
}

/// Reads the fields of `PERF_RECORD_LOST`.
#[tactic(auto, unfolding(crate::specs::Events::lost))]
pub(crate) fn read_lost<R: Reader>(input: &mut R) -> Result<Lost>
    ensures { ReadsValue R.position lost input.old result input.new }
{
    let _id = input.read_u64()?;
    let records = input.read_u64()?;
    Ok(Lost {
        records,
        samples: 0,
    })
}

/// Reads the fields of `PERF_RECORD_LOST_SAMPLES`.
#[tactic(auto, unfolding(crate::specs::Events::lost_samples))]
pub(crate) fn read_lost_samples<R: Reader>(input: &mut R) -> Result<Lost>
    ensures { ReadsValue R.position lost_samples input.old result input.new }
{
    let samples = input.read_u64()?;
    Ok(Lost {
        records: 0,
        samples,
    })
}
