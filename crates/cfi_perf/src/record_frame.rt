//! Records as frames: a header, other bytes, and what follows (perf_event_open(2),
//! `struct perf_event_header`).
ghost use Rattle.std.specs.Prelude.{◌≡◌, ◌⊎◌, IfOk};
ghost use Rattle.cfi_read_core.specs.ByteOrder.{is_big};
ghost use Rattle.cfi_read_core.specs.ReaderCalls.{ReadsValue, map_ok};
ghost use Rattle.cfi_perf.specs.RecordFrames.{HasUncounted, after_record, descriptions_size};
ghost use Rattle.cfi_perf.specs.RecordFrames.{trace_size};
ghost use Rattle.cfi_perf.specs.RecordFrames.{uncounted_size, framed_view, split_record};
ghost use Rattle.cfi_perf.specs.RecordFrames.{record_header};

use crate::bytes::{bytes_from, part};
use crate::error::PerfError;
use cfi_read_core::{EndianSlice, Reader, RunTimeEndian};

/// After it stand the descriptions of tracepoints.
const PERF_RECORD_HEADER_TRACING_DATA: u32 = 66;

/// After it stands a trace.
const PERF_RECORD_AUXTRACE: u32 = 71;

/// The size of a record's header.
const HEADER_SIZE: u16 = 8;

/// A record's header.
#[derive(Clone, Copy, Debug, PartialEq, Eq)]
pub(crate) struct RecordHeader {
    /// What the record is (`type`).
    pub(crate) kind: u32,
    pub(crate) misc: u16,
    /// The size of the record, in bytes.
    pub(crate) size: u16,
}

/// A record's header, its other bytes, and the bytes that follow.
#[derive(Clone, Copy, Debug)]
pub(crate) struct Framed<'input> {
    pub(crate) header: RecordHeader,
    pub(crate) body: &'input [u8],
    pub(crate) others: &'input [u8],
}

/// Splits the first record off.
#[tactic(auto, unfolding(crate::specs::RecordFrames::split_record))]
pub(crate) fn split_record(endian: RunTimeEndian, bytes: &[u8]) -> Result<Framed<'_>, PerfError>
    ensures { map_ok framed_view result ≡ split_record (is_big endian) bytes.now }
{
    let mut input = EndianSlice::new(bytes, endian);
    let Ok(header) = read_record_header(&mut input) else {
        return Err(PerfError::RecordCut);
    };
    if header.size < HEADER_SIZE {
        return Err(PerfError::RecordSize(header.size));
    }
    let Some(body) = part(bytes, 8, u64::from(header.size - HEADER_SIZE)) else {
        return Err(PerfError::RecordCut);
    };
    let after = bytes_from(bytes, u64::from(header.size));
    let others = after_record(endian, &header, body, after)?;
    Ok(Framed {
        header,
        body,
        others,
    })
}

/// Reads the type, the flags and the size of a record.
#[tactic(auto, unfolding(crate::specs::RecordFrames::record_header))]
pub(crate) fn read_record_header<R: Reader>(input: &mut R) -> cfi_read_core::Result<RecordHeader>
    ensures { ReadsValue R.position record_header input.old result input.new }
{
    let kind = input.read_u32()?;
    let misc = input.read_u16()?;
    let size = input.read_u16()?;
    Ok(RecordHeader { kind, misc, size })
}

/// What follows a record, and what stands between it and the next.
fn after_record<'input>(
    endian: RunTimeEndian,
    header: &RecordHeader,
    body: &[u8],
    after: &'input [u8],
) -> Result<&'input [u8], PerfError>
    ensures { map_ok (λ others. others.now) result
        ≡ after_record (is_big endian) header.now body.now after.now }
{
    let size = uncounted_size(endian, header, body)?;
    if (after.len() as u64) < size {
        return Err(PerfError::RecordCut);
    }
    Ok(bytes_from(after, size))
}

/// How many bytes stand between a record and the next: those of a trace, or of the descriptions of
/// tracepoints, of which it tells. Fails with `RecordCut`.
pub(crate) fn uncounted_size(
    endian: RunTimeEndian,
    header: &RecordHeader,
    body: &[u8],
) -> Result<u64, PerfError>
    ensures size { result ≡ uncounted_size (is_big endian) header.now body.now }
    ensures none { IfOk result (λ size. HasUncounted header.now.kind ⊎ (size ≡ 0)) }
{
    if header.kind == PERF_RECORD_AUXTRACE {
        return trace_size(endian, body);
    }
    if header.kind == PERF_RECORD_HEADER_TRACING_DATA {
        return descriptions_size(endian, body);
    }
    Ok(0)
}

/// The size of a trace. Fails with `RecordCut`.
fn trace_size(endian: RunTimeEndian, body: &[u8]) -> Result<u64, PerfError>
    ensures { result ≡ trace_size (is_big endian) body.now }
{
    let mut input = EndianSlice::new(body, endian);
    match input.read_u64() {
        Ok(size) => Ok(size),
        Err(_) => Err(PerfError::RecordCut),
    }
}

/// The size of descriptions of tracepoints. Fails with `RecordCut`.
fn descriptions_size(endian: RunTimeEndian, body: &[u8]) -> Result<u64, PerfError>
    ensures { result ≡ descriptions_size (is_big endian) body.now }
{
    let mut input = EndianSlice::new(body, endian);
    match input.read_u32() {
        Ok(size) => Ok(u64::from(size)),
        Err(_) => Err(PerfError::RecordCut),
    }
}
