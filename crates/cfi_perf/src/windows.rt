//! The records of a profile whose bytes are read by parts: each by a window, the bytes that the
//! caller has of those that are left.
ghost use Rattle.std.specs.Prelude.{◌≡◌, ◌⊎◌, ◌≤◌, ◌-◌, ◌++◌, ℕ, List, IfOk, Some, drop};
ghost use Rattle.std.specs.Prelude.{length, min, option_map, take};
ghost use Rattle.cfi_read_core.specs.ByteOrder.{is_big};
ghost use Rattle.cfi_read_core.specs.ReaderCalls.{map_ok};
ghost use Rattle.cfi_perf.specs.EventTables.{event_table_view};
ghost use Rattle.cfi_perf.specs.Events.{OtherEvent, record_view};
ghost use Rattle.cfi_perf.specs.RecordFrames.{HasUncounted, after_record};
ghost use Rattle.cfi_perf.specs.Records.{IsNextRecord, first_record};
ghost use Rattle.cfi_perf.specs.Records.{no_records};
ghost use Rattle.cfi_perf.specs.Records.{records_of, until_cut};
ghost use Rattle.cfi_perf.specs.RecordFrames.{split_record};
ghost use Rattle.cfi_perf.specs.Windows.{IsAlone, ReadsOn, IsWindow, PassesWithin};
ghost use Rattle.cfi_perf.specs.Windows.{record_bytes_left};
ghost use Rattle.cfi_perf.specs.Windows.{first_of_window, frame_of_window, bytes_passed};
ghost use Rattle.cfi_perf.specs.Windows.{next_place, record_alone};
ghost use Rattle.cfi_perf.specs.Windows.{records_in};

use crate::bytes::part;
use crate::error::PerfError;
use crate::event_table::EventTable;
use crate::record::Record;
use crate::record_frame::{RecordHeader, read_record_header, uncounted_size};
use crate::record_types::record_of;
use crate::records::{end_error, first_record};
use cfi_read_core::{EndianSlice, Reader, RunTimeEndian};

/// The greatest size of a record, in bytes.
const GREATEST_SIZE: u64 = 65535;

/// A walk over the records of a profile whose bytes are read by parts, in the order of the file.
/// For each record the caller gives a window: bytes from the place of the record on. After an error
/// or the end there is nothing more.
#[derive(Clone, Copy, Debug)]
pub struct RecordWalk<'input> {
    events: EventTable<'input>,
    endian: RunTimeEndian,
    /// Where the records end in the file.
    end: u64,
    /// How many of their bytes are left.
    left: u64,
    /// Whether the file ends before the records do.
    is_cut: bool,
}

impl<'input> RecordWalk<'input> {
    /// Over the records of which so many bytes are left, which end at this place of the file.
    #[inline(always)]
    pub(crate) fn new(
        events: EventTable<'input>,
        endian: RunTimeEndian,
        end: u64,
        left: u64,
        is_cut: bool,
    ) -> Self
        ensures records { (bytes : List ℕ) → records_in result bytes ≡ until_cut is_cut
            (records_of (event_table_view events.entry) (is_big endian) bytes) }
        ensures left { record_bytes_left result ≡ left }
        ensures place { next_place result ≡ end - left }
    {
        RecordWalk {
            events,
            endian,
            end,
            left,
            is_cut,
        }
    }

    /// How many bytes the records have that were not passed; 0 after an error.
    #[inline(always)]
    pub fn left(&self) -> u64
        ensures { result ≡ record_bytes_left self.now }
    {
        self.left
    }

    /// Where the next record is in the file.
    #[inline(always)]
    pub fn place(&self) -> u64
        ensures { result ≡ next_place self.now }
    {
        self.end.saturating_sub(self.left)
    }

    /// How many bytes the next window has at least: all that are left, or as many as a record has
    /// at most.
    #[inline(always)]
    pub fn needed(&self) -> u64
        ensures { result ≡ min 65535 (record_bytes_left self.now) }
    {
        GREATEST_SIZE.min(self.left)
    }

    /// Returns the next record, by a window that begins at its place, or `None` at the end. The
    /// bytes that `left` is less by are the record's own: they are all in the window, but of an
    /// `Event::Other`, after which may be bytes that its size doesn't count.
    ///
    /// Fails as `Records::next` does. Does not allocate.
    pub fn next<'w>(&mut self, window: &'w [u8]) -> Result<Option<Record<'w>>, PerfError>
    where
        'input: 'w,
        ensures met { (others : List ℕ) → IsWindow window.now others (record_bytes_left self.old)
            → IsNextRecord (map_ok (option_map record_view) result)
            (records_in self.old (window.now ++ others))
            (records_in self.new (drop (bytes_passed self.old self.new) (window.now ++ others))) }
        ensures alone { (others : List ℕ) → IsWindow window.now others (record_bytes_left self.old)
            → IsAlone self.old (take (bytes_passed self.old self.new) (window.now ++ others))
            (map_ok (option_map record_view) result) }
        ensures within { PassesWithin (bytes_passed self.old self.new) (length window.now)
            (map_ok (option_map record_view) result) }
        ensures fewer { record_bytes_left self.new ≤ record_bytes_left self.old }
        ensures same { (bytes : List ℕ)
            → record_alone self.new bytes ≡ record_alone self.old bytes }
        ensures walk { ReadsOn self.old self.new (map_ok (option_map record_view) result) }
    {
        if self.left == 0 {
            if self.is_cut {
                self.is_cut = false;
                return Err(PerfError::DataOutOfBounds);
            }
            return Ok(None);
        }
        match first_in_window(&self.events, self.endian, window, self.left) {
            Ok(found) => {
                self.left = self.left.saturating_sub(found.size);
                Ok(Some(found.first))
            }
            Err(error) => {
                let error = end_error(self.is_cut, error);
                self.left = 0;
                self.is_cut = false;
                Err(error)
            }
        }
    }

    /// Reads a record again that `next` has returned, by its own bytes alone.
    ///
    /// Fails as `Records::next` does, and with `RecordCut` where bytes follow the record. Does not
    /// allocate.
    pub fn read_again<'w>(&self, bytes: &'w [u8]) -> Result<Record<'w>, PerfError>
    where
        'input: 'w,
        ensures { map_ok record_view result ≡ record_alone self.now bytes.now }
    {
        let found = first_record(&self.events, self.endian, bytes)?;
        if found.others.is_empty() {
            Ok(found.first)
        } else {
            Err(PerfError::RecordCut)
        }
    }
}

/// A record's header, its other bytes, and how many bytes it takes, with those after it that
/// its size doesn't count.
#[derive(Clone, Copy, Debug)]
pub(crate) struct FramedIn<'w> {
    pub(crate) header: RecordHeader,
    pub(crate) body: &'w [u8],
    pub(crate) size: u64,
}

/// The first record, and how many bytes it takes, with those that its size doesn't count.
#[derive(Clone, Copy, Debug)]
pub(crate) struct FirstIn<'w> {
    pub(crate) first: Record<'w>,
    pub(crate) size: u64,
}

/// Reads the first record of the bytes that are left, by a window of them.
fn first_in_window<'w>(
    events: &EventTable<'w>,
    endian: RunTimeEndian,
    window: &'w [u8],
    left: u64,
) -> Result<FirstIn<'w>, PerfError>
    ensures first { (others : List ℕ) → IsWindow window.now others left
        → map_ok (first_of_window (window.now ++ others)) result
        ≡ first_record (event_table_view events.now) (is_big endian) (window.now ++ others) }
    ensures within { IfOk result (λ found.
        ((record_view found.first).event ≡ OtherEvent) ⊎ (found.size ≤ length window.now)) }
{
    let found = split_window(endian, window, left)?;
    let first = record_of(events, endian, &found.header, found.body)?;
    Ok(FirstIn {
        first,
        size: found.size,
    })
}

/// Splits the first record off the bytes that are left, by a window of them.
fn split_window(endian: RunTimeEndian, window: &[u8], left: u64) -> Result<FramedIn<'_>, PerfError>
    ensures framed { (others : List ℕ) → IsWindow window.now others left
        → map_ok (frame_of_window (window.now ++ others)) result
        ≡ split_record (is_big endian) (window.now ++ others) }
    ensures within { IfOk result (λ found.
        HasUncounted found.header.kind ⊎ (found.size ≤ length window.now)) }
{
    let mut input = EndianSlice::new(window, endian);
    let Ok(header) = read_record_header(&mut input) else {
        return Err(PerfError::RecordCut);
    };
    let size = u64::from(header.size);
    if size < 8 {
        return Err(PerfError::RecordSize(header.size));
    }
    let Some(body) = part(window, 8, size - 8) else {
        return Err(PerfError::RecordCut);
    };
    let more = size_after(endian, &header, body, left.saturating_sub(size))?;
    Ok(FramedIn {
        header,
        body,
        size: size + more,
    })
}

/// How many bytes stand between a record and the next, of so many after it.
fn size_after(
    endian: RunTimeEndian,
    header: &RecordHeader,
    body: &[u8],
    after: u64,
) -> Result<u64, PerfError>
    ensures others { (others : List ℕ) → length others ≡ after
        → map_ok (λ size. drop size others) result
        ≡ after_record (is_big endian) header.now body.now others }
    ensures within { IfOk result (λ size. size ≤ after) }
    ensures none { IfOk result (λ size. HasUncounted header.now.kind ⊎ (size ≡ 0)) }
{
    let size = uncounted_size(endian, header, body)?;
    if after < size {
        return Err(PerfError::RecordCut);
    }
    Ok(size)
}
