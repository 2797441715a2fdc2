//! The records of a profile, one after the other.
ghost use Rattle.std.specs.Prelude.{◌≡◌, Some, ⊤, option_map};
ghost use Rattle.cfi_read_core.specs.ByteOrder.{is_big};
ghost use Rattle.cfi_read_core.specs.ReaderCalls.{map_ok};
ghost use Rattle.cfi_perf.specs.EventTables.{event_table_view};
ghost use Rattle.cfi_perf.specs.Events.{record_view};
ghost use Rattle.cfi_perf.specs.Records.{IsNextRecord, first_record, no_records, until_cut};
ghost use Rattle.cfi_perf.specs.Records.{first_record_view};
ghost use Rattle.cfi_perf.specs.Records.{records_left, records_of};

use crate::error::PerfError;
use crate::event_table::EventTable;
use crate::record::{Event, Record};
use crate::record_frame::split_record;
use crate::record_types::record_of;
use cfi_read_core::RunTimeEndian;
use std::alloc::AllocError;

/// An iterator over the records of a profile, in the order of the file. After an error or the end
/// it returns nothing more.
#[derive(Copy, Debug)]
pub struct Records<'input> {
    bytes: &'input [u8],
    endian: RunTimeEndian,
    events: EventTable<'input>,
    /// Whether the file ends before the records do.
    is_cut: bool,
}

impl Clone for Records<'_> {
    ghost is_clone = { λ x y. y ≡ x };

    ghost is_infallible = { λ _. ⊤ };

    #[inline(always)]
    fn clone(&self) -> std::result::Result<Self, AllocError> {
        Ok(*self)
    }
}

impl<'input> Records<'input> {
    /// The records of these bytes, after which there are more if they are cut.
    #[inline(always)]
    pub(crate) fn new(
        bytes: &'input [u8],
        endian: RunTimeEndian,
        events: EventTable<'input>,
        is_cut: bool,
    ) -> Self
        ensures { records_left result ≡ until_cut is_cut
            (records_of (event_table_view events.entry) (is_big endian) bytes.now) }
    {
        Records {
            bytes,
            endian,
            events,
            is_cut,
        }
    }

    /// Returns the next record, or `None` at the end. A record of a type that isn't an `Event` is
    /// `Event::Other`, and so is a sample of none of the profile's events.
    ///
    /// Fails with `RecordSize` where a record is smaller than its header, with `RecordCut` where it
    /// goes past the end of the records or its fields past its own, with `Compressed`, and with
    /// `DataOutOfBounds` where the file ends before the records do, also within one. After an error
    /// it returns `None`. Does not allocate.
    pub fn next(&mut self) -> Result<Option<Record<'input>>, PerfError>
        ensures { IsNextRecord (map_ok (option_map record_view) result)
            (records_left self.old) (records_left self.new) }
    {
        if self.bytes.is_empty() {
            if self.is_cut {
                self.is_cut = false;
                return Err(PerfError::DataOutOfBounds);
            }
            return Ok(None);
        }
        match first_record(&self.events, self.endian, self.bytes) {
            Ok(found) => {
                self.bytes = found.others;
                Ok(Some(found.first))
            }
            Err(error) => {
                let error = end_error(self.is_cut, error);
                self.bytes = &[];
                self.is_cut = false;
                Err(error)
            }
        }
    }
}

impl<'input> Iterator for Records<'input> {
    ghost use Rattle.std.specs.Iterator.{YieldsFirstBy, item_count};
    ghost use Rattle.cfi_perf.specs.Records.{record_items};

    type Item = Result<Record<'input>, PerfError>;

    ghost next_gives = { YieldsFirstBy (map_ok record_view)
        (λ walk. record_items (records_left walk)) };

    ghost remaining = { item_count (λ walk. record_items (records_left walk)) };

    #[inline(always)]
    fn next(&mut self) -> Option<Result<Record<'input>, PerfError>> {
        Records::next(self).transpose()
    }
}

/// The first record, and the bytes that follow.
#[derive(Clone, Copy, Debug)]
pub(crate) struct First<'input> {
    pub(crate) first: Record<'input>,
    pub(crate) others: &'input [u8],
}

/// Reads the first record of these bytes.
#[tactic(auto, unfolding(crate::specs::Records::first_record))]
pub(crate) fn first_record<'input>(
    events: &EventTable<'input>,
    endian: RunTimeEndian,
    bytes: &'input [u8],
) -> Result<First<'input>, PerfError>
    ensures { map_ok first_record_view result ≡ first_record (event_table_view events.now)
        (is_big endian) bytes.now }
{
    let found = split_record(endian, bytes)?;
    let first = record_of(events, endian, &found.header, found.body)?;
    Ok(First {
        first,
        others: found.others,
    })
}

/// The error that ends the records where one of them has this.
pub(crate) fn end_error(is_cut: bool, error: PerfError) -> PerfError
    ensures { Some result ≡ (until_cut is_cut (no_records (Some error))).error }
{
    match error {
        PerfError::RecordCut if is_cut => PerfError::DataOutOfBounds,
        _ => error,
    }
}
