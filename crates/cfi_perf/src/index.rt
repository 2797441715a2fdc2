//! The places of a profile's records: samples stay in the file, and the bytes of other records are
//! kept.
ghost use Rattle.std.specs.Prelude.{◌≡◌, ◌∷◌, ◌++◌, ℕ, [], List, OnOk, length};
ghost use Rattle.std.specs.List.Sorted.{IsPermutation, IsSortedByKey};
ghost use Rattle.std.specs.Ordering.{nat_cmp};
ghost use Rattle.cfi_perf.specs.declared.windows.RecordWalk.{RecordWalk};
ghost use Rattle.cfi_perf.specs.Events.{Record as RecordOfProfile};
ghost use Rattle.cfi_perf.specs.Events.{record_view};
ghost use Rattle.cfi_perf.specs.Indexes.{AreIndexed, AreIndexedSorted, IsOfBytes, kept_bytes};
ghost use Rattle.cfi_perf.specs.Indexes.{kept_of, place_for, places_of};

use crate::record::{Event, Record};
use std::alloc::{AllocError, Global};

/// Where the bytes of a record are.
#[derive(Clone, Copy, Debug, PartialEq, Eq)]
pub enum PlaceKind {
    /// In the file: the record is a sample.
    InFile,
    /// Among those that are kept.
    Kept,
    /// Nowhere: the record is `Event::Other`.
    Nothing,
}

/// Where a record is, and when it was made.
#[derive(Clone, Copy, Debug)]
pub struct RecordPlace {
    /// When it was made, as `Record` has it.
    pub time: u64,
    /// The place of its first byte: among the bytes of all records, or those that are kept.
    pub offset: u64,
    /// How many bytes it has.
    pub size: u64,
    /// Where its bytes are.
    pub kind: PlaceKind,
}

/// The places of a profile's records, and the bytes of all but its samples.
#[derive(Drop)]
pub struct RecordIndex {
    places: Vec<RecordPlace>,
    kept: Vec<u8>,
}

impl RecordIndex {
    /// There are none. Does not allocate.
    pub fn new(alloc: Global) -> Self
        ensures indexed { (walk : RecordWalk) (all : List ℕ) → AreIndexed walk all result [] }
        ensures kept { kept_of result ≡ [] }
    {
        RecordIndex {
            places: Vec::new(alloc),
            kept: Vec::new(alloc),
        }
    }

    /// The places, in the order in which the records were added. Does not allocate.
    pub fn places(&self) -> &[RecordPlace]
        ensures { result.now ≡ places_of self.now }
    {
        self.places.as_slice()
    }

    /// The bytes that are kept. Does not allocate.
    pub fn kept(&self) -> &[u8]
        ensures { result.now ≡ kept_of self.now }
    {
        self.kept.as_slice()
    }

    /// Adds a record that `RecordWalk::next` has returned, with its place among the bytes of all
    /// records and its own bytes; of one that is `Event::Other` any bytes. Keeps these unless it is
    /// a sample or `Event::Other`.
    ///
    /// Fails where memory is refused.
    pub fn push(&mut self, item: &Record<'_>, offset: u64, bytes: &[u8]) -> Result<(), AllocError>
        ensures indexed { OnOk result ((walk : RecordWalk) (all : List ℕ)
            (records : List RecordOfProfile) → AreIndexed walk all self.old records
            → IsOfBytes walk all (record_view item.now) offset bytes.now
            → AreIndexed walk all self.new (records ++ record_view item.now ∷ [])) }
        ensures places { OnOk result (places_of self.new ≡ places_of self.old
            ++ place_for (record_view item.now) offset (length bytes.now)
            (length (kept_of self.old)) ∷ []) }
        ensures kept { OnOk result (kept_of self.new
            ≡ kept_of self.old ++ kept_bytes (record_view item.now).event bytes.now) }
    {
        match item.event {
            Event::Sample(_) => self.push_place(item.time, offset, bytes, PlaceKind::InFile),
            Event::Other => self.push_place(item.time, offset, bytes, PlaceKind::Nothing),
            _ => self.keep(item.time, bytes),
        }
    }

    /// Sorts the places by time; those of one time stay in their order. Fails where memory is
    /// refused.
    pub fn sort_by_time(&mut self) -> Result<(), AllocError>
        ensures indexed { OnOk result ((walk : RecordWalk) (all : List ℕ)
            (records : List RecordOfProfile) → AreIndexed walk all self.old records
            → AreIndexedSorted walk all self.new records) }
        ensures moved { IsPermutation (places_of self.old) (places_of self.new) }
        ensures by_time { OnOk result
            (IsSortedByKey (λ p. p.time) nat_cmp (places_of self.new)) }
        ensures kept { kept_of self.new ≡ kept_of self.old }
    {
        self.places.sort_by_key(|place| place.time)?;
        Ok(())
    }

    /// Adds a place.
    fn push_place(
        &mut self,
        time: u64,
        offset: u64,
        bytes: &[u8],
        kind: PlaceKind,
    ) -> Result<(), AllocError>
        ensures places { OnOk result (self.new.places.items ≡ self.old.places.items
            ++ record { time = time; offset = offset; size = length bytes.now; kind = kind } ∷ []) }
        ensures kept { OnOk result (self.new.kept.items ≡ self.old.kept.items) }
    {
        self.places.push(RecordPlace {
            time,
            offset,
            size: bytes.len() as u64,
            kind,
        })?;
        Ok(())
    }

    /// Keeps the bytes of a record, and adds their place.
    fn keep(&mut self, time: u64, bytes: &[u8]) -> Result<(), AllocError>
        ensures places { OnOk result (self.new.places.items ≡ self.old.places.items
            ++ record {
              time = time;
              offset = length self.old.kept.items;
              size = length bytes.now;
              kind = PlaceKind.Kept;
            } ∷ []) }
        ensures kept { OnOk result (self.new.kept.items ≡ self.old.kept.items ++ bytes.now) }
    {
        let offset = self.kept.len() as u64;
        self.kept.extend_from_slice(bytes)?;
        self.push_place(time, offset, bytes, PlaceKind::Kept)
    }
}
