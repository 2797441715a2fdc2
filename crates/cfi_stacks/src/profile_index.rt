//! The index of a profile's records: where its samples are in the file, and the other records.
ghost use Rattle.std.specs.Prelude.{◌≡◌, ◌≢◌, ◌≤◌, ◌-◌, ◌∷◌, ◌++◌, ℕ, [], List, Ok, IfOk, IfSome};
ghost use Rattle.std.specs.Prelude.{OnOk, Option, length, map, min, option_map};
ghost use Rattle.std.specs.Prelude.{◌+◌, ◌^◌, true};
ghost use Rattle.std.specs.Option.{is_some};
ghost use Rattle.cfi_perf.specs.declared.windows.RecordWalk.{RecordWalk as RecordWalkOfCode};
ghost use Rattle.cfi_perf.specs.Events.{Record as RecordOfProfile};
ghost use Rattle.cfi_perf.specs.Events.{record_view};
ghost use Rattle.cfi_perf.specs.Indexes.{AreIndexed, IsOfBytes, kept_bytes, kept_of, place_for};
ghost use Rattle.cfi_perf.specs.Indexes.{places_of};
ghost use Rattle.cfi_perf.specs.Samples.{sample_view};
ghost use Rattle.cfi_perf.specs.Windows.{record_bytes_left, record_alone};
ghost use Rattle.cfi_mapped.specs.WantedFiles.{mapped_code_file, wanted_of};
ghost use Rattle.cfi_mapped.specs.Wanted.{wanted_view};
ghost use Rattle.cfi_stacks.specs.ProfileIndexes.{HasRecords, IsFoundOf, IsIndexOf, IsKernelFit};
ghost use Rattle.cfi_stacks.specs.ProfileIndexes.{IsNextIn, IsPieceOf, IsReadAt, IsRecordsPart};
ghost use Rattle.cfi_stacks.specs.ProfileIndexes.{IsTallyOf, IsToldOf, IsWholeOf, IsWindowIn};
ghost use Rattle.cfi_stacks.specs.ProfileIndexes.{Piece, kernel_after, record_of};
ghost use Rattle.cfi_stacks.specs.Turns.{sample_record};

use cfi_elf::bytes::part;
use cfi_mapped::file_list::FileList;
use cfi_mapped::wanted::WantedFile;
use cfi_mapped::wanted_files::{code_file, has_kernel_frames};
use cfi_object::input::FileInput;
use cfi_perf::{
    Event, Lost, PerfError, PlaceKind, Record, RecordIndex, RecordPlace, RecordWalk, Sample,
};
use cfi_text::reading::InputError;
use std::alloc::{AllocError, Global};

/// How many bytes a window has: few enough for the cache, and enough for several records.
const WINDOW: u64 = 1 << 18;

/// What the samples of a profile have, and what was lost of it.
#[derive(Clone, Copy, Debug)]
pub(crate) struct Tally {
    pub(crate) has_samples: bool,
    pub(crate) has_stacks: bool,
    pub(crate) lost_records: u64,
    pub(crate) lost_samples: u64,
}

/// The records of a profile in the order of their times. Its samples stay in the file.
#[derive(Drop)]
pub struct ProfileIndex<'p> {
    /// At the first record.
    pub(crate) walk: RecordWalk<'p>,
    pub(crate) records: RecordIndex,
    /// Where the first sample with frames of the kernel is, among the bytes of all records.
    pub(crate) kernel: Option<u64>,
    /// The error that ended the records.
    pub(crate) error: Option<PerfError>,
    pub(crate) tally: Tally,
}

/// Finds the records of a profile, of which a walk is at the first, and puts them into the order of
/// their times. Reads them by windows.
///
/// Fails with `Unreadable` where a read fails, and with `OutOfMemory`. Allocates for the places of
/// the records, for those that are no samples, and for a window.
pub(crate) fn index_records<'p, I: FileInput>(
    alloc: Global,
    walk: RecordWalk<'p>,
    input: &mut I,
) -> Result<ProfileIndex<'p>, InputError>
    requires { HasRecords (I.bytes input.old) walk }
    ensures indexed { IfOk result (λ index. (pieces : List Piece)
        × IsIndexOf (I.bytes input.old) index pieces) }
    ensures told { IfOk result (IsToldOf (I.bytes input.old)) }
    ensures walk { IfOk result (λ index. index.walk ≡ walk.entry) }
    ensures same { I.bytes input.new ≡ I.bytes input.old }
{
    let mut index = find_records(alloc, walk, input)?;
    match index.records.sort_by_time() {
        Ok(()) => Ok(index),
        Err(_) => Err(InputError::OutOfMemory),
    }
}

/// Finds the records in the order of the file.
fn find_records<'p, I: FileInput>(
    alloc: Global,
    walk: RecordWalk<'p>,
    input: &mut I,
) -> Result<ProfileIndex<'p>, InputError>
    requires { HasRecords (I.bytes input.old) walk }
    ensures found { IfOk result (λ index. (pieces : List Piece) × (rest : List ℕ)
        × IsWholeOf (I.bytes input.old) index pieces rest) }
    ensures walk { IfOk result (λ index. index.walk ≡ walk.entry) }
    ensures same { I.bytes input.new ≡ I.bytes input.old }
{
    let mut index = ProfileIndex::new(alloc, walk);
    let mut rest = walk;
    let mut window = Vec::new(alloc);
    let mut from = 0;
    for _ in 0..u64::MAX {
        if ((window.len() - from) as u64) < rest.needed() {
            let size = WINDOW.min(rest.left());
            window = read_bytes(alloc, &index.walk, index.passed(&rest), size, input)?;
            from = 0;
        }
        match index.take_next(&mut rest, &window[from..])? {
            Some(size) => from += size,
            None => return Ok(index),
        }
    }
    Err(InputError::Unreadable)
}

/// Reads a part of the bytes of all records.
fn read_bytes<I: FileInput>(
    alloc: Global,
    walk: &RecordWalk<'_>,
    offset: u64,
    size: u64,
    input: &mut I,
) -> Result<Vec<u8>, InputError>
    ensures read { IfOk result (λ part.
        IsRecordsPart (I.bytes input.old) walk.now offset size part.items) }
    ensures same { I.bytes input.new ≡ I.bytes input.old }
{
    match walk.place().checked_add(offset) {
        Some(place) => input.read_part(alloc, place, size),
        None => Err(InputError::Unreadable),
    }
}

impl<'p> ProfileIndex<'p> {
    /// Has no records yet.
    fn new(alloc: Global, walk: RecordWalk<'p>) -> Self
        ensures found { (known : Option (List ℕ)) → IsFoundOf known result walk.entry [] }
        ensures walk { result.walk ≡ walk.entry }
    {
        ProfileIndex {
            walk,
            records: RecordIndex::new(alloc),
            kernel: None,
            error: None,
            tally: Tally {
                has_samples: false,
                has_stacks: false,
                lost_records: 0,
                lost_samples: 0,
            },
        }
    }

    /// How many bytes of the records a walk has passed.
    fn passed(&self, walk: &RecordWalk<'_>) -> u64
        ensures { result ≡ record_bytes_left self.now.walk - record_bytes_left walk.now }
    {
        self.walk.left().saturating_sub(walk.left())
    }

    /// Adds the next record of a walk, by a window of its bytes, and returns how many of these it
    /// takes. `None` at the end, and where an error ends the records.
    fn take_next(
        &mut self,
        walk: &mut RecordWalk<'p>,
        window: &[u8],
    ) -> Result<Option<usize>, InputError>
        requires { min 65535 (record_bytes_left walk.old) ≤ length window.now }
        ensures next { IfOk result (λ taken. (known : Option (List ℕ)) (pieces : List Piece)
            → HasRecords known self.old.walk → IsFoundOf known self.old walk.old pieces
            → IsWindowIn known self.old walk.old pieces window.now
            → IsNextIn known self.new walk.new window.now taken) }
        ensures walk { self.new.walk ≡ self.old.walk }
        ensures within { IfOk result (λ taken. IfSome taken (λ size. size ≤ length window.now)) }
    {
        let offset = self.passed(walk);
        let left = walk.left();
        match walk.next(window) {
            Ok(Some(item)) => {
                let size = left.saturating_sub(walk.left()).min(window.len() as u64) as usize;
                match self.add(&item, offset, &window[..size]) {
                    Ok(()) => Ok(Some(size)),
                    Err(_) => Err(InputError::OutOfMemory),
                }
            }
            Ok(None) => Ok(None),
            Err(error) => {
                self.error = Some(error);
                Ok(None)
            }
        }
    }

    /// Adds a record, with its place among the bytes of all and its own bytes.
    fn add(&mut self, item: &Record<'_>, offset: u64, bytes: &[u8]) -> Result<(), AllocError>
        ensures indexed { OnOk result ((walk : RecordWalkOfCode) (all : List ℕ)
            (records : List RecordOfProfile) → AreIndexed walk all self.old.records records
            → IsOfBytes walk all (record_view item.now) offset bytes.now
            → AreIndexed walk all self.new.records (records ++ record_view item.now ∷ [])) }
        ensures places { OnOk result (places_of self.new.records ≡ places_of self.old.records
            ++ place_for (record_view item.now) offset (length bytes.now)
            (length (kept_of self.old.records)) ∷ []) }
        ensures kept { OnOk result (kept_of self.new.records
            ≡ kept_of self.old.records ++ kept_bytes (record_view item.now).event bytes.now) }
        ensures kernel { self.new.kernel
            ≡ kernel_after self.old.kernel offset (record_view item.now).event }
        ensures walk { self.new.walk ≡ self.old.walk }
        ensures error { self.new.error ≡ self.old.error }
        ensures tally { (records : List RecordOfProfile) → IsTallyOf self.old.tally records
            → IsTallyOf self.new.tally (records ++ record_view item.now ∷ []) }
    {
        self.tally.count(item);
        if self.kernel.is_none() && has_kernel_frames(item) {
            self.kernel = Some(offset);
        }
        self.records.push(item, offset, bytes)
    }

    /// The files that the executable mappings are of, each once, in the order of the records; and
    /// the kernel, if samples have frames of it.
    ///
    /// Fails with `OutOfMemory`. Allocates for the files.
    pub(crate) fn wanted_files(&self, alloc: Global) -> Result<Vec<WantedFile<'_>>, InputError>
        ensures { IfOk result (λ files. (known : Option (List ℕ)) (pieces : List Piece)
            → IsIndexOf known self.now pieces
            → map wanted_view files.items ≡ wanted_of (map record_of pieces)) }
    {
        let mut files = FileList::new(alloc);
        for place in self.records.places() {
            let file = self.code_file(place)?;
            if files.push(file).is_err() {
                return Err(InputError::OutOfMemory);
            }
        }
        Ok(files.into_list())
    }

    /// The file that the record at a place says is mapped as code.
    fn code_file(&self, place: &RecordPlace) -> Result<Option<WantedFile<'_>>, InputError>
        ensures { IfOk result (λ file. (known : Option (List ℕ)) (piece : Piece)
            → IsPieceOf known self.now.walk (kept_of self.now.records) piece
            → piece.place ≡ place.now
            → option_map wanted_view file
            ≡ mapped_code_file (is_some self.now.kernel) piece.found.event) }
    {
        match place.kind {
            PlaceKind::InFile => Ok(None),
            _ => match self.other_at(place) {
                Ok(item) => Ok(code_file(self.kernel.is_some(), &item)),
                Err(error) => Err(error),
            },
        }
    }

    /// The record at a place that isn't in the file, which is no sample.
    pub(crate) fn other_at(&self, place: &RecordPlace) -> Result<Record<'_>, InputError>
        ensures { IfOk result (λ item. (known : Option (List ℕ))
            → place.now.kind ≢ PlaceKind.InFile
            → IsReadAt known self.now place.now (record_view item)) }
    {
        match place.kind {
            PlaceKind::Nothing => Ok(Record {
                time: place.time,
                event: Event::Other,
            }),
            _ => match part(self.records.kept(), place.offset, place.size) {
                Some(bytes) => self.read_kept(bytes),
                None => Err(InputError::Unreadable),
            },
        }
    }

    /// Reads a record again whose bytes were kept.
    fn read_kept<'s>(&'s self, bytes: &'s [u8]) -> Result<Record<'s>, InputError>
        ensures { IfOk result (λ item. record_alone self.now.walk bytes.now
            ≡ Ok (record_view item)) }
    {
        match self.walk.read_again(bytes) {
            Ok(item) => Ok(item),
            Err(_) => Err(InputError::Unreadable),
        }
    }

    /// Reads the bytes of a sample, which are in the file. Allocates for them.
    pub(crate) fn sample_bytes<I: FileInput>(
        &self,
        alloc: Global,
        place: &RecordPlace,
        input: &mut I,
    ) -> Result<Vec<u8>, InputError>
        ensures read { IfOk result (λ part. IsRecordsPart (I.bytes input.old) self.now.walk
            place.now.offset place.now.size part.items) }
        ensures same { I.bytes input.new ≡ I.bytes input.old }
    {
        read_bytes(alloc, &self.walk, place.offset, place.size, input)
    }

    /// The sample at a place, by its bytes; `None` where these are none, or one of another time or
    /// with other frames of the kernel, as after the file was changed.
    pub(crate) fn sample_at<'b>(&self, place: &RecordPlace, bytes: &'b [u8]) -> Option<Sample<'b>>
    where
        'p: 'b,
        ensures { IfSome result (λ sample. (known : Option (List ℕ))
            → IsRecordsPart known self.now.walk place.now.offset place.now.size bytes.now
            → place.now.kind ≡ PlaceKind.InFile
            → IsReadAt known self.now place.now
            (sample_record place.now.time (sample_view sample))) }
    {
        let Ok(item) = self.walk.read_again(bytes) else {
            return None;
        };
        match item.event {
            Event::Sample(sample) => {
                if item.time == place.time && self.is_kernel_fit(place.offset, &item) {
                    Some(sample)
                } else {
                    None
                }
            }
            _ => None,
        }
    }

    /// Whether a sample may be at this place: the first with frames of the kernel has some, and
    /// where there is none no sample has.
    fn is_kernel_fit(&self, offset: u64, item: &Record<'_>) -> bool
        ensures { result ≡ true
            → IsKernelFit self.now.kernel offset (record_view item.now).event }
    {
        match self.kernel {
            None => !has_kernel_frames(item),
            Some(first) => offset != first || has_kernel_frames(item),
        }
    }
}

impl Tally {
    /// Counts a record.
    fn count(&mut self, item: &Record<'_>)
        ensures { (records : List RecordOfProfile) → IsTallyOf self.old records
            → IsTallyOf self.new (records ++ record_view item.now ∷ []) }
    {
        match item.event {
            Event::Sample(sample) => {
                self.has_samples = true;
                self.has_stacks = self.has_stacks || sample.copies_stack;
            }
            Event::Lost(lost) => self.lose(&lost),
            _ => {}
        }
    }

    /// Counts what was lost.
    fn lose(&mut self, lost: &Lost)
        ensures records { self.new.lost_records
            ≡ min (self.old.lost_records + lost.now.records) (2 ^ 64 - 1) }
        ensures samples { self.new.lost_samples
            ≡ min (self.old.lost_samples + lost.now.samples) (2 ^ 64 - 1) }
        ensures has_samples { self.new.has_samples ≡ self.old.has_samples }
        ensures has_stacks { self.new.has_stacks ≡ self.old.has_stacks }
    {
        self.lost_records = self.lost_records.saturating_add(lost.records);
        self.lost_samples = self.lost_samples.saturating_add(lost.samples);
    }
}
