//! A profile, by its header (`perf.data-file-format.txt`).
ghost use Rattle.std.specs.Prelude.{◌≡◌, ◌-◌, ℕ, List, option_map};
ghost use Rattle.cfi_read_core.specs.ReaderCalls.{map_ok};
ghost use Rattle.cfi_perf.specs.EventTables.{event_table_view};
ghost use Rattle.cfi_perf.specs.FileHeaders.{records_section};
ghost use Rattle.cfi_perf.specs.Profiles.{architecture, file_profile, pipe_profile};
ghost use Rattle.cfi_perf.specs.ProfileHeads.{head_view};
ghost use Rattle.cfi_perf.specs.Profiles.{profile, profile_records};
ghost use Rattle.cfi_perf.specs.Profiles.{profile_view, records_by, records_place};
ghost use Rattle.cfi_perf.specs.ProfilesAround.{IsAround, IsProfileAround, profile_around};
ghost use Rattle.cfi_perf.specs.Records.{records_left};
ghost use Rattle.cfi_perf.specs.Windows.{record_bytes_left, next_place, records_in};

use crate::around::head_around;
use crate::bytes::{bytes_from, first_bytes};
use crate::error::PerfError;
use crate::event_section::events_by;
use crate::event_table::EventTable;
use crate::file_bytes::FileBytes;
use crate::file_header::{PIPE_HEADER_SIZE, byte_order, file_header};
use crate::layout::EventLayout;
use crate::pipe::{is_pipe, pipe_head};
use crate::records::Records;
use crate::sections::Sections;
use crate::windows::RecordWalk;
use cfi_read_core::RunTimeEndian;

/// What a profile says before its records: all that is needed to read them.
#[derive(Clone, Copy, Debug)]
pub struct ProfileHead<'input> {
    endian: RunTimeEndian,
    events: EventTable<'input>,
    architecture: Result<Option<&'input [u8]>, PerfError>,
    /// Where the records end in the file.
    end: u64,
    /// How many bytes of them are there.
    size: u64,
    is_cut: bool,
}

impl<'input> ProfileHead<'input> {
    /// Of its parts.
    pub(crate) fn new(
        endian: RunTimeEndian,
        events: EventTable<'input>,
        architecture: Result<Option<&'input [u8]>, PerfError>,
        end: u64,
        size: u64,
        is_cut: bool,
    ) -> Self
        ensures { head_view result ≡ record {
          endian = endian;
          events = event_table_view events.entry;
          architecture = map_ok (option_map (λ name. name.now)) architecture.entry;
          place = end - size;
          size = size;
          is_cut = is_cut;
        } }
    {
        ProfileHead {
            endian,
            events,
            architecture,
            end,
            size,
            is_cut,
        }
    }

    /// The byte order of the machine on which it was recorded.
    #[inline(always)]
    pub fn endian(&self) -> RunTimeEndian
        ensures { result ≡ (head_view self.now).endian }
    {
        self.endian
    }

    /// What the samples and the other records of the first event have in them.
    #[inline(always)]
    pub fn layout(&self) -> EventLayout
        ensures { result ≡ (head_view self.now).events.first.layout }
    {
        self.events.first.layout
    }

    /// Whether the file ends before the records do, as after a disk was full. Then what stands
    /// after the records is lost too.
    #[inline(always)]
    pub fn is_cut(&self) -> bool
        ensures { result ≡ (head_view self.now).is_cut }
    {
        self.is_cut
    }

    /// The name of the machine's architecture, as `uname -m` prints it (`HEADER_ARCH`). Of a
    /// profile that is cut it is that of x86-64 or AArch64, if the registers of its first event are
    /// those of one of them. Returns `None` where the profile doesn't say.
    ///
    /// Fails with `FeatureOutOfBounds` where the name or its place go past the end of the file, or
    /// no zero ends the name. Does not allocate.
    #[inline(always)]
    pub fn architecture(&self) -> Result<Option<&'input [u8]>, PerfError>
        ensures { map_ok (option_map (λ name. name.now)) result
            ≡ (head_view self.now).architecture }
    {
        self.architecture
    }

    /// A walk over the records, for those who read the bytes of the file by parts. Does not
    /// allocate.
    pub fn walk(&self) -> RecordWalk<'input>
        ensures records { (bytes : List ℕ)
            → records_in result bytes ≡ records_by (head_view self.now) bytes }
        ensures left { record_bytes_left result ≡ (head_view self.now).size }
        ensures place { next_place result ≡ (head_view self.now).place }
    {
        RecordWalk::new(self.events, self.endian, self.end, self.size, self.is_cut)
    }
}

/// A profile that `perf record` wrote, in either byte order. The bytes are borrowed, not copied.
#[derive(Clone, Copy, Debug)]
pub struct Profile<'input> {
    head: ProfileHead<'input>,
    records: &'input [u8],
}

impl<'input> Profile<'input> {
    /// Reads the header of the profile that these bytes are, and its events; of one that was
    /// written to a pipe, the records that say what these do. The records are read one by one, by
    /// the iterator that `records` returns.
    ///
    /// Fails with `NotPerf`, `HeaderCut` or `HeaderSize` for the header, with `Directory` where the
    /// samples are in other files, with `AttributeSize`, `AttributesOutOfBounds`, `NoEvents`,
    /// `MixedEvents` or, of a pipe, `PipeMode` for the events. Does not allocate
    /// (`perf.data-file-format.txt`).
    #[tactic(auto, unfolding(crate::specs::Profiles::profile))]
    pub fn parse(bytes: &'input [u8]) -> Result<Profile<'input>, PerfError>
        ensures { map_ok profile_view result ≡ profile bytes.now }
    {
        let endian = byte_order(bytes)?;
        if is_pipe(endian, bytes) {
            Profile::of_pipe(endian, bytes)
        } else {
            Profile::of_file(endian, bytes)
        }
    }

    /// Reads one that was written to a pipe.
    fn of_pipe(endian: RunTimeEndian, bytes: &'input [u8]) -> Result<Profile<'input>, PerfError>
        ensures { map_ok profile_view result ≡ pipe_profile endian bytes.now }
    {
        let records = bytes_from(bytes, PIPE_HEADER_SIZE);
        let head = pipe_head(endian, records)?;
        Ok(Profile { head, records })
    }

    /// Reads one that was written to a file.
    #[tactic(auto, unfolding(crate::specs::Profiles::file_profile))]
    fn of_file(endian: RunTimeEndian, bytes: &'input [u8]) -> Result<Profile<'input>, PerfError>
        ensures { map_ok profile_view result ≡ file_profile endian bytes.now }
    {
        let header = file_header(endian, bytes)?;
        let events = events_by(endian, bytes, &header)?;
        let size = header.records.size;
        let records = first_bytes(bytes_from(bytes, header.records.offset), size);
        let end = header.records.offset.saturating_add(size);
        let sections = Sections {
            bytes: FileBytes::whole(bytes, end),
            endian,
            events,
            features: header.features,
            is_cut: (records.len() as u64) < size,
        };
        Ok(Profile {
            head: sections.head(records.len() as u64),
            records,
        })
    }

    /// Reads a profile without the bytes of its records: by those before them and those after
    /// them, of `length` bytes in all. What lies between, by the header, are the records.
    ///
    /// Returns `None` where more is needed: where these bytes aren't all but the records, or the
    /// attributes of an event, its ids or the section of a feature that is read aren't in them.
    /// Fails as `parse` does. Does not allocate.
    pub fn parse_around(
        before: &'input [u8],
        after: &'input [u8],
        length: u64,
    ) -> Result<Option<ProfileHead<'input>>, PerfError>
        ensures head { map_ok (option_map head_view) result
            ≡ profile_around before.now after.now length }
        ensures around { (bytes : List ℕ) → IsAround before.now after.now length bytes
            → IsProfileAround bytes (map_ok (option_map head_view) result) }
    {
        head_around(before, after, length)
    }

    /// What it says before its records.
    #[inline(always)]
    pub fn head(&self) -> ProfileHead<'input>
        ensures { head_view result ≡ (profile_view self.now).head }
    {
        self.head
    }

    /// The byte order of the machine on which it was recorded.
    #[inline(always)]
    pub fn endian(&self) -> RunTimeEndian
        ensures { result ≡ (profile_view self.now).head.endian }
    {
        self.head.endian()
    }

    /// What the samples and the other records of the first event have in them.
    #[inline(always)]
    pub fn layout(&self) -> EventLayout
        ensures { result ≡ (profile_view self.now).head.events.first.layout }
    {
        self.head.layout()
    }

    /// Whether the file ends before the records do, as after a disk was full. Then what stands
    /// after the records is lost too.
    #[inline(always)]
    pub fn is_cut(&self) -> bool
        ensures { result ≡ (profile_view self.now).head.is_cut }
    {
        self.head.is_cut()
    }

    /// The name of the machine's architecture, as `ProfileHead::architecture` returns it.
    #[inline(always)]
    pub fn architecture(&self) -> Result<Option<&'input [u8]>, PerfError>
        ensures { map_ok (option_map (λ name. name.now)) result
            ≡ architecture (profile_view self.now) }
    {
        self.head.architecture()
    }

    /// Iterates over the records, in the order of the file. Does not allocate.
    #[inline(always)]
    pub fn records(&self) -> Records<'input>
        ensures { records_left result ≡ profile_records (profile_view self.now) }
    {
        Records::new(
            self.records,
            self.head.endian,
            self.head.events,
            self.head.is_cut,
        )
    }

    /// A walk over the records, for those who read the bytes of the file by parts. Only the header
    /// is read, and what the other sections say of the events and of builds. Does not allocate.
    pub fn walk(&self) -> RecordWalk<'input>
        ensures records { records_in result (profile_view self.now).records
            ≡ profile_records (profile_view self.now) }
        ensures left { record_bytes_left result ≡ (profile_view self.now).head.size }
        ensures place { next_place result ≡ records_place (profile_view self.now) }
    {
        self.head.walk()
    }
}

/// Returns where the records of a profile begin and where they end in the file, by its header;
/// `None` where these bytes don't begin with the header of a profile. It is for those who read the
/// bytes around the records: `Profile::parse_around` checks what is read so. Does not allocate.
pub fn records_section(bytes: &[u8]) -> Option<(u64, u64)>
    ensures { result ≡ records_section bytes.now }
{
    let Ok(endian) = byte_order(bytes) else {
        return None;
    };
    match file_header(endian, bytes) {
        Ok(header) => {
            let start = header.records.offset;
            Some((start, start.saturating_add(header.records.size)))
        }
        Err(_) => None,
    }
}
