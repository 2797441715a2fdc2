#![tactic(auto)]
//! Profiles that `perf record` wrote: their records of mapped files, of programs and of samples.
//!
//! The format is public: records are those of the kernel's `perf_event_open` (its manual page, and
//! `include/uapi/linux/perf_event.h`), the file around them is described in the kernel's
//! `tools/perf/Documentation/perf.data-file-format.txt`.
//!
//! `profile` reads the file header, `attribute` and `event_entry` the events, `layout` has what
//! their samples have in them, and `event_table` and `event_names` find the event of each record.
//! `records` iterates over the records: `record_frame` splits them, `sample_id` takes the fields of
//! a sample off their ends, `record_types` reads them by their type. `record`, `sample` and
//! `call_chain` have what a record says. `recording` says what all records together tell of the
//! recording. Nothing is allocated or copied.
//!
//! Of a profile that is read by parts, `windows` reads each record by the bytes that the caller has
//! of it, and `index` keeps where each is; only the index allocates.

mod architecture;
mod around;
mod attribute;
mod build_ids;
mod bytes;
pub mod call_chain;
pub mod error;
mod event_entry;
mod event_names;
mod event_section;
mod event_table;
mod file_bytes;
mod file_header;
pub mod index;
pub mod layout;
mod pipe;
pub mod profile;
pub mod record;
mod record_fields;
mod record_frame;
mod record_types;
pub mod recording;
pub mod records;
pub mod sample;
mod sample_fields;
mod sample_id;
mod sections;
pub mod windows;

pub use call_chain::{Addresses, CallChain};
pub use error::PerfError;
pub use index::{PlaceKind, RecordIndex, RecordPlace};
pub use layout::EventLayout;
pub use profile::{Profile, ProfileHead, records_section};
pub use record::{Event, Fork, Lost, Mapping, Program, Record};
pub use recording::{lacks_stacks, lost_in};
pub use records::Records;
pub use sample::{Sample, UserRegisters, UserState};
pub use windows::RecordWalk;
