//! The builds of the files that a profile names (`perf.data-file-format.txt`, `HEADER_BUILD_ID` and
//! `PERF_RECORD_HEADER_BUILD_ID`).
ghost use Rattle.std.specs.Prelude.{◌≡◌, option_map};
ghost use Rattle.cfi_read_core.specs.ByteOrder.{is_big};
ghost use Rattle.cfi_perf.specs.CountedIds.{count_at, counted_id};
ghost use Rattle.cfi_perf.specs.Events.{mapping_record_view};
ghost use Rattle.cfi_perf.specs.BuildIds.{entry_id, has_build_id, listed_build_id, is_entry_named};
ghost use Rattle.cfi_perf.specs.RecordFrames.{framed_view};
ghost use Rattle.cfi_perf.specs.BuildIds.{with_build_id};

use crate::bytes::{before_zero, bytes_from, first_bytes};
use crate::layout::has_any;
use crate::record::Mapping;
use crate::record_frame::{Framed, split_record};
use cfi_read_core::RunTimeEndian;

/// The type of an entry in a pipe, where entries stand among other records.
pub(crate) const PERF_RECORD_HEADER_BUILD_ID: u32 = 67;

/// The type of an entry in a file, where perf sets none.
const NO_TYPE: u32 = 0;

const PERF_RECORD_MISC_BUILD_ID_SIZE: u64 = 1 << 15;

/// The most bytes that an identification has in a profile.
const MOST_BYTES: u8 = 20;

/// At most 20 of these bytes, as many as are counted; `None` where there are none.
pub(crate) fn counted_id(count: u8, bytes: &[u8]) -> Option<&[u8]>
    ensures { option_map (λ id. id.now) result ≡ counted_id count bytes.now }
{
    let id = first_bytes(first_bytes(bytes, u64::from(MOST_BYTES)), u64::from(count));
    if id.is_empty() { None } else { Some(id) }
}

/// How many bytes an identification has, by the byte at this place; 0 where there is none.
pub(crate) fn count_at(place: usize, bytes: &[u8]) -> u8
    ensures { result ≡ count_at place bytes.now }
{
    match bytes.get(place) {
        Some(count) => *count,
        None => 0,
    }
}

/// A mapping with its own identification, or else with the one that the table has for its name.
pub(crate) fn with_build_id<'input>(
    endian: RunTimeEndian,
    table: &'input [u8],
    mapping: Mapping<'input>,
) -> Mapping<'input>
    ensures { mapping_record_view result
        ≡ with_build_id (is_big endian) table.now (mapping_record_view mapping.entry) }
{
    match mapping.build_id {
        Some(_) => mapping,
        None => Mapping {
            build_id: id_of(endian, mapping.name, table),
            ..mapping
        },
    }
}

/// The identification that the first entry of this name has. An entry that can't be read ends them.
fn id_of<'input>(endian: RunTimeEndian, name: &[u8], table: &'input [u8]) -> Option<&'input [u8]>
    ensures { option_map (λ id. id.now) result
        ≡ listed_build_id (is_big endian) name.now table.now }
{
    let mut left = table;
    // Each entry takes a byte at least.
    for _ in 0..table.len() {
        match split_record(endian, left) {
            Ok(entry) => {
                if is_named(name, &entry) {
                    return entry_id(&entry);
                }
                left = entry.others;
            }
            Err(_) => return None,
        }
    }
    None
}

/// Whether an entry is of the file with this name.
fn is_named(name: &[u8], entry: &Framed<'_>) -> bool
    ensures { result ≡ is_entry_named name.now (framed_view entry.now) }
{
    match before_zero(bytes_from(entry.body, 28)) {
        Some(found) => has_build_id(entry) && found == name,
        None => false,
    }
}

/// Whether an entry has the build of a file, by its type.
fn has_build_id(entry: &Framed<'_>) -> bool
    ensures { result ≡ has_build_id (framed_view entry.now) }
{
    entry.header.kind == NO_TYPE || entry.header.kind == PERF_RECORD_HEADER_BUILD_ID
}

/// The identification that an entry has.
fn entry_id<'input>(entry: &Framed<'input>) -> Option<&'input [u8]>
    ensures { option_map (λ id. id.now) result ≡ entry_id (framed_view entry.now) }
{
    let count = if has_any(PERF_RECORD_MISC_BUILD_ID_SIZE, u64::from(entry.header.misc)) {
        count_at(24, entry.body)
    } else {
        MOST_BYTES
    };
    counted_id(count, bytes_from(entry.body, 4))
}
