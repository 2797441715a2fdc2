//! The names of events: those that `perf record` left in a profile (`perf.data-file-format.txt`,
//! `HEADER_EVENT_DESC`), and those of the kernel's own events (perf_event_open(2), `config`).
ghost use Rattle.std.specs.Prelude.{◌≡◌, option_map};
ghost use Rattle.cfi_read_core.specs.ByteOrder.{is_big};
ghost use Rattle.cfi_read_core.specs.ReaderCalls.{ReadsBy};
ghost use Rattle.cfi_read_core.specs.SliceReaders.{slice_position};
ghost use Rattle.cfi_perf.specs.EventNames.{described_event, described_name, description};
ghost use Rattle.cfi_perf.specs.EventNames.{event_name};
ghost use Rattle.cfi_perf.specs.EventNames.{after_others, generic_name, hardware_name};
ghost use Rattle.cfi_perf.specs.EventNames.{software_name};

use crate::attribute::Attribute;
use crate::bytes::{Input, before_zero, read_header_text, read_items};
use cfi_read_core::{EndianSlice, Reader, Result, RunTimeEndian};

const PERF_TYPE_HARDWARE: u32 = 0;

const PERF_TYPE_SOFTWARE: u32 = 1;

/// The name of the event of an index: by the section of the profile that describes all events, or
/// else by its attributes.
pub(crate) fn event_name<'input>(
    endian: RunTimeEndian,
    section: &'input [u8],
    index: u64,
    attribute: &Attribute,
) -> &'input [u8]
    ensures { result.now ≡ event_name (is_big endian) section.now index attribute.now }
{
    match described_name(endian, section, index) {
        Some(name) => name,
        None => generic_name(attribute).as_bytes(),
    }
}

/// The name that the section has for the event of an index. `None` where it can't be read.
fn described_name(endian: RunTimeEndian, section: &[u8], index: u64) -> Option<&[u8]>
    ensures { option_map (λ name. name.now) result
        ≡ described_name (is_big endian) section.now index }
{
    let mut input = EndianSlice::new(section, endian);
    match read_described(index, &mut input) {
        Ok(text) => before_zero(text),
        Err(_) => None,
    }
}

/// Reads the text of the event of an index.
#[tactic(auto, unfolding(crate::specs::EventNames::described_event))]
fn read_described<'input>(index: u64, input: &mut Input<'input>) -> Result<&'input [u8]>
    ensures { ReadsBy (slice_position is_big) (λ text. text.now) (described_event index)
        input.old result input.new }
{
    let _count = input.read_u32()?;
    let size = input.read_u32()?;
    read_after_others(index, u64::from(size), input)
}

/// Reads the text of an event after as many others.
fn read_after_others<'input>(
    index: u64,
    size: u64,
    input: &mut Input<'input>,
) -> Result<&'input [u8]>
    ensures { ReadsBy (slice_position is_big) (λ text. text.now)
        (after_others index (description size)) input.old result input.new }
{
    for passed in 0..index {
        match read_description(size, input) {
            Ok(_) => {}
            Err(error) => return Err(error),
        }
    }
    read_description(size, input)
}

/// Reads what the section has of an event.
#[tactic(auto, unfolding(crate::specs::EventNames::description))]
fn read_description<'input>(size: u64, input: &mut Input<'input>) -> Result<&'input [u8]>
    ensures { ReadsBy (slice_position is_big) (λ text. text.now) (description size)
        input.old result input.new }
{
    let _attribute = read_items(size, 1, input)?;
    let id_count = input.read_u32()?;
    let text = read_header_text(input)?;
    let _ids = read_items(u64::from(id_count), 8, input)?;
    Ok(text)
}

/// The name of an event by its attributes.
fn generic_name(attribute: &Attribute) -> &'static str
    ensures { result.now ≡ generic_name attribute.now }
{
    match attribute.kind {
        PERF_TYPE_HARDWARE => hardware_name(attribute.config),
        PERF_TYPE_SOFTWARE => software_name(attribute.config),
        _ => "unknown",
    }
}

/// The name of an event of the processor's (`PERF_TYPE_HARDWARE`).
fn hardware_name(config: u64) -> &'static str
    ensures { result.now ≡ hardware_name config }
{
    match config {
        0 => "cycles",
        1 => "instructions",
        2 => "cache-references",
        3 => "cache-misses",
        4 => "branches",
        5 => "branch-misses",
        6 => "bus-cycles",
        7 => "stalled-cycles-frontend",
        8 => "stalled-cycles-backend",
        9 => "ref-cycles",
        _ => "unknown",
    }
}

/// The name of an event of the kernel's (`PERF_TYPE_SOFTWARE`).
fn software_name(config: u64) -> &'static str
    ensures { result.now ≡ software_name config }
{
    match config {
        0 => "cpu-clock",
        1 => "task-clock",
        2 => "page-faults",
        3 => "context-switches",
        4 => "cpu-migrations",
        5 => "minor-faults",
        6 => "major-faults",
        7 => "alignment-faults",
        8 => "emulation-faults",
        9 => "dummy",
        10 => "bpf-output",
        11 => "cgroup-switches",
        _ => "unknown",
    }
}
