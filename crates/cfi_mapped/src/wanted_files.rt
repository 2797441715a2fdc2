//! The files that the records of a profile are of.
ghost use Rattle.std.specs.Prelude.{◌≡◌, option_map};
ghost use Rattle.cfi_perf.specs.Events.{mapping_record_view, record_view};
ghost use Rattle.cfi_perf.specs.CallChains.{addresses_left};
ghost use Rattle.cfi_mapped.specs.WantedFiles.{mapped_code_file, has_kernel_frames, has_some};
ghost use Rattle.cfi_mapped.specs.WantedFiles.{is_code_file, process_of};
ghost use Rattle.cfi_mapped.specs.Wanted.{wanted_view};

use crate::code_map::is_memory_name;
use crate::kernel_symbols::is_kernel_name;
use crate::wanted::WantedFile;
use cfi_perf::{Addresses, Event, Mapping, Record};

/// Returns whether a record is a sample that has frames of the kernel. Does not allocate.
pub fn has_kernel_frames(item: &Record<'_>) -> bool
    ensures { result ≡ has_kernel_frames (record_view item.now).event }
{
    match item.event {
        Event::Sample(sample) => has_address(sample.kernel_frames()),
        _ => false,
    }
}

/// Whether a call chain has an address left.
fn has_address(addresses: Addresses<'_>) -> bool
    ensures { result ≡ has_some (addresses_left addresses.entry) }
{
    let mut addresses = addresses;
    addresses.next().is_some()
}

/// Returns the file that a record says is mapped as code; the kernel itself only if samples have
/// frames of it. Does not allocate.
pub fn code_file<'run>(in_kernel: bool, item: &Record<'run>) -> Option<WantedFile<'run>>
    ensures { option_map wanted_view result
        ≡ mapped_code_file in_kernel (record_view item.now).event }
{
    match item.event {
        Event::Mapping(mapping) if is_code_file(in_kernel, &mapping) => Some(WantedFile {
            name: mapping.name,
            build_id: mapping.build_id,
            process: process_of(&mapping),
        }),
        _ => None,
    }
}

/// The process that may make code where this is mapped: its memory is no file's. Does not allocate.
pub fn process_of(mapping: &Mapping<'_>) -> Option<u32>
    ensures { result ≡ process_of (mapping_record_view mapping.now) }
{
    if is_memory_name(mapping.name) {
        Some(mapping.pid)
    } else {
        None
    }
}

/// Whether a file is mapped as code that samples may have frames of.
fn is_code_file(in_kernel: bool, mapping: &Mapping<'_>) -> bool
    ensures { result ≡ is_code_file in_kernel (mapping_record_view mapping.now) }
{
    mapping.is_executable && (in_kernel || !is_kernel_name(mapping.name))
}
