//! The vdso: code of the kernel that is mapped into each process, as the auxiliary vector tells.
ghost use Rattle.std.specs.Prelude.{◌≡◌, ◌-◌, ℕ, List, length, map, min, option_map};
ghost use Rattle.std.specs.List.{filter_map};
ghost use Rattle.cfi_elf.specs.SegmentLists.{segments_left};
ghost use Rattle.cfi_cores.specs.CoreSegments.{segment_bytes, loaded_in, segment_view};
ghost use Rattle.cfi_cores.specs.MappedFiles.{mapping_view};
ghost use Rattle.cfi_cores.specs.Vdso.{vdso_at, vdso_by, vdso_name, vdso_over};

use crate::auxiliary_vector::value_in;
use crate::mapped_files::CoreMapping;
use crate::segments::{CoreSegment, bytes_at};
use cfi_elf::constants::PT_LOAD;
use cfi_elf::{ProgramHeader, Segments};

const AT_SYSINFO_EHDR: u64 = 33;

/// The name that the vdso has among what is mapped.
pub fn vdso_name<'run>() -> &'run [u8]
    ensures { result.now ≡ vdso_name }
{
    b"[vdso]"
}

/// The vdso as it was mapped, if the auxiliary vector says where it is and a segment begins there.
pub(crate) fn vdso_by<'run>(
    segments: &[CoreSegment<'_>],
    vector: Option<&[u8]>,
) -> Option<CoreMapping<'run>>
    ensures { option_map mapping_view result ≡ vdso_by (map segment_view segments.now)
        (option_map (λ vector. vector.now) vector.entry) }
{
    match value_in(vector?, AT_SYSINFO_EHDR) {
        Some(address) => vdso_at(segments, address),
        None => None,
    }
}

/// The vdso as it is mapped at this address, if a segment begins there.
fn vdso_at<'run>(segments: &[CoreSegment<'_>], address: u64) -> Option<CoreMapping<'run>>
    ensures { option_map mapping_view result ≡ vdso_at (map segment_view segments.now) address }
{
    match bytes_at(segments, address) {
        Some(bytes) => Some(CoreMapping {
            start: address,
            end: address.wrapping_add(bytes.len() as u64),
            offset: 0,
            name: vdso_name(),
        }),
        None => None,
    }
}

/// The vdso as it was mapped, by the headers of a file of so many bytes: as `vdso_by` has it by the
/// bytes.
pub(crate) fn vdso_of<'run>(
    size: u64,
    headers: Segments<'_>,
    vector: Option<&[u8]>,
) -> Option<CoreMapping<'run>>
    ensures { (bytes : List ℕ) → length bytes ≡ size → option_map mapping_view result
        ≡ vdso_by (filter_map (loaded_in bytes) (segments_left headers.entry))
        (option_map (λ vector. vector.now) vector.entry) }
{
    match value_in(vector?, AT_SYSINFO_EHDR) {
        Some(address) => placed_at(size, headers, address),
        None => None,
    }
}

/// The vdso as it is mapped at this address, if a segment begins there.
fn placed_at<'run>(size: u64, headers: Segments<'_>, address: u64) -> Option<CoreMapping<'run>>
    ensures { (bytes : List ℕ) → length bytes ≡ size → option_map mapping_view result
        ≡ vdso_at (filter_map (loaded_in bytes) (segments_left headers.entry)) address }
{
    for header in headers {
        if header.p_type == PT_LOAD && header.p_vaddr == address {
            return Some(placed_by(size, &header));
        }
    }
    None
}

/// The vdso as it is mapped by this header.
fn placed_by<'run>(size: u64, header: &ProgramHeader) -> CoreMapping<'run>
    ensures { (bytes : List ℕ) → length bytes ≡ size → mapping_view result
        ≡ vdso_over (segment_bytes bytes header.now) header.now.p_vaddr }
{
    CoreMapping {
        start: header.p_vaddr,
        end: header.p_vaddr.wrapping_add(size_in(size, header)),
        offset: 0,
        name: vdso_name(),
    }
}

/// How many bytes of a segment a file of so many bytes has.
pub(crate) fn size_in(size: u64, header: &ProgramHeader) -> u64
    ensures value { result ≡ min header.now.p_filesz (size - header.now.p_offset) }
    ensures bytes { (bytes : List ℕ) → length bytes ≡ size
        → result ≡ length (segment_bytes bytes header.now) }
{
    header.p_filesz.min(size.saturating_sub(header.p_offset))
}
