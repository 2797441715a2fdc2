//! What the files of a core have of the memory of its process.
ghost use Rattle.std.specs.Prelude.{◌≡◌, List, IfOk, map, option_map, take, true};
ghost use Rattle.std.specs.List.{filter_map};
ghost use Rattle.cfi_cores.specs.CoreSegments.{AreByAddress, segment_view};
ghost use Rattle.cfi_cores.specs.MappedFiles.{mapping_view};
ghost use Rattle.cfi_mapped.specs.OpenedFiles.{AreOpenedAs, Opened, are_whole};
ghost use Rattle.cfi_core_stacks.specs.CoreWindows.{AreKnownWindows, AreWindows, bytes_named};
ghost use Rattle.cfi_core_stacks.specs.CoreWindows.{file_window, mapped_part};

use cfi_cores::{CoreMapping, CoreSegment};
use cfi_elf::bytes::bytes_from;
use cfi_mapped::opened_file::OpenedFile;
use std::alloc::{AllocError, Global};

/// What the files have of the memory, in the order of addresses; nothing where the core wasn't read
/// whole. Fails where memory is refused.
pub(crate) fn known_windows<'run>(
    alloc: Global,
    is_whole: bool,
    mapped: &[CoreMapping<'_>],
    opened: &'run [OpenedFile<'_>],
) -> Result<Vec<CoreSegment<'run>>, AllocError>
    requires { is_whole ≡ true → are_whole opened.now ≡ true }
    ensures windows { (all : List Opened) → AreOpenedAs opened.now all
        → IfOk result (λ windows. AreKnownWindows is_whole all (map mapping_view mapped.now)
        (map segment_view windows.items)) }
    ensures in_order { IfOk result (λ windows. AreByAddress windows.items) }
{
    if is_whole {
        file_windows(alloc, mapped, opened)
    } else {
        Ok(Vec::new(alloc))
    }
}

/// What the files have of the memory, in the order of addresses. Fails where memory is refused.
fn file_windows<'run>(
    alloc: Global,
    mapped: &[CoreMapping<'_>],
    opened: &'run [OpenedFile<'_>],
) -> Result<Vec<CoreSegment<'run>>, AllocError>
    requires { are_whole opened.now ≡ true }
    ensures windows { (all : List Opened) → AreOpenedAs opened.now all
        → IfOk result (λ windows. AreWindows all (map mapping_view mapped.now)
        (map segment_view windows.items)) }
    ensures in_order { IfOk result (λ windows. AreByAddress windows.items) }
{
    let mut windows = mapped_windows(alloc, mapped, opened)?;
    windows.sort_by_key(|window| window.start)?;
    Ok(windows)
}

/// What the files have of the memory, in the order of the mappings. Fails where memory is refused.
fn mapped_windows<'run>(
    alloc: Global,
    mapped: &[CoreMapping<'_>],
    opened: &'run [OpenedFile<'_>],
) -> Result<Vec<CoreSegment<'run>>, AllocError>
    requires { are_whole opened.now ≡ true }
    ensures { (all : List Opened) → AreOpenedAs opened.now all
        → IfOk result (λ windows. map segment_view windows.items
        ≡ filter_map (file_window all) (map mapping_view mapped.now)) }
{
    let mut windows = Vec::new(alloc);
    for mapping in mapped {
        if let Some(window) = file_window(opened, mapping) {
            windows.push(window)?;
        }
    }
    Ok(windows)
}

/// What the file has of the memory where it is mapped, if it could be read.
fn file_window<'run>(
    opened: &'run [OpenedFile<'_>],
    mapping: &CoreMapping<'_>,
) -> Option<CoreSegment<'run>>
    requires { are_whole opened.now ≡ true }
    ensures { (all : List Opened) → AreOpenedAs opened.now all
        → option_map segment_view result ≡ file_window all (mapping_view mapping.now) }
{
    match bytes_named(opened, mapping.name) {
        Some(bytes) => Some(part_of(mapping, bytes)),
        None => None,
    }
}

/// The bytes of the file with this name, if it could be read.
fn bytes_named<'run>(opened: &'run [OpenedFile<'_>], name: &[u8]) -> Option<&'run [u8]>
    requires { are_whole opened.now ≡ true }
    ensures { (all : List Opened) → AreOpenedAs opened.now all
        → option_map (λ bytes. bytes.now) result ≡ bytes_named all name.now }
{
    let found = opened.iter().find(|one| one.name == name)?;
    found.first()
}

/// What of the bytes of a file is mapped.
fn part_of<'run>(mapping: &CoreMapping<'_>, bytes: &'run [u8]) -> CoreSegment<'run>
    ensures { segment_view result ≡ mapped_part (mapping_view mapping.now) bytes.now }
{
    let size = mapping.end.saturating_sub(mapping.start);
    CoreSegment {
        start: mapping.start,
        bytes: at_most(size, bytes_from(bytes, mapping.offset)),
        is_executable: false,
    }
}

/// The first bytes, at most so many.
fn at_most(size: u64, bytes: &[u8]) -> &[u8]
    ensures { result.now ≡ take size bytes.now }
{
    if size < bytes.len() as u64 {
        &bytes[..size as usize]
    } else {
        bytes
    }
}
