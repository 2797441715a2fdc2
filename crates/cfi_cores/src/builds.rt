//! The builds of files, as their images in memory have them.
ghost use Rattle.std.specs.Prelude.{◌≡◌, map, option_map};
ghost use Rattle.cfi_cores.specs.Builds.{build_of, mapped_image, mapped_start};
ghost use Rattle.cfi_cores.specs.CoreSegments.{segment_view};
ghost use Rattle.cfi_cores.specs.MappedFiles.{mapping_view};

use crate::mapped_files::CoreMapping;
use crate::segments::{CoreSegment, bytes_at};
use cfi_mapped::file_builds::id_of;

/// Returns the bytes that the core has of the file with this name, from its first byte on: of the
/// first mapping of that byte, those of the first segment that begins there. `None` where there is
/// no such mapping or segment. Does not allocate.
pub fn image_of<'run>(
    segments: &[CoreSegment<'run>],
    mapped: &[CoreMapping<'_>],
    name: &[u8],
) -> Option<&'run [u8]>
    ensures { option_map (λ bytes. bytes.now) result ≡ mapped_image
        (map segment_view segments.now) (map mapping_view mapped.now) name.now }
{
    match mapped_start(mapped, name) {
        Some(start) => bytes_at(segments, start),
        None => None,
    }
}

/// Returns the identification of the build of the file with this name, as the core has it in the
/// file's first page (`image_of`); `None` where it doesn't. Does not allocate.
pub fn build_of<'run>(
    segments: &[CoreSegment<'run>],
    mapped: &[CoreMapping<'_>],
    name: &[u8],
) -> Option<&'run [u8]>
    ensures { option_map (λ id. id.now) result ≡ build_of
        (map segment_view segments.now) (map mapping_view mapped.now) name.now }
{
    match image_of(segments, mapped, name) {
        Some(image) => id_of(image),
        None => None,
    }
}

/// The address at which the first byte of the file with this name is mapped.
fn mapped_start(mapped: &[CoreMapping<'_>], name: &[u8]) -> Option<u64>
    ensures { result ≡ mapped_start (map mapping_view mapped.now) name.now }
{
    match mapped
        .iter()
        .find(|one| one.offset == 0 && one.name == name)
    {
        Some(one) => Some(one.start),
        None => None,
    }
}
