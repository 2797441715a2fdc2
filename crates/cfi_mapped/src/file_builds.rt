//! Of which build a file is, and whether another is its debug file.
ghost use Rattle.std.specs.Prelude.{◌≡◌, ◌==◌, option_map};
ghost use Rattle.std.specs.List.{list_all};
ghost use Rattle.cfi_mapped.specs.FileBuilds.{id_in, id_of, is_build, is_known_build, is_linked};
ghost use Rattle.cfi_mapped.specs.FileBuilds.{link_in, may_be_of};
ghost use Rattle.cfi_elf.specs.DebugLinks.{link_view};
ghost use Rattle.cfi_elf.specs.Images.{image_view};

use cfi_elf::bytes::bytes_from;
use cfi_elf::{DebugLink, ElfFile, Image, crc32};

/// Returns whether the file of which these parts were read is of the build: its note
/// `NT_GNU_BUILD_ID` says so, with no bytes but zeros after that in `build`. A file that is no ELF
/// file, or whose notes can't be read (`cfi_elf::ElfFile::build_id`), is of none. Does not
/// allocate.
pub fn has_build(build: &[u8], image: Image<'_>) -> bool
    ensures { result ≡ is_known_build build.now (id_in (image_view image.entry)) }
{
    match id_in(image) {
        Some(id) => is_build(build, id),
        None => false,
    }
}

/// Returns the identification of the build of the ELF file that these bytes are, or begin: what its
/// note `NT_GNU_BUILD_ID` says. `None` where there is no such note, or it can't be read
/// (`cfi_elf::ElfFile::build_id`). Does not allocate.
pub fn id_of(bytes: &[u8]) -> Option<&[u8]>
    ensures { option_map (λ id. id.now) result ≡ id_of bytes.now }
{
    id_in(Image::whole(bytes))
}

/// Returns the same of a file of which these parts were read. Does not allocate.
pub fn id_in(image: Image<'_>) -> Option<&[u8]>
    ensures { option_map (λ id. id.now) result ≡ id_in (image_view image.entry) }
{
    let Ok(file) = ElfFile::of_image(image) else {
        return None;
    };
    match file.build_id() {
        Ok(id) => id,
        Err(_) => None,
    }
}

/// Returns the link of the ELF file of which these parts were read to its debug file. `None` where
/// it is no ELF file, or has none that can be read (`cfi_elf::ElfFile::debug_link`). Does not
/// allocate.
pub fn link_in(image: Image<'_>) -> Option<DebugLink<'_>>
    ensures { option_map link_view result ≡ link_in (image_view image.entry) }
{
    let Ok(file) = ElfFile::of_image(image) else {
        return None;
    };
    match file.debug_link() {
        Ok(link) => link,
        Err(_) => None,
    }
}

/// Returns whether the file of these bytes is the one to which the link of a file of this build
/// leads: it has the link's checksum, and no other build. Does not allocate.
pub fn is_linked(link: &DebugLink<'_>, build: Option<&[u8]>, bytes: &[u8]) -> bool
    ensures { result ≡ is_linked (link_view link.now)
        (option_map (λ build. build.now) build.entry) bytes.now }
{
    crc32(bytes) == link.checksum && may_be_of(build, id_of(bytes))
}

/// Whether a file of the one build, if it is known, may be of the other, if that is known.
fn may_be_of(one: Option<&[u8]>, other: Option<&[u8]>) -> bool
    ensures { result ≡ may_be_of (option_map (λ id. id.now) one.entry)
        (option_map (λ id. id.now) other.entry) }
{
    match one {
        Some(one) => match other {
            Some(other) => one == other,
            None => true,
        },
        None => true,
    }
}

/// Whether this is the identification of the build.
fn is_build(build: &[u8], id: &[u8]) -> bool
    ensures { result ≡ is_build build.now id.now }
{
    build.starts_with(id) && are_zeros(bytes_from(build, id.len() as u64))
}

/// Whether each byte is 0.
fn are_zeros(bytes: &[u8]) -> bool
    ensures { result ≡ list_all (λ byte. byte == 0) bytes.now }
{
    bytes.iter().all(|byte| *byte == 0)
}
