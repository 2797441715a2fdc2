//! The link of a file to its debug file (GDB's manual, "Separate Debug Files").
ghost use Rattle.std.specs.Prelude.{◌≡◌, ◌≤◌, ◌==◌, length, not, option_map};
ghost use Rattle.std.specs.List.{list_all};
ghost use Rattle.cfi_read_core.specs.ReaderCalls.{map_ok};
ghost use Rattle.cfi_elf.specs.DebugLinks.{checksum_in, debug_link, is_base_name, link_in};
ghost use Rattle.cfi_elf.specs.DebugLinks.{link_view, named_link};
ghost use Rattle.cfi_elf.specs.ElfFiles.{file_view};

use crate::bytes::{Record, before_zero, bytes_from, part};
use crate::elf_file::ElfFile;
use crate::error::ElfError;
use cfi_read_core::Endianity;

/// How many bytes a checksum has.
const CHECKSUM_SIZE: u64 = 4;

/// The link of a file to its debug file.
#[derive(Clone, Copy, Debug)]
pub struct DebugLink<'input> {
    /// The name of the debug file, without a folder.
    pub name: &'input [u8],
    /// The CRC-32 of its bytes (`crc32`).
    pub checksum: u32,
}

impl<'input> ElfFile<'input> {
    /// The file's link to its debug file: what the section `.gnu_debuglink` says. Returns `None`
    /// where there is no such section, its bytes are no whole link, or the name is empty or has a
    /// slash.
    ///
    /// Fails as `section`. Does not allocate.
    #[tactic(auto, unfolding(crate::specs::DebugLinks::debug_link))]
    pub fn debug_link(&self) -> Result<Option<DebugLink<'input>>, ElfError>
        ensures { map_ok (option_map link_view) result ≡ debug_link (file_view self.now) }
    {
        match self.section(b".gnu_debuglink")? {
            Some(section) => Ok(link_in(section.bytes, self.endian().is_big_endian())),
            None => Ok(None),
        }
    }
}

/// The link that these bytes are.
#[tactic(auto, unfolding(crate::specs::DebugLinks::link_in))]
fn link_in(bytes: &[u8], big_endian: bool) -> Option<DebugLink<'_>>
    ensures { option_map link_view result ≡ link_in big_endian bytes.now }
{
    let name = before_zero(bytes)?;
    let padded = name.len() as u64 / 4 * 4;
    let checksum = part(bytes_from(bytes, padded), CHECKSUM_SIZE, CHECKSUM_SIZE)?;
    named_link(name, checksum_in(checksum, big_endian))
}

/// The number that these four bytes are.
fn checksum_in(bytes: &[u8], big_endian: bool) -> u32
    requires { 4 ≤ length bytes.now }
    ensures { result ≡ checksum_in big_endian bytes.now }
{
    Record { bytes, big_endian }.word(0)
}

/// The link with this name, if it is one of a file.
fn named_link(name: &[u8], checksum: u32) -> Option<DebugLink<'_>>
    ensures { option_map link_view result ≡ named_link name.now checksum }
{
    if is_base_name(name) {
        Some(DebugLink { name, checksum })
    } else {
        None
    }
}

/// Whether this is the name of a file, without a folder.
fn is_base_name(name: &[u8]) -> bool
    ensures { result ≡ is_base_name name.now }
{
    !name.is_empty() && has_no_slash(name)
}

/// Whether no byte is a slash.
fn has_no_slash(name: &[u8]) -> bool
    ensures { result ≡ list_all (λ byte. not (byte == 47)) name.now }
{
    name.iter().all(|byte| *byte != b'/')
}
