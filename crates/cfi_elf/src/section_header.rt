//! Section headers (System V ABI chapter 4, "Section Header").
ghost use Rattle.std.specs.Prelude.{◌≡◌, ◌<◌, ◌≤◌, length};
ghost use Rattle.cfi_elf.specs.Headers.{section_header, section_header_bytes};

use crate::bytes::Record;
use crate::class_fields::by_class;
use crate::file_header::Class;

/// A section header: what a section is, its address, where it is in the file, and what it is linked
/// to.
#[derive(Clone, Copy, Debug, PartialEq, Eq)]
pub struct SectionHeader {
    /// Where its name begins in the names of sections.
    pub sh_name: u32,
    pub sh_type: u32,
    pub sh_flags: u64,
    pub sh_addr: u64,
    pub sh_offset: u64,
    pub sh_size: u64,
    pub sh_link: u32,
    pub sh_info: u32,
}

/// The size of a section header in bytes.
#[inline(always)]
pub(crate) fn section_header_size(class: Class) -> u64
    ensures value { result ≡ section_header_bytes class }
    ensures some { 0 < result }
{
    match class {
        Class::Elf32 => 40,
        Class::Elf64 => 64,
    }
}

/// The section header in these bytes.
#[inline(always)]
pub(crate) fn parse_section_header(class: Class, fields: Record<'_>) -> SectionHeader
    requires { section_header_bytes class ≤ length fields.bytes.now }
    ensures { result ≡ section_header class fields.entry.big_endian fields.entry.bytes.now }
{
    SectionHeader {
        sh_name: fields.word(0),
        sh_type: fields.word(4),
        sh_flags: fields.widened(class, 8, 8),
        sh_addr: fields.widened(class, 12, 16),
        sh_offset: fields.widened(class, 16, 24),
        sh_size: fields.widened(class, 20, 32),
        sh_link: fields.word(by_class(class, 24, 40)),
        sh_info: fields.word(by_class(class, 28, 44)),
    }
}
