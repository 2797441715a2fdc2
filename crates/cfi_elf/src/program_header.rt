//! Program headers (System V ABI chapter 5, "Program Header").
ghost use Rattle.std.specs.Prelude.{◌≡◌, ◌<◌, ◌≤◌, length};
ghost use Rattle.cfi_elf.specs.Headers.{program_header, program_header_bytes};

use crate::bytes::Record;
use crate::class_fields::by_class;
use crate::file_header::Class;

/// A program header: what a segment is, where it is in the file, and where it is loaded.
#[derive(Clone, Copy, Debug, PartialEq, Eq)]
pub struct ProgramHeader {
    pub p_type: u32,
    pub p_flags: u32,
    pub p_offset: u64,
    pub p_vaddr: u64,
    pub p_filesz: u64,
    pub p_memsz: u64,
}

/// The size of a program header in bytes.
#[inline(always)]
pub(crate) fn program_header_size(class: Class) -> u64
    ensures value { result ≡ program_header_bytes class }
    ensures some { 0 < result }
{
    match class {
        Class::Elf32 => 32,
        Class::Elf64 => 56,
    }
}

/// The program header in these bytes.
#[inline(always)]
pub(crate) fn parse_program_header(class: Class, fields: Record<'_>) -> ProgramHeader
    requires { program_header_bytes class ≤ length fields.bytes.now }
    ensures { result ≡ program_header class fields.entry.big_endian fields.entry.bytes.now }
{
    ProgramHeader {
        p_type: fields.word(0),
        p_flags: fields.word(by_class(class, 24, 4)),
        p_offset: fields.widened(class, 4, 8),
        p_vaddr: fields.widened(class, 8, 16),
        p_filesz: fields.widened(class, 16, 32),
        p_memsz: fields.widened(class, 20, 40),
    }
}
