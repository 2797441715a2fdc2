//! The file header (System V ABI chapter 4, "ELF Header").
ghost use Rattle.std.specs.Prelude.{◌≡◌, ◌≤◌, length};
ghost use Rattle.cfi_elf.specs.declared.error.ElfError.TheVariants.{UnknownClass};
ghost use Rattle.cfi_elf.specs.declared.error.ElfError.TheVariants.{UnknownDataEncoding};
ghost use Rattle.cfi_elf.specs.ElfFiles.{byte_orders, classes, identification};
ghost use Rattle.cfi_elf.specs.Headers.{file_header, file_header_bytes};
ghost use Rattle.cfi_elf.specs.Options.{meaning};
ghost use Rattle.cfi_elf.specs.Results.{or_missing};

use crate::bytes::Record;
use crate::class_fields::by_class;
use crate::constants::EV_CURRENT;
use crate::error::ElfError;
use cfi_read_core::RunTimeEndian;

/// The number of bytes of `e_ident` (`EI_NIDENT`).
const EI_NIDENT: usize = 16;

/// The size of addresses and offsets in the file (`EI_CLASS`).
#[derive(Clone, Copy, Debug, PartialEq, Eq)]
pub enum Class {
    /// `ELFCLASS32`: four bytes.
    Elf32,
    /// `ELFCLASS64`: eight bytes.
    Elf64,
}

/// How the file is to be read (`e_ident`).
#[derive(Clone, Copy, Debug, PartialEq, Eq)]
pub struct Identification {
    /// `EI_CLASS`.
    pub class: Class,
    /// `EI_DATA`.
    pub data: RunTimeEndian,
}

/// What kind of file it is, and for which machine.
#[derive(Clone, Copy, Debug, PartialEq, Eq)]
pub struct ObjectKind {
    pub e_type: u16,
    pub e_machine: u16,
    pub e_version: u32,
}

/// Where the two header tables begin in the file; 0 where there is none.
#[derive(Clone, Copy, Debug, PartialEq, Eq)]
pub struct TableOffsets {
    pub e_phoff: u64,
    pub e_shoff: u64,
}

/// The sizes and counts of the entries in the two header tables, and the section with names.
#[derive(Clone, Copy, Debug, PartialEq, Eq)]
pub struct TableSizes {
    pub e_phentsize: u16,
    pub e_phnum: u16,
    pub e_shentsize: u16,
    pub e_shnum: u16,
    pub e_shstrndx: u16,
}

/// The file header after `e_ident`.
#[derive(Clone, Copy, Debug, PartialEq, Eq)]
pub struct FileHeader {
    pub kind: ObjectKind,
    pub offsets: TableOffsets,
    pub sizes: TableSizes,
}

/// Returns what `e_ident` says.
///
/// Fails with `NotElf`, `HeaderCut`, `UnknownClass`, `UnknownDataEncoding` or `UnknownVersion`.
#[tactic(auto, unfolding(crate::specs::ElfFiles::identification))]
pub(crate) fn read_identification(bytes: &[u8]) -> Result<Identification, ElfError>
    ensures { result ≡ identification bytes.now }
{
    if !bytes.starts_with(b"\x7fELF") {
        return Err(ElfError::NotElf);
    }
    if bytes.len() < EI_NIDENT {
        return Err(ElfError::HeaderCut);
    }
    let fields = Record {
        bytes,
        big_endian: false,
    };
    let class = class_of(fields.byte(4))?;
    let data = data_of(fields.byte(5))?;
    let version = u32::from(fields.byte(6));
    if version != EV_CURRENT {
        return Err(ElfError::UnknownVersion(version));
    }
    Ok(Identification { class, data })
}

/// Returns the class that `EI_CLASS` says. Fails with `UnknownClass`.
fn class_of(byte: u8) -> Result<Class, ElfError>
    ensures { result ≡ or_missing (UnknownClass byte) (meaning classes byte) }
{
    match byte {
        1 => Ok(Class::Elf32),
        2 => Ok(Class::Elf64),
        _ => Err(ElfError::UnknownClass(byte)),
    }
}

/// Returns the byte order that `EI_DATA` says. Fails with `UnknownDataEncoding`.
fn data_of(byte: u8) -> Result<RunTimeEndian, ElfError>
    ensures { result ≡ or_missing (UnknownDataEncoding byte) (meaning byte_orders byte) }
{
    match byte {
        1 => Ok(RunTimeEndian::Little),
        2 => Ok(RunTimeEndian::Big),
        _ => Err(ElfError::UnknownDataEncoding(byte)),
    }
}

/// The size of the file header in bytes.
pub(crate) fn file_header_size(class: Class) -> usize
    ensures { result ≡ file_header_bytes class }
{
    match class {
        Class::Elf32 => 52,
        Class::Elf64 => 64,
    }
}

/// The file header in these bytes.
pub(crate) fn parse_file_header(class: Class, fields: Record<'_>) -> FileHeader
    requires { file_header_bytes class ≤ length fields.bytes.now }
    ensures { result ≡ file_header class fields.entry.big_endian fields.entry.bytes.now }
{
    FileHeader {
        kind: ObjectKind {
            e_type: fields.half(16),
            e_machine: fields.half(18),
            e_version: fields.word(20),
        },
        offsets: TableOffsets {
            e_phoff: fields.widened(class, 28, 32),
            e_shoff: fields.widened(class, 32, 40),
        },
        sizes: TableSizes {
            e_phentsize: fields.half(by_class(class, 42, 54)),
            e_phnum: fields.half(by_class(class, 44, 56)),
            e_shentsize: fields.half(by_class(class, 46, 58)),
            e_shnum: fields.half(by_class(class, 48, 60)),
            e_shstrndx: fields.half(by_class(class, 50, 62)),
        },
    }
}
