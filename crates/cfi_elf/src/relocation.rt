//! The relocations of a section (System V ABI chapter 4, "Relocation").
ghost use Rattle.std.specs.Prelude.{◌≡◌, ◌<◌, ◌≤◌, ◌/◌, ◌%◌, length, slice_get};
ghost use Rattle.cfi_elf.specs.Layouts.{by_class};
ghost use Rattle.cfi_elf.specs.Relocations.{addend_of, relocation, relocation_bytes, relocations};
ghost use Rattle.cfi_elf.specs.Relocations.{sign_extended, types};
ghost use Rattle.cfi_elf.specs.ElfFiles.{file_view};

use crate::bytes::{Record, entry};
use crate::elf_file::ElfFile;
use crate::file_header::Class;

/// A relocation.
#[derive(Clone, Copy, Debug, PartialEq, Eq)]
pub struct Relocation {
    /// The offset of the field in its section.
    pub r_offset: u64,
    /// The index of the symbol (`ELF32_R_SYM`, `ELF64_R_SYM`).
    pub symbol: u32,
    /// The type (`ELF32_R_TYPE`, `ELF64_R_TYPE`).
    pub kind: u32,
    /// The addend in two's complement, if it isn't the number in the field.
    pub r_addend: Option<u64>,
}

impl<'input> ElfFile<'input> {
    /// The relocation at an index of a table, or `None` where it has fewer.
    pub(crate) fn relocation_in(
        &self,
        entries: &'input [u8],
        has_addend: bool,
        index: usize,
    ) -> Option<Relocation>
        ensures { result
            ≡ slice_get (relocations (file_view self.now) has_addend entries.now) index }
    {
        let class = self.identification.class;
        let bytes = entry(entries, relocation_size(class, has_addend), index)?;
        Some(parse_relocation(class, has_addend, self.fields(bytes)))
    }
}

/// The size of a relocation in bytes.
pub(crate) fn relocation_size(class: Class, has_addend: bool) -> u64
    ensures value { result ≡ relocation_bytes class has_addend }
    ensures some { 0 < result }
{
    match class {
        Class::Elf32 => { if has_addend { 12 } else { 8 } }
        Class::Elf64 => { if has_addend { 24 } else { 16 } }
    }
}

/// The relocation in these bytes: `Elf32_Rel` or `Elf64_Rel`, or with an addend `Elf32_Rela` or
/// `Elf64_Rela`.
pub(crate) fn parse_relocation(class: Class, has_addend: bool, fields: Record<'_>) -> Relocation
    requires { relocation_bytes class has_addend ≤ length fields.bytes.now }
    ensures { result
        ≡ relocation class has_addend fields.entry.big_endian fields.entry.bytes.now }
{
    let (symbol, kind) = parse_info(class, fields.widened(class, 4, 8));
    let r_addend = if has_addend {
        Some(addend_of(class, fields.widened(class, 8, 16)))
    } else {
        None
    };
    Relocation {
        r_offset: fields.widened(class, 0, 0),
        symbol,
        kind,
        r_addend,
    }
}

/// The symbol and the type that `r_info` has.
fn parse_info(class: Class, info: u64) -> (u32, u32)
    requires { info < by_class class 0x100000000 0x10000000000000000 }
    ensures { result ≡ (info / types class, info % types class) }
{
    match class {
        Class::Elf32 => ((info / 0x100) as u32, (info % 0x100) as u32),
        Class::Elf64 => ((info / 0x1_0000_0000) as u32, (info % 0x1_0000_0000) as u32),
    }
}

/// The addend in two's complement of 64 bits.
fn addend_of(class: Class, addend: u64) -> u64
    requires { addend < by_class class 0x100000000 0x10000000000000000 }
    ensures { result ≡ addend_of class addend }
{
    match class {
        Class::Elf32 => sign_extended(addend as u32),
        Class::Elf64 => addend,
    }
}

/// The number in 64 bits that is the same in two's complement.
pub(crate) fn sign_extended(number: u32) -> u64
    ensures { result ≡ sign_extended number }
{
    if number < 0x8000_0000 {
        u64::from(number)
    } else {
        u64::from(number) + 0xffff_ffff_0000_0000
    }
}
