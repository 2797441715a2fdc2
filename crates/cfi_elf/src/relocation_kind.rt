//! The types of relocations of each machine, by its psABI.
ghost use Rattle.std.specs.Prelude.{◌≡◌, Some};
ghost use Rattle.cfi_elf.specs.RelocationKinds.{aarch64_kinds, arm_kinds, i386_kinds, kinds_of};
ghost use Rattle.cfi_elf.specs.RelocationKinds.{powerpc64_kinds, riscv_kinds, s390x_kinds};
ghost use Rattle.cfi_elf.specs.RelocationKinds.{x86_64_kinds};
ghost use Rattle.cfi_elf.specs.Options.{meaning};

use crate::constants::{EM_386, EM_AARCH64, EM_ARM, EM_PPC64, EM_RISCV, EM_S390, EM_X86_64};

/// How many bytes the field of a relocation has.
#[derive(Clone, Copy, Debug, PartialEq, Eq)]
pub enum FieldWidth {
    /// One.
    Byte,
    /// Two.
    Half,
    /// Four.
    Word,
    /// Eight.
    Xword,
}

/// The number that a relocation writes into its field, as the psABIs have it: S is the value of its
/// symbol, A its addend, P the address of the field, V the number that stands there.
#[derive(Clone, Copy, Debug, PartialEq, Eq)]
pub enum Formula {
    /// V.
    Unchanged,
    /// S + A.
    Absolute,
    /// S + A - P.
    Relative,
    /// V + S + A.
    Added,
    /// V - S - A.
    Subtracted,
    /// S + A, in the low six bits of a byte.
    LowSix,
    /// V - S - A, in the low six bits of a byte.
    LowSixSubtracted,
}

/// A type of relocations.
#[derive(Clone, Copy, Debug, PartialEq, Eq)]
pub struct RelocationKind {
    pub width: FieldWidth,
    pub formula: Formula,
}

/// Returns what a type of relocations of a machine does; `None` for a type that isn't known.
pub(crate) fn kind_of(e_machine: u16, number: u32) -> Option<RelocationKind>
    ensures { result ≡ meaning (kinds_of e_machine) number }
{
    match e_machine {
        EM_386 => i386_kind(number),
        EM_PPC64 => powerpc64_kind(number),
        EM_S390 => s390x_kind(number),
        EM_ARM => arm_kind(number),
        EM_X86_64 => x86_64_kind(number),
        EM_AARCH64 => aarch64_kind(number),
        EM_RISCV => riscv_kind(number),
        _ => None,
    }
}

/// A type of the Intel386.
fn i386_kind(number: u32) -> Option<RelocationKind>
    ensures { result ≡ meaning i386_kinds number }
{
    match number {
        0 => kind(FieldWidth::Byte, Formula::Unchanged), // R_386_NONE
        1 => kind(FieldWidth::Word, Formula::Absolute), // R_386_32
        2 => kind(FieldWidth::Word, Formula::Relative), // R_386_PC32
        _ => None,
    }
}

/// A type of x86-64.
fn x86_64_kind(number: u32) -> Option<RelocationKind>
    ensures { result ≡ meaning x86_64_kinds number }
{
    match number {
        0 => kind(FieldWidth::Byte, Formula::Unchanged), // R_X86_64_NONE
        1 => kind(FieldWidth::Xword, Formula::Absolute), // R_X86_64_64
        2 => kind(FieldWidth::Word, Formula::Relative), // R_X86_64_PC32
        4 => kind(FieldWidth::Word, Formula::Relative), // R_X86_64_PLT32
        10 => kind(FieldWidth::Word, Formula::Absolute), // R_X86_64_32
        11 => kind(FieldWidth::Word, Formula::Absolute), // R_X86_64_32S
        24 => kind(FieldWidth::Xword, Formula::Relative), // R_X86_64_PC64
        _ => None,
    }
}

/// A type of AArch64.
fn aarch64_kind(number: u32) -> Option<RelocationKind>
    ensures { result ≡ meaning aarch64_kinds number }
{
    match number {
        0 => kind(FieldWidth::Byte, Formula::Unchanged), // R_AARCH64_NONE
        257 => kind(FieldWidth::Xword, Formula::Absolute), // R_AARCH64_ABS64
        258 => kind(FieldWidth::Word, Formula::Absolute), // R_AARCH64_ABS32
        260 => kind(FieldWidth::Xword, Formula::Relative), // R_AARCH64_PREL64
        261 => kind(FieldWidth::Word, Formula::Relative), // R_AARCH64_PREL32
        _ => None,
    }
}

/// A type of Arm.
fn arm_kind(number: u32) -> Option<RelocationKind>
    ensures { result ≡ meaning arm_kinds number }
{
    match number {
        0 => kind(FieldWidth::Byte, Formula::Unchanged), // R_ARM_NONE
        2 => kind(FieldWidth::Word, Formula::Absolute), // R_ARM_ABS32
        3 => kind(FieldWidth::Word, Formula::Relative), // R_ARM_REL32
        _ => None,
    }
}

/// A type of s390x_kind.
fn s390x_kind(number: u32) -> Option<RelocationKind>
    ensures { result ≡ meaning s390x_kinds number }
{
    match number {
        0 => kind(FieldWidth::Byte, Formula::Unchanged), // R_390_NONE
        4 => kind(FieldWidth::Word, Formula::Absolute), // R_390_32
        5 => kind(FieldWidth::Word, Formula::Relative), // R_390_PC32
        22 => kind(FieldWidth::Xword, Formula::Absolute), // R_390_64
        23 => kind(FieldWidth::Xword, Formula::Relative), // R_390_PC64
        _ => None,
    }
}

/// A type of 64-bit Power.
fn powerpc64_kind(number: u32) -> Option<RelocationKind>
    ensures { result ≡ meaning powerpc64_kinds number }
{
    match number {
        0 => kind(FieldWidth::Byte, Formula::Unchanged), // R_PPC64_NONE
        1 => kind(FieldWidth::Word, Formula::Absolute), // R_PPC64_ADDR32
        26 => kind(FieldWidth::Word, Formula::Relative), // R_PPC64_REL32
        38 => kind(FieldWidth::Xword, Formula::Absolute), // R_PPC64_ADDR64
        44 => kind(FieldWidth::Xword, Formula::Relative), // R_PPC64_REL64
        _ => None,
    }
}

/// A type of RISC-V.
fn riscv_kind(number: u32) -> Option<RelocationKind>
    ensures { result ≡ meaning riscv_kinds number }
{
    match number {
        0 => kind(FieldWidth::Byte, Formula::Unchanged), // R_RISCV_NONE
        1 => kind(FieldWidth::Word, Formula::Absolute), // R_RISCV_32
        2 => kind(FieldWidth::Xword, Formula::Absolute), // R_RISCV_64
        33 => kind(FieldWidth::Byte, Formula::Added), // R_RISCV_ADD8
        34 => kind(FieldWidth::Half, Formula::Added), // R_RISCV_ADD16
        35 => kind(FieldWidth::Word, Formula::Added), // R_RISCV_ADD32
        36 => kind(FieldWidth::Xword, Formula::Added), // R_RISCV_ADD64
        37 => kind(FieldWidth::Byte, Formula::Subtracted), // R_RISCV_SUB8
        38 => kind(FieldWidth::Half, Formula::Subtracted), // R_RISCV_SUB16
        39 => kind(FieldWidth::Word, Formula::Subtracted), // R_RISCV_SUB32
        40 => kind(FieldWidth::Xword, Formula::Subtracted), // R_RISCV_SUB64
        51 => kind(FieldWidth::Byte, Formula::Unchanged), // R_RISCV_RELAX
        52 => kind(FieldWidth::Byte, Formula::LowSixSubtracted), // R_RISCV_SUB6
        53 => kind(FieldWidth::Byte, Formula::LowSix), // R_RISCV_SET6
        54 => kind(FieldWidth::Byte, Formula::Absolute), // R_RISCV_SET8
        55 => kind(FieldWidth::Half, Formula::Absolute), // R_RISCV_SET16
        56 => kind(FieldWidth::Word, Formula::Absolute), // R_RISCV_SET32
        57 => kind(FieldWidth::Word, Formula::Relative), // R_RISCV_32_PCREL
        _ => None,
    }
}

/// The type of relocations that writes this into a field of this width.
fn kind(width: FieldWidth, formula: Formula) -> Option<RelocationKind>
    ensures { result ≡ Some (record { width = width; formula = formula }) }
{
    Some(RelocationKind { width, formula })
}
