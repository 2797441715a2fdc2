//! The names of registers, by the machine.
ghost use Rattle.std.specs.Prelude.{◌≡◌, ◌++◌, Some};
ghost use Rattle.cfi_text.specs.RegisterNames.{aarch64_name, arm_name, i386_name, m68k_name};
ghost use Rattle.cfi_text.specs.RegisterNames.{mips_name, powerpc64_name, register_text};
ghost use Rattle.cfi_text.specs.RegisterNames.{riscv_name, s390x_name, shown_name, sparc_name};
ghost use Rattle.cfi_text.specs.RegisterNames.{x86_64_name};
ghost use Rattle.std.specs.Fmt.{decimal};

use std::fmt;
use std::fmt::{Display, Formatter};

/// How registers are named.
#[derive(Clone, Copy, PartialEq, Eq)]
pub enum RegisterNames {
    /// By number: `r` and the DWARF number.
    Numbers,
    /// By the System V psABI of x86-64.
    X86_64,
    /// By the System V psABI of the Intel386.
    I386,
    /// By DWARF for the Arm 64-bit architecture.
    AArch64,
    /// By DWARF for the Arm architecture.
    Arm,
    /// By the RISC-V psABI.
    RiscV,
    /// By the s390x psABI.
    S390x,
    /// By the 64-bit ELF V2 ABI of Power.
    PowerPc64,
    /// By the psABI of MIPS; registers 8 to 15, whose names differ between its ABIs, by number.
    Mips,
    /// By the System V psABI of SPARC.
    Sparc,
    /// By the psABI of the Motorola 68000.
    M68k,
}

/// The name of a register: a text, and a number after it where there is one.
#[derive(Clone, Copy)]
pub struct RegisterName {
    /// The text.
    pub text: &'static str,
    /// The number after it.
    pub number: Option<u16>,
}

impl Display for RegisterName {
    ghost output = { λ name. Some (shown_name name) };

    fn fmt<W: fmt::Write>(&self, f: &mut Formatter<W>) -> fmt::Result {
        f.write_str(self.text)?;
        match self.number {
            Some(number) => write!(f, "{number}"),
            None => Ok(()),
        }
    }
}

impl RegisterNames {
    /// Returns the name of the register that has this DWARF number: its name in the psABI of the
    /// machine, or else `r` and the number. Does not allocate.
    pub fn name(self, register: u16) -> RegisterName
        ensures { shown_name result ≡ register_text self register }
    {
        match self {
            RegisterNames::Numbers => counted("r", register),
            RegisterNames::X86_64 => x86_64_name(register),
            RegisterNames::I386 => i386_name(register),
            RegisterNames::AArch64 => aarch64_name(register),
            RegisterNames::Arm => arm_name(register),
            RegisterNames::RiscV => riscv_name(register),
            RegisterNames::S390x => s390x_name(register),
            RegisterNames::PowerPc64 => powerpc64_name(register),
            RegisterNames::Mips => mips_name(register),
            RegisterNames::Sparc => sparc_name(register),
            RegisterNames::M68k => m68k_name(register),
        }
    }
}

/// Returns the text alone.
fn alone(text: &'static str) -> RegisterName
    ensures { shown_name result ≡ text.now }
{
    RegisterName { text, number: None }
}

/// Returns the text and the number after it.
fn counted(text: &'static str, number: u16) -> RegisterName
    ensures { shown_name result ≡ text.now ++ decimal number }
{
    RegisterName {
        text,
        number: Some(number),
    }
}

/// Returns the name of a register of x86-64.
fn x86_64_name(register: u16) -> RegisterName
    ensures { shown_name result ≡ x86_64_name register }
{
    match register {
        0 => alone("rax"),
        1 => alone("rdx"),
        2 => alone("rcx"),
        3 => alone("rbx"),
        4 => alone("rsi"),
        5 => alone("rdi"),
        6 => alone("rbp"),
        7 => alone("rsp"),
        16 => alone("ra"),
        17..=32 => counted("xmm", register - 17),
        _ => counted("r", register),
    }
}

/// Returns the name of a register of i386.
fn i386_name(register: u16) -> RegisterName
    ensures { shown_name result ≡ i386_name register }
{
    match register {
        0 => alone("eax"),
        1 => alone("ecx"),
        2 => alone("edx"),
        3 => alone("ebx"),
        4 => alone("esp"),
        5 => alone("ebp"),
        6 => alone("esi"),
        7 => alone("edi"),
        8 => alone("ra"),
        9 => alone("eflags"),
        _ => counted("r", register),
    }
}

/// Returns the name of a register of AArch64.
fn aarch64_name(register: u16) -> RegisterName
    ensures { shown_name result ≡ aarch64_name register }
{
    match register {
        0..=30 => counted("x", register),
        31 => alone("sp"),
        34 => alone("ra_sign_state"),
        64..=95 => counted("v", register - 64),
        _ => counted("r", register),
    }
}

/// Returns the name of a register of Arm.
fn arm_name(register: u16) -> RegisterName
    ensures { shown_name result ≡ arm_name register }
{
    match register {
        13 => alone("sp"),
        14 => alone("lr"),
        15 => alone("pc"),
        256..=287 => counted("d", register - 256),
        _ => counted("r", register),
    }
}

/// Returns the name of a register of RISC-V.
fn riscv_name(register: u16) -> RegisterName
    ensures { shown_name result ≡ riscv_name register }
{
    match register {
        0..=31 => counted("x", register),
        32..=63 => counted("f", register - 32),
        _ => counted("r", register),
    }
}

/// Returns the name of a register of s390x.
fn s390x_name(register: u16) -> RegisterName
    ensures { shown_name result ≡ s390x_name register }
{
    match register {
        16 => alone("f0"),
        17 => alone("f2"),
        18 => alone("f4"),
        19 => alone("f6"),
        20 => alone("f1"),
        21 => alone("f3"),
        22 => alone("f5"),
        23 => alone("f7"),
        24 => alone("f8"),
        25 => alone("f10"),
        26 => alone("f12"),
        27 => alone("f14"),
        28 => alone("f9"),
        29 => alone("f11"),
        30 => alone("f13"),
        31 => alone("f15"),
        _ => counted("r", register),
    }
}

/// Returns the name of a register of PowerPC of 64 bits.
fn powerpc64_name(register: u16) -> RegisterName
    ensures { shown_name result ≡ powerpc64_name register }
{
    match register {
        32..=63 => counted("f", register - 32),
        65 => alone("lr"),
        66 => alone("ctr"),
        68..=75 => counted("cr", register - 68),
        77..=108 => counted("v", register - 77),
        _ => counted("r", register),
    }
}

/// Returns the name of a register of MIPS.
fn mips_name(register: u16) -> RegisterName
    ensures { shown_name result ≡ mips_name register }
{
    match register {
        0 => alone("zero"),
        1 => alone("at"),
        2 => alone("v0"),
        3 => alone("v1"),
        4 => alone("a0"),
        5 => alone("a1"),
        6 => alone("a2"),
        7 => alone("a3"),
        16..=23 => counted("s", register - 16),
        24 => alone("t8"),
        25 => alone("t9"),
        26 => alone("k0"),
        27 => alone("k1"),
        28 => alone("gp"),
        29 => alone("sp"),
        30 => alone("s8"),
        31 => alone("ra"),
        32..=63 => counted("f", register - 32),
        64 => alone("hi"),
        65 => alone("lo"),
        _ => counted("r", register),
    }
}

/// Returns the name of a register of SPARC.
fn sparc_name(register: u16) -> RegisterName
    ensures { shown_name result ≡ sparc_name register }
{
    match register {
        0..=7 => counted("g", register),
        8..=15 => counted("o", register - 8),
        16..=23 => counted("l", register - 16),
        24..=31 => counted("i", register - 24),
        32..=63 => counted("f", register - 32),
        _ => counted("r", register),
    }
}

/// Returns the name of a register of the Motorola 68000.
fn m68k_name(register: u16) -> RegisterName
    ensures { shown_name result ≡ m68k_name register }
{
    match register {
        0..=7 => counted("d", register),
        8..=15 => counted("a", register - 8),
        16..=23 => counted("fp", register - 16),
        24 => alone("pc"),
        _ => counted("r", register),
    }
}
