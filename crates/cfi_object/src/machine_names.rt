//! The names of registers in what is printed of a file.
ghost use Rattle.std.specs.Prelude.{◌≡◌};
ghost use Rattle.cfi_elf.specs.ElfFiles.{file_view};
ghost use Rattle.cfi_object.specs.MachineNames.{names_in, register_names_of};

use cfi_elf::ElfFile;
use cfi_elf::constants::{
    EM_68K, EM_386, EM_AARCH64, EM_ARM, EM_MIPS, EM_PPC64, EM_RISCV, EM_S390, EM_SPARC,
    EM_SPARC32PLUS, EM_SPARCV9, EM_X86_64,
};
use cfi_text::register_names::RegisterNames;

/// Returns how registers are named in what is printed of the file: by its machine, or by number
/// where `raw` is true.
pub fn names_in(file: &ElfFile<'_>, raw: bool) -> RegisterNames
    ensures { result ≡ names_in (file_view file.now) raw }
{
    if raw {
        RegisterNames::Numbers
    } else {
        register_names_of(file.header().kind.e_machine)
    }
}

/// Returns the names of the registers of a machine; numbers for one that has no table.
fn register_names_of(e_machine: u16) -> RegisterNames
    ensures { result ≡ register_names_of e_machine }
{
    match e_machine {
        EM_SPARC => RegisterNames::Sparc,
        EM_386 => RegisterNames::I386,
        EM_68K => RegisterNames::M68k,
        EM_MIPS => RegisterNames::Mips,
        EM_SPARC32PLUS => RegisterNames::Sparc,
        EM_PPC64 => RegisterNames::PowerPc64,
        EM_S390 => RegisterNames::S390x,
        EM_ARM => RegisterNames::Arm,
        EM_SPARCV9 => RegisterNames::Sparc,
        EM_X86_64 => RegisterNames::X86_64,
        EM_AARCH64 => RegisterNames::AArch64,
        EM_RISCV => RegisterNames::RiscV,
        _ => RegisterNames::Numbers,
    }
}
