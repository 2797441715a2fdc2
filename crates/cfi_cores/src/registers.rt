//! The places of registers among those of a thread in a core file.
ghost use Rattle.std.specs.Prelude.{◌≡◌};
ghost use Rattle.cfi_cores.specs.CoreRegisters.{core_place, core_place_x86_64, registers_size};

use cfi_processes::SampleMachine;

/// The place of each register of x86-64 in `struct user_regs_struct`, by DWARF's number: rax, rdx,
/// rcx, rbx, rsi, rdi, rbp, rsp, r8 to r15, and the return address, which is rip.
const X86_64_PLACES: [usize; 17] = [10, 12, 11, 5, 13, 14, 4, 19, 9, 8, 7, 6, 3, 2, 1, 0, 16];

/// How many bytes the registers of a thread have (`elf_gregset_t`).
pub(crate) fn registers_size(machine: SampleMachine) -> u64
    ensures { result ≡ registers_size machine }
{
    match machine {
        SampleMachine::X86_64 => 216,
        SampleMachine::AArch64 => 272,
    }
}

/// The place of the register with this number of DWARF's among the registers of a thread; `None`
/// for one that a walk doesn't need.
pub(crate) fn core_place(machine: SampleMachine, register: usize) -> Option<usize>
    ensures { result ≡ core_place machine register }
{
    match machine {
        SampleMachine::X86_64 => x86_64_place(register),
        SampleMachine::AArch64 => { if register < 33 { Some(register) } else { None } }
    }
}

/// The place of a register of x86-64.
fn x86_64_place(register: usize) -> Option<usize>
    ensures { result ≡ core_place_x86_64 register }
{
    if register < X86_64_PLACES.len() {
        Some(X86_64_PLACES[register])
    } else {
        None
    }
}
