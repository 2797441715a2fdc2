//! The registers of samples: perf's numbers for DWARF's, and what the ABIs of the machines say.
ghost use Rattle.std.specs.Prelude.{◌≡◌};
ghost use Rattle.cfi_processes.specs.Registers.{perf_number_x86_64};

use cfi_step::Abi;
use gimli_cfi::Register;

/// How many operations an expression may do.
const MAX_ITERATIONS: u32 = 1000;

/// The bits of a return address of AArch64 that may hold its signature: those above the 48 bits of
/// an address but for bit 55, which says whose half of memory it is in.
const AARCH64_SIGNATURE: u64 = 0xff7f_0000_0000_0000;

/// perf's number of each register of x86-64, by DWARF's number: rax, rdx, rcx, rbx, rsi, rdi, rbp,
/// rsp, r8 to r15, and the return address, which is rip.
const X86_64_NUMBERS: [u32; 17] = [0, 3, 2, 1, 4, 5, 6, 7, 16, 17, 18, 19, 20, 21, 22, 23, 8];

/// The machine that the samples of a profile are of.
#[derive(Clone, Copy, Debug, PartialEq, Eq)]
pub enum SampleMachine {
    /// x86-64, in 64-bit mode.
    X86_64,
    /// AArch64, with the least significant byte first.
    AArch64,
}

impl SampleMachine {
    ghost use Rattle.std.specs.Prelude.{◌≡◌};
    ghost use Rattle.cfi_processes.specs.Registers.{machine_abi, machine_named, perf_number};
    ghost use Rattle.cfi_processes.specs.Registers.{pc_number, register_count};

    /// The machine with this name of `uname -m`: `x86_64` or `aarch64`; `None` for another name.
    pub fn named(architecture: &[u8]) -> Option<SampleMachine>
        ensures { result ≡ machine_named architecture.now }
    {
        if architecture == b"x86_64".as_slice() {
            Some(SampleMachine::X86_64)
        } else if architecture == b"aarch64".as_slice() {
            Some(SampleMachine::AArch64)
        } else {
            None
        }
    }

    /// How many registers a walk needs: those of general use, the stack pointer and the pc. On
    /// x86-64 they are 17 (System V psABI, figure 3.36), on AArch64 33 (DWARF for the Arm 64-bit
    /// Architecture).
    pub fn register_count(self) -> usize
        ensures { result ≡ register_count self }
    {
        match self {
            SampleMachine::X86_64 => 17,
            SampleMachine::AArch64 => 33,
        }
    }

    /// DWARF's number of the stack pointer, no bits of a signature on x86-64 and those above the
    /// 48 bits of an address on AArch64, and 1000 operations for an expression.
    pub fn abi(self) -> Abi
        ensures { result ≡ machine_abi self }
    {
        match self {
            SampleMachine::X86_64 => Abi {
                stack_pointer: Register(7),
                signature_mask: 0,
                max_iterations: MAX_ITERATIONS,
            },
            SampleMachine::AArch64 => Abi {
                stack_pointer: Register(31),
                signature_mask: AARCH64_SIGNATURE,
                max_iterations: MAX_ITERATIONS,
            },
        }
    }

    /// DWARF's number of the register with the pc: 16, where x86-64 counts the return address, or
    /// 32.
    pub fn program_counter(self) -> usize
        ensures { result ≡ pc_number self }
    {
        match self {
            SampleMachine::X86_64 => 16,
            SampleMachine::AArch64 => 32,
        }
    }

    /// perf's number (`asm/perf_regs.h`) of the register with this number of DWARF's; `None` for
    /// one that samples don't have or a walk doesn't need.
    pub fn perf_number(self, register: usize) -> Option<u32>
        ensures { result ≡ perf_number self register }
    {
        match self {
            SampleMachine::X86_64 => x86_64_number(register),
            SampleMachine::AArch64 => {
                if register < 33 {
                    Some(register as u32)
                } else {
                    None
                }
            }
        }
    }
}

/// perf's number of a register of x86-64.
fn x86_64_number(register: usize) -> Option<u32>
    ensures { result ≡ perf_number_x86_64 register }
{
    if register < X86_64_NUMBERS.len() {
        Some(X86_64_NUMBERS[register])
    } else {
        None
    }
}
