//! Threads of a core file.
ghost use Rattle.std.specs.Prelude.{◌≡◌, ⊤, option_map};
ghost use Rattle.cfi_cores.specs.CoreThreads.{thread_register, thread_in, thread_view};

use crate::fault::Fault;
use crate::registers::{core_place, registers_size};
use cfi_elf::bytes::{Record, entry, part};
use cfi_processes::SampleMachine;
use std::alloc::AllocError;

/// Where the registers begin in what a note says of a thread (`pr_reg` of `struct elf_prstatus`).
const PR_REG: u64 = 112;

/// A thread, as a note of the type `NT_PRSTATUS` has it.
#[derive(Copy, Debug)]
pub struct CoreThread<'run> {
    /// The thread's number (`pr_pid`).
    pub tid: u32,
    /// The signal that it was given, or 0 (`pr_cursig`).
    pub signal: u16,
    /// The fault for which it was given that, if the notes tell of it (`si_addr`).
    pub fault: Option<Fault>,
    /// The registers (`pr_reg`), eight bytes each, the least significant first.
    pub registers: &'run [u8],
}

impl Clone for CoreThread<'_> {
    ghost is_clone = { λ x y. y ≡ x };

    ghost is_infallible = { λ _. ⊤ };

    #[inline(always)]
    fn clone(&self) -> Result<Self, AllocError> {
        Ok(*self)
    }
}

impl CoreThread<'_> {
    /// The value of the register with this number of DWARF's; `None` for one that a walk doesn't
    /// need.
    pub fn register(&self, machine: SampleMachine, dwarf_number: usize) -> Option<u64>
        ensures { result ≡ thread_register machine (thread_view self.now) dwarf_number }
    {
        let place = core_place(machine, dwarf_number)?;
        let bytes = entry(self.registers, 8, place)?;
        let fields = Record {
            bytes,
            big_endian: false,
        };
        Some(fields.xword(0))
    }
}

/// The thread of which these bytes tell; `None` where they have too few for its registers.
pub(crate) fn thread_in(machine: SampleMachine, desc: &[u8]) -> Option<CoreThread<'_>>
    ensures { option_map thread_view result ≡ thread_in machine desc.now }
{
    let registers = part(desc, PR_REG, registers_size(machine))?;
    let fields = Record {
        bytes: desc,
        big_endian: false,
    };
    Some(CoreThread {
        tid: fields.word(32),
        signal: fields.half(12),
        fault: None,
        registers,
    })
}
