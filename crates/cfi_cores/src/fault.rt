//! The fault for which a thread got a signal.
ghost use Rattle.std.specs.Prelude.{◌≡◌, option_map};
ghost use Rattle.cfi_cores.specs.Faults.{fault_by, fault_in, tells_address, is_of_fault};

use cfi_elf::bytes::Record;

const SIGILL: u32 = 4;

const SIGTRAP: u32 = 5;

const SIGBUS: u32 = 7;

const SIGFPE: u32 = 8;

const SIGSEGV: u32 = 11;

/// The code of a signal of the kernel's that doesn't say where the fault is.
const SI_KERNEL: u32 = 0x80;

/// How many bytes `siginfo_t` has up to the address and with it.
const INFO_SIZE: usize = 24;

/// A fault, as the kernel tells of it (`siginfo_t`, sigaction(2)).
#[derive(Clone, Copy, Debug)]
pub struct Fault {
    /// Which fault it is (`si_code`), by the signal.
    pub code: u32,
    /// Where it is (`si_addr`): the address that was accessed, or that of the instruction.
    pub address: u64,
}

/// The fault of which a note of the type `NT_SIGINFO` tells, if there is one and the note tells of
/// one.
pub(crate) fn fault_by(siginfo: Option<&[u8]>) -> Option<Fault>
    ensures { result ≡ fault_by (option_map (λ desc. desc.now) siginfo.entry) }
{
    match siginfo {
        Some(desc) => fault_in(desc),
        None => None,
    }
}

/// The fault of which these bytes tell; `None` where they have too few, or tell of none.
fn fault_in(desc: &[u8]) -> Option<Fault>
    ensures { result ≡ fault_in desc.now }
{
    if desc.len() < INFO_SIZE {
        return None;
    }
    let fields = Record {
        bytes: desc,
        big_endian: false,
    };
    let code = fields.word(8);
    if tells_address(fields.word(0), code) {
        Some(Fault {
            code,
            address: fields.xword(16),
        })
    } else {
        None
    }
}

/// Whether the kernel says an address with a signal of this code. Codes from 2^31 on, negative
/// ones, and 0 are those of signals that a process sent.
fn tells_address(signal: u32, code: u32) -> bool
    ensures { result ≡ tells_address signal code }
{
    is_of_fault(signal) && 1 <= code && code < SI_KERNEL
}

/// Whether a signal is one that the kernel sends for a fault.
fn is_of_fault(signal: u32) -> bool
    ensures { result ≡ is_of_fault signal }
{
    signal == SIGILL
        || signal == SIGTRAP
        || signal == SIGBUS
        || signal == SIGFPE
        || signal == SIGSEGV
}
