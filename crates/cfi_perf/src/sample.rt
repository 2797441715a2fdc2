//! Samples, and the state of user space that they have (perf_event_open(2), `PERF_RECORD_SAMPLE`).
ghost use Rattle.std.specs.Prelude.{◌≡◌, ◌*◌, ⊤, count_ones, length};

use crate::bytes::bytes_from;
use crate::call_chain::{Addresses, CallChain, PERF_CONTEXT_KERNEL, PERF_CONTEXT_USER};
use cfi_read_core::{EndianSlice, Reader, RunTimeEndian};
use std::alloc::AllocError;

/// A sample. A number that its event doesn't record is 0. Its time is that of the record.
#[derive(Copy, Debug)]
pub struct Sample<'input> {
    /// The process (`PERF_SAMPLE_TID`).
    pub pid: u32,
    /// The thread (`PERF_SAMPLE_TID`).
    pub tid: u32,
    /// The address of the instruction, which may be the kernel's (`PERF_SAMPLE_IP`).
    pub ip: u64,
    /// The processor (`PERF_SAMPLE_CPU`). `None` where its event doesn't record it.
    pub cpu: Option<u32>,
    /// How many events it stands for (`PERF_SAMPLE_PERIOD`), or else its event's `sample_period`.
    pub period: u64,
    /// The name of its event, as `perf record` left it (`HEADER_EVENT_DESC`); else the kernel's
    /// name of an event of the processor's or its own, or `unknown`.
    pub event: &'input [u8],
    /// Whether its instruction is the kernel's (`PERF_RECORD_MISC_KERNEL`).
    pub in_kernel: bool,
    /// The calls that led to the instruction (`PERF_SAMPLE_CALLCHAIN`). `None` where its event
    /// doesn't record them.
    pub call_chain: Option<CallChain<'input>>,
    /// Whether its event records the registers and a copy of the stack of user space
    /// (`PERF_SAMPLE_REGS_USER`, `PERF_SAMPLE_STACK_USER`). A sample may still have neither.
    pub copies_stack: bool,
    /// The registers and the stack of user space.
    pub user: UserState<'input>,
}

impl<'input> Sample<'input> {
    ghost use Rattle.cfi_perf.specs.CallChains.{addresses_left};
    ghost use Rattle.cfi_perf.specs.Samples.{kernel_frames, sample_view, user_frames};

    /// The addresses of the kernel's frames: those of the call chain, or of the instruction where
    /// there is no call chain and it is the kernel's.
    pub fn kernel_frames(&self) -> Addresses<'input>
        ensures { addresses_left result ≡ kernel_frames (sample_view self.now) }
    {
        match self.call_chain {
            Some(chain) => chain.addresses(PERF_CONTEXT_KERNEL),
            None => Addresses::alone(if self.in_kernel { Some(self.ip) } else { None }),
        }
    }

    /// The addresses of the frames of user space: those of the call chain, which has none where
    /// stacks are copied, or of the instruction where there is no call chain and it isn't the
    /// kernel's.
    pub fn user_frames(&self) -> Addresses<'input>
        ensures { addresses_left result ≡ user_frames (sample_view self.now) }
    {
        match self.call_chain {
            Some(chain) => chain.addresses(PERF_CONTEXT_USER),
            None => Addresses::alone(if self.in_kernel { None } else { Some(self.ip) }),
        }
    }
}

/// What a sample has of user space: its registers, and a copy of its stack.
#[derive(Copy, Debug)]
pub struct UserState<'input> {
    /// The registers (`PERF_SAMPLE_REGS_USER`). `None` where the sample has none, as that of a
    /// thread of the kernel.
    pub registers: Option<UserRegisters<'input>>,
    /// The bytes of the stack from the stack pointer on, as many as were copied
    /// (`PERF_SAMPLE_STACK_USER`). Empty where the sample has none.
    pub stack: &'input [u8],
}

/// The registers of user space in a sample.
#[derive(Debug)]
pub struct UserRegisters<'input> {
    /// Whether the process has registers of 32 bits (`PERF_SAMPLE_REGS_ABI_32` is 1) or of 64
    /// (`PERF_SAMPLE_REGS_ABI_64` is 2).
    pub abi: u64,
    mask: u64,
    values: &'input [u8],
    endian: RunTimeEndian,
    ghost whole: { length values.now ≡ count_ones mask * 8 },
}

impl<'input> UserRegisters<'input> {
    ghost use Rattle.std.specs.Prelude.{◌↔◌, IsSome, IsTrue};
    ghost use Rattle.cfi_read_core.specs.ByteOrder.{is_big};
    ghost use Rattle.cfi_perf.specs.Samples.{has_register, sampled_register, registers_view};

    /// Returns the registers whose bits are set in `mask`, with their values in that order.
    #[inline(always)]
    pub(crate) fn new(abi: u64, mask: u64, values: &'input [u8], endian: RunTimeEndian) -> Self
        requires { length values.now ≡ count_ones mask * 8 }
        ensures { registers_view result
            ≡ record { abi = abi; mask = mask; values = values.now; big_endian = is_big endian } }
    {
        UserRegisters {
            abi,
            mask,
            values,
            endian,
        }
    }

    /// The register with this number of perf's (`asm/perf_regs.h` of the machine). Returns `None`
    /// where the sample doesn't have it.
    pub fn get(&self, number: u32) -> Option<u64>
        ensures value { result ≡ sampled_register (registers_view self.now) number }
        ensures there { IsSome result ↔ IsTrue (has_register (registers_view self.now) number) }
    {
        let mask = self.mask;
        if number >= 64 {
            return None;
        }
        let bit = 1u64 << number;
        if mask / bit % 2 == 0 {
            return None;
        }
        let before = (mask % bit).count_ones();
        let mut values = EndianSlice::new(
            bytes_from(self.values, 8 * u64::from(before)),
            self.endian,
        );
        match values.read_u64() {
            Ok(value) => Some(value),
            Err(_) => None,
        }
    }
}

impl Clone for Sample<'_> {
    ghost is_clone = { λ x y. y ≡ x };

    ghost is_infallible = { λ _. ⊤ };

    #[inline(always)]
    fn clone(&self) -> std::result::Result<Self, AllocError> {
        Ok(*self)
    }
}

impl Clone for UserState<'_> {
    ghost is_clone = { λ x y. y ≡ x };

    ghost is_infallible = { λ _. ⊤ };

    #[inline(always)]
    fn clone(&self) -> std::result::Result<Self, AllocError> {
        Ok(*self)
    }
}

impl Clone for UserRegisters<'_> {
    ghost is_clone = { λ x y. y ≡ x };

    ghost is_infallible = { λ _. ⊤ };

    #[inline(always)]
    fn clone(&self) -> std::result::Result<Self, AllocError> {
        Ok(*self)
    }
}

impl Copy for UserRegisters<'_> {}
