//! The call chain of a sample (perf_event_open(2), `PERF_SAMPLE_CALLCHAIN`).
ghost use Rattle.std.specs.Prelude.{◌≡◌};
ghost use Rattle.std.specs.Iterator.{YieldsFirst};
ghost use Rattle.cfi_perf.specs.CallChains.{addresses_left, at_first, chain_left};

use cfi_read_core::{EndianSlice, Reader, RunTimeEndian};

/// The calls of the kernel follow.
pub(crate) const PERF_CONTEXT_KERNEL: u64 = 0xffff_ffff_ffff_ff80;

/// The calls of user space follow.
pub(crate) const PERF_CONTEXT_USER: u64 = 0xffff_ffff_ffff_fe00;

/// The least entry that is a context.
const PERF_CONTEXT_MAX: u64 = 0xffff_ffff_ffff_f001;

/// The size of an entry, in bytes.
const ENTRY_SIZE: usize = 8;

/// The calls that led to the instruction of a sample, as the kernel found them: addresses from the
/// innermost one out, in contexts.
#[derive(Clone, Copy, Debug)]
pub struct CallChain<'input> {
    bytes: &'input [u8],
    endian: RunTimeEndian,
}

impl<'input> CallChain<'input> {
    ghost use Rattle.cfi_read_core.specs.ByteOrder.{is_big};
    ghost use Rattle.cfi_perf.specs.CallChains.{PERF_CONTEXT_USER, chain_view, in_context};
    ghost use Rattle.cfi_perf.specs.ByteReads.{numbers_of};

    /// The call chain with these entries of eight bytes.
    #[inline(always)]
    pub(crate) fn new(bytes: &'input [u8], endian: RunTimeEndian) -> Self
        ensures { chain_view result ≡ numbers_of (is_big endian) bytes.now }
    {
        CallChain { bytes, endian }
    }

    /// The addresses of one context. Before the first context the calls are those of user space.
    pub(crate) fn addresses(&self, wanted: u64) -> Addresses<'input>
        ensures { addresses_left result
            ≡ in_context wanted PERF_CONTEXT_USER (chain_view self.now) }
    {
        Addresses {
            first: None,
            entries: EndianSlice::new(self.bytes, self.endian),
            left: self.bytes.len() / ENTRY_SIZE,
            context: PERF_CONTEXT_USER,
            wanted,
        }
    }
}

/// An iterator over addresses of a sample's frames, from the innermost one out. That of a caller is
/// its return address. Does not allocate.
#[derive(Clone, Copy, Debug)]
pub struct Addresses<'input> {
    /// One that comes before the others.
    first: Option<u64>,
    entries: EndianSlice<'input, RunTimeEndian>,
    /// How many entries are left.
    left: usize,
    /// The context that the entries begin in.
    context: u64,
    wanted: u64,
}

impl<'input> Addresses<'input> {
    /// One address alone, if there is one.
    pub(crate) fn alone(address: Option<u64>) -> Addresses<'input>
        ensures { addresses_left result ≡ at_first address }
    {
        Addresses {
            first: address,
            entries: EndianSlice::new(&[], RunTimeEndian::Little),
            left: 0,
            context: PERF_CONTEXT_USER,
            wanted: PERF_CONTEXT_USER,
        }
    }

    /// The next address that stands in the entries.
    fn next_entry(&mut self) -> Option<u64>
        ensures next { YieldsFirst chain_left self.old result self.new }
        ensures first { self.new.first ≡ self.old.first }
    {
        while self.left > 0 {
            self.left -= 1;
            let Ok(entry) = self.entries.read_u64() else {
                self.left = 0;
                return None;
            };
            if entry >= PERF_CONTEXT_MAX {
                self.context = entry;
            } else if self.context == self.wanted {
                return Some(entry);
            }
        }
        None
    }
}

impl Iterator for Addresses<'_> {
    ghost use Rattle.std.specs.Iterator.{YieldsFirst, item_count};
    ghost use Rattle.cfi_perf.specs.CallChains.{addresses_left};

    type Item = u64;

    ghost next_gives = { YieldsFirst addresses_left };

    ghost remaining = { item_count addresses_left };

    fn next(&mut self) -> Option<u64> {
        match self.first {
            Some(address) => {
                self.first = None;
                Some(address)
            }
            None => self.next_entry(),
        }
    }
}
