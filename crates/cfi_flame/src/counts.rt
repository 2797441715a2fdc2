//! Samples that are counted by their stacks.
ghost use Rattle.std.specs.Prelude.{◌≡◌, ◌<◌, ◌^◌, ◌+◌, [], IfErr, None, OnOk};
ghost use Rattle.std.specs.List.{flat_map};
ghost use Rattle.std.specs.BTreeMap.{get_by};
ghost use Rattle.std.specs.Cmp.Lexicographic.{slice_cmp};
ghost use Rattle.std.specs.Ordering.{nat_cmp};
ghost use Rattle.cfi_flame.specs.declared.folded.FoldedError.TheVariants.{OutOfMemory};
ghost use Rattle.cfi_flame.specs.FoldedCounts.{AreCounted, CountsMore, IsNotAdded, IsNotRaised};
ghost use Rattle.cfi_flame.specs.FoldedCounts.{counted_in, line_text};
ghost use Rattle.cfi_text.specs.Texts.{Puts};

use crate::folded::FoldedError;
use cfi_text::text::Text;
use std::alloc::Global;
use std::collections::BTreeMap;

/// Samples that are counted by their stacks. Keeps one text for each different stack.
#[derive(Drop)]
pub struct StackCounts {
    counts: BTreeMap<Vec<u8>, u64>,
}

impl StackCounts {
    /// Returns the counts of no samples. Does not allocate.
    pub fn new(alloc: Global) -> StackCounts
        ensures { AreCounted [] (counted_in result) }
    {
        StackCounts {
            counts: BTreeMap::new(alloc),
        }
    }

    /// Counts so many samples with this stack.
    ///
    /// Fails with `TooManySamples` where the stack then has 2^64 or more, and with `OutOfMemory`.
    /// Allocates for a stack that wasn't there.
    pub fn add(&mut self, alloc: Global, frames: &[u8], count: u64) -> Result<(), FoldedError>
        ensures counted { OnOk result
            (CountsMore frames.now count (counted_in self.old) (counted_in self.new)) }
        ensures refused { IfErr result (IsNotAdded frames.now count (counted_in self.old)) }
    {
        match self.counts.get_mut(frames) {
            Some(known) => raise(known, count),
            None => self.add_first(alloc, frames, count),
        }
    }

    /// Counts the first sample with this stack.
    fn add_first(&mut self, alloc: Global, frames: &[u8], count: u64) -> Result<(), FoldedError>
        requires { get_by (λ key. slice_cmp nat_cmp frames.now key.items) self.old.counts ≡ None }
        ensures counted { OnOk result
            (CountsMore frames.now count (counted_in self.old) (counted_in self.new)) }
        ensures refused { IfErr result (λ error. error ≡ OutOfMemory) }
    {
        let Ok(key) = Vec::from_slice(alloc, frames) else {
            return Err(FoldedError::OutOfMemory);
        };
        let Ok(_) = self.counts.insert(key, count) else {
            return Err(FoldedError::OutOfMemory);
        };
        Ok(())
    }

    /// Appends a line for each stack, in the order of their bytes: the stack, a space and the
    /// number of its samples.
    pub fn put_lines(&self, text: &mut Text)
        ensures { Puts (flat_map line_text (counted_in self.now)) text.old text.new }
    {
        for (frames, count) in self.counts.iter() {
            put_line(text, frames.as_slice(), *count);
        }
    }
}

/// Raises the number of samples of a stack.
fn raise(known: &mut u64, count: u64) -> Result<(), FoldedError>
    ensures ok { OnOk result (known.new ≡ known.old + count) }
    ensures small { OnOk result (known.old + count < 2 ^ 64) }
    ensures refused { IfErr result (IsNotRaised known.old count) }
{
    match known.checked_add(count) {
        Some(sum) => {
            *known = sum;
            Ok(())
        }
        None => Err(FoldedError::TooManySamples),
    }
}

/// Appends the line of a stack.
fn put_line(text: &mut Text, frames: &[u8], count: u64)
    ensures { Puts (line_text (record { frames = frames.now; count = count }))
        text.old text.new }
{
    text.put(frames);
    text.put(b" ");
    text.number(count);
    text.put(b"\n");
}
