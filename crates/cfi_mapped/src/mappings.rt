//! What is mapped where in a process.
ghost use Rattle.std.specs.Prelude.{◌≡◌, ◌<◌, IfOk};
ghost use Rattle.cfi_mapped.specs.Mappings.{mapped_over};

use std::alloc::{AllocError, Global};
use std::marker::Model;

/// Code of a file that is mapped into a process.
#[derive(Clone, Copy, Debug, PartialEq, Eq)]
pub struct MappedCode {
    /// The first address.
    pub start: u64,
    /// The first address after it. At or below `start` it has no bytes.
    pub end: u64,
    /// The place in the file of the byte at `start`. Places are counted modulo 2^64.
    pub offset: u64,
    /// Which of the profile's files it is; `None` for memory that is no file's, or no code.
    pub object: Option<usize>,
}

impl MappedCode {
    ghost use Rattle.std.specs.Prelude.{◌≡◌, ◌<◌, ◌↔◌, IsTrue};
    ghost use Rattle.cfi_mapped.specs.Mappings.{part_below, part_from};

    /// Whether it has a byte.
    pub(crate) fn has_bytes(&self) -> bool
        ensures { IsTrue result ↔ (self.now.start < self.now.end) }
    {
        self.start < self.end
    }

    /// What of it is below an address, if anything is.
    fn part_below(&self, limit: u64) -> Option<MappedCode>
        ensures { result ≡ part_below limit self.now }
    {
        if limit <= self.start {
            None
        } else if self.end <= limit {
            Some(*self)
        } else {
            Some(MappedCode {
                end: limit,
                ..*self
            })
        }
    }

    /// What of it is at an address or above it, if anything is.
    fn part_from(&self, limit: u64) -> Option<MappedCode>
        ensures { result ≡ part_from limit self.now }
    {
        if self.end <= limit {
            None
        } else if limit <= self.start {
            Some(*self)
        } else {
            Some(MappedCode {
                start: limit,
                offset: self.offset.wrapping_add(limit - self.start),
                ..*self
            })
        }
    }
}

/// What is mapped in a process, in the order of addresses. No two overlap, and each has a byte.
#[derive(Debug, Drop)]
pub struct Mappings {
    list: Vec<MappedCode>,
}

impl Model for Mappings {
    ghost use Rattle.std.specs.Prelude.{List};
    ghost use Rattle.cfi_mapped.specs.declared.mappings.MappedCode.{MappedCode};

    ghost Value = { List MappedCode };

    ghost use Rattle.cfi_mapped.specs.Mappings.{AreMappedInOrder};

    ghost view = { λ mappings. mappings.list.items };

    ghost invariant = { λ mappings. AreMappedInOrder 0 mappings.list.items };
}

impl Mappings {
    ghost use Rattle.std.specs.Prelude.{◌≡◌, ◌<◌, [], IfOk, OnErr, OnOk};
    ghost use Rattle.cfi_mapped.specs.Mappings.{AreMappedInOrder, IsMappedOver, mapped_over};

    /// Nothing is mapped yet. Does not allocate.
    pub fn new(alloc: Global) -> Self
        ensures { result ≡ [] }
    {
        Mappings {
            list: Vec::new(alloc),
        }
    }

    /// All of them, in the order of their addresses.
    pub fn as_slice(&self) -> &[MappedCode]
        ensures all { result.now ≡ self.now }
        ensures order { AreMappedInOrder 0 result.now }
    {
        self.list.as_slice()
    }

    /// Maps over what was there before, as mmap(2) does with `MAP_FIXED`: what the new mapping
    /// covers is gone, the rest stays. So of an old mapping a part below the new one may stay, and
    /// a part above it. A new mapping without bytes changes nothing.
    ///
    /// Searches by halving, allocates for what is mapped where the new one is, and moves what is
    /// mapped above it. Fails where memory is refused; then everything is as before.
    pub fn map(&mut self, alloc: Global, new: MappedCode) -> Result<(), AllocError>
        ensures list { OnOk result (self.new ≡ mapped_over new self.old) }
        ensures places { OnOk result (IsMappedOver new self.old self.new) }
        ensures err { OnErr result (self.new ≡ self.old) }
    {
        if new.has_bytes() {
            self.put(alloc, new)
        } else {
            Ok(())
        }
    }

    /// Puts a new mapping, and what stays beside it, in place of those of which it covers a byte.
    fn put(&mut self, alloc: Global, new: MappedCode) -> Result<(), AllocError>
        requires bytes { new.start < new.end }
        ensures list { OnOk result (self.new ≡ mapped_over new self.old) }
        ensures err { OnErr result (self.new ≡ self.old) }
    {
        let list = self.list.as_slice();
        let below = list.partition_point(|mapped| mapped.end <= new.start);
        let begun = list.partition_point(|mapped| mapped.start < new.end);
        let there = over(alloc, &list[below..begun], new)?;
        self.list.splice(below..begun, there)?;
        Ok(())
    }

    /// These mappings, in a new list.
    pub(crate) fn of(alloc: Global, list: &[MappedCode]) -> Result<Self, AllocError>
        requires { AreMappedInOrder 0 list.now }
        ensures { IfOk result (λ mappings. mappings ≡ list.now) }
    {
        Ok(Mappings {
            list: list.iter().copied().collect(alloc)?,
        })
    }
}

/// A new mapping over these, in a new list.
fn over(alloc: Global, old: &[MappedCode], new: MappedCode) -> Result<Vec<MappedCode>, AllocError>
    requires bytes { new.start < new.end }
    ensures { IfOk result (λ list. list.items ≡ mapped_over new old.now) }
{
    let mut list = Vec::with_capacity(alloc, old.len() + 2)?;
    list.extend(old.iter().filter_map(|mapped| mapped.part_below(new.start)))?;
    list.push(new)?;
    list.extend(old.iter().filter_map(|mapped| mapped.part_from(new.end)))?;
    Ok(list)
}
