//! Numbers that are found by a hash of what they name.
ghost use Rattle.std.specs.Prelude.{ℕ, IfSome, IsTrue};

use crate::steps::NoMemory;
use std::alloc::Global;

/// What is looked for.
pub(crate) trait Sought {
    /// What holds of the number of what is looked for.
    ghost IsAt: { Self → ℕ → Type 0 };

    /// Whether this number names it.
    fn is(&self, number: usize) -> bool
        ensures { IsTrue result → IsAt self.now number };
}

/// A number and one, or zero for none, with its hash.
#[derive(Clone, Copy, Debug)]
struct Slot {
    hash: u32,
    next: u32,
}

/// Slots, at least half of which are empty. A number is looked for from the slot of its hash on, up
/// to the first empty one.
#[derive(Debug, Drop)]
pub(crate) struct Slots {
    slots: Vec<Slot>,
    used: usize,
}

impl Slots {
    /// No number yet.
    pub(crate) fn new(alloc: Global) -> Self {
        Slots {
            slots: Vec::new(alloc),
            used: 0,
        }
    }

    /// The number of what is looked for, which has this hash, if it was written.
    #[inline(always)]
    pub(crate) fn find<S: Sought>(&self, hash: u32, sought: &S) -> Option<usize>
        ensures { IfSome result (S.IsAt sought.now) }
    {
        let slots = self.slots.as_slice();
        let mut place = first_place(hash, slots.len());
        for _probe in 0..slots.len() {
            let Some(slot) = slots.get(place) else {
                return None;
            };
            if slot.next == 0 {
                return None;
            }
            let number = slot.next.wrapping_sub(1) as usize;
            if slot.hash == hash && sought.is(number) {
                return Some(number);
            }
            place = next_place(place, slots.len());
        }
        None
    }

    /// Writes a number with its hash. A number of more than 32 bits is left out: what it names is
    /// not found again.
    pub(crate) fn write(&mut self, hash: u32, number: usize) -> Result<(), NoMemory> {
        let Ok(next) = u32::try_from(number.wrapping_add(1)) else {
            return Ok(());
        };
        if self.slots.len() / 2 <= self.used {
            self.grow()?;
        }
        put(self.slots.as_mut_slice(), Slot { hash, next });
        self.used = self.used.wrapping_add(1);
        Ok(())
    }

    /// Makes four times as many slots, and writes the numbers again.
    fn grow(&mut self) -> Result<(), NoMemory> {
        let count = self.slots.len().saturating_mul(4).saturating_add(16);
        let mut more = Vec::with_capacity(*self.slots.allocator(), count)?;
        more.resize(count, Slot { hash: 0, next: 0 })?;
        for slot in self.slots.as_slice() {
            if slot.next != 0 {
                put(more.as_mut_slice(), *slot);
            }
        }
        self.slots = more;
        Ok(())
    }
}

/// Writes into the first empty slot from that of the hash on.
fn put(slots: &mut [Slot], written: Slot) {
    let count = slots.len();
    let mut place = first_place(written.hash, count);
    for _probe in 0..count {
        match slots.get_mut(place) {
            Some(slot) => {
                if slot.next == 0 {
                    *slot = written;
                    return;
                }
            }
            None => return,
        }
        place = next_place(place, count);
    }
}

/// The slot of a hash: as far among the slots as the hash is among the numbers of 32 bits.
#[inline(always)]
fn first_place(hash: u32, count: usize) -> usize {
    (u64::from(hash).wrapping_mul(count as u64) >> 32) as usize
}

/// The slot after this one; the first one follows the last.
#[inline(always)]
fn next_place(place: usize, count: usize) -> usize {
    let next = place.wrapping_add(1);
    if next < count { next } else { 0 }
}
