//! The stack of a DWARF expression.
ghost use Rattle.std.specs.Prelude.{◌≡◌, []};
ghost use Rattle.cfi_expression.specs.Stacks.{Acts, pick, pop, push};

use crate::error::FrameError;
use arrayvec::ArrayVec;
use std::marker::Model;

/// The stack of a DWARF expression (DWARF 5 section 2.5.1), of at most 32 entries.
#[derive(Drop)]
pub(crate) struct Stack {
    // the top is the last one
    entries: ArrayVec<u64, 32>,
}

impl Model for Stack {
    ghost use Rattle.std.specs.Prelude.{ℕ, List, reverse};

    ghost Value = { List ℕ };

    ghost view = { λ stack. reverse stack.entries.items };
}

impl Stack {
    /// An empty stack.
    pub(crate) fn new() -> Self
        ensures { result ≡ [] }
    {
        Stack {
            entries: ArrayVec::new(),
        }
    }

    /// Puts an entry on top. Returns `FrameError::StackFull` if there is no room.
    pub(crate) fn push(&mut self, entry: u64) -> Result<(), FrameError>
        ensures { Acts (λ x. x) (push entry) self.old result self.new }
    {
        match self.entries.try_push(entry) {
            Ok(()) => Ok(()),
            Err(_full) => Err(FrameError::StackFull),
        }
    }

    /// Takes the top entry. Returns `FrameError::NotEnoughStackItems` if there is none.
    pub(crate) fn pop(&mut self) -> Result<u64, FrameError>
        ensures { Acts (λ x. x) pop self.old result self.new }
    {
        match self.entries.pop() {
            Some(entry) => Ok(entry),
            None => Err(FrameError::NotEnoughStackItems),
        }
    }

    /// The entry at an index, which is 0 for the top. Returns `FrameError::NotEnoughStackItems` if
    /// there is none.
    pub(crate) fn pick(&self, index: u8) -> Result<u64, FrameError>
        ensures { result ≡ pick self.now index }
    {
        let index = usize::from(index);
        let entries = self.entries.as_slice();
        if index < entries.len() {
            Ok(entries[entries.len() - 1 - index])
        } else {
            Err(FrameError::NotEnoughStackItems)
        }
    }
}
