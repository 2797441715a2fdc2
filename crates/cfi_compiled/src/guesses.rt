//! Which row may come next.
use crate::steps::NoMemory;
use std::alloc::Global;

/// For each number the one that came after it last: functions begin and end alike.
#[derive(Debug, Drop)]
pub(crate) struct Guesses {
    after: Vec<usize>,
    last: usize,
}

impl Guesses {
    /// Nothing came yet.
    pub(crate) fn new(alloc: Global) -> Self {
        Guesses {
            after: Vec::new(alloc),
            last: 0,
        }
    }

    /// The number that may come next.
    #[inline(always)]
    pub(crate) fn next(&self) -> usize {
        match self.after.get(self.last) {
            Some(number) => *number,
            None => 0,
        }
    }

    /// This number came.
    #[inline(always)]
    pub(crate) fn learn(&mut self, number: usize) -> Result<(), NoMemory> {
        if self.after.len() <= self.last {
            self.after.resize(self.last.saturating_add(1), 0)?;
        }
        if let Some(after) = self.after.get_mut(self.last) {
            *after = number;
        }
        self.last = number;
        Ok(())
    }
}
