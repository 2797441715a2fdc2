//! The names of threads, as the records of a profile say one after the other.

use crate::names::Name;
use std::alloc::{AllocError, Global};
use std::collections::BTreeMap;

/// The names of threads. A thread has the name that it was given last, and a new thread that of the
/// one that made it.
#[derive(Debug, Drop)]
pub struct Threads<'names> {
    by_tid: BTreeMap<u32, Name<'names>>,
}

impl<'names> Threads<'names> {
    ghost use Rattle.std.specs.Prelude.{◌≡◌, ℕ, None, OnOk, Some, option_map};
    ghost use Rattle.cfi_mapped.specs.ThreadNames.{name_bytes, thread_given, name_of_thread};

    /// No thread has a name yet. Does not allocate.
    pub fn new(alloc: Global) -> Threads<'names>
        ensures { (tid : ℕ) → name_of_thread result tid ≡ None }
    {
        Threads {
            by_tid: BTreeMap::new(alloc),
        }
    }

    /// A thread was given a name. Fails where memory is refused.
    pub fn name(&mut self, tid: u32, name: &'names [u8]) -> Result<(), AllocError>
        ensures { OnOk result ((t : ℕ) → name_of_thread self.new t
            ≡ thread_given tid (Some name.now) (name_of_thread self.old) t) }
    {
        self.by_tid.insert(tid, Name::new(name))?;
        Ok(())
    }

    /// A thread was made by another one, whose name it has. Fails where memory is refused.
    pub fn fork(&mut self, tid: u32, parent: u32) -> Result<(), AllocError>
        ensures { OnOk result ((t : ℕ) → name_of_thread self.new t
            ≡ thread_given tid (name_of_thread self.old parent) (name_of_thread self.old) t) }
    {
        match self.get(parent) {
            Some(name) => {
                self.by_tid.insert(tid, name)?;
            }
            None => {
                self.by_tid.remove(&tid);
            }
        }
        Ok(())
    }

    /// The name of a thread; `None` where none is known. A search by halving.
    pub fn get(&self, tid: u32) -> Option<Name<'names>>
        ensures { name_bytes result ≡ name_of_thread self.now tid }
    {
        match self.by_tid.get(&tid) {
            Some(name) => Some(*name),
            None => None,
        }
    }
}
