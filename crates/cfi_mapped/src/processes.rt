//! What is mapped where in each process, as the records of a profile say one after the other.

use crate::mappings::{MappedCode, Mappings};
use std::alloc::{AllocError, Global};
use std::collections::BTreeMap;

/// What is mapped in each process. A process of which nothing was said has nothing mapped.
///
/// An address of a process belongs to the file that was mapped there last, since the process last
/// began to run a program. A new process has what its parent had when it was made.
#[derive(Debug, Drop)]
pub struct Processes {
    alloc: Global,
    by_pid: BTreeMap<u32, Mappings>,
}

impl Processes {
    ghost use Rattle.std.specs.Prelude.{◌≡◌, ℕ, [], OnErr, OnOk};
    ghost use Rattle.cfi_mapped.specs.Mappings.{AreMappedInOrder};
    ghost use Rattle.cfi_mapped.specs.Histories.{mapped, executed, forked};
    ghost use Rattle.cfi_mapped.specs.Processes.{Continues, IsAfter, IsChangedBy, IsUnchanged};
    ghost use Rattle.cfi_mapped.specs.Processes.{process_mappings};

    /// Nothing is mapped in any process yet. Does not allocate.
    pub fn new(alloc: Global) -> Self
        ensures nothing { (pid : ℕ) → process_mappings result pid ≡ [] }
        ensures history { IsAfter [] result }
    {
        Processes {
            alloc,
            by_pid: BTreeMap::new(alloc),
        }
    }

    /// A file was mapped into a process, over what was mapped there before (`Mappings::map`).
    ///
    /// Allocates for what is mapped where the new one is, and for the process if nothing was mapped
    /// in it. Fails where memory is refused; then everything is as before.
    pub fn map(&mut self, pid: u32, new: MappedCode) -> Result<(), AllocError>
        ensures changed { OnOk result (IsChangedBy (mapped pid new) self.old self.new) }
        ensures history { OnOk result (Continues (mapped pid new) self.old self.new) }
        ensures err { OnErr result (IsUnchanged self.old self.new) }
    {
        match self.by_pid.get_mut(&pid) {
            Some(mappings) => mappings.map(self.alloc, new),
            None => self.map_first(pid, new),
        }
    }

    /// A file was mapped into a process of which nothing is known.
    fn map_first(&mut self, pid: u32, new: MappedCode) -> Result<(), AllocError>
        requires { process_mappings self.old pid ≡ [] }
        ensures changed { OnOk result (IsChangedBy (mapped pid new) self.old self.new) }
        ensures history { OnOk result (Continues (mapped pid new) self.old self.new) }
        ensures err { OnErr result (IsUnchanged self.old self.new) }
    {
        let mut mappings = Mappings::new(self.alloc);
        mappings.map(self.alloc, new)?;
        self.by_pid.insert(pid, mappings)?;
        Ok(())
    }

    /// A process began to run a program, as by execve(2): nothing of it is mapped any more.
    pub fn exec(&mut self, pid: u32)
        ensures changed { IsChangedBy (executed pid) self.old self.new }
        ensures history { Continues (executed pid) self.old self.new }
    {
        self.by_pid.remove(&pid);
    }

    /// A process was made by its parent, as by fork(2): it has what its parent has, in place of
    /// what it had. A thread, whose process is its own parent, changes nothing.
    ///
    /// Allocates a list for what is mapped in the parent. Fails where memory is refused; then
    /// everything is as before.
    pub fn fork(&mut self, pid: u32, parent: u32) -> Result<(), AllocError>
        ensures changed { OnOk result (IsChangedBy (forked pid parent) self.old self.new) }
        ensures history { OnOk result (Continues (forked pid parent) self.old self.new) }
        ensures err { OnErr result (IsUnchanged self.old self.new) }
    {
        if pid != parent {
            let mappings = Mappings::of(self.alloc, self.mappings(parent))?;
            self.by_pid.insert(pid, mappings)?;
        }
        Ok(())
    }

    /// What is mapped in a process, in the order of addresses; nothing where it isn't known. A
    /// search among the processes by halving.
    pub fn mappings(&self, pid: u32) -> &[MappedCode]
        ensures mappings { result.now ≡ process_mappings self.now pid }
        ensures order { AreMappedInOrder 0 result.now }
    {
        match self.by_pid.get(&pid) {
            Some(mappings) => mappings.as_slice(),
            None => &[],
        }
    }
}
