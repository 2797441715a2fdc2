//! What the records of a profile say, one after the other.
ghost use Rattle.std.specs.Prelude.{◌≡◌, map};
ghost use Rattle.std.specs.Option.{ForSome};
ghost use Rattle.cfi_processes.specs.KnownFiles.{known_view};
ghost use Rattle.cfi_processes.specs.ProcessModules.{modules_in};
ghost use Rattle.cfi_processes.specs.Modules.{loaded_module_view};
ghost use Rattle.cfi_mapped.specs.Processes.{process_mappings};

use crate::process_code::ProcessCode;
use crate::process_modules::FileModule;
use crate::profile_files::ProfileFile;
use cfi_mapped::mappings::MappedCode;
use cfi_mapped::names::Name;
use cfi_mapped::processes::Processes;
use cfi_mapped::threads::Threads;
use cfi_perf::{Event, Fork, Mapping, Program, Record};
use std::alloc::{AllocError, Global};

/// The processes of a profile and the names of its threads, as the records that were followed say,
/// and the modules of one process.
#[derive(Drop)]
pub struct Replay<'a, 'run, 'names> {
    files: &'a [ProfileFile<'run>],
    processes: Processes,
    threads: Threads<'names>,
    modules: Vec<FileModule<'a, 'run>>,
    /// The process whose modules these are.
    pid: Option<u32>,
    ghost loaded: { ForSome pid (λ pid. map loaded_module_view modules.items
        ≡ modules_in (map known_view files.now) (process_mappings processes pid)) },
}

impl<'a, 'run, 'names> Replay<'a, 'run, 'names> {
    ghost use Rattle.std.specs.Prelude.{◌≡◌, ◌≢◌, ℕ, [], None, OnOk, Some, map};
    ghost use Rattle.cfi_perf.specs.Events.{ForkEvent, MappingEvent, ProgramEvent};
    ghost use Rattle.cfi_perf.specs.Events.{mapping_record_view, program_view, record_view};
    ghost use Rattle.cfi_processes.specs.KnownFiles.{known_view};
    ghost use Rattle.cfi_processes.specs.ProcessModules.{modules_in};
    ghost use Rattle.cfi_processes.specs.Modules.{loaded_module_view};
    ghost use Rattle.cfi_mapped.specs.Mappings.{AreMappedInOrder};
    ghost use Rattle.cfi_processes.specs.Replays.{AreModulesFor, HasOwnModules, mapped_after};
    ghost use Rattle.cfi_processes.specs.Replays.{replay_known};
    ghost use Rattle.cfi_processes.specs.Replays.{replay_files, replay_modules, code_of_mapping};
    ghost use Rattle.cfi_processes.specs.Replays.{object_of};
    ghost use Rattle.cfi_processes.specs.Replays.{named_thread, replayed};
    ghost use Rattle.cfi_mapped.specs.ThreadNames.{name_bytes, thread_given, names_after};

    /// No process has anything mapped, and no thread a name. Does not allocate.
    pub fn new(alloc: Global, files: &'a [ProfileFile<'run>]) -> Self
        ensures nothing { (pid : ℕ) → replayed result pid ≡ [] }
        ensures nameless { (tid : ℕ) → named_thread result tid ≡ None }
        ensures files { replay_files result ≡ files.now }
        ensures own { HasOwnModules result }
    {
        Replay {
            files,
            processes: Processes::new(alloc),
            threads: Threads::new(alloc),
            modules: Vec::new(alloc),
            pid: None,
        }
    }

    /// Follows a record. Before a sample, the modules are made those of its process. Fails where
    /// memory is refused.
    pub fn follow(&mut self, item: &Record<'names>) -> Result<(), AllocError>
        ensures processes { OnOk result ((pid : ℕ) → replayed self.new pid
            ≡ mapped_after (replay_known self.old) (record_view item.now).event
            (replayed self.old) pid) }
        ensures names { OnOk result ((tid : ℕ) → named_thread self.new tid
            ≡ names_after (record_view item.now).event (named_thread self.old) tid) }
        ensures modules { OnOk result
            (AreModulesFor (record_view item.now).event self.new) }
        ensures own { HasOwnModules self.old → HasOwnModules self.new }
        ensures files { replay_files self.new ≡ replay_files self.old }
    {
        match item.event {
            Event::Mapping(mapping) => self.map(&mapping),
            Event::Program(program) => self.run(&program),
            Event::Fork(fork) => self.fork(&fork),
            Event::Sample(sample) => self.load(sample.pid),
            Event::Lost(_) => Ok(()),
            Event::Other => Ok(()),
        }
    }

    /// Makes the modules those of a process, as before a sample of it. Fails where memory is
    /// refused. Allocates for the modules.
    pub fn load(&mut self, pid: u32) -> Result<(), AllocError>
        ensures modules { OnOk result (map loaded_module_view (replay_modules self.new)
            ≡ modules_in (replay_known self.new) (replayed self.new pid)) }
        ensures own { HasOwnModules self.old → HasOwnModules self.new }
        ensures processes { (pid : ℕ) → replayed self.new pid ≡ replayed self.old pid }
        ensures names { (tid : ℕ) → named_thread self.new tid ≡ named_thread self.old tid }
        ensures files { replay_files self.new ≡ replay_files self.old }
    {
        if self.pid == Some(pid) {
            return Ok(());
        }
        self.pid = None;
        self.modules.clear();
        let code = ProcessCode {
            mappings: self.processes.mappings(pid),
            files: self.files,
        };
        code.push_modules(&mut self.modules)?;
        self.pid = Some(pid);
        Ok(())
    }

    /// What is mapped in a process, with the files.
    pub fn code(&self, pid: u32) -> ProcessCode<'_, 'a, 'run>
        ensures mappings { result.mappings.now ≡ replayed self.now pid }
        ensures order { AreMappedInOrder 0 result.mappings.now }
        ensures files { result.files.now ≡ replay_files self.now }
    {
        ProcessCode {
            mappings: self.processes.mappings(pid),
            files: self.files,
        }
    }

    /// The name of a thread; `None` where none is known.
    pub fn name(&self, tid: u32) -> Option<Name<'names>>
        ensures { name_bytes result ≡ named_thread self.now tid }
    {
        self.threads.get(tid)
    }

    /// The modules of the process of the sample that was followed last.
    pub fn modules(&self) -> &[FileModule<'a, 'run>]
        ensures { result.now ≡ replay_modules self.now }
    {
        self.modules.as_slice()
    }

    /// A file is mapped.
    fn map(&mut self, mapping: &Mapping<'_>) -> Result<(), AllocError>
        ensures processes { OnOk result ((pid : ℕ) → replayed self.new pid
            ≡ mapped_after (replay_known self.old) (MappingEvent (mapping_record_view mapping.now))
            (replayed self.old) pid) }
        ensures names { self.new.threads ≡ self.old.threads }
        ensures same { self.new.modules ≡ self.old.modules }
        ensures files { replay_files self.new ≡ replay_files self.old }
    {
        self.forget(mapping.pid);
        let new = self.mapped(mapping);
        self.processes.map(mapping.pid, new)
    }

    /// A thread has a new name, and perhaps runs another program.
    fn run(&mut self, program: &Program<'names>) -> Result<(), AllocError>
        ensures processes { (pid : ℕ) → replayed self.new pid
            ≡ mapped_after (replay_known self.old) (ProgramEvent (program_view program.now))
            (replayed self.old) pid }
        ensures names { OnOk result ((tid : ℕ) → named_thread self.new tid
            ≡ thread_given program.now.tid (Some program.now.name.now)
            (named_thread self.old) tid) }
        ensures same { self.new.modules ≡ self.old.modules }
        ensures files { replay_files self.new ≡ replay_files self.old }
    {
        if program.is_exec {
            self.forget(program.pid);
            self.processes.exec(program.pid);
        }
        self.threads.name(program.tid, program.name)
    }

    /// A process or thread was made.
    fn fork(&mut self, fork: &Fork) -> Result<(), AllocError>
        ensures processes { OnOk result ((pid : ℕ) → replayed self.new pid
            ≡ mapped_after (replay_known self.old) (ForkEvent fork.now) (replayed self.old) pid) }
        ensures names { OnOk result ((tid : ℕ) → named_thread self.new tid
            ≡ thread_given fork.now.tid (named_thread self.old fork.now.parent_tid)
            (named_thread self.old) tid) }
        ensures same { self.new.modules ≡ self.old.modules }
        ensures files { replay_files self.new ≡ replay_files self.old }
    {
        self.threads.fork(fork.tid, fork.parent_tid)?;
        // A thread was made, which has what its process has.
        if fork.pid == fork.parent {
            return Ok(());
        }
        self.forget(fork.pid);
        self.processes.fork(fork.pid, fork.parent)
    }

    /// Forgets that the modules are those of this process, since its mappings change.
    fn forget(&mut self, changed: u32)
        ensures other { self.new.pid ≢ Some changed }
        ensures processes { self.new.processes ≡ self.old.processes }
        ensures names { self.new.threads ≡ self.old.threads }
        ensures same { self.new.modules ≡ self.old.modules }
        ensures files { replay_files self.new ≡ replay_files self.old }
    {
        if self.pid == Some(changed) {
            self.pid = None;
        }
    }

    /// Where the file is mapped, up to the last address at most.
    fn mapped(&self, mapping: &Mapping<'_>) -> MappedCode
        ensures { result
            ≡ code_of_mapping (replay_known self.now) (mapping_record_view mapping.now) }
    {
        MappedCode {
            start: mapping.address,
            end: mapping.address.saturating_add(mapping.length),
            offset: mapping.offset,
            object: self.object_of(mapping),
        }
    }

    /// Which of the files is mapped; `None` where it isn't mapped as code.
    fn object_of(&self, mapping: &Mapping<'_>) -> Option<usize>
        ensures { result ≡ object_of (replay_known self.now) (mapping_record_view mapping.now) }
    {
        if mapping.is_executable {
            self.files.iter().position(|file| file.is_of(mapping))
        } else {
            None
        }
    }
}
