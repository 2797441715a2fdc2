//! The process of a core file.
use cfi_mapped::Name;
use cfi_processes::process_code::ProcessCode;
use cfi_processes::process_modules::FileModule;
use cfi_processes::registers::SampleMachine;

/// The process of a core file, which is the same for all of its threads.
#[derive(Drop)]
pub struct CoreProcess<'a, 'files, 'run> {
    pub machine: SampleMachine,
    /// What is mapped in it.
    pub code: ProcessCode<'a, 'files, 'run>,
    /// Those of what is mapped.
    pub modules: &'a [FileModule<'files, 'run>],
    /// Its name, if it has one.
    pub name: Option<Name<'a>>,
}
