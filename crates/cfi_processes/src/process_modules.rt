//! What is mapped in a process as modules, by which its stacks are unwound.
ghost use Rattle.std.specs.Prelude.{◌≡◌, ◌++◌, IfSome, OnOk, map, option_map};
ghost use Rattle.cfi_processes.specs.KnownFiles.{known_view};
ghost use Rattle.cfi_processes.specs.ProcessModules.{mapped_module, file_module, modules_in};
ghost use Rattle.cfi_processes.specs.FileModules.{AreModulesOfFiles, IsModuleOf, IsModuleOfFiles};
ghost use Rattle.cfi_processes.specs.Modules.{loaded_module_view};

use crate::process_code::ProcessCode;
use crate::profile_files::ProfileFile;
use cfi_mapped::mappings::MappedCode;
use cfi_step::LoadedModule;
use gimli_cfi::{EndianSlice, RunTimeEndian};
use std::alloc::AllocError;

/// A module of a profile's file.
pub type FileModule<'a, 'run> = LoadedModule<'a, EndianSlice<'run, RunTimeEndian>>;

impl<'a, 'files, 'run> ProcessCode<'a, 'files, 'run> {
    /// Appends the modules of what is mapped. Fails where memory is refused.
    pub fn push_modules(
        &self,
        modules: &mut Vec<FileModule<'files, 'run>>,
    ) -> Result<(), AllocError>
        ensures appended { OnOk result (map loaded_module_view modules.new.items
            ≡ map loaded_module_view modules.old.items
            ++ modules_in (map known_view self.now.files.now) self.now.mappings.now) }
        ensures files { AreModulesOfFiles self.now.files.now modules.old.items
            → AreModulesOfFiles self.now.files.now modules.new.items }
    {
        for mapped in self.mappings {
            if let Some(module) = self.module_at(mapped) {
                modules.push(module)?;
            }
        }
        Ok(())
    }

    /// The module that is mapped.
    fn module_at(&self, mapped: &MappedCode) -> Option<FileModule<'files, 'run>>
        ensures module { option_map loaded_module_view result
            ≡ mapped_module (map known_view self.now.files.now) mapped.now }
        ensures file { IfSome result (IsModuleOfFiles self.now.files.now) }
    {
        let number = mapped.object?;
        module_in(self.files.get(number)?, number, mapped)
    }
}

/// The module that a file with this number is where it is mapped.
fn module_in<'a, 'run>(
    file: &'a ProfileFile<'run>,
    number: usize,
    mapped: &MappedCode,
) -> Option<FileModule<'a, 'run>>
    ensures module { option_map loaded_module_view result
        ≡ file_module mapped.now number (known_view file.now) }
    ensures file { IfSome result (IsModuleOf number file.now) }
{
    match &file.code {
        Some(code) => code.module(number, mapped),
        None => None,
    }
}
