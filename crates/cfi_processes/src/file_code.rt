//! The code of a file of a profile.

use crate::objects::Object;
use crate::process_modules::FileModule;
use cfi_compiled::CompiledTable;
use cfi_mapped::mappings::MappedCode;
use std::alloc::{AllocError, Global};

/// The code of a file of a profile: its call frames, with the compiled table of `.eh_frame` where
/// that has no header (`Object::has_table`), and that of `.debug_frame` where it has the section.
#[derive(Drop)]
pub struct FileCode<'run> {
    object: Object<'run>,
    table: Option<CompiledTable>,
    debug_table: Option<CompiledTable>,
}

impl<'run> FileCode<'run> {
    ghost use Rattle.std.specs.Prelude.{◌≡◌, Some, IfOk, IfSome, option_map};
    ghost use Rattle.cfi_processes.specs.KnownFiles.{code_view};
    ghost use Rattle.cfi_processes.specs.Modules.{loaded_module_view};
    ghost use Rattle.cfi_processes.specs.Objects.{HasFramesOf, IsDebugTable, object_module};
    ghost use Rattle.cfi_processes.specs.Objects.{object_view};
    ghost use Rattle.cfi_processes.specs.ProfileFiles.{IsCodeOf, IsTableIf};

    /// The code of an object. Fails where memory is refused.
    pub fn of(alloc: Global, object: Object<'run>) -> Result<FileCode<'run>, AllocError>
        ensures { IfOk result (λ code.
            IsCodeOf (Some (object_view object.entry)) (Some (code_view code))) }
    {
        let table = Self::table_if(alloc, &object, object.has_table())?;
        let debug_table = Self::debug_table(alloc, &object)?;
        Ok(FileCode {
            object,
            table,
            debug_table,
        })
    }

    /// The module that the file is where it is mapped, with the file's number
    /// (`Object::module`).
    pub fn module<'a>(&'a self, number: usize, mapped: &MappedCode) -> Option<FileModule<'a, 'run>>
        ensures module { option_map loaded_module_view result ≡ object_module number
            (code_view self.now).object (code_view self.now).tables mapped.now }
        ensures frames { IfSome result (HasFramesOf number self.now.object) }
    {
        let debug_table = self.debug_table.as_ref();
        self.object
            .module(number, self.table.as_ref(), debug_table, mapped)
    }

    /// The compiled table of an object, if it has one.
    fn table_if(
        alloc: Global,
        object: &Object<'_>,
        has_table: bool,
    ) -> Result<Option<CompiledTable>, AllocError>
        ensures { IfOk result (λ table.
            IsTableIf has_table (object_view object.now).section table) }
    {
        if !has_table {
            return Ok(None);
        }
        match object.compile(alloc) {
            Ok(table) => Ok(Some(table)),
            Err(_) => Err(AllocError),
        }
    }

    /// The compiled table of an object's `.debug_frame`, if it has one.
    fn debug_table(alloc: Global, object: &Object<'_>) -> Result<Option<CompiledTable>, AllocError>
        ensures { IfOk result (IsDebugTable (object_view object.now).debug) }
    {
        match object.compile_debug(alloc) {
            Ok(table) => Ok(table),
            Err(_) => Err(AllocError),
        }
    }
}
