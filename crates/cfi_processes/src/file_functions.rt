//! The functions of a file of a profile.
use crate::objects::bias_in;
use cfi_elf::{ElfFile, FunctionNames, FunctionPlace, Image};
use cfi_mapped::mappings::MappedCode;
use std::alloc::{AllocError, Global};

/// The functions of a file of a profile: by the symbols of its debug file where there is one, which
/// has the same addresses, and else by its own.
#[derive(Drop)]
pub struct FileFunctions<'run> {
    file: ElfFile<'run>,
    functions: FunctionNames<'run>,
}

impl<'run> FileFunctions<'run> {
    ghost use Rattle.std.specs.Prelude.{◌≡◌, IfOk, option_map};
    ghost use Rattle.cfi_elf.specs.ElfFiles.{file_view};
    ghost use Rattle.cfi_elf.specs.FunctionPlaces.{place_view};
    ghost use Rattle.cfi_elf.specs.Images.{image_view};
    ghost use Rattle.cfi_processes.specs.FileFunctions.{mapped_function, functions_by_symbols};
    ghost use Rattle.cfi_processes.specs.FileFunctions.{functions_view, symbol_file};

    /// The functions of the file of which these parts were read, and of its debug file those of
    /// `debug`. Returns `None` where the file is no ELF file (`cfi_elf::ElfFile::of_image`); a
    /// debug file that is none has no symbols, so the file's own count. Fails where memory is
    /// refused.
    pub fn of(
        alloc: Global,
        image: Image<'run>,
        debug: Option<Image<'run>>,
    ) -> Result<Option<FileFunctions<'run>>, AllocError>
        ensures { IfOk result (λ functions. option_map functions_view functions
            ≡ functions_by_symbols (image_view image.entry) (option_map image_view debug.entry)) }
    {
        let Ok(file) = ElfFile::of_image(image) else {
            return Ok(None);
        };
        let symbols = Self::symbols_of(file, debug);
        let functions = FunctionNames::new(alloc, &symbols)?;
        Ok(Some(FileFunctions { file, functions }))
    }

    /// The function that has an address of a process, where the file is mapped. Does not allocate.
    pub fn function_at(&self, mapped: &MappedCode, address: u64) -> Option<FunctionPlace<'run>>
        ensures { option_map place_view result
            ≡ mapped_function mapped.now address (functions_view self.now) }
    {
        let bias = bias_in(&self.file, mapped)?;
        self.functions.place_at(address.wrapping_sub(bias))
    }

    /// The file whose symbols name the functions.
    fn symbols_of(file: ElfFile<'run>, debug: Option<Image<'run>>) -> ElfFile<'run>
        ensures { file_view result ≡ symbol_file (file_view file.entry)
            (option_map image_view debug.entry) }
    {
        match debug {
            Some(image) => ElfFile::of_image(image).unwrap_or(file),
            None => file,
        }
    }
}
