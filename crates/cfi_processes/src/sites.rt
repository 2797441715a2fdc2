//! Where an address of a process is: in which function of which file.
ghost use Rattle.std.specs.Prelude.{◌≡◌, Some, map, option_map};
ghost use Rattle.std.specs.Option.{option_and_then};
ghost use Rattle.cfi_elf.specs.FunctionPlaces.{place_view};
ghost use Rattle.cfi_processes.specs.FileFunctions.{mapped_function};
ghost use Rattle.cfi_mapped.specs.CodeMapViews.{code_map_view};
ghost use Rattle.cfi_processes.specs.Sites.{file_of, file_site};
ghost use Rattle.cfi_processes.specs.KnownFiles.{known_view};
ghost use Rattle.cfi_processes.specs.Sites.{nowhere, site_in, site_of};
ghost use Rattle.cfi_mapped.specs.Mappings.{AreMappedInOrder};
ghost use Rattle.cfi_processes.specs.Sites.{site_view, without_function};

use crate::process_code::ProcessCode;
use crate::profile_files::ProfileFile;
use cfi_elf::FunctionPlace;
use cfi_mapped::code_map::CodeMap;
use cfi_mapped::mappings::MappedCode;
use cfi_mapped::names::Name;

/// Where the code of a frame is, as far as it is known.
#[derive(Clone, Copy, Debug)]
pub struct Site<'run> {
    /// The place in the file; where no file is mapped, and in code that a process made, the
    /// address.
    pub place: u64,
    /// The function whose bytes have the address.
    pub function: Option<FunctionPlace<'run>>,
    /// The name of the file that is mapped there, or of that in which the process tells the
    /// functions of code that it made.
    pub file: Option<Name<'run>>,
}

impl<'a, 'files, 'run> ProcessCode<'a, 'files, 'run> {
    /// Where an address is: in which function of which file.
    pub fn site(&self, address: u64) -> Site<'run>
        requires { AreMappedInOrder 0 self.now.mappings.now }
        ensures { site_view result
            ≡ site_of (map known_view self.now.files.now) self.now.mappings.now address }
    {
        match self.mapped_at(address) {
            Some(mapped) => self.site_in(mapped, address),
            None => nowhere(address),
        }
    }

    /// Where an address is that is mapped here.
    fn site_in(&self, mapped: &MappedCode, address: u64) -> Site<'run>
        ensures { site_view result ≡ site_in mapped.now address
            (file_of (map known_view self.now.files.now) mapped.now) }
    {
        match self.file_of(mapped) {
            Some(file) => site_by(file, mapped, address),
            None => nowhere(address),
        }
    }

    /// Where an address is: in which file, without the function.
    pub fn place(&self, address: u64) -> Site<'run>
        requires { AreMappedInOrder 0 self.now.mappings.now }
        ensures { site_view result ≡ without_function
            (site_of (map known_view self.now.files.now) self.now.mappings.now address) }
    {
        match self.mapped_at(address) {
            Some(mapped) => self.place_at(mapped, address),
            None => nowhere(address),
        }
    }

    /// Where an address is that is mapped here, without the function.
    fn place_at(&self, mapped: &MappedCode, address: u64) -> Site<'run>
        ensures { site_view result ≡ without_function (site_in mapped.now address
            (file_of (map known_view self.now.files.now) mapped.now)) }
    {
        match self.file_of(mapped) {
            Some(file) => place_by(file, mapped, address),
            None => nowhere(address),
        }
    }
}

/// An address where no file is mapped.
fn nowhere<'run>(address: u64) -> Site<'run>
    ensures { site_view result ≡ nowhere address }
{
    Site {
        place: address,
        function: None,
        file: None,
    }
}

/// Where an address is that the file is mapped at, or the memory.
fn site_by<'run>(file: &ProfileFile<'run>, mapped: &MappedCode, address: u64) -> Site<'run>
    ensures { site_view result
        ≡ site_in mapped.now address (Some (known_view file.now)) }
{
    match &file.code_map {
        Some(map) => map_site(map, map.function_at(address), address),
        None => Site {
            function: function_in(file, mapped, address),
            ..place_in(file, mapped, address)
        },
    }
}

/// The same without the function.
fn place_by<'run>(file: &ProfileFile<'run>, mapped: &MappedCode, address: u64) -> Site<'run>
    ensures { site_view result
        ≡ without_function (site_in mapped.now address (Some (known_view file.now))) }
{
    match &file.code_map {
        Some(map) => map_site(map, None, address),
        None => place_in(file, mapped, address),
    }
}

/// Where an address is in code that a process made, with this function.
fn map_site<'run>(
    map: &CodeMap<'run>,
    function: Option<FunctionPlace<'run>>,
    address: u64,
) -> Site<'run>
    ensures { site_view result ≡ record {
      place = address;
      function = option_map place_view function.entry;
      file = Some (code_map_view map.now).name;
    } }
{
    Site {
        place: address,
        function,
        file: Some(map.name),
    }
}

/// Where an address is that the file is mapped at, without the function.
fn place_in<'run>(file: &ProfileFile<'run>, mapped: &MappedCode, address: u64) -> Site<'run>
    ensures { site_view result
        ≡ without_function (file_site mapped.now address (known_view file.now)) }
{
    Site {
        place: mapped
            .offset
            .wrapping_add(address.saturating_sub(mapped.start)),
        function: None,
        file: Some(file.name),
    }
}

/// The function of a file that has the address.
fn function_in<'run>(
    file: &ProfileFile<'run>,
    mapped: &MappedCode,
    address: u64,
) -> Option<FunctionPlace<'run>>
    ensures { option_map place_view result
        ≡ option_and_then (mapped_function mapped.now address) (known_view file.now).functions }
{
    match &file.functions {
        Some(functions) => functions.function_at(mapped, address),
        None => None,
    }
}
