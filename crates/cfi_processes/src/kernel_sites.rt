//! Where an address of the kernel is: in its own code or in a module of it, and in which function.
ghost use Rattle.std.specs.Prelude.{◌≡◌, map, option_map};
ghost use Rattle.std.specs.Option.{option_and_then};
ghost use Rattle.cfi_elf.specs.FunctionPlaces.{place_view};
ghost use Rattle.cfi_mapped.specs.KernelNames.{kernel_view};
ghost use Rattle.cfi_mapped.specs.TextSymbols.{symbol_view};
ghost use Rattle.cfi_processes.specs.Sites.{file_of};
ghost use Rattle.cfi_processes.specs.KernelSites.{kernel_function, is_function_in, is_owner};
ghost use Rattle.cfi_processes.specs.KernelSites.{kernel_name, kernel_names, kernel_site};
ghost use Rattle.cfi_processes.specs.KernelSites.{kernel_symbol, kernel_names_if, kernel_names_of};
ghost use Rattle.cfi_processes.specs.KnownFiles.{known_view};
ghost use Rattle.cfi_mapped.specs.Mappings.{AreMappedInOrder};
ghost use Rattle.cfi_processes.specs.Sites.{site_view, without_function};

use crate::process_code::ProcessCode;
use crate::sites::Site;
use cfi_elf::FunctionPlace;
use cfi_mapped::kernel_names::KernelNames;
use cfi_mapped::kernel_symbols::{KERNEL_IMAGE, is_kernel_name};
use cfi_mapped::mappings::MappedCode;
use cfi_mapped::names::Name;
use cfi_mapped::text_symbols::TextSymbol;

impl<'a, 'files, 'run> ProcessCode<'a, 'files, 'run> {
    /// Where an address of the kernel is, if this is what is mapped into `KERNEL`: in its own code
    /// or in which module of it, by its address; and in which function, by the symbols that the
    /// kernel tells, if it is the one that was mapped (`KernelNames::is_of`).
    pub fn kernel_site(&self, address: u64) -> Site<'run>
        requires { AreMappedInOrder 0 self.now.mappings.now }
        ensures { site_view result
            ≡ kernel_site (map known_view self.now.files.now) self.now.mappings.now address }
    {
        let site = self.kernel_place(address);
        Site {
            function: function_by(site.file, address, self.kernel_symbol(address)),
            ..site
        }
    }

    /// Where an address of the kernel is, as `kernel_site`, without the function.
    pub fn kernel_place(&self, address: u64) -> Site<'run>
        requires { AreMappedInOrder 0 self.now.mappings.now }
        ensures { site_view result ≡ without_function
            (kernel_site (map known_view self.now.files.now) self.now.mappings.now address) }
    {
        Site {
            place: address,
            function: None,
            file: kernel_name_of(self.place(address).file),
        }
    }

    /// The symbol of the kernel by which an address is.
    fn kernel_symbol(&self, address: u64) -> Option<TextSymbol<'run>>
        ensures { option_map symbol_view result ≡ kernel_symbol
            (map known_view self.now.files.now) self.now.mappings.now address }
    {
        self.kernel_names()?.symbol_at(address)
    }

    /// The symbols of the kernel that is mapped.
    fn kernel_names(&self) -> Option<&'files KernelNames<'run>>
        ensures { option_map (λ names. kernel_view names.now) result
            ≡ kernel_names (map known_view self.now.files.now) self.now.mappings.now }
    {
        for mapped in self.mappings {
            if let Some(names) = self.names_of(mapped) {
                return Some(names);
            }
        }
        None
    }

    /// The symbols of the kernel, if this is its mapping.
    fn names_of(&self, mapped: &MappedCode) -> Option<&'files KernelNames<'run>>
        ensures { option_map (λ names. kernel_view names.now) result ≡ kernel_names_of mapped.now
            (file_of (map known_view self.now.files.now) mapped.now) }
    {
        match self.file_of(mapped) {
            Some(file) => match &file.kernel {
                Some(names) => names_if(mapped, names),
                None => None,
            },
            None => None,
        }
    }
}

/// The name of the kernel, or of the module of it that is mapped, if anything is.
fn kernel_name_of(file: Option<Name<'_>>) -> Option<Name<'_>>
    ensures { option_map (λ name. name.bytes.now) result
        ≡ option_map kernel_name (option_map (λ name. name.bytes.now) file.entry) }
{
    match file {
        Some(name) => Some(kernel_name(name)),
        None => None,
    }
}

/// The name of the kernel itself, without the symbol after which its mapping is named; that of a
/// module as it is.
fn kernel_name(name: Name<'_>) -> Name<'_>
    ensures { result.bytes.now ≡ kernel_name name.entry.bytes.now }
{
    if is_kernel_name(name.bytes) {
        Name::new(KERNEL_IMAGE)
    } else {
        name
    }
}

/// The symbols, if they are of the kernel that is mapped here.
fn names_if<'files, 'run>(
    mapped: &MappedCode,
    names: &'files KernelNames<'run>,
) -> Option<&'files KernelNames<'run>>
    ensures { option_map (λ names. kernel_view names.now) result
        ≡ kernel_names_if mapped.now (kernel_view names.entry.now) }
{
    if names.is_of(mapped) {
        Some(names)
    } else {
        None
    }
}

/// The function of the kernel by which an address is, if the symbol is one of the file that is
/// mapped there.
fn function_by<'run>(
    file: Option<Name<'_>>,
    address: u64,
    symbol: Option<TextSymbol<'run>>,
) -> Option<FunctionPlace<'run>>
    ensures { option_map place_view result ≡ option_and_then
        (kernel_function (option_map (λ name. name.bytes.now) file.entry) address)
        (option_map symbol_view symbol.entry) }
{
    match symbol {
        Some(symbol) => {
            if is_in(file, &symbol) {
                Some(FunctionPlace {
                    name: symbol.name,
                    offset: address.saturating_sub(symbol.address),
                })
            } else {
                None
            }
        }
        None => None,
    }
}

/// Whether the symbol is a function of the file.
fn is_in(file: Option<Name<'_>>, symbol: &TextSymbol<'_>) -> bool
    ensures { result ≡ is_function_in (option_map (λ name. name.bytes.now) file.entry)
        (symbol_view symbol.now) }
{
    match file {
        Some(name) => symbol.is_function && is_owner(symbol.owner, name.bytes),
        None => false,
    }
}

/// Whether this is the name of a module, or of the kernel itself.
fn is_owner(owner: Option<&[u8]>, name: &[u8]) -> bool
    ensures { result ≡ is_owner (option_map (λ owner. owner.now) owner.entry) name.now }
{
    match owner {
        Some(owner) => name == owner,
        None => name == KERNEL_IMAGE,
    }
}
