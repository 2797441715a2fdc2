//! The names of functions by their addresses.
ghost use Rattle.std.specs.List.Sorted.{IsNonDecreasingBy};

use crate::best_name::best_of;
use crate::elf_file::ElfFile;
use crate::function_place::{FunctionPlace, place_in_function};
use crate::functions::Function;
use std::alloc::{AllocError, Global};

/// The names of the functions of a file, by the addresses at which these begin.
#[derive(Drop)]
pub struct FunctionNames<'input> {
    functions: Vec<Function<'input>>,
    ghost sorted: { IsNonDecreasingBy (λ function. function.address) functions.items },
}

impl<'input> FunctionNames<'input> {
    ghost use Rattle.std.specs.Prelude.{◌≡◌, ℕ, None, IfOk, option_map};
    ghost use Rattle.cfi_elf.specs.ElfFiles.{file_view};
    ghost use Rattle.cfi_elf.specs.FunctionNames.{best_in, function_name, function_place, name_in};
    ghost use Rattle.cfi_elf.specs.FunctionNames.{place_by_names};
    ghost use Rattle.cfi_elf.specs.FunctionPlaces.{place_view};
    ghost use Rattle.cfi_elf.specs.Functions.{function_view};

    /// The names of the functions of `ElfFile::functions`. Of several functions that begin at one
    /// address, one with bytes gives the name, then one whose name is global, then one whose name
    /// isn't weak, with the fewest underscores at its beginning, with the longest name; then the
    /// first, by the order of the symbols. `perf` chooses so too.
    ///
    /// Fails where memory is refused. Allocates: the functions are sorted once.
    pub fn new(alloc: Global, file: &ElfFile<'input>) -> Result<Self, AllocError>
        ensures names { (address : ℕ) → IfOk result (λ names.
            name_in names address ≡ function_name (file_view file.now) address) }
        ensures places { (address : ℕ) → IfOk result (λ names.
            place_by_names names address ≡ function_place (file_view file.now) address) }
    {
        let mut functions = file.functions(alloc)?;
        functions.sort_by_key(|function| function.address)?;
        Ok(FunctionNames { functions })
    }

    /// No names. Does not allocate.
    pub fn none(alloc: Global) -> Self
        ensures names { (address : ℕ) → name_in result address ≡ None }
        ensures places { (address : ℕ) → place_by_names result address ≡ None }
    {
        FunctionNames {
            functions: Vec::new(alloc),
        }
    }

    /// The name of the function that begins at the address, or `None` where none does. It is not
    /// empty. Found by halving; does not allocate.
    pub fn name_at(&self, address: u64) -> Option<&'input [u8]>
        ensures { option_map (λ name. name.now) result ≡ name_in self.now address }
    {
        Some(self.best_at(address)?.name)
    }

    /// The address by the function that begins at it, or else nearest before it. Of several
    /// functions that begin there, it is the one that gives the name. Returns `None` where there is
    /// none, and where the address is after the function's last byte: a function of size 0 has no
    /// bytes.
    ///
    /// Found by halving; does not allocate.
    pub fn place_at(&self, address: u64) -> Option<FunctionPlace<'input>>
        ensures { option_map place_view result ≡ place_by_names self.now address }
    {
        let count = self
            .functions
            .partition_point(|function| function.address <= address);
        if count == 0 {
            return None;
        }
        let nearest = self.functions.get(count - 1)?;
        place_in_function(address, &self.best_at(nearest.address)?)
    }

    /// The function that begins at the address and gives the name.
    fn best_at(&self, address: u64) -> Option<Function<'input>>
        ensures { option_map function_view result ≡ best_in self.now address }
    {
        let start = self
            .functions
            .partition_point(|other| other.address < address);
        let end = self
            .functions
            .partition_point(|other| other.address <= address);
        match self.functions.get(start..end) {
            Some(functions) => best_of(functions),
            None => None,
        }
    }
}
