//! Loaded modules in the order of their addresses.
ghost use Rattle.std.specs.Prelude.{◌≡◌, ⊤, true};
ghost use Rattle.cfi_step.specs.Modules.{are_sorted};

use crate::code_ranges::{code_at, out_of_order};
use crate::module::LoadedModule;
use std::alloc::AllocError;

/// Modules in the order of their addresses, no two of which overlap. Only `new` makes them: check
/// the modules of a process once, and keep the result.
#[derive(Debug)]
pub struct Modules<'a, R> {
    list: &'a [LoadedModule<'a, R>],
    ghost sorted: { are_sorted 0 list.now ≡ true },
}

impl<R> Clone for Modules<'_, R> {
    ghost is_clone = { λ x y. y ≡ x };

    ghost is_infallible = { λ _. ⊤ };

    fn clone(&self) -> Result<Self, AllocError> {
        Ok(*self)
    }
}

impl<R> Copy for Modules<'_, R> {}

/// The module with this index begins before the one before it ends, or ends before it begins.
#[derive(Clone, Copy, Debug, PartialEq, Eq)]
pub struct OutOfOrder {
    /// How many modules are before it.
    pub index: usize,
}

impl<'a, R> Modules<'a, R> {
    ghost use Rattle.std.specs.Prelude.{◌≡◌, true, IfErr, OkIff};
    ghost use Rattle.std.specs.Option.{option_map};
    ghost use Rattle.cfi_read_core.specs.ReaderCalls.{map_ok};
    ghost use Rattle.cfi_step.specs.CodeRanges.{IsInOneAtMost, IsOutOfOrder};
    ghost use Rattle.cfi_step.specs.Modules.{are_sorted, code_end, code_start, first_module};
    ghost use Rattle.cfi_step.specs.ModuleLists.{module_list};

    /// The modules, if the code of each begins at or after the end of the one before it.
    ///
    /// Fails with the first that doesn't, or that ends before it begins. A module may have no code.
    /// Goes through all of them once; does not allocate.
    pub fn new(list: &'a [LoadedModule<'a, R>]) -> Result<Self, OutOfOrder>
        ensures sorted { OkIff (map_ok module_list result)
            (are_sorted 0 list.now ≡ true) list.now }
        ensures out_of_order { IfErr result (λ first.
            IsOutOfOrder code_start code_end list.now first.index) }
    {
        match out_of_order(list) {
            None => Ok(Modules { list }),
            Some(index) => Err(OutOfOrder { index }),
        }
    }

    /// The module whose code the address is in: there is at most one. Found by halving; does not
    /// allocate.
    pub fn module_of(&self, address: u64) -> Option<&'a LoadedModule<'a, R>>
        ensures module { option_map (λ loaded. loaded.now) result
            ≡ first_module (module_list self.now) address }
        ensures only { IsInOneAtMost code_start code_end (module_list self.now) address }
    {
        code_at(self.list, address)
    }
}
