//! A compiled table by its address, as C holds it.
ghost use Rattle.std.specs.Prelude.{◌≡◌, Option, Some, None, true};
ghost use Rattle.cfi_compiled.specs.CompiledTables.{TableContents};
ghost use Rattle.cfi_c.specs.AddressRows.{is_live};
ghost use Rattle.cfi_c.specs.HeldTables.{owned_table};

use crate::unboxed::Unboxed;
use cfi_compiled::CompiledTable;
use std::alloc::Global;
use std::marker::Model;

/// The address of a compiled table, which it owns where there is one. Dropping it frees nothing, so
/// `CfiTable` unseals a table first.
#[repr(C)]
#[derive(Drop)]
pub struct HeldTable {
    at: *mut u8,
    alloc: Global,
    pub ghost table: { Option TableContents },
}

impl Model for HeldTable {
    ghost also_owns = { λ held. owned_table held.table held.alloc held.at };
}

// It may go to another thread, as the table that it owns.
unsafe impl Send for HeldTable {}

impl HeldTable {
    /// Returns the value of no table.
    pub fn none(alloc: Global) -> HeldTable
        ensures { result.table ≡ None }
    {
        HeldTable {
            at: std::ptr::null_mut(),
            alloc,
        }
    }

    /// Forgets the type of the table.
    pub fn seal(table: Unboxed<CompiledTable, Global>) -> HeldTable
        ensures { result.table ≡ Some table.value }
    {
        let Unboxed { at, alloc } = table;
        HeldTable {
            at: at as *mut u8,
            alloc,
        }
    }

    /// Restores the type of the table.
    pub fn unseal(self) -> Unboxed<CompiledTable, Global>
        requires { is_live self.table ≡ true }
        ensures { Some result.value ≡ self.table }
    {
        let HeldTable { at, alloc } = self;
        Unboxed {
            at: at as *mut CompiledTable,
            alloc,
        }
    }
}
