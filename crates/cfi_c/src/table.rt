//! A compiled table that C holds.
ghost use Rattle.std.specs.Prelude.{◌≡◌};
ghost use Rattle.std.specs.Option.{option_map};
ghost use Rattle.cfi_c.specs.AddressRows.{is_live};

use crate::held_table::HeldTable;
use crate::unboxed::Unboxed;
use cfi_compiled::CompiledTable;
use std::alloc::Global;

/// A compiled table, or none: all zero.
#[repr(C)]
pub struct CfiTable {
    held: HeldTable,
    pub live: bool,
    ghost ok: { is_live held.table ≡ live },
}

impl CfiTable {
    /// Makes the value that C holds of a table, or of none.
    pub fn of(alloc: Global, held: Option<Box<CompiledTable>>) -> CfiTable
        ensures { result.held.table ≡ option_map (λ table. table.value) held }
    {
        match held {
            Some(table) => CfiTable {
                held: HeldTable::seal(Unboxed::of(table)),
                live: true,
            },
            None => CfiTable {
                held: HeldTable::none(alloc),
                live: false,
            },
        }
    }

    /// Returns the table, where there is one.
    pub fn into_box(self) -> Option<Box<CompiledTable>>
        ensures { option_map (λ table. table.value) result ≡ self.held.table }
    {
        let CfiTable { held, live } = self;
        if live {
            return Some(held.unseal().into_box());
        }
        drop(held);
        None
    }
}

impl Drop for CfiTable {
    fn drop(self) {
        drop(self.into_box());
    }
}
