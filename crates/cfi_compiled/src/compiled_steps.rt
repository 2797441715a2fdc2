//! The steps of a compiled table, one by one.
ghost use Rattle.std.specs.Prelude.{◌≡◌};
ghost use Rattle.cfi_compiled.specs.CompiledTables.{steps_of};
ghost use Rattle.cfi_compiled.specs.Steps.{Rise};
ghost use Rattle.cfi_compiled.specs.TableSteps.{step_view, steps_left};

use crate::row::CompiledRow;
use crate::table::CompiledTable;
use cfi_read_core::Result;

impl CompiledTable {
    /// Iterates over the steps, in the order of their addresses. For an address the table has what
    /// the last step at or below it has. Does not allocate.
    #[inline(always)]
    pub fn iter(&self) -> CompiledSteps<'_>
        ensures steps { steps_left result ≡ steps_of self.now }
        ensures order { Rise 0 (steps_of self.now) }
    {
        // that they are in order is known of the table's fields
        let _steps = &self.steps;
        CompiledSteps {
            table: self,
            next: 0,
        }
    }
}

/// A step of a compiled table: from an address on, up to the start of the next step, each address
/// has this row or error.
#[derive(Clone, Copy, Debug)]
pub struct CompiledStep<'a> {
    /// The first address.
    pub start: u64,
    /// What the row of the address says, or the error.
    pub row: Result<CompiledRow<'a>>,
}

/// Iterates over the steps of a compiled table, in the order of their addresses.
#[derive(Clone, Copy, Debug)]
pub struct CompiledSteps<'a> {
    table: &'a CompiledTable,
    next: usize,
}

impl<'a> Iterator for CompiledSteps<'a> {
    ghost use Rattle.std.specs.Iterator.{YieldsFirstBy, item_count};

    type Item = CompiledStep<'a>;

    ghost next_gives = { YieldsFirstBy step_view steps_left };

    ghost remaining = { item_count steps_left };

    #[inline(always)]
    fn next(&mut self) -> Option<CompiledStep<'a>> {
        let (start, row) = self.table.step(self.next)?;
        self.next += 1;
        Some(CompiledStep { start, row })
    }
}
