//! Compiled tables.
ghost use Rattle.std.specs.Prelude.{◌≡◌, ◌<◌, ◌+◌, ◌^◌, length, IfOk, IfSome};
ghost use Rattle.cfi_compiled.specs.CompiledRows.{HasDistinctRegisters, frame_lent, parts_lent};
ghost use Rattle.cfi_compiled.specs.CompiledTables.{IsSoundTable, IsStepAtIndex, frame_at};
ghost use Rattle.cfi_compiled.specs.CompiledTables.{frame_numbered, parts_at};
ghost use Rattle.cfi_compiled.specs.CompiledTables.{results_of, steps_of};
ghost use Rattle.cfi_compiled.specs.KeptRows.{AreNamed, results_in};
ghost use Rattle.cfi_compiled.specs.StepLists.{numbered_steps};

use crate::rests::Rests;
use crate::results::KeptResults;
use crate::row::CompiledRow;
use crate::step_list::StepList;
use cfi_read_core::{Error, Result};
use std::marker::Model;

/// The unwind rows of a section for all addresses, or the errors in their place.
///
/// A table is made once, by `new` or `with_context`. It then has for every address what
/// `row_by_scan` returns for the section: what the row says but its two addresses, or the error.
/// With a row it has the return address register of the FDE's CIE, and whether the FDE is a signal
/// trampoline. The section isn't needed any more. An expression of a rule is its place in the
/// section, so its bytes are read there.
///
/// The table has a step for each address at which the row changes, and each distinct row once; a
/// step names its row by number. So a lookup is a binary search in the steps. Rows that differ in
/// the rule of the CFA alone share the rules of the registers.
///
/// # Example
///
/// ```
/// let section = EhFrame::new(bytes, LittleEndian);
/// let bases = BaseAddresses::default().set_eh_frame(0x2040);
/// let table = CompiledTable::new(alloc, &section, &bases)?;
/// for pc in addresses {
///     let row = table.row(*pc)?;
///     let return_address = row.register(Register(16));
/// }
/// ```
#[derive(Debug, Drop)]
pub struct CompiledTable {
    rests: Rests,
    rows: KeptResults,
    pub(crate) steps: StepList,
}

impl Model for CompiledTable {
    ghost use Rattle.cfi_compiled.specs.CompiledTables.{TableContents, IsSoundTable};
    ghost use Rattle.cfi_compiled.specs.StepLists.{numbered_steps};

    ghost Value = { TableContents };

    ghost view = { λ table. record {
      lists = table.rests;
      rows = table.rows;
      numbers = numbered_steps table.steps;
    } };

    ghost invariant = { λ table. IsSoundTable (record {
      lists = table.rests;
      rows = table.rows;
      numbers = numbered_steps table.steps;
    }) };
}

impl CompiledTable {
    ghost use Rattle.std.specs.Prelude.{◌≡◌, ◌<◌, ◌+◌, ◌^◌, length, IfOk, IfSome};
    ghost use Rattle.cfi_compiled.specs.CompiledTables.{IsSoundTable, IsStepAtIndex, frame_at};
    ghost use Rattle.cfi_compiled.specs.CompiledTables.{parts_at};
    ghost use Rattle.cfi_compiled.specs.CompiledTables.{steps_of};
    ghost use Rattle.cfi_compiled.specs.StepLists.{numbered_steps};

    /// The table of these steps, whose numbers are those of the rows.
    pub(crate) fn of(rests: Rests, rows: KeptResults, steps: StepList) -> Self
        requires { IsSoundTable
            (record { lists = rests; rows = rows; numbers = numbered_steps steps }) }
        ensures { result ≡ record { lists = rests; rows = rows; numbers = numbered_steps steps } }
    {
        CompiledTable { rests, rows, steps }
    }

    /// Returns what the row of the address and its CIE say, or the error that `row_by_scan` returns
    /// for it with enough memory: `NoUnwindInfoForAddress` if no FDE contains the address, else the
    /// first error on the way to the row (DWARF 5 section 6.4.3). A binary search among the steps;
    /// does not allocate.
    pub fn row(&self, address: u64) -> Result<CompiledRow<'_>>
        ensures frame { frame_lent result ≡ frame_at self.now address }
        ensures row { parts_lent result ≡ parts_at self.now address }
        ensures distinct { IfOk result HasDistinctRegisters }
    {
        match self.steps.number_at(address) {
            Some(number) => result_at(&self.rests, &self.rows, number),
            None => Err(Error::NoUnwindInfoForAddress),
        }
    }

    /// The number of steps, in the same time for every table. Neighbours with equal rows are one
    /// step; those with equal errors may be two.
    #[inline(always)]
    pub fn len(&self) -> usize
        ensures { result ≡ length (steps_of self.now) }
    {
        self.steps.len()
    }

    /// The number of rows and errors that are stored. Equal rows are stored once; an error may be
    /// stored again.
    #[inline(always)]
    pub fn results_len(&self) -> usize
        ensures { result ≡ length (results_of self.now) }
    {
        self.rows.len()
    }

    /// The first address of the step with an index, and its result.
    #[inline(always)]
    pub(crate) fn step(&self, index: usize) -> Option<(u64, Result<CompiledRow<'_>>)>
        ensures step { IsStepAtIndex self.now index result }
        ensures room { IfSome result (λ _. index + 1 < 2 ^ 64) }
    {
        let step = self.steps.get(index)?;
        let result = result_at(&self.rests, &self.rows, step.number);
        Some((step.start, result))
    }
}

/// The result with a number.
#[inline(always)]
fn result_at<'a>(rests: &'a Rests, rows: &'a KeptResults, number: usize) -> Result<CompiledRow<'a>>
    requires { AreNamed rests.now rows.now }
    ensures frames { frame_lent result ≡ frame_numbered (results_in rests.now rows.now) number }
    ensures distinct { IfOk result HasDistinctRegisters }
{
    if number >= rows.len() {
        return Err(Error::NoUnwindInfoForAddress);
    }
    match rows.at(number) {
        Ok(kept) => Ok(rests.row(kept)),
        Err(error) => Err(error),
    }
}
