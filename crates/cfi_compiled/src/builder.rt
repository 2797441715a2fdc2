//! Tables while they are made.
ghost use Rattle.std.specs.Prelude.{◌≡◌, ◌≤◌, ◌<◌, ◌+◌, ◌^◌, ℕ, [], length, get_or, Ok};
ghost use Rattle.std.specs.Prelude.{IfOk, IsTrue, OnOk, Result as TheResult};
ghost use Rattle.cfi_read_core.specs.declared.error.Error.{Error as TheError};
ghost use Rattle.cfi_read_core.specs.ReaderCalls.{map_ok};
ghost use Rattle.cfi_compiled.specs.declared.rests.KeptRow.{KeptRow as Kept};
ghost use Rattle.cfi_compiled.specs.CompiledTables.{IsAdded, IsResultAt, frame_at};
ghost use Rattle.cfi_compiled.specs.CompiledTables.{frame_numbered, results_of, steps_of};
ghost use Rattle.cfi_compiled.specs.KeptRows.{IsRestOf, frame_of_kept};
ghost use Rattle.cfi_compiled.specs.FrameParts.{frame_parts};
ghost use Rattle.cfi_compiled.specs.Steps.{IsFrom, SameBelow, free_from};

use crate::facts::CieFacts;
use crate::guesses::Guesses;
use crate::hash::hash_of_answer;
use crate::rests::{KeptRow, RestBuilder};
use crate::results::KeptResults;
use crate::same::{is_same, is_same_cfa};
use crate::slots::{Slots, Sought};
use crate::step_list::{NumberedStep, StepList};
use crate::steps::{NoMemory, StepSink};
use crate::table::CompiledTable;
use cfi_read_core::{Error, Register, Result};
use cfi_state::storage::ArrayLike;
use cfi_state::table::row::UnwindTableRow;
use cfi_state::table::rules::RegisterRule;
use std::alloc::Global;
use std::marker::Model;

/// A table to which steps are added.
#[derive(Drop)]
pub(crate) struct TableBuilder {
    alloc: Global,
    rests: RestBuilder,
    rows: KeptResults,
    slots: Slots,
    guesses: Guesses,
    steps: StepList,
}

impl Model for TableBuilder {
    ghost use Rattle.cfi_compiled.specs.CompiledTables.{TableContents, IsSoundTable};
    ghost use Rattle.cfi_compiled.specs.StepLists.{numbered_steps};

    ghost Value = { TableContents };

    ghost view = { λ table. record {
      lists = table.rests;
      rows = table.rows;
      numbers = numbered_steps table.steps;
    } };

    ghost invariant = { λ table. IsSoundTable (record {
      lists = table.rests;
      rows = table.rows;
      numbers = numbered_steps table.steps;
    }) };
}

impl TableBuilder {
    /// The table without a step.
    pub(crate) fn new(alloc: Global) -> Self
        ensures { result ≡ record {
          lists = record { rests = []; rules = [] };
          rows = [];
          numbers = [];
        } }
    {
        TableBuilder {
            alloc,
            rests: RestBuilder::new(alloc),
            rows: KeptResults::new(alloc),
            slots: Slots::new(alloc),
            guesses: Guesses::new(alloc),
            steps: StepList::new(alloc),
        }
    }

    /// The table of these steps, in as little memory as they need.
    pub(crate) fn finish(self) -> std::result::Result<CompiledTable, NoMemory>
        ensures { IfOk result (λ table. table ≡ self) }
    {
        let TableBuilder {
            alloc,
            rests,
            mut rows,
            steps,
            ..
        } = self;
        rows.shrink();
        let steps = steps.finish(alloc)?;
        Ok(CompiledTable::of(rests.finish(), rows, steps))
    }

    /// Whether this is the number of what a row and its CIE say.
    #[inline(always)]
    fn is_of<A: ArrayLike<Item = (Register, RegisterRule<usize>)>>(
        &self,
        number: usize,
        row: &UnwindTableRow<usize, A>,
        facts: CieFacts,
    ) -> bool
        ensures { IsTrue result → IsResultAt self.now
            (Ok (frame_parts facts row.now.parts)) number }
    {
        if number >= self.rows.len() {
            return false;
        }
        match self.rows.at(number) {
            Ok(kept) => is_same_cfa(kept.cfa, *row.cfa())
                && self.rests.is_of(kept.rest, row, facts),
            Err(_) => false,
        }
    }

    /// The number of what a row and its CIE say, which is added if it isn't there.
    fn number_of_row<A: ArrayLike<Item = (Register, RegisterRule<usize>)>>(
        &mut self,
        row: &UnwindTableRow<usize, A>,
        facts: CieFacts,
    ) -> std::result::Result<usize, NoMemory>
        ensures same { OnOk result ((a : ℕ) → frame_at self.new a ≡ frame_at self.old a) }
        ensures free { OnOk result
            (free_from 0 (steps_of self.new) ≡ free_from 0 (steps_of self.old)) }
        ensures number { IfOk result
            (IsResultAt self.new (Ok (frame_parts facts row.now.parts))) }
    {
        let guess = self.guesses.next();
        if self.is_of(guess, row, facts) {
            return Ok(guess);
        }
        let rest = self.rest_of(row, facts)?;
        let cfa = *row.cfa();
        self.number_of(Ok(KeptRow { cfa, rest }))
    }

    /// The number of what a row and its CIE say but the CFA.
    fn rest_of<A: ArrayLike<Item = (Register, RegisterRule<usize>)>>(
        &mut self,
        row: &UnwindTableRow<usize, A>,
        facts: CieFacts,
    ) -> std::result::Result<usize, NoMemory>
        ensures same { OnOk result ((a : ℕ) → frame_at self.new a ≡ frame_at self.old a) }
        ensures free { OnOk result
            (free_from 0 (steps_of self.new) ≡ free_from 0 (steps_of self.old)) }
        ensures number { IfOk result (IsRestOf self.new.lists facts row.now.parts) }
    {
        self.rests.number_of(row, facts)
    }

    /// The number of a result, which is added if it isn't there.
    fn number_of(&mut self, answer: Result<KeptRow>) -> std::result::Result<usize, NoMemory>
        requires names { IfOk answer (λ row. row.rest < length self.old.lists.rests) }
        requires room { IfOk answer (λ row. row.rest + 1 < 2 ^ 64) }
        ensures same { OnOk result ((a : ℕ) → frame_at self.new a ≡ frame_at self.old a) }
        ensures free { OnOk result
            (free_from 0 (steps_of self.new) ≡ free_from 0 (steps_of self.old)) }
        ensures number { IfOk result
            (IsResultAt self.new (map_ok (frame_of_kept self.old.lists) answer)) }
    {
        number_of(&mut self.rows, &mut self.slots, answer)
    }

    /// From this address on the result is the one with this number.
    fn push(&mut self, from: u64, number: usize) -> std::result::Result<(), NoMemory>
        requires free { free_from 0 (steps_of self.old) ≤ from }
        requires number { number < length (results_of self.old) }
        ensures before { OnOk result (SameBelow from (frame_at self.new) (frame_at self.old)) }
        ensures after { OnOk result
            (IsFrom from (frame_at self.new) (frame_numbered (results_of self.old) number)) }
        ensures free { OnOk result (free_from 0 (steps_of self.new) ≤ from + 1) }
    {
        if self.steps.ends_with(number) {
            return Ok(());
        }
        self.guesses.learn(number)?;
        let start = from;
        self.steps.push(self.alloc, NumberedStep { start, number })?;
        Ok(())
    }
}

impl StepSink for TableBuilder {
    ghost use Rattle.cfi_compiled.specs.CompiledTables.{frame_at, steps_of};
    ghost use Rattle.cfi_compiled.specs.Steps.{free_from};

    ghost answer = { frame_at };

    ghost free = { λ table. free_from 0 (steps_of table) };

    fn row<A: ArrayLike<Item = (Register, RegisterRule<usize>)>>(
        &mut self,
        from: u64,
        row: &UnwindTableRow<usize, A>,
        facts: CieFacts,
    ) -> std::result::Result<(), NoMemory> {
        let number = self.number_of_row(row, facts)?;
        self.push(from, number)
    }

    fn error(&mut self, from: u64, error: Error) -> std::result::Result<(), NoMemory> {
        let number = self.number_of(Err(error))?;
        self.push(from, number)
    }
}

/// The number of a result: that of an equal one, else a new number, with which it is added. Of
/// errors only `NoUnwindInfoForAddress` is looked for.
fn number_of(
    rows: &mut KeptResults,
    slots: &mut Slots,
    answer: Result<KeptRow>,
) -> std::result::Result<usize, NoMemory>
    requires { IfOk answer (λ row. row.rest + 1 < 2 ^ 64) }
    ensures added { IsAdded answer rows.old rows.new }
    ensures number { IfOk result (λ number. number < length rows.new) }
    ensures means { IfOk result (λ number.
        (d : TheResult Kept TheError) → get_or rows.new number d ≡ answer) }
{
    let hash = hash_of_answer(&answer);
    let sought = Answer {
        rows: &*rows,
        answer,
    };
    if let Some(number) = slots.find(hash, &sought) {
        return Ok(number);
    }
    let number = rows.len();
    rows.push(answer)?;
    if is_sought(&answer) {
        slots.write(hash, number)?;
    }
    Ok(number)
}

/// Whether a result is looked for: a row, and the error for an address that no FDE contains.
fn is_sought(answer: &Result<KeptRow>) -> bool {
    match answer {
        Ok(_) => true,
        Err(error) => matches!(error, Error::NoUnwindInfoForAddress),
    }
}

/// A result that is looked for.
#[derive(Drop)]
struct Answer<'a> {
    rows: &'a KeptResults,
    answer: Result<KeptRow>,
}

impl<'a> Sought for Answer<'a> {
    ghost IsAt = { λ sought number. (number < length sought.rows.now)
        × ((d : TheResult Kept TheError) → get_or sought.rows.now number d ≡ sought.answer) };

    #[inline(always)]
    fn is(&self, number: usize) -> bool {
        number < self.rows.len() && is_same(self.rows.at(number), self.answer)
    }
}
