//! Results as a table keeps them.
ghost use Rattle.std.specs.Prelude.{◌≡◌, ◌<◌, ◌+◌, ◌^◌, ◌∷◌, ◌++◌, [], length, get_or, Ok, Err};
ghost use Rattle.std.specs.Prelude.{IfErr, IfOk, OnOk, Result as TheResult};
ghost use Rattle.cfi_read_core.specs.declared.error.Error.{Error as TheError};
ghost use Rattle.cfi_read_core.specs.ReaderCalls.{map_ok};
ghost use Rattle.cfi_compiled.specs.declared.rests.KeptRow.{KeptRow as Kept};
ghost use Rattle.cfi_compiled.specs.ResultLists.{index_in};

use crate::rests::KeptRow;
use crate::steps::NoMemory;
use cfi_parts::instruction::UnwindExpression;
use cfi_read_core::{Error, Result};
use cfi_state::table::rules::CfaRule;
use std::alloc::Global;
use std::marker::Model;

/// What a row that stands for an error has in place of the number of a rest.
const ERROR_MARK: usize = usize::MAX;

/// Results by number, each in the memory that a row takes; an error takes its own besides.
///
/// A row may stand for an error. Its CFA then is an expression, whose offset is the index of the
/// error in a list of errors.
#[derive(Debug, Drop)]
pub(crate) struct KeptResults {
    rows: Vec<KeptRow>,
    errors: Vec<Error>,
}

impl Model for KeptResults {
    ghost use Rattle.std.specs.Prelude.{List, Result as TheResult};
    ghost use Rattle.std.specs.List.{All};
    ghost use Rattle.cfi_read_core.specs.declared.error.Error.{Error as TheError};
    ghost use Rattle.cfi_compiled.specs.declared.rests.KeptRow.{KeptRow as Kept};
    ghost use Rattle.cfi_compiled.specs.ResultLists.{IsErrorIn, results_kept};

    ghost Value = { List (TheResult Kept TheError) };

    ghost view = { λ r. results_kept r.errors.items r.rows.items };

    ghost invariant = { λ r. All (IsErrorIn r.errors.items) r.rows.items };
}

impl KeptResults {
    /// No result yet.
    pub(crate) fn new(alloc: Global) -> Self
        ensures { result ≡ [] }
    {
        KeptResults {
            rows: Vec::new(alloc),
            errors: Vec::new(alloc),
        }
    }

    /// How many results there are.
    #[inline(always)]
    pub(crate) fn len(&self) -> usize
        ensures { result ≡ length self.now }
    {
        self.rows.len()
    }

    /// The result with a number.
    #[inline(always)]
    pub(crate) fn at(&self, number: usize) -> Result<&KeptRow>
        requires { number < length self.now }
        ensures { (d : TheResult Kept TheError) →
            get_or self.now number d ≡ map_ok (λ row. row.now) result }
    {
        let row = &self.rows[number];
        if row.rest == ERROR_MARK {
            return Err(self.errors[index_in(row.cfa)]);
        }
        Ok(row)
    }

    /// Adds a result.
    pub(crate) fn push(&mut self, answer: Result<KeptRow>) -> std::result::Result<(), NoMemory>
        requires { IfOk answer (λ row. row.rest + 1 < 2 ^ 64) }
        ensures pushed { OnOk result (self.new ≡ self.old ++ answer ∷ []) }
        ensures kept { IfErr result (λ _. self.new ≡ self.old) }
    {
        match answer {
            Ok(row) => self.push_row(row),
            Err(error) => self.push_error(error),
        }
    }

    /// Adds a row.
    fn push_row(&mut self, row: KeptRow) -> std::result::Result<(), NoMemory>
        requires { row.rest + 1 < 2 ^ 64 }
        ensures pushed { OnOk result (self.new ≡ self.old ++ Ok row ∷ []) }
        ensures kept { IfErr result (λ _. self.new ≡ self.old) }
    {
        self.rows.push(row)?;
        Ok(())
    }

    /// Adds an error.
    fn push_error(&mut self, error: Error) -> std::result::Result<(), NoMemory>
        ensures pushed { OnOk result (self.new ≡ self.old ++ Err error ∷ []) }
        ensures kept { IfErr result (λ _. self.new ≡ self.old) }
    {
        let offset = self.errors.len();
        self.errors.push(error)?;
        self.rows.push(KeptRow {
            cfa: CfaRule::Expression(UnwindExpression { offset, length: 0 }),
            rest: ERROR_MARK,
        })?;
        Ok(())
    }

    /// Frees what the lists have in reserve.
    pub(crate) fn shrink(&mut self)
        ensures { self.new ≡ self.old }
    {
        self.rows.shrink_to_fit();
        self.errors.shrink_to_fit();
    }
}

/// The index of an error.
fn index_in(cfa: CfaRule<usize>) -> usize
    ensures { result ≡ index_in cfa }
{
    match cfa {
        CfaRule::RegisterAndOffset { .. } => 0,
        CfaRule::Expression(e) => e.offset,
    }
}
