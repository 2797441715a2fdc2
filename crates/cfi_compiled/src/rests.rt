//! What rows and their CIEs say but the rule of the CFA, each kept once.
ghost use Rattle.std.specs.Prelude.{◌≡◌, ◌<◌, [], length, IfOk, IsTrue};
ghost use Rattle.cfi_state.specs.RulePairs.{IsDistinctRegisters, rules_of};
ghost use Rattle.cfi_compiled.specs.CompiledRows.{HasDistinctRegisters, frame_kept};
ghost use Rattle.cfi_compiled.specs.KeptRows.{IsGrown, IsRestOf, frame_of_kept};

use crate::facts::CieFacts;
use crate::hash::hash_of_rest;
use crate::row::CompiledRow;
use crate::same::{is_same_facts, is_same_pair};
use crate::slots::{Slots, Sought};
use crate::steps::NoMemory;
use cfi_read_core::Register;
use cfi_state::storage::ArrayLike;
use cfi_state::table::row::UnwindTableRow;
use cfi_state::table::rules::{CfaRule, RegisterRule};
use std::alloc::{AllocError, Global};
use std::marker::Model;

/// A row: the rule of the CFA, and the number of the rest.
#[derive(Clone, Copy, Debug)]
pub(crate) struct KeptRow {
    pub(crate) cfa: CfaRule<usize>,
    pub(crate) rest: usize,
}

/// What a row says but the rule of the CFA: the size of pushed arguments, and where its rules begin
/// and end in the list of all; with what its CIE says.
#[derive(Clone, Copy, Debug)]
struct KeptRest {
    saved_args_size: u64,
    facts: CieFacts,
    begin: usize,
    end: usize,
}

/// The rests of rows, by number.
#[derive(Debug, Drop)]
pub(crate) struct Rests {
    rests: Vec<KeptRest>,
    rules: Vec<(Register, RegisterRule<usize>)>,
}

impl Model for Rests {
    ghost use Rattle.std.specs.List.{All};
    ghost use Rattle.cfi_compiled.specs.KeptRows.{HasRulesIn, RestLists};

    ghost Value = { RestLists };

    ghost view = { λ r. record { rests = r.rests.items; rules = r.rules.items } };

    ghost invariant = { λ r. All (HasRulesIn r.rules.items) r.rests.items };
}

impl Rests {
    /// No rest yet.
    fn new(alloc: Global) -> Self
        ensures { result ≡ record { rests = []; rules = [] } }
    {
        Rests {
            rests: Vec::new(alloc),
            rules: Vec::new(alloc),
        }
    }

    /// What a kept row says, and its CIE.
    #[inline(always)]
    pub(crate) fn row<'a>(&'a self, kept: &'a KeptRow) -> CompiledRow<'a>
        requires { kept.now.rest < length self.now.rests }
        ensures frame { frame_kept result ≡ frame_of_kept self.now kept.now }
        ensures distinct { HasDistinctRegisters result }
    {
        let rest = self.rests[kept.rest];
        CompiledRow {
            cfa: &kept.cfa,
            saved_args_size: rest.saved_args_size,
            facts: rest.facts,
            rules: &self.rules.as_slice()[rest.begin..rest.end],
        }
    }

    /// Whether this is the number of a row's rest, with the rules in the order of `registers`.
    #[inline(always)]
    fn is_of<A: ArrayLike<Item = (Register, RegisterRule<usize>)>>(
        &self,
        number: usize,
        row: &UnwindTableRow<usize, A>,
        facts: CieFacts,
    ) -> bool
        ensures { IsTrue result → IsRestOf self.now facts row.now.parts number }
    {
        if number >= self.rests.len() {
            return false;
        }
        let rest = self.rests[number];
        rest.saved_args_size == row.saved_args_size()
            && is_same_facts(rest.facts, facts)
            && is_rules_of(&self.rules.as_slice()[rest.begin..rest.end], row)
    }

    /// Adds the rest of a row, and returns its number.
    fn add<A: ArrayLike<Item = (Register, RegisterRule<usize>)>>(
        &mut self,
        alloc: Global,
        row: &UnwindTableRow<usize, A>,
        facts: CieFacts,
    ) -> Result<usize, NoMemory>
        ensures grown { IsGrown self.old self.new }
        ensures number { IfOk result (IsRestOf self.new facts row.now.parts) }
    {
        let own = rules_of_row(alloc, row)?;
        let begin = self.rules.len();
        self.rules.extend_from_slice(own.as_slice())?;
        let number = self.rests.len();
        self.rests.push(KeptRest {
            saved_args_size: row.saved_args_size(),
            facts,
            begin,
            end: self.rules.len(),
        })?;
        Ok(number)
    }

    /// Frees what the lists have in reserve.
    fn shrink(&mut self)
        ensures { self.new ≡ self.old }
    {
        self.rests.shrink_to_fit();
        self.rules.shrink_to_fit();
    }
}

/// Whether these are the rules of a row, in the order of `registers`.
#[inline(always)]
fn is_rules_of<A: ArrayLike<Item = (Register, RegisterRule<usize>)>>(
    rules: &[(Register, RegisterRule<usize>)],
    row: &UnwindTableRow<usize, A>,
) -> bool
    ensures { IsTrue result → rules_of rules.now ≡ row.now.parts.rules }
{
    let mut count = 0;
    for pair in row.registers() {
        if count >= rules.len() || !is_same_pair(rules[count], *pair) {
            return false;
        }
        count += 1;
    }
    count == rules.len()
}

/// The rules of a row, in a list of their own.
fn rules_of_row<A: ArrayLike<Item = (Register, RegisterRule<usize>)>>(
    alloc: Global,
    row: &UnwindTableRow<usize, A>,
) -> Result<Vec<(Register, RegisterRule<usize>)>, AllocError>
    ensures rules { IfOk result (λ own. rules_of own.items ≡ row.now.parts.rules) }
    ensures distinct { IfOk result (λ own. IsDistinctRegisters own.items) }
{
    let mut own = Vec::new(alloc);
    for pair in row.registers() {
        own.push(*pair)?;
    }
    Ok(own)
}

/// Rests to which others are added. Equal ones have one number.
#[derive(Debug, Drop)]
pub(crate) struct RestBuilder {
    alloc: Global,
    rests: Rests,
    slots: Slots,
    last: usize,
}

impl Model for RestBuilder {
    ghost use Rattle.cfi_compiled.specs.KeptRows.{RestLists};

    ghost Value = { RestLists };

    ghost view = { λ b. b.rests };
}

impl RestBuilder {
    /// No rest yet.
    pub(crate) fn new(alloc: Global) -> Self
        ensures { result ≡ record { rests = []; rules = [] } }
    {
        RestBuilder {
            alloc,
            rests: Rests::new(alloc),
            slots: Slots::new(alloc),
            last: 0,
        }
    }

    /// Whether this is the number of a row's rest.
    #[inline(always)]
    pub(crate) fn is_of<A: ArrayLike<Item = (Register, RegisterRule<usize>)>>(
        &self,
        number: usize,
        row: &UnwindTableRow<usize, A>,
        facts: CieFacts,
    ) -> bool
        ensures { IsTrue result → IsRestOf self.now facts row.now.parts number }
    {
        self.rests.is_of(number, row, facts)
    }

    /// The number of a row's rest, which is added if it isn't there. The row before mostly had the
    /// same.
    pub(crate) fn number_of<A: ArrayLike<Item = (Register, RegisterRule<usize>)>>(
        &mut self,
        row: &UnwindTableRow<usize, A>,
        facts: CieFacts,
    ) -> Result<usize, NoMemory>
        ensures grown { IsGrown self.old self.new }
        ensures number { IfOk result (IsRestOf self.new facts row.now.parts) }
    {
        if self.rests.is_of(self.last, row, facts) {
            return Ok(self.last);
        }
        let hash = hash_of_rest(row, facts);
        let sought = RestOfRow {
            rests: &self.rests,
            row,
            facts,
        };
        if let Some(number) = self.slots.find(hash, &sought) {
            self.last = number;
            return Ok(number);
        }
        let number = self.rests.add(self.alloc, row, facts)?;
        self.slots.write(hash, number)?;
        self.last = number;
        Ok(number)
    }

    /// The rests, in as little memory as they need.
    pub(crate) fn finish(self) -> Rests
        ensures { result ≡ self }
    {
        let RestBuilder { mut rests, .. } = self;
        rests.shrink();
        rests
    }
}

/// The rest of a row that is looked for.
#[derive(Drop)]
struct RestOfRow<'a, A: ArrayLike<Item = (Register, RegisterRule<usize>)>> {
    rests: &'a Rests,
    row: &'a UnwindTableRow<usize, A>,
    facts: CieFacts,
}

impl<'a, A: ArrayLike<Item = (Register, RegisterRule<usize>)>> Sought for RestOfRow<'a, A> {
    ghost IsAt = { λ sought. IsRestOf sought.rests.now sought.facts sought.row.now.parts };

    #[inline(always)]
    fn is(&self, number: usize) -> bool {
        self.rests.is_of(number, self.row, self.facts)
    }
}
