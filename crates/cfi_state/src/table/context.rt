//! The state of an unwind, which can be used for one entry after another.
ghost use Rattle.std.specs.Prelude.{◌≡◌, ◌≢◌, ◌<◌, ◌≤◌, ◌∷◌, ◌++◌, [], Some, None, false};
ghost use Rattle.std.specs.Prelude.{IfOk, OnOk, IfErr, OnErr, IsSomeAnd};
ghost use Rattle.std.specs.Prelude.{length, reverse, slice_get, slice_set};
ghost use Rattle.std.specs.Option.{option_eq};
ghost use Rattle.std.specs.Cmp.{partial_equiv_from_equiv};
ghost use Rattle.cfi_read_core.specs.ReaderCalls.{map_ok};
ghost use Rattle.cfi_state.specs.Row.{with_parts};
ghost use Rattle.cfi_state.specs.UnwindContexts.{AddsRow, IsKept, IsSameBelow};

use super::row::UnwindTableRow;
use super::rules::{CfaRule, RegisterRule, RegisterRuleMap, refusal_of};
use crate::storage::{ArrayLike, UnwindContextStorage};
use cfi_read_core::{Error, ReaderOffset, Register, Result, StoreOnHeap};
use std::alloc::Global;
use std::fmt::{Debug, Formatter, Write};
use std::marker::Model;

/// The state of an unwind: the current row, the remembered rows and the CIE's initial rules.
///
/// One context serves any number of unwinds, one after another: each empties it first.
#[derive(Drop)]
pub struct UnwindContext<T: ReaderOffset, S: UnwindContextStorage<T> = StoreOnHeap> {
    row: UnwindTableRow<T, S::Rules>,
    /// The first `depth` rows are the remembered ones, the last one last. The later ones are
    /// unused, and written over.
    stack: S::Stack,
    depth: usize,
    /// The rules that the CIE's initial instructions ended with, if they have ended. Two rules or
    /// more count as a row of the stack.
    initial_rules: RegisterRuleMap<T, S::Rules>,
    has_ended_cie: bool,
}

impl<T: ReaderOffset, S: UnwindContextStorage<T>> Debug for UnwindContext<T, S> {
    fn fmt<W: Write>(&self, f: &mut Formatter<W>) -> std::fmt::Result {
        let initial_rules = self.has_ended_cie.then_some(&self.initial_rules);
        f.debug_struct("UnwindContext")
            .field("row", &self.row)
            .field("remembered", &self.remembered())
            .field("initial_rules", &initial_rules)
            .finish()
    }
}

impl<T: ReaderOffset, S: UnwindContextStorage<T>> Model for UnwindContext<T, S> {
    ghost use Rattle.std.specs.FinMap as map;
    ghost use Rattle.std.specs.Coded.{codes};
    ghost use Rattle.cfi_state.specs.UnwindContexts.{ContextState, context_of, IsContext};

    ghost Value = { ContextState T };

    ghost coded = { Prim.hlevel (codes, T.code, map.code) };

    ghost view = { λ context. context_of context.row (S.Stack.items context.stack) context.depth
        context.initial_rules context.has_ended_cie };

    ghost invariant = { λ context. IsContext S.Stack.limit (S.Stack.items context.stack)
        context.depth context.initial_rules context.has_ended_cie };
}

impl<T: ReaderOffset> UnwindContext<T> {
    ghost use Rattle.cfi_state.specs.UnwindContexts.{empty_context};

    /// An empty context with room for 192 rules a row and for 4 rows. Fails with `OutOfMemory` if
    /// they cannot be allocated.
    pub fn new(alloc: Global) -> Result<Self>
        ensures ok { IfOk result (λ context. context ≡ empty_context) }
        ensures err { IfErr result (λ error. error ≡ Error.OutOfMemory) }
    {
        Self::new_in(alloc)
    }
}

impl<T: ReaderOffset, S: UnwindContextStorage<T>> UnwindContext<T, S> {
    ghost use Rattle.std.specs.FinMap as map;
    ghost use Rattle.cfi_state.specs.MachineSettings.{is_at_limit};
    ghost use Rattle.cfi_state.specs.Machine.{copies_held};
    ghost use Rattle.cfi_state.specs.AllocatingOperations.{Performs};
    ghost use Rattle.cfi_state.specs.RulePairs.{map_set_rule, AddsRule, AddsRules};
    ghost use Rattle.cfi_state.specs.Row.{at_addresses, row_with_cfa, row_with_rules};
    ghost use Rattle.cfi_state.specs.Row.{with_args_size};
    ghost use Rattle.cfi_state.specs.UnwindContexts.{empty_context, with_row, context_rows_held};
    ghost use Rattle.cfi_state.specs.UnwindContexts.{context_remember, context_restore};
    ghost use Rattle.cfi_state.specs.UnwindContexts.{context_end_of_cie, initial_rule};

    /// An empty context over the lists of `S`. Fails with `OutOfMemory` if they cannot be
    /// allocated.
    pub fn new_in(alloc: Global) -> Result<Self>
        ensures ok { IfOk result (λ context. context ≡ empty_context) }
        ensures err { IfErr result (λ error. error ≡ Error.OutOfMemory) }
    {
        Ok(UnwindContext {
            row: UnwindTableRow::new_in(alloc)?,
            stack: S::Stack::make(alloc)?,
            depth: 0,
            initial_rules: RegisterRuleMap::new_in(alloc)?,
            has_ended_cie: false,
        })
    }

    /// An equal context with lists of its own. Fails with `OutOfMemory` if they cannot be
    /// allocated.
    pub fn try_clone(&self, alloc: Global) -> Result<Self>
        ensures ok { IfOk result (λ context. context ≡ self.now) }
        ensures err { IfErr result (λ error. error ≡ Error.OutOfMemory) }
    {
        let stack = copy_of::<T, S>(self.remembered(), alloc)?;
        Ok(UnwindContext {
            row: self.row.try_clone()?,
            depth: stack.as_slice().len(),
            stack,
            initial_rules: self.initial_rules.copy()?,
            has_ended_cie: self.has_ended_cie,
        })
    }

    /// Empties the context. Does not allocate.
    #[inline(always)]
    pub(crate) fn reset(&mut self)
        ensures { self.new ≡ empty_context }
    {
        self.row.reset();
        self.depth = 0;
        self.has_ended_cie = false;
    }

    /// The current row.
    #[inline(always)]
    pub(crate) fn row(&self) -> &UnwindTableRow<T, S::Rules>
        ensures { result.now ≡ self.now.row }
    {
        &self.row
    }

    /// Writes both addresses of the current row.
    #[inline(always)]
    pub(crate) fn set_addresses(&mut self, start: u64, end: u64)
        ensures { self.new ≡ with_row self.old (at_addresses self.old.row start end) }
    {
        self.row.set_addresses(start, end);
    }

    /// Sets the rule of the CFA in the current row.
    #[inline(always)]
    pub(crate) fn set_cfa(&mut self, cfa: CfaRule<T>)
        ensures { self.new ≡ with_row self.old (row_with_cfa self.old.row cfa) }
    {
        self.row.set_cfa(cfa);
    }

    /// Sets the size of the pushed arguments in the current row.
    #[inline(always)]
    pub(crate) fn set_saved_args_size(&mut self, size: u64)
        ensures { self.new ≡ with_row self.old (with_args_size self.old.row size) }
    {
        self.row.set_saved_args_size(size);
    }

    /// Sets the register's rule in the current row. Fails with `TooManyRegisterRules` or
    /// `OutOfMemory` if there is no room for a new one.
    #[inline(always)]
    pub(crate) fn set_rule(&mut self, register: Register, rule: RegisterRule<T>) -> Result<()>
        ensures { Performs (AddsRule S.Rules.limit self.old.row.parts.rules register.0)
            (map_ok (λ rules. with_row self.old (row_with_rules self.old.row rules))
            (map_set_rule S.Rules.limit self.old.row.parts.rules register.0 rule))
            self.old self.new result }
    {
        self.row.set_rule(register, rule)
    }

    /// Removes the register's rule from the current row, if there is one.
    #[inline(always)]
    pub(crate) fn clear_rule(&mut self, register: Register)
        ensures { self.new ≡ with_row self.old
            (row_with_rules self.old.row (map.remove self.old.row.parts.rules register.0)) }
    {
        self.row.clear_rule(register);
    }

    /// How many rows of the stack the initial rules count as.
    #[inline(always)]
    fn copies_held(&self) -> usize
        ensures { result ≡ copies_held self.now.initial_rules }
    {
        if self.has_ended_cie && 2 <= self.initial_rules.pairs().len() {
            return 1;
        }
        0
    }

    /// Whether the stack has no room for another row.
    #[inline(always)]
    fn is_full(&self) -> bool
        ensures { result ≡ is_at_limit S.Stack.limit (context_rows_held self.now) }
    {
        match S::Stack::limit() {
            Some(limit) => self.depth + self.copies_held() == limit - 1,
            None => false,
        }
    }

    /// Remembers the current row (DWARF 5 section 6.4.2.4). Fails with `StackFull` if there is no
    /// room, and with `OutOfMemory` if a copy cannot be allocated.
    #[inline(never)]
    pub(crate) fn remember(&mut self) -> Result<()>
        ensures { Performs (AddsRow S.Stack.limit S.Rules.copies_free)
            (context_remember S.Stack.limit self.old) self.old self.new result }
    {
        if self.is_full() {
            return Err(Error::StackFull);
        }
        self.depth = keep_row::<T, S>(&mut self.stack, self.depth, &self.row)?;
        Ok(())
    }

    /// Restores the last remembered row, except for its addresses (DWARF 5 section 6.4.2.4). Fails
    /// with `PopWithEmptyStack` if none is remembered. Does not allocate.
    #[inline(never)]
    pub(crate) fn restore_state(&mut self) -> Result<()>
        ensures { Performs ⊥ (context_restore self.old) self.old self.new result }
    {
        if self.depth == 0 {
            return Err(Error::PopWithEmptyStack);
        }
        let last = self.depth - 1;
        bring_back::<T, S>(&mut self.row, &mut self.stack, last);
        self.depth = last;
        Ok(())
    }

    /// Saves the current rules, with which the CIE's initial instructions end. Fails with
    /// `StackFull` if two rules or more would be one row too many, and with `OutOfMemory` if a copy
    /// cannot be allocated.
    pub(crate) fn save_initial_rules(&mut self) -> Result<()>
        requires { self.old.initial_rules ≡ None }
        ensures { Performs
            (AddsRules S.Rules.limit S.Rules.copies_free self.old.row.parts.rules)
            (context_end_of_cie S.Stack.limit self.old) self.old self.new result }
    {
        if 2 <= self.row.rules().pairs().len() && self.is_full() {
            return Err(Error::StackFull);
        }
        self.initial_rules.copy_from(self.row.rules())?;
        self.has_ended_cie = true;
        Ok(())
    }

    /// The rule that the register had when the CIE's initial instructions ended. Fails with
    /// `CfiInstructionInInvalidContext` while they run.
    #[inline(always)]
    pub(crate) fn initial_rule(&self, register: Register) -> Result<Option<RegisterRule<T>>>
        ensures { result ≡ initial_rule self.now register.0 }
    {
        if !self.has_ended_cie {
            return Err(Error::CfiInstructionInInvalidContext);
        }
        Ok(self.initial_rules.get(register))
    }
}

/// Contexts are equal if their rows are equal one by one, and if both or neither have ended a CIE,
/// with equal rules.
impl<T: ReaderOffset, S: UnwindContextStorage<T>> PartialEq for UnwindContext<T, S> {
    ghost use Rattle.cfi_state.specs.Equality.{context_eq};
    ghost use Rattle.cfi_state.specs.EqualityLaws.{context_equiv};

    ghost eq = { context_eq T.eq };

    ghost laws = { partial_equiv_from_equiv (context_equiv T.Eq.laws) };

    #[inline(always)]
    fn eq(&self, other: &Self) -> bool {
        if self.row != other.row {
            return false;
        }
        if self.remembered() != other.remembered() {
            return false;
        }
        self.has_initial_rules_of(other)
    }
}

impl<T: ReaderOffset, S: UnwindContextStorage<T>> Eq for UnwindContext<T, S> {
    ghost use Rattle.cfi_state.specs.EqualityLaws.{context_equiv};

    ghost laws = { context_equiv T.Eq.laws };
}

impl<T: ReaderOffset, S: UnwindContextStorage<T>> UnwindContext<T, S> {
    ghost use Rattle.cfi_state.specs.Equality.{rules_eq};

    /// The remembered rows, the last one last.
    #[inline(always)]
    fn remembered(&self) -> &[UnwindTableRow<T, S::Rules>]
        ensures { reverse result.now ≡ self.now.remembered }
    {
        &self.stack.as_slice()[..self.depth]
    }

    /// Whether both or neither have ended a CIE, with equal rules.
    #[inline(always)]
    fn has_initial_rules_of(&self, other: &Self) -> bool
        ensures { result
            ≡ option_eq (rules_eq T.eq) self.now.initial_rules other.now.initial_rules }
    {
        if self.has_ended_cie && other.has_ended_cie {
            return self.initial_rules == other.initial_rules;
        }
        self.has_ended_cie == other.has_ended_cie
    }
}

/// Writes a copy of the row to the stack at the depth, and returns the new depth.
fn keep_row<T: ReaderOffset, S: UnwindContextStorage<T>>(
    stack: &mut S::Stack,
    depth: usize,
    row: &UnwindTableRow<T, S::Rules>,
) -> Result<usize>
    requires within { depth ≤ length (S.Stack.items stack.old) }
    requires room { S.Stack.limit ≢ Some depth }
    ensures ok { IfOk result (λ deeper.
        IsKept (S.Stack.items stack.old) depth row.now (S.Stack.items stack.new) deeper) }
    ensures err { OnErr result
        (IsSameBelow depth (S.Stack.items stack.old) (S.Stack.items stack.new)) }
    ensures memory { IfErr result (λ error.
        (error ≡ Error.OutOfMemory) × AddsRow S.Stack.limit S.Rules.copies_free) }
{
    if depth < stack.as_slice().len() {
        copy_over::<T, S>(stack, depth, row)?;
        return Ok(depth + 1);
    }
    append_copy::<T, S>(stack, row)?;
    Ok(stack.as_slice().len())
}

/// Writes a copy of the row over the one at the index, in its list of rules.
fn copy_over<T: ReaderOffset, S: UnwindContextStorage<T>>(
    stack: &mut S::Stack,
    index: usize,
    row: &UnwindTableRow<T, S::Rules>,
) -> Result<()>
    requires { index < length (S.Stack.items stack.old) }
    ensures ok { OnOk result
        (S.Stack.items stack.new ≡ slice_set (S.Stack.items stack.old) index row.now) }
    ensures err { OnErr result
        (IsSameBelow index (S.Stack.items stack.old) (S.Stack.items stack.new)) }
    ensures memory { IfErr result (λ error.
        (error ≡ Error.OutOfMemory) × (S.Rules.copies_free ≡ false)) }
{
    let rows = stack.as_mut_slice();
    rows[index].copy_from(row)
}

/// Appends a copy of the row. It is a function of its own because each call fills a local of a
/// row's size.
#[inline(never)]
fn append_copy<T: ReaderOffset, S: UnwindContextStorage<T>>(
    stack: &mut S::Stack,
    row: &UnwindTableRow<T, S::Rules>,
) -> Result<()>
    requires { S.Stack.limit ≢ Some (length (S.Stack.items stack.old)) }
    ensures ok { OnOk result (S.Stack.items stack.new ≡ S.Stack.items stack.old ++ row.now ∷ []) }
    ensures err { OnErr result (S.Stack.items stack.new ≡ S.Stack.items stack.old) }
    ensures memory { IfErr result (λ error.
        (error ≡ Error.OutOfMemory) × AddsRow S.Stack.limit S.Rules.copies_free) }
{
    let copy = row.try_clone()?;
    let Err(refused) = stack.try_push(copy) else {
        return Ok(());
    };
    Err(refusal_of(refused, Error::StackFull))
}

/// Gives the row the parts of the one at the index.
fn bring_back<T: ReaderOffset, S: UnwindContextStorage<T>>(
    row: &mut UnwindTableRow<T, S::Rules>,
    stack: &mut S::Stack,
    index: usize,
)
    requires { index < length (S.Stack.items stack.old) }
    ensures row { IsSomeAnd (slice_get (S.Stack.items stack.old) index)
        (λ last. row.new ≡ with_parts row.old last.parts) }
    ensures stack { IsSameBelow index (S.Stack.items stack.old) (S.Stack.items stack.new) }
{
    let rows = stack.as_mut_slice();
    row.take_parts(&mut rows[index]);
}

/// A new list of copies of the rows.
fn copy_of<T: ReaderOffset, S: UnwindContextStorage<T>>(
    rows: &[UnwindTableRow<T, S::Rules>],
    alloc: Global,
) -> Result<S::Stack>
    ensures ok { IfOk result (λ stack. S.Stack.items stack ≡ rows.now) }
    ensures err { IfErr result (λ error. error ≡ Error.OutOfMemory) }
{
    let mut stack = S::Stack::make(alloc)?;
    for row in rows {
        let Err(_refused) = stack.try_push(row.try_clone()?) else {
            continue;
        };
        return Err(Error::OutOfMemory);
    }
    Ok(stack)
}
