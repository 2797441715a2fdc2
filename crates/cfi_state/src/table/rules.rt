//! The rules of a row.
ghost use Rattle.std.specs.Prelude.{◌≡◌, ◌<◌, ◌≤◌, [], false, slice_get, length, pos, ⊤};
ghost use Rattle.std.specs.Prelude.{IfOk, OnOk, IfErr, OnErr, IsNone, IsSomeAnd};
ghost use Rattle.cfi_state.specs.declared.table.rules.CfaRule.TheVariants.{RegisterAndOffset};
ghost use Rattle.cfi_state.specs.declared.table.rules.RegisterRule.TheVariants.{Undefined};
ghost use Rattle.std.specs.Iterator.{YieldsFirstRef, item_count};
ghost use Rattle.std.specs.Cmp.{partial_equiv_from_equiv};
ghost use Rattle.std.specs.FinMap.{get};
ghost use Rattle.cfi_read_core.specs.ListLimits.{IsWithinLimit};
ghost use Rattle.cfi_state.specs.StorageRefusals.{refusal_for};
ghost use Rattle.cfi_state.specs.RegisterRuleIters.{rules_left};
ghost use Rattle.cfi_state.specs.RulePairs.{rules_of, IsDistinctRegisters, IsRising};
ghost use Rattle.cfi_state.specs.RulePairs.{BelongsAt, AddsRules};
ghost use Rattle.cfi_state.specs.Equality.{is_within, rule_eq, rules_eq};
ghost use Rattle.cfi_state.specs.EqualityLaws.{rules_equiv};

use crate::storage::{ArrayLike, CopyList, Refused, Why};
use arrayvec::ArrayVec;
use cfi_read_core::array_like::{remove_at, shorten, write_at, write_over};
use cfi_read_core::instruction::UnwindExpression;
use cfi_read_core::{Error, ReaderOffset, Register, Result};
use std::alloc::{AllocError, Global};
use std::fmt::{Debug, Formatter, Write};
use std::marker::Model;

/// The register that holds whether the return address is signed (AArch64 ABI, "DWARF for the Arm
/// 64-bit Architecture").
pub const RA_SIGN_STATE: Register = Register(34);

/// How to find the canonical frame address (DWARF 5 section 6.4.1).
#[derive(Copy, Debug, PartialEq, Eq)]
pub enum CfaRule<T> {
    /// The value of a register plus an offset.
    RegisterAndOffset {
        /// The register.
        register: Register,
        /// The offset in bytes.
        offset: i64,
    },
    /// The value of an expression.
    Expression(UnwindExpression<T>),
}

impl<T: Copy> Clone for CfaRule<T> {
    ghost is_clone = { λ x y. y ≡ x };

    ghost is_infallible = { λ _. ⊤ };

    #[inline(always)]
    fn clone(&self) -> std::result::Result<Self, AllocError> {
        Ok(*self)
    }
}

impl<T> Default for CfaRule<T> {
    ghost is_default = { λ rule. rule ≡ RegisterAndOffset (record { 0 = 0 }) (pos 0) };

    #[inline(always)]
    fn default() -> Self {
        CfaRule::RegisterAndOffset {
            register: Register(0),
            offset: 0,
        }
    }
}

/// How to find the value that a register had in the caller's frame (DWARF 5 section 6.4.1).
#[derive(Clone, Copy, Debug, PartialEq, Eq)]
pub enum RegisterRule<T> {
    /// It is lost.
    Undefined,
    /// It is the register's current value.
    SameValue,
    /// It is saved at the CFA plus this offset.
    Offset(i64),
    /// It is the CFA plus this offset.
    ValOffset(i64),
    /// It is saved in another register.
    Register(Register),
    /// It is saved at the address that the expression gives.
    Expression(UnwindExpression<T>),
    /// It is the value of the expression.
    ValExpression(UnwindExpression<T>),
    /// An architecture's own rule; no instruction here gives it.
    Architectural,
    /// It is this constant.
    Constant(u64),
}

impl<T> Default for RegisterRule<T> {
    ghost is_default = { λ rule. rule ≡ Undefined };

    #[inline(always)]
    fn default() -> Self {
        RegisterRule::Undefined
    }
}

/// A register with its rule.
pub(crate) type Pair<T> = (Register, RegisterRule<T>);

/// The registers that have a rule, each once, the lowest first.
#[derive(Drop)]
pub(crate) struct RegisterRuleMap<T: ReaderOffset, A: ArrayLike<Item = Pair<T>>> {
    pairs: A,
}

impl<T: ReaderOffset, A: ArrayLike<Item = Pair<T>>> Debug for RegisterRuleMap<T, A> {
    fn fmt<W: Write>(&self, f: &mut Formatter<W>) -> std::fmt::Result {
        f.debug_list().entries(self.pairs()).finish()
    }
}

impl<T: ReaderOffset, A: ArrayLike<Item = Pair<T>>> Model for RegisterRuleMap<T, A> {
    ghost use Rattle.std.specs.FinMap as map;
    ghost use Rattle.std.specs.Coded.{codes};
    ghost use Rattle.cfi_state.specs.Machine.{Rules};
    ghost use Rattle.cfi_state.specs.RulePairs.{rules_of, IsRising};

    ghost Value = { Rules T };

    ghost coded = { Prim.hlevel (codes, T.code, map.code) };

    ghost view = { λ map. rules_of (A.items map.pairs) };

    ghost invariant = { λ map. IsRising (A.items map.pairs) };
}

impl<T: ReaderOffset, A: ArrayLike<Item = Pair<T>>> RegisterRuleMap<T, A> {
    ghost use Rattle.std.specs.FinMap as map;
    ghost use Rattle.cfi_state.specs.AllocatingOperations.{Performs};
    ghost use Rattle.cfi_state.specs.RulePairs.{rules_of, IsDistinctRegisters, IsRising};
    ghost use Rattle.cfi_state.specs.RulePairs.{map_set_rule, AddsRule};

    /// A map without rules. Fails with `OutOfMemory` if its list cannot be allocated.
    pub(crate) fn new_in(alloc: Global) -> Result<Self>
        ensures ok { IfOk result (λ rules. rules ≡ map.empty) }
        ensures err { IfErr result (λ error. error ≡ Error.OutOfMemory) }
    {
        Ok(RegisterRuleMap {
            pairs: A::make(alloc)?,
        })
    }

    /// The registers with their rules, each once, the lowest register first.
    #[inline(always)]
    pub(crate) fn pairs(&self) -> &[Pair<T>]
        ensures rules { rules_of result.now ≡ self.now }
        ensures distinct { IsDistinctRegisters result.now }
        ensures rising { IsRising result.now }
    {
        self.pairs.as_slice()
    }

    /// Iterates over the registers with their rules, each once.
    #[inline(always)]
    pub(crate) fn iter(&self) -> RegisterRuleIter<'_, T>
        ensures rules { rules_of (rules_left result) ≡ self.now }
        ensures distinct { IsDistinctRegisters (rules_left result) }
    {
        RegisterRuleIter {
            rules: self.pairs(),
        }
    }

    /// The register's rule, `None` if it has none.
    #[inline(always)]
    pub(crate) fn get(&self, register: Register) -> Option<RegisterRule<T>>
        ensures { result ≡ map.get self.now register.0 }
    {
        rule_of(self.pairs(), register)
    }

    /// Sets the register's rule. Fails with `TooManyRegisterRules` or `OutOfMemory` if there is no
    /// room for a new one.
    #[inline(always)]
    pub(crate) fn set(&mut self, register: Register, rule: RegisterRule<T>) -> Result<()>
        ensures { Performs (AddsRule A.limit self.old register.0)
            (map_set_rule A.limit self.old register.0 rule) self.old self.new result }
    {
        let index = match index_of(self.pairs.as_slice(), register) {
            Ok(index) => {
                write_at(&mut self.pairs, index, (register, rule));
                return Ok(());
            }
            Err(index) => index,
        };
        let Err(refused) = self.pairs.try_insert(index, (register, rule)) else {
            return Ok(());
        };
        Err(refusal_of(refused, Error::TooManyRegisterRules))
    }

    /// Removes the register's rule, if there is one.
    #[inline(always)]
    pub(crate) fn remove(&mut self, register: Register)
        ensures { self.new ≡ map.remove self.old register.0 }
    {
        if let Ok(index) = index_of(self.pairs.as_slice(), register) {
            remove_at(&mut self.pairs, index);
        }
    }

    /// Removes all rules.
    #[inline(always)]
    pub(crate) fn clear(&mut self)
        ensures { self.new ≡ map.empty }
    {
        self.pairs.clear();
    }

    /// Takes the rules of another map, which is left with unspecified ones. Does not allocate:
    /// lists without a limit are swapped, others written over.
    pub(crate) fn take_from(&mut self, other: &mut Self)
        ensures { self.new ≡ other.old }
    {
        if A::limit().is_none() {
            std::mem::swap(&mut self.pairs, &mut other.pairs);
            return;
        }
        let _filled = fill(&mut self.pairs, other.pairs.as_slice());
    }
}

impl<T: ReaderOffset, A: ArrayLike<Item = Pair<T>> + CopyList> RegisterRuleMap<T, A> {
    /// An equal map. Fails with `OutOfMemory` only if a copy of the list allocates.
    pub(crate) fn copy(&self) -> Result<Self>
        ensures ok { IfOk result (λ rules. rules ≡ self.now) }
        ensures err { IfErr result (λ error.
            (error ≡ Error.OutOfMemory) × (A.copies_free ≡ false)) }
    {
        Ok(RegisterRuleMap {
            pairs: self.pairs.copy()?,
        })
    }

    /// Becomes equal to another map, in its own list. Fails with `OutOfMemory` only if the list has
    /// no limit, copies allocate and there is a rule.
    pub(crate) fn copy_from(&mut self, other: &Self) -> Result<()>
        ensures ok { OnOk result (self.new ≡ other.now) }
        ensures err { IfErr result (λ error.
            (error ≡ Error.OutOfMemory) × AddsRules A.limit A.copies_free other.now) }
    {
        // a push may allocate where a copy does not
        if A::copies_free() && A::limit().is_none() {
            self.pairs = other.pairs.copy()?;
            return Ok(());
        }
        fill(&mut self.pairs, other.pairs.as_slice())
    }
}

/// Makes the list hold these pairs. An error leaves it empty.
fn fill<T: ReaderOffset, A: ArrayLike<Item = Pair<T>>>(
    list: &mut A,
    pairs: &[Pair<T>],
) -> Result<()>
    requires { IsWithinLimit A.limit pairs.now }
    ensures ok { OnOk result (A.items list.new ≡ pairs.now) }
    ensures err { OnErr result (A.items list.new ≡ []) }
    ensures memory { IfErr result (λ error.
        (error ≡ Error.OutOfMemory) × IsNone A.limit × (1 ≤ length pairs.now)) }
{
    shorten(list, pairs.len());
    write_over(list, pairs);
    for index in list.as_slice().len()..pairs.len() {
        let Err(refused) = list.try_push(pairs[index]) else {
            continue;
        };
        list.clear();
        return Err(refusal_of(refused, Error::TooManyRegisterRules));
    }
    Ok(())
}

/// Iterates over the registers that have a rule, each once with its rule. The order is not
/// specified.
#[derive(Clone, Copy, Debug)]
pub struct RegisterRuleIter<'iter, T: ReaderOffset> {
    rules: &'iter [Pair<T>],
}

impl<'iter, T: ReaderOffset> RegisterRuleIter<'iter, T> {
    /// The registers that are still to come, each once with its rule, as a slice.
    #[inline(always)]
    pub fn as_slice(&self) -> &'iter [(Register, RegisterRule<T>)]
        ensures { result.now ≡ rules_left self.now }
    {
        self.rules
    }
}

impl<'iter, T: ReaderOffset> Iterator for RegisterRuleIter<'iter, T> {
    type Item = &'iter (Register, RegisterRule<T>);

    ghost next_gives = { YieldsFirstRef rules_left };

    ghost remaining = { item_count rules_left };

    #[inline(always)]
    fn next(&mut self) -> Option<&'iter (Register, RegisterRule<T>)> {
        let (first, others) = self.rules.split_first()?;
        self.rules = others;
        Some(first)
    }
}

impl<T: ReaderOffset, A: ArrayLike<Item = Pair<T>>> PartialEq for RegisterRuleMap<T, A> {
    ghost eq = { rules_eq T.eq };

    ghost laws = { partial_equiv_from_equiv (rules_equiv T.Eq.laws) };

    #[inline(always)]
    fn eq(&self, other: &Self) -> bool {
        is_same_rules(self.pairs(), other.pairs())
    }
}

impl<T: ReaderOffset, A: ArrayLike<Item = Pair<T>>> Eq for RegisterRuleMap<T, A> {
    ghost laws = { rules_equiv T.Eq.laws };
}

/// Whether two lists are of equal maps.
#[inline(always)]
pub(crate) fn is_same_rules<T: ReaderOffset>(a: &[Pair<T>], b: &[Pair<T>]) -> bool
    requires a { IsRising a.now }
    requires b { IsRising b.now }
    ensures { result ≡ rules_eq T.eq (rules_of a.now) (rules_of b.now) }
{
    has_same_rules(a, b) && has_same_rules(b, a)
}

/// Whether each register of `pairs` has an equal rule in `others`.
#[inline(always)]
fn has_same_rules<T: ReaderOffset>(pairs: &[Pair<T>], others: &[Pair<T>]) -> bool
    requires pairs { IsRising pairs.now }
    requires others { IsRising others.now }
    ensures { result ≡ is_within (rule_eq T.eq) (rules_of pairs.now) (rules_of others.now) }
{
    for pair in pairs {
        let Some(rule) = rule_of(others, pair.0) else {
            return false;
        };
        if pair.1 != rule {
            return false;
        }
    }
    true
}

/// The rule of the register in a list of pairs, `None` if it has none.
#[inline(always)]
pub(crate) fn rule_of<T: ReaderOffset>(
    pairs: &[Pair<T>],
    register: Register,
) -> Option<RegisterRule<T>>
    requires { IsRising pairs.now }
    ensures { result ≡ get (rules_of pairs.now) register.0 }
{
    match index_of(pairs, register) {
        Ok(index) => Some(pairs[index].1),
        Err(_) => None,
    }
}

/// The index of the register in a list of pairs by binary search, or, as the error, the index at
/// which it belongs.
#[inline(always)]
fn index_of<T: ReaderOffset>(
    pairs: &[Pair<T>],
    register: Register,
) -> std::result::Result<usize, usize>
    requires { IsRising pairs.now }
    ensures bound { IfOk result (λ index. index < length pairs.now) }
    ensures found { IfOk result (λ index.
        IsSomeAnd (slice_get pairs.now index) (λ pair. pair.0 ≡ register)) }
    ensures absent { IfErr result (λ index. BelongsAt pairs.now index register) }
{
    let mut low = 0;
    let mut high = pairs.len();
    while low < high {
        let middle = low + (high - low) / 2;
        let other = pairs[middle].0;
        if other == register {
            return Ok(middle);
        }
        if other.0 < register.0 {
            low = middle + 1;
        } else {
            high = middle;
        }
    }
    Err(low)
}

/// The error for an item that a list did not take: `full`, or `OutOfMemory`.
#[inline(always)]
pub(crate) fn refusal_of<T: Drop>(refused: Refused<T>, full: Error) -> Error
    ensures { result ≡ refusal_for refused.why full }
{
    match refused.why {
        Why::Full(_) => full,
        Why::Memory => Error::OutOfMemory,
    }
}

impl<T: ReaderOffset, const N: usize> Default for RegisterRuleMap<T, ArrayVec<Pair<T>, N>> {
    ghost use Rattle.std.specs.FinMap as map;

    ghost is_default = { λ rules. rules ≡ map.empty };

    #[inline(always)]
    fn default() -> Self {
        RegisterRuleMap {
            pairs: ArrayVec::new(),
        }
    }
}
