//! A row of an unwind table.
ghost use Rattle.std.specs.Prelude.{◌≡◌, ◌<◌, ◌≤◌, ◌↔◌, false, IsTrue, IfOk, OnOk, IfErr, IsNone};
ghost use Rattle.std.specs.Cmp.{partial_equiv_from_equiv};
ghost use Rattle.cfi_read_core.specs.ReaderCalls.{map_ok};
ghost use Rattle.cfi_state.specs.RegisterRuleIters.{rules_left};

use super::rules::{CfaRule, Pair, RegisterRule, RegisterRuleIter, RegisterRuleMap};
use crate::storage::{ArrayLike, CopyList};
use arrayvec::ArrayVec;
use cfi_read_core::{Error, ReaderOffset, Register, Result};
use std::alloc::Global;
use std::marker::Model;

/// How to unwind the code between two addresses (DWARF 5 section 6.4.1).
#[derive(Drop)]
#[derive_where(Debug)]
pub struct UnwindTableRow<T: ReaderOffset, A: ArrayLike<Item = Pair<T>>> {
    start_address: u64,
    end_address: u64,
    saved_args_size: u64,
    cfa: CfaRule<T>,
    registers: RegisterRuleMap<T, A>,
}

impl<T: ReaderOffset, A: ArrayLike<Item = Pair<T>>> Model for UnwindTableRow<T, A> {
    ghost use Rattle.std.specs.FinMap as map;
    ghost use Rattle.std.specs.Coded.{codes};
    ghost use Rattle.cfi_state.specs.Row.{Row};

    ghost Value = { Row T };

    ghost coded = { Prim.hlevel (codes, T.code, map.code) };

    ghost view = { λ row. record {
      start_address = row.start_address;
      end_address = row.end_address;
      parts = record { cfa = row.cfa; rules = row.registers; args_size = row.saved_args_size };
    } };
}

impl<T: ReaderOffset, A: ArrayLike<Item = Pair<T>>> UnwindTableRow<T, A> {
    ghost use Rattle.std.specs.FinMap as map;
    ghost use Rattle.cfi_state.specs.AllocatingOperations.{Performs};
    ghost use Rattle.cfi_state.specs.RulePairs.{rules_of, IsDistinctRegisters};
    ghost use Rattle.cfi_state.specs.RulePairs.{map_set_rule, AddsRule};
    ghost use Rattle.cfi_state.specs.Row.{RowContains, empty_row, at_addresses};
    ghost use Rattle.cfi_state.specs.Row.{with_parts, row_with_cfa, row_with_rules, with_args_size};

    /// The row before the first instruction. Fails with `OutOfMemory` if the list of rules cannot
    /// be allocated.
    pub(crate) fn new_in(alloc: Global) -> Result<Self>
        ensures ok { IfOk result (λ row. row ≡ empty_row) }
        ensures err { IfErr result (λ error. error ≡ Error.OutOfMemory) }
    {
        Ok(UnwindTableRow {
            start_address: 0,
            end_address: 0,
            saved_args_size: 0,
            cfa: CfaRule::default(),
            registers: RegisterRuleMap::new_in(alloc)?,
        })
    }

    /// The first address of the row.
    #[inline(always)]
    pub fn start_address(&self) -> u64
        ensures { result ≡ self.now.start_address }
    {
        self.start_address
    }

    /// The first address after those of the row.
    #[inline(always)]
    pub fn end_address(&self) -> u64
        ensures { result ≡ self.now.end_address }
    {
        self.end_address
    }

    /// Whether the row holds for the address: `start_address() <= address < end_address()`.
    #[inline(always)]
    pub fn contains(&self, address: u64) -> bool
        ensures { IsTrue result ↔ RowContains address self.now }
    {
        self.start_address <= address && address < self.end_address
    }

    /// How many bytes of arguments have been pushed (`DW_CFA_GNU_args_size`).
    #[inline(always)]
    pub fn saved_args_size(&self) -> u64
        ensures { result ≡ self.now.parts.args_size }
    {
        self.saved_args_size
    }

    /// How the canonical frame address is found.
    #[inline(always)]
    pub fn cfa(&self) -> &CfaRule<T>
        ensures { result.now ≡ self.now.parts.cfa }
    {
        &self.cfa
    }

    /// The register's rule, `None` if it has none.
    #[inline(always)]
    pub fn register(&self, register: Register) -> Option<RegisterRule<T>>
        ensures { result ≡ map.get self.now.parts.rules register.0 }
    {
        self.registers.get(register)
    }

    /// Iterates over the registers that have a rule, each once with its rule. The order is not
    /// specified.
    //
    // `RegisterRuleIter` is `Copy`, so it cannot have a `Model`: `rules_left` is the list that it
    // yields.
    #[inline(always)]
    pub fn registers(&self) -> RegisterRuleIter<'_, T>
        ensures rules { rules_of (rules_left result) ≡ self.now.parts.rules }
        ensures distinct { IsDistinctRegisters (rules_left result) }
    {
        self.registers.iter()
    }

    /// Makes the row what it is before the first instruction. Does not allocate.
    #[inline(always)]
    pub(crate) fn reset(&mut self)
        ensures { self.new ≡ empty_row }
    {
        self.start_address = 0;
        self.end_address = 0;
        self.saved_args_size = 0;
        self.cfa = CfaRule::default();
        self.registers.clear();
    }

    /// Writes both addresses.
    #[inline(always)]
    pub(crate) fn set_addresses(&mut self, start: u64, end: u64)
        ensures { self.new ≡ at_addresses self.old start end }
    {
        self.start_address = start;
        self.end_address = end;
    }

    /// Takes the parts of another row, which is left with unspecified rules. Does not allocate.
    pub(crate) fn take_parts(&mut self, other: &mut Self)
        ensures { self.new ≡ with_parts self.old other.old.parts }
    {
        self.saved_args_size = other.saved_args_size;
        self.cfa = other.cfa;
        self.registers.take_from(&mut other.registers);
    }

    /// Sets the rule of the CFA.
    #[inline(always)]
    pub(crate) fn set_cfa(&mut self, cfa: CfaRule<T>)
        ensures { self.new ≡ row_with_cfa self.old cfa }
    {
        self.cfa = cfa;
    }

    /// Sets the size of the pushed arguments.
    #[inline(always)]
    pub(crate) fn set_saved_args_size(&mut self, size: u64)
        ensures { self.new ≡ with_args_size self.old size }
    {
        self.saved_args_size = size;
    }

    /// Sets the register's rule. Fails with `TooManyRegisterRules` or `OutOfMemory` if there is no
    /// room for a new one.
    #[inline(always)]
    pub(crate) fn set_rule(&mut self, register: Register, rule: RegisterRule<T>) -> Result<()>
        ensures { Performs (AddsRule A.limit self.old.parts.rules register.0)
            (map_ok (row_with_rules self.old)
            (map_set_rule A.limit self.old.parts.rules register.0 rule))
            self.old self.new result }
    {
        self.registers.set(register, rule)
    }

    /// Removes the register's rule, if there is one.
    #[inline(always)]
    pub(crate) fn clear_rule(&mut self, register: Register)
        ensures { self.new ≡ row_with_rules self.old (map.remove self.old.parts.rules register.0) }
    {
        self.registers.remove(register);
    }

    /// Returns the rules as a map.
    #[inline(always)]
    pub(crate) fn rules(&self) -> &RegisterRuleMap<T, A>
        ensures { result.now ≡ self.now.parts.rules }
    {
        &self.registers
    }
}

/// Rows are equal if their addresses, argument sizes, CFAs and rules are.
impl<T: ReaderOffset, A: ArrayLike<Item = Pair<T>>> PartialEq for UnwindTableRow<T, A> {
    ghost use Rattle.cfi_state.specs.Equality.{row_eq};
    ghost use Rattle.cfi_state.specs.EqualityLaws.{row_equiv};

    ghost eq = { row_eq T.eq };

    ghost laws = { partial_equiv_from_equiv (row_equiv T.Eq.laws) };

    #[inline(always)]
    fn eq(&self, other: &Self) -> bool {
        self.start_address == other.start_address
            && self.end_address == other.end_address
            && self.saved_args_size == other.saved_args_size
            && self.cfa == other.cfa
            && self.registers == other.registers
    }
}

impl<T: ReaderOffset, A: ArrayLike<Item = Pair<T>>> Eq for UnwindTableRow<T, A> {
    ghost use Rattle.cfi_state.specs.EqualityLaws.{row_equiv};

    ghost laws = { row_equiv T.Eq.laws };
}

impl<T: ReaderOffset, A: ArrayLike<Item = Pair<T>> + CopyList> UnwindTableRow<T, A> {
    /// An equal row. Fails with `OutOfMemory` only if a copy of the rules allocates.
    pub fn try_clone(&self) -> Result<Self>
        ensures ok { IfOk result (λ row. row ≡ self.now) }
        ensures err { IfErr result (λ error.
            (error ≡ Error.OutOfMemory) × (A.copies_free ≡ false)) }
    {
        Ok(UnwindTableRow {
            start_address: self.start_address,
            end_address: self.end_address,
            saved_args_size: self.saved_args_size,
            cfa: self.cfa,
            registers: self.registers.copy()?,
        })
    }

    /// Becomes equal to another row, in its own list of rules. Fails with `OutOfMemory` only if a
    /// copy of the rules allocates.
    pub(crate) fn copy_from(&mut self, other: &Self) -> Result<()>
        ensures ok { OnOk result (self.new ≡ other.now) }
        ensures err { IfErr result (λ error.
            (error ≡ Error.OutOfMemory) × (A.copies_free ≡ false)) }
    {
        self.registers.copy_from(&other.registers)?;
        self.start_address = other.start_address;
        self.end_address = other.end_address;
        self.saved_args_size = other.saved_args_size;
        self.cfa = other.cfa;
        Ok(())
    }
}

/// What fills the unused part of an `ArrayVec` of rows.
impl<T: ReaderOffset, const N: usize> Default for UnwindTableRow<T, ArrayVec<Pair<T>, N>> {
    ghost use Rattle.cfi_state.specs.Row.{empty_row};

    ghost is_default = { λ row. row ≡ empty_row };

    #[inline(always)]
    fn default() -> Self {
        UnwindTableRow {
            start_address: 0,
            end_address: 0,
            saved_args_size: 0,
            cfa: CfaRule::default(),
            registers: RegisterRuleMap::default(),
        }
    }
}
