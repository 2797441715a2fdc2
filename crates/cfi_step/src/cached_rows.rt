//! A cache of rows by their files and addresses, for walks of many stacks.
ghost use Rattle.std.specs.Prelude.{◌≡◌};
ghost use Rattle.std.specs.FinMap.{get};
ghost use Rattle.gimli_cfi.specs.Words.{rules_of};
ghost use Rattle.cfi_step.specs.CachedRows.{AreEmpty};

use crate::rows::RowRules;
use crate::slots::RowSlot;
use arrayvec::ArrayVec;
use gimli_cfi::{ArrayLike, CfaRule, Register, RegisterRule, UnwindTableRow};

/// The most rules of registers that a row may have that is kept. Rows of x86-64 mostly have 7 at
/// most; one of AArch64 has more if it saves x19 to x30.
const RULES: usize = 8;

/// A slot of a cache of rows. It is empty, or holds the row of an address of a file (DWARF 5
/// section 6.4.1) with what its CIE says of the return.
#[derive(Drop)]
pub struct CachedRow {
    file: usize,
    address: u64,
    is_kept: bool,
    is_signal_trampoline: bool,
    return_address: Register,
    cfa: CfaRule<usize>,
    saved_args_size: u64,
    rules: ArrayVec<(Register, RegisterRule<usize>), RULES>,
}

impl CachedRow {
    ghost use Rattle.std.specs.Prelude.{◌≡◌, false};
    ghost use Rattle.cfi_step.specs.CachedRows.{is_full};

    /// An empty slot. Does not allocate.
    pub fn new() -> CachedRow
        ensures { is_full result ≡ false }
    {
        CachedRow {
            file: 0,
            address: 0,
            is_kept: false,
            is_signal_trampoline: false,
            return_address: Register(0),
            cfa: CfaRule::default(),
            saved_args_size: 0,
            rules: ArrayVec::new(),
        }
    }

    /// Empties the slot.
    #[inline]
    pub fn clear(&mut self)
        ensures { is_full self.new ≡ false }
    {
        self.is_kept = false;
    }
}

impl RowRules for CachedRow {
    ghost use Rattle.cfi_step.specs.CachedRows.{parts_cached};

    type Offset = usize;

    ghost parts = { parts_cached };

    #[inline(always)]
    fn cfa_rule(&self) -> &CfaRule<usize> {
        &self.cfa
    }

    #[inline(always)]
    fn register_rule(&self, register: Register) -> Option<RegisterRule<usize>> {
        rule_in(self.rules.as_slice(), register)
    }

    #[inline(always)]
    fn register_rules(&self) -> &[(Register, RegisterRule<usize>)] {
        self.rules.as_slice()
    }

    #[inline(always)]
    fn args_size(&self) -> u64 {
        self.saved_args_size
    }
}

impl RowSlot for CachedRow {
    ghost use Rattle.std.specs.Prelude.{refl};
    ghost use Rattle.cfi_step.specs.CachedRows.{slot_view};

    ghost slot = { slot_view };

    #[inline(always)]
    fn is_of(&self, file: usize, address: u64) -> bool {
        self.is_kept && self.file == file && self.address == address
    }

    #[inline(always)]
    fn return_address(&self) -> Register {
        self.return_address
    }

    #[inline(always)]
    fn is_signal_trampoline(&self) -> bool {
        self.is_signal_trampoline
    }

    fn keep<A: ArrayLike<Item = (Register, RegisterRule<usize>)>>(
        &mut self,
        file: usize,
        address: u64,
        row: &UnwindTableRow<usize, A>,
        return_address: Register,
        is_signal_trampoline: bool,
    ) {
        self.is_kept = false;
        self.rules.clear();
        let rules = row.registers().as_slice();
        if self.rules.try_extend_from_slice(rules).is_ok() {
            self.file = file;
            self.address = address;
            self.cfa = *row.cfa();
            self.saved_args_size = row.saved_args_size();
            self.return_address = return_address;
            self.is_signal_trampoline = is_signal_trampoline;
            self.is_kept = true;
        }
    }

    ghost same_parts = { λ s. refl };
}

/// The register's rule: the first that it has.
#[inline]
fn rule_in(
    rules: &[(Register, RegisterRule<usize>)],
    register: Register,
) -> Option<RegisterRule<usize>>
    ensures { result ≡ get (rules_of rules.now) register.0 }
{
    for pair in rules {
        if pair.0 == register {
            return Some(pair.1);
        }
    }
    None
}

/// Empties a cache: what has to be done before a number means another file, or the size of an
/// address or the type of the context is another one. Does not allocate.
pub fn clear_rows(cache: &mut [CachedRow])
    ensures { AreEmpty cache.new }
{
    for slot in cache {
        slot.clear();
    }
}
