//! The slots of a cache of rows, and a cache that has none.
ghost use Rattle.std.specs.Prelude.{◌≡◌, true, IfSome};
ghost use Rattle.std.specs.List.{Contains};
ghost use Rattle.cfi_step.specs.Slots.{HoldsRowAtMost, HoldsRowOf, KeepsRow, Slot};

use crate::rows::RowRules;
use gimli_cfi::{ArrayLike, CfaRule, ReaderOffset, Register, RegisterRule, UnwindTableRow};

/// 2 ^ 64 divided by the golden ratio: what addresses are multiplied with to be spread.
pub(crate) const SPREAD: u64 = 0x9e37_79b9_7f4a_7c15;

/// A slot of a cache of rows. It is empty, or holds the row of an address of a file (DWARF 5
/// section 6.4.1) with what its CIE says of the return.
pub trait RowSlot: RowRules {
    /// What it holds.
    ghost slot: { Self → Slot Self.Offset };

    /// Whether it holds the row of the address of the file.
    fn is_of(&self, file: usize, address: u64) -> bool
        ensures { result ≡ true → HoldsRowOf file address (slot self.now) };

    /// The register that holds the return address.
    fn return_address(&self) -> Register
        ensures { result ≡ (slot self.now).return_address };

    /// Whether the FDE is a signal trampoline.
    fn is_signal_trampoline(&self) -> bool
        ensures { result ≡ (slot self.now).is_signal_trampoline };

    /// Holds the row of the address of the file, if it has few rules, and else nothing.
    fn keep<A: ArrayLike<Item = (Register, RegisterRule<Self::Offset>)>>(
        &mut self,
        file: usize,
        address: u64,
        row: &UnwindTableRow<Self::Offset, A>,
        return_address: Register,
        is_signal_trampoline: bool,
    )
        ensures { HoldsRowAtMost file address row.now.parts return_address is_signal_trampoline
            (slot self.new) };

    /// Its row says what its rules say.
    ghost same_parts: { (s : Self) → (slot s).parts ≡ Self.parts s };
}

/// A slot that holds no row. A walk without a cache has a cache of none of them.
pub struct NoRow<T> {
    cfa: CfaRule<T>,
}

impl<T: ReaderOffset> RowRules for NoRow<T> {
    ghost use Rattle.std.specs.Prelude.{[]};
    ghost use Rattle.gimli_cfi.specs.Words.{rules_of};

    type Offset = T;

    ghost parts = { λ row. record { cfa = row.cfa; rules = rules_of []; args_size = 0 } };

    fn cfa_rule(&self) -> &CfaRule<T> {
        &self.cfa
    }

    fn register_rule(&self, _register: Register) -> Option<RegisterRule<T>> {
        None
    }

    fn register_rules(&self) -> &[(Register, RegisterRule<T>)] {
        &[]
    }

    fn args_size(&self) -> u64 {
        0
    }
}

impl<T: ReaderOffset> RowSlot for NoRow<T> {
    ghost use Rattle.std.specs.Prelude.{false, [], refl};
    ghost use Rattle.gimli_cfi.specs.Words.{rules_of};

    ghost slot = { λ row. record {
      is_kept = false;
      file = 0;
      address = 0;
      parts = record { cfa = row.cfa; rules = rules_of []; args_size = 0 };
      return_address = record { 0 = 0 };
      is_signal_trampoline = false;
    } };

    fn is_of(&self, _file: usize, _address: u64) -> bool {
        false
    }

    fn return_address(&self) -> Register {
        Register(0)
    }

    fn is_signal_trampoline(&self) -> bool {
        false
    }

    fn keep<A: ArrayLike<Item = (Register, RegisterRule<T>)>>(
        &mut self,
        _file: usize,
        _address: u64,
        _row: &UnwindTableRow<T, A>,
        _return_address: Register,
        _is_signal_trampoline: bool,
    ) {}

    ghost same_parts = { λ s. refl };
}

/// The slot that holds the row of the address of the file, if any.
#[inline]
pub(crate) fn held<K: RowSlot>(cache: &[K], file: usize, address: u64) -> Option<&K>
    ensures { IfSome result (λ slot.
        HoldsRowOf file address (K.slot slot.now) × Contains cache.now slot.now) }
{
    let index = index_of(file, address, cache.len());
    if index < cache.len() && cache[index].is_of(file, address) {
        Some(&cache[index])
    } else {
        None
    }
}

/// Keeps the row of the address of the file in its slot, in place of the one there. If it has too
/// many rules, the slot is empty afterwards.
#[inline]
pub(crate) fn keep_row<K: RowSlot, A: ArrayLike<Item = (Register, RegisterRule<K::Offset>)>>(
    cache: &mut [K],
    file: usize,
    address: u64,
    row: &UnwindTableRow<K::Offset, A>,
    return_address: Register,
    is_signal_trampoline: bool,
)
    ensures { KeepsRow K.slot file address row.now.parts return_address is_signal_trampoline
        cache.old cache.new }
{
    let index = index_of(file, address, cache.len());
    if index < cache.len() {
        cache[index].keep(file, address, row, return_address, is_signal_trampoline);
    }
}

/// The index of the slot for an address of a file. Each slot holds both, so any would do.
#[inline]
fn index_of(file: usize, address: u64, count: usize) -> usize {
    let mixed = address.wrapping_add((file as u64).wrapping_mul(SPREAD));
    let spread = mixed.wrapping_mul(SPREAD) >> 32;
    (spread.wrapping_mul(count as u64) >> 32) as usize
}
