//! Rows as a compiled table lends them.
ghost use Rattle.std.specs.Prelude.{◌≡◌};
ghost use Rattle.std.specs.FinMap.{get};
ghost use Rattle.cfi_state.specs.RulePairs.{rules_of};
ghost use Rattle.cfi_compiled.specs.CompiledRows.{frame_kept, parts_kept, registers_of};

use crate::facts::CieFacts;
use cfi_read_core::Register;
use cfi_state::table::rules::{CfaRule, RegisterRule};

/// What a row says without its addresses: the rule of the CFA, the rules of the registers, and the
/// size of pushed arguments (DWARF 5 section 6.4.1); with what its CIE says of the return. Borrowed
/// from the table.
#[derive(Clone, Copy, Debug)]
pub struct CompiledRow<'a> {
    pub(crate) cfa: &'a CfaRule<usize>,
    pub(crate) saved_args_size: u64,
    pub(crate) facts: CieFacts,
    pub(crate) rules: &'a [(Register, RegisterRule<usize>)],
}

impl<'a> CompiledRow<'a> {
    /// The rule for the canonical frame address.
    #[inline(always)]
    pub fn cfa(&self) -> &'a CfaRule<usize>
        ensures { result.now ≡ (parts_kept self.now).cfa }
    {
        self.cfa
    }

    /// The bytes of arguments that have been pushed (`DW_CFA_GNU_args_size`), 0 if not set.
    #[inline(always)]
    pub fn saved_args_size(&self) -> u64
        ensures { result ≡ (parts_kept self.now).args_size }
    {
        self.saved_args_size
    }

    /// The register that holds the return address, as the CIE of the FDE says.
    #[inline(always)]
    pub fn return_address_register(&self) -> Register
        ensures { result ≡ (frame_kept self.now).return_address }
    {
        self.facts.return_address
    }

    /// Whether the FDE is a signal trampoline, as its CIE says.
    #[inline(always)]
    pub fn is_signal_trampoline(&self) -> bool
        ensures { result ≡ (frame_kept self.now).is_signal_trampoline }
    {
        self.facts.is_signal_trampoline
    }

    /// Returns the register's rule, `None` if it has none. Compares the row's registers one by one.
    #[inline(always)]
    pub fn register(&self, register: Register) -> Option<RegisterRule<usize>>
        ensures { result ≡ get (parts_kept self.now).rules register.0 }
    {
        for pair in self.rules {
            if pair.0 == register {
                return Some(pair.1);
            }
        }
        None
    }

    /// The registers that have a rule, with their rules. The order is not specified.
    #[inline(always)]
    pub fn registers(&self) -> &'a [(Register, RegisterRule<usize>)]
        ensures pairs { result.now ≡ registers_of self.now }
        ensures rules { rules_of result.now ≡ (parts_kept self.now).rules }
    {
        self.rules
    }
}
