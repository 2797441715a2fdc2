//! Rows, of an unwind table or of a compiled one.
ghost use Rattle.std.specs.Prelude.{◌≡◌, ℕ, Option};
ghost use Rattle.std.specs.FinMap.{get};
ghost use Rattle.gimli_cfi.specs.Words.{Parts, rules_of};

use cfi_compiled::CompiledRow;
use gimli_cfi::{ArrayLike, CfaRule, ReaderOffset, Register, RegisterRule, UnwindTableRow};

/// What a row says of the caller: the rule of the CFA, and the rules of registers (DWARF 5 section
/// 6.4.1); and the size of the arguments that the frame has pushed.
pub trait RowRules {
    /// How an expression's place in the section is counted.
    type Offset: ReaderOffset;

    /// What the row says.
    ghost parts: { Self → Parts Self.Offset };

    /// The rule for the canonical frame address.
    fn cfa_rule(&self) -> &CfaRule<Self::Offset>
        ensures { result.now ≡ (parts self.now).cfa };

    /// The register's rule, `None` if it has none.
    fn register_rule(&self, register: Register) -> Option<RegisterRule<Self::Offset>>
        ensures { result ≡ get (parts self.now).rules register.0 };

    /// The registers that have a rule, with their rules. The order is not specified. If a register
    /// occurs twice, its first rule holds.
    fn register_rules(&self) -> &[(Register, RegisterRule<Self::Offset>)]
        ensures { rules_of result.now ≡ (parts self.now).rules };

    /// How many bytes of arguments the frame has pushed (`DW_CFA_GNU_args_size`).
    fn args_size(&self) -> u64
        ensures { result ≡ (parts self.now).args_size };
}

impl<T: ReaderOffset, A: ArrayLike<Item = (Register, RegisterRule<T>)>> RowRules
    for UnwindTableRow<T, A> {
    type Offset = T;

    ghost parts = { λ row. row.parts };

    #[inline(always)]
    fn cfa_rule(&self) -> &CfaRule<T> {
        self.cfa()
    }

    #[inline(always)]
    fn register_rule(&self, register: Register) -> Option<RegisterRule<T>> {
        self.register(register)
    }

    #[inline(always)]
    fn register_rules(&self) -> &[(Register, RegisterRule<T>)] {
        self.registers().as_slice()
    }

    #[inline(always)]
    fn args_size(&self) -> u64 {
        self.saved_args_size()
    }
}

impl RowRules for CompiledRow<'_> {
    ghost use Rattle.cfi_compiled.specs.CompiledRows.{parts_kept};

    type Offset = usize;

    ghost parts = { parts_kept };

    #[inline(always)]
    fn cfa_rule(&self) -> &CfaRule<usize> {
        self.cfa()
    }

    #[inline(always)]
    fn register_rule(&self, register: Register) -> Option<RegisterRule<usize>> {
        self.register(register)
    }

    #[inline(always)]
    fn register_rules(&self) -> &[(Register, RegisterRule<usize>)] {
        self.registers()
    }

    #[inline(always)]
    fn args_size(&self) -> u64 {
        self.saved_args_size()
    }
}
