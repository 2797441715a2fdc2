//! The rules of registers: looked up by number, and whether they are in ascending order.
ghost use Rattle.std.specs.Prelude.{◌≡◌, ◌≤◌, ◌+◌, ℕ, None, true};
ghost use Rattle.std.specs.FinMap as map;
ghost use Rattle.cfi_state.specs.RegisterRuleIters.{rules_left};
ghost use Rattle.cfi_state.specs.RulePairs.{IsRising};
ghost use Rattle.gimli_cfi.specs.Words.{Parts};
ghost use Rattle.cfi_row_text.specs.RowLines.{expression_in, expression_at};

use gimli_cfi::{
    ArrayLike, Register, RegisterRule, RegisterRuleIter, UnwindExpression, UnwindTableRow,
};

/// Returns the expression of the rule, if it has one.
pub(crate) fn expression_in(rule: RegisterRule<usize>) -> Option<UnwindExpression<usize>>
    ensures { result ≡ expression_in rule }
{
    match rule {
        RegisterRule::Expression(expression) => Some(expression),
        RegisterRule::ValExpression(expression) => Some(expression),
        _ => None,
    }
}

/// Returns whether the registers are in ascending order, each once; so they mostly are.
pub(crate) fn is_rising(rules: RegisterRuleIter<'_, usize>) -> bool
    ensures { result ≡ true → IsRising (rules_left rules.entry) }
{
    let mut from = 0u32;
    for (register, _) in rules {
        if u32::from(register.0) < from {
            return false;
        }
        from = number_after(*register);
    }
    true
}

/// What has rules of registers.
pub trait HasRules {
    /// What it says.
    ghost parts: { Self → Parts ℕ };

    /// Returns the register's rule, if it has one.
    fn rule(&self, register: Register) -> Option<RegisterRule<usize>>
        ensures { result ≡ map.get (parts self.now).rules register.0 };

    /// Returns a number above that of each register with a rule.
    fn end(&self) -> u32
        ensures within { result ≤ 65536 }
        ensures above { (register : ℕ) → result ≤ register →
            map.get (parts self.now).rules register ≡ None };
}

impl<A: ArrayLike<Item = (Register, RegisterRule<usize>)>> HasRules for UnwindTableRow<usize, A> {
    ghost parts = { λ row. row.parts };

    fn rule(&self, register: Register) -> Option<RegisterRule<usize>> {
        self.register(register)
    }

    fn end(&self) -> u32 {
        let mut end = 0u32;
        for (register, _) in self.registers() {
            end = end.max(number_after(*register));
        }
        end
    }
}

/// Returns the number after that of the register.
pub fn number_after(register: Register) -> u32
    ensures number { result ≡ register.0 + 1 }
    ensures within { result ≤ 65536 }
{
    u32::from(register.0) + 1
}

/// Returns the expression of the register's rule, if it has one.
pub(crate) fn expression_at<H: HasRules>(
    row: &H,
    register: Register,
) -> Option<UnwindExpression<usize>>
    ensures { result ≡ expression_at (map.get (H.parts row.now).rules register.0) }
{
    match row.rule(register) {
        Some(rule) => expression_in(rule),
        None => None,
    }
}
