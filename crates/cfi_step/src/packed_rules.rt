//! Rules of registers in two bytes.
ghost use Rattle.std.specs.Prelude.{◌≡◌, IfSome, length, map, take};
ghost use Rattle.std.specs.Option.{option_map};
ghost use Rattle.std.specs.FinMap.{get};
ghost use Rattle.gimli_cfi.specs.Words.{rules_of};
ghost use Rattle.cfi_step.specs.PackedRules.{eightfold, pair_of, rule_by, small_rule};
ghost use Rattle.cfi_state.specs.declared.table.rules.RegisterRule.TheVariants.{Offset};

use gimli_cfi::{Register, RegisterRule};

/// The most rules of registers that a row may have that is packed: those of x19 to x30, which
/// calls preserve on AArch64, and that of its RA_SIGN_STATE.
pub const RULES: usize = 13;

/// The rule of a register (DWARF 5 section 6.4.1): most that compilers write.
#[derive(Clone, Copy, Debug)]
pub enum SmallRule {
    /// The register is lost.
    Undefined,
    /// It is saved at the CFA plus eight times this number.
    Offset(i8),
    /// It is this number, as RA_SIGN_STATE of AArch64 is 0 or 1.
    Constant(u8),
}

/// A register with its rule.
#[derive(Clone, Copy, Debug)]
pub struct PackedRule {
    register: u8,
    /// From -125 on the number of `Offset`; below it the other rules have their numbers.
    words: i8,
}

impl PackedRule {
    ghost use Rattle.std.specs.Prelude.{◌≡◌};
    ghost use Rattle.cfi_step.specs.PackedRules.{small_rule};

    /// The register.
    #[inline(always)]
    pub fn register(self) -> u8
        ensures { result ≡ self.register }
    {
        self.register
    }

    /// Its rule.
    #[inline(always)]
    pub fn rule(self) -> SmallRule
        ensures { result ≡ small_rule self.words }
    {
        if self.words > -126 {
            SmallRule::Offset(self.words)
        } else if self.words > -127 {
            SmallRule::Constant(1)
        } else if self.words > -128 {
            SmallRule::Constant(0)
        } else {
            SmallRule::Undefined
        }
    }
}

/// No rules.
pub(crate) fn no_rules() -> [PackedRule; RULES] {
    [PackedRule {
        register: 0,
        words: 0,
    }; RULES]
}

/// These rules; `None` if there are more than 13, or if one can't be packed.
pub(crate) fn packed_rules(rules: &[(Register, RegisterRule<usize>)]) -> Option<[PackedRule; RULES]>
    ensures { IfSome result (λ list. map pair_of (take (length rules.now) list) ≡ rules.now) }
{
    if rules.len() > RULES {
        return None;
    }
    let mut list = no_rules();
    for index in 0..rules.len() {
        let Some(rule) = packed_rule(rules[index].0, rules[index].1) else {
            return None;
        };
        list[index] = rule;
    }
    Some(list)
}

/// The rule in two bytes; `None` if it is not one of these, or if a number is too large.
fn packed_rule(register: Register, rule: RegisterRule<usize>) -> Option<PackedRule>
    ensures { IfSome result (λ packed. pair_of packed ≡ (register, rule)) }
{
    let Ok(register) = u8::try_from(register.0) else {
        return None;
    };
    match number_of(rule) {
        Some(words) => Some(PackedRule { register, words }),
        None => None,
    }
}

/// The number of the rule; `None` if it has none.
fn number_of(rule: RegisterRule<usize>) -> Option<i8>
    ensures { IfSome result (λ words. rule_by (small_rule words) ≡ rule) }
{
    match rule {
        RegisterRule::Undefined => Some(-128),
        RegisterRule::Offset(offset) => words_in(offset),
        RegisterRule::Constant(0) => Some(-127),
        RegisterRule::Constant(1) => Some(-126),
        _ => None,
    }
}

/// The words of eight bytes that make an offset; `None` if they are none of `SmallRule::Offset`.
fn words_in(offset: i64) -> Option<i8>
    ensures { IfSome result (λ words. rule_by (small_rule words) ≡ Offset offset) }
{
    match i8::try_from(offset / 8) {
        Ok(words) if words > -126 && eightfold(words) == offset => Some(words),
        _ => None,
    }
}

/// Eight times the number.
#[inline(always)]
pub fn eightfold(words: i8) -> i64
    ensures { result ≡ eightfold words }
{
    i64::from(words).wrapping_mul(8)
}

/// The register's rule: the first that it has.
#[inline(always)]
pub fn rule_of(rules: &[PackedRule], register: u8) -> Option<SmallRule>
    ensures { option_map rule_by result ≡ get (rules_of (map pair_of rules.now)) register }
{
    for packed in rules {
        if packed.register() == register {
            return Some(packed.rule());
        }
    }
    None
}
