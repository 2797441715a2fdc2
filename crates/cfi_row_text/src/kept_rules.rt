//! The rules of rows in turn, which mostly are those of the last row with as many rules and the
//! same first register.
ghost use Rattle.std.specs.Prelude.{◌≡◌, [], true};
ghost use Rattle.std.specs.FinMap as map;
ghost use Rattle.cfi_state.specs.RegisterRuleIters.{rules_left};
ghost use Rattle.cfi_state.specs.RulePairs.{IsRising, rules_of};
ghost use Rattle.cfi_text.specs.declared.register_names.RegisterNames.{RegisterNames};
ghost use Rattle.cfi_row_text.specs.KeptRules.{AreKept, kept_rules, kept_text};
ghost use Rattle.cfi_row_text.specs.RowLines.{ruled, rules_by};

use crate::register_rules::is_rising;
use crate::row_line::put_rising;
use crate::row_text::ByPlace;
use arrayvec::ArrayVec;
use cfi_text::register_names::RegisterNames;
use cfi_text::text::Text;
use gimli_cfi::{Register, RegisterRule, RegisterRuleIter};
use std::alloc::Global;

/// How many rules are kept at most.
const MOST: usize = 16;

/// The rules of a row and their text, for the next row. There are none where a row has many.
#[derive(Drop)]
pub(crate) struct KeptRules {
    rules: ArrayVec<(Register, RegisterRule<usize>), MOST>,
    text: Vec<u8>,
}

impl KeptRules {
    /// Keeps no rules. Does not allocate.
    pub(crate) fn new(alloc: Global) -> KeptRules
        ensures { (names : RegisterNames) → AreKept names result }
    {
        KeptRules {
            rules: ArrayVec::new(),
            text: Vec::new(alloc),
        }
    }

    /// Keeps these rules, if they are few, in ascending order of the registers, and there is memory
    /// for their text; returns whether it does. Where they were kept already, their text stays.
    /// The text is made in `made`.
    #[inline]
    pub(crate) fn keep(
        &mut self,
        made: &mut Text,
        names: RegisterNames,
        rules: RegisterRuleIter<'_, usize>,
    ) -> bool
        requires { AreKept names self.old }
        ensures kept { AreKept names self.new }
        ensures same { result ≡ true →
            rules_of (kept_rules self.new) ≡ rules_of (rules_left rules.entry) }
    {
        if self.has(rules) {
            return true;
        }
        self.keep_anew(made, names, rules)
    }

    /// The text of the rules that are kept.
    #[inline]
    pub(crate) fn text(&self) -> &[u8]
        ensures { result.now ≡ kept_text self.now }
    {
        self.text.as_slice()
    }

    /// Returns whether these rules are kept. It may miss rules of a rare kind.
    #[inline]
    fn has(&self, rules: RegisterRuleIter<'_, usize>) -> bool
        ensures { result ≡ true → kept_rules self.now ≡ rules_left rules.entry }
    {
        let mut kept = self.rules.as_slice();
        for rule in rules {
            let Some((first, others)) = kept.split_first() else {
                return false;
            };
            if !is_same(first, rule) {
                return false;
            }
            kept = others;
        }
        kept.is_empty()
    }

    /// Keeps these rules in place of those that were kept, and returns whether it does. If they are
    /// many or in another order, or memory is refused, it keeps none.
    fn keep_anew(
        &mut self,
        made: &mut Text,
        names: RegisterNames,
        rules: RegisterRuleIter<'_, usize>,
    ) -> bool
        ensures kept { AreKept names self.new }
        ensures same { result ≡ true → kept_rules self.new ≡ rules_left rules.entry }
    {
        self.clear();
        if is_rising(rules) && self.has_room(rules) && self.make_text(made, names, rules) {
            return true;
        }
        self.clear();
        false
    }

    /// Keeps no rules any more.
    fn clear(&mut self)
        ensures rules { kept_rules self.new ≡ [] }
        ensures text { kept_text self.new ≡ [] }
    {
        self.rules.clear();
        self.text.clear();
    }

    /// Keeps these rules, where none are kept. Returns whether there is room for them.
    fn has_room(&mut self, rules: RegisterRuleIter<'_, usize>) -> bool
        requires { kept_rules self.old ≡ [] }
        ensures rules { result ≡ true → kept_rules self.new ≡ rules_left rules.entry }
        ensures text { kept_text self.new ≡ kept_text self.old }
    {
        for rule in rules {
            if self.rules.try_push(*rule).is_err() {
                return false;
            }
        }
        true
    }

    /// Keeps the text of these rules, where none is kept. Returns whether there is memory for it.
    fn make_text(
        &mut self,
        made: &mut Text,
        names: RegisterNames,
        rules: RegisterRuleIter<'_, usize>,
    ) -> bool
        requires none { kept_text self.old ≡ [] }
        requires rising { IsRising (rules_left rules) }
        ensures rules { kept_rules self.new ≡ kept_rules self.old }
        ensures text { result ≡ true → kept_text self.new
            ≡ rules_by (ruled names) 65536 0 (map.get (rules_of (rules_left rules.entry))) }
    {
        made.clear();
        put_rising(made, &ByPlace, names, rules);
        made.write_to(&mut self.text).is_ok()
    }
}

/// Returns whether the registers and their rules are the same. It may miss rules of a rare kind.
#[inline]
fn is_same(one: &(Register, RegisterRule<usize>), other: &(Register, RegisterRule<usize>)) -> bool
    ensures { result ≡ true → one.now ≡ other.now }
{
    one.0 == other.0 && is_same_rule(one.1, other.1)
}

/// Returns whether the rules are the same. It may miss rules of a rare kind.
#[inline]
fn is_same_rule(one: RegisterRule<usize>, other: RegisterRule<usize>) -> bool
    ensures { result ≡ true → one ≡ other }
{
    // Most rules are offsets.
    if let (RegisterRule::Offset(one), RegisterRule::Offset(other)) = (one, other) {
        return one == other;
    }
    match (one, other) {
        (RegisterRule::Undefined, RegisterRule::Undefined) => true,
        (RegisterRule::SameValue, RegisterRule::SameValue) => true,
        (RegisterRule::Constant(one), RegisterRule::Constant(other)) => one == other,
        _ => false,
    }
}
