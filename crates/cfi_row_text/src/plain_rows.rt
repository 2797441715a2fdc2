//! The lines of rows without expressions, whose rules mostly are those of a row before.
ghost use Rattle.std.specs.Prelude.{◌≡◌, ◌<◌, ◌++◌, [], ◌∷◌, IsOkAnd, false, true, ◌+◌};
ghost use Rattle.cfi_read_core.specs.ReaderCalls.{map_ok};
ghost use Rattle.cfi_state.specs.RegisterRuleIters.{rules_left};
ghost use Rattle.cfi_state.specs.RulePairs.{rules_of};
ghost use Rattle.cfi_text.specs.Texts.{Puts};
ghost use Rattle.cfi_text.specs.declared.register_names.RegisterNames.{RegisterNames};
ghost use Rattle.cfi_row_text.specs.AnswerLines.{plain_line};
ghost use Rattle.cfi_row_text.specs.KeptRules.{AreKept, kept_rules, HaveNoExpression};
ghost use Rattle.cfi_row_text.specs.RowLines.{HasNoExpression, is_plain_cfa};
ghost use Rattle.cfi_row_text.specs.RowLines.{row_text};

use crate::kept_rules::KeptRules;
use crate::register_rules::expression_in;
use crate::row_text::{ByPlace, put_head};
use cfi_text::register_names::RegisterNames;
use cfi_text::text::Text;
use gimli_cfi::{
    ArrayLike, CfaRule, Error, Register, RegisterRule, RegisterRuleIter, UnwindTableRow,
};
use std::alloc::Global;
use std::marker::Model;

/// The rules of the last rows, and their texts: by how many there are and the first register, since
/// rows with these in common mostly have the same.
#[derive(Drop)]
pub struct PlainRows {
    names: RegisterNames,
    /// What the text of rules is made in.
    made: Text,
    rows: [KeptRules; 16],
}

impl Model for PlainRows {
    ghost use Rattle.std.specs.List.{All};
    ghost use Rattle.cfi_row_text.specs.KeptRules.{AreKept};
    ghost use Rattle.cfi_text.specs.declared.register_names.RegisterNames.{RegisterNames};

    ghost Value = { RegisterNames };

    ghost view = { λ kept. kept.names };

    ghost invariant = { λ kept. All (AreKept kept.names) kept.rows };
}

impl PlainRows {
    /// Keeps no rules, for rows with these names of registers. Does not allocate.
    pub fn new(alloc: Global, names: RegisterNames) -> PlainRows {
        PlainRows {
            names,
            made: Text::new(alloc),
            rows: [
                KeptRules::new(alloc),
                KeptRules::new(alloc),
                KeptRules::new(alloc),
                KeptRules::new(alloc),
                KeptRules::new(alloc),
                KeptRules::new(alloc),
                KeptRules::new(alloc),
                KeptRules::new(alloc),
                KeptRules::new(alloc),
                KeptRules::new(alloc),
                KeptRules::new(alloc),
                KeptRules::new(alloc),
                KeptRules::new(alloc),
                KeptRules::new(alloc),
                KeptRules::new(alloc),
                KeptRules::new(alloc),
            ],
        }
    }

    /// Puts the line of text of an answer that comes after others of its table, if it is a row
    /// without expressions whose rules can be kept for the next one, and `names` are those that
    /// rules are kept for. Returns whether it does. Allocates for rules that weren't kept, and
    /// where the text has no room.
    #[inline]
    pub fn put_next<A: ArrayLike<Item = (Register, RegisterRule<usize>)>>(
        &mut self,
        text: &mut Text,
        names: RegisterNames,
        answer: Result<&UnwindTableRow<usize, A>, Error>,
    ) -> bool
        ensures put { result ≡ true →
            Puts (plain_line names (map_ok (λ row. row.now) answer.entry)).text
            text.old text.new }
        ensures plain { result ≡ true → IsOkAnd answer.entry (λ row. HasNoExpression row.now) }
        ensures left { result ≡ false → text.new ≡ text.old }
    {
        if self.names != names {
            return false;
        }
        let place = place_of(answer);
        put_next(text, names, &mut self.rows[place], &mut self.made, answer)
    }
}

/// Returns the place for the rules of the row; 0 where there is none. It depends on how many there
/// are and on the first register, so that few sets of a program's functions share a place.
#[inline]
fn place_of<A: ArrayLike<Item = (Register, RegisterRule<usize>)>>(
    answer: Result<&UnwindTableRow<usize, A>, Error>,
) -> usize
    ensures { result < 16 }
{
    let Ok(row) = answer else {
        return 0;
    };
    let first = match row.registers().next() {
        Some((register, _)) => register.0 % 16,
        None => 0,
    };
    (row.registers().count() % 16 + 3 * first as usize) % 16
}

/// Puts the line of text of an answer that comes after others of its table, if it is a row without
/// expressions whose rules can be kept for the next one. Returns whether it does.
#[inline]
fn put_next<A: ArrayLike<Item = (Register, RegisterRule<usize>)>>(
    text: &mut Text,
    names: RegisterNames,
    kept: &mut KeptRules,
    made: &mut Text,
    answer: Result<&UnwindTableRow<usize, A>, Error>,
) -> bool
    requires { AreKept names kept.old }
    ensures kept { AreKept names kept.new }
    ensures put { result ≡ true →
        Puts (plain_line names (map_ok (λ row. row.now) answer.entry)).text text.old text.new }
    ensures plain { result ≡ true → IsOkAnd answer.entry (λ row. HasNoExpression row.now) }
    ensures left { result ≡ false → text.new ≡ text.old }
{
    let Ok(row) = answer else {
        return false;
    };
    if !has_no_expression(row) {
        return false;
    }
    if !kept.keep(made, names, row.registers()) {
        return false;
    }
    put_row(text, names, kept, row);
    true
}

/// Returns whether no rule of the row is an expression.
fn has_no_expression<A: ArrayLike<Item = (Register, RegisterRule<usize>)>>(
    row: &UnwindTableRow<usize, A>,
) -> bool
    ensures { result ≡ true → HasNoExpression row.now }
{
    if !is_plain_cfa(*row.cfa()) {
        return false;
    }
    have_no_expression(row.registers())
}

/// Returns whether the rule is no expression.
fn is_plain_cfa(cfa: CfaRule<usize>) -> bool
    ensures { result ≡ is_plain_cfa cfa }
{
    match cfa {
        CfaRule::RegisterAndOffset { .. } => true,
        CfaRule::Expression(_) => false,
    }
}

/// Returns whether no rule is an expression.
fn have_no_expression(rules: RegisterRuleIter<'_, usize>) -> bool
    ensures { result ≡ true → HaveNoExpression (rules_left rules.entry) }
{
    for (_, rule) in rules {
        if let Some(_) = expression_in(*rule) {
            return false;
        }
    }
    true
}

/// Puts the line of text of a row whose rules are kept.
#[inline]
fn put_row<A: ArrayLike<Item = (Register, RegisterRule<usize>)>>(
    text: &mut Text,
    names: RegisterNames,
    kept: &KeptRules,
    row: &UnwindTableRow<usize, A>,
)
    requires kept { AreKept names kept.now }
    requires same { rules_of (kept_rules kept.now) ≡ row.now.parts.rules }
    ensures { Puts (row_text names row.now ++ 10 ∷ []) text.old text.new }
{
    put_head(text, &ByPlace, names, row);
    text.put(kept.text());
    text.put(b"\n");
}
