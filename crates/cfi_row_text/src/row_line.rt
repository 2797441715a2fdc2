//! The line of a row in text.
ghost use Rattle.std.specs.Prelude.{◌≡◌, ◌++◌, [], ◌∷◌};
ghost use Rattle.std.specs.FinMap as map;
ghost use Rattle.cfi_read_core.specs.ReaderCalls.{map_ok};
ghost use Rattle.cfi_state.specs.RegisterRuleIters.{rules_left};
ghost use Rattle.cfi_state.specs.RulePairs.{IsRising, rules_of};
ghost use Rattle.cfi_text.specs.Texts.{Puts};
ghost use Rattle.cfi_row_text.specs.AnswerLines.{plain_line};
ghost use Rattle.cfi_row_text.specs.RowLines.{row_saying, ruled_saying, rules_by, rules_saying};

use crate::refusal_text::put_refusal;
use crate::register_rules::{HasRules, is_rising};
use crate::row_text::{ByPlace, SaysExpressions, put_head, put_ruled_saying};
use cfi_text::register_names::RegisterNames;
use cfi_text::text::Text;
use gimli_cfi::{ArrayLike, Error, Register, RegisterRule, RegisterRuleIter, UnwindTableRow};

/// Puts the line of an answer in text, and returns the status: 0 for a row, 1 for an error. An
/// expression is said by its place in the section. Allocates where the text has no room.
pub fn put_plain_answer<A: ArrayLike<Item = (Register, RegisterRule<usize>)>>(
    text: &mut Text,
    names: RegisterNames,
    answer: Result<&UnwindTableRow<usize, A>, Error>,
) -> u8
    ensures text { Puts (plain_line names (map_ok (λ row. row.now) answer.entry)).text
        text.old text.new }
    ensures status { result ≡ (plain_line names (map_ok (λ row. row.now) answer.entry)).status }
{
    match answer {
        Ok(row) => {
            put_row(text, &ByPlace, names, row);
            0
        }
        Err(error) => {
            put_refusal(text, error);
            1
        }
    }
}

/// Puts the row as a line of text, its registers in ascending order.
pub(crate) fn put_row<E: SaysExpressions, A: ArrayLike<Item = (Register, RegisterRule<usize>)>>(
    text: &mut Text,
    say: &E,
    names: RegisterNames,
    row: &UnwindTableRow<usize, A>,
)
    ensures { Puts (row_saying (E.say say.now) names row.now ++ 10 ∷ []) text.old text.new }
{
    put_head(text, say, names, row);
    put_rules(text, say, names, row);
    text.put(b"\n");
}

/// Puts the rules, in ascending order of the registers.
fn put_rules<E: SaysExpressions, A: ArrayLike<Item = (Register, RegisterRule<usize>)>>(
    text: &mut Text,
    say: &E,
    names: RegisterNames,
    row: &UnwindTableRow<usize, A>,
)
    ensures { Puts (rules_saying (E.say say.now) names row.now.parts) text.old text.new }
{
    let rules = row.registers();
    if is_rising(rules) {
        put_rising(text, say, names, rules)
    } else {
        put_by_number(text, say, names, row)
    }
}

/// Puts the rules in the order in which they are.
pub(crate) fn put_rising<E: SaysExpressions>(
    text: &mut Text,
    say: &E,
    names: RegisterNames,
    rules: RegisterRuleIter<'_, usize>,
)
    requires { IsRising (rules_left rules) }
    ensures { let rule_of = map.get (rules_of (rules_left rules.entry)) in
        Puts (rules_by (ruled_saying (E.say say.now) names) 65536 0 rule_of) text.old text.new }
{
    for (register, rule) in rules {
        put_ruled_saying(text, say, names, *register, *rule);
    }
}

/// Puts the rules, each looked up by its number.
pub(crate) fn put_by_number<E: SaysExpressions, H: HasRules>(
    text: &mut Text,
    say: &E,
    names: RegisterNames,
    row: &H,
)
    ensures { Puts (rules_saying (E.say say.now) names (H.parts row.now)) text.old text.new }
{
    let end = row.end();
    for number in 0..end {
        let register = Register(number as u16);
        if let Some(rule) = row.rule(register) {
            put_ruled_saying(text, say, names, register, rule);
        }
    }
}
