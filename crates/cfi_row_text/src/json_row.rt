//! The line of a row in JSON.
ghost use Rattle.std.specs.Prelude.{◌++◌, [], ◌∷◌, codes};
ghost use Rattle.cfi_text.specs.JsonTexts.{json_number, separated};
ghost use Rattle.cfi_text.specs.RegisterNames.{register_text};
ghost use Rattle.cfi_text.specs.Texts.{Puts};
ghost use Rattle.cfi_row_text.specs.ExpressionWords.{hexadecimal_of};
ghost use Rattle.cfi_row_text.specs.JsonRows.{address_members, bytes_member, bytes_opening};
ghost use Rattle.cfi_row_text.specs.JsonRows.{cfa_bytes, json_bytes, json_cfa, json_head};
ghost use Rattle.cfi_row_text.specs.JsonRows.{json_member, json_members, json_row, json_rule};
ghost use Rattle.cfi_row_text.specs.JsonRows.{json_rules};
ghost use Rattle.cfi_row_text.specs.Wordings.{worded};

use crate::expression_words::{InWords, put_bytes_of};
use crate::register_rules::{HasRules, expression_at};
use crate::row_text::{put_cfa, put_register, put_rule};
use crate::style::Style;
use cfi_text::register_names::RegisterNames;
use cfi_text::text::Text;
use gimli_cfi::{
    _UnwindSectionPrivate, ArrayLike, CfaRule, Reader, Register, RegisterRule, UnwindExpression,
    UnwindSection, UnwindTableRow,
};

/// Puts the row from the section as an object on a line.
pub(crate) fn put_json_row<
    R: Reader<Offset = usize>,
    S: UnwindSection<R>,
    A: ArrayLike<Item = (Register, RegisterRule<usize>)>,
>(text: &mut Text, style: Style, section: &S, row: &UnwindTableRow<usize, A>)
    ensures { let from = S.view section.now in
        let wording = worded style from.address_size from.position in
        Puts (json_row wording row.now ++ 10 ∷ []) text.old text.new }
{
    text.put(b"{");
    put_json_members(text, style, section, row);
}

/// Puts the members of the object of the row from the section, its registers in ascending order,
/// and the end of the line.
pub(crate) fn put_json_members<
    R: Reader<Offset = usize>,
    S: UnwindSection<R>,
    A: ArrayLike<Item = (Register, RegisterRule<usize>)>,
>(text: &mut Text, style: Style, section: &S, row: &UnwindTableRow<usize, A>)
    ensures { let from = S.view section.now in
        let wording = worded style from.address_size from.position in
        Puts (json_members wording row.now ++ 10 ∷ []) text.old text.new }
{
    put_head(text, style, section, row);
    put_members(text, style, section, row);
    put_bytes(text, style, section, row);
    text.put(b"}");
    text.put(b"\n");
}

/// Puts what comes before the rules: the addresses, the CFA and the argument size.
fn put_head<
    R: Reader<Offset = usize>,
    S: UnwindSection<R>,
    A: ArrayLike<Item = (Register, RegisterRule<usize>)>,
>(text: &mut Text, style: Style, section: &S, row: &UnwindTableRow<usize, A>)
    ensures { let from = S.view section.now in
        let wording = worded style from.address_size from.position in
        Puts (json_head wording row.now) text.old text.new }
{
    put_addresses(text, row.start_address(), row.end_address());
    put_json_cfa(text, style, section, *row.cfa());
    put_args_size(text, row.saved_args_size());
}

/// Puts the addresses.
fn put_addresses(text: &mut Text, start: u64, end: u64)
    ensures { Puts (address_members start end) text.old text.new }
{
    text.put(b"\"start\":\"");
    text.address(start);
    text.put(b"\",\"end\":\"");
    text.address(end);
    text.put(b"\",");
}

/// Puts the rule of the canonical frame address, and the bytes of its expression.
fn put_json_cfa<R: Reader<Offset = usize>, S: UnwindSection<R>>(
    text: &mut Text,
    style: Style,
    section: &S,
    cfa: CfaRule<usize>,
)
    ensures { let from = S.view section.now in
        let wording = worded style from.address_size from.position in
        Puts (json_cfa wording cfa) text.old text.new }
{
    text.put(b"\"cfa\":\"");
    put_cfa(
        text,
        &InWords::<R, S>::new(style.names, section),
        style.names,
        cfa,
    );
    text.put(b"\"");
    put_cfa_bytes(text, style, section, cfa);
}

/// Puts the bytes of the expression of the canonical frame address, if it has one.
fn put_cfa_bytes<R: Reader<Offset = usize>, S: UnwindSection<R>>(
    text: &mut Text,
    style: Style,
    section: &S,
    cfa: CfaRule<usize>,
)
    ensures { let from = S.view section.now in
        let wording = worded style from.address_size from.position in
        Puts (cfa_bytes wording cfa) text.old text.new }
{
    match cfa {
        CfaRule::RegisterAndOffset { .. } => {}
        CfaRule::Expression(expression) => {
            text.put(b",\"cfa_bytes\":\"");
            put_bytes_of(text, section, expression);
            text.put(b"\"");
        }
    }
}

/// Puts the argument size, and what comes before the rules.
fn put_args_size(text: &mut Text, args_size: u64)
    ensures { Puts (codes ",\"args\":" ++ json_number args_size ++ codes ",\"rules\":{")
        text.old text.new }
{
    text.put(b",\"args\":");
    text.json_number(args_size);
    text.put(b",\"rules\":{");
}

/// Puts the rules, each looked up by its number.
fn put_members<R: Reader<Offset = usize>, S: UnwindSection<R>, H: HasRules>(
    text: &mut Text,
    style: Style,
    section: &S,
    row: &H,
)
    ensures { let from = S.view section.now in
        let wording = worded style from.address_size from.position in
        Puts (json_rules wording (H.parts row.now)) text.old text.new }
{
    let end = row.end();
    let mut is_first = true;
    for number in 0..end {
        let register = Register(number as u16);
        if let Some(rule) = row.rule(register) {
            put_separated(text, style, section, is_first, register, rule);
            is_first = false;
        }
    }
}

/// Puts a register and its rule, after a comma unless it is the first.
fn put_separated<R: Reader<Offset = usize>, S: UnwindSection<R>>(
    text: &mut Text,
    style: Style,
    section: &S,
    is_first: bool,
    register: Register,
    rule: RegisterRule<usize>,
)
    ensures { let from = S.view section.now in
        let wording = worded style from.address_size from.position in
        Puts (separated is_first (json_rule wording register.0 rule)) text.old text.new }
{
    if !is_first {
        text.put(b",");
    }
    put_member(text, style, section, register, rule);
}

/// Puts a register and its rule.
fn put_member<R: Reader<Offset = usize>, S: UnwindSection<R>>(
    text: &mut Text,
    style: Style,
    section: &S,
    register: Register,
    rule: RegisterRule<usize>,
)
    ensures { let from = S.view section.now in
        let wording = worded style from.address_size from.position in
        Puts (json_member wording register.0 rule) text.old text.new }
{
    put_name(text, style.names, register);
    put_rule(
        text,
        &InWords::<R, S>::new(style.names, section),
        style.names,
        rule,
    );
    text.put(b"\"");
}

/// Puts a register as the name of a member, and the quotation mark of its value.
fn put_name(text: &mut Text, names: RegisterNames, register: Register)
    ensures { Puts (codes "\"" ++ register_text names register.0 ++ codes "\":\"")
        text.old text.new }
{
    text.put(b"\"");
    put_register(text, names, register);
    text.put(b"\":\"");
}

/// Puts the end of the rules, and after them the bytes of their expressions, if there are any.
fn put_bytes<R: Reader<Offset = usize>, S: UnwindSection<R>, H: HasRules>(
    text: &mut Text,
    style: Style,
    section: &S,
    row: &H,
)
    ensures { let from = S.view section.now in
        let wording = worded style from.address_size from.position in
        Puts (json_bytes wording (H.parts row.now)) text.old text.new }
{
    let end = row.end();
    let mut is_first = true;
    for number in 0..end {
        let register = Register(number as u16);
        if let Some(expression) = expression_at(row, register) {
            put_opening(text, is_first);
            put_bytes_member(text, style, section, register, expression);
            is_first = false;
        }
    }
    text.put(b"}");
}

/// Puts what comes before the bytes of an expression: a comma, or the end of the rules if it is the
/// first.
fn put_opening(text: &mut Text, is_first: bool)
    ensures { Puts (bytes_opening is_first) text.old text.new }
{
    if is_first {
        text.put(b"},\"rules_bytes\":{");
    } else {
        text.put(b",");
    }
}

/// Puts a register and the bytes of its expression.
fn put_bytes_member<R: Reader<Offset = usize>, S: UnwindSection<R>>(
    text: &mut Text,
    style: Style,
    section: &S,
    register: Register,
    expression: UnwindExpression<usize>,
)
    ensures { let from = S.view section.now in
        let wording = worded style from.address_size from.position in
        Puts (bytes_member wording register.0 expression) text.old text.new }
{
    put_name(text, style.names, register);
    put_bytes_of(text, section, expression);
    text.put(b"\"");
}
