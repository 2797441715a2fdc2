//! The parts of a row in text.
ghost use Rattle.std.specs.Prelude.{◌≡◌, ◌<◌, ◌≤◌, ◌++◌, ◌∷◌, ℕ, List, IfSome, codes};
ghost use Rattle.std.specs.Fmt.{decimal, signed_decimal};
ghost use Rattle.cfi_read_core.specs.declared.instruction.UnwindExpression.{UnwindExpression};
ghost use Rattle.cfi_text.specs.RegisterNames.{register_text, shown_name};
ghost use Rattle.cfi_text.specs.Texts.{Puts};
ghost use Rattle.cfi_text.specs.declared.register_names.RegisterNames.TheVariants.{X86_64};
ghost use Rattle.cfi_row_text.specs.RowLines.{cfa_saying, expression_text, frame_saying};
ghost use Rattle.cfi_row_text.specs.RowLines.{head_saying, offset_text, rule_saying, ruled};
ghost use Rattle.cfi_row_text.specs.RowLines.{ruled_saying};

use cfi_text::register_names::{RegisterName, RegisterNames};
use cfi_text::text::Text;
use gimli_cfi::{ArrayLike, CfaRule, Register, RegisterRule, UnwindExpression, UnwindTableRow};

/// How the expressions of a row are said.
pub(crate) trait SaysExpressions {
    /// What is said of an expression.
    ghost say: { Self → UnwindExpression ℕ → List ℕ };

    /// Puts what is said of an expression.
    fn put_said(&self, text: &mut Text, expression: UnwindExpression<usize>)
        ensures { Puts (say self.now expression) text.old text.new };
}

/// Says an expression by its place in the section.
#[derive(Clone, Copy)]
pub(crate) struct ByPlace;

impl SaysExpressions for ByPlace {
    ghost say = { λ _. expression_text };

    fn put_said(&self, text: &mut Text, expression: UnwindExpression<usize>) {
        put_expression(text, expression);
    }
}

/// Puts where an expression is, and its length.
fn put_expression(text: &mut Text, expression: UnwindExpression<usize>)
    ensures { Puts (expression_text expression) text.old text.new }
{
    text.put(b"expr@");
    text.number(expression.offset);
    text.put(b":");
    text.number(expression.length);
}

/// Puts the name of a register.
pub(crate) fn put_register(text: &mut Text, names: RegisterNames, register: Register)
    ensures { Puts (register_text names register.0) text.old text.new }
{
    put_name(text, names.name(register.0));
}

/// Puts a name.
fn put_name(text: &mut Text, name: RegisterName)
    ensures { Puts (shown_name name) text.old text.new }
{
    text.put(name.text.as_bytes());
    match name.number {
        Some(number) => text.number(number),
        None => {}
    }
}

/// Puts a register and an offset from its value.
pub(crate) fn put_offset_from(
    text: &mut Text,
    names: RegisterNames,
    register: Register,
    offset: i64,
)
    ensures { Puts (register_text names register.0 ++ offset_text offset) text.old text.new }
{
    put_register(text, names, register);
    put_offset(text, offset);
}

/// Puts an offset from a register, with its sign.
#[inline]
fn put_offset(text: &mut Text, offset: i64)
    ensures { Puts (offset_text offset) text.old text.new }
{
    if offset >= 0 {
        text.put(b"+");
    }
    text.number(offset);
}

/// Puts the rule of the canonical frame address and the argument size, each after its name.
/// Allocates where the text has no room.
pub fn put_frame(text: &mut Text, names: RegisterNames, cfa: CfaRule<usize>, args_size: u64)
    ensures { Puts (frame_saying expression_text names cfa args_size) text.old text.new }
{
    put_frame_saying(text, &ByPlace, names, cfa, args_size);
}

/// Puts the same, with expressions said so.
pub(crate) fn put_frame_saying<E: SaysExpressions>(
    text: &mut Text,
    say: &E,
    names: RegisterNames,
    cfa: CfaRule<usize>,
    args_size: u64,
)
    ensures { Puts (frame_saying (E.say say.now) names cfa args_size) text.old text.new }
{
    // Most rows of x86-64 have the CFA a little above the stack pointer.
    match stack_offset(names, cfa, args_size) {
        Some(offset) => put_stack_frame(text, offset),
        None => put_named_frame(text, say, names, cfa, args_size),
    }
}

/// Returns the offset of the CFA from the stack pointer of x86-64, if it has at most two digits and
/// there are no arguments.
#[inline(always)]
fn stack_offset(names: RegisterNames, cfa: CfaRule<usize>, args_size: u64) -> Option<u8>
    ensures { IfSome result (λ offset. (offset < 100) × (args_size ≡ 0)
        × ((say : UnwindExpression ℕ → List ℕ) →
        cfa_saying say names cfa ≡ codes "rsp+" ++ decimal offset)) }
{
    let CfaRule::RegisterAndOffset { register, offset } = cfa else {
        return None;
    };
    if names == RegisterNames::X86_64 && register.0 == 7 && args_size == 0 {
        if 0 <= offset && offset < 100 {
            return Some(offset as u8);
        }
    }
    None
}

/// Puts an offset of the CFA from the stack pointer, and that there are no arguments.
#[inline(always)]
fn put_stack_frame(text: &mut Text, offset: u8)
    requires { offset < 100 }
    ensures { Puts (codes " cfa=rsp+" ++ decimal offset ++ codes " args=0") text.old text.new }
{
    let tens = b'0' + offset / 10;
    let ones = b'0' + offset % 10;
    if offset < 10 {
        put_with_digit(text, ones)
    } else {
        put_with_digits(text, tens, ones)
    }
}

/// Puts the same with one digit.
#[inline(always)]
fn put_with_digit(text: &mut Text, ones: u8)
    ensures { Puts (codes " cfa=rsp+" ++ ones ∷ codes " args=0") text.old text.new }
{
    let mut line = *b" cfa=rsp+_ args=0";
    line[9] = ones;
    text.put(&line);
}

/// Puts the same with two digits.
#[inline(always)]
fn put_with_digits(text: &mut Text, tens: u8, ones: u8)
    ensures { Puts (codes " cfa=rsp+" ++ tens ∷ ones ∷ codes " args=0") text.old text.new }
{
    let mut line = *b" cfa=rsp+__ args=0";
    line[9] = tens;
    line[10] = ones;
    text.put(&line);
}

/// Puts the rule of any canonical frame address and the argument size, each after its name.
fn put_named_frame<E: SaysExpressions>(
    text: &mut Text,
    say: &E,
    names: RegisterNames,
    cfa: CfaRule<usize>,
    args_size: u64,
)
    ensures { Puts (frame_saying (E.say say.now) names cfa args_size) text.old text.new }
{
    text.put(b" cfa=");
    put_cfa(text, say, names, cfa);
    text.put(b" args=");
    text.number(args_size);
}

/// Puts the rule of the canonical frame address.
pub(crate) fn put_cfa<E: SaysExpressions>(
    text: &mut Text,
    say: &E,
    names: RegisterNames,
    cfa: CfaRule<usize>,
)
    ensures { Puts (cfa_saying (E.say say.now) names cfa) text.old text.new }
{
    match cfa {
        CfaRule::RegisterAndOffset { register, offset } => {
            put_offset_from(text, names, register, offset)
        }
        CfaRule::Expression(expression) => say.put_said(text, expression),
    }
}

/// Puts the rule of a register.
pub(crate) fn put_rule<E: SaysExpressions>(
    text: &mut Text,
    say: &E,
    names: RegisterNames,
    rule: RegisterRule<usize>,
)
    ensures { Puts (rule_saying (E.say say.now) names rule) text.old text.new }
{
    match rule {
        RegisterRule::Undefined => text.put(b"undefined"),
        RegisterRule::SameValue => text.put(b"same"),
        RegisterRule::Offset(offset) => put_cfa_offset(text, offset),
        RegisterRule::ValOffset(offset) => put_val_offset(text, offset),
        RegisterRule::Register(register) => put_register(text, names, register),
        RegisterRule::Expression(expression) => say.put_said(text, expression),
        RegisterRule::ValExpression(expression) => {
            text.put(b"val_");
            say.put_said(text, expression);
        }
        RegisterRule::Architectural => text.put(b"architectural"),
        RegisterRule::Constant(value) => {
            text.put(b"constant(");
            text.number(value);
            text.put(b")");
        }
    }
}

/// Puts an offset from the CFA.
fn put_cfa_offset(text: &mut Text, offset: i64)
    ensures { Puts (codes "offset(" ++ signed_decimal offset ++ codes ")") text.old text.new }
{
    text.put(b"offset(");
    text.number(offset);
    text.put(b")");
}

/// Puts an offset of a value from the CFA.
fn put_val_offset(text: &mut Text, offset: i64)
    ensures { Puts (codes "val_offset(" ++ signed_decimal offset ++ codes ")")
        text.old text.new }
{
    text.put(b"val_offset(");
    text.number(offset);
    text.put(b")");
}

/// Puts a register and its rule, after a space. Allocates where the text has no room.
pub fn put_ruled(
    text: &mut Text,
    names: RegisterNames,
    register: Register,
    rule: RegisterRule<usize>,
)
    ensures text { Puts (ruled names register.0 rule) text.old text.new }
    ensures within { register.0 ≤ 65535 }
{
    put_ruled_saying(text, &ByPlace, names, register, rule);
}

/// Puts the same, with expressions said so.
pub(crate) fn put_ruled_saying<E: SaysExpressions>(
    text: &mut Text,
    say: &E,
    names: RegisterNames,
    register: Register,
    rule: RegisterRule<usize>,
)
    ensures text { Puts (ruled_saying (E.say say.now) names register.0 rule) text.old text.new }
    ensures within { register.0 ≤ 65535 }
{
    put_rule_register(text, names, register);
    put_rule(text, say, names, rule);
}

/// Puts the register of a rule, after a space, and an equals sign. Those of x86-64 mostly are a
/// function's own and the return address.
#[inline]
fn put_rule_register(text: &mut Text, names: RegisterNames, register: Register)
    ensures { Puts (codes " " ++ register_text names register.0 ++ codes "=")
        text.old text.new }
{
    match (names, register.0) {
        (RegisterNames::X86_64, 3) => text.put(b" rbx="),
        (RegisterNames::X86_64, 6) => text.put(b" rbp="),
        (RegisterNames::X86_64, 12) => text.put(b" r12="),
        (RegisterNames::X86_64, 13) => text.put(b" r13="),
        (RegisterNames::X86_64, 14) => text.put(b" r14="),
        (RegisterNames::X86_64, 15) => text.put(b" r15="),
        (RegisterNames::X86_64, 16) => text.put(b" ra="),
        _ => put_any_register(text, names, register),
    }
}

/// The same for any register.
fn put_any_register(text: &mut Text, names: RegisterNames, register: Register)
    ensures { Puts (codes " " ++ register_text names register.0 ++ codes "=")
        text.old text.new }
{
    text.put(b" ");
    put_register(text, names, register);
    text.put(b"=");
}

/// Puts what comes before the rules: the addresses, the CFA and the argument size.
pub(crate) fn put_head<E: SaysExpressions, A: ArrayLike<Item = (Register, RegisterRule<usize>)>>(
    text: &mut Text,
    say: &E,
    names: RegisterNames,
    row: &UnwindTableRow<usize, A>,
)
    ensures { Puts (head_saying (E.say say.now) names row.now) text.old text.new }
{
    text.address(row.start_address());
    text.put(b" ");
    text.address(row.end_address());
    put_frame_saying(text, say, names, *row.cfa(), row.saved_args_size());
}
