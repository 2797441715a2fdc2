//! Rows, rules and errors as C sees them, in its memory.
ghost use Rattle.std.specs.Prelude.{◌≡◌, ◌+◌, ◌≤◌, length, pos};
ghost use Rattle.cfi_read_core.specs.ReaderCalls.{map_ok};
ghost use Rattle.cfi_c.specs.AddressRows.{IsAnsweredForC};
ghost use Rattle.cfi_c.specs.WrittenRows.{IsCfa, IsRules, IsWritten, SameAround, rule_for_c};

use crate::refusal::number_of;
use gimli_cfi::{ArrayLike, CfaRule, Error, Register, RegisterRule, UnwindTableRow};

/// A row without its rules; or an error.
#[repr(C)]
#[derive(Clone, Copy)]
pub struct CfiRow {
    /// The first address for which the row holds, and the first after them.
    pub start: u64,
    pub end: u64,
    pub args_size: u64,
    /// 0: a register and an offset, 1: an expression.
    pub cfa_kind: u32,
    /// The register and the offset; 0 for an expression.
    pub cfa_register: u32,
    pub cfa_offset: i64,
    /// Offset and length in bytes of the expression in the section; 0 for a register.
    pub cfa_place: u64,
    pub cfa_length: u64,
    /// The place, byte or number that the error carries, else 0.
    pub refused: u64,
    /// 0, or the number of the error.
    pub status: i32,
}

/// The rule of one register.
#[repr(C)]
#[derive(Clone, Copy)]
pub struct CfiRule {
    /// 0: no rule, 1: undefined, 2: same value, 3: offset, 4: value offset, 5: register,
    /// 6: expression, 7: value expression, 8: architectural, 9: constant.
    pub kind: u64,
    /// The offset, or the register.
    pub value: i64,
    /// Offset and length in bytes of the expression in the section; or the constant, and 0.
    pub place: u64,
    pub length: u64,
}

/// Writes the row, and from `first` on the rules of the registers below `count`; or the number of
/// the error, with what it carries.
pub fn write_answer<A: ArrayLike<Item = (Register, RegisterRule<usize>)>>(
    answer: Result<&UnwindTableRow<usize, A>, Error>,
    row: &mut CfiRow,
    rules: &mut [CfiRule],
    first: usize,
    count: usize,
)
    requires { first + count ≤ length rules.old }
    ensures answered { IsAnsweredForC (map_ok (λ row. row.now) answer.entry)
        row.new rules.new first count }
    ensures around { SameAround first count rules.old rules.new }
{
    match answer {
        Ok(found) => {
            *row = row_of(found);
            write_rules(found, rules, first, count);
        }
        Err(error) => {
            row.refused = error.value();
            row.status = number_of(error);
        }
    }
}

/// Returns the row as C sees it, with the status 0.
fn row_of<A: ArrayLike<Item = (Register, RegisterRule<usize>)>>(
    found: &UnwindTableRow<usize, A>,
) -> CfiRow
    ensures { IsWritten found.now result × (result.status ≡ pos 0) }
{
    let start = found.start_address();
    let end = found.end_address();
    cfa_row(start, end, found.saved_args_size(), *found.cfa())
}

/// Returns a row as C sees it, by its parts, with the status 0.
pub fn cfa_row(start: u64, end: u64, args_size: u64, cfa: CfaRule<usize>) -> CfiRow
    ensures addresses { (result.start ≡ start) × (result.end ≡ end) }
    ensures args { result.args_size ≡ args_size }
    ensures cfa { IsCfa cfa result }
    ensures status { (result.refused ≡ 0) × (result.status ≡ pos 0) }
{
    match cfa {
        CfaRule::RegisterAndOffset { register, offset } => CfiRow {
            start,
            end,
            args_size,
            cfa_kind: 0,
            cfa_register: u32::from(register.0),
            cfa_offset: offset,
            cfa_place: 0,
            cfa_length: 0,
            refused: 0,
            status: 0,
        },
        CfaRule::Expression(e) => CfiRow {
            start,
            end,
            args_size,
            cfa_kind: 1,
            cfa_register: 0,
            cfa_offset: 0,
            cfa_place: e.offset as u64,
            cfa_length: e.length as u64,
            refused: 0,
            status: 0,
        },
    }
}

/// Writes from `first` on the rules of the registers below `count`.
fn write_rules<A: ArrayLike<Item = (Register, RegisterRule<usize>)>>(
    found: &UnwindTableRow<usize, A>,
    rules: &mut [CfiRule],
    first: usize,
    count: usize,
)
    requires { first + count ≤ length rules.old }
    ensures written { IsRules found.now rules.new first count }
    ensures around { SameAround first count rules.old rules.new }
{
    for k in 0..count {
        rules[first + k] = rule_of(None);
    }
    for (register, rule) in found.registers() {
        let k = number_of_register(*register);
        if k < count {
            rules[first + k] = rule_of(Some(*rule));
        }
    }
}

/// Returns the register's number, which is at most 65535.
fn number_of_register(register: Register) -> usize
    ensures number { result ≡ register.0 }
    ensures small { result ≤ 65535 }
{
    usize::from(register.0)
}

/// Returns the rule as C sees it.
pub fn rule_of(rule: Option<RegisterRule<usize>>) -> CfiRule
    ensures { result ≡ rule_for_c rule }
{
    let Some(rule) = rule else {
        return plain_rule(0, 0);
    };
    match rule {
        RegisterRule::Undefined => plain_rule(1, 0),
        RegisterRule::SameValue => plain_rule(2, 0),
        RegisterRule::Offset(offset) => plain_rule(3, offset),
        RegisterRule::ValOffset(offset) => plain_rule(4, offset),
        RegisterRule::Register(other) => plain_rule(5, i64::from(other.0)),
        RegisterRule::Expression(e) => placed_rule(6, e.offset as u64, e.length as u64),
        RegisterRule::ValExpression(e) => placed_rule(7, e.offset as u64, e.length as u64),
        RegisterRule::Architectural => plain_rule(8, 0),
        RegisterRule::Constant(value) => placed_rule(9, value, 0),
    }
}

/// Returns a rule that carries a number or nothing.
fn plain_rule(kind: u64, value: i64) -> CfiRule
    ensures { result ≡ record { kind = kind; value = value; place = 0; length = 0 } }
{
    CfiRule {
        kind,
        value,
        place: 0,
        length: 0,
    }
}

/// Returns a rule that carries an expression or a constant.
fn placed_rule(kind: u64, place: u64, length: u64) -> CfiRule
    ensures { result ≡ record { kind = kind; value = pos 0; place = place; length = length } }
{
    CfiRule {
        kind,
        value: 0,
        place,
        length,
    }
}
