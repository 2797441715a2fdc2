//! Hashes of what rows say. What is equal has the same.
use crate::facts::CieFacts;
use crate::rests::KeptRow;
use cfi_read_core::{Register, Result};
use cfi_state::storage::ArrayLike;
use cfi_state::table::row::UnwindTableRow;
use cfi_state::table::rules::{CfaRule, RegisterRule};

/// The hash of a kept row, and that of every error.
pub(crate) fn hash_of_answer(answer: &Result<KeptRow>) -> u32 {
    match answer {
        Ok(row) => upper_half(mix(hash_of_cfa(row.cfa), row.rest as u64)),
        Err(_) => 0,
    }
}

/// The hash of what a row says but the rule of the CFA, and of what its CIE says.
pub(crate) fn hash_of_rest<A: ArrayLike<Item = (Register, RegisterRule<usize>)>>(
    row: &UnwindTableRow<usize, A>,
    facts: CieFacts,
) -> u32 {
    let mut hash = mix(number_of_facts(facts), row.saved_args_size());
    for pair in row.registers() {
        hash = mix(hash, number_of_pair(pair.0, pair.1));
    }
    upper_half(hash)
}

/// A number of both.
#[inline(always)]
fn mix(a: u64, b: u64) -> u64 {
    (a.rotate_left(5) ^ b).wrapping_mul(0x9e37_79b9_7f4a_7c15)
}

/// The bits that a product mixes best.
#[inline(always)]
fn upper_half(hash: u64) -> u32 {
    (hash >> 32) as u32
}

/// A number of what a CIE says.
#[inline(always)]
fn number_of_facts(facts: CieFacts) -> u64 {
    u64::from(facts.return_address.0) << 1 | u64::from(facts.is_signal_trampoline)
}

/// A number of a rule of the CFA.
#[inline(always)]
fn hash_of_cfa(rule: CfaRule<usize>) -> u64 {
    match rule {
        CfaRule::RegisterAndOffset { register, offset } => {
            mix(u64::from(register.0), offset.cast_unsigned())
        }
        CfaRule::Expression(e) => mix(e.offset as u64, e.length as u64),
    }
}

/// A number of a register's rule.
#[inline(always)]
fn number_of_pair(register: Register, rule: RegisterRule<usize>) -> u64 {
    let (kind, value) = match rule {
        RegisterRule::Undefined => (1u64, 0),
        RegisterRule::SameValue => (2, 0),
        RegisterRule::Offset(offset) => (3, offset.cast_unsigned()),
        RegisterRule::ValOffset(offset) => (4, offset.cast_unsigned()),
        RegisterRule::Register(other) => (5, u64::from(other.0)),
        RegisterRule::Expression(e) => (6, mix(e.offset as u64, e.length as u64)),
        RegisterRule::ValExpression(e) => (7, mix(e.offset as u64, e.length as u64)),
        RegisterRule::Architectural => (8, 0),
        RegisterRule::Constant(value) => (9, value),
    };
    value ^ (u64::from(register.0) << 40) ^ (kind << 56)
}
