//! Checksums of answers.
use cfi_compiled::CompiledRow;
use gimli_cfi::{CfaRule, Register, RegisterRule, UnwindContextStorage, UnwindTableRow};

/// What a pass did.
#[derive(Clone, Copy, Debug)]
pub struct Done {
    /// How many answers there were.
    pub count: u64,
    /// Their checksum.
    pub sum: u64,
}

impl Done {
    /// No answer yet.
    pub fn none() -> Done {
        Done { count: 0, sum: 0 }
    }

    /// One more answer.
    pub fn take(&mut self, number: u64) {
        self.count = self.count.wrapping_add(1);
        self.sum = mix(self.sum, number);
    }
}

/// A pass that met a refusal where it can't go on, or a measure that isn't known.
pub const FAILED: Done = Done {
    count: u64::MAX,
    sum: 0,
};

/// What stands for a refused row in the checksum of a walk.
pub const REFUSED: u64 = u64::MAX;

/// The driver sums gimli's answers by the same steps.
fn mix(sum: u64, number: u64) -> u64 {
    sum.rotate_left(5) ^ number
}

/// What a walk over the FDEs of a section sums.
#[derive(Clone, Copy)]
pub enum Summed {
    /// Initial address and length of each FDE.
    Fde,
    /// Addresses and CFA of each row.
    Row,
    /// Every rule of each row.
    Rules,
}

impl Summed {
    /// What is summed of a row.
    #[inline(always)]
    pub fn of<S: UnwindContextStorage<usize>>(self, row: &UnwindTableRow<usize, S::Rules>) -> u64 {
        match self {
            Summed::Rules => rules_sum::<S>(row),
            _ => row_sum::<S>(row),
        }
    }
}

/// Addresses and CFA of a row.
pub fn row_sum<S: UnwindContextStorage<usize>>(row: &UnwindTableRow<usize, S::Rules>) -> u64 {
    mix(
        mix(row.start_address(), row.end_address()),
        cfa_sum(row.cfa()),
    )
}

/// The CFA alone.
#[inline(always)]
pub fn cfa_sum(cfa: &CfaRule<usize>) -> u64 {
    match *cfa {
        CfaRule::RegisterAndOffset { register, offset } => {
            u64::from(register.0) ^ offset.cast_unsigned()
        }
        CfaRule::Expression(e) => e.offset as u64 ^ (e.length as u64).rotate_left(32),
    }
}

/// A row with every rule. The order in which registers are walked is open, so their numbers are
/// added.
pub fn rules_sum<S: UnwindContextStorage<usize>>(row: &UnwindTableRow<usize, S::Rules>) -> u64 {
    let mut sum = mix(row_sum::<S>(row), row.saved_args_size());
    for (register, rule) in row.registers() {
        sum = sum.wrapping_add(rule_sum(*register, *rule));
    }
    sum
}

/// The parts of a row: its CFA, the size of pushed arguments and every rule.
pub fn compiled_sum(row: CompiledRow<'_>) -> u64 {
    let mut sum = mix(cfa_sum(row.cfa()), row.saved_args_size());
    for (register, rule) in row.registers() {
        sum = sum.wrapping_add(rule_sum(*register, *rule));
    }
    sum
}

fn rule_sum(register: Register, rule: RegisterRule<usize>) -> u64 {
    let (kind, value) = match rule {
        RegisterRule::Undefined => (1, 0),
        RegisterRule::SameValue => (2, 0),
        RegisterRule::Offset(offset) => (3, offset.cast_unsigned()),
        RegisterRule::ValOffset(offset) => (4, offset.cast_unsigned()),
        RegisterRule::Register(other) => (5, u64::from(other.0)),
        RegisterRule::Expression(e) => (6, mix(e.offset as u64, e.length as u64)),
        RegisterRule::ValExpression(e) => (7, mix(e.offset as u64, e.length as u64)),
        RegisterRule::Architectural => (8, 0),
        RegisterRule::Constant(value) => (9, value),
    };
    mix(mix(u64::from(register.0), kind), value).wrapping_mul(0x9e37_79b9_7f4a_7c15)
}
