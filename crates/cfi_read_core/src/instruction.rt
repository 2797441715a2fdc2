//! Call frame instructions and their expressions as values (DWARF 5 section 6.4.2). The module
//! `instruction` of cfi_parts reads them from bytes.
ghost use Rattle.std.specs.Prelude.{◌≡◌, ⊤, IfOk};
ghost use Rattle.cfi_read_core.specs.ReaderCalls.{IsPartOf, ReadsBy, extent_of, map_ok, read_at};
ghost use Rattle.cfi_read_core.specs.CallFrameSections.{IsOf};
ghost use Rattle.cfi_read_core.specs.ExpressionPlaces.{LiesIn, expression_bytes, expression_extent};
ghost use Rattle.cfi_read_core.specs.ExpressionPlaces.{place_in};
ghost use Rattle.cfi_read_core.specs.MappedInstructions.{map_expression};

pub mod visitor;

use crate::dwarf_section::Expression;
use crate::section_properties::_UnwindSectionPrivate;
use crate::{Reader, Register, Result};
use std::alloc::AllocError;

/// A DWARF expression (DWARF 5 section 2.5), by its place in its section.
#[derive(Clone, Copy, Debug, PartialEq, Eq)]
pub struct UnwindExpression<T> {
    /// Where the expression begins, in bytes from the start of the section.
    pub offset: T,
    /// Its size in bytes.
    pub length: T,
}

impl<T: Copy> UnwindExpression<T> {
    /// The bytes of the expression, from the section in which it was read. Copies nothing.
    ///
    /// Returns `Error::UnexpectedEof` with the place of the section if the offset is past its end,
    /// and with the place of the expression if the length is. Neither happens for an expression of
    /// an instruction or a row that was read from this section: their contracts say that it lies
    /// in the section.
    #[inline(always)]
    pub fn get<R: Reader<Offset = T>, Section: _UnwindSectionPrivate<R>>(
        &self,
        section: &Section,
    ) -> Result<Expression<R>>
        ensures bytes { let from = (Section.view section.now).position in
            map_ok (expression_extent R.position) result
            ≡ read_at from (expression_bytes (map_expression T.number self.now)) }
        ensures part { let from = (Section.view section.now).position in
            IfOk result (λ e. IsOf (R.position e.0) from) }
        ensures there { let from = (Section.view section.now).position in
            let expression = map_expression T.number self.now in
            LiesIn from expression
            → map_ok (expression_extent R.position) result ≡ Ok (place_in from expression) }
    {
        let mut input = *section.section();
        Ok(Expression(split_expression(self, &mut input)?))
    }
}

/// Skips to an expression, and splits off its bytes.
#[tactic(auto, unfolding(crate::specs::ExpressionPlaces::expression_bytes))]
#[inline(always)]
fn split_expression<R: Reader>(expression: &UnwindExpression<R::Offset>, input: &mut R) -> Result<R>
    ensures read { ReadsBy R.position (λ r. extent_of (R.position r))
        (expression_bytes (map_expression R.Offset.number expression.now))
        input.old result input.new }
    ensures part { IfOk result (λ r. IsPartOf (R.position r) (R.position input.old)) }
{
    input.skip(expression.offset)?;
    input.split(expression.length)
}

/// A call frame instruction (DWARF 5 section 6.4.2), generic over the reader's offset type.
///
/// Operands are as read: deltas and factored offsets are not multiplied by the alignment factors.
#[derive(Copy, Debug, PartialEq, Eq)]
pub enum CallFrameInstruction<T> {
    /// A new row begins at the address.
    SetLoc {
        address: u64,
    },
    /// A new row begins at the location plus the delta, which is in units of the code alignment
    /// factor.
    AdvanceLoc {
        delta: u32,
    },
    /// The CFA is the register plus the offset.
    DefCfa {
        register: Register,
        offset: u64,
    },
    /// The CFA is the register plus the offset, in units of the data alignment factor.
    DefCfaSf {
        register: Register,
        factored_offset: i64,
    },
    /// Changes the CFA's register and keeps its offset.
    DefCfaRegister {
        register: Register,
    },
    /// Changes the CFA's offset and keeps its register.
    DefCfaOffset {
        offset: u64,
    },
    /// Changes the CFA's offset and keeps its register. The offset is in units of the data
    /// alignment factor.
    DefCfaOffsetSf {
        factored_offset: i64,
    },
    /// The CFA is the value of the expression.
    DefCfaExpression {
        expression: UnwindExpression<T>,
    },
    /// The register's value in the caller cannot be recovered.
    Undefined {
        register: Register,
    },
    /// The register has the caller's value.
    SameValue {
        register: Register,
    },
    /// The register is saved at the CFA plus an offset, in units of the data alignment factor.
    Offset {
        register: Register,
        factored_offset: u64,
    },
    /// The register is saved at the CFA plus a signed offset, in units of the data alignment
    /// factor.
    OffsetExtendedSf {
        register: Register,
        factored_offset: i64,
    },
    /// The register is saved at the CFA minus an offset, in units of the data alignment factor
    /// (GNU).
    OffsetExtendedNegative {
        register: Register,
        factored_offset: u64,
    },
    /// The register's value is the CFA plus an offset, in units of the data alignment factor.
    ValOffset {
        register: Register,
        factored_offset: u64,
    },
    /// The register's value is the CFA plus a signed offset, in units of the data alignment factor.
    ValOffsetSf {
        register: Register,
        factored_offset: i64,
    },
    /// The register is saved in another register.
    Register {
        dest_register: Register,
        src_register: Register,
    },
    /// The register is saved at the address that the expression gives.
    Expression {
        register: Register,
        expression: UnwindExpression<T>,
    },
    /// The register's value is the value of the expression.
    ValExpression {
        register: Register,
        expression: UnwindExpression<T>,
    },
    /// Restores the rule that the initial instructions gave the register.
    Restore {
        register: Register,
    },
    /// Pushes the row's CFA, rules and argument size.
    RememberState,
    /// Pops what was pushed last.
    RestoreState,
    /// The size in bytes of the arguments on the stack (GNU).
    ArgsSize {
        size: u64,
    },
    /// Toggles the signing state of the return address (AArch64).
    NegateRaState,
    /// No operation, for padding.
    Nop,
}

impl<T: Copy> Clone for CallFrameInstruction<T> {
    ghost is_clone = { λ x y. y ≡ x };

    ghost is_infallible = { λ _. ⊤ };

    #[inline(always)]
    fn clone(&self) -> std::result::Result<Self, AllocError> {
        Ok(*self)
    }
}
