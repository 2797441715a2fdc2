//! The machine of call frame instructions (DWARF 5 section 6.4.2): one step for each instruction.
//!
//! What the crates above this one do to a context is here, and not among its methods, so users of
//! an unwind context do not see it.
ghost use Rattle.std.specs.Prelude.{◌≡◌, ℕ, None};
ghost use Rattle.std.specs.Int.{w64, int_wrapping_mul};
ghost use Rattle.cfi_state.specs.MachineSettings.{Setting, rule_given};
ghost use Rattle.cfi_state.specs.Machine.{State, with_cfa, set_cfa_register, set_cfa_offset};
ghost use Rattle.cfi_read_core.specs.ReaderCalls.{map_ok};
ghost use Rattle.cfi_read_core.specs.declared.instruction.CallFrameInstruction.TheVariants
    as instruction;
ghost use Rattle.cfi_state.specs.Row.{at_addresses};
ghost use Rattle.cfi_state.specs.declared.table.rules.RegisterRule.TheVariants as rule;
ghost use Rattle.cfi_state.specs.UnwindContexts.{empty_context, machine_state, with_row};
ghost use Rattle.cfi_state.specs.declared.table.machine.Parameters.{Parameters};
ghost use Rattle.cfi_state.specs.ContextEffects.{setting_of, Changes, EndsCie, Runs};
ghost use Rattle.cfi_state.specs.Actions.{action, unsigned_factored};

use super::context::UnwindContext;
use super::row::UnwindTableRow;
use super::rules::{CfaRule, RA_SIGN_STATE, RegisterRule};
use crate::storage::UnwindContextStorage;
use cfi_read_core::address::AddressSize;
use cfi_read_core::instruction::CallFrameInstruction;
use cfi_read_core::instruction::visitor::InstructionVisitor;
use cfi_read_core::{Error, ReaderAddress, ReaderOffset, Register, Result};

/// What stays fixed while the programs of a CIE and an FDE run.
#[derive(Clone, Copy, Debug, PartialEq, Eq)]
pub struct Parameters {
    /// How far a location moves for each unit of an operand (DWARF 5 section 6.4.1).
    pub code_alignment_factor: u64,
    /// What one unit of a factored offset is, in bytes (DWARF 5 section 6.4.1).
    pub data_alignment_factor: i64,
    /// How many bytes an address takes.
    pub address_size: AddressSize,
    /// The FDE's first address.
    pub initial_address: u64,
    /// The first address after the FDE's range.
    pub end_address: u64,
}

impl Parameters {
    /// The operand times the data alignment factor. The product wraps.
    #[inline(always)]
    fn factored(&self, operand: i64) -> i64
        ensures { result ≡ int_wrapping_mul w64 operand self.now.data_alignment_factor }
    {
        operand.wrapping_mul(self.data_alignment_factor)
    }
}

/// Empties the context for the next unwind: no rule, no remembered row, and no CIE that has ended.
/// Does not allocate.
#[inline(always)]
pub fn reset<T: ReaderOffset, S: UnwindContextStorage<T>>(context: &mut UnwindContext<T, S>)
    ensures { context.new ≡ empty_context }
{
    context.reset();
}

/// The current row, borrowed from the context.
#[inline(always)]
pub fn current_row<T: ReaderOffset, S: UnwindContextStorage<T>>(
    context: &UnwindContext<T, S>,
) -> &UnwindTableRow<T, S::Rules>
    ensures { result.now ≡ context.now.row }
{
    context.row()
}

/// Writes the current row's start address and its end address.
#[inline(always)]
pub fn set_addresses<T: ReaderOffset, S: UnwindContextStorage<T>>(
    context: &mut UnwindContext<T, S>,
    start: u64,
    end: u64,
)
    ensures { context.new ≡ with_row context.old (at_addresses context.old.row start end) }
{
    context.set_addresses(start, end);
}

/// Runs an instruction at a location (DWARF 5 section 6.4.2). A visit returns the address that the
/// instruction moves to, or `None` if it is not a move.
///
/// A move leaves the context as it is. So does every error:
///
/// - `InvalidCfiSetLoc`: the address is below the location.
/// - `AddressOverflow`: the new location does not fit the address size.
/// - `CfiInstructionInInvalidContext`: the instruction sets the register or the offset of a CFA
///   that is an expression, restores a rule in a CIE, or toggles a sign state that is not a
///   constant.
/// - `TooManyRegisterRules`, `StackFull`: the storage's rules or rows are at their limit.
/// - `PopWithEmptyStack`: no row is remembered.
/// - `OutOfMemory`: a list without a limit grows, or a row is remembered whose copy allocates.
#[derive(Clone, Copy, Debug)]
pub struct InstructionRunner<'a> {
    /// What stays fixed while the programs run.
    pub parameters: &'a Parameters,
    /// Where the program is.
    pub location: u64,
}

impl<T: ReaderOffset, S: UnwindContextStorage<T>> InstructionVisitor<T, UnwindContext<T, S>>
    for InstructionRunner<'_> {
    type Answer = Result<Option<u64>>;

    ghost visits = { λ runner instruction old new answer.
        Runs (setting_of runner.parameters.now S.Rules.limit S.Stack.limit) S.Rules.copies_free
        runner.location instruction old new answer };

    #[inline(always)]
    fn advance(&self, _context: &mut UnwindContext<T, S>, delta: u32) -> Self::Answer {
        let distance = u64::from(delta).wrapping_mul(self.parameters.code_alignment_factor);
        let size = self.parameters.address_size.bytes();
        let address = self.location.add_sized(distance, size)?;
        Ok(Some(address))
    }

    #[inline(always)]
    fn offset(
        &self,
        context: &mut UnwindContext<T, S>,
        register: Register,
        factored_offset: u64,
    ) -> Self::Answer {
        context.set_rule(register, at_offset(self.parameters, factored_offset))?;
        Ok(None)
    }

    #[inline(always)]
    fn restore(&self, context: &mut UnwindContext<T, S>, register: Register) -> Self::Answer {
        restore_rule(context, register)?;
        Ok(None)
    }

    #[inline(always)]
    fn def_cfa(
        &self,
        context: &mut UnwindContext<T, S>,
        register: Register,
        offset: u64,
    ) -> Self::Answer {
        let offset = offset.cast_signed();
        context.set_cfa(CfaRule::RegisterAndOffset { register, offset });
        Ok(None)
    }

    #[inline(always)]
    fn def_cfa_register(
        &self,
        context: &mut UnwindContext<T, S>,
        register: Register,
    ) -> Self::Answer {
        let cfa = with_register(*context.row().cfa(), register)?;
        context.set_cfa(cfa);
        Ok(None)
    }

    #[inline(always)]
    fn def_cfa_offset(&self, context: &mut UnwindContext<T, S>, offset: u64) -> Self::Answer {
        let cfa = with_offset(*context.row().cfa(), offset.cast_signed())?;
        context.set_cfa(cfa);
        Ok(None)
    }

    #[inline(always)]
    fn remember_state(&self, context: &mut UnwindContext<T, S>) -> Self::Answer {
        context.remember()?;
        Ok(None)
    }

    #[inline(always)]
    fn restore_state(&self, context: &mut UnwindContext<T, S>) -> Self::Answer {
        context.restore_state()?;
        Ok(None)
    }

    #[inline(always)]
    fn nop(&self, _context: &mut UnwindContext<T, S>) -> Self::Answer {
        Ok(None)
    }

    #[inline(always)]
    fn other(
        &self,
        context: &mut UnwindContext<T, S>,
        instruction: CallFrameInstruction<T>,
    ) -> Self::Answer
        ensures { Runs (setting_of self.now.parameters.now S.Rules.limit S.Stack.limit)
            S.Rules.copies_free self.now.location instruction context.old context.new result }
    {
        // As in the methods above, what a call returns is taken apart here, so that the room for it
        // is of this method alone.
        let moved = self.evaluate(context, instruction)?;
        Ok(moved)
    }
}

impl InstructionRunner<'_> {
    /// Runs an instruction that comes as a value, as the instructions do that few programs have.
    #[inline(never)]
    fn evaluate<T: ReaderOffset, S: UnwindContextStorage<T>>(
        &self,
        context: &mut UnwindContext<T, S>,
        instruction: CallFrameInstruction<T>,
    ) -> Result<Option<u64>>
        ensures { Runs (setting_of self.now.parameters.now S.Rules.limit S.Stack.limit)
            S.Rules.copies_free self.now.location instruction context.old context.new result }
    {
        if let Some((register, rule)) = rule_given(self.parameters, instruction) {
            context.set_rule(register, rule)?;
            return Ok(None);
        }
        match instruction {
            CallFrameInstruction::SetLoc { address } => self.set_loc(context, address),
            CallFrameInstruction::AdvanceLoc { delta } => self.advance(context, delta),
            CallFrameInstruction::DefCfa { register, offset } => {
                self.def_cfa(context, register, offset)
            }
            CallFrameInstruction::DefCfaSf {
                register,
                factored_offset,
            } => self.def_cfa_sf(context, register, factored_offset),
            CallFrameInstruction::DefCfaRegister { register } => {
                self.def_cfa_register(context, register)
            }
            CallFrameInstruction::DefCfaOffset { offset } => self.def_cfa_offset(context, offset),
            CallFrameInstruction::DefCfaOffsetSf { factored_offset } => {
                self.def_cfa_offset_sf(context, factored_offset)
            }
            CallFrameInstruction::DefCfaExpression { expression } => {
                context.set_cfa(CfaRule::Expression(expression));
                Ok(None)
            }
            CallFrameInstruction::Restore { register } => self.restore(context, register),
            CallFrameInstruction::NegateRaState => negate_ra_state(context).and(Ok(None)),
            CallFrameInstruction::RememberState => self.remember_state(context),
            CallFrameInstruction::RestoreState => self.restore_state(context),
            CallFrameInstruction::ArgsSize { size } => {
                context.set_saved_args_size(size);
                Ok(None)
            }
            // `Nop`: what gives a register a rule has returned above.
            _ => self.nop(context),
        }
    }

    /// `DW_CFA_set_loc`, a move to the address (DWARF 5 section 6.4.2.1). Fails with
    /// `InvalidCfiSetLoc` if it is below the location.
    #[inline(always)]
    fn set_loc<T: ReaderOffset, S: UnwindContextStorage<T>>(
        &self,
        _context: &mut UnwindContext<T, S>,
        address: u64,
    ) -> Result<Option<u64>>
        ensures { Runs (setting_of self.now.parameters.now S.Rules.limit S.Stack.limit)
            S.Rules.copies_free self.now.location (instruction.SetLoc address)
            _context.old _context.new result }
    {
        if address < self.location {
            return Err(Error::InvalidCfiSetLoc(address));
        }
        Ok(Some(address))
    }

    /// `DW_CFA_def_cfa_sf` (DWARF 5 section 6.4.2.2).
    #[inline(always)]
    fn def_cfa_sf<T: ReaderOffset, S: UnwindContextStorage<T>>(
        &self,
        context: &mut UnwindContext<T, S>,
        register: Register,
        factored_offset: i64,
    ) -> Result<Option<u64>>
        ensures { Runs (setting_of self.now.parameters.now S.Rules.limit S.Stack.limit)
            S.Rules.copies_free self.now.location (instruction.DefCfaSf register factored_offset)
            context.old context.new result }
    {
        let offset = self.parameters.factored(factored_offset);
        context.set_cfa(CfaRule::RegisterAndOffset { register, offset });
        Ok(None)
    }

    /// `DW_CFA_def_cfa_offset_sf` (DWARF 5 section 6.4.2.2). Fails with
    /// `CfiInstructionInInvalidContext` if the CFA is an expression.
    #[inline(always)]
    fn def_cfa_offset_sf<T: ReaderOffset, S: UnwindContextStorage<T>>(
        &self,
        context: &mut UnwindContext<T, S>,
        factored_offset: i64,
    ) -> Result<Option<u64>>
        ensures { Runs (setting_of self.now.parameters.now S.Rules.limit S.Stack.limit)
            S.Rules.copies_free self.now.location (instruction.DefCfaOffsetSf factored_offset)
            context.old context.new result }
    {
        let offset = self.parameters.factored(factored_offset);
        let cfa = with_offset(*context.row().cfa(), offset)?;
        context.set_cfa(cfa);
        Ok(None)
    }
}

/// Saves the rules that the CIE's initial instructions end with, for `DW_CFA_restore` in the FDE's.
///
/// Fails with `StackFull` if two rules or more would be one row too many, and with `OutOfMemory`
/// only if there is a rule, its list has no limit and copies of rules allocate. An error leaves
/// the context as it is.
#[inline(always)]
pub fn end_cie<T: ReaderOffset, S: UnwindContextStorage<T>>(
    context: &mut UnwindContext<T, S>,
) -> Result<()>
    requires { context.old.initial_rules ≡ None }
    ensures { (parameters : Parameters) (location : ℕ) →
        EndsCie (setting_of parameters S.Rules.limit S.Stack.limit) S.Rules.copies_free
        location context.old context.new result }
{
    context.save_initial_rules()
}

/// The rule of a register that is saved at an offset from the CFA.
#[inline(always)]
fn at_offset<T: ReaderOffset>(parameters: &Parameters, factored_offset: u64) -> RegisterRule<T>
    ensures { result ≡ rule.Offset
        (unsigned_factored factored_offset parameters.now.data_alignment_factor) }
{
    RegisterRule::Offset(parameters.factored(factored_offset.cast_signed()))
}

/// The CFA with another register and the same offset; an expression has neither.
#[inline(always)]
fn with_register<T: ReaderOffset>(old: CfaRule<T>, register: Register) -> Result<CfaRule<T>>
    ensures { (state : State T) →
        set_cfa_register state register old ≡ map_ok (with_cfa state) result }
{
    match old {
        CfaRule::RegisterAndOffset { offset, .. } => {
            Ok(CfaRule::RegisterAndOffset { register, offset })
        }
        CfaRule::Expression(_) => Err(Error::CfiInstructionInInvalidContext),
    }
}

/// The CFA with another offset and the same register; an expression has neither.
#[inline(always)]
fn with_offset<T: ReaderOffset>(old: CfaRule<T>, offset: i64) -> Result<CfaRule<T>>
    ensures { (state : State T) →
        set_cfa_offset state offset old ≡ map_ok (with_cfa state) result }
{
    match old {
        CfaRule::RegisterAndOffset { register, .. } => {
            Ok(CfaRule::RegisterAndOffset { register, offset })
        }
        CfaRule::Expression(_) => Err(Error::CfiInstructionInInvalidContext),
    }
}

/// The register that the instruction gives a rule, and the rule (DWARF 5 section 6.4.2.3).
#[inline(always)]
fn rule_given<T: ReaderOffset>(
    parameters: &Parameters,
    instruction: CallFrameInstruction<T>,
) -> Option<(Register, RegisterRule<T>)>
    ensures { result ≡ rule_given (setting_of parameters.now None None) (action instruction) }
{
    match instruction {
        CallFrameInstruction::Undefined { register } => Some((register, RegisterRule::Undefined)),
        CallFrameInstruction::SameValue { register } => Some((register, RegisterRule::SameValue)),
        CallFrameInstruction::Offset {
            register,
            factored_offset,
        } => Some((register, at_offset(parameters, factored_offset))),
        CallFrameInstruction::OffsetExtendedSf {
            register,
            factored_offset,
        } => {
            let offset = parameters.factored(factored_offset);
            Some((register, RegisterRule::Offset(offset)))
        }
        CallFrameInstruction::OffsetExtendedNegative {
            register,
            factored_offset,
        } => {
            let product = parameters.factored(factored_offset.cast_signed());
            Some((register, RegisterRule::Offset(product.wrapping_neg())))
        }
        CallFrameInstruction::ValOffset {
            register,
            factored_offset,
        } => {
            let offset = parameters.factored(factored_offset.cast_signed());
            Some((register, RegisterRule::ValOffset(offset)))
        }
        CallFrameInstruction::ValOffsetSf {
            register,
            factored_offset,
        } => {
            let offset = parameters.factored(factored_offset);
            Some((register, RegisterRule::ValOffset(offset)))
        }
        CallFrameInstruction::Register {
            dest_register,
            src_register,
        } => Some((dest_register, RegisterRule::Register(src_register))),
        CallFrameInstruction::Expression {
            register,
            expression,
        } => Some((register, RegisterRule::Expression(expression))),
        CallFrameInstruction::ValExpression {
            register,
            expression,
        } => Some((register, RegisterRule::ValExpression(expression))),
        _ => None,
    }
}

/// Gives the register the rule that it had when the CIE's initial instructions ended, which may be
/// none (DWARF 5 section 6.4.2.3).
#[inline(never)]
fn restore_rule<T: ReaderOffset, S: UnwindContextStorage<T>>(
    context: &mut UnwindContext<T, S>,
    register: Register,
) -> Result<()>
    ensures { (setting : Setting) (location : ℕ) →
        Changes (record setting { rule_limit = S.Rules.limit; stack_limit = S.Stack.limit })
        S.Rules.copies_free location (instruction.Restore register) context.old context.new result }
{
    match context.initial_rule(register)? {
        Some(rule) => context.set_rule(register, rule),
        None => {
            context.clear_rule(register);
            Ok(())
        }
    }
}

/// Toggles whether the return address is signed ("DWARF for the Arm 64-bit Architecture").
fn negate_ra_state<T: ReaderOffset, S: UnwindContextStorage<T>>(
    context: &mut UnwindContext<T, S>,
) -> Result<()>
    ensures { (parameters : Parameters) (location : ℕ) →
        Changes (setting_of parameters S.Rules.limit S.Stack.limit) S.Rules.copies_free
        location instruction.NegateRaState context.old context.new result }
{
    match context.row().register(RA_SIGN_STATE) {
        None => context.set_rule(RA_SIGN_STATE, RegisterRule::Constant(1)),
        Some(RegisterRule::Constant(value)) => {
            context.set_rule(RA_SIGN_STATE, RegisterRule::Constant(value ^ 1))
        }
        Some(_) => Err(Error::CfiInstructionInInvalidContext),
    }
}
