//! Reading one call frame instruction (DWARF 5 sections 6.4.2 and 7.24).
ghost use Rattle.std.specs.Prelude.{◌≡◌};
ghost use Rattle.cfi_read_core.specs.MappedInstructions.{map_expression, map_instruction};
ghost use Rattle.cfi_read_core.specs.Numbers.{unsigned};
ghost use Rattle.cfi_read_core.specs.ReaderCalls.{ReadsBy, ReadsValue};
ghost use Rattle.cfi_parts.specs.Instructions.{IsRare, by_extended_opcode, by_register_rules};
ghost use Rattle.cfi_parts.specs.Instructions.{by_rules, delta_width, expression, instruction};
ghost use Rattle.cfi_parts.specs.Instructions.{set_location};
ghost use Rattle.cfi_parts.specs.InstructionVisits.{VisitsRead};
ghost use Rattle.cfi_parts.specs.ReadingParameters.{NotBeforeSection, instruction_context};
ghost use Rattle.cfi_parts.specs.ReadingParameters.{pointer_context};

use crate::instruction::{CallFrameInstruction, UnwindExpression};
use crate::pointer::{PointerEncodingParameters, parse_encoded_pointer};
use cfi_read_core::constants::{
    DW_CFA_AARCH64_negate_ra_state, DW_CFA_GNU_args_size, DW_CFA_GNU_negative_offset_extended,
    DW_CFA_advance_loc, DW_CFA_advance_loc1, DW_CFA_advance_loc2, DW_CFA_advance_loc4,
    DW_CFA_def_cfa, DW_CFA_def_cfa_expression, DW_CFA_def_cfa_offset, DW_CFA_def_cfa_offset_sf,
    DW_CFA_def_cfa_register, DW_CFA_def_cfa_sf, DW_CFA_expression, DW_CFA_nop, DW_CFA_offset,
    DW_CFA_offset_extended, DW_CFA_offset_extended_sf, DW_CFA_register, DW_CFA_remember_state,
    DW_CFA_restore, DW_CFA_restore_extended, DW_CFA_restore_state, DW_CFA_same_value,
    DW_CFA_set_loc, DW_CFA_undefined, DW_CFA_val_expression, DW_CFA_val_offset,
    DW_CFA_val_offset_sf,
};
use cfi_read_core::instruction::visitor::InstructionVisitor;
use cfi_read_core::reader::{read_offset, read_register};
use cfi_read_core::{DwCfa, DwEhPe, Error, Reader, ReaderOffset, Register, Result, Vendor};

/// The parameters for reading the instructions of an entry.
#[derive(Clone, Copy, Debug)]
pub struct InstructionParameters<'a, R> {
    /// The pointer encoding of the address of `DW_CFA_set_loc`; a plain address if there is none.
    pub address_encoding: Option<DwEhPe>,
    /// The parameters for reading pointers.
    pub pointers: PointerEncodingParameters<'a, R>,
    /// Which vendor opcodes are known.
    pub vendor: Vendor,
}

/// Skips an expression, and returns its place in the section.
#[tactic(auto, unfolding(crate::specs::Instructions::expression))]
#[inline(never)]
fn parse_expression<R: Reader>(
    pointers: &PointerEncodingParameters<'_, R>,
    input: &mut R,
) -> Result<UnwindExpression<R::Offset>>
    requires { NotBeforeSection R.position pointers.now input.old }
    ensures { ReadsBy R.position (map_expression R.Offset.number)
        (expression (pointer_context R.position pointers.now)) input.old result input.new }
{
    let length = read_offset(input)?;
    let offset = input.offset_from(pointers.section);
    input.skip(length)?;
    Ok(UnwindExpression { offset, length })
}

/// Reads the address of `DW_CFA_set_loc`.
#[inline(always)]
fn parse_location<R: Reader>(
    parameters: &InstructionParameters<'_, R>,
    input: &mut R,
) -> Result<u64>
    requires { NotBeforeSection R.position parameters.now.pointers input.old }
    ensures { ReadsValue R.position (set_location (instruction_context R.position parameters.now))
        input.old result input.new }
{
    match parameters.address_encoding {
        Some(encoding) => parse_encoded_pointer(encoding, &parameters.pointers, input)?.direct(),
        None => input.read_address(parameters.pointers.address_size.bytes()),
    }
}

/// Reads an instruction, its opcode and its operands, and visits it.
#[tactic(auto, unfolding(crate::specs::Instructions::instruction))]
#[inline(always)]
pub fn visit_instruction<R: Reader, C, V: InstructionVisitor<R::Offset, C>>(
    parameters: &InstructionParameters<'_, R>,
    input: &mut R,
    visitor: &V,
    target: &mut C,
) -> Result<V::Answer>
    requires { NotBeforeSection R.position parameters.now.pointers input.old }
    ensures { VisitsRead R.Offset.number (V.visits visitor.now)
        (instruction (instruction_context R.position parameters.now))
        (R.position input.old) (R.position input.new) target.old target.new result }
{
    let opcode = input.read_u8()?;
    // A primary opcode is the two high bits alone; the low six bits are its first operand. Ranges
    // are compared, since such jumps are predicted better, and sooner, than one through a table.
    let low = opcode % 0x40;
    if opcode < DW_CFA_advance_loc.0 {
        visit_extended(DwCfa(opcode), parameters, input, visitor, target)
    } else if opcode < DW_CFA_offset.0 {
        Ok(visitor.advance(target, u32::from(low)))
    } else if opcode < DW_CFA_restore.0 {
        Ok(visitor.offset(target, Register(u16::from(low)), input.read_uleb128()?))
    } else {
        Ok(visitor.restore(target, Register(u16::from(low))))
    }
}

/// Reads the operands of an opcode whose two high bits are 0, and visits the instruction.
// The opcodes that compilers write most are read here and the others in a function of their own,
// since a function reserves stack space for each of its arms.
#[inline(always)]
fn visit_extended<R: Reader, C, V: InstructionVisitor<R::Offset, C>>(
    opcode: DwCfa,
    parameters: &InstructionParameters<'_, R>,
    input: &mut R,
    visitor: &V,
    target: &mut C,
) -> Result<V::Answer>
    requires { NotBeforeSection R.position parameters.now.pointers input.old }
    ensures { VisitsRead R.Offset.number (V.visits visitor.now)
        (by_extended_opcode (instruction_context R.position parameters.now) opcode.0)
        (R.position input.old) (R.position input.new) target.old target.new result }
{
    match opcode {
        // Row creation (section 6.4.2.1).
        DW_CFA_advance_loc1 | DW_CFA_advance_loc2 => {
            Ok(visitor.advance(target, parse_delta(opcode, input)?))
        }
        // The definition of the CFA (section 6.4.2.2).
        DW_CFA_def_cfa => {
            Ok(visitor.def_cfa(target, read_register(input)?, input.read_uleb128()?))
        }
        DW_CFA_def_cfa_register => Ok(visitor.def_cfa_register(target, read_register(input)?)),
        DW_CFA_def_cfa_offset => Ok(visitor.def_cfa_offset(target, input.read_uleb128()?)),
        // Row state (section 6.4.2.4), and padding.
        DW_CFA_nop => Ok(visitor.nop(target)),
        DW_CFA_remember_state => Ok(visitor.remember_state(target)),
        DW_CFA_restore_state => Ok(visitor.restore_state(target)),
        _ => visit_rare(opcode, parameters, input, visitor, target),
    }
}

/// Reads the operand of `DW_CFA_advance_loc1` or `DW_CFA_advance_loc2`.
#[inline(always)]
fn parse_delta<R: Reader>(opcode: DwCfa, input: &mut R) -> Result<u32>
    ensures { ReadsValue R.position (unsigned (delta_width opcode.0)) input.old result input.new }
{
    if opcode == DW_CFA_advance_loc1 {
        Ok(u32::from(input.read_u8()?))
    } else {
        Ok(u32::from(input.read_u16()?))
    }
}

/// Reads the operands of one of the other opcodes whose two high bits are 0, and visits the
/// instruction.
#[inline(always)]
fn visit_rare<R: Reader, C, V: InstructionVisitor<R::Offset, C>>(
    opcode: DwCfa,
    parameters: &InstructionParameters<'_, R>,
    input: &mut R,
    visitor: &V,
    target: &mut C,
) -> Result<V::Answer>
    requires rare { IsRare opcode.0 }
    requires behind { NotBeforeSection R.position parameters.now.pointers input.old }
    ensures { VisitsRead R.Offset.number (V.visits visitor.now)
        (by_extended_opcode (instruction_context R.position parameters.now) opcode.0)
        (R.position input.old) (R.position input.new) target.old target.new result }
{
    // A copy is lent to the call, so that only it has to be in memory.
    let mut apart = *input;
    let instruction = parse_rare(opcode, parameters, &mut apart);
    *input = apart;
    Ok(visitor.other(target, instruction?))
}

/// Reads the operands of one of the other opcodes whose two high bits are 0.
fn parse_rare<R: Reader>(
    opcode: DwCfa,
    parameters: &InstructionParameters<'_, R>,
    input: &mut R,
) -> Result<CallFrameInstruction<R::Offset>>
    requires rare { IsRare opcode.0 }
    requires behind { NotBeforeSection R.position parameters.now.pointers input.old }
    ensures { ReadsBy R.position (map_instruction R.Offset.number)
        (by_extended_opcode (instruction_context R.position parameters.now) opcode.0)
        input.old result input.new }
{
    match opcode {
        // Row creation (section 6.4.2.1).
        DW_CFA_set_loc => Ok(CallFrameInstruction::SetLoc {
            address: parse_location(parameters, input)?,
        }),
        DW_CFA_advance_loc4 => Ok(CallFrameInstruction::AdvanceLoc {
            delta: input.read_u32()?,
        }),
        // The definition of the CFA (section 6.4.2.2).
        DW_CFA_def_cfa_expression => Ok(CallFrameInstruction::DefCfaExpression {
            expression: parse_expression(&parameters.pointers, input)?,
        }),
        DW_CFA_def_cfa_sf => Ok(CallFrameInstruction::DefCfaSf {
            register: read_register(input)?,
            factored_offset: input.read_sleb128()?,
        }),
        DW_CFA_def_cfa_offset_sf => Ok(CallFrameInstruction::DefCfaOffsetSf {
            factored_offset: input.read_sleb128()?,
        }),
        // Vendor opcodes.
        DW_CFA_AARCH64_negate_ra_state => match parameters.vendor {
            Vendor::AArch64 => Ok(CallFrameInstruction::NegateRaState),
            Vendor::Default => Err(Error::UnknownCallFrameInstruction(opcode)),
        },
        DW_CFA_GNU_args_size => Ok(CallFrameInstruction::ArgsSize {
            size: input.read_uleb128()?,
        }),
        _ => parse_rule(opcode, parameters, input),
    }
}

/// Reads the operands of an opcode that sets a register rule with an offset from the CFA (section
/// 6.4.2.3).
#[tactic(auto, unfolding(crate::specs::Instructions::by_rules))]
fn parse_rule<R: Reader>(
    opcode: DwCfa,
    parameters: &InstructionParameters<'_, R>,
    input: &mut R,
) -> Result<CallFrameInstruction<R::Offset>>
    requires { NotBeforeSection R.position parameters.now.pointers input.old }
    ensures { ReadsBy R.position (map_instruction R.Offset.number)
        (by_rules (instruction_context R.position parameters.now) opcode.0)
        input.old result input.new }
{
    match opcode {
        DW_CFA_offset_extended => Ok(CallFrameInstruction::Offset {
            register: read_register(input)?,
            factored_offset: input.read_uleb128()?,
        }),
        DW_CFA_offset_extended_sf => Ok(CallFrameInstruction::OffsetExtendedSf {
            register: read_register(input)?,
            factored_offset: input.read_sleb128()?,
        }),
        DW_CFA_GNU_negative_offset_extended => Ok(CallFrameInstruction::OffsetExtendedNegative {
            register: read_register(input)?,
            factored_offset: input.read_uleb128()?,
        }),
        DW_CFA_val_offset => Ok(CallFrameInstruction::ValOffset {
            register: read_register(input)?,
            factored_offset: input.read_uleb128()?,
        }),
        DW_CFA_val_offset_sf => Ok(CallFrameInstruction::ValOffsetSf {
            register: read_register(input)?,
            factored_offset: input.read_sleb128()?,
        }),
        _ => parse_rule_without_offset(opcode, parameters, input),
    }
}

/// Reads the operands of an opcode that sets another register rule (section 6.4.2.3).
#[tactic(auto, unfolding(crate::specs::Instructions::by_register_rules))]
fn parse_rule_without_offset<R: Reader>(
    opcode: DwCfa,
    parameters: &InstructionParameters<'_, R>,
    input: &mut R,
) -> Result<CallFrameInstruction<R::Offset>>
    requires { NotBeforeSection R.position parameters.now.pointers input.old }
    ensures { ReadsBy R.position (map_instruction R.Offset.number)
        (by_register_rules (instruction_context R.position parameters.now) opcode.0)
        input.old result input.new }
{
    match opcode {
        DW_CFA_restore_extended => Ok(CallFrameInstruction::Restore {
            register: read_register(input)?,
        }),
        DW_CFA_undefined => Ok(CallFrameInstruction::Undefined {
            register: read_register(input)?,
        }),
        DW_CFA_same_value => Ok(CallFrameInstruction::SameValue {
            register: read_register(input)?,
        }),
        DW_CFA_register => Ok(CallFrameInstruction::Register {
            dest_register: read_register(input)?,
            src_register: read_register(input)?,
        }),
        DW_CFA_expression => Ok(CallFrameInstruction::Expression {
            register: read_register(input)?,
            expression: parse_expression(&parameters.pointers, input)?,
        }),
        DW_CFA_val_expression => Ok(CallFrameInstruction::ValExpression {
            register: read_register(input)?,
            expression: parse_expression(&parameters.pointers, input)?,
        }),
        _ => Err(Error::UnknownCallFrameInstruction(opcode)),
    }
}
