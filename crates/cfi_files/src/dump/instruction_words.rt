//! The words of a call frame instruction: its name in DWARF and its operands.

use cfi_row_text::expression_words::put_in_words;
use cfi_text::register_names::RegisterNames;
use cfi_text::text::Text;
use gimli_cfi::{
    CallFrameInstruction as Instruction, Reader, Register, UnwindExpression, UnwindSection,
};

/// Appends the name of the instruction in DWARF (DWARF 5 section 7.24), one for all sizes of an
/// operand, and its operands as they are encoded in the section: an offset in units of the data
/// alignment factor isn't multiplied by it. After an advance comes the address to which it moves,
/// where there is one.
pub(crate) fn put_instruction<R: Reader<Offset = usize>, S: UnwindSection<R>>(
    text: &mut Text,
    names: RegisterNames,
    section: &S,
    to: Option<u64>,
    instruction: Instruction<usize>,
) {
    match instruction {
        Instruction::SetLoc { address } => put_address(text, b"DW_CFA_set_loc address=", address),
        Instruction::AdvanceLoc { delta } => {
            put_number(text, b"DW_CFA_advance_loc delta=", u64::from(delta));
            if let Some(address) = to {
                put_address(text, b" to=", address);
            }
        }
        Instruction::DefCfa { register, offset } => {
            put_register(text, names, b"DW_CFA_def_cfa register=", register);
            put_number(text, b" offset=", offset);
        }
        Instruction::DefCfaSf {
            register,
            factored_offset: offset,
        } => {
            put_register(text, names, b"DW_CFA_def_cfa_sf register=", register);
            put_signed(text, b" factored_offset=", offset);
        }
        Instruction::DefCfaRegister { register } => {
            put_register(text, names, b"DW_CFA_def_cfa_register register=", register);
        }
        Instruction::DefCfaOffset { offset } => {
            put_number(text, b"DW_CFA_def_cfa_offset offset=", offset);
        }
        Instruction::DefCfaOffsetSf {
            factored_offset: offset,
        } => put_signed(text, b"DW_CFA_def_cfa_offset_sf factored_offset=", offset),
        Instruction::DefCfaExpression { expression } => {
            text.put(b"DW_CFA_def_cfa_expression");
            put_expression(text, names, section, expression);
        }
        Instruction::Undefined { register } => {
            put_register(text, names, b"DW_CFA_undefined register=", register);
        }
        Instruction::SameValue { register } => {
            put_register(text, names, b"DW_CFA_same_value register=", register);
        }
        Instruction::Offset {
            register,
            factored_offset: offset,
        } => {
            put_register(text, names, b"DW_CFA_offset register=", register);
            put_number(text, b" factored_offset=", offset);
        }
        Instruction::OffsetExtendedSf {
            register,
            factored_offset: offset,
        } => {
            let name = b"DW_CFA_offset_extended_sf register=";
            put_register(text, names, name, register);
            put_signed(text, b" factored_offset=", offset);
        }
        Instruction::OffsetExtendedNegative {
            register,
            factored_offset: offset,
        } => {
            let name = b"DW_CFA_GNU_negative_offset_extended register=";
            put_register(text, names, name, register);
            put_number(text, b" factored_offset=", offset);
        }
        Instruction::ValOffset {
            register,
            factored_offset: offset,
        } => {
            put_register(text, names, b"DW_CFA_val_offset register=", register);
            put_number(text, b" factored_offset=", offset);
        }
        Instruction::ValOffsetSf {
            register,
            factored_offset: offset,
        } => {
            put_register(text, names, b"DW_CFA_val_offset_sf register=", register);
            put_signed(text, b" factored_offset=", offset);
        }
        Instruction::Register {
            dest_register: dest,
            src_register: src,
        } => {
            put_register(text, names, b"DW_CFA_register dest_register=", dest);
            put_register(text, names, b" src_register=", src);
        }
        Instruction::Expression {
            register,
            expression,
        } => {
            put_register(text, names, b"DW_CFA_expression register=", register);
            put_expression(text, names, section, expression);
        }
        Instruction::ValExpression {
            register,
            expression,
        } => {
            put_register(text, names, b"DW_CFA_val_expression register=", register);
            put_expression(text, names, section, expression);
        }
        Instruction::Restore { register } => {
            put_register(text, names, b"DW_CFA_restore register=", register);
        }
        Instruction::RememberState => text.put(b"DW_CFA_remember_state"),
        Instruction::RestoreState => text.put(b"DW_CFA_restore_state"),
        Instruction::ArgsSize { size } => put_number(text, b"DW_CFA_GNU_args_size size=", size),
        Instruction::NegateRaState => text.put(b"DW_CFA_AARCH64_negate_ra_state"),
        Instruction::Nop => text.put(b"DW_CFA_nop"),
    }
}

/// Appends a label and the name of a register.
fn put_register(text: &mut Text, names: RegisterNames, label: &[u8], register: Register) {
    text.put(label);
    let name = names.name(register.0);
    text.put(name.text.as_bytes());
    if let Some(number) = name.number {
        text.number(number);
    }
}

/// Appends a label and a number.
fn put_number(text: &mut Text, label: &[u8], number: u64) {
    text.put(label);
    text.number(number);
}

/// Appends a label and a number with a sign.
fn put_signed(text: &mut Text, label: &[u8], number: i64) {
    text.put(label);
    text.number(number);
}

/// Appends a label and an address.
fn put_address(text: &mut Text, label: &[u8], address: u64) {
    text.put(label);
    text.address(address);
}

/// Appends an expression as the operand of that name.
fn put_expression<R: Reader<Offset = usize>, S: UnwindSection<R>>(
    text: &mut Text,
    names: RegisterNames,
    section: &S,
    expression: UnwindExpression<usize>,
) {
    text.put(b" expression=");
    put_in_words(text, names, section, expression);
}
