//! The table of the operations of DWARF expressions (DWARF 5 sections 2.5.1, 2.6.1 and 7.7.1): the
//! name of each, and the form of its operand.
ghost use Rattle.std.specs.Prelude.{◌≡◌, ◌++◌};
ghost use Rattle.std.specs.Fmt.{decimal};
ghost use Rattle.cfi_row_text.specs.Operations.{arithmetic_entry, constant_entry, control_entry};
ghost use Rattle.cfi_row_text.specs.Operations.{operation_entry, logic_entry, operation_name_text};
ghost use Rattle.cfi_row_text.specs.Operations.{other_entry, stack_entry};
ghost use Rattle.cfi_text.specs.Texts.{Puts};

use cfi_text::text::Text;
use gimli_cfi::Register;

/// How many bytes a number has.
#[derive(Clone, Copy)]
pub(crate) enum Width {
    One,
    Two,
    Four,
    Eight,
    /// As many as it takes (section 7.6).
    Leb128,
}

/// The form of the operand of an operation.
#[derive(Clone, Copy)]
pub(crate) enum Form {
    /// The operation isn't in the table.
    Unknown,
    /// There is none.
    Nothing,
    Address,
    Unsigned(Width),
    Signed(Width),
    /// A register by its number.
    Register,
    /// A register by its number, and an offset from its value.
    RegisterOffset,
    /// There is none; the opcode names the register.
    Named(Register),
    /// An offset from the value of the register that the opcode names.
    OffsetFrom(Register),
}

/// The name of an operation: a text, and a number after it where there is one.
#[derive(Clone, Copy)]
pub(crate) struct OperationName {
    text: &'static str,
    number: Option<u8>,
}

impl OperationName {
    /// Puts the name.
    pub(crate) fn put_into(self, text: &mut Text)
        ensures { Puts (operation_name_text self) text.old text.new }
    {
        text.put(self.text.as_bytes());
        match self.number {
            Some(number) => text.number(number),
            None => {}
        }
    }
}

/// What the table has for an opcode.
#[derive(Clone, Copy)]
pub(crate) struct Entry {
    pub(crate) name: OperationName,
    pub(crate) form: Form,
}

/// Returns an entry with this name.
fn one(text: &'static str, form: Form) -> Entry
    ensures name { operation_name_text result.name ≡ text.now }
    ensures form { result.form ≡ form }
{
    let number = None;
    Entry {
        name: OperationName { text, number },
        form,
    }
}

/// Returns an entry whose name is the text and the number after it.
fn counted(text: &'static str, number: u8, form: Form) -> Entry
    ensures name { operation_name_text result.name ≡ text.now ++ decimal number }
    ensures form { result.form ≡ form }
{
    let number = Some(number);
    Entry {
        name: OperationName { text, number },
        form,
    }
}

/// Returns what the table has for the opcode.
pub(crate) fn entry_of(opcode: u8) -> Entry
    ensures name { operation_name_text result.name ≡ (operation_entry opcode).name }
    ensures form { result.form ≡ (operation_entry opcode).form }
{
    if opcode < 0x30 {
        constant_entry(opcode)
    } else if opcode < 0x50 {
        counted("DW_OP_lit", opcode - 0x30, Form::Nothing)
    } else if opcode < 0x70 {
        let number = opcode - 0x50;
        let register = Register(u16::from(number));
        counted("DW_OP_reg", number, Form::Named(register))
    } else if opcode < 0x90 {
        let number = opcode - 0x70;
        let register = Register(u16::from(number));
        counted("DW_OP_breg", number, Form::OffsetFrom(register))
    } else {
        constant_entry(opcode)
    }
}

/// The same for an opcode that is the only one of its name: for a constant (section 2.5.1.1), or
/// another one.
#[tactic(auto, unfolding(crate::specs::Operations::constant_entry))]
fn constant_entry(opcode: u8) -> Entry
    ensures name { operation_name_text result.name ≡ (constant_entry opcode).name }
    ensures form { result.form ≡ (constant_entry opcode).form }
{
    match opcode {
        0x03 => one("DW_OP_addr", Form::Address),
        0x08 => one("DW_OP_const1u", Form::Unsigned(Width::One)),
        0x09 => one("DW_OP_const1s", Form::Signed(Width::One)),
        0x0a => one("DW_OP_const2u", Form::Unsigned(Width::Two)),
        0x0b => one("DW_OP_const2s", Form::Signed(Width::Two)),
        0x0c => one("DW_OP_const4u", Form::Unsigned(Width::Four)),
        0x0d => one("DW_OP_const4s", Form::Signed(Width::Four)),
        0x0e => one("DW_OP_const8u", Form::Unsigned(Width::Eight)),
        0x0f => one("DW_OP_const8s", Form::Signed(Width::Eight)),
        0x10 => one("DW_OP_constu", Form::Unsigned(Width::Leb128)),
        0x11 => one("DW_OP_consts", Form::Signed(Width::Leb128)),
        _ => stack_entry(opcode),
    }
}

/// The same for an operation of the stack (section 2.5.1.3), or another opcode.
#[tactic(auto, unfolding(crate::specs::Operations::stack_entry))]
fn stack_entry(opcode: u8) -> Entry
    ensures name { operation_name_text result.name ≡ (stack_entry opcode).name }
    ensures form { result.form ≡ (stack_entry opcode).form }
{
    match opcode {
        0x06 => one("DW_OP_deref", Form::Nothing),
        0x12 => one("DW_OP_dup", Form::Nothing),
        0x13 => one("DW_OP_drop", Form::Nothing),
        0x14 => one("DW_OP_over", Form::Nothing),
        0x15 => one("DW_OP_pick", Form::Unsigned(Width::One)),
        0x16 => one("DW_OP_swap", Form::Nothing),
        0x17 => one("DW_OP_rot", Form::Nothing),
        0x18 => one("DW_OP_xderef", Form::Nothing),
        0x94 => one("DW_OP_deref_size", Form::Unsigned(Width::One)),
        0x95 => one("DW_OP_xderef_size", Form::Unsigned(Width::One)),
        _ => arithmetic_entry(opcode),
    }
}

/// The same for arithmetic (section 2.5.1.4), or another opcode.
#[tactic(auto, unfolding(crate::specs::Operations::arithmetic_entry))]
fn arithmetic_entry(opcode: u8) -> Entry
    ensures name { operation_name_text result.name ≡ (arithmetic_entry opcode).name }
    ensures form { result.form ≡ (arithmetic_entry opcode).form }
{
    match opcode {
        0x19 => one("DW_OP_abs", Form::Nothing),
        0x1b => one("DW_OP_div", Form::Nothing),
        0x1c => one("DW_OP_minus", Form::Nothing),
        0x1d => one("DW_OP_mod", Form::Nothing),
        0x1e => one("DW_OP_mul", Form::Nothing),
        0x1f => one("DW_OP_neg", Form::Nothing),
        0x22 => one("DW_OP_plus", Form::Nothing),
        0x23 => one("DW_OP_plus_uconst", Form::Unsigned(Width::Leb128)),
        _ => logic_entry(opcode),
    }
}

/// The same for a logical operation (section 2.5.1.4), or another opcode.
#[tactic(auto, unfolding(crate::specs::Operations::logic_entry))]
fn logic_entry(opcode: u8) -> Entry
    ensures name { operation_name_text result.name ≡ (logic_entry opcode).name }
    ensures form { result.form ≡ (logic_entry opcode).form }
{
    match opcode {
        0x1a => one("DW_OP_and", Form::Nothing),
        0x20 => one("DW_OP_not", Form::Nothing),
        0x21 => one("DW_OP_or", Form::Nothing),
        0x24 => one("DW_OP_shl", Form::Nothing),
        0x25 => one("DW_OP_shr", Form::Nothing),
        0x26 => one("DW_OP_shra", Form::Nothing),
        0x27 => one("DW_OP_xor", Form::Nothing),
        _ => control_entry(opcode),
    }
}

/// The same for control flow (section 2.5.1.5), or another opcode.
#[tactic(auto, unfolding(crate::specs::Operations::control_entry))]
fn control_entry(opcode: u8) -> Entry
    ensures name { operation_name_text result.name ≡ (control_entry opcode).name }
    ensures form { result.form ≡ (control_entry opcode).form }
{
    match opcode {
        0x28 => one("DW_OP_bra", Form::Signed(Width::Two)),
        0x29 => one("DW_OP_eq", Form::Nothing),
        0x2a => one("DW_OP_ge", Form::Nothing),
        0x2b => one("DW_OP_gt", Form::Nothing),
        0x2c => one("DW_OP_le", Form::Nothing),
        0x2d => one("DW_OP_lt", Form::Nothing),
        0x2e => one("DW_OP_ne", Form::Nothing),
        0x2f => one("DW_OP_skip", Form::Signed(Width::Two)),
        _ => other_entry(opcode),
    }
}

/// The same for an opcode that no other group has: of registers and frames (sections 2.5.1.2 and
/// 2.5.1.3), the one that does nothing (section 2.5.1.6), those that name a place (section 2.6.1).
#[tactic(auto, unfolding(crate::specs::Operations::other_entry))]
fn other_entry(opcode: u8) -> Entry
    ensures name { operation_name_text result.name ≡ (other_entry opcode).name }
    ensures form { result.form ≡ (other_entry opcode).form }
{
    match opcode {
        0x90 => one("DW_OP_regx", Form::Register),
        0x91 => one("DW_OP_fbreg", Form::Signed(Width::Leb128)),
        0x92 => one("DW_OP_bregx", Form::RegisterOffset),
        0x93 => one("DW_OP_piece", Form::Unsigned(Width::Leb128)),
        0x96 => one("DW_OP_nop", Form::Nothing),
        0x97 => one("DW_OP_push_object_address", Form::Nothing),
        0x9b => one("DW_OP_form_tls_address", Form::Nothing),
        0x9c => one("DW_OP_call_frame_cfa", Form::Nothing),
        0x9f => one("DW_OP_stack_value", Form::Nothing),
        _ => one("", Form::Unknown),
    }
}
