//! The operations of an expression in words.
ghost use Rattle.std.specs.Prelude.{◌≡◌, ◌++◌, codes, ℕ, List};
ghost use Rattle.cfi_read_core.specs.ExpressionPlaces.{expression_bytes};
ghost use Rattle.cfi_read_core.specs.ReaderCalls.{bytes_left, read_at};
ghost use Rattle.cfi_text.specs.Names.{byte_digits};
ghost use Rattle.cfi_text.specs.Texts.{Puts};
ghost use Rattle.cfi_row_text.specs.ExpressionWords.{bytes_text, operation_comma};
ghost use Rattle.cfi_row_text.specs.ExpressionWords.{hexadecimal_bytes, hexadecimal_in, in_words};
ghost use Rattle.cfi_row_text.specs.ExpressionWords.{known_operation, operand_text, operation_text};
ghost use Rattle.cfi_row_text.specs.ExpressionWords.{unknown_text, with_operand, words_at};
ghost use Rattle.cfi_row_text.specs.ExpressionWords.{words_in};

use crate::operation_reader::{Operand, Operation, read_operation};
use crate::operations::entry_of;
use crate::row_text::{SaysExpressions, put_offset_from, put_register};
use cfi_text::name_parts::digit;
use cfi_text::register_names::RegisterNames;
use cfi_text::text::Text;
use gimli_cfi::{_UnwindSectionPrivate, Error, Reader, UnwindExpression, UnwindSection};
use std::marker::PhantomData;

/// Says the expressions of a section in words.
#[derive(Clone, Copy)]
pub(crate) struct InWords<R, S> {
    names: RegisterNames,
    section: S,
    reader: PhantomData<R>,
}

impl<R: Reader<Offset = usize>, S: UnwindSection<R>> InWords<R, S> {
    /// With these names of registers.
    pub(crate) fn new(names: RegisterNames, section: &S) -> InWords<R, S>
        ensures names { result.names ≡ names }
        ensures section { result.section ≡ section.now }
    {
        InWords {
            names,
            section: *section,
            reader: PhantomData,
        }
    }
}

impl<R: Reader<Offset = usize>, S: UnwindSection<R>> SaysExpressions for InWords<R, S> {
    ghost say = { λ it. let from = S.view it.section in
        in_words it.names from.address_size from.position };

    fn put_said(&self, text: &mut Text, expression: UnwindExpression<usize>) {
        put_in_words(text, self.names, &self.section, expression);
    }
}

/// Puts the operations of an expression that was read in the section, after `expr` and between
/// brackets. An operation that isn't known or is cut ends them, and all bytes from there on are
/// put instead. Allocates where the text has no room.
pub fn put_in_words<R: Reader<Offset = usize>, S: UnwindSection<R>>(
    text: &mut Text,
    names: RegisterNames,
    section: &S,
    expression: UnwindExpression<usize>,
)
    ensures { let from = S.view section.now in
        Puts (in_words names from.address_size from.position expression) text.old text.new }
{
    text.put(b"expr(");
    put_words_in(text, names, section, expression);
    text.put(b")");
}

/// Puts what stands between the brackets.
fn put_words_in<R: Reader<Offset = usize>, S: UnwindSection<R>>(
    text: &mut Text,
    names: RegisterNames,
    section: &S,
    expression: UnwindExpression<usize>,
)
    ensures { let from = S.view section.now in
        Puts (words_in names from.address_size from.position
        (read_at from.position (expression_bytes expression))) text.old text.new }
{
    match expression.get(section) {
        Ok(bytes) => put_operations(text, names, section.address_size(), &bytes.0),
        Err(_) => text.put(b"..."),
    }
}

/// Puts the bytes of an expression that was read in the section, in hexadecimal.
pub(crate) fn put_bytes_of<R: Reader<Offset = usize>, S: UnwindSection<R>>(
    text: &mut Text,
    section: &S,
    expression: UnwindExpression<usize>,
)
    ensures { let from = (S.view section.now).position in
        Puts (hexadecimal_in from (read_at from (expression_bytes expression)))
        text.old text.new }
{
    match expression.get(section) {
        Ok(bytes) => put_hexadecimal(text, &bytes.0),
        Err(_) => text.put(b"..."),
    }
}

/// Puts the operations in order, by the size of an address.
fn put_operations<R: Reader<Offset = usize>>(
    text: &mut Text,
    names: RegisterNames,
    size: u8,
    bytes: &R,
)
    ensures { Puts (words_at names size (R.position bytes.now)) text.old text.new }
{
    let mut input = *bytes;
    let mut left = bytes.len();
    let mut is_first = true;
    while !input.is_empty() {
        if left == 0 {
            return;
        }
        left -= 1;
        let here = input;
        let Some(operation) = known(read_operation(&mut input, size)) else {
            put_unknown(text, is_first, &here);
            return;
        };
        put_operation(text, names, is_first, operation);
        is_first = false;
    }
}

/// Returns the operation that was read, if it is in the table.
fn known(read: Result<Operation, Error>) -> Option<Operation>
    ensures { result ≡ known_operation read }
{
    match read {
        Ok(operation) => named(operation),
        Err(_) => None,
    }
}

/// Returns the operation, if it is in the table.
fn named(operation: Operation) -> Option<Operation>
    ensures { result ≡ with_operand operation operation.operand }
{
    match operation.operand {
        Operand::Unknown => None,
        _ => Some(operation),
    }
}

/// Puts an operation, after what stands before it.
fn put_operation(text: &mut Text, names: RegisterNames, is_first: bool, operation: Operation)
    ensures { Puts (operation_comma is_first ++ operation_text names operation)
        text.old text.new }
{
    put_comma(text, is_first);
    put_named(text, names, operation);
}

/// Puts the name of an operation and its operand.
fn put_named(text: &mut Text, names: RegisterNames, operation: Operation)
    ensures { Puts (operation_text names operation) text.old text.new }
{
    entry_of(operation.opcode).name.put_into(text);
    put_operand(text, names, operation.operand);
}

/// Puts an operand after a space.
fn put_operand(text: &mut Text, names: RegisterNames, operand: Operand)
    ensures { Puts (operand_text names operand) text.old text.new }
{
    match operand {
        Operand::Unknown => {}
        Operand::Nothing => {}
        Operand::Address(address) => {
            text.put(b" ");
            text.address(address);
        }
        Operand::Unsigned(number) => {
            text.put(b" ");
            text.number(number);
        }
        Operand::Signed(number) => {
            text.put(b" ");
            text.number(number);
        }
        Operand::Register(register) => {
            text.put(b" ");
            put_register(text, names, register);
        }
        Operand::RegisterOffset(register, offset) => {
            text.put(b" ");
            put_offset_from(text, names, register, offset);
        }
    }
}

/// Puts all that is left, where an operation isn't known or is cut, after what stands before it.
fn put_unknown<R: Reader>(text: &mut Text, is_first: bool, input: &R)
    ensures { Puts (operation_comma is_first ++ unknown_text (bytes_left (R.position input.now)))
        text.old text.new }
{
    put_comma(text, is_first);
    put_left(text, input);
}

/// Puts what stands before an operation.
fn put_comma(text: &mut Text, is_first: bool)
    ensures { Puts (operation_comma is_first) text.old text.new }
{
    if !is_first {
        text.put(b", ");
    }
}

/// Puts all that is left.
fn put_left<R: Reader>(text: &mut Text, input: &R)
    ensures { Puts (unknown_text (bytes_left (R.position input.now))) text.old text.new }
{
    let mut behind = *input;
    if let Ok(opcode) = behind.read_u8() {
        put_opcode(text, opcode, &behind);
    }
}

/// Puts an opcode, and the bytes after it.
fn put_opcode<R: Reader>(text: &mut Text, opcode: u8, input: &R)
    ensures { Puts (codes "DW_OP_0x"
        ++ (byte_digits opcode ++ bytes_text (bytes_left (R.position input.now))))
        text.old text.new }
{
    text.put(b"DW_OP_0x");
    put_byte(text, opcode);
    put_bytes_after(text, input);
}

/// Puts the bytes after an opcode.
fn put_bytes_after<R: Reader>(text: &mut Text, input: &R)
    ensures { Puts (bytes_text (bytes_left (R.position input.now))) text.old text.new }
{
    let mut behind = *input;
    if let Ok(first) = behind.read_u8() {
        put_first(text, first, &behind);
    }
}

/// Puts the first byte after an opcode, and the others.
fn put_first<R: Reader>(text: &mut Text, first: u8, input: &R)
    ensures { Puts (codes " 0x"
        ++ (byte_digits first ++ hexadecimal_bytes (bytes_left (R.position input.now))))
        text.old text.new }
{
    text.put(b" 0x");
    put_byte(text, first);
    put_hexadecimal(text, input);
}

/// Puts the bytes in hexadecimal.
fn put_hexadecimal<R: Reader>(text: &mut Text, input: &R)
    ensures { Puts (hexadecimal_bytes (bytes_left (R.position input.now))) text.old text.new }
{
    let mut left = *input;
    while let Ok(byte) = left.read_u8() {
        put_byte(text, byte);
    }
}

/// Puts a byte in hexadecimal.
fn put_byte(text: &mut Text, byte: u8)
    ensures { Puts (byte_digits byte) text.old text.new }
{
    text.put(&[digit(byte / 16), digit(byte % 16)]);
}
