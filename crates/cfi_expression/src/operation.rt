//! The operations of a DWARF expression as values (DWARF 5 section 2.5.1).

use cfi_read_core::Register;

/// An operation that computes from the top entry (DWARF 5 section 2.5.1.4).
#[derive(Clone, Copy)]
pub(crate) enum UnaryOperation {
    Abs,
    Neg,
    Not,
    PlusConstant(u64),
}

/// An operation that computes from the top two entries (DWARF 5 sections 2.5.1.4 and 2.5.1.5).
#[derive(Clone, Copy)]
pub(crate) enum BinaryOperation {
    And,
    Div,
    Minus,
    Mod,
    Mul,
    Or,
    Plus,
    Shl,
    Shr,
    Shra,
    Xor,
    Eq,
    Ge,
    Gt,
    Le,
    Lt,
    Ne,
}

/// An operation that acts on the stack, with the operands that were read.
#[derive(Clone, Copy)]
pub(crate) enum StackOperation {
    /// Pushes a constant (section 2.5.1.1).
    Constant(u64),
    /// Pushes the value of a register plus an offset (section 2.5.1.2).
    RegisterOffset { register: Register, offset: i64 },
    /// Pushes a copy of the entry at the index (section 2.5.1.3).
    Pick(u8),
    /// Pops the top entry.
    Discard,
    /// Exchanges the top two entries.
    Swap,
    /// Makes the top entry the third, and the second and third the top two.
    Rotate,
    /// Pops an address, and pushes the number of so many bytes that it finds there.
    Dereference(u8),
    /// Pops the top entry, and pushes what is computed from it.
    Unary(UnaryOperation),
    /// Pops the top two entries, and pushes what is computed from them.
    Binary(BinaryOperation),
    /// Nothing (section 2.5.1.7).
    Nop,
    /// Not evaluated here. The number is the opcode; the operands are not read.
    Unsupported(u8),
}

/// An operation. Jumps are from its end, by so many bytes.
#[derive(Clone, Copy)]
pub(crate) enum Operation {
    /// Acts on the stack.
    Stack(StackOperation),
    /// Jumps (section 2.5.1.5).
    Skip(i16),
    /// Pops the top entry, and jumps if it is not zero.
    Bra(i16),
}
