//! Why a value of a frame or of its caller cannot be found.

use cfi_read_core::{Error, Register};

/// Why a value of a frame or of its caller cannot be found.
#[derive(Clone, Copy, Debug, PartialEq, Eq)]
pub enum FrameError {
    /// No row was found for the pc. The error is that of the search.
    NoRow(Error),
    /// The expression cannot be read. The error is that of the read.
    Unreadable(Error),
    /// The operation is not evaluated here. The number is its opcode.
    UnsupportedOperation(u8),
    /// A number of this size in bytes cannot be read from memory: it is not 1, 2, 4 or 8, or wider
    /// than an address.
    UnsupportedSize(u8),
    /// The value of the register is not known in the frame.
    UnknownRegister(Register),
    /// The memory at the address cannot be read.
    UnreadableMemory(u64),
    /// An operation, or the end, needs more entries of the stack than there are.
    NotEnoughStackItems,
    /// The stack has no room for another entry.
    StackFull,
    /// A division by zero.
    DivisionByZero,
    /// A jump of so many bytes leads out of the expression.
    BadBranchTarget(i16),
    /// The expression did not end after as many operations as the caller allows.
    TooManyIterations,
    /// The rule of the register is an architecture's own, which is not known here.
    ArchitecturalRule,
}
