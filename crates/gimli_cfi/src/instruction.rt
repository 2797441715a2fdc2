//! Call frame instructions.

pub use cfi_parts::instruction::{
    CallFrameInstruction, CallFrameInstructionIter, UnwindExpression,
};
pub use cfi_read_core::instruction::visitor::InstructionVisitor;
