//! What an ABI says of a frame.

use cfi_read_core::Register;

/// What the rows of an unwind table leave to the ABI, and how long an expression may take.
#[derive(Clone, Copy, Debug, PartialEq, Eq)]
pub struct Abi {
    /// The number of the stack pointer. Without a rule it is the CFA in the caller.
    pub stack_pointer: Register,
    /// The bits of a return address that hold its signature, if a row says that it is signed
    /// (AArch64). 0 if none ever is.
    pub signature_mask: u64,
    /// How many operations an expression may do.
    pub max_iterations: u32,
}
