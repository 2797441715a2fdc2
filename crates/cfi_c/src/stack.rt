//! The stack that C passes.
ghost use Rattle.std.specs.Prelude.{◌≡◌};
ghost use Rattle.cfi_c.specs.PassedStacks.{stack_abi};

use cfi_step::Abi;
use gimli_cfi::Register;

/// The bytes of a stack, as far as they are there, and what the ABI says of its frames.
#[repr(C)]
pub struct CfiStack<'a> {
    /// The address of the first byte.
    pub base: u64,
    pub bytes: &'a [u8],
    /// The bits of a return address that hold its signature; 0 if none is signed.
    pub signature_mask: u64,
    /// How many operations an expression may do.
    pub max_iterations: u32,
    /// The number of the register that is the stack pointer.
    pub stack_pointer: u16,
    pub big_endian: bool,
    /// 1, 2, 4 or 8.
    pub address_size: u8,
}

/// What the ABI says.
pub fn abi_of(stack: &CfiStack<'_>) -> Abi
    ensures { result ≡ stack_abi stack.now }
{
    Abi {
        stack_pointer: Register(stack.stack_pointer),
        signature_mask: stack.signature_mask,
        max_iterations: stack.max_iterations,
    }
}
