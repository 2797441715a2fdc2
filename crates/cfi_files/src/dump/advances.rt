//! The address to which call frame instructions move.

use cfi_read_core::address::{AddressSize, ReaderAddress};
use gimli_cfi::CallFrameInstruction as Instruction;

/// Returns the address after an instruction, by the code alignment factor and the size of an
/// address; `None` if there is none before it, or none that has room.
pub(crate) fn address_after(
    factor: u64,
    size: AddressSize,
    at: Option<u64>,
    instruction: Instruction<usize>,
) -> Option<u64> {
    let Some(from) = at else {
        return None;
    };
    match instruction {
        Instruction::SetLoc { address } => Some(address),
        Instruction::AdvanceLoc { delta } => address_advanced(factor, size, from, delta),
        _ => Some(from),
    }
}

/// Returns the address after an advance.
fn address_advanced(factor: u64, size: AddressSize, address: u64, delta: u32) -> Option<u64> {
    let distance = u64::from(delta).wrapping_mul(factor);
    address.add_sized(distance, size.bytes()).ok()
}
