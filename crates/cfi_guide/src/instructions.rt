//! The instructions of an FDE.
use gimli_cfi::{
    BaseAddresses, CallFrameInstruction, EhFrame, Error, Reader, UnwindSection, scan_for_fde,
};

/// The length in bytes of all CFA expressions in the FDE of an address.
pub fn expression_bytes<R: Reader<Offset = usize>>(
    frame: &EhFrame<R>,
    bases: &BaseAddresses,
    address: u64,
) -> Result<usize, Error> {
    let fde = scan_for_fde(frame, bases, address)?;
    let mut length = 0usize;
    for instruction in fde.instructions(frame, bases) {
        if let CallFrameInstruction::DefCfaExpression { expression } = instruction? {
            length = length.wrapping_add(expression.get(frame)?.0.len());
        }
    }
    Ok(length)
}
