//! A step with the function of its frame.
use crate::comparison::expect;
use crate::frames::{SECTION, module_at, section_of};
use cfi_expression::{AddressSize, Frame, Window};
use cfi_guide::hexadecimal::bytes_of;
use cfi_step::{Abi, Caller, Function, FunctionStep, step_in_function};
use gimli_cfi::{BaseAddresses, EndianSlice, LittleEndian, Pointer, Register, UnwindContext};
use std::alloc::Global;
use std::test::Fail;

/// A CIE with a personality, whose pointer is at 0x7700, and LSDAs (`zPL`), CFA r7+8, r16 saved at
/// CFA-8; and the FDE of 0x1000 to 0x1010, with the LSDA 0x8800, which has pushed 48 bytes.
const WITH_LSDA: &str = "1c000000 00000000 01 7a504c00 01 78 10 06 83 00770000 03 \
     0c0708 9001 0000 0000 \
     20000000 24000000 0010000000000000 1000000000000000 04 00880000 2e30 00 00000000";

/// The step from 0x1001 in a section, with r7 at 0x7000 and the return address there.
fn stepped(alloc: Global, text: &str) -> Result<(FunctionStep, Option<u64>), Fail> {
    let bytes = bytes_of(alloc, text)?;
    let stack = bytes_of(alloc, "0820000000000000 0920000000000000")?;
    let module = module_at(0, 0, section_of(bytes.as_slice()), BaseAddresses::default());
    let memory = Window {
        base: 0x7000,
        bytes: EndianSlice::new(stack.as_slice(), LittleEndian),
    };
    let mut registers = [None; 17];
    registers[7] = Some(0x7000);
    let frame = Frame {
        registers: &registers,
        memory: &memory,
        address_size: AddressSize::new(8),
    };
    let abi = Abi {
        stack_pointer: Register(7),
        signature_mask: 0,
        max_iterations: 100,
    };
    let mut caller = [None; 17];
    let mut ctx = UnwindContext::<usize>::new(alloc)?;
    let step = step_in_function(&module, &mut ctx, 0x1001, &abi, &frame, &mut caller);
    Ok((step, caller[7]))
}

const FUNCTION: Function = Function {
    start: 0x1000,
    end: 0x1010,
    lsda: Some(Pointer::Direct(0x8800)),
    personality: Some(Pointer::Indirect(0x7700)),
    return_address: Register(16),
    is_signal_trampoline: false,
    offset: 0x20,
};

const CALLER: Caller = Caller {
    cfa: 0x7008,
    pc: Some(0x2008),
    is_interrupted: false,
    args_size: 0x30,
};

#[test]
fn a_function_with_an_lsda(rt: HostRuntime) -> Result<(), Fail> {
    let (step, stack_pointer) = stepped(rt.alloc(), WITH_LSDA)?;
    let found = (step.function, step.caller, stack_pointer);
    expect(
        &rt,
        "an LSDA",
        &found,
        &(Some(FUNCTION), Ok(CALLER), Some(0x7008)),
    );
    Ok(())
}
