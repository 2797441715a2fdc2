//! Instructions by their bytes: one or two of each way to read operands.
use crate::comparison::expect;
use crate::readers::{OfBytes, Slice};
use cfi_parts::instruction::{CallFrameInstruction, UnwindExpression};
use cfi_parts::pointer::BaseAddresses;
use cfi_read_core::{DwCfa, Error, Reader, ReaderOffsetId, Register};
use cfi_unwind::unwind_section::{DebugFrame, scan_for_fde};
use std::process::Abort;

/// `.debug_frame`: a CIE, and 14 FDEs of it, of 16 addresses each from 0x1000 on, with one
/// instruction each.
const SECTION: [u8; 408] = [
    0x10, 0, 0, 0, 0xff, 0xff, 0xff, 0xff, 4, 0, 8, 0, 1, 0x78, 0x10, 0x0c, 7, 8, 0x90, 1, 0x15, 0,
    0, 0, 0, 0, 0, 0, 0, 0x10, 0, 0, 0, 0, 0, 0, 0x10, 0, 0, 0, 0, 0, 0, 0, 0x6a, 0x17, 0, 0, 0, 0,
    0, 0, 0, 0x10, 0x10, 0, 0, 0, 0, 0, 0, 0x10, 0, 0, 0, 0, 0, 0, 0, 0x83, 0xcd, 0x0f, 0x15, 0, 0,
    0, 0, 0, 0, 0, 0x20, 0x10, 0, 0, 0, 0, 0, 0, 0x10, 0, 0, 0, 0, 0, 0, 0, 0xc3, 0x16, 0, 0, 0, 0,
    0, 0, 0, 0x30, 0x10, 0, 0, 0, 0, 0, 0, 0x10, 0, 0, 0, 0, 0, 0, 0, 2, 8, 0x17, 0, 0, 0, 0, 0, 0,
    0, 0x40, 0x10, 0, 0, 0, 0, 0, 0, 0x10, 0, 0, 0, 0, 0, 0, 0, 3, 0xf4, 1, 0x19, 0, 0, 0, 0, 0, 0,
    0, 0x50, 0x10, 0, 0, 0, 0, 0, 0, 0x10, 0, 0, 0, 0, 0, 0, 0, 4, 0, 0, 0x10, 0, 0x17, 0, 0, 0, 0,
    0, 0, 0, 0x60, 0x10, 0, 0, 0, 0, 0, 0, 0x10, 0, 0, 0, 0, 0, 0, 0, 9, 7, 8, 0x19, 0, 0, 0, 0, 0,
    0, 0, 0x70, 0x10, 0, 0, 0, 0, 0, 0, 0x10, 0, 0, 0, 0, 0, 0, 0, 0x12, 2, 0xf1, 0xb1, 0x7f, 0x17,
    0, 0, 0, 0, 0, 0, 0, 0x80, 0x10, 0, 0, 0, 0, 0, 0, 0x10, 0, 0, 0, 0, 0, 0, 0, 0x13, 0x85, 0x7f,
    0x17, 0, 0, 0, 0, 0, 0, 0, 0x90, 0x10, 0, 0, 0, 0, 0, 0, 0x10, 0, 0, 0, 0, 0, 0, 0, 0x11, 7,
    0x5f, 0x20, 0, 0, 0, 0, 0, 0, 0, 0xa0, 0x10, 0, 0, 0, 0, 0, 0, 0x10, 0, 0, 0, 0, 0, 0, 0, 0x0f,
    0x0a, 0x0a, 9, 8, 7, 6, 5, 4, 3, 2, 1, 0x1d, 0, 0, 0, 0, 0, 0, 0, 0xb0, 0x10, 0, 0, 0, 0, 0, 0,
    0x10, 0, 0, 0, 0, 0, 0, 0, 0x16, 0x32, 6, 2, 2, 1, 1, 5, 5, 0x15, 0, 0, 0, 0, 0, 0, 0, 0xc0,
    0x10, 0, 0, 0, 0, 0, 0, 0x10, 0, 0, 0, 0, 0, 0, 0, 0x3f, 0x15, 0, 0, 0, 0, 0, 0, 0, 0xd0, 0x10,
    0, 0, 0, 0, 0, 0, 0x10, 0, 0, 0, 0, 0, 0, 0, 2,
];

type Instruction = Result<Option<CallFrameInstruction<usize>>, Error>;

/// The instruction of an FDE, and what is returned after it.
type Instructions = [Instruction; 2];

fn instructions_of<R: Reader<Offset = usize>>(
    section: &DebugFrame<R>,
    address: u64,
) -> Result<Instructions, Error> {
    let bases = BaseAddresses::default();
    let fde = scan_for_fde(section, &bases, address)?;
    let mut instructions = fde.instructions(section, &bases);
    Ok([instructions.next(), instructions.next()])
}

/// The first address of each FDE that has one, and its instruction.
const INSTRUCTIONS: [(u64, CallFrameInstruction<usize>); 12] = [
    (0x1000, CallFrameInstruction::AdvanceLoc { delta: 42 }),
    (
        0x1010,
        CallFrameInstruction::Offset {
            register: Register(3),
            factored_offset: 1997,
        },
    ),
    (
        0x1020,
        CallFrameInstruction::Restore {
            register: Register(3),
        },
    ),
    (0x1030, CallFrameInstruction::AdvanceLoc { delta: 8 }),
    (0x1040, CallFrameInstruction::AdvanceLoc { delta: 500 }),
    (0x1050, CallFrameInstruction::AdvanceLoc { delta: 1048576 }),
    (
        0x1060,
        CallFrameInstruction::Register {
            dest_register: Register(7),
            src_register: Register(8),
        },
    ),
    (
        0x1070,
        CallFrameInstruction::DefCfaSf {
            register: Register(2),
            factored_offset: -9999,
        },
    ),
    (
        0x1080,
        CallFrameInstruction::DefCfaOffsetSf {
            factored_offset: -123,
        },
    ),
    (
        0x1090,
        CallFrameInstruction::OffsetExtendedSf {
            register: Register(7),
            factored_offset: -33,
        },
    ),
    (
        0x10a0,
        CallFrameInstruction::DefCfaExpression {
            expression: UnwindExpression {
                offset: 315,
                length: 10,
            },
        },
    ),
    (
        0x10b0,
        CallFrameInstruction::ValExpression {
            register: Register(50),
            expression: UnwindExpression {
                offset: 352,
                length: 6,
            },
        },
    ),
];

/// The others: an opcode that no one has defined, and a delta that is cut off at the end.
const ERRORS: [(u64, Error); 2] = [
    (0x10c0, Error::UnknownCallFrameInstruction(DwCfa(0x3f))),
    (0x10d0, Error::UnexpectedEof(ReaderOffsetId(408))),
];

fn check<R: Reader<Offset = usize>>(rt: &impl Abort, reader: R) {
    let section = DebugFrame::from(reader);
    for (address, instruction) in &INSTRUCTIONS {
        let found = instructions_of(&section, *address);
        expect(
            rt,
            *address,
            &found,
            &Ok([Ok(Some(*instruction)), Ok(None)]),
        );
    }
    for (address, error) in &ERRORS {
        let found = instructions_of(&section, *address);
        expect(rt, *address, &found, &Ok([Err(*error), Ok(None)]));
    }
}

#[test]
fn instructions_by_their_bytes(rt: HostRuntime) {
    check(&rt, Slice::of(&SECTION));
}
