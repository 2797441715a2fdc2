//! The values of expressions, and each error once.
use crate::comparison::expect;
use cfi_expression::{AddressSize, Frame, FrameError, Window, evaluate};
use cfi_guide::hexadecimal::bytes_of;
use gimli_cfi::{EndianSlice, Error, Expression, LittleEndian, ReaderOffsetId, Register};
use std::test::Fail;

/// The memory from 0x1000 on, and the registers: r3 is 0x1000, the others are not known.
const MEMORY: [u8; 8] = [0x88, 0x77, 0x66, 0x55, 0x44, 0x33, 0x22, 0x11];

const REGISTERS: [Option<u64>; 4] = [None, None, None, Some(0x1000)];

/// Expressions with the number that the stack holds at the beginning, and their values. An address
/// has eight bytes.
const VALUES: [(&str, Option<u64>, Result<u64, FrameError>); 30] = [
    // literals (DWARF 5 section 2.5.1.1), register values (2.5.1.2)
    ("4f", None, Ok(31)),
    ("03 8877665544332211", None, Ok(0x1122_3344_5566_7788)),
    ("09 80", None, Ok(0xffff_ffff_ffff_ff80)),
    ("0b 0080", None, Ok(0xffff_ffff_ffff_8000)),
    ("0d 00000080", None, Ok(0xffff_ffff_8000_0000)),
    ("11 7f", None, Ok(0xffff_ffff_ffff_ffff)),
    ("73 78", None, Ok(0xff8)),
    ("92 03 08", None, Ok(0x1008)),
    // the stack (2.5.1.3)
    ("31 32 33 17 1c", None, Ok(0xffff_ffff_ffff_ffff)),
    ("31 32 33 15 02 22", None, Ok(4)),
    ("73 00 06", None, Ok(0x1122_3344_5566_7788)),
    ("73 02 94 02", None, Ok(0x5566)),
    ("", Some(7), Ok(7)),
    ("23 80 01 12 22", Some(7), Ok(270)),
    // arithmetic (2.5.1.4)
    ("09 f9 32 1b", None, Ok(0xffff_ffff_ffff_fffd)),
    ("37 34 1d 31 24", None, Ok(6)),
    ("09 f0 32 26 1f", None, Ok(4)),
    ("09 f0 20 19", None, Ok(15)),
    // control flow (2.5.1.5): 5 * 4 * 3 * 2 * 1
    ("31 35 16 14 1e 16 31 1c 12 28 f6 ff 13", None, Ok(120)),
    ("09 ff 31 2d 2f 01 00 96", None, Ok(1)),
    // each error
    (
        "0a 01",
        None,
        Err(FrameError::Unreadable(Error::UnexpectedEof(ReaderOffsetId(1)))),
    ),
    ("91 00", None, Err(FrameError::UnsupportedOperation(0x91))),
    ("73 00 94 03", None, Err(FrameError::UnsupportedSize(3))),
    ("70 00", None, Err(FrameError::UnknownRegister(Register(0)))),
    ("73 01 06", None, Err(FrameError::UnreadableMemory(0x1001))),
    ("31 22", None, Err(FrameError::NotEnoughStackItems)),
    ("30 12 2f fc ff", None, Err(FrameError::StackFull)),
    ("31 30 1b", None, Err(FrameError::DivisionByZero)),
    ("2f fc ff", None, Err(FrameError::BadBranchTarget(-4))),
    ("2f fd ff", None, Err(FrameError::TooManyIterations)),
];

#[test]
fn values(rt: HostRuntime) -> Result<(), Fail> {
    let memory = Window {
        base: 0x1000,
        bytes: EndianSlice::new(&MEMORY, LittleEndian),
    };
    let frame = Frame {
        registers: &REGISTERS,
        memory: &memory,
        address_size: AddressSize::new(8),
    };
    for (text, initial, value) in &VALUES {
        let bytes = bytes_of(rt.alloc(), text)?;
        let expression = Expression(EndianSlice::new(bytes.as_slice(), LittleEndian));
        let found = evaluate(&expression, &frame, *initial, 100);
        expect(&rt, *text, &found, value);
    }
    Ok(())
}
