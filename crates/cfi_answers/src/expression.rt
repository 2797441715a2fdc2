//! The value of an expression in a frame.
use crate::answers::Answers;
use cfi_expression::{AddressSize, Frame, FrameError, Window, evaluate};
use gimli_cfi::{EndianSlice, Expression, RunTimeEndian};

/// How many registers a frame has.
const REGISTERS: usize = 64;

/// The frame in which an expression is evaluated.
#[repr(C)]
pub struct AskedFrame {
    /// The first entry of the stack, where there is one.
    pub initial: u64,
    /// Its bits, from the lowest on, tell which registers are known.
    pub known: u64,
    /// The address of the first byte of memory.
    pub base: u64,
    /// How many operations are done at most.
    pub max_iterations: u32,
    /// 1, 2 or 4, otherwise 8.
    pub address_size: u8,
    pub has_initial: bool,
    pub big_endian: bool,
}

/// The value of the expression, or the error, and how many numbers it takes.
///
/// `values` has the values of the registers from 0 on, and `memory` the bytes from `asked.base` on.
pub fn of_expression(
    asked: &AskedFrame,
    expression: &[u8],
    values: &[u64],
    memory: &[u8],
    room: &mut [u64],
) -> usize {
    let mut answers = Answers::new(room);
    put_value(asked, expression, values, memory, &mut answers);
    answers.count()
}

fn put_value(
    asked: &AskedFrame,
    expression: &[u8],
    values: &[u64],
    memory: &[u8],
    answers: &mut Answers<'_>,
) {
    let endian = if asked.big_endian {
        RunTimeEndian::Big
    } else {
        RunTimeEndian::Little
    };
    let registers = registers_of(asked.known, values);
    let memory = Window {
        base: asked.base,
        bytes: EndianSlice::new(memory, endian),
    };
    let frame = Frame {
        registers: &registers,
        memory: &memory,
        address_size: size_of(asked),
    };
    let initial = if asked.has_initial {
        Some(asked.initial)
    } else {
        None
    };
    let expression = Expression(EndianSlice::new(expression, endian));
    match evaluate(&expression, &frame, initial, asked.max_iterations) {
        Ok(value) => answers.put_number(value),
        Err(error) => put_frame_error(error, answers),
    }
}

/// The registers, those alone whose bit is set and that have a value.
fn registers_of(known: u64, values: &[u64]) -> [Option<u64>; REGISTERS] {
    let mut registers = [None; REGISTERS];
    let mut left = known;
    for register in 0..REGISTERS {
        if left & 1 == 1 && register < values.len() {
            registers[register] = Some(values[register]);
        }
        left >>= 1;
    }
    registers
}

/// The size of an address.
fn size_of(asked: &AskedFrame) -> AddressSize {
    match asked.address_size {
        1 => AddressSize::new(1),
        2 => AddressSize::new(2),
        4 => AddressSize::new(4),
        _ => AddressSize::new(8),
    }
}

/// The number of an error, from 1 on in the order of the variants, and the value that it carries;
/// behind an error of a read that error.
fn put_frame_error(error: FrameError, answers: &mut Answers<'_>) {
    match error {
        FrameError::NoRow(read) => {
            answers.put_frame_error(1, 0);
            answers.put_error(read);
        }
        FrameError::Unreadable(read) => {
            answers.put_frame_error(2, 0);
            answers.put_error(read);
        }
        FrameError::UnsupportedOperation(opcode) => answers.put_frame_error(3, u64::from(opcode)),
        FrameError::UnsupportedSize(size) => answers.put_frame_error(4, u64::from(size)),
        FrameError::UnknownRegister(register) => answers.put_frame_error(5, u64::from(register.0)),
        FrameError::UnreadableMemory(address) => answers.put_frame_error(6, address),
        FrameError::NotEnoughStackItems => answers.put_frame_error(7, 0),
        FrameError::StackFull => answers.put_frame_error(8, 0),
        FrameError::DivisionByZero => answers.put_frame_error(9, 0),
        FrameError::BadBranchTarget(bytes) => {
            answers.put_frame_error(10, i64::from(bytes).cast_unsigned());
        }
        FrameError::TooManyIterations => answers.put_frame_error(11, 0),
        FrameError::ArchitecturalRule => answers.put_frame_error(12, 0),
    }
}
