//! What gimli_cfi returns, as numbers, for the fuzz target in `fuzz/`, which compares it with what
//! gimli returns.
//!
//! Each export goes over a section, or over a header with its section, and writes the answers one
//! after the other to `room`. It returns how many numbers they take: where there is less room, the
//! rest is not written. `answers` of `cfi_answers` tells what the numbers are.

use cfi_answers::{Asked, AskedFrame, of_expression, of_header, of_section};
use std::alloc::Global;

/// The answers of a section.
///
/// `asked.what` is 0 for the entries, each FDE with its CIE, 1 for all rows of all FDEs by
/// `next_row`, 2 for the row of each of the addresses by a scan.
#[unsafe(no_mangle)]
pub extern "C" fn cfi_answers_section(
    alloc: Global,
    asked: &Asked,
    section: &[u8],
    addresses: &[u64],
    room: &mut [u64],
) -> usize {
    of_section(alloc, asked, section, addresses, room)
}

/// The answers of a header, and of its section.
///
/// `asked.what` is 3 for the rows of the table by `next` and `nth`, 4 for the pointer that a lookup
/// of each number returns and its offset, 5 for the row of each number by the header, 6 for
/// `check_table`, 7 for the row of each number by a `FaithfulTable`. For 3 an odd number is a call
/// of `next`, and another one a call of `nth` with half of it.
#[unsafe(no_mangle)]
pub extern "C" fn cfi_answers_header(
    alloc: Global,
    asked: &Asked,
    section: &[u8],
    header: &[u8],
    numbers: &[u64],
    room: &mut [u64],
) -> usize {
    of_header(alloc, asked, section, header, numbers, room)
}

/// The value of an expression in a frame, or the error.
///
/// `registers` has the values of the registers from 0 on, and `memory` the bytes from
/// `asked.base` on.
#[unsafe(no_mangle)]
pub extern "C" fn cfi_answers_expression(
    asked: &AskedFrame,
    expression: &[u8],
    registers: &[u64],
    memory: &[u8],
    room: &mut [u64],
) -> usize {
    of_expression(asked, expression, registers, memory, room)
}
