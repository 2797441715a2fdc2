//! The line that says why an input wasn't read.
ghost use Rattle.cfi_text.specs.WriterOutput.{Prints};
ghost use Rattle.cfi_text.specs.InputRefusals.{input_refusal};

use crate::reading::InputError;
use crate::refusals::{write_reason, write_refusal_in};
use crate::style::Format;
use cfi_read_core::Error;
use std::io;
use std::io::Write;

/// Prints that an input wasn't read, and returns the status: `refused OutOfMemory` and 1 where
/// memory was refused, and else `wrong input` and 2.
pub fn write_input_refusal<W: Write>(
    output: &mut W,
    format: Format,
    error: InputError,
) -> io::Result<u8>
    ensures { Prints (input_refusal format error)
        (W.contents output.old) (W.contents output.new) result }
{
    match error {
        InputError::OutOfMemory => write_refusal_in(output, format, Error::OutOfMemory),
        _ => write_reason(output, format, "wrong input", 2),
    }
}
