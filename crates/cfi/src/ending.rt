//! How a run ends: its output is written, and it has a status.
ghost use Rattle.std.specs.Prelude.{◌≡◌, IfOk};
ghost use Rattle.cfi.specs.Statuses.{IsStatusOf, IsStatusWritten};

use crate::answer::WRONG;
use cfi_commands::System;
use cfi_text::lines::write_text;
use cfi_text::style::Format;
use std::io;
use std::io::{ErrorKind, Write};

/// Writes what the output holds back, and returns the status: that of what was printed; 1 where
/// memory was refused, which prints the line `refused OutOfMemory`, in JSON an object; and 2 where
/// the output can't be written, which is said on standard error.
pub fn finish<S: System, W: Write>(
    system: &S,
    format: Format,
    printed: io::Result<u8>,
    output: &mut W,
) -> u8
    ensures { IsStatusOf printed result }
{
    match flushed(format, printed, output) {
        Ok(status) => status,
        Err(error) => {
            system.warn_unwritten(&error);
            WRONG
        }
    }
}

/// Writes what the output holds back, and before it that memory was refused where it was, and
/// returns the status.
fn flushed<W: Write>(format: Format, printed: io::Result<u8>, output: &mut W) -> io::Result<u8>
    ensures { IfOk result (IsStatusWritten printed) }
{
    let status = match printed {
        Ok(status) => status,
        Err(error) => match error.kind() {
            ErrorKind::OutOfMemory => write_out_of_memory(format, output)?,
            _ => return Err(error),
        },
    };
    output.flush()?;
    Ok(status)
}

/// Prints that memory was refused, for which none is needed, and returns the status 1.
fn write_out_of_memory<W: Write>(format: Format, output: &mut W) -> io::Result<u8>
    ensures { IfOk result (λ status. status ≡ 1) }
{
    match format {
        Format::Text => write_text(output, b"refused OutOfMemory\n")?,
        Format::Json => write_text(output, b"{\"error\":\"OutOfMemory\"}\n")?,
    }
    Ok(1)
}
