//! Lines that say why a core file, or the rest of its notes, can't be read.
ghost use Rattle.std.specs.Prelude.{[]};
ghost use Rattle.cfi_text.specs.WriterOutput.{Prints};
ghost use Rattle.cfi_core_stacks.specs.CoreOutputs.{core_ended, core_refusal};

use cfi_cores::CoreError;
use cfi_text::refusals::write_refused_name;
use cfi_text::style::Format;
use std::io;
use std::io::Write;

/// Prints the error that ended the notes, if there is one, and returns the status.
pub(crate) fn write_end<W: Write>(
    output: &mut W,
    format: Format,
    error: Option<CoreError>,
) -> io::Result<u8>
    ensures { Prints (core_ended format [] error)
        (W.contents output.old) (W.contents output.new) result }
{
    match error {
        None => Ok(0),
        Some(error) => write_core_refusal(output, format, error),
    }
}

/// Prints the name of the error, and returns the status 1.
pub(crate) fn write_core_refusal<W: Write>(
    output: &mut W,
    format: Format,
    error: CoreError,
) -> io::Result<u8>
    ensures { Prints (core_refusal format error)
        (W.contents output.old) (W.contents output.new) result }
{
    write_refused_name(output, format, error.name())
}
