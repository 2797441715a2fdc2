//! Lines that wait for others before they are written.
ghost use Rattle.std.specs.Prelude.{[]};
ghost use Rattle.cfi_text.specs.Refusals.{refusal_told};
ghost use Rattle.cfi_files.specs.Sending.{Sends};

use cfi_row_text::refusal_text::put_refusal_told;
use cfi_text::style::Format;
use cfi_text::text::Text;
use gimli_cfi::Error;
use std::io;
use std::io::Write;

/// How much text may wait for another line: as much as the output of `cfi` has room for, which then
/// passes it on without a copy.
const FULL: usize = 32_768;

/// Writes the lines that wait, if they are many.
#[inline]
pub(crate) fn write_if_full<W: Write>(output: &mut W, text: &mut Text) -> io::Result<()>
    ensures { Sends text.old text.new (W.contents output.old) (W.contents output.new) result [] }
{
    if text.as_bytes().len() > FULL {
        return text.write_to(output);
    }
    Ok(())
}

/// Adds the line of an error, with its name and what it says.
pub(crate) fn write_refused<W: Write>(
    output: &mut W,
    text: &mut Text,
    format: Format,
    error: Error,
) -> io::Result<()>
    ensures { Sends text.old text.new (W.contents output.old) (W.contents output.new) result
        (refusal_told format error).text }
{
    put_refusal_told(text, format, error);
    write_if_full(output, text)
}
