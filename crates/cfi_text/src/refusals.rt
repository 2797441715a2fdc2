//! The lines that say why there is no answer.
ghost use Rattle.std.specs.Prelude.{◌++◌, [], ◌∷◌};
ghost use Rattle.cfi_text.specs.Refusals.{error_in, reason_line, refusal_end, refusal_in};
ghost use Rattle.cfi_text.specs.Refusals.{refusal_line, refusal_saying, refusal_told};
ghost use Rattle.cfi_text.specs.ErrorWords.{error_words};
ghost use Rattle.cfi_text.specs.WriterOutput.{Writes, Prints};

use crate::error_words::ErrorWords;
use crate::lines::{write_between, write_part, write_text};
use crate::style::Format;
use cfi_read_core::Error;
use std::io;
use std::io::Write;

/// Prints `refused` and the name of the error, and returns the status 1.
pub fn write_refusal<W: Write>(output: &mut W, error: Error) -> io::Result<u8>
    ensures { Prints (refusal_line error) (W.contents output.old) (W.contents output.new) result }
{
    write_refused_name(output, Format::Text, error.name())
}

/// Prints why there is no answer, and returns the status.
pub fn write_reason<W: Write>(
    output: &mut W,
    format: Format,
    reason: &str,
    status: u8,
) -> io::Result<u8>
    ensures { Prints (reason_line format reason.now status)
        (W.contents output.old) (W.contents output.new) result }
{
    write_error(output, format, b"", reason)?;
    Ok(status)
}

/// Prints that something was refused, by the name of the error, and returns the status 1.
pub fn write_refused_name<W: Write>(output: &mut W, format: Format, name: &str) -> io::Result<u8>
    ensures { Prints (refusal_saying format name.now)
        (W.contents output.old) (W.contents output.new) result }
{
    write_error(output, format, b"refused ", name)?;
    Ok(1)
}

/// Writes the line that says why there is no answer: in text after another, in JSON as a member.
fn write_error<W: Write>(
    output: &mut W,
    format: Format,
    before: &[u8],
    reason: &str,
) -> io::Result<()>
    ensures { Writes (W.contents output.old) (W.contents output.new) result
        (error_in format before.now reason.now ++ 10 ∷ []) }
{
    let reason = reason.as_bytes();
    match format {
        Format::Text => write_between(output, before, reason, b"\n"),
        Format::Json => write_between(output, b"{\"error\":\"", reason, b"\"}\n"),
    }
}

/// Prints the name of the error, and returns the status 1.
pub fn write_refusal_in<W: Write>(output: &mut W, format: Format, error: Error) -> io::Result<u8>
    ensures { Prints (refusal_in format error)
        (W.contents output.old) (W.contents output.new) result }
{
    write_refused_name(output, format, error.name())
}

/// Prints the name of the error and what it says, and returns the status 1.
pub fn write_refusal_told<W: Write>(output: &mut W, format: Format, error: Error) -> io::Result<u8>
    ensures { Prints (refusal_told format error)
        (W.contents output.old) (W.contents output.new) result }
{
    write_refused(output, format, error)?;
    Ok(1)
}

/// Writes the line of an error, with its name and what it says.
pub fn write_refused<W: Write>(output: &mut W, format: Format, error: Error) -> io::Result<()>
    ensures { Writes (W.contents output.old) (W.contents output.new) result
        (refusal_told format error).text }
{
    match format {
        Format::Text => write_error_words(output, Format::Text, b"refused ", error, b"\n"),
        Format::Json => write_error_words(output, Format::Json, b"{\"error\":\"", error, b"\"}\n"),
    }
}

/// Prints the name of the error and what it says, after what was asked for, and returns the
/// status 1: in text as a line, in JSON as the end of an object that has begun.
pub fn write_refusal_end<W: Write>(output: &mut W, format: Format, error: Error) -> io::Result<u8>
    ensures { Prints (refusal_end format error)
        (W.contents output.old) (W.contents output.new) result }
{
    write_refusal_words_end(output, format, error)?;
    Ok(1)
}

/// Writes the end of the line.
fn write_refusal_words_end<W: Write>(output: &mut W, format: Format, error: Error) -> io::Result<()>
    ensures { Writes (W.contents output.old) (W.contents output.new) result
        (refusal_end format error).text }
{
    match format {
        Format::Text => write_error_words(output, Format::Text, b"refused ", error, b"\n"),
        Format::Json => write_error_words(output, Format::Json, b"\"error\":\"", error, b"\"}\n"),
    }
}

/// Writes, between two texts, the name of the error and what it says.
fn write_error_words<W: Write>(
    output: &mut W,
    format: Format,
    before: &[u8],
    error: Error,
    after: &[u8],
) -> io::Result<()>
    ensures { Writes (W.contents output.old) (W.contents output.new) result
        (before.now ++ (error_words format error ++ after.now)) }
{
    write_text(output, before)?;
    write_part(output, ErrorWords { format, error })?;
    write_text(output, after)
}
