//! Lines that say why the stacks of a profile, or the rest of them, aren't printed.
ghost use Rattle.std.specs.Prelude.{◌≡◌, ◌++◌};
ghost use Rattle.cfi_text.specs.WriterOutput.{Prints, Writes};
ghost use Rattle.cfi_stacks.specs.ProfileErrors.{perf_advice, perf_refusal, perf_words};
ghost use Rattle.cfi_stacks.specs.ProfileOutputs.{Ends, EndsBy, unknown_machine};

use crate::visitor::VisitError;
use cfi_perf::PerfError;
use cfi_text::error_words::parting;
use cfi_text::input_refusals::write_input_refusal;
use cfi_text::lines::{write_part, write_text};
use cfi_text::refusals::write_reason;
use cfi_text::style::Format;
use std::io;
use std::io::Write;

/// Prints that the profile, or a record, was refused, by the name of the error and in a sentence,
/// and returns the status 1.
pub(crate) fn write_perf_refusal<W: Write>(
    output: &mut W,
    format: Format,
    error: PerfError,
) -> io::Result<u8>
    ensures { Prints (perf_refusal format error)
        (W.contents output.old) (W.contents output.new) result }
{
    write_refused_line(output, format, error)?;
    Ok(1)
}

/// Writes the line.
fn write_refused_line<W: Write>(output: &mut W, format: Format, error: PerfError) -> io::Result<()>
    ensures { Writes (W.contents output.old) (W.contents output.new) result
        (perf_refusal format error).text }
{
    match format {
        Format::Text => write_perf_words(output, Format::Text, b"refused ", error, b"\n"),
        Format::Json => write_perf_words(output, Format::Json, b"{\"error\":\"", error, b"\"}\n"),
    }
}

/// Writes, between two texts, the name of the error and a sentence that says what it is and what to
/// do.
fn write_perf_words<W: Write>(
    output: &mut W,
    format: Format,
    before: &[u8],
    error: PerfError,
    after: &[u8],
) -> io::Result<()>
    ensures { Writes (W.contents output.old) (W.contents output.new) result
        (before.now ++ (perf_words format error ++ after.now)) }
{
    write_text(output, before)?;
    write_perf_reason(output, format, error)?;
    write_text(output, after)
}

/// Writes these words.
fn write_perf_reason<W: Write>(output: &mut W, format: Format, error: PerfError) -> io::Result<()>
    ensures { Writes (W.contents output.old) (W.contents output.new) result
        (perf_words format error) }
{
    let name = error.name();
    let parting = parting(format);
    let advice = perf_advice(error);
    write_part(output, format_args!("{name}{parting}{error}{advice}"))
}

/// Returns what to do about an error, after its sentence.
fn perf_advice(error: PerfError) -> &'static str
    ensures { result.now ≡ perf_advice error }
{
    match error {
        PerfError::AttributeSize(_) => "; record with perf of Linux 3.7 or later",
        PerfError::Directory => "; perf record without --threads writes one file",
        PerfError::MixedEvents => "; record each event by itself",
        PerfError::Compressed => "; perf record without -z doesn't compress them",
        _ => "",
    }
}

/// Prints why there are no more stacks, if there is a reason, and returns the status. Fails with
/// the error of the visitor.
pub(crate) fn write_end<W: Write>(
    output: &mut W,
    format: Format,
    visited: Result<(), VisitError<io::Error>>,
) -> io::Result<u8>
    ensures { Ends format visited (W.contents output.old) (W.contents output.new) result }
{
    match visited {
        Ok(()) => Ok(0),
        Err(error) => write_stopped(output, format, error),
    }
}

/// Prints why there are no more stacks, and returns the status.
fn write_stopped<W: Write>(
    output: &mut W,
    format: Format,
    error: VisitError<io::Error>,
) -> io::Result<u8>
    ensures { EndsBy format error (W.contents output.old) (W.contents output.new) result }
{
    match error {
        VisitError::Records(error) => write_perf_refusal(output, format, error),
        VisitError::Profile(error) => write_perf_refusal(output, format, error),
        VisitError::UnknownMachine => write_unknown_machine(output, format),
        VisitError::Input(error) => write_input_refusal(output, format, error),
        VisitError::Visitor(error) => Err(error),
    }
}

/// Prints that the registers of the profile's machine aren't known, and returns the status 1.
pub(crate) fn write_unknown_machine<W: Write>(output: &mut W, format: Format) -> io::Result<u8>
    ensures { Prints (unknown_machine format)
        (W.contents output.old) (W.contents output.new) result }
{
    write_reason(output, format, "unknown machine", 1)
}
