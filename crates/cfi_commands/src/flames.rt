//! What is printed of folded stacks that a reader gives: their flame graph, or their report.
use cfi_flame::function_objects::{put_not_folded, put_objects};
use cfi_flame::{Drawing, FoldedError, flame_of, plain_text, ranked_functions, report_of};
use cfi_text::input_refusals::write_input_refusal;
use cfi_text::lines::write_text;
use cfi_text::reading::{InputError, read_all};
use cfi_text::refusals::write_refused_name;
use cfi_text::style::Format;
use cfi_text::text::Text;
use std::alloc::{AllocError, Global};
use std::io;
use std::io::{Read, Write};

/// What is printed of folded stacks.
#[derive(Clone, Copy)]
pub enum Summary<'w> {
    /// Their flame graph, drawn so.
    FlameGraph(Drawing<'w>),
    /// Their functions: a table, or objects of JSON.
    Report(Format),
}

/// Why there is no summary.
#[derive(Clone, Copy)]
enum SummaryError {
    /// The input can't be read.
    Input(InputError),
    /// The stacks are none that can be summed up.
    Folded(FoldedError),
}

impl From<InputError> for SummaryError {
    fn from(error: InputError) -> SummaryError {
        SummaryError::Input(error)
    }
}

impl From<FoldedError> for SummaryError {
    fn from(error: FoldedError) -> SummaryError {
        SummaryError::Folded(error)
    }
}

impl From<AllocError> for SummaryError {
    fn from(_error: AllocError) -> SummaryError {
        SummaryError::Folded(FoldedError::OutOfMemory)
    }
}

/// Reads folded stacks to their end, and prints this summary of them.
///
/// Status 0: it is printed. Status 1: a line, counted from 1, isn't a stack, a space and a number,
/// which prints `refused NotFolded` and its number; the stacks have no samples or 2^64 and more,
/// which prints `refused NoSamples` or `refused TooManySamples`; or memory is refused, which prints
/// `refused OutOfMemory`. Status 2: the input can't be read, which prints `wrong input`. In JSON
/// each of these is an object. Fails where the output can't be written: then a beginning has been
/// written.
///
/// Allocates for the input, the stacks, the boxes or functions, and what is printed.
pub fn print_folded<R: Read, W: Write>(
    alloc: Global,
    summary: Summary,
    input: &mut R,
    output: &mut W,
) -> io::Result<u8> {
    let format = match summary {
        Summary::FlameGraph(_) => Format::Text,
        Summary::Report(format) => format,
    };
    match summary_of(alloc, summary, input) {
        Ok(made) => {
            write_text(output, made.as_slice())?;
            Ok(0)
        }
        Err(SummaryError::Input(error)) => write_input_refusal(output, format, error),
        Err(SummaryError::Folded(error)) => write_folded_refusal(alloc, output, format, error),
    }
}

/// Reads folded stacks to their end, and returns the text of this summary of them.
fn summary_of<R: Read>(
    alloc: Global,
    summary: Summary,
    input: &mut R,
) -> Result<Vec<u8>, SummaryError> {
    let folded = read_all(alloc, input)?;
    let made = match summary {
        Summary::FlameGraph(drawing) => flame_of(alloc, drawing, folded.as_slice())?,
        Summary::Report(Format::Text) => report_of(alloc, folded.as_slice())?,
        Summary::Report(Format::Json) => objects_of(alloc, folded.as_slice())?,
    };
    Ok(made)
}

/// Returns the functions of folded stacks as objects of JSON.
fn objects_of(alloc: Global, folded: &[u8]) -> Result<Vec<u8>, SummaryError> {
    let plainer = plain_text(alloc, folded)?;
    let ranking = ranked_functions(alloc, plainer.as_slice())?;
    let mut text = Text::new(alloc);
    put_objects(&mut text, ranking.all, ranking.functions.as_slice());
    let objects = text.into_bytes()?;
    Ok(objects)
}

/// Prints that the stacks were refused, by the name of the error, for a line that isn't folded with
/// its number, and returns the status 1.
fn write_folded_refusal<W: Write>(
    alloc: Global,
    output: &mut W,
    format: Format,
    error: FoldedError,
) -> io::Result<u8> {
    match error {
        FoldedError::OutOfMemory => write_refused_name(output, format, "OutOfMemory"),
        FoldedError::NotFolded(number) => write_not_folded(alloc, output, format, number),
        FoldedError::NoSamples => write_refused_name(output, format, "NoSamples"),
        FoldedError::TooManySamples => write_refused_name(output, format, "TooManySamples"),
    }
}

/// Prints that the line of this number isn't folded, and returns the status 1.
fn write_not_folded<W: Write>(
    alloc: Global,
    output: &mut W,
    format: Format,
    number: u64,
) -> io::Result<u8> {
    let mut text = Text::new(alloc);
    match format {
        Format::Text => {
            text.put(b"refused NotFolded ");
            text.number(number);
            text.put(b"\n");
        }
        Format::Json => put_not_folded(&mut text, number),
    }
    text.write_to(output)?;
    Ok(1)
}
