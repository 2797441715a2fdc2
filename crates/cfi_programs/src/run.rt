//! The run of the program `cfi_rows`, over any reader and writer.
ghost use Rattle.std.specs.Prelude.{◌≡◌, ◌⊎◌, ℕ, List, Option, IfSome, IsNone};
ghost use Rattle.std.specs.Process.{exit_status};
ghost use Rattle.cfi_programs.specs.Input.{bytes_of_sections};
ghost use Rattle.cfi_programs.specs.RowsCommandLine.{request_of};
ghost use Rattle.cfi_programs.specs.RowsProgramOutput.{rows_tool};
ghost use Rattle.cfi_programs.specs.Runs.{IsPut, PrintsAnswer, PrintsOwedBy, PrintsRunOf};
ghost use Rattle.cfi_programs.specs.Runs.{requested};
ghost use Rattle.cfi_text.specs.Lines.{Line};
ghost use Rattle.cfi_text.specs.Texts.{IsWhole, contents};
ghost use Rattle.cfi_text.specs.WordTexts.{texts_given};
ghost use Rattle.cfi_text.specs.WriterOutput.{Prints};

use crate::arguments::{texts_of, words_after_name};
use crate::input::{Sections, read_sections};
use crate::rows::Request;
use crate::rows::command_line::parse;
use crate::rows::row_lookup::put_answer;
use crate::wrong_lines::{write_wrong_hexadecimal, write_wrong_input, write_wrong_words};
use cfi_text::lines::write_text;
use cfi_text::reading::InputError;
use cfi_text::refusals::write_refusal;
use cfi_text::text::Text;
use gimli_cfi::Error;
use std::alloc::Global;
use std::io;
use std::io::{Read, Write};
use std::process::ExitCode;
use std::rt::Env;

/// Runs the program as a process: its words are those of the process. Returns the status with which
/// the process ends.
pub fn run_process<P: Env + AllocGlobal, R: Read, W: Write>(
    rt: &P,
    input: &mut R,
    output: &mut W,
) -> ExitCode
    ensures { (words : Option (List (List ℕ))) × PrintsRunOf rows_tool words (R.remaining input.old)
        (W.contents output.old) (W.contents output.new) (exit_status result) }
{
    let alloc = rt.alloc();
    let words = words_after_name(rt).ok();
    let texts = match &words {
        Some(words) => texts_of(alloc, words.as_slice()).ok(),
        None => None,
    };
    run_for(alloc, texts.as_deref(), input, output)
}

/// Runs the program, and returns its status as that of a process.
fn run_for<R: Read, W: Write>(
    alloc: Global,
    words: Option<&[&str]>,
    input: &mut R,
    output: &mut W,
) -> ExitCode
    ensures { PrintsRunOf rows_tool (texts_given words.entry) (R.remaining input.old)
        (W.contents output.old) (W.contents output.new) (exit_status result) }
{
    ExitCode::from(run(alloc, words, input, output))
}

/// Runs the program and returns its status. `words` are those after the program's name, `None`
/// where they can't be read.
///
/// Prints one line. Status 0: the row of the address. Status 1: `refused` and the name of the first
/// error, which may be `OutOfMemory`. Status 2: `wrong words`, `wrong hexadecimal` or `wrong
/// input`, or the output can't be written. The words are checked before the input is read, and the
/// input is read to its end before it is decoded.
///
/// Allocates for the input, for the decoded bytes, for the unwind and for the line of a row. Where
/// memory for one of these is refused the line is `refused OutOfMemory`, and nothing else.
pub fn run<R: Read, W: Write>(
    alloc: Global,
    words: Option<&[&str]>,
    input: &mut R,
    output: &mut W,
) -> u8
    ensures printed { PrintsRunOf rows_tool (texts_given words.entry) (R.remaining input.old)
        (W.contents output.old) (W.contents output.new) result }
    ensures unread { IsNone (requested rows_tool (texts_given words.entry)) →
        input.new ≡ input.old }
{
    let printed = print_line(alloc, requested(words), input, output);
    let flushed = output.flush();
    match (printed, flushed) {
        (Ok(status), Ok(())) => status,
        _ => 2,
    }
}

/// Returns what the words ask for; `None` for words that can't be read, and for wrong ones.
fn requested(words: Option<&[&str]>) -> Option<Request>
    ensures { result ≡ requested rows_tool (texts_given words.entry) }
{
    parse(words?)
}

/// Prints what the request is owed, and returns its status.
fn print_line<R: Read, W: Write>(
    alloc: Global,
    request: Option<Request>,
    input: &mut R,
    output: &mut W,
) -> io::Result<u8>
    ensures printed { PrintsOwedBy rows_tool request (R.remaining input.old)
        (W.contents output.old) (W.contents output.new) result }
    ensures unread { IsNone request → input.new ≡ input.old }
{
    let Some(request) = request else {
        return write_wrong_words(output);
    };
    match read_sections(alloc, request.words.header, input) {
        Ok(sections) => print_answer(alloc, &request, &sections, output),
        Err(InputError::Unreadable) => write_wrong_input(output),
        Err(InputError::NotHexadecimal) => write_wrong_hexadecimal(output),
        Err(InputError::OutOfMemory) => write_refusal(output, Error::OutOfMemory),
    }
}

/// Prints the answer to the request, and returns its status.
fn print_answer<W: Write>(
    alloc: Global,
    request: &Request,
    sections: &Sections,
    output: &mut W,
) -> io::Result<u8>
    ensures { PrintsAnswer rows_tool request.now (bytes_of_sections sections.now)
        (W.contents output.old) (W.contents output.new) result }
{
    let mut line = Text::new(alloc);
    let status = put_answer(&mut line, alloc, request, sections);
    print_text(output, line, status)
}

/// Prints the line with its status; where memory for a part of it was refused, that instead.
fn print_text<W: Write>(output: &mut W, line: Text, status: u8) -> io::Result<u8>
    ensures { (printed : Line)
        × Prints printed (W.contents output.old) (W.contents output.new) result
        × IsPut line status printed }
{
    match line.into_bytes() {
        Ok(bytes) => print_bytes(output, bytes.as_slice(), status),
        Err(_) => write_refusal(output, Error::OutOfMemory),
    }
}

/// Prints the bytes, and returns the status.
fn print_bytes<W: Write>(output: &mut W, bytes: &[u8], status: u8) -> io::Result<u8>
    ensures { Prints (record { text = bytes.now; status = status })
        (W.contents output.old) (W.contents output.new) result }
{
    write_text(output, bytes)?;
    Ok(status)
}
