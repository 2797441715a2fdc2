//! Prints and checks the call frames of ELF files; prints the stacks of profiles and core files,
//! and the flame graphs and reports of folded stacks.
//!
//! `values` are those of a command's options, as clap matched them; a `task` is what they ask for,
//! `answer` prints its result, and `checks` those of several files. `ending` writes the output and
//! says the status.
#![tactic(auto)]

mod answer;
mod checks;
mod ending;
mod task;
mod values;

use answer::{WRONG, print_answer};
use cfi_commands::short_flags::short_flags;
use cfi_commands::{Host, System, matches_of};
use cfi_text::style::Format;
use clap::error::ErrorKind;
use ending::finish;
use std::alloc::{AllocError, AllocGlobal};
use std::io;
use std::io::{BufWriter, IsTerminal, Write};
use std::process::ExitCode;
use task::{format_of, task_in};

/// How many bytes of the output are held back before they are written.
const OUTPUT: usize = 32_768;

fn main(rt: HostRuntime) -> ExitCode {
    let has_reader = rt.stderr().is_terminal() && !rt.stdout().is_terminal();
    let host = Host::new(&rt, has_reader);
    let status = match BufWriter::with_capacity(rt.alloc(), OUTPUT, rt.stdout()) {
        Ok(mut output) => run(&host, &mut output),
        Err(error) => finish(&host, Format::Text, Err(error), &mut rt.stdout()),
    };
    ExitCode::from(status)
}

/// Runs the program by the words of the process, and returns the status with which it ends.
fn run<S: System, W: Write>(system: &S, output: &mut W) -> u8 {
    match system.words() {
        Ok(Some(words)) => run_words(system, words.as_slice(), output),
        Ok(None) => WRONG,
        Err(error) => finish(system, Format::Text, Err(io::Error::from(error)), output),
    }
}

/// Runs the program by these words, of which the first is its name, and returns the status.
fn run_words<S: System, W: Write>(system: &S, words: &[String], output: &mut W) -> u8 {
    let words = match short_flags(system.alloc(), words) {
        Ok(words) => words,
        Err(error) => return finish(system, Format::Text, Err(io::Error::from(error)), output),
    };
    match matches_of(system.alloc(), words.as_slice()) {
        Ok(matches) => match task_in(&matches) {
            Ok(task) => {
                let printed = print_answer(system, task, output);
                finish(system, format_of(&task), printed, output)
            }
            Err(error) => {
                system.warn_usage(error);
                WRONG
            }
        },
        Err(error) => finish(system, Format::Text, explain(system, &error), output),
    }
}

/// Prints clap's text, help on standard output and a mistake on standard error, and returns the
/// status. Fails where it can't be written, and with `OutOfMemory` where clap was refused memory.
fn explain<S: System>(system: &S, error: &clap::Error) -> io::Result<u8> {
    if error.kind() == ErrorKind::OutOfMemory {
        return Err(io::Error::from(AllocError));
    }
    system.print_error(error)?;
    Ok(if error.use_stderr() { WRONG } else { 0 })
}
