//! Prints the unwind row of an address.
//!
//! The words name the section, its byte order, the size of an address and the address; standard
//! input is the section in hexadecimal, and where a header of `.eh_frame` is asked for, the header
//! after the first line. `cfi_programs::run::run` says what is printed.
#![tactic(auto)]

ghost use Rattle.std.specs.Prelude.{ℕ, List, Option};
ghost use Rattle.std.specs.Process.{exit_status};
ghost use Rattle.cfi_programs.specs.RowsProgramOutput.{rows_tool};
ghost use Rattle.cfi_programs.specs.Runs.{PrintsRunOf};

use cfi_programs::run::run_process;
use std::alloc::AllocGlobal;
use std::io::{Read, Write};
use std::process::ExitCode;
use std::rt::Env;

fn main(rt: HostRuntime) -> ExitCode {
    run(&rt, &mut rt.stdin(), &mut rt.stdout())
}

/// Runs the program by the words of the process, and returns the status with which it ends.
fn run<P: Env + AllocGlobal, R: Read, W: Write>(rt: &P, input: &mut R, output: &mut W) -> ExitCode
    ensures { (words : Option (List (List ℕ))) × PrintsRunOf rows_tool words (R.remaining input.old)
        (W.contents output.old) (W.contents output.new) (exit_status result) }
{
    run_process(rt, input, output)
}
