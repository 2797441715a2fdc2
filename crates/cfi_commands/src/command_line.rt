//! The command line of the program, as passed to clap.
use crate::options::{
    address, addresses, elf_file, elf_files, flag, folded_file, format_option, number_option,
    one_file, profile, raw_flag, raw_frames_flag, text_option,
};
use clap::{Arg, ArgMatches, Error};
use std::alloc::{AllocError, Global};

/// The version of this repository, as the file `VERSION` has it.
const VERSION: &str = "0.1.0";

/// Returns clap's matches of the words, of which the first is the program's name.
///
/// An error where they ask for help, for the version or for nothing that the program does, or where
/// memory is refused. The text of an error, help among them, is clap's.
pub fn matches_of<'w>(alloc: Global, words: &'w [&'w str]) -> Result<ArgMatches<'w>, Error> {
    let matches = cfi(alloc)?.try_get_matches_from(words)?;
    Ok(matches)
}

/// Returns the command line of the program.
fn cfi<'w>(alloc: Global) -> Result<clap::Command<'w>, AllocError> {
    let command = with_command(top(alloc), row(alloc));
    let command = with_command(command, rows(alloc));
    let command = with_command(command, dump(alloc));
    let command = with_command(command, check(alloc));
    let command = with_command(command, table(alloc));
    let command = with_command(command, unwind(alloc));
    let command = with_command(command, stack(alloc));
    let command = with_command(command, flame(alloc));
    let command = with_command(command, report(alloc));
    with_command(command, fold(alloc))
}

/// Adds a command below another, if memory was refused for neither.
fn with_command<'w>(
    command: Result<clap::Command<'w>, AllocError>,
    below: Result<clap::Command<'w>, AllocError>,
) -> Result<clap::Command<'w>, AllocError> {
    command?.subcommand(below?)
}

/// Returns the program's own command, without those below it.
fn top<'w>(alloc: Global) -> Result<clap::Command<'w>, AllocError> {
    let command = clap::Command::new(alloc, "cfi")
        .version(VERSION)
        .about("Prints and checks call frames of ELF files; prints stacks of profiles and cores")
        .arg_required_else_help(true)
        .subcommand_required(true);
    command.bin_name("cfi")
}

/// Returns a command with these arguments.
fn command_with<'w>(
    alloc: Global,
    name: &'w str,
    about: &'w str,
    args: Vec<Arg<'w>>,
) -> Result<clap::Command<'w>, AllocError> {
    clap::Command::new(alloc, name).about(about).args(args)
}

/// Returns the command `row`.
fn row<'w>(alloc: Global) -> Result<clap::Command<'w>, AllocError> {
    let args = vec![in alloc;
        raw_flag(alloc),
        format_option(alloc),
        elf_file(alloc),
        addresses(alloc),
    ]?;
    command_with(
        alloc,
        "row",
        "Prints the row of each address: its range, the CFA and the rule of each register",
        args,
    )
}

/// Returns the command `rows`.
fn rows<'w>(alloc: Global) -> Result<clap::Command<'w>, AllocError> {
    let args = vec![in alloc;
        raw_flag(alloc),
        format_option(alloc),
        elf_file(alloc),
        address(alloc),
    ]?;
    command_with(
        alloc,
        "rows",
        "Prints the rows of every function, or of the one at an address",
        args,
    )
}

/// Returns the command `dump`.
fn dump<'w>(alloc: Global) -> Result<clap::Command<'w>, AllocError> {
    let args = vec![in alloc; raw_flag(alloc), elf_file(alloc)]?;
    command_with(
        alloc,
        "dump",
        "Prints every entry, with its instructions' rows",
        args,
    )
}

/// Returns the command `check`.
fn check<'w>(alloc: Global) -> Result<clap::Command<'w>, AllocError> {
    let args = vec![in alloc;
        flag(
            alloc,
            "quiet",
            "Prints no line for a file whose table is faithful",
        ),
        format_option(alloc),
        flag(
            alloc,
            "recursive",
            "Checks the files in folders and below, follows no links there; -r is short for it",
        ),
        text_option(
            alloc,
            "files0-from",
            "LIST",
            "Checks the files that LIST names, each name ended by a zero byte; - is standard input",
        ),
        elf_files(alloc),
    ]?;
    command_with(
        alloc,
        "check",
        "Checks that the table of .eh_frame_hdr lists the entries of .eh_frame faithfully",
        args,
    )
}

/// Returns the command `table`.
fn table<'w>(alloc: Global) -> Result<clap::Command<'w>, AllocError> {
    let args = vec![in alloc; raw_flag(alloc), elf_file(alloc)]?;
    command_with(
        alloc,
        "table",
        "Prints the compiled table: the rows of all addresses, in their order",
        args,
    )
}

/// Returns the command `unwind`.
fn unwind<'w>(alloc: Global) -> Result<clap::Command<'w>, AllocError> {
    let command = clap::Command::new(alloc, "unwind")
        .about("Prints the stack of each sample of a profile: perf record --call-graph dwarf")
        .arg(raw_frames_flag(alloc))?
        .arg(format_option(alloc))?;
    let command = with_samples(alloc, command)?;
    with_folders(alloc, command)?.arg(profile(alloc))
}

/// Returns the command `stack`.
fn stack<'w>(alloc: Global) -> Result<clap::Command<'w>, AllocError> {
    let command = clap::Command::new(alloc, "stack")
        .about("Prints the stack of each thread of a core file")
        .arg(raw_frames_flag(alloc))?
        .arg(format_option(alloc))?
        .arg(number_option(alloc, "thread", "Prints the stack of this thread alone"))?;
    with_folders(alloc, command)?.arg(one_file(
        alloc,
        "A core file: of a process that ended by a signal, or of gcore; - is standard input",
    ))
}

/// Returns the command `flame`.
fn flame<'w>(alloc: Global) -> Result<clap::Command<'w>, AllocError> {
    let args = vec![in alloc;
        text_option(alloc, "title", "TEXT", "What stands above the graph"),
        flag(
            alloc,
            "reverse",
            "Reads stacks from the innermost function out: above a function lie its callers",
        ),
        text_option(
            alloc,
            "min-width",
            "PIXELS",
            "Leaves out narrower boxes, as if the graph had 1,200 pixels; decimals may follow",
        ),
        folded_file(alloc),
    ]?;
    command_with(
        alloc,
        "flame",
        "Prints the flame graph of folded stacks, an SVG",
        args,
    )
}

/// Returns the command `report`.
fn report<'w>(alloc: Global) -> Result<clap::Command<'w>, AllocError> {
    let args = vec![in alloc; format_option(alloc), folded_file(alloc)]?;
    command_with(
        alloc,
        "report",
        "Prints the functions of folded stacks, by their samples",
        args,
    )
}

/// Returns the command `fold`.
fn fold<'w>(alloc: Global) -> Result<clap::Command<'w>, AllocError> {
    let command = clap::Command::new(alloc, "fold")
        .about("Prints the stacks of a profile, folded and counted, for flame and report")
        .arg(flag(
            alloc,
            "period",
            "Counts the periods of the samples, and not the samples",
        ))?;
    let command = with_samples(alloc, command)?;
    with_folders(alloc, command)?.arg(profile(alloc))
}

/// Adds the options that say which samples are asked for.
fn with_samples<'w>(
    alloc: Global,
    command: clap::Command<'w>,
) -> Result<clap::Command<'w>, AllocError> {
    command
        .arg(text_option(
            alloc,
            "comm",
            "NAME",
            "Takes the samples of the threads with this name alone",
        ))?
        .arg(number_option(alloc, "pid", "Takes the samples of this process alone"))?
        .arg(number_option(alloc, "tid", "Takes the samples of this thread alone"))?
        .arg(text_option(
            alloc,
            "event",
            "NAME",
            "Takes the samples of the event with this name alone",
        ))?
        .arg(text_option(
            alloc,
            "time",
            "FROM,UNTIL",
            "Takes the samples between two times alone, in seconds; either may be left out",
        ))?
        .arg(number_option(alloc, "limit", "Stops after N samples"))
}

/// Adds the options for the folders in which files are.
fn with_folders<'w>(
    alloc: Global,
    command: clap::Command<'w>,
) -> Result<clap::Command<'w>, AllocError> {
    command
        .arg(text_option(
            alloc,
            "symfs",
            "DIR",
            "Looks for files below this folder, in the place of the root of the system",
        ))?
        .arg(text_option(
            alloc,
            "debug-dir",
            "DIR",
            "Looks for debug files in this folder, in the place of /usr/lib/debug",
        ))
}
