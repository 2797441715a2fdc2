//! What a command is to do, by the values of its options and arguments.
ghost use Rattle.std.specs.Prelude.{◌≡◌};
ghost use Rattle.cfi.specs.Listings.{listing_for};

use crate::values::{
    choice_in, file_in, folders_in, format_in, has_flag, number_for, value_for, values_for,
};
use cfi_commands::{ANY_TIME, FileArguments, Folders, UsageError, billionths_of, times_of};
use cfi_core_stacks::ThreadListing;
use cfi_files::{CheckStyle, Printed, Request};
use cfi_flame::Drawing;
use cfi_stacks::{Choice, Listing};
use cfi_text::style::Format;
use clap::ArgMatches;

/// What a command is to do. A file `-` is standard input.
#[derive(Clone, Copy)]
pub enum Task<'c> {
    /// Print this of a file.
    Print(&'c str, Request<'c>),
    /// Check these files, if asked those in folders too, and print what was found in a style.
    Check(FileArguments<'c>, bool, CheckStyle),
    /// Print the stacks of these samples of this profile so.
    Unwind(&'c str, Listing, Choice<'c>, Folders<'c>),
    /// Print the stacks of threads of this core file so.
    Stack(&'c str, ThreadListing, Folders<'c>),
    /// Print the flame graph, drawn so, of the folded stacks of this file.
    Flame(&'c str, Drawing<'c>),
    /// Print the functions of the folded stacks of this file in a format.
    Report(&'c str, Format),
}

/// Returns what the command is to do that clap matched. Fails where the values of options aren't
/// what they have to be.
pub fn task_in<'c>(matches: &'c ArgMatches<'_>) -> Result<Task<'c>, UsageError<'c>> {
    match matches.subcommand() {
        Some((name, arguments)) => task_named(name, arguments),
        None => Err(UsageError::NoCommand),
    }
}

/// Returns what the command of this name is to do.
fn task_named<'c>(name: &str, arguments: &'c ArgMatches<'_>) -> Result<Task<'c>, UsageError<'c>> {
    if name == "row" {
        let addresses = values_for(arguments, "ADDRESS");
        Ok(printing(arguments, Printed::Row(addresses, format_in(arguments))))
    } else if name == "rows" {
        let address = value_for(arguments, "ADDRESS");
        Ok(printing(arguments, Printed::Rows(address, format_in(arguments))))
    } else if name == "dump" {
        Ok(printing(arguments, Printed::Dump))
    } else if name == "check" {
        checking(arguments)
    } else if name == "table" {
        Ok(printing(arguments, Printed::Table))
    } else {
        task_of_stacks(name, arguments)
    }
}

/// Returns what the command of this name is to do, if it is one that prints stacks, or a graph or
/// the functions of them.
fn task_of_stacks<'c>(
    name: &str,
    arguments: &'c ArgMatches<'_>,
) -> Result<Task<'c>, UsageError<'c>> {
    if name == "unwind" {
        let listing = listing_for(has_flag(arguments, "raw"), format_in(arguments));
        unwinding(arguments, listing)
    } else if name == "stack" {
        Ok(stacks_of_threads(arguments))
    } else if name == "flame" {
        drawing(arguments)
    } else if name == "report" {
        Ok(Task::Report(file_in(arguments), format_in(arguments)))
    } else if name == "fold" {
        unwinding(arguments, Listing::Folded(has_flag(arguments, "period")))
    } else {
        Err(UsageError::NoCommand)
    }
}

/// Returns the task to print this of the file that is named.
fn printing<'c>(arguments: &'c ArgMatches<'_>, printed: Printed<'c>) -> Task<'c> {
    let raw = has_flag(arguments, "raw");
    Task::Print(file_in(arguments), Request { printed, raw })
}

/// Returns the task to check the files that are named, or those of a list. Fails where none are
/// named, or both are given.
fn checking<'c>(arguments: &'c ArgMatches<'_>) -> Result<Task<'c>, UsageError<'c>> {
    let style = CheckStyle {
        format: format_in(arguments),
        quiet: has_flag(arguments, "quiet"),
        elf_alone: false,
    };
    let list = value_for(arguments, "files0-from");
    let files = values_for(arguments, "FILE");
    checking_by(style, has_flag(arguments, "recursive"), list, files)
}

/// Returns the task to check these files or those of this list. Fails where none are named, or both
/// are given.
fn checking_by<'c>(
    style: CheckStyle,
    recursive: bool,
    list: Option<&'c str>,
    files: &'c [&'c str],
) -> Result<Task<'c>, UsageError<'c>> {
    match list {
        None if files.is_empty() => Err(UsageError::NoFiles),
        None => Ok(Task::Check(FileArguments::Files(files), recursive, style)),
        Some(list) if files.is_empty() => {
            Ok(Task::Check(FileArguments::List(list), recursive, style))
        }
        Some(_) => Err(UsageError::TwoNamings),
    }
}

/// Returns how the stacks of a profile are listed in a format.
fn listing_for(raw: bool, format: Format) -> Listing
    ensures { result ≡ listing_for raw format }
{
    match format {
        Format::Text => Listing::Frames(raw),
        Format::Json => Listing::Json(raw),
    }
}

/// Returns the task to print the stacks of the samples that are chosen. Fails if what the option
/// for times has isn't two times.
fn unwinding<'c>(arguments: &ArgMatches<'c>, listing: Listing) -> Result<Task<'c>, UsageError<'c>> {
    let times = match arguments.get_str("time") {
        None => ANY_TIME,
        Some(text) => times_of(text).ok_or(UsageError::NoTimes(text))?,
    };
    let choice = choice_in(arguments, times);
    Ok(Task::Unwind(file_in(arguments), listing, choice, folders_in(arguments)))
}

/// Returns the task to print the stacks of the threads that are asked for.
fn stacks_of_threads<'c>(arguments: &ArgMatches<'c>) -> Task<'c> {
    let listing = ThreadListing {
        raw: has_flag(arguments, "raw"),
        format: format_in(arguments),
        thread: number_for(arguments, "thread"),
    };
    Task::Stack(file_in(arguments), listing, folders_in(arguments))
}

/// Returns the task to draw a flame graph. The least width of a box is in billionths of a pixel.
/// Fails if the option for it has no number.
fn drawing<'c>(arguments: &ArgMatches<'c>) -> Result<Task<'c>, UsageError<'c>> {
    let least_width = match arguments.get_str("min-width") {
        None => 0,
        Some(text) => billionths_of(text).ok_or(UsageError::NoWidth(text))?,
    };
    let drawing = Drawing {
        title: arguments
            .get_str("title")
            .unwrap_or("Flame graph")
            .as_bytes(),
        reverse: has_flag(arguments, "reverse"),
        least_width,
    };
    Ok(Task::Flame(file_in(arguments), drawing))
}

/// Returns the format of what a task prints, also where it is refused memory.
pub fn format_of(task: &Task<'_>) -> Format {
    match task {
        Task::Print(_, request) => request.printed.format(),
        Task::Check(_, _, style) => style.format,
        Task::Unwind(_, Listing::Json(_), _, _) => Format::Json,
        Task::Unwind(_, _, _, _) => Format::Text,
        Task::Stack(_, listing, _) => listing.format,
        Task::Flame(_, _) => Format::Text,
        Task::Report(_, format) => *format,
    }
}
