//! What is printed for a task: of a file, of a profile, of a core file or of folded stacks.
use crate::checks::print_checked;
use crate::task::Task;
use cfi_commands::{
    FileArguments, Folders, ProfileOpener, Summary, System, open_named, open_profile, print_folded,
    targets_of,
};
use cfi_core_stacks::{ThreadListing, print_core};
use cfi_files::{CheckStyle, run_on_file};
use cfi_stacks::{Choice, Listing, list_profile};
use std::io;
use std::io::Write;

/// The status of a run whose words are wrong, or whose files can't be read.
pub const WRONG: u8 = 2;

/// Prints what a task asks for, and returns the status. Fails where the output can't be written,
/// and with `OutOfMemory`.
pub fn print_answer<S: System, W: Write>(system: &S, task: Task, output: &mut W) -> io::Result<u8> {
    let alloc = system.alloc();
    match task {
        Task::Print(file, request) => match open_named(system, file) {
            Some(mut input) => run_on_file(alloc, request, &mut input, output),
            None => Ok(WRONG),
        },
        Task::Check(names, recursive, style) => {
            print_checks(system, style, recursive, names, output)
        }
        Task::Unwind(file, listing, choice, folders) => {
            print_stacks(system, listing, &choice, folders, file, output)
        }
        Task::Stack(file, listing, folders) => {
            print_threads(system, listing, folders, file, output)
        }
        Task::Flame(file, drawing) => match open_named(system, file) {
            Some(mut input) => {
                print_folded(alloc, Summary::FlameGraph(drawing), &mut input, output)
            }
            None => Ok(WRONG),
        },
        Task::Report(file, format) => match open_named(system, file) {
            Some(mut input) => print_folded(alloc, Summary::Report(format), &mut input, output),
            None => Ok(WRONG),
        },
    }
}

/// Opens the profile, and prints the stacks of the samples that are chosen.
fn print_stacks<S: System, W: Write>(
    system: &S,
    listing: Listing,
    choice: &Choice,
    folders: Folders,
    file: &str,
    output: &mut W,
) -> io::Result<u8> {
    let opener = ProfileOpener {
        system,
        folders,
        path: file,
    };
    match open_profile(system, file)? {
        Some(mut input) => {
            let alloc = system.alloc();
            list_profile(alloc, listing, choice, &opener, &mut input, output)
        }
        None => Ok(WRONG),
    }
}

/// Opens the core file, and prints the stacks of its threads.
fn print_threads<S: System, W: Write>(
    system: &S,
    listing: ThreadListing,
    folders: Folders,
    file: &str,
    output: &mut W,
) -> io::Result<u8> {
    let opener = ProfileOpener {
        system,
        folders,
        path: file,
    };
    match open_named(system, file) {
        Some(mut input) => print_core(system.alloc(), listing, &opener, &mut input, output),
        None => Ok(WRONG),
    }
}

/// Finds the files that are named, if `recursive` also those in folders, checks them, prints how
/// many there are, and returns the greatest status.
fn print_checks<S: System, W: Write>(
    system: &S,
    style: CheckStyle,
    recursive: bool,
    names: FileArguments,
    output: &mut W,
) -> io::Result<u8> {
    match targets_of(system, recursive, names)? {
        Some(targets) => print_checked(system, style, targets.as_slice(), output),
        None => Ok(WRONG),
    }
}
