//! The values of a command's options and arguments, as clap matched them.
use cfi_commands::{Folders, Times};
use cfi_stacks::Choice;
use cfi_text::style::Format;
use clap::ArgMatches;

/// Returns the values that were given for an option or argument.
pub fn values_for<'c>(arguments: &'c ArgMatches<'_>, name: &str) -> &'c [&'c str] {
    arguments.get_strs(name).unwrap_or(&[])
}

/// Returns the first value that was given for an option or argument, if any.
pub fn value_for<'c>(arguments: &ArgMatches<'c>, name: &str) -> Option<&'c str> {
    arguments.get_str(name)
}

/// Returns the file that was named, of which clap has checked that there is one.
pub fn file_in<'c>(arguments: &ArgMatches<'c>) -> &'c str {
    arguments.get_str("FILE").unwrap_or("")
}

/// Returns whether this flag was given: then clap has this value for it.
pub fn has_flag(arguments: &ArgMatches, name: &str) -> bool {
    arguments.get_str(name).unwrap_or("") == "true"
}

/// Returns the format that was named, or text.
pub fn format_in(arguments: &ArgMatches) -> Format {
    if arguments.get_str("format").unwrap_or("") == "json" {
        Format::Json
    } else {
        Format::Text
    }
}

/// Returns the number that was given for an option, if any. clap has checked that it is one.
pub fn number_for(arguments: &ArgMatches, name: &str) -> Option<u64> {
    arguments.get_str(name)?.parse::<u64>().ok()
}

/// Returns which samples of a profile were asked for, between two times.
pub fn choice_in<'c>(arguments: &ArgMatches<'c>, times: Times) -> Choice<'c> {
    Choice {
        comm: arguments.get_str("comm"),
        pid: number_for(arguments, "pid"),
        tid: number_for(arguments, "tid"),
        from: times.from,
        until: times.until,
        event: arguments.get_str("event"),
        limit: number_for(arguments, "limit"),
    }
}

/// Returns the folders that were named.
pub fn folders_in<'c>(arguments: &ArgMatches<'c>) -> Folders<'c> {
    Folders {
        symfs: arguments.get_str("symfs"),
        debug_dir: arguments.get_str("debug-dir"),
    }
}
