//! The options and arguments of commands, as passed to clap.
use clap::builder::ValueParser;
use clap::{Arg, ArgAction};
use std::alloc::Global;

/// Returns a flag.
pub fn flag<'w>(alloc: Global, name: &'w str, help: &'w str) -> Arg<'w> {
    Arg::new(alloc, name)
        .help(help)
        .long(name)
        .action(ArgAction::SetTrue)
}

/// Returns the flag `--raw` of the commands that print registers.
pub fn raw_flag<'w>(alloc: Global) -> Arg<'w> {
    flag(
        alloc,
        "raw",
        "Prints registers by their numbers, and not by the machine's names",
    )
}

/// Returns the flag `--raw` of `unwind` and `stack`.
pub fn raw_frames_flag<'w>(alloc: Global) -> Arg<'w> {
    flag(
        alloc,
        "raw",
        "Prints the place of each frame in its file, without the function",
    )
}

/// Returns an option with any text for a value, which help calls `value`.
pub fn text_option<'w>(alloc: Global, name: &'w str, value: &'w str, help: &'w str) -> Arg<'w> {
    Arg::new(alloc, name)
        .help(help)
        .long(name)
        .value_name(value)
}

/// Returns an option with a number for a value.
pub fn number_option<'w>(alloc: Global, name: &'w str, help: &'w str) -> Arg<'w> {
    Arg::new(alloc, name)
        .help(help)
        .long(name)
        .value_name("N")
        .value_parser(ValueParser::Unsigned(0, u64::MAX))
}

/// The names of the formats.
const FORMATS: &[&str] = &["text", "json"];

/// Returns the option `--format`.
pub fn format_option<'w>(alloc: Global) -> Arg<'w> {
    Arg::new(alloc, "format")
        .help("The form of what is printed: text, the default, or json, an object on each line")
        .long("format")
        .value_name("FORMAT")
        .value_parser(ValueParser::Names(FORMATS))
}

/// Returns the argument that names one file.
pub fn one_file<'w>(alloc: Global, help: &'w str) -> Arg<'w> {
    Arg::new(alloc, "FILE").help(help).required(true)
}

/// Returns the argument that names an ELF file.
pub fn elf_file<'w>(alloc: Global) -> Arg<'w> {
    one_file(
        alloc,
        "A program, library or object file, in the ELF format; - is standard input",
    )
}

/// Returns the argument that names a profile.
pub fn profile<'w>(alloc: Global) -> Arg<'w> {
    one_file(
        alloc,
        "A profile of perf record: perf.data; - is standard input",
    )
}

/// Returns the argument that names a file of folded stacks.
pub fn folded_file<'w>(alloc: Global) -> Arg<'w> {
    one_file(
        alloc,
        "Folded stacks: a stack, a space and a number on each line; - is standard input",
    )
}

/// Returns the argument that names any number of ELF files.
pub fn elf_files<'w>(alloc: Global) -> Arg<'w> {
    Arg::new(alloc, "FILE")
        .help("Programs or libraries, in the ELF format; - is standard input")
        .num_args(1..)
}

/// Returns the argument for an address, which may be left out.
pub fn address<'w>(alloc: Global) -> Arg<'w> {
    Arg::new(alloc, "ADDRESS").help(
        "Decimal, hexadecimal with 0x, a symbol, NAME@plt, a section, or NAME+NUMBER",
    )
}

/// Returns the argument for one address or more.
pub fn addresses<'w>(alloc: Global) -> Arg<'w> {
    address(alloc).required(true).num_args(1..)
}
