//! What is printed of a file.
use crate::error::{FileError, print_error};
use crate::listing::{print_entries, print_rows};
use crate::relocated::read_relocated;
use crate::request::{Printed, Request};
use crate::sections::{SectionPrinted, print_sections};
use crate::words::print_words;
use cfi_elf::{ElfError, ElfFile};
use cfi_object::machine_names::names_in;
use cfi_object::{FileInput, read_parts};
use cfi_row_text::style::Style;
use std::alloc::Global;
use std::io;
use std::io::Write;

/// Reads the parts of an ELF file that are needed, prints what is asked for of it, and returns the
/// status.
///
/// A relocatable file is read whole and relocated in a copy (`ElfFile::relocate`), so the address
/// of a section is its offset in the file.
///
/// Status 0: it is printed. Status 1: the file or a part of it can't be read, which prints
/// `refused` and the name of the error; it has no call frames, which prints `no call frames`; a
/// word names no address, which prints `no address`; there is no row; or memory is refused.
/// Status 2: the file can't be read, which prints `wrong input`. In JSON each of these is the
/// `error` of an object, without the word `refused`. Fails where the output can't be written, and
/// with `OutOfMemory` where there is no memory for a line: then a beginning has been written.
///
/// Allocates for the parts, for the copy of a relocatable file, for contexts, for the names of
/// functions, for compiled tables and for the text of a line.
pub fn run_on_file<I: FileInput, W: Write>(
    alloc: Global,
    request: Request<'_>,
    input: &mut I,
    output: &mut W,
) -> io::Result<u8> {
    let format = request.printed.format();
    match read_parts(alloc, request.printed.needed(), input) {
        Ok(parts) => match ElfFile::of_image(parts.image()) {
            Ok(file) => print_file(alloc, request, &file, output),
            Err(ElfError::Relocatable) => print_relocated(alloc, request, input, output),
            Err(error) => print_error(alloc, FileError::Elf(error), format, output),
        },
        Err(error) => print_error(alloc, FileError::Input(error), format, output),
    }
}

/// Prints what is asked for of a relocatable file.
fn print_relocated<I: FileInput, W: Write>(
    alloc: Global,
    request: Request<'_>,
    input: &mut I,
    output: &mut W,
) -> io::Result<u8> {
    let format = request.printed.format();
    match read_relocated(alloc, input) {
        Ok(bytes) => match ElfFile::parse_relocatable(bytes.as_slice()) {
            Ok(file) => print_file(alloc, request, &file, output),
            Err(error) => print_error(alloc, FileError::Elf(error), format, output),
        },
        Err(error) => print_error(alloc, error, format, output),
    }
}

/// Prints what is asked for of the file.
fn print_file<W: Write>(
    alloc: Global,
    request: Request<'_>,
    file: &ElfFile<'_>,
    output: &mut W,
) -> io::Result<u8> {
    let names = names_in(file, request.raw);
    match request.printed {
        Printed::Row(words, format) => {
            print_words(alloc, Style { names, format }, words, file, output)
        }
        Printed::Rows(word, format) => {
            print_rows(alloc, Style { names, format }, word, file, output)
        }
        Printed::Dump => print_entries(alloc, names, file, output),
        Printed::Table => print_sections(alloc, names, SectionPrinted::Compiled, file, output),
    }
}
