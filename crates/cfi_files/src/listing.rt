//! The entries of a file, or the rows of its FDEs: of all, or of those that contain an address that
//! a word names.
ghost use Rattle.std.specs.Prelude.{◌≡◌, IfErr, IfOk, Ok};
ghost use Rattle.cfi_elf.specs.ElfFiles.{file_view};
ghost use Rattle.cfi_object.specs.Targets.{target_addresses};
ghost use Rattle.cfi_files.specs.Listings.{IsNoAddress};

use crate::dump::{AskedRows, Printed};
use crate::error::{FileError, print_error};
use crate::sections::{SectionPrinted, print_sections};
use cfi_elf::{ElfFile, FunctionNames};
use cfi_object::target::target_addresses;
use cfi_row_text::style::Style;
use cfi_text::register_names::RegisterNames;
use cfi_text::style::Format;
use std::alloc::Global;
use std::io;
use std::io::Write;

/// Prints each entry, as `print_sections` does, that of an FDE with the name of the function that
/// begins there. Prints `refused OutOfMemory` with the status 1 where there is no memory for the
/// names of functions.
pub(crate) fn print_entries<W: Write>(
    alloc: Global,
    names: RegisterNames,
    file: &ElfFile<'_>,
    output: &mut W,
) -> io::Result<u8> {
    match FunctionNames::new(alloc, file) {
        Ok(functions) => print_named_entries(alloc, names, &functions, file, output),
        Err(error) => print_error(alloc, FileError::from(error), Format::Text, output),
    }
}

/// Prints each entry, that of an FDE with the name of the function that begins there.
fn print_named_entries<W: Write>(
    alloc: Global,
    names: RegisterNames,
    functions: &FunctionNames<'_>,
    file: &ElfFile<'_>,
    output: &mut W,
) -> io::Result<u8> {
    let printed = SectionPrinted::Listed(Printed::Entries(functions));
    print_sections(alloc, names, printed, file, output)
}

/// Prints the rows of each FDE, as `print_sections` does, each after the name of the function that
/// begins there; where there is a word, of those that contain an address that it names. Prints `no
/// address` with the status 1 where the word names none, and `refused` and the name of the error
/// where that can't be read or memory is refused.
pub(crate) fn print_rows<W: Write>(
    alloc: Global,
    style: Style,
    word: Option<&str>,
    file: &ElfFile<'_>,
    output: &mut W,
) -> io::Result<u8> {
    let Some(word) = word else {
        return print_fde_rows(alloc, style, None, file, output);
    };
    match addresses_of(alloc, file, word) {
        Ok(found) => print_fde_rows(alloc, style, Some(found.as_slice()), file, output),
        Err(error) => print_error(alloc, error, style.format, output),
    }
}

/// Prints the rows of each FDE, or of those that contain one of the addresses.
fn print_fde_rows<W: Write>(
    alloc: Global,
    style: Style,
    addresses: Option<&[u64]>,
    file: &ElfFile<'_>,
    output: &mut W,
) -> io::Result<u8> {
    match FunctionNames::new(alloc, file) {
        Ok(functions) => print_named_rows(alloc, style, addresses, &functions, file, output),
        Err(error) => print_error(alloc, FileError::from(error), style.format, output),
    }
}

/// Prints the rows of each FDE, or of those that contain one of the addresses, each after the name
/// of the function that begins there.
fn print_named_rows<W: Write>(
    alloc: Global,
    style: Style,
    addresses: Option<&[u64]>,
    functions: &FunctionNames<'_>,
    file: &ElfFile<'_>,
    output: &mut W,
) -> io::Result<u8> {
    let asked = AskedRows {
        addresses,
        functions,
        format: style.format,
    };
    let printed = SectionPrinted::Listed(Printed::Rows(asked));
    print_sections(alloc, style.names, printed, file, output)
}

/// Returns the addresses that the word names, at least one.
///
/// Fails with `NoAddress` where it names none, with `Elf` where that can't be read, and where
/// memory is refused. Allocates for the addresses.
fn addresses_of(alloc: Global, file: &ElfFile<'_>, word: &str) -> Result<Vec<u64>, FileError>
    ensures named { IfOk result (λ found. target_addresses (file_view file.now) word.now
        ≡ Ok found.items) }
    ensures none { IfErr result
        (IsNoAddress (target_addresses (file_view file.now) word.now)) }
{
    let addresses = target_addresses(alloc, file, word)?;
    if addresses.is_empty() {
        return Err(FileError::NoAddress);
    }
    Ok(addresses)
}
