//! The rows for the addresses that words name in a file.
use crate::error::FileError;
use crate::query::{Query, put_query};
use crate::row::FrameSections;
use cfi_elf::ElfFile;
use cfi_object::target::target_addresses;
use cfi_row_text::row_words::put_answer_end;
use cfi_row_text::style::Style;
use cfi_text::text::Text;
use gimli_cfi::{Error, UnwindContext};
use std::alloc::Global;
use std::io;
use std::io::Write;

/// Where the rows of words are looked for, and the text of a line.
#[derive(Drop)]
struct Lookup<'file> {
    sections: FrameSections<'file>,
    /// None where memory for it is refused.
    context: Option<UnwindContext<usize>>,
    text: Text,
}

/// Prints for each word a line for each address that it names: the row for the address, or
/// `refused` and the name of the error; one line with `no address` where it names none. Where there
/// are several words, or a word names several addresses, each line begins with its word, the
/// address that this names, and a colon; in JSON each object begins with these. Returns the
/// greatest status.
pub(crate) fn print_words<W: Write>(
    alloc: Global,
    style: Style,
    words: &[&str],
    file: &ElfFile<'_>,
    output: &mut W,
) -> io::Result<u8> {
    let mut lookup = Lookup {
        sections: FrameSections::of(file),
        context: UnwindContext::<usize>::new(alloc).ok(),
        text: Text::new(alloc),
    };
    let mut status: u8 = 0;
    for word in words {
        let query = Query {
            style,
            has_several: words.len() > 1,
            word: *word,
        };
        status = status.max(print_word(alloc, query, file, &mut lookup, output)?);
    }
    Ok(status)
}

/// Prints the lines of a word, and returns the greatest status.
fn print_word<W: Write>(
    alloc: Global,
    query: Query<'_>,
    file: &ElfFile<'_>,
    lookup: &mut Lookup<'_>,
    output: &mut W,
) -> io::Result<u8> {
    let addresses = match target_addresses(alloc, file, query.word) {
        Ok(addresses) => addresses,
        Err(error) => return print_no_row(query, FileError::Elf(error), lookup, output),
    };
    if addresses.is_empty() {
        return print_no_row(query, FileError::NoAddress, lookup, output);
    }
    let of_address = Query {
        has_several: query.has_several || addresses.len() > 1,
        ..query
    };
    let mut status: u8 = 0;
    for address in addresses.as_slice() {
        status = status.max(print_row(of_address, *address, lookup, output)?);
    }
    Ok(status)
}

/// Prints the line of an address that a word names. Without a context memory is refused.
fn print_row<W: Write>(
    query: Query<'_>,
    address: u64,
    lookup: &mut Lookup<'_>,
    output: &mut W,
) -> io::Result<u8> {
    put_query(&mut lookup.text, query, Some(address));
    let Some(context) = &mut lookup.context else {
        return print_end(
            query,
            FileError::Row(Error::OutOfMemory),
            &mut lookup.text,
            output,
        );
    };
    match lookup.sections.row(context, address) {
        Ok(found) => {
            let text = &mut lookup.text;
            let status = put_answer_end(text, query.style, &found.section, Ok(found.row));
            text.write_to(output)?;
            Ok(status)
        }
        Err(error) => print_end(query, error, &mut lookup.text, output),
    }
}

/// Prints the line of a word that names no address, or whose addresses can't be read.
fn print_no_row<W: Write>(
    query: Query<'_>,
    error: FileError,
    lookup: &mut Lookup<'_>,
    output: &mut W,
) -> io::Result<u8> {
    put_query(&mut lookup.text, query, None);
    print_end(query, error, &mut lookup.text, output)
}

/// Prints the text and why there is no row, and returns the status.
fn print_end<W: Write>(
    query: Query<'_>,
    error: FileError,
    text: &mut Text,
    output: &mut W,
) -> io::Result<u8> {
    error.put_end(text, query.style.format);
    text.write_to(output)?;
    Ok(error.status())
}
