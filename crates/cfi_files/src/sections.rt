//! What is printed of each section of a file.
ghost use Rattle.cfi_files.specs.Listings.{section_member};
ghost use Rattle.cfi_text.specs.Texts.{Puts};

use crate::compiled::print_compiled;
use crate::dump::{Printed, print_source};
use crate::error::FileError;
use crate::row::FrameSections;
use cfi_elf::{ElfError, ElfFile};
use cfi_text::register_names::RegisterNames;
use cfi_text::style::Format;
use cfi_text::text::Text;
use gimli_cfi::SectionSource;
use std::alloc::Global;
use std::io;
use std::io::Write;

/// What is printed of each section.
#[derive(Clone, Copy)]
pub(crate) enum SectionPrinted<'names> {
    /// Its entries, or the rows of its FDEs.
    Listed(Printed<'names>),
    /// The rows for all addresses, by a compiled table, as lines of text.
    Compiled,
}

impl SectionPrinted<'_> {
    /// Returns the form of the lines.
    fn format(self) -> Format {
        match self {
            SectionPrinted::Listed(printed) => printed.format(),
            SectionPrinted::Compiled => Format::Text,
        }
    }
}

/// Prints what is asked for of `.eh_frame` and then of `.debug_frame`, where the file has both each
/// after a line with its name, and returns the greater status. Prints `no call frames` with the
/// status 1 where the file has neither, and `refused` and the name of the error in the place of a
/// section that can't be had.
pub(crate) fn print_sections<W: Write>(
    alloc: Global,
    names: RegisterNames,
    printed: SectionPrinted<'_>,
    file: &ElfFile<'_>,
    output: &mut W,
) -> io::Result<u8> {
    let sections = FrameSections::of(file);
    let mut text = Text::new(alloc);
    match (sections.eh_frame, sections.debug_frame) {
        (None, None) => FileError::NoCallFrames.print(&mut text, printed.format(), output),
        (Some(part), None) => print_section(alloc, names, printed, part, &mut text, output),
        (None, Some(part)) => print_section(alloc, names, printed, part, &mut text, output),
        (Some(first), Some(second)) => {
            put_section_name(&mut text, printed.format(), b".eh_frame");
            let first = print_section(alloc, names, printed, first, &mut text, output)?;
            put_section_name(&mut text, printed.format(), b".debug_frame");
            let second = print_section(alloc, names, printed, second, &mut text, output)?;
            Ok(first.max(second))
        }
    }
}

/// Prints the text, and then what is asked for of a section or the error in its place.
fn print_section<W: Write>(
    alloc: Global,
    names: RegisterNames,
    printed: SectionPrinted<'_>,
    part: Result<SectionSource<'_>, ElfError>,
    text: &mut Text,
    output: &mut W,
) -> io::Result<u8> {
    let frames = match part {
        Ok(frames) => frames,
        Err(error) => return FileError::Elf(error).print(text, printed.format(), output),
    };
    text.write_to(output)?;
    match printed {
        SectionPrinted::Listed(printed) => print_source(alloc, names, printed, &frames, output),
        SectionPrinted::Compiled => print_compiled(alloc, names, &frames, text, output),
    }
}

/// Appends the line with the name of a section.
fn put_section_name(text: &mut Text, format: Format, name: &[u8]) {
    match format {
        Format::Text => {
            text.put(name);
            text.put(b"\n");
        }
        Format::Json => put_section_member(text, name),
    }
}

/// Appends an object with the name of a section.
fn put_section_member(text: &mut Text, name: &[u8])
    ensures { Puts (section_member name.now) text.old text.new }
{
    text.put(b"{\"section\":\"");
    text.put(name);
    text.put(b"\"}\n");
}
