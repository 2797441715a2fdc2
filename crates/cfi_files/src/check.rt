//! The check of a file: whether the table of its header lists the FDEs of `.eh_frame` faithfully.
ghost use Rattle.std.specs.Prelude.{◌≡◌};
ghost use Rattle.cfi_elf.specs.ElfFiles.{elf_file_of};
ghost use Rattle.cfi_elf.specs.Images.{image_view};
ghost use Rattle.cfi_files.specs.Findings.{ChecksInput, IsVerdictOfFile, file_member, finding_of};
ghost use Rattle.cfi_files.specs.Findings.{finding_status, has_no_line, has_table, is_faithful};
ghost use Rattle.cfi_files.specs.Findings.{name_of_finding, reason_members, why};
ghost use Rattle.cfi_text.specs.Texts.{Puts};

use crate::error::FileError;
use crate::verdict_line::put_verdict;
use cfi_elf::{ElfError, ElfFile, Image};
use cfi_object::call_frames::eh_frame;
use cfi_object::input::FileInput;
use cfi_object::{Needed, read_parts};
use cfi_text::escapes::Escaping;
use cfi_text::reading::InputError;
use cfi_text::style::Format;
use cfi_text::text::Text;
use gimli_cfi::Verdict;
use std::alloc::Global;
use std::io;
use std::io::Write;

/// What the check of a file comes to.
#[derive(Clone, Copy, Debug, PartialEq, Eq)]
pub enum Finding {
    /// The table of its header lists its FDEs faithfully.
    Faithful,
    /// It doesn't, or the header can't be read.
    Unfaithful,
    /// The file has no table, or no part of it can be had.
    NoTable,
    /// The file isn't an ELF file.
    OtherFile,
    /// The file can't be read.
    Unreadable,
}

/// How the checks of files are printed.
#[derive(Clone, Copy)]
pub struct CheckStyle {
    /// The form of the lines.
    pub format: Format,
    /// Whether a file with a faithful table has no line.
    pub quiet: bool,
    /// Whether a file that isn't an ELF file has no line.
    pub elf_alone: bool,
}

impl Finding {
    /// Returns whether the file has a table.
    pub fn has_table(&self) -> bool
        ensures { result ≡ has_table self.now }
    {
        matches!(self, Finding::Faithful | Finding::Unfaithful)
    }

    /// Returns whether the file has a table, and it is faithful.
    pub fn is_faithful(&self) -> bool
        ensures { result ≡ is_faithful self.now }
    {
        matches!(self, Finding::Faithful)
    }

    /// Returns the status of a run that found this: 0 where the table is faithful or the file isn't
    /// an ELF file, 2 where the file can't be read, and else 1.
    pub fn status(&self) -> u8
        ensures { result ≡ finding_status self.now }
    {
        match self {
            Finding::Faithful => 0,
            Finding::Unfaithful => 1,
            Finding::NoTable => 1,
            Finding::OtherFile => 0,
            Finding::Unreadable => 2,
        }
    }

    /// Returns the name of what was found.
    fn name(self) -> &'static str
        ensures { result.now ≡ name_of_finding self }
    {
        match self {
            Finding::Faithful => "faithful",
            Finding::Unfaithful => "unfaithful",
            Finding::NoTable => "no table",
            Finding::OtherFile => "not ELF",
            Finding::Unreadable => "unreadable",
        }
    }
}

impl CheckStyle {
    /// Returns whether a file of which this was found has no line.
    fn has_no_line(self, finding: Finding) -> bool
        ensures { result ≡ has_no_line self finding }
    {
        match finding {
            Finding::Faithful => self.quiet,
            Finding::OtherFile => self.elf_alone,
            _ => false,
        }
    }
}

/// Reads the parts of an ELF file that are needed, prints a line with the name and whether the
/// table of the file lists its FDEs faithfully, and returns what was found.
///
/// The line has after the name and `: ` the verdict on the table, as `put_verdict` of
/// `verdict_line` appends it; `no call frames` or `no header` where the file has no `.eh_frame` or
/// no header; `refused` and the name of an error; or `wrong input` where the file can't be read.
/// In JSON it is an object with the name as `file`, what was found as `result`, and the number of
/// rows of a faithful table as `rows` or else that text as `reason`. Fails where the output can't
/// be written, and with `OutOfMemory`: then a beginning has been written. Allocates for the parts
/// and the line.
pub fn check_file<I: FileInput, W: Write>(
    alloc: Global,
    style: CheckStyle,
    name: &str,
    input: &mut I,
    output: &mut W,
) -> io::Result<Finding> {
    let verdict = check_input(alloc, input);
    let finding = finding_of(verdict);
    if style.has_no_line(finding) {
        return Ok(finding);
    }
    let mut text = Text::new(alloc);
    put_name(&mut text, style.format, name);
    match verdict {
        Ok(Some(verdict)) => put_verdict(&mut text, style.format, verdict),
        Ok(None) => put_reason(&mut text, style.format, finding, None),
        Err(error) => put_reason(&mut text, style.format, finding, Some(error)),
    }
    text.write_to(output)?;
    Ok(finding)
}

/// Reads the parts of the file that are needed, and returns the verdict on the table of its header;
/// `None` where `.eh_frame` has no header.
///
/// Fails with `NoCallFrames` where the file has no `.eh_frame`, with the error of the file or of
/// the section, and with `Input`. Allocates for the parts.
pub fn check_input<I: FileInput>(alloc: Global, input: &mut I) -> Result<Option<Verdict>, FileError>
    ensures { ChecksInput (I.bytes input.old) result }
{
    let needed = Needed {
        symbols: false,
        plt: false,
        build: false,
    };
    let parts = read_parts(alloc, needed, input)?;
    check_image(parts.image())
}

/// Returns the verdict on the table of the file with these parts. Fails as `check_input`.
fn check_image(image: Image<'_>) -> Result<Option<Verdict>, FileError>
    ensures { IsVerdictOfFile (elf_file_of (image_view image.entry)) result }
{
    let file = ElfFile::of_image(image)?;
    match eh_frame(&file)? {
        Some(frames) => Ok(frames.check()),
        None => Err(FileError::NoCallFrames),
    }
}

/// Returns what a verdict comes to, or that there is none.
fn finding_of(verdict: Result<Option<Verdict>, FileError>) -> Finding
    ensures { result ≡ finding_of verdict }
{
    match verdict {
        Ok(Some(Verdict::Faithful(_))) => Finding::Faithful,
        Ok(Some(Verdict::NoTable)) => Finding::NoTable,
        Ok(Some(_)) => Finding::Unfaithful,
        Ok(None) => Finding::NoTable,
        Err(FileError::Elf(ElfError::NotElf)) => Finding::OtherFile,
        Err(FileError::Input(InputError::OutOfMemory)) => Finding::NoTable,
        Err(FileError::Input(_)) => Finding::Unreadable,
        Err(_) => Finding::NoTable,
    }
}

/// Appends the name of a file, and what parts it from the rest of the line.
fn put_name(text: &mut Text, format: Format, name: &str) {
    match format {
        Format::Text => {
            text.name(name.as_bytes());
            text.put(b": ");
        }
        Format::Json => put_file_member(text, name),
    }
}

/// Appends the beginning of an object, with the name of a file.
fn put_file_member(text: &mut Text, name: &str)
    ensures { Puts (file_member name.now) text.old text.new }
{
    text.put(b"{\"file\":\"");
    text.escaped(Escaping::Json, name.as_bytes());
    text.put(b"\",");
}

/// Appends the end of the line of a file of which this was found for an error, or for want of a
/// header.
fn put_reason(text: &mut Text, format: Format, finding: Finding, error: Option<FileError>) {
    match format {
        Format::Text => {
            put_why(text, error);
            text.put(b"\n");
        }
        Format::Json => put_reason_members(text, finding, error),
    }
}

/// Appends the end of an object: what was found, and why.
fn put_reason_members(text: &mut Text, finding: Finding, error: Option<FileError>)
    ensures { Puts (reason_members finding error) text.old text.new }
{
    text.put(b"\"result\":\"");
    text.put(finding.name().as_bytes());
    text.put(b"\",\"reason\":\"");
    put_why(text, error);
    text.put(b"\"}\n");
}

/// Appends why there is no verdict.
fn put_why(text: &mut Text, error: Option<FileError>)
    ensures { Puts (why error) text.old text.new }
{
    match error {
        None => text.put(b"no header"),
        Some(error) => error.put_words(text),
    }
}
