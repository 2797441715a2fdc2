//! Prints a whole section.
ghost use Rattle.std.specs.Prelude.{◌≡◌};
ghost use Rattle.cfi_entry.specs.Sections.{section_of};
ghost use Rattle.gimli_cfi.specs.SectionSources.{given_section, source_view};
ghost use Rattle.cfi_text.specs.WriterOutput.{Prints, PrintsSome};
ghost use Rattle.cfi_files.specs.DumpRowTexts.{asked_rows, style_of};
ghost use Rattle.cfi_files.specs.DumpProgramOutput.{IsPrinted, text_output};
ghost use Rattle.cfi_files.specs.Sending.{IsEmpty};

use crate::dump::addressed_rows::write_asked_rows;
use crate::dump::printed::{AskedRows, Printed};
use crate::dump::section::write_entries;
use crate::dump::walk::Walk;
use cfi_elf::FunctionNames;
use cfi_entry::in_section::InSection;
use cfi_row_text::plain_rows::PlainRows;
use cfi_row_text::style::Style;
use cfi_text::refusals::write_refusal_in;
use cfi_text::register_names::RegisterNames;
use cfi_text::text::Text;
use gimli_cfi::{
    BaseAddresses, CallFrameSection, Reader, SectionSource, UnwindContext, UnwindSection,
};
use std::alloc::Global;
use std::io;
use std::io::Write;

/// Prints what is asked for of the section, and returns the status.
///
/// Status 0: it is printed, as `Printed` says, with a line for each error among it. Status 1:
/// `refused OutOfMemory`. Fails where the output can't be written, and with `OutOfMemory`: then a
/// beginning has been written.
///
/// Allocates one context, and the text of some lines.
pub fn print_source<W: Write>(
    alloc: Global,
    names: RegisterNames,
    printed: Printed<'_>,
    source: &SectionSource<'_>,
    output: &mut W,
) -> io::Result<u8>
    ensures { PrintsSome (IsPrinted names printed.entry (given_section (source_view source.now)))
        (W.contents output.old) (W.contents output.new) result }
{
    match UnwindContext::<usize>::new(alloc) {
        Ok(context) => {
            let mut walk = Walk {
                text: Text::new(alloc),
                kept: PlainRows::new(alloc, names),
                context,
            };
            print_either(output, &mut walk, names, printed, source)
        }
        Err(error) => write_refusal_in(output, printed.format(), error),
    }
}

/// Prints what is asked for of a section of either kind.
fn print_either<W: Write>(
    output: &mut W,
    walk: &mut Walk,
    names: RegisterNames,
    printed: Printed<'_>,
    source: &SectionSource<'_>,
) -> io::Result<u8>
    requires { IsEmpty walk.old.text }
    ensures { PrintsSome (IsPrinted names printed.entry (given_section (source_view source.now)))
        (W.contents output.old) (W.contents output.new) result }
{
    match source.section() {
        CallFrameSection::DebugFrame(frame) => {
            print_section(output, walk, names, printed, &frame, &source.bases)
        }
        CallFrameSection::EhFrame(frame) => {
            print_section(output, walk, names, printed, &frame, &source.bases)
        }
    }
}

/// Prints what is asked for of the section, and returns the status 0.
fn print_section<R: Reader<Offset = usize>, S: UnwindSection<R>, W: Write>(
    output: &mut W,
    walk: &mut Walk,
    names: RegisterNames,
    printed: Printed<'_>,
    section: &S,
    bases: &BaseAddresses,
) -> io::Result<u8>
    requires { IsEmpty walk.old.text }
    ensures { PrintsSome
        (IsPrinted names printed.entry (section_of (S.view section.now) bases.now))
        (W.contents output.old) (W.contents output.new) result }
{
    let at = InSection {
        section: *section,
        bases,
    };
    match printed {
        Printed::Entries(functions) => print_entries(output, walk, names, functions, &at),
        Printed::Rows(asked) => print_rows(output, walk, names, asked, &at),
    }
}

/// Prints the entries of the section, and returns the status 0.
fn print_entries<R: Reader<Offset = usize>, S: UnwindSection<R>, W: Write>(
    output: &mut W,
    walk: &mut Walk,
    names: RegisterNames,
    functions: &FunctionNames<'_>,
    at: &InSection<'_, S>,
) -> io::Result<u8>
    ensures { PrintsSome (λ line. line.status ≡ 0)
        (W.contents output.old) (W.contents output.new) result }
{
    write_entries(output, walk, names, functions, at)?;
    walk.text.write_to(output)?;
    Ok(0)
}

/// Prints the rows of FDEs of the section, and returns the status 0.
fn print_rows<R: Reader<Offset = usize>, S: UnwindSection<R>, W: Write>(
    output: &mut W,
    walk: &mut Walk,
    names: RegisterNames,
    asked: AskedRows<'_>,
    at: &InSection<'_, S>,
) -> io::Result<u8>
    requires { IsEmpty walk.old.text }
    ensures { Prints (text_output
        (asked_rows (style_of names asked.entry) asked.entry
        (section_of (S.view at.now.section) at.now.bases.now)))
        (W.contents output.old) (W.contents output.new) result }
{
    let format = asked.format;
    write_asked_rows(output, walk, Style { names, format }, asked, at)?;
    walk.text.write_to(output)?;
    Ok(0)
}
