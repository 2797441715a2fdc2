//! The compiled table of a section: its steps, a line each.
ghost use Rattle.std.specs.Prelude.{◌≡◌, ◌≤◌, ℕ, None};
ghost use Rattle.std.specs.FinMap as map;
ghost use Rattle.cfi_compiled.specs.CompiledRows.{parts_kept};

use crate::error::FileError;
use cfi_compiled::{CompiledRow, CompiledStep, CompiledTable};
use cfi_row_text::register_rules::{HasRules, number_after};
use cfi_row_text::row_words::{put_frame, put_rules};
use cfi_text::error_words::ErrorWords;
use cfi_text::reading::InputError;
use cfi_text::register_names::RegisterNames;
use cfi_text::style::Format;
use cfi_text::text::Text;
use gimli_cfi::{
    _UnwindSectionPrivate, BaseAddresses, CallFrameSection, Reader, Register, RegisterRule,
    SectionSource, UnwindSection,
};
use std::alloc::Global;
use std::io;
use std::io::Write;

/// How much text may wait for another line.
const FULL: usize = 4096;

/// Prints the rows for all addresses, by the compiled table of the section, and returns the status.
///
/// Status 0: there is a line for each step of the table, in the order of their addresses: the first
/// address, and the CFA, the argument size and the rules from there up to the next step; or
/// `refused` and the name of the error. Status 1: `refused OutOfMemory`. Fails where the output
/// can't be written.
///
/// Allocates a context, the table and the text of a line.
pub(crate) fn print_compiled<W: Write>(
    alloc: Global,
    names: RegisterNames,
    source: &SectionSource<'_>,
    text: &mut Text,
    output: &mut W,
) -> io::Result<u8> {
    match source.section() {
        CallFrameSection::DebugFrame(frame) => {
            print_table(alloc, names, &frame, &source.bases, text, output)
        }
        CallFrameSection::EhFrame(frame) => {
            print_table(alloc, names, &frame, &source.bases, text, output)
        }
    }
}

/// Prints the steps of the compiled table of the section, and returns the status.
fn print_table<R: Reader<Offset = usize>, S: UnwindSection<R>, W: Write>(
    alloc: Global,
    names: RegisterNames,
    section: &S,
    bases: &BaseAddresses,
    text: &mut Text,
    output: &mut W,
) -> io::Result<u8> {
    match CompiledTable::new(alloc, section, bases) {
        Ok(table) => {
            for step in table.iter() {
                put_step(text, names, section, &step);
                if text.as_bytes().len() > FULL {
                    text.write_to(output)?;
                }
            }
            text.write_to(output)?;
            Ok(0)
        }
        Err(_) => { FileError::Input(InputError::OutOfMemory).print(text, Format::Text, output) }
    }
}

/// Appends the line of a step.
fn put_step<R: Reader<Offset = usize>, S: UnwindSection<R>>(
    text: &mut Text,
    names: RegisterNames,
    section: &S,
    step: &CompiledStep<'_>,
) {
    text.address(step.start);
    match step.row {
        Ok(row) => {
            put_frame(text, names, section, *row.cfa(), row.saved_args_size());
            put_rules(text, names, section, &TableRow(&row));
        }
        Err(error) => {
            text.put(b" refused ");
            text.show(ErrorWords {
                format: Format::Text,
                error,
            });
        }
    }
    text.put(b"\n");
}

/// A row of a table, whose rules are written.
#[derive(Drop)]
struct TableRow<'row, 'table>(&'row CompiledRow<'table>);

impl HasRules for TableRow<'_, '_> {
    ghost parts = { λ row. parts_kept row.0.now };

    fn rule(&self, register: Register) -> Option<RegisterRule<usize>> {
        self.0.register(register)
    }

    fn end(&self) -> u32 {
        let mut end = 0u32;
        for pair in self.0.registers() {
            end = end.max(number_after(pair.0));
        }
        end
    }
}
