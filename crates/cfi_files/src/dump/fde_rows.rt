//! The rows of an FDE.
ghost use Rattle.std.specs.Prelude.{◌≡◌, ℕ, Some, IfOk};
ghost use Rattle.cfi_read_core.specs.ReaderCalls.{map_ok};
ghost use Rattle.cfi_state.specs.ContextEffects.{setting_of};
ghost use Rattle.cfi_state.specs.FdeAnswers.{IsStateAfter};
ghost use Rattle.cfi_state.specs.AcceptedInstructions.{at_program};
ghost use Rattle.cfi_state.specs.Program.{Program};
ghost use Rattle.cfi_state.specs.UnwindTableStates.{answers_to_come};
ghost use Rattle.cfi_entry.specs.Sections.{section_of};
ghost use Rattle.cfi_unwind.specs.FdeViews.{HasCieOf, IsFdeOf, fde_view};
ghost use Rattle.cfi_unwind.specs.UnwindTableViews.{table_state};
ghost use Rattle.cfi_row_text.specs.AnswerLines.{answer_line};
ghost use Rattle.cfi_row_text.specs.Wordings.{of_section, text_style, worded};
ghost use Rattle.cfi_text.specs.Texts.{Puts};
ghost use Rattle.cfi_files.specs.FdeRows.{answer_lines, fde_rows};
ghost use Rattle.cfi_files.specs.Sending.{Sends};

use crate::dump::lines::{write_if_full, write_refused};
use crate::dump::walk::Walk;
use cfi_entry::in_section::InSection;
use cfi_row_text::plain_rows::PlainRows;
use cfi_row_text::row_words::put_answer;
use cfi_row_text::style::Style;
use cfi_text::register_names::RegisterNames;
use cfi_text::style::Format;
use cfi_text::text::Text;
use gimli_cfi::{
    _UnwindSectionPrivate, ArrayLike, Error, FrameDescriptionEntry, Reader, Register, RegisterRule,
    UnwindSection, UnwindTable, UnwindTableRow,
};
use std::io;
use std::io::Write;

/// Adds a line for each row of the FDE, and for each error among them.
pub(crate) fn write_rows<R: Reader<Offset = usize>, S: UnwindSection<R>, W: Write>(
    output: &mut W,
    walk: &mut Walk,
    style: Style,
    at: &InSection<'_, S>,
    fde: &FrameDescriptionEntry<R>,
) -> io::Result<()>
    requires own { IsFdeOf R.position (S.view at.now.section).position fde.now }
    requires cie { HasCieOf R.position (S.view at.now.section).position fde.now }
    ensures { let from = section_of (S.view at.now.section) at.now.bases.now in
        let rows = fde_rows from (fde_view R.position (λ n. n) fde.now) in
        Sends walk.old.text walk.new.text (W.contents output.old) (W.contents output.new) result
        (answer_lines (of_section style from) rows) }
{
    match fde.rows(&at.section, at.bases, &mut walk.context) {
        Ok(mut table) => write_table(
            output,
            &mut walk.text,
            &mut walk.kept,
            style,
            &at.section,
            &mut table,
        ),
        Err(error) => write_refused(output, &mut walk.text, style.format, error),
    }
}

/// Adds a line for each row that is left in the table, and for each error among them.
fn write_table<R: Reader<Offset = usize>, S: UnwindSection<R>, W: Write>(
    output: &mut W,
    text: &mut Text,
    kept: &mut PlainRows,
    style: Style,
    section: &S,
    table: &mut UnwindTable<'_, '_, R>,
) -> io::Result<()>
    ensures { let setting = setting_of table.old.parameters (Some 192) (Some 4) in
        let state = table_state R.position (λ n. n) table.old in
        let from = S.view section.now in
        let wording = worded style from.address_size from.position in
        (program : Program ℕ) → IsStateAfter setting state.so_far program
        → Sends text.old text.new (W.contents output.old) (W.contents output.new) result
        (answer_lines wording (answers_to_come setting (at_program state program))) }
{
    while let Some(answer) = table.next_row().transpose() {
        put_line(text, kept, style, section, answer);
        write_if_full(output, text)?;
    }
    Ok(())
}

/// Appends the line of an answer.
#[inline]
fn put_line<
    R: Reader<Offset = usize>,
    S: UnwindSection<R>,
    A: ArrayLike<Item = (Register, RegisterRule<usize>)>,
>(
    text: &mut Text,
    kept: &mut PlainRows,
    style: Style,
    section: &S,
    answer: Result<&UnwindTableRow<usize, A>, Error>,
)
    ensures { let from = S.view section.now in
        let wording = worded style from.address_size from.position in
        Puts (answer_line wording (map_ok (λ row. row.now) answer.entry)).text text.old text.new }
{
    match style.format {
        Format::Text => put_text_line(text, kept, style.names, section, answer),
        Format::Json => {
            put_answer(text, style, section, answer);
        }
    }
}

/// Appends the line of text of an answer. Rules that are those of an earlier row mostly take their
/// text from it.
#[inline]
fn put_text_line<
    R: Reader<Offset = usize>,
    S: UnwindSection<R>,
    A: ArrayLike<Item = (Register, RegisterRule<usize>)>,
>(
    text: &mut Text,
    kept: &mut PlainRows,
    names: RegisterNames,
    section: &S,
    answer: Result<&UnwindTableRow<usize, A>, Error>,
)
    ensures { let from = S.view section.now in
        let wording = worded (text_style names) from.address_size from.position in
        Puts (answer_line wording (map_ok (λ row. row.now) answer.entry)).text text.old text.new }
{
    if kept.put_next(text, names, answer) {
        return;
    }
    let format = Format::Text;
    put_answer(text, Style { names, format }, section, answer);
}
