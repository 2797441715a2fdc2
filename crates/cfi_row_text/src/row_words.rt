//! The line of a row with its expressions in words.
ghost use Rattle.std.specs.Prelude.{◌≡◌, ◌++◌, [], ◌∷◌};
ghost use Rattle.cfi_read_core.specs.ReaderCalls.{map_ok};
ghost use Rattle.gimli_cfi.specs.SectionSources.{given_section, source_view};
ghost use Rattle.cfi_text.specs.Texts.{Puts};
ghost use Rattle.cfi_row_text.specs.AnswerLines.{answer_end, answer_line, row_by_format, row_end};
ghost use Rattle.cfi_row_text.specs.ExpressionWords.{in_words};
ghost use Rattle.cfi_row_text.specs.RowLines.{frame_saying, row_saying, rules_saying};
ghost use Rattle.cfi_row_text.specs.Wordings.{of_section, worded};

use crate::expression_words::InWords;
use crate::json_row::{put_json_members, put_json_row};
use crate::refusal_text::{put_refusal_end, put_refusal_told};
use crate::register_rules::HasRules;
use crate::row_line::{put_by_number, put_row};
use crate::row_text::put_frame_saying;
use crate::style::Style;
use cfi_text::register_names::RegisterNames;
use cfi_text::style::Format;
use cfi_text::text::Text;
use gimli_cfi::{
    _UnwindSectionPrivate, ArrayLike, CallFrameSection, CfaRule, Error, Reader, Register,
    RegisterRule, SectionSource, UnwindSection, UnwindTableRow,
};

/// Puts the line of an answer from the section, and returns the status: 0 for a row, 1 for an
/// error. Allocates where the text has no room.
pub fn put_answer<
    R: Reader<Offset = usize>,
    S: UnwindSection<R>,
    A: ArrayLike<Item = (Register, RegisterRule<usize>)>,
>(
    text: &mut Text,
    style: Style,
    section: &S,
    answer: Result<&UnwindTableRow<usize, A>, Error>,
) -> u8
    ensures text { let from = S.view section.now in
        let wording = worded style from.address_size from.position in
        Puts (answer_line wording (map_ok (λ row. row.now) answer.entry)).text
        text.old text.new }
    ensures status { let from = S.view section.now in
        let wording = worded style from.address_size from.position in
        result ≡ (answer_line wording (map_ok (λ row. row.now) answer.entry)).status }
{
    match answer {
        Ok(row) => {
            put_row_in(text, style, section, row);
            0
        }
        Err(error) => {
            put_refusal_told(text, style.format, error);
            1
        }
    }
}

/// Puts the end of the line of an answer from the section, after what was asked for, and returns
/// the status: 0 for a row, 1 for an error. In JSON it is the end of an object that has begun.
/// Allocates where the text has no room.
pub fn put_answer_end<A: ArrayLike<Item = (Register, RegisterRule<usize>)>>(
    text: &mut Text,
    style: Style,
    source: &SectionSource<'_>,
    answer: Result<&UnwindTableRow<usize, A>, Error>,
) -> u8
    ensures text { let from = given_section (source_view source.now) in
        Puts (answer_end (of_section style from) (map_ok (λ row. row.now) answer.entry)).text
        text.old text.new }
    ensures status { let from = given_section (source_view source.now) in result
        ≡ (answer_end (of_section style from) (map_ok (λ row. row.now) answer.entry)).status }
{
    match answer {
        Ok(row) => {
            put_row_of(text, style, source, row);
            0
        }
        Err(error) => {
            put_refusal_end(text, style.format, error);
            1
        }
    }
}

/// Puts the end of the line of a row from the section.
fn put_row_of<A: ArrayLike<Item = (Register, RegisterRule<usize>)>>(
    text: &mut Text,
    style: Style,
    source: &SectionSource<'_>,
    row: &UnwindTableRow<usize, A>,
)
    ensures { let from = given_section (source_view source.now) in
        Puts (row_end style.format (of_section style from) row.now ++ 10 ∷ [])
        text.old text.new }
{
    match source.section() {
        CallFrameSection::DebugFrame(frame) => put_row_end(text, style, &frame, row),
        CallFrameSection::EhFrame(frame) => put_row_end(text, style, &frame, row),
    }
}

/// Puts the end of the line of a row from the section, its registers in ascending order.
fn put_row_end<
    R: Reader<Offset = usize>,
    S: UnwindSection<R>,
    A: ArrayLike<Item = (Register, RegisterRule<usize>)>,
>(text: &mut Text, style: Style, section: &S, row: &UnwindTableRow<usize, A>)
    ensures { let from = S.view section.now in
        let wording = worded style from.address_size from.position in
        Puts (row_end style.format wording row.now ++ 10 ∷ []) text.old text.new }
{
    match style.format {
        Format::Text => put_row_words(text, style.names, section, row),
        Format::Json => put_json_members(text, style, section, row),
    }
}

/// Puts the line of a row from the section, its registers in ascending order.
fn put_row_in<
    R: Reader<Offset = usize>,
    S: UnwindSection<R>,
    A: ArrayLike<Item = (Register, RegisterRule<usize>)>,
>(text: &mut Text, style: Style, section: &S, row: &UnwindTableRow<usize, A>)
    ensures { let from = S.view section.now in
        let wording = worded style from.address_size from.position in
        Puts (row_by_format style.format wording row.now ++ 10 ∷ []) text.old text.new }
{
    match style.format {
        Format::Text => put_row_words(text, style.names, section, row),
        Format::Json => put_json_row(text, style, section, row),
    }
}

/// Puts the row as a line of text.
fn put_row_words<
    R: Reader<Offset = usize>,
    S: UnwindSection<R>,
    A: ArrayLike<Item = (Register, RegisterRule<usize>)>,
>(text: &mut Text, names: RegisterNames, section: &S, row: &UnwindTableRow<usize, A>)
    ensures { let from = S.view section.now in
        let say = in_words names from.address_size from.position in
        Puts (row_saying say names row.now ++ 10 ∷ []) text.old text.new }
{
    put_row(text, &InWords::<R, S>::new(names, section), names, row);
}

/// Puts the rule of the canonical frame address and the argument size, each after its name.
/// Allocates where the text has no room.
pub fn put_frame<R: Reader<Offset = usize>, S: UnwindSection<R>>(
    text: &mut Text,
    names: RegisterNames,
    section: &S,
    cfa: CfaRule<usize>,
    args_size: u64,
)
    ensures { let from = S.view section.now in
        let say = in_words names from.address_size from.position in
        Puts (frame_saying say names cfa args_size) text.old text.new }
{
    let say = InWords::<R, S>::new(names, section);
    put_frame_saying(text, &say, names, cfa, args_size);
}

/// Puts the rules, each looked up by its number. Allocates where the text has no room.
pub fn put_rules<R: Reader<Offset = usize>, S: UnwindSection<R>, H: HasRules>(
    text: &mut Text,
    names: RegisterNames,
    section: &S,
    row: &H,
)
    ensures { let from = S.view section.now in
        let say = in_words names from.address_size from.position in
        Puts (rules_saying say names (H.parts row.now)) text.old text.new }
{
    put_by_number(text, &InWords::<R, S>::new(names, section), names, row);
}
