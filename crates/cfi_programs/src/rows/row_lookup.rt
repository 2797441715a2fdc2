//! The row for the address that a request asks for.
ghost use Rattle.cfi_read_core.specs.ReaderCalls.{map_ok};
ghost use Rattle.cfi_programs.specs.RowsProgramOutput.{limits, rows_tool, rows_tool_with};
ghost use Rattle.cfi_programs.specs.RowsProgramOutput.{IsRequestedRow};
ghost use Rattle.cfi_programs.specs.Input.{bytes_of_sections};
ghost use Rattle.cfi_programs.specs.Runs.{PutsAnswer};

use crate::input::Sections;
use crate::rows::command_line::{Request, Storage};
use cfi_row_text::refusal_text::put_refusal;
use cfi_row_text::row_line::put_plain_answer;
use cfi_text::register_names::RegisterNames;
use cfi_text::text::Text;
use gimli_cfi::{
    Error, StoreGrowing, StoreOnHeap, UnwindContext, UnwindContextStorage, UnwindTableRow,
};
use std::alloc::Global;

/// Puts the answer to the request, and returns its status. Allocates for the unwind, and where the
/// text has no room.
pub fn put_answer(text: &mut Text, alloc: Global, request: &Request, sections: &Sections) -> u8
    ensures { PutsAnswer rows_tool request.now (bytes_of_sections sections.now)
        text.old text.new result }
{
    match request.storage {
        Storage::OnHeap => put_row::<StoreOnHeap>(text, alloc, request, sections),
        Storage::Growing => put_row::<StoreGrowing>(text, alloc, request, sections),
    }
}

/// Puts the answer to the request, with the unwind's rows in the storage `S`.
fn put_row<S: UnwindContextStorage<usize>>(
    text: &mut Text,
    alloc: Global,
    request: &Request,
    sections: &Sections,
) -> u8
    ensures { PutsAnswer
        (rows_tool_with (λ _. limits S.Rules.limit S.Stack.limit S.Rules.copies_free))
        request.now (bytes_of_sections sections.now) text.old text.new result }
{
    let mut context = match UnwindContext::<usize, S>::new_in(alloc) {
        Ok(context) => context,
        Err(error) => {
            put_refusal(text, error);
            return 1;
        }
    };
    let answer = find_row(request, sections, &mut context);
    put_plain_answer(text, RegisterNames::Numbers, answer)
}

/// Returns the row for the request's address.
fn find_row<'ctx, S: UnwindContextStorage<usize>>(
    request: &Request,
    sections: &Sections,
    context: &'ctx mut UnwindContext<usize, S>,
) -> Result<&'ctx UnwindTableRow<usize, S::Rules>, Error>
    ensures { IsRequestedRow (limits S.Rules.limit S.Stack.limit S.Rules.copies_free)
        request.now (bytes_of_sections sections.now) (map_ok (λ row. row.now) result) }
{
    let header = sections.header.as_slice();
    let source = request.words.source(sections.section.as_slice(), header);
    source.row(context, request.address)
}
