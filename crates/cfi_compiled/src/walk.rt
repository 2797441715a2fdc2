//! The rows of FDEs as steps.
ghost use Rattle.std.specs.Prelude.{◌≡◌, ◌≢◌, ◌<◌, ◌≤◌, ◌+◌, ℕ, Ok, Err, OnOk, map};
ghost use Rattle.std.specs.List.{All};
ghost use Rattle.cfi_read_core.specs.declared.error.Error.TheVariants.{OutOfMemory};
ghost use Rattle.cfi_state.specs.ContextEffects.{setting_of};
ghost use Rattle.cfi_state.specs.FdeAnswers.{AreConsecutive, answer_at, rows_of};
ghost use Rattle.cfi_state.specs.UnwindTableStates.{run_answers_to_come};
ghost use Rattle.cfi_entry.specs.Fdes.{end_of};
ghost use Rattle.cfi_entry.specs.Sections.{section_of};
ghost use Rattle.cfi_unwind.specs.FdeViews.{HasCieOf, IsFdeOf, fde_view};
ghost use Rattle.cfi_unwind.specs.Scan.{answer_by};
ghost use Rattle.cfi_unwind.specs.UnwindTableViews.{table_state};
ghost use Rattle.cfi_compiled.specs.CoveringFdes.{first_of};
ghost use Rattle.cfi_compiled.specs.FrameParts.{frame_parts, frame_of_fde, frame_of_row};
ghost use Rattle.cfi_compiled.specs.Pieces.{Ascend, owner, spans_from};
ghost use Rattle.cfi_compiled.specs.Steps.{IsFrom, IsWithin, SameBelow};

use crate::facts::{CieFacts, facts_of};
use crate::pieces::{Piece, greater};
use crate::steps::{NoMemory, StepSink};
use cfi_parts::pointer::BaseAddresses;
use cfi_read_core::{Error, Reader, Register};
use cfi_state::storage::{ArrayLike, UnwindContextStorage};
use cfi_state::table::context::UnwindContext;
use cfi_state::table::row::UnwindTableRow;
use cfi_state::table::rules::RegisterRule;
use cfi_unwind::entry::FrameDescriptionEntry;
use cfi_unwind::unwind_section::UnwindSection;
use cfi_unwind::unwind_table::UnwindTable;

/// Takes the steps of FDEs, piece by piece: each address belongs to the first FDE that contains
/// it.
pub(crate) fn walk_fdes<
    R: Reader<Offset = usize>,
    S: UnwindSection<R>,
    K: StepSink,
    C: UnwindContextStorage<usize>,
>(
    sink: &mut K,
    section: &S,
    bases: &BaseAddresses,
    context: &mut UnwindContext<usize, C>,
    fdes: &[FrameDescriptionEntry<R>],
    pieces: &[Piece],
    outside: Error,
) -> Result<(), NoMemory>
    requires own { All (IsFdeOf R.position (S.view section.now).position) fdes.now }
    requires cie { All (HasCieOf R.position (S.view section.now).position) fdes.now }
    requires ascend { Ascend 0 pieces.now }
    requires owner { (a : ℕ) → owner a pieces.now
        ≡ owner a (spans_from 0 (map (fde_view R.position (λ n. n)) fdes.now)) }
    requires free { K.free sink.old ≡ 0 }
    ensures { let s = section_of (S.view section.now) bases.now in
        OnOk result ((a : ℕ) → K.answer sink.new a
        ≡ answer_by (frame_of_fde C.Rules.limit C.Stack.limit s a)
        (first_of a (map (fde_view R.position (λ n. n)) fdes.now) (Err outside))) }
{
    let mut end = 0;
    for piece in pieces {
        take_gap(sink, end, piece.from, outside)?;
        let fde = &fdes[piece.of];
        take_fde(sink, section, bases, context, fde, piece.from, piece.to)?;
        end = piece.to;
    }
    sink.error(end, outside)?;
    Ok(())
}

/// Takes the step of a gap between two FDEs, where there is one.
fn take_gap<K: StepSink>(sink: &mut K, from: u64, to: u64, outside: Error) -> Result<(), NoMemory>
    requires order { from ≤ to }
    requires free { K.free sink.old ≤ from }
    ensures before { OnOk result (SameBelow from (K.answer sink.new) (K.answer sink.old)) }
    ensures within { OnOk result (IsWithin from to (K.answer sink.new) (λ _. Err outside)) }
    ensures free { OnOk result (K.free sink.new ≤ to) }
{
    if from < to {
        sink.error(from, outside)
    } else {
        Ok(())
    }
}

/// Takes the step of an error. Where memory was refused there is no table.
fn take_refusal<K: StepSink>(sink: &mut K, from: u64, refusal: Error) -> Result<(), NoMemory>
    requires { K.free sink.old ≤ from }
    ensures due { OnOk result (refusal ≢ OutOfMemory) }
    ensures before { OnOk result (SameBelow from (K.answer sink.new) (K.answer sink.old)) }
    ensures after { OnOk result (IsFrom from (K.answer sink.new) (Err refusal)) }
    ensures free { OnOk result (K.free sink.new ≤ from + 1) }
{
    match refusal {
        Error::OutOfMemory => Err(NoMemory),
        _ => sink.error(from, refusal),
    }
}

/// Takes the steps of an FDE, from an address of it up to another.
fn take_fde<
    R: Reader<Offset = usize>,
    S: UnwindSection<R>,
    K: StepSink,
    C: UnwindContextStorage<usize>,
>(
    sink: &mut K,
    section: &S,
    bases: &BaseAddresses,
    context: &mut UnwindContext<usize, C>,
    fde: &FrameDescriptionEntry<R>,
    from: u64,
    to: u64,
) -> Result<(), NoMemory>
    requires own { IsFdeOf R.position (S.view section.now).position fde.now }
    requires cie { HasCieOf R.position (S.view section.now).position fde.now }
    requires start { (fde_view R.position (λ n. n) fde.now).initial ≤ from }
    requires some { from < to }
    requires last { to ≤ end_of (fde_view R.position (λ n. n) fde.now) }
    requires free { K.free sink.old ≤ from }
    ensures before { OnOk result (SameBelow from (K.answer sink.new) (K.answer sink.old)) }
    ensures within { let s = section_of (S.view section.now) bases.now in
        OnOk result (IsWithin from to (K.answer sink.new) (λ a.
        frame_of_fde C.Rules.limit C.Stack.limit s a (fde_view R.position (λ n. n) fde.now))) }
    ensures free { OnOk result (K.free sink.new ≤ to) }
{
    match fde.rows(section, bases, context) {
        Ok(mut rows) => walk_rows(sink, &mut rows, facts_of(fde), from, to)?,
        Err(refusal) => take_refusal(sink, from, refusal)?,
    }
    Ok(())
}

/// Takes the steps of rows that follow each other, from an address up to another or the first
/// error.
fn walk_rows<R: Reader<Offset = usize>, K: StepSink, C: UnwindContextStorage<usize>>(
    sink: &mut K,
    rows: &mut UnwindTable<'_, '_, R, C>,
    facts: CieFacts,
    first: u64,
    end: u64,
) -> Result<(), NoMemory>
    requires some { first < end }
    requires free { K.free sink.old ≤ first }
    requires start { let s = setting_of rows.old.parameters C.Rules.limit C.Stack.limit in
        s.initial_address ≤ first }
    requires last { let s = setting_of rows.old.parameters C.Rules.limit C.Stack.limit in
        end ≤ s.end_address }
    requires consecutive { let s = setting_of rows.old.parameters C.Rules.limit C.Stack.limit in
        let left = run_answers_to_come s (table_state R.position (λ n. n) rows.old) in
        AreConsecutive s.initial_address (rows_of left) s.end_address }
    ensures before { OnOk result (SameBelow first (K.answer sink.new) (K.answer sink.old)) }
    ensures within { let s = setting_of rows.old.parameters C.Rules.limit C.Stack.limit in
        let left = run_answers_to_come s (table_state R.position (λ n. n) rows.old) in
        OnOk result (IsWithin first end (K.answer sink.new)
        (λ a. frame_of_row facts (answer_at a left))) }
    ensures free { OnOk result (K.free sink.new ≤ end) }
{
    let mut from = first;
    while let Some(answer) = rows.next_row().transpose() {
        match answer {
            Ok(row) => {
                let to = row.end_address();
                take_row(sink, row, facts, from)?;
                if end <= to {
                    return Ok(());
                }
                from = greater(from, to);
            }
            Err(refusal) => {
                take_refusal(sink, from, refusal)?;
                return Ok(());
            }
        }
    }
    Ok(())
}

/// Takes the step of a row that begins at an address, where it isn't empty.
fn take_row<K: StepSink, A: ArrayLike<Item = (Register, RegisterRule<usize>)>>(
    sink: &mut K,
    row: &UnwindTableRow<usize, A>,
    facts: CieFacts,
    from: u64,
) -> Result<(), NoMemory>
    requires free { K.free sink.old ≤ from }
    ensures before { OnOk result (SameBelow from (K.answer sink.new) (K.answer sink.old)) }
    ensures within { OnOk result
        (IsWithin from row.now.end_address (K.answer sink.new)
        (λ _. Ok (frame_parts facts row.now.parts))) }
    ensures free { OnOk result (K.free sink.new ≤ from + 1) }
    ensures free_at { OnOk result (row.now.end_address ≤ from → K.free sink.new ≤ from) }
{
    if from < row.end_address() {
        sink.row(from, row, facts)
    } else {
        Ok(())
    }
}
