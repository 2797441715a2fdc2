//! The table of an FDE, which gives its rows one after the other (DWARF 5 section 6.4.1).
ghost use Rattle.std.specs.Prelude.{◌≡◌, [], false, IfNone, IfOk, IfSome, IsTrue, MatchResult};
ghost use Rattle.std.specs.Borrow.{sem};
ghost use Rattle.std.specs.Io.BufRead.{Rests};
ghost use mir.Syntax.{named};
ghost use Rattle.cfi_parts.specs.InstructionIterators.{instruction_reader};
ghost use Rattle.cfi_parts.specs.InstructionReaders.{instructions_left};
ghost use Rattle.cfi_state.specs.UnwindContexts.{empty_context};
ghost use Rattle.cfi_state.specs.ContextEffects.{setting_of};
ghost use Rattle.cfi_state.specs.Machine.{fresh_state};
ghost use Rattle.cfi_state.specs.UnwindTableStates.{before_last_row};
ghost use Rattle.cfi_state.specs.Allocation.{may_allocate};
ghost use Rattle.cfi_state.specs.MachineRuns.{RunsInitialInstructions};
ghost use Rattle.cfi_read_core.specs.ReaderCalls.{map_ok};
ghost use Rattle.cfi_entry.specs.Sections.{section_of};
ghost use Rattle.cfi_unwind.specs.FdeViews.{HasCieOf, IsFdeOf, fde_view};
ghost use Rattle.cfi_unwind.specs.UnwindTableCalls.{GivesNextAnswer, AnswersWithoutMachine};
ghost use Rattle.cfi_unwind.specs.UnwindTableCalls.{IsNextOrMemory, KeepsExpressionsIn};
ghost use Rattle.cfi_unwind.specs.UnwindTableCalls.{AcceptsCieProgram, LendsNextRow, row_due};
ghost use Rattle.cfi_unwind.specs.UnwindTableCalls.{row_given, state_after, state_in_numbers};

use crate::entry::FrameDescriptionEntry;
use crate::unwind_section::UnwindSection;
use cfi_parts::instruction::CallFrameInstructionIter;
use cfi_parts::pointer::BaseAddresses;
use cfi_read_core::{Reader, Result, StoreOnHeap};
use cfi_state::storage::UnwindContextStorage;
use cfi_state::table::context::UnwindContext;
use cfi_state::table::machine::{
    InstructionRunner, Parameters, current_row, end_cie, reset, set_addresses,
};
use cfi_state::table::row::UnwindTableRow;

/// The rows of an FDE, in order (DWARF 5 section 6.4.1).
///
/// The rows are made in an unwind context, and each is borrowed from it until the next call.
/// Nothing is copied. Memory is allocated only by lists of the context without a limit, and by a
/// storage whose copies of rows allocate.
#[derive(Drop)]
#[derive_where(Debug)]
pub struct UnwindTable<'a, 'ctx, R: Reader, S: UnwindContextStorage<R::Offset> = StoreOnHeap> {
    parameters: Parameters,
    instructions: CallFrameInstructionIter<'a, R>,
    next_start_address: u64,
    // Whether the last row was returned.
    has_ended: bool,
    // Whether the context's row is the one that was returned last.
    holds_row: bool,
    context: &'ctx mut UnwindContext<R::Offset, S>,
}

impl<'a, 'ctx, R: Reader, S: UnwindContextStorage<R::Offset>> UnwindTable<'a, 'ctx, R, S> {
    ghost use Rattle.cfi_unwind.specs.contracts.unwind_table.UnwindTable.{the_row};
    ghost use Rattle.cfi_unwind.specs.UnwindTableViews.{HasSettingOf, IsNewTable, table_parameters};
    ghost use Rattle.cfi_unwind.specs.UnwindTableViews.{context_name, context_now, context_row};
    ghost use Rattle.cfi_unwind.specs.UnwindTableViews.{holds_row, table_setting, table_state};

    /// Makes the table of an FDE, whose rows are made in the context.
    ///
    /// The context is emptied, so its past does not matter. Then the CIE's initial instructions
    /// run, and their final rules are kept for `DW_CFA_restore`. The table is then before the FDE's
    /// first row; none of the FDE's instructions is read yet.
    ///
    /// The rows follow each other from the FDE's first address to its end, so that each of its
    /// addresses is in exactly one row.
    ///
    /// The FDE and its CIE must be of this section; the bases are those of the section's entries.
    /// Fails with the first error of the CIE's initial instructions: that one can't be read or run,
    /// or `StackFull` where there is no room for their final rules. With a fixed storage it never
    /// fails with `OutOfMemory`; with another one it may.
    pub fn new<Section: UnwindSection<R>>(
        section: &'a Section,
        bases: &'a BaseAddresses,
        ctx: &'ctx mut UnwindContext<R::Offset, S>,
        fde: &FrameDescriptionEntry<R>,
    ) -> Result<Self>
        requires own { IsFdeOf R.position (Section.view section.now).position fde.now }
        requires cie { HasCieOf R.position (Section.view section.now).position fde.now }
        ensures starts { IsNewTable R.position R.Offset.number
            S.Rules.limit S.Stack.limit S.Rules.copies_free
            (section_of (Section.view section.now) bases.now)
            (fde_view R.position R.Offset.number fde.now) result }
        ensures setting { IfOk result (HasSettingOf (fde_view R.position R.Offset.number fde.now)) }
        ensures holds_row { IfOk result (λ table. holds_row table ≡ false) }
        ensures same_reference { IfOk result (λ table. context_name table ≡ ctx.entry.ghost_name) }
    {
        let initial = fde.cie.instructions(section, bases);
        let instructions = fde.instructions(section, bases);
        Self::with_instructions(fde.parameters(), initial, instructions, ctx)
    }

    /// Makes the table of the instructions of an FDE and its CIE.
    // Not inlined: it is called once for an FDE, from each place that goes over rows.
    #[inline(never)]
    pub(crate) fn with_instructions(
        parameters: Parameters,
        cie_instructions: CallFrameInstructionIter<'_, R>,
        fde_instructions: CallFrameInstructionIter<'a, R>,
        context: &'ctx mut UnwindContext<R::Offset, S>,
    ) -> Result<Self>
        ensures cie { let s = setting_of parameters S.Rules.limit S.Stack.limit in
            RunsInitialInstructions (may_allocate s S.Rules.copies_free) s fresh_state
            (instructions_left (instruction_reader R.position cie_instructions.entry))
            (map_ok (λ table. (table_state R.position R.Offset.number table).so_far) result) }
        ensures kept { AcceptsCieProgram
            (setting_of parameters S.Rules.limit S.Stack.limit) S.Rules.copies_free
            (instructions_left (instruction_reader R.position cie_instructions.entry))
            (map_ok (λ table. (table_state R.position R.Offset.number table).so_far) result) }
        ensures fde { IfOk result (λ table. table.instructions ≡ fde_instructions.entry) }
        ensures parameters { IfOk result (λ table. table.parameters ≡ parameters) }
        ensures has_ended { IfOk result (λ table. table.has_ended ≡ false) }
        ensures holds_row { IfOk result (λ table. holds_row table ≡ false) }
        ensures same_reference { IfOk result (λ table.
            context_name table ≡ context.entry.ghost_name) }
    {
        reset(context);
        run_initial(context, &parameters, cie_instructions)?;
        Ok(UnwindTable {
            parameters,
            instructions: fde_instructions,
            next_start_address: parameters.initial_address,
            has_ended: false,
            holds_row: false,
            context,
        })
    }

    /// Makes the next row in the context. Returns whether there is one.
    #[inline(always)]
    fn advance(&mut self) -> Result<bool>
        ensures next { GivesNextAnswer
            (table_setting self.old S.Rules.limit S.Stack.limit) S.Rules.copies_free
            (table_state R.position R.Offset.number self.old)
            (row_given R.Offset.number (context_now self.new) result)
            (table_state R.position R.Offset.number self.new) }
        ensures kept { AnswersWithoutMachine
            (table_setting self.old S.Rules.limit S.Stack.limit) S.Rules.copies_free
            (table_state R.position R.Offset.number self.old)
            (row_given R.Offset.number (context_now self.new) result)
            (table_state R.position R.Offset.number self.new) }
        ensures due { IsNextOrMemory
            (table_setting self.old S.Rules.limit S.Stack.limit) S.Rules.copies_free
            (table_state R.position R.Offset.number self.old)
            (row_given R.Offset.number (context_now self.new) result)
            (table_state R.position R.Offset.number self.new) }
        ensures expressions { KeepsExpressionsIn
            (table_state R.position R.Offset.number self.old)
            (row_given R.Offset.number (context_now self.new) result)
            (table_state R.position R.Offset.number self.new) }
        ensures holds_row { MatchResult result
            (λ found. holds_row self.new ≡ found) (λ _. holds_row self.new ≡ false) }
        ensures parameters { table_parameters self.new ≡ table_parameters self.old }
        ensures same_reference { context_name self.new ≡ context_name self.old }
    {
        self.holds_row = false;
        if self.has_ended {
            return Ok(false);
        }
        let start = self.next_start_address;
        let moved = run_to_move(
            self.context,
            &self.parameters,
            start,
            &mut self.instructions,
        )?;
        let mut end = self.parameters.end_address;
        if let Some(address) = moved {
            self.next_start_address = address;
            end = address;
        } else {
            self.has_ended = true;
        }
        set_addresses(self.context, start, end);
        self.holds_row = true;
        Ok(true)
    }

    /// Returns the next row, borrowed from the context, or `None` after the last one.
    ///
    /// Runs the FDE's instructions up to the next one that moves the location, or to their end,
    /// where the row reaches up to the end of the FDE's range. An instruction that fails changes
    /// nothing, and the next call goes on after it. After one that can't be read only the last row
    /// is left. Fails with `OutOfMemory` only where an instruction allocates.
    //
    // The row is borrowed from the context, so the clause is about the table once that borrow has
    // ended (`Rests`). The lines after `the_row` name the types of the row's storage and what is
    // known of them; the promise begins at `LendsNextRow`.
    #[inline(always)]
    pub fn next_row(&mut self) -> Result<Option<&UnwindTableRow<R::Offset, S::Rules>>>
        ensures* after_borrow { sem 𝓛 (Rests
            (the_row (record { mir = named 1; lft = [] }) (record { mir = named 2; lft = [] })
            R.row S.row R.Offset.row R.Endian.row S.Rules.row S.Stack.row
            R.Reader.own R.Debug R.PartialEq
            R.Offset.ReaderOffset.own R.Offset.PartialEq R.Offset.Ord.own R.Offset.PartialOrd.own
            R.Offset.Debug
            R.Endian.Endianity.own R.Endian.Debug R.Endian.PartialEq
            S.Rules.ArrayLike S.Rules.CopyList.own S.Stack.ArrayLike)
            self.entry
            (λ new. LendsNextRow R.Offset.number
            (table_setting self.old S.Rules.limit S.Stack.limit) S.Rules.copies_free
            (table_state R.position R.Offset.number self.old) result
            (table_state R.position R.Offset.number new) (context_now new) (holds_row new)
            × (table_parameters new ≡ table_parameters self.old)
            × (context_name new ≡ context_name self.old))) }
    {
        if self.advance()? {
            Ok(Some(current_row(self.context)))
        } else {
            Ok(None)
        }
    }

    /// Returns the row that the last call of `next_row` returned, borrowed from the context for as
    /// long as the context is borrowed. Returns `None` where that call returned `None` or an error,
    /// and where there was no such call.
    #[inline(always)]
    pub fn into_current_row(self) -> Option<&'ctx UnwindTableRow<R::Offset, S::Rules>>
        ensures some { IfSome result (λ row.
            (row.now ≡ context_row self.entry) × IsTrue (holds_row self.entry)) }
        ensures none { IfNone result (holds_row self.entry ≡ false) }
    {
        let UnwindTable {
            context,
            holds_row,
            ..
        } = self;
        if holds_row {
            Some(current_row(context))
        } else {
            None
        }
    }
}

/// Runs the instructions up to the first that moves, fails or can't be read, or to the end. Returns
/// the address of the move, or `None` at the end.
#[inline(always)]
fn run_to_move<'a, R: Reader, S: UnwindContextStorage<R::Offset>>(
    context: &mut UnwindContext<R::Offset, S>,
    parameters: &Parameters,
    location: u64,
    instructions: &mut CallFrameInstructionIter<'a, R>,
) -> Result<Option<u64>>
    ensures next { let s = setting_of parameters.now S.Rules.limit S.Stack.limit in
        GivesNextAnswer s S.Rules.copies_free
        (before_last_row (state_in_numbers R.Offset.number location context.old)
        (instructions_left (instruction_reader R.position instructions.old)))
        (row_due R.Offset.number s location context.new result)
        (state_after R.Offset.number location context.new
        (instructions_left (instruction_reader R.position instructions.new)) result) }
{
    let runner = InstructionRunner {
        parameters,
        location,
    };
    while let Some(moved) = instructions.visit_next(&runner, context)? {
        if let Some(address) = moved? {
            return Ok(Some(address));
        }
    }
    Ok(None)
}

/// Runs the CIE's initial instructions, whose moves end no rows, in an empty context.
#[inline(always)]
fn run_initial<R: Reader, S: UnwindContextStorage<R::Offset>>(
    context: &mut UnwindContext<R::Offset, S>,
    parameters: &Parameters,
    instructions: CallFrameInstructionIter<'_, R>,
) -> Result<()>
    requires empty { context.old ≡ empty_context }
    ensures { let s = setting_of parameters.now S.Rules.limit S.Stack.limit in
        RunsInitialInstructions (may_allocate s S.Rules.copies_free) s fresh_state
        (instructions_left (instruction_reader R.position instructions.entry))
        (map_ok (λ _. state_in_numbers R.Offset.number s.initial_address context.new) result) }
{
    let mut rest = instructions;
    let mut location = 0;
    while let Some(moved) = rest.visit_next(
        &InstructionRunner {
            parameters,
            location,
        },
        context,
    )? {
        if let Some(address) = moved? {
            location = address;
        }
    }
    end_cie(context)
}
