//! An FDE's own calls: its table of rows, and the row that it gives for an address, with the loop
//! that finds it.
ghost use Rattle.std.specs.Prelude.{◌≡◌, ℕ, Option, IfOk, false};
ghost use Rattle.cfi_parts.specs.InstructionIterators.{instruction_reader};
ghost use Rattle.cfi_parts.specs.InstructionReaders.{instructions_left};
ghost use Rattle.cfi_state.specs.Allocation.{may_allocate};
ghost use Rattle.cfi_state.specs.ContextEffects.{setting_of};
ghost use Rattle.cfi_state.specs.MachineRuns.{AnswersFde};
ghost use Rattle.cfi_state.specs.MappedStates.{row_lent};
ghost use Rattle.cfi_state.specs.Row.{RowContains};
ghost use Rattle.cfi_state.specs.RowExpressions.{HasExpressionsIn};
ghost use Rattle.cfi_entry.specs.Sections.{section_of};
ghost use Rattle.cfi_unwind.specs.AddressRow.{IsRowOfFde, setting};
ghost use Rattle.cfi_unwind.specs.FdeViews.{HasCieOf, IsFdeOf, fde_view};
ghost use Rattle.cfi_unwind.specs.UnwindTableViews.{HasSettingOf, IsNewTable, context_name};
ghost use Rattle.cfi_unwind.specs.UnwindTableViews.{holds_row};

use crate::entry::fde::FrameDescriptionEntry;
use crate::unwind_section::UnwindSection;
use crate::unwind_table::UnwindTable;
use cfi_entry::cie::address_size_of;
use cfi_parts::instruction::CallFrameInstructionIter;
use cfi_parts::pointer::BaseAddresses;
use cfi_read_core::{Error, Reader, Result};
use cfi_state::storage::UnwindContextStorage;
use cfi_state::table::context::UnwindContext;
use cfi_state::table::machine::Parameters;
use cfi_state::table::row::UnwindTableRow;

impl<R: Reader> FrameDescriptionEntry<R> {
    /// Returns what stays fixed while the instructions of the FDE and its CIE run.
    pub(crate) fn parameters(&self) -> Parameters
        ensures setting { (rules stack : Option ℕ) → setting_of result rules stack
            ≡ setting rules stack (fde_view R.position R.Offset.number self.now) }
    {
        Parameters {
            code_alignment_factor: self.cie.code_alignment_factor(),
            data_alignment_factor: self.cie.data_alignment_factor(),
            address_size: address_size_of(&self.cie),
            initial_address: self.initial_address,
            end_address: self.end_address(),
        }
    }

    /// Iterates over the FDE's rows, in order, as `UnwindTable::new`. The rows are made in the
    /// context, which is emptied first. They follow each other from the FDE's first address to its
    /// end, so that each of its addresses is in exactly one row.
    ///
    /// The FDE and its CIE must be of this section; the bases are those of the section's entries.
    /// Fails with the first error of the CIE's initial instructions. None of the FDE's instructions
    /// is read yet. With a fixed storage it never fails with `OutOfMemory`; with another one it
    /// may.
    pub fn rows<'a, 'ctx, Section: UnwindSection<R>, S: UnwindContextStorage<R::Offset>>(
        &self,
        section: &'a Section,
        bases: &'a BaseAddresses,
        ctx: &'ctx mut UnwindContext<R::Offset, S>,
    ) -> Result<UnwindTable<'a, 'ctx, R, S>>
        requires own { IsFdeOf R.position (Section.view section.now).position self.now }
        requires cie { HasCieOf R.position (Section.view section.now).position self.now }
        ensures starts { IsNewTable R.position R.Offset.number
            S.Rules.limit S.Stack.limit S.Rules.copies_free
            (section_of (Section.view section.now) bases.now)
            (fde_view R.position R.Offset.number self.now) result }
        ensures setting { IfOk result
            (HasSettingOf (fde_view R.position R.Offset.number self.now)) }
        ensures holds_row { IfOk result (λ table. holds_row table ≡ false) }
        ensures same_reference { IfOk result (λ table. context_name table ≡ ctx.entry.ghost_name) }
    {
        UnwindTable::new(section, bases, ctx, self)
    }

    /// Returns the row of the FDE's table that contains the address, borrowed from the context,
    /// which is emptied first.
    ///
    /// The FDE and its CIE must be of this section; the bases are those of the section's entries.
    /// Fails with the first error of the CIE's initial instructions; else with the first error of
    /// the FDE's instructions before the row; else, where no row contains the address, with
    /// `NoUnwindInfoForAddress`, also for an address outside the FDE. Nothing after the row is
    /// checked. With a fixed storage it never fails with `OutOfMemory`; with another one it may.
    /// The expressions of the row's rules are in the section, where `UnwindExpression::get`
    /// succeeds.
    pub fn unwind_info_for_address<
        'ctx,
        Section: UnwindSection<R>,
        S: UnwindContextStorage<R::Offset>,
    >(
        &self,
        section: &Section,
        bases: &BaseAddresses,
        ctx: &'ctx mut UnwindContext<R::Offset, S>,
        address: u64,
    ) -> Result<&'ctx UnwindTableRow<R::Offset, S::Rules>>
        requires own { IsFdeOf R.position (Section.view section.now).position self.now }
        requires cie { HasCieOf R.position (Section.view section.now).position self.now }
        ensures row { IsRowOfFde S.Rules.limit S.Stack.limit S.Rules.copies_free
            (section_of (Section.view section.now) bases.now) address
            (fde_view R.position R.Offset.number self.now) (row_lent R.Offset.number result) }
        ensures contains { IfOk result (λ row. RowContains address row.now) }
        ensures expressions { IfOk result (λ row.
            HasExpressionsIn R.Offset.number (Section.view section.now).position row.now.parts) }
    {
        let initial = self.cie.instructions(section, bases);
        let instructions = self.instructions(section, bases);
        row_of_programs(self.parameters(), initial, instructions, ctx, address)
    }
}

/// Returns the row of an address, borrowed from the context: the first that contains it, or the
/// first error of the CIE's instructions or on the way to the row.
fn row_of_programs<'cie, 'fde, 'ctx, R: Reader, S: UnwindContextStorage<R::Offset>>(
    parameters: Parameters,
    initial: CallFrameInstructionIter<'cie, R>,
    instructions: CallFrameInstructionIter<'fde, R>,
    context: &'ctx mut UnwindContext<R::Offset, S>,
    address: u64,
) -> Result<&'ctx UnwindTableRow<R::Offset, S::Rules>>
    ensures run { let s = setting_of parameters S.Rules.limit S.Stack.limit in
        AnswersFde (may_allocate s S.Rules.copies_free) s
        (instructions_left (instruction_reader R.position initial.entry))
        (instructions_left (instruction_reader R.position instructions.entry))
        address (row_lent R.Offset.number result) }
{
    let mut table = UnwindTable::with_instructions(parameters, initial, instructions, context)?;
    while let Some(row) = table.next_row()? {
        if row.contains(address) {
            let Some(current) = table.into_current_row() else {
                unreachable!()
            };
            return Ok(current);
        }
    }
    Err(Error::NoUnwindInfoForAddress)
}
