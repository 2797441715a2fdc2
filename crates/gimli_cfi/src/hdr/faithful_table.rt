//! A table that was checked against its section.
ghost use Rattle.std.specs.Prelude.{◌≡◌, ◌+◌, ◌≤◌, ⊤, IfOk, IfErr};
ghost use Rattle.cfi_entry.specs.SectionViews.{eh_frame_view};
ghost use Rattle.cfi_state.specs.MappedStates.{row_lent};
ghost use Rattle.cfi_state.specs.Row.{RowContains};
ghost use Rattle.cfi_state.specs.RowExpressions.{HasExpressionsIn};
ghost use Rattle.cfi_unwind.specs.AddressRow.{IsRowByScan};
ghost use Rattle.gimli_cfi.specs.HalvingSteps.{steps};
ghost use Rattle.gimli_cfi.specs.HeaderViews.{listing_view};
ghost use Rattle.gimli_cfi.specs.RowsByTable.{IfStartsOf, IsRowByTable};
ghost use Rattle.gimli_cfi.specs.TableCheck.{IsReason, ListsFaithfully};

use crate::hdr::by_table::row_by_table;
use crate::hdr::check::check_table;
use crate::hdr::starts::{StartSource, TableStarts};
use crate::hdr::table::EhHdrTable;
use crate::hdr::unfaithful::Unfaithful;
use cfi_parts::pointer::BaseAddresses;
use cfi_read_core::{Error, Reader};
use cfi_state::storage::UnwindContextStorage;
use cfi_state::table::context::UnwindContext;
use cfi_state::table::row::UnwindTableRow;
use cfi_unwind::unwind_section::EhFrame;
use std::alloc::AllocError;

/// A header's table that lists the FDEs of its section faithfully, with the section and the bases
/// of both.
///
/// Only `new` makes one, by `check_table`. So a row looked up in it is the row that a scan of the
/// section returns, for every address: check the table of a loaded module once, and keep the
/// result.
#[derive(Debug)]
pub struct FaithfulTable<'a, R: Reader> {
    table: EhHdrTable<'a, R>,
    frame: &'a EhFrame<R>,
    bases: &'a BaseAddresses,
    ghost faithful: { ∥ ListsFaithfully (listing_view R.position table frame.now bases.now) ∥₁ },
}

impl<R: Reader> Clone for FaithfulTable<'_, R> {
    ghost is_clone = { λ x y. y ≡ x };

    ghost is_infallible = { λ _. ⊤ };

    #[inline(always)]
    fn clone(&self) -> Result<Self, AllocError> {
        Ok(*self)
    }
}

impl<R: Reader> Copy for FaithfulTable<'_, R> {}

impl<'a, R: Reader> FaithfulTable<'a, R> {
    ghost use Rattle.gimli_cfi.specs.FaithfulViews.{IsCheckOf, checked_frame, faithful_view};

    /// Checks the table against the section, as `check_table` does with the starts of the table's
    /// own rows.
    ///
    /// If the table doesn't list the FDEs of the section faithfully, the error is a reason why it
    /// doesn't.
    ///
    /// The bases of the header are those in `BaseAddresses::eh_frame_hdr`, those of the section's
    /// entries in `BaseAddresses::eh_frame`. It does not allocate (LSB Core, "The .eh_frame_hdr
    /// section").
    #[inline(always)]
    pub fn new(
        table: &EhHdrTable<'a, R>,
        frame: &'a EhFrame<R>,
        bases: &'a BaseAddresses,
    ) -> Result<Self, Unfaithful>
        ensures kept { IfOk result (λ checked.
            IsCheckOf checked table.now frame.now bases.now) }
        ensures faithful { IfOk result (λ checked.
            ListsFaithfully (listing_view R.position table.now frame.now bases.now)) }
        ensures reason { IfErr result
            (IsReason (listing_view R.position table.now frame.now bases.now)) }
        ensures unfaithful { IfErr result (λ reason.
            ListsFaithfully (listing_view R.position table.now frame.now bases.now) → ⊥) }
    {
        let mut starts = TableStarts::new(table, bases).map_err(Unfaithful::Header)?;
        check_table(table, &mut starts, frame, bases)?;
        let table = *table;
        Ok(FaithfulTable {
            table,
            frame,
            bases,
        })
    }

    /// The unwind row of the address in the section, borrowed from the context: what `row_by_scan`
    /// returns, row or error, by a search in the table.
    ///
    /// It reads at most as many starts as halving the rows takes, by `row_in`. Over a fixed storage
    /// it does not allocate; over another one it may fail with `OutOfMemory` (LSB Core, "The
    /// .eh_frame_hdr section").
    pub fn row<'ctx, S: UnwindContextStorage<R::Offset>>(
        &self,
        ctx: &'ctx mut UnwindContext<R::Offset, S>,
        address: u64,
    ) -> Result<&'ctx UnwindTableRow<R::Offset, S::Rules>, Error>
        ensures row { IsRowByScan S.Rules.limit S.Stack.limit S.Rules.copies_free
            (faithful_view R.position self.now).section address
            (row_lent R.Offset.number result) }
        ensures contains { IfOk result (λ row. RowContains address row.now) }
        ensures expressions { IfOk result (λ row. HasExpressionsIn R.Offset.number
            (eh_frame_view R.position (checked_frame self.now)).position row.now.parts) }
    {
        let mut starts = TableStarts::new(&self.table, self.bases)?;
        self.row_in(&mut starts, ctx, address)
    }

    /// The same with a source of starts in place of the table's own.
    ///
    /// It is what `row_by_table` returns, whatever the source answers; and what `row_by_scan`
    /// returns if the source answers the starts of the table's rows. The source is called at most
    /// as often as halving the rows takes. It allocates as `row` does.
    pub fn row_in<'ctx, St: StartSource, S: UnwindContextStorage<R::Offset>>(
        &self,
        starts: &mut St,
        ctx: &'ctx mut UnwindContext<R::Offset, S>,
        address: u64,
    ) -> Result<&'ctx UnwindTableRow<R::Offset, S::Rules>, Error>
        ensures found { IsRowByTable S.Rules.limit S.Stack.limit S.Rules.copies_free
            (St.answer starts.old) (faithful_view R.position self.now) address
            (row_lent R.Offset.number result) }
        ensures row { let listing = faithful_view R.position self.now in
            IfStartsOf listing (St.answer starts.old)
            (IsRowByScan S.Rules.limit S.Stack.limit S.Rules.copies_free listing.section address
            (row_lent R.Offset.number result)) }
        ensures contains { IfOk result (λ row. RowContains address row.now) }
        ensures expressions { IfOk result (λ row. HasExpressionsIn R.Offset.number
            (eh_frame_view R.position (checked_frame self.now)).position row.now.parts) }
        ensures calls { St.calls starts.new
            ≤ St.calls starts.old + steps (faithful_view R.position self.now).table.count }
        ensures same { St.answer starts.new ≡ St.answer starts.old }
    {
        row_by_table(&self.table, starts, self.frame, self.bases, ctx, address)
    }
}
