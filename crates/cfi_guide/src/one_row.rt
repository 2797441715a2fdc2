//! The row of an address.
ghost use Rattle.std.specs.Prelude.{◌≤◌, ◌-◌};
ghost use Rattle.gimli_cfi.specs.Words.{IsRowByScan, row_lent, section_of};

use gimli_cfi::{
    _UnwindSectionPrivate, BaseAddresses, CfaRule, EhFrame, EhFrameHdr, EhHdrTable, Error,
    FaithfulTable, LittleEndian, Reader, ReaderOffset, Register, TableStarts, UnwindContext,
    UnwindContextStorage, UnwindSection, UnwindTableRow, row_by_scan, row_by_table,
};
use std::alloc::Global;

/// The register and the offset of the CFA at an address; `None` if an expression computes it.
pub fn cfa_of(
    alloc: Global,
    bytes: &[u8],
    section: u64,
    address: u64,
) -> Result<Option<(Register, i64)>, Error> {
    let frame = EhFrame::new(bytes, LittleEndian);
    let bases = BaseAddresses::default().set_eh_frame(section);
    let mut ctx = UnwindContext::<usize>::new(alloc)?;
    let row = row_by_scan(&frame, &bases, &mut ctx, address)?;
    match row.cfa() {
        CfaRule::RegisterAndOffset { register, offset } => Ok(Some((*register, *offset))),
        CfaRule::Expression(_) => Ok(None),
    }
}

/// The end of the row of an address, by the header's table if it has one.
pub fn end_of_row<R: Reader<Offset = usize>, S: UnwindContextStorage<usize>>(
    frame: &EhFrame<R>,
    header: &EhFrameHdr<R>,
    bases: &BaseAddresses,
    ctx: &mut UnwindContext<usize, S>,
    address: u64,
) -> Result<u64, Error> {
    let header = header.parse(bases, 8)?;
    let Some(table) = header.table() else {
        return Ok(row_by_scan(frame, bases, ctx, address)?.end_address());
    };
    let mut starts = TableStarts::new(&table, bases)?;
    let row = row_by_table(&table, &mut starts, frame, bases, ctx, address)?;
    Ok(row.end_address())
}

/// The start of the row of an address, by a checked table.
pub fn start_of_row<R: Reader<Offset = usize>>(
    table: &EhHdrTable<'_, R>,
    frame: &EhFrame<R>,
    bases: &BaseAddresses,
    ctx: &mut UnwindContext<usize>,
    address: u64,
) -> Result<u64, Error> {
    let Ok(checked) = FaithfulTable::new(table, frame, bases) else {
        return Ok(row_by_scan(frame, bases, ctx, address)?.start_address());
    };
    Ok(checked.row(ctx, address)?.start_address())
}

/// The row of the call that returns to an address.
pub fn row_of_call<'ctx, R: Reader, Section: UnwindSection<R>, S: UnwindContextStorage<R::Offset>>(
    section: &Section,
    bases: &BaseAddresses,
    ctx: &'ctx mut UnwindContext<R::Offset, S>,
    return_address: u64,
) -> Result<&'ctx UnwindTableRow<R::Offset, S::Rules>, Error>
    requires { 1 ≤ return_address }
    ensures { IsRowByScan S.Rules.limit S.Stack.limit S.Rules.copies_free
        (section_of (Section.view section.now) bases.now) (return_address - 1)
        (row_lent R.Offset.number result) }
{
    row_by_scan(section, bases, ctx, return_address - 1)
}
