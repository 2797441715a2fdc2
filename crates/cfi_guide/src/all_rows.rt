//! All rows of an FDE, and of all FDEs of a section.
use gimli_cfi::{
    BaseAddresses, CieOrFde, EhFrame, EhFrameOffset, Error, Reader, UnwindContext, UnwindSection,
    UnwindTable, scan_for_fde,
};

/// The number of rows of the FDE of an address.
pub fn count_rows<R: Reader<Offset = usize>>(
    frame: &EhFrame<R>,
    bases: &BaseAddresses,
    ctx: &mut UnwindContext<usize>,
    address: u64,
) -> Result<u64, Error> {
    let fde = scan_for_fde(frame, bases, address)?;
    let mut table = fde.rows(frame, bases, ctx)?;
    count_left(&mut table)
}

/// The number of rows that are left in a table.
fn count_left<R: Reader<Offset = usize>>(table: &mut UnwindTable<'_, '_, R>) -> Result<u64, Error> {
    let mut count = 0u64;
    for _ in 0..u64::MAX {
        if table.next_row()?.is_none() {
            break;
        }
        count = count.wrapping_add(1);
    }
    Ok(count)
}

/// The number of rows of all FDEs of a section.
pub fn count_all_rows<R: Reader<Offset = usize>>(
    frame: &EhFrame<R>,
    bases: &BaseAddresses,
    ctx: &mut UnwindContext<usize>,
) -> Result<u64, Error> {
    let mut count = 0u64;
    for entry in frame.entries(bases) {
        if let CieOrFde::Fde(partial) = entry? {
            let offset = EhFrameOffset(partial.offset());
            let fde = frame.fde_from_offset(bases, offset, EhFrame::cie_from_offset)?;
            let mut table = fde.rows(frame, bases, ctx)?;
            count = count.wrapping_add(count_left(&mut table)?);
        }
    }
    Ok(count)
}

/// The end of the last row of the last FDE.
pub fn last_end<R: Reader<Offset = usize>>(
    frame: &EhFrame<R>,
    bases: &BaseAddresses,
    ctx: &mut UnwindContext<usize>,
) -> Result<u64, Error> {
    let mut last = 0u64;
    for entry in frame.entries(bases) {
        if let CieOrFde::Fde(partial) = entry? {
            let fde = partial.parse(EhFrame::cie_from_offset)?;
            let mut table = fde.rows(frame, bases, ctx)?;
            last = end_of_rows(&mut table)?;
        }
    }
    Ok(last)
}

/// The end of the last row of a table.
fn end_of_rows<R: Reader<Offset = usize>>(
    table: &mut UnwindTable<'_, '_, R>,
) -> Result<u64, Error> {
    let mut end = 0u64;
    for _ in 0..u64::MAX {
        let Some(row) = table.next_row()? else {
            break;
        };
        end = row.end_address();
    }
    Ok(end)
}
