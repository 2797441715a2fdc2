//! Rows by a compiled table.
ghost use Rattle.std.specs.Prelude.{◌≡◌, Some};
ghost use Rattle.gimli_cfi.specs.Words.{row_lent, section_of};
ghost use Rattle.cfi_compiled.specs.CompiledRows.{parts_lent, parts_of_row};
ghost use Rattle.cfi_compiled.specs.CompiledTables.{IsCompiled};

use cfi_compiled::{CompiledRow, CompiledTable};
use gimli_cfi::{
    BaseAddresses, EhFrame, Error, LittleEndian, Reader, StoreOnHeap, UnwindContext,
    UnwindContextStorage, UnwindSection, UnwindTableRow, row_by_scan,
};
use std::alloc::Global;

/// The most bytes of arguments that are pushed at any of the addresses.
pub fn most_args(
    alloc: Global,
    bytes: &[u8],
    section: u64,
    addresses: &[u64],
) -> Result<u64, Error> {
    let frame = EhFrame::new(bytes, LittleEndian);
    let bases = BaseAddresses::default().set_eh_frame(section);
    let table = CompiledTable::new(alloc, &frame, &bases)?;
    let mut most = 0;
    for address in addresses {
        let row = table.row(*address)?;
        if most < row.saved_args_size() {
            most = row.saved_args_size();
        }
    }
    Ok(most)
}

/// The row of an address by a table, and by a scan of its section: they say the same.
pub fn row_by_both<'a, R: Reader<Offset = usize>, Section: UnwindSection<R>>(
    table: &'a CompiledTable,
    section: &Section,
    bases: &BaseAddresses,
    ctx: &'a mut UnwindContext<usize>,
    address: u64,
) -> (
    Result<CompiledRow<'a>, Error>,
    Result<&'a UnwindTableRow<usize, <StoreOnHeap as UnwindContextStorage<usize>>::Rules>, Error>,
)
    requires { IsCompiled (Some 192) (Some 4)
        (section_of (Section.view section.now) bases.now) table.now }
    ensures { parts_lent result.0 ≡ parts_of_row (row_lent (λ n. n) result.1) }
{
    (
        table.row(address),
        row_by_scan(section, bases, ctx, address),
    )
}
