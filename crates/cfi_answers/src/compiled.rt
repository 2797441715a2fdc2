//! Passes by a compiled table.
use crate::sums::{Done, FAILED, cfa_sum, compiled_sum};
use cfi_compiled::{CompiledRow, CompiledTable};
use gimli_cfi::{
    BaseAddresses, EhFrame, Reader, Result, RunTimeEndian, StoreOnHeap, UnwindContext,
    UnwindContextStorage, UnwindSection,
};
use std::alloc::Global;

/// Makes the table of a section of 8-byte addresses at `base`, and looks up all addresses in it,
/// `passes` times. The measure is 8 for the CFA of each row, 9 for all that it says. One code makes
/// the tables of both byte orders, as for programs that read files of either.
pub fn of_compiled(
    alloc: Global,
    measure: u32,
    bytes: &[u8],
    endian: RunTimeEndian,
    base: u64,
    addresses: &[u64],
    passes: u64,
) -> Done {
    let bases = BaseAddresses::default().set_eh_frame(base);
    let frame = EhFrame::new(bytes, endian);
    let Ok(table) = table_of::<_, _, StoreOnHeap>(alloc, &frame, &bases) else {
        return FAILED;
    };
    let mut done = Done {
        count: table.len() as u64,
        sum: table.results_len() as u64,
    };
    for _ in 0..passes {
        done = match measure {
            8 => rows_by_compiled::<CfaSums>(&table, addresses),
            9 => rows_by_compiled::<PartsSums>(&table, addresses),
            _ => FAILED,
        };
    }
    done
}

/// The table of a section. The storage is a parameter, as in the other passes, so that they share
/// the code that runs instructions.
fn table_of<R: Reader<Offset = usize>, Section: UnwindSection<R>, S: UnwindContextStorage<usize>>(
    alloc: Global,
    section: &Section,
    bases: &BaseAddresses,
) -> Result<CompiledTable> {
    let mut context = UnwindContext::<usize, S>::new_in(alloc)?;
    CompiledTable::with_context(alloc, section, bases, &mut context)
}

/// What a pass sums of each row.
trait SumOfParts {
    fn of(row: CompiledRow<'_>) -> u64;
}

/// The CFA.
struct CfaSums;

impl SumOfParts for CfaSums {
    #[inline(always)]
    fn of(row: CompiledRow<'_>) -> u64 {
        cfa_sum(row.cfa())
    }
}

/// All that a row says.
struct PartsSums;

impl SumOfParts for PartsSums {
    #[inline(always)]
    fn of(row: CompiledRow<'_>) -> u64 {
        compiled_sum(row)
    }
}

fn rows_by_compiled<Sum: SumOfParts>(table: &CompiledTable, addresses: &[u64]) -> Done {
    let mut done = Done::none();
    for address in addresses {
        match table.row(*address) {
            Ok(row) => done.take(Sum::of(row)),
            Err(_) => done.take(!*address),
        }
    }
    done
}
