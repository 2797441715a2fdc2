//! How many numbers of a header with one row, three and 1,000 are read for a row: at most one more
//! than halving the rows takes, in whichever order the starts are.
use crate::comparison::expect;
use crate::header::counted::{Counts, Listing, by_starts, by_table, counting};
use crate::header::searches::{SECTION, read_header, table_of};
use crate::rows::slice;
use gimli_cfi::{
    EhFrame, EndianSlice, Error, LittleEndian, Reader, UnwindContext, UnwindContextStorage,
};
use std::alloc::Global;
use std::cell::Cell;
use std::process::Abort;
use std::test::Fail;

/// How many numbers of the header `lookup` reads, and `row_by_table`.
type Both = Result<[u32; 2], Error>;

fn both<R: Reader<Offset = usize>, S: UnwindContextStorage<usize>>(
    of: &Listing<'_, R>,
    context: &mut UnwindContext<usize, S>,
    address: u64,
) -> Both {
    let [(_, (by_lookup, _)), _, _] = by_table(of, context, address);
    let (_, [_, (_, (by_row, _))], _) = by_starts(of, context, address)?;
    Ok([by_lookup, by_row])
}

/// The same by a header.
fn both_by_header<R: Reader<Offset = usize>, S: UnwindContextStorage<usize>>(
    header: R,
    frame: &EhFrame<R>,
    counts: &Counts<'_>,
    context: &mut UnwindContext<usize, S>,
    address: u64,
) -> Both {
    let parsed = read_header(header)?;
    let of = Listing {
        table: table_of(&parsed)?,
        frame,
        counts,
    };
    both(&of, context, address)
}

/// The same from readers that are counted.
fn both_of<R: Reader<Offset = usize>, S: UnwindContextStorage<usize>>(
    section: R,
    header: R,
    counts: &Counts<'_>,
    context: &mut UnwindContext<usize, S>,
    address: u64,
) -> Both {
    let header = counting(header, counts.of_header);
    let frame = EhFrame::from(counting(section, counts.of_section));
    both_by_header(header, &frame, counts, context, address)
}

/// The same with fresh counts.
fn both_counted<R: Reader<Offset = usize>, S: UnwindContextStorage<usize>>(
    section: R,
    header: R,
    context: &mut UnwindContext<usize, S>,
    address: u64,
) -> Both {
    let of_header = Cell::new(0u32);
    let of_section = Cell::new(0u32);
    let counts = Counts {
        of_header: &of_header,
        of_section: &of_section,
    };
    both_of(section, header, &counts, context, address)
}

/// How many rows a table has, and the step from one to the next, in 16 bytes; the most numbers that
/// are read; and how many are read for an address before all starts, one of the row in the middle,
/// and one after all.
struct Table {
    rows: u32,
    step: u32,
    most: u32,
    reads: [(u64, u32); 3],
}

const TABLES: [Table; 6] = [
    Table {
        rows: 1,
        step: 1,
        most: 1,
        reads: [(0, 1), (0x1f00, 1), (0x10000, 1)],
    },
    Table {
        rows: 3,
        step: 1,
        most: 3,
        reads: [(0, 2), (0x1f10, 2), (0x10000, 3)],
    },
    Table {
        rows: 3,
        step: 2,
        most: 3,
        reads: [(0, 2), (0x1f20, 2), (0x10000, 3)],
    },
    Table {
        rows: 1000,
        step: 1,
        most: 11,
        reads: [(0, 10), (0x3e40, 2), (0x10000, 11)],
    },
    Table {
        rows: 1000,
        step: 7,
        most: 11,
        reads: [(0, 10), (0x3e40, 2), (0x10000, 11)],
    },
    Table {
        rows: 1000,
        step: 999,
        most: 11,
        reads: [(0, 10), (0x3e40, 2), (0x10000, 11)],
    },
];

/// The header up to the count of its rows.
const HEAD: [u8; 8] = [1, 0x1b, 0x03, 0x3b, 0xfc, 0, 0, 0];

fn push(bytes: &mut Vec<u8>, number: u32) -> Result<(), Fail> {
    bytes.extend_from_slice(&number.to_le_bytes())?;
    Ok(())
}

/// The header of a table, whose rows lead to the first FDE of `SECTION`.
fn header_of(alloc: Global, table: &Table) -> Result<Vec<u8>, Fail> {
    let mut bytes = Vec::new(alloc);
    bytes.extend_from_slice(&HEAD)?;
    push(&mut bytes, table.rows)?;
    let mut place = 0u32;
    for _ in 0..table.rows {
        push(&mut bytes, place.wrapping_mul(16))?;
        push(&mut bytes, 0x118)?;
        place = place.wrapping_add(table.step);
        if place >= table.rows {
            place = place.wrapping_sub(table.rows);
        }
    }
    Ok(bytes)
}

/// Whether both calls read as many numbers for an address, and no more than the most.
fn is_within(both: Both, most: u32) -> bool {
    match both {
        Ok(reads) => reads[0] <= most && reads[1] == reads[0],
        Err(_) => false,
    }
}

fn check<R: Reader<Offset = usize>, S: UnwindContextStorage<usize>>(
    rt: &impl Abort,
    section: R,
    header: R,
    context: &mut UnwindContext<usize, S>,
    table: &Table,
) {
    for (address, reads) in &table.reads {
        let found = both_counted(section, header, context, *address);
        expect(rt, table.rows, &found, &Ok([*reads; 2]));
    }
    for number in 0u64..48 {
        let found = both_counted(
            section,
            header,
            context,
            number.wrapping_mul(363).wrapping_add(0x1e00),
        );
        expect(rt, number, &is_within(found, table.most), &true);
    }
}

/// Checks those numbers.
pub(crate) fn what_long_tables_read<S: UnwindContextStorage<usize>>(
    rt: &(impl Abort + AllocGlobal),
    context: &mut UnwindContext<usize, S>,
) -> Result<(), Fail> {
    for table in &TABLES {
        let bytes = header_of(rt.alloc(), table)?;
        let header = EndianSlice::new(bytes.as_slice(), LittleEndian);
        check(rt, slice(&SECTION), header, context, table);
    }
    Ok(())
}
