//! Runs of the programs of CALLING.md, on a small section whose rows were worked out by hand.
use crate::comparison::expect;
use cfi_guide::all_rows::{count_all_rows, count_rows, last_end};
use cfi_guide::compiled_rows::most_args;
use cfi_guide::instructions::expression_bytes;
use cfi_guide::one_row::{cfa_of, end_of_row, row_of_call, start_of_row};
use cfi_guide::own_storage::end_in_small;
use gimli_cfi::{
    BaseAddresses, EhFrame, EhFrameHdr, Error, LittleEndian, Reader, Register, UnwindContext,
};
use std::alloc::Global;
use std::process::Abort;
use std::test::Fail;

/// A CIE, an FDE of 16 addresses from 0x1000 with two rows, and the end; the section is at 0x2000.
const SECTION: [u8; 48] = [
    0x14, 0, 0, 0, 0, 0, 0, 0, 1, 0x7a, 0x52, 0, 1, 0x78, 0x10, 1, 0x1b, 0x0c, 7, 8, 0x90, 1, 0, 0,
    0x10, 0, 0, 0, 0x1c, 0, 0, 0, 0xe0, 0xef, 0xff, 0xff, 0x10, 0, 0, 0, 0, 0x41, 0x0e, 0x10, 0, 0,
    0, 0,
];

/// The same with an expression of one byte for the CFA, in place of the advance and the offset.
const EXPRESSION: [u8; 48] = [
    0x14, 0, 0, 0, 0, 0, 0, 0, 1, 0x7a, 0x52, 0, 1, 0x78, 0x10, 1, 0x1b, 0x0c, 7, 8, 0x90, 1, 0, 0,
    0x10, 0, 0, 0, 0x1c, 0, 0, 0, 0xe0, 0xef, 0xff, 0xff, 0x10, 0, 0, 0, 0, 0x0f, 1, 0x30, 0, 0, 0,
    0,
];

/// A header at 0x1f00 with one row.
const HEADER: [u8; 20] = [
    1, 0x1b, 3, 0x3b, 0xfc, 0, 0, 0, 1, 0, 0, 0, 0, 0xf1, 0xff, 0xff, 0x18, 1, 0, 0,
];

fn bases() -> BaseAddresses {
    BaseAddresses::default()
        .set_eh_frame(0x2000)
        .set_eh_frame_hdr(0x1f00)
}

/// Where the row of 0x1008 starts by the header's table; `None` if the header has no table.
fn start_by_table<R: Reader<Offset = usize>>(
    frame: &EhFrame<R>,
    header: &EhFrameHdr<R>,
    ctx: &mut UnwindContext<usize>,
) -> Result<Option<u64>, Error> {
    let bases = bases();
    let header = header.parse(&bases, 8)?;
    match header.table() {
        Some(table) => Ok(Some(start_of_row(&table, frame, &bases, ctx, 0x1008)?)),
        None => Ok(None),
    }
}

/// Where the row of the call before 0x1001 ends.
fn end_of_call<R: Reader<Offset = usize>>(
    frame: &EhFrame<R>,
    ctx: &mut UnwindContext<usize>,
) -> Result<u64, Error> {
    Ok(row_of_call(frame, &bases(), ctx, 0x1001)?.end_address())
}

/// Where rows end and start: by the header, by its table, by a return address, and in a storage of
/// the caller's.
type Places = (
    Result<u64, Error>,
    Result<Option<u64>, Error>,
    Result<u64, Error>,
    Result<u64, Error>,
);

fn places<R: Reader<Offset = usize>>(
    alloc: Global,
    frame: &EhFrame<R>,
    header: &EhFrameHdr<R>,
    ctx: &mut UnwindContext<usize>,
) -> Places {
    let bases = bases();
    (
        end_of_row(frame, header, &bases, ctx, 0x1000),
        start_by_table(frame, header, ctx),
        end_of_call(frame, ctx),
        end_in_small(alloc, frame, &bases, 0x1001),
    )
}

/// The number of rows of the FDE of 0x1008 and of all FDEs, and where the last row ends.
type Counts = (Result<u64, Error>, Result<u64, Error>, Result<u64, Error>);

fn counts<R: Reader<Offset = usize>>(frame: &EhFrame<R>, ctx: &mut UnwindContext<usize>) -> Counts {
    let bases = bases();
    (
        count_rows(frame, &bases, ctx, 0x1008),
        count_all_rows(frame, &bases, ctx),
        last_end(frame, &bases, ctx),
    )
}

fn check_frame<R: Reader<Offset = usize>>(
    rt: &(impl Abort + AllocGlobal),
    frame: &EhFrame<R>,
    header: &EhFrameHdr<R>,
    ctx: &mut UnwindContext<usize>,
) {
    let found = (places(rt.alloc(), frame, header, ctx), counts(frame, ctx));
    let places = (Ok(0x1001), Ok(Some(0x1001)), Ok(0x1001), Ok(0x1010));
    expect(rt, "rows", &found, &(places, (Ok(2), Ok(2), Ok(0x1010))));
}

/// One row, and all rows.
#[test]
fn rows(rt: HostRuntime) -> Result<(), Fail> {
    let frame = EhFrame::new(&SECTION, LittleEndian);
    let header = EhFrameHdr::new(&HEADER, LittleEndian);
    let mut ctx = UnwindContext::<usize>::new(rt.alloc())?;
    check_frame(&rt, &frame, &header, &mut ctx);
    Ok(())
}

#[test]
fn cfas_and_expressions(rt: HostRuntime) {
    let found = (
        cfa_of(rt.alloc(), &SECTION, 0x2000, 0x1008),
        cfa_of(rt.alloc(), &EXPRESSION, 0x2000, 0x1008),
        expression_bytes(&EhFrame::new(&EXPRESSION, LittleEndian), &bases(), 0x1008),
        most_args(rt.alloc(), &SECTION, 0x2000, &[0x1000, 0x1008]),
    );
    let expected = (Ok(Some((Register(7), 16))), Ok(None), Ok(1), Ok(0));
    expect(&rt, "CFAs", &found, &expected);
}
