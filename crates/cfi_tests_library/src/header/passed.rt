//! Rows of a header's table that are passed at once: after the last one, and where that fails.
use crate::comparison::expect;
use crate::header::searches::{HEADER, read_header, table_of};
use crate::rows::{Slice, bases, slice};
use gimli_cfi::{DwEhPe, Error, LittleEndian, NarrowSlice, Pointer, Reader, ReaderOffsetId};
use std::process::Abort;
use std::test::Fail;

type Row = Result<Option<(Pointer, Pointer)>, Error>;

/// What `nth` returns, how many rows remain, and what `next` then returns.
type Passed = Result<(Row, (usize, Option<usize>), Row), Error>;

fn passed<R: Reader>(header: R, rows: usize) -> Passed {
    let (parsed, bases) = (read_header(header)?, bases());
    let mut left = table_of(&parsed)?.iter(&bases);
    let row = left.nth(rows);
    Ok((row, left.size_hint(), left.next()))
}

/// The header whose table has an encoding of no fixed size: the numbers of its first row are 0 and
/// 0x31ffff1, to which the address of the header is added.
const NO_SIZE: [u8; 36] = [
    1, 0x1b, 3, 0x31, 0xfc, 0, 0, 0, 3, 0, 0, 0, 0, 0xf1, 0xff, 0xff, 0x18, 1, 0, 0, 0x10, 0xf1,
    0xff, 0xff, 0x2c, 1, 0, 0, 0x20, 0xf1, 0xff, 0xff, 0x40, 1, 0, 0,
];

/// A header with 2^63 rows of 16 bytes, none of which is there.
const ROWS_63: [u8; 20] = [
    1, 0, 4, 4, 0, 0x20, 0, 0, 0, 0, 0, 0, 0, 0, 0, 0, 0, 0, 0, 0x80,
];

/// A header with 2^29 such rows: the first 2^28 of them have 2^32 bytes.
const ROWS_29: [u8; 20] = [
    1, 0, 4, 4, 0, 0x20, 0, 0, 0, 0, 0, 0, 0, 0, 0, 0x20, 0, 0, 0, 0,
];

const CUT_AT_20: Row = Err(Error::UnexpectedEof(ReaderOffsetId(20)));

/// How many rows are passed in each of these headers and in `HEADER`, and what is returned: only
/// the first call changes the iterator.
const PASSED: [(usize, Passed); 4] = [
    (3, Ok((Ok(None), (0, Some(0)), Ok(None)))),
    (
        0,
        Ok((
            Err(Error::UnsupportedPointerEncoding(DwEhPe(0x31))),
            (3, Some(3)),
            Ok(Some((Pointer::Direct(0x1f00), Pointer::Direct(0x3201ef1)))),
        )),
    ),
    (1, Ok((CUT_AT_20, (1 << 63, Some(1 << 63)), CUT_AT_20))),
    (
        1 << 28,
        Ok((CUT_AT_20, (1 << 29, Some(1 << 29)), CUT_AT_20)),
    ),
];

/// The last one with offsets of four bytes, which the size of the rows doesn't fit.
const NARROW: Passed = Ok((
    Err(Error::UnsupportedOffset),
    (1 << 29, Some(1 << 29)),
    CUT_AT_20,
));

fn check<R: Reader>(rt: &impl Abort, headers: [R; 4]) {
    for (header, (rows, expected)) in headers.iter().zip(&PASSED) {
        expect(rt, *rows, &passed(*header, *rows), expected);
    }
}

fn check_narrow<R: Reader>(rt: &impl Abort, header: R) {
    expect(
        rt,
        "offsets of four bytes",
        &passed(header, 1 << 28),
        &NARROW,
    );
}

#[test]
fn rows_passed_past_the_end(rt: HostRuntime) -> Result<(), Fail> {
    let headers: [Slice; 4] = [
        slice(&HEADER),
        slice(&NO_SIZE),
        slice(&ROWS_63),
        slice(&ROWS_29),
    ];
    check(&rt, headers);
    check_narrow(&rt, NarrowSlice::new(&ROWS_29, LittleEndian)?);
    Ok(())
}
