//! Searches in starts that are listed, and the rows of a header's table.
ghost use Rattle.std.specs.Prelude.{Ok, ok_or, slice_get};
ghost use Rattle.gimli_cfi.specs.Words.{NoUnwindInfoForAddress};

use crate::comparison::expect;
use crate::rows::bases;
use gimli_cfi::{
    CallCount, EhFrameHdr, EhFrameOffset, EhHdrTable, Error, ParsedEhFrameHdr, Pointer, Reader,
    StartSource, search_starts,
};
use std::process::Abort;

/// A section at 0x2000 with a CIE and three FDEs, at 24, 44 and 64, which begin at 0x1000, 0x1010
/// and 0x1020.
pub(crate) const SECTION: [u8; 88] = [
    0x14, 0, 0, 0, 0, 0, 0, 0, 1, 0x7a, 0x52, 0, 1, 0x78, 0x10, 1, 0x1b, 0x0c, 7, 8, 0x90, 1, 0, 0,
    0x10, 0, 0, 0, 0x1c, 0, 0, 0, 0xe0, 0xef, 0xff, 0xff, 0x10, 0, 0, 0, 0, 0, 0, 0, 0x10, 0, 0, 0,
    0x30, 0, 0, 0, 0xdc, 0xef, 0xff, 0xff, 0x10, 0, 0, 0, 0, 0x41, 0x0e, 0x10, 0x10, 0, 0, 0, 0x44,
    0, 0, 0, 0xd8, 0xef, 0xff, 0xff, 0x20, 0, 0, 0, 0, 0, 0, 0, 0, 0, 0, 0,
];

/// Its header at 0x1f00, which lists the three FDEs.
pub(crate) const HEADER: [u8; 36] = [
    1, 0x1b, 0x03, 0x3b, 0xfc, 0, 0, 0, 3, 0, 0, 0, 0, 0xf1, 0xff, 0xff, 0x18, 1, 0, 0, 0x10, 0xf1,
    0xff, 0xff, 0x2c, 1, 0, 0, 0x20, 0xf1, 0xff, 0xff, 0x40, 1, 0, 0,
];

/// Parses a header, in one place for all tests, since the contract of `parse` makes each check
/// longer.
pub(crate) fn read_header<R: Reader>(reader: R) -> Result<ParsedEhFrameHdr<R>, Error> {
    EhFrameHdr::from(reader).parse(&bases(), 8)
}

/// The header's table, which these tests expect to exist.
pub(crate) fn table_of<R: Reader>(
    parsed: &ParsedEhFrameHdr<R>,
) -> Result<EhHdrTable<'_, R>, Error> {
    match parsed.table() {
        Some(table) => Ok(table),
        None => Err(Error::NoUnwindInfoForAddress),
    }
}

type Row = Result<Option<(Pointer, Pointer)>, Error>;

/// What passing one row returns, how many rows remain, and what the next call returns.
type Passed = (Row, (usize, Option<usize>), Row);

fn passed<R: Reader<Offset = usize>>(table: &EhHdrTable<'_, R>) -> Passed {
    let bases = bases();
    let mut rows = table.iter(&bases);
    let row = rows.nth(1);
    (row, rows.size_hint(), rows.next())
}

const SECOND_ROW: Row = Ok(Some((Pointer::Direct(0x1010), Pointer::Direct(0x202c))));

const THIRD_ROW: Row = Ok(Some((Pointer::Direct(0x1020), Pointer::Direct(0x2040))));

/// The pointer to the section, those rows, and the offset of the second row's FDE.
type OfHeader = Result<(Pointer, Passed, Result<EhFrameOffset<usize>, Error>), Error>;

fn of_header<R: Reader<Offset = usize>>(header: R) -> OfHeader {
    let parsed = read_header(header)?;
    let table = table_of(&parsed)?;
    let offset = table.pointer_to_offset(Pointer::Direct(0x202c));
    Ok((parsed.eh_frame_ptr(), passed(&table), offset))
}

const OF_HEADER: OfHeader = Ok((
    Pointer::Direct(0x2000),
    (SECOND_ROW, (1, Some(1)), THIRD_ROW),
    Ok(EhFrameOffset(44)),
));

/// Checks those rows.
pub(crate) fn rows_passed_at_once<R: Reader<Offset = usize>>(rt: &impl Abort, header: R) {
    expect(rt, "a header", &of_header(header), &OF_HEADER);
}

/// Starts in a list, and how many calls were made.
#[derive(Drop)]
pub(crate) struct Listed<'a> {
    starts: &'a [u64],
    pub(crate) made: u32,
    calls: CallCount,
}

impl<'a> Listed<'a> {
    pub(crate) fn new(starts: &'a [u64]) -> Self {
        Listed {
            starts,
            made: 0,
            calls: CallCount::none(),
        }
    }
}

impl StartSource for Listed<'_> {
    ghost answer = { λ s i. ok_or (slice_get s.starts.now i) NoUnwindInfoForAddress };

    ghost calls = { λ s. s.calls.calls };

    fn start(&mut self, index: u64) -> Result<u64, Error> {
        self.calls = self.calls.next();
        self.made = self.made.saturating_add(1);
        let found = self.starts.get(index as usize).copied();
        found.ok_or(Error::NoUnwindInfoForAddress)
    }
}

/// The row that a search finds, and the number of calls.
type Searched = (Result<u64, Error>, u32);

/// A search in so many rows, at least one, whose starts are in a list.
fn searched_in(starts: &[u64], count: u64, address: u64) -> Searched {
    if count == 0 {
        return (Err(Error::NoUnwindInfoForAddress), 0);
    }
    let mut source = Listed::new(starts);
    let row = search_starts(&mut source, count, address);
    (row, source.made)
}

/// Five starts, most of which repeat or don't rise, how many rows are searched, of which those
/// behind the fifth have no start, an address, and what a search finds: while more than one row is
/// left it asks for the start of the one in the middle, and one at the address ends it.
const SEARCHES: [([u64; 5], u64, u64, Searched); 20] = [
    ([1, 3, 5, 7, 9], 5, 8, (Ok(3), 3)),
    ([5, 5, 5, 5, 5], 5, 4, (Ok(0), 2)),
    ([5, 5, 5, 5, 5], 5, 5, (Ok(2), 1)),
    ([5, 5, 5, 5, 5], 5, 6, (Ok(4), 3)),
    ([1, 5, 9, 5, 2], 5, 5, (Ok(1), 2)),
    ([1, 9, 5, 2, 3], 5, 5, (Ok(2), 1)),
    ([1, 9, 5, 2, 3], 5, 9, (Ok(4), 3)),
    ([5, 9, 7, 9, 9], 5, 5, (Ok(0), 2)),
    ([1, 2, 3, 5, 1], 5, 5, (Ok(3), 2)),
    ([10, 20, 30, 0, 0], 3, 5, (Ok(0), 1)),
    ([10, 20, 30, 0, 0], 3, 25, (Ok(1), 2)),
    ([10, 20, 30, 0, 0], 3, 30, (Ok(2), 2)),
    ([30, 10, 20, 0, 0], 3, 15, (Ok(1), 2)),
    ([30, 10, 20, 0, 0], 3, 35, (Ok(2), 2)),
    ([10, 20, 30, 0, 0], 1, 5, (Ok(0), 0)),
    ([1, 5, 2, 0, 0], 3, 5, (Ok(1), 1)),
    ([1, 5, 2, 0, 0], 3, 2, (Ok(0), 1)),
    ([1, 3, 5, 7, 9], 8, 9, (Ok(4), 1)),
    (
        [1, 3, 5, 7, 9],
        8,
        10,
        (Err(Error::NoUnwindInfoForAddress), 2),
    ),
    (
        [1, 3, 5, 7, 9],
        10,
        10,
        (Err(Error::NoUnwindInfoForAddress), 1),
    ),
];

#[test]
fn searches_in_lists(rt: HostRuntime) {
    for (starts, count, address, found) in &SEARCHES {
        expect(&rt, *address, &searched_in(starts, *count, *address), found);
    }
}

/// Starts that are their indices, and how many calls were made.
#[derive(Drop)]
struct Indices {
    made: u32,
    calls: CallCount,
}

impl StartSource for Indices {
    ghost answer = { λ _ i. Ok i };

    ghost calls = { λ s. s.calls.calls };

    fn start(&mut self, index: u64) -> Result<u64, Error> {
        self.calls = self.calls.next();
        self.made = self.made.saturating_add(1);
        Ok(index)
    }
}

#[test]
fn search_in_all_numbers(rt: HostRuntime) {
    let mut source = Indices {
        made: 0,
        calls: CallCount::none(),
    };
    let row = search_starts(&mut source, u64::MAX, 12345);
    // 64 at most: 50 halvings to the rows below 2^14 - 1, and 13 calls among these.
    expect(&rt, "12345", &(row, source.made), &(Ok(12345), 63));
}
