//! How many numbers the calls by a header's table read, of the header and of the section.
ghost use Rattle.std.specs.Ordering.{on};
ghost use Rattle.std.specs.Cmp.{on_per, on_equiv};

use crate::comparison::expect;
use crate::header::asked::{OnTable, asked_by_table, start_of};
use crate::header::searches::{Listed, read_header, table_of};
use crate::rows::{bases, range_of};
use gimli_cfi::{
    EhFrame, EhFrameHdr, EhHdrTable, Error, FaithfulTable, Pointer, Reader, StartSource,
    TableStarts, UnwindContext, UnwindContextStorage, row_by_header, row_by_table,
};
use std::cell::Cell;
use std::process::Abort;

/// A reader that counts the reads of numbers of a fixed width, over all its copies.
#[derive(Clone, Copy, Debug)]
pub(crate) struct Counted<'a, R> {
    inner: R,
    reads: &'a Cell<u32>,
}

impl<R> Counted<'_, R> {
    fn count(&self) {
        self.reads.set(self.reads.get().saturating_add(1));
    }
}

impl<R: Reader> PartialEq for Counted<'_, R> {
    ghost eq = { on (λ r. r.inner) R.PartialEq.eq };

    ghost laws = { on_per (λ r. r.inner) R.PartialEq.laws };

    fn eq(&self, other: &Self) -> bool {
        self.inner == other.inner
    }
}

impl<R: Reader> Eq for Counted<'_, R> {
    ghost laws = { on_equiv (λ r. r.inner) R.Eq.laws };
}

impl<R: Reader> Reader for Counted<'_, R> {
    type Offset = R::Offset;

    type Endian = R::Endian;

    ghost position = { λ r. R.position r.inner };

    fn endian(&self) -> R::Endian {
        self.inner.endian()
    }

    fn len(&self) -> R::Offset {
        self.inner.len()
    }

    fn place(&self) -> R::Offset {
        self.inner.place()
    }

    fn find(&self, byte: u8) -> Result<R::Offset, Error> {
        self.inner.find(byte)
    }

    fn skip(&mut self, len: R::Offset) -> Result<(), Error> {
        self.inner.skip(len)
    }

    fn split(&mut self, len: R::Offset) -> Result<Self, Error> {
        let inner = self.inner.split(len)?;
        Ok(Counted {
            inner,
            reads: self.reads,
        })
    }

    fn read_u8(&mut self) -> Result<u8, Error> {
        self.count();
        self.inner.read_u8()
    }

    fn read_u16(&mut self) -> Result<u16, Error> {
        self.count();
        self.inner.read_u16()
    }

    fn read_u32(&mut self) -> Result<u32, Error> {
        self.count();
        self.inner.read_u32()
    }

    fn read_u64(&mut self) -> Result<u64, Error> {
        self.count();
        self.inner.read_u64()
    }

    ghost sound = { λ r. R.sound r.inner };

    ghost equal = { λ x y. R.equal x.inner y.inner };

    ghost greatest = { λ r. R.greatest r.inner };
}

/// How many numbers were read, of the header and of the section.
pub(crate) type Reads = (u32, u32);

/// The counts of the header's reader and of the section's.
#[derive(Drop)]
pub(crate) struct Counts<'a> {
    pub(crate) of_header: &'a Cell<u32>,
    pub(crate) of_section: &'a Cell<u32>,
}

impl Counts<'_> {
    /// How many numbers were read since the last call.
    fn since(&self) -> Reads {
        let reads = (self.of_header.get(), self.of_section.get());
        self.of_header.set(0);
        self.of_section.set(0);
        reads
    }
}

/// A header's table, with its section and their counts.
#[derive(Drop)]
pub(crate) struct Listing<'a, R: Reader> {
    pub(crate) table: EhHdrTable<'a, R>,
    pub(crate) frame: &'a EhFrame<R>,
    pub(crate) counts: &'a Counts<'a>,
}

/// What a call returns, as the address of the FDE, its offset or the first address of the row, and
/// how many numbers were read.
pub(crate) type Answer = (Result<u64, Error>, Reads);

fn address_of(target: Result<Pointer, Error>) -> Result<u64, Error> {
    match target {
        Ok(target) => target.direct(),
        Err(refusal) => Err(refusal),
    }
}

/// By the calls that take no source: `lookup`, `fde_for_address`, `unwind_info_for_address`.
pub(crate) fn by_table<R: Reader<Offset = usize>, S: UnwindContextStorage<usize>>(
    of: &Listing<'_, R>,
    context: &mut UnwindContext<usize, S>,
    address: u64,
) -> [Answer; 3] {
    let _before = of.counts.since();
    let target = address_of(of.table.lookup(address, &bases()));
    let looked_up = (target, of.counts.since());
    let (fde, _) = asked_by_table(OnTable::Fde, &of.table, of.frame, context, address, false);
    let found = (fde, of.counts.since());
    let (row, _) = asked_by_table(OnTable::Row, &of.table, of.frame, context, address, false);
    [looked_up, found, (row, of.counts.since())]
}

/// By a source of starts: `lookup_in` and `row_by_table`.
fn by_source<R: Reader<Offset = usize>, S: UnwindContextStorage<usize>, I: StartSource>(
    of: &Listing<'_, R>,
    starts: &mut I,
    context: &mut UnwindContext<usize, S>,
    address: u64,
) -> [Answer; 2] {
    let (bases, _before) = (bases(), of.counts.since());
    let target = address_of(of.table.lookup_in(starts, address, &bases));
    let looked_up = (target, of.counts.since());
    let row = range_of(row_by_table(&of.table, starts, of.frame, &bases, context, address));
    [looked_up, (start_of(row), of.counts.since())]
}

/// By the table's own starts: what making them reads, what both calls read, and what the start of
/// row 1 then reads.
pub(crate) type ByStarts = Result<(Reads, [Answer; 2], Answer), Error>;

pub(crate) fn by_starts<R: Reader<Offset = usize>, S: UnwindContextStorage<usize>>(
    of: &Listing<'_, R>,
    context: &mut UnwindContext<usize, S>,
    address: u64,
) -> ByStarts {
    let (bases, _before) = (bases(), of.counts.since());
    let mut starts = TableStarts::new(&of.table, &bases)?;
    let made = of.counts.since();
    let found = by_source(of, &mut starts, context, address);
    let start = starts.start(1);
    Ok((made, found, (start, of.counts.since())))
}

/// By starts that aren't read from the header; and how many starts both calls asked for.
fn by_list<R: Reader<Offset = usize>, S: UnwindContextStorage<usize>>(
    of: &Listing<'_, R>,
    context: &mut UnwindContext<usize, S>,
    address: u64,
) -> ([Answer; 2], u32) {
    let mut starts = Listed::new(&[0x1000, 0x1010, 0x1020]);
    let found = by_source(of, &mut starts, context, address);
    (found, starts.made)
}

/// By a table that was checked, if it passes.
fn by_checked_table<R: Reader<Offset = usize>, S: UnwindContextStorage<usize>>(
    of: &Listing<'_, R>,
    context: &mut UnwindContext<usize, S>,
    address: u64,
) -> Option<Answer> {
    let bases = bases();
    let Ok(checked) = FaithfulTable::new(&of.table, of.frame, &bases) else {
        return None;
    };
    let _before = of.counts.since();
    let row = range_of(checked.row(context, address));
    Some((start_of(row), of.counts.since()))
}

/// By a header that isn't parsed yet.
fn by_header<R: Reader<Offset = usize>, S: UnwindContextStorage<usize>>(
    header: R,
    frame: &EhFrame<R>,
    counts: &Counts<'_>,
    context: &mut UnwindContext<usize, S>,
    address: u64,
) -> Answer {
    let header = EhFrameHdr::from(header);
    let _before = counts.since();
    let row = range_of(row_by_header(&header, 8, frame, &bases(), context, address));
    (start_of(row), counts.since())
}

/// What each call returns and reads for an address.
type All = (
    [Answer; 3],
    ByStarts,
    ([Answer; 2], u32),
    Option<Answer>,
    Answer,
);

/// By a table.
fn by_each<R: Reader<Offset = usize>, S: UnwindContextStorage<usize>>(
    of: &Listing<'_, R>,
    context: &mut UnwindContext<usize, S>,
    address: u64,
    by_header: Answer,
) -> All {
    (
        by_table(of, context, address),
        by_starts(of, context, address),
        by_list(of, context, address),
        by_checked_table(of, context, address),
        by_header,
    )
}

fn all<R: Reader<Offset = usize>, S: UnwindContextStorage<usize>>(
    header: R,
    frame: &EhFrame<R>,
    counts: &Counts<'_>,
    context: &mut UnwindContext<usize, S>,
    address: u64,
) -> Result<All, Error> {
    let by_header = by_header(header, frame, counts, context, address);
    let parsed = read_header(header)?;
    let of = Listing {
        table: table_of(&parsed)?,
        frame,
        counts,
    };
    Ok(by_each(&of, context, address, by_header))
}

pub(crate) fn counting<'a, R>(inner: R, reads: &'a Cell<u32>) -> Counted<'a, R> {
    Counted { inner, reads }
}

/// The same from readers that are counted.
fn all_of<R: Reader<Offset = usize>, S: UnwindContextStorage<usize>>(
    section: R,
    header: R,
    counts: &Counts<'_>,
    context: &mut UnwindContext<usize, S>,
    address: u64,
) -> Result<All, Error> {
    let header = counting(header, counts.of_header);
    let frame = EhFrame::from(counting(section, counts.of_section));
    all(header, &frame, counts, context, address)
}

/// The same with fresh counts.
fn all_counted<R: Reader<Offset = usize>, S: UnwindContextStorage<usize>>(
    section: R,
    header: R,
    context: &mut UnwindContext<usize, S>,
    address: u64,
) -> Result<All, Error> {
    let of_header = Cell::new(0u32);
    let of_section = Cell::new(0u32);
    let counts = Counts {
        of_header: &of_header,
        of_section: &of_section,
    };
    all_of(section, header, &counts, context, address)
}

/// The FDE's length and id; its CIE's length, id and version, two letters with the zero after them
/// and the read that finds no third one, two factors and the register, the length of the letters'
/// data and an encoding; the FDE's two addresses and the length of its data.
const FDE: u32 = 2 + 12 + 3;

/// The seven bytes of the CIE's instructions, and the three of the FDE's.
const ROWS: u32 = 7 + 3;

/// The version and three encodings, the pointer and the count.
const HEAD: u32 = 6;

/// Two starts, which is as many as halving three rows takes, and a target.
const SEARCH: u32 = 2 + 1;

const TARGET: Result<u64, Error> = Ok(0x202c);

const ROW: Result<u64, Error> = Ok(0x1011);

/// What the calls return and read for 0x1018, whose row is the second of the FDE at 44.
const ALL: Result<All, Error> = Ok((
    [
        (TARGET, (SEARCH, 0)),
        (Ok(44), (SEARCH, FDE)),
        (ROW, (SEARCH, FDE + ROWS)),
    ],
    Ok((
        (0, 0),
        [(TARGET, (SEARCH, 0)), (ROW, (SEARCH, FDE + ROWS))],
        (Ok(0x1010), (1, 0)),
    )),
    ([(TARGET, (1, 0)), (ROW, (1, FDE + ROWS))], 4),
    Some((ROW, (SEARCH, FDE + ROWS))),
    (ROW, (HEAD + SEARCH, FDE + ROWS)),
));

/// Checks those numbers.
pub(crate) fn what_each_call_reads<R: Reader<Offset = usize>, S: UnwindContextStorage<usize>>(
    rt: &impl Abort,
    section: R,
    header: R,
    context: &mut UnwindContext<usize, S>,
) {
    let found = all_counted(section, header, context, 0x1018);
    expect(rt, "0x1018", &found, &ALL);
}
