//! How often each of the six calls with a `get_cie` calls it, on every exit path.
//!
//! The contracts of calls that take the closure by value say nothing of its last state, so the
//! counts are tested here. All calls on a section are passed one closure, and so are those on a
//! table, since each closure takes longer to check than a call.
ghost use Rattle.gimli_cfi.specs.Words.{GivesCiesOf, debug_frame_view, eh_frame_view};

use crate::comparison::expect;
use crate::header::searches::{read_header, table_of};
use crate::rows::{Range, bases, range_of};
use gimli_cfi::{
    BaseAddresses, CommonInformationEntry, DebugFrame, DebugFrameOffset, EhFrame, EhFrameOffset,
    EhHdrTable, Error, FrameDescriptionEntry, Reader, ReaderOffsetId, UnwindContext,
    UnwindContextStorage, UnwindSection,
};
use std::process::Abort;

/// A CIE of `.debug_frame`; FDEs at 20 and 44 for 0x1000 and 0x2000, of 0x20 addresses each; at 68
/// an FDE that ends after its first address.
pub(crate) const FDES: [u8; 84] = [
    0x10, 0, 0, 0, 0xff, 0xff, 0xff, 0xff, 4, 0, 8, 0, 1, 0x78, 0x10, 0x0c, 7, 8, 0x90, 1, 0x14, 0,
    0, 0, 0, 0, 0, 0, 0, 0x10, 0, 0, 0, 0, 0, 0, 0x20, 0, 0, 0, 0, 0, 0, 0, 0x14, 0, 0, 0, 0, 0, 0,
    0, 0, 0x20, 0, 0, 0, 0, 0, 0, 0x20, 0, 0, 0, 0, 0, 0, 0, 0x0c, 0, 0, 0, 0, 0, 0, 0, 0, 0x30, 0,
    0, 0, 0, 0, 0,
];

/// What a call returns, as the offset of the FDE or the first address of the row, and how often it
/// called the closure.
pub(crate) type Asked = (Result<u64, Error>, u32);

fn offset_of<R: Reader<Offset = usize>>(
    found: Result<FrameDescriptionEntry<R>, Error>,
) -> Result<u64, Error> {
    match found {
        Ok(fde) => Ok(fde.offset() as u64),
        Err(refusal) => Err(refusal),
    }
}

/// Where a row starts.
pub(crate) fn start_of(row: Result<Range, Error>) -> Result<u64, Error> {
    match row {
        Ok((start, _)) => Ok(start),
        Err(refusal) => Err(refusal),
    }
}

type Cie<R> = Result<CommonInformationEntry<R>, Error>;

/// `PartialFrameDescriptionEntry::parse` of the FDE at an offset.
fn parsed<R: Reader<Offset = usize>, F>(
    section: &DebugFrame<R>,
    bases: &BaseAddresses,
    offset: u64,
    get_cie: F,
) -> Result<u64, Error>
where
    F: FnMut(&DebugFrame<R>, &BaseAddresses, DebugFrameOffset<usize>) -> Cie<R>,
    requires { F.IsAlwaysCallable get_cie }
{
    match section.partial_fde_from_offset(bases, DebugFrameOffset(offset as usize)) {
        Ok(partial) => offset_of(partial.parse(get_cie)),
        Err(refusal) => Err(refusal),
    }
}

/// `UnwindSection::fde_from_offset`.
fn at_offset<R: Reader<Offset = usize>, F>(
    section: &DebugFrame<R>,
    bases: &BaseAddresses,
    offset: u64,
    get_cie: F,
) -> Result<u64, Error>
where
    F: FnMut(&DebugFrame<R>, &BaseAddresses, DebugFrameOffset<usize>) -> Cie<R>,
    requires { F.IsAlwaysCallable get_cie }
{
    offset_of(section.fde_from_offset(bases, DebugFrameOffset(offset as usize), get_cie))
}

/// `UnwindSection::fde_for_address`.
fn for_address<R: Reader<Offset = usize>, F>(
    section: &DebugFrame<R>,
    bases: &BaseAddresses,
    address: u64,
    get_cie: F,
) -> Result<u64, Error>
where
    F: FnMut(&DebugFrame<R>, &BaseAddresses, DebugFrameOffset<usize>) -> Cie<R>,
    requires { F.IsAlwaysCallable get_cie }
{
    offset_of(section.fde_for_address(bases, address, get_cie))
}

/// `UnwindSection::unwind_info_for_address`.
fn row_for_address<R: Reader<Offset = usize>, S: UnwindContextStorage<usize>, F>(
    section: &DebugFrame<R>,
    bases: &BaseAddresses,
    context: &mut UnwindContext<usize, S>,
    address: u64,
    get_cie: F,
) -> Result<u64, Error>
where
    F: FnMut(&DebugFrame<R>, &BaseAddresses, DebugFrameOffset<usize>) -> Cie<R>,
    requires callable { F.IsAlwaysCallable get_cie }
    requires of_section { GivesCiesOf F.FnMut R.position
        (debug_frame_view R.position section.now).position section.now bases.now get_cie }
{
    start_of(range_of(section.unwind_info_for_address(bases, context, address, get_cie)))
}

/// The calls on a section, for the FDE at an offset or for an address.
#[derive(Clone, Copy)]
enum OnSection {
    Parse,
    FdeAt,
    FdeFor,
    RowFor,
}

fn by_section<R: Reader<Offset = usize>, S: UnwindContextStorage<usize>, F>(
    call: OnSection,
    section: &DebugFrame<R>,
    bases: &BaseAddresses,
    context: &mut UnwindContext<usize, S>,
    at: u64,
    get_cie: F,
) -> Result<u64, Error>
where
    F: FnMut(&DebugFrame<R>, &BaseAddresses, DebugFrameOffset<usize>) -> Cie<R>,
    requires callable { F.IsAlwaysCallable get_cie }
    requires of_section { GivesCiesOf F.FnMut R.position
        (debug_frame_view R.position section.now).position section.now bases.now get_cie }
{
    match call {
        OnSection::Parse => parsed(section, bases, at, get_cie),
        OnSection::FdeAt => at_offset(section, bases, at, get_cie),
        OnSection::FdeFor => for_address(section, bases, at, get_cie),
        OnSection::RowFor => row_for_address(section, bases, context, at, get_cie),
    }
}

/// What one of these calls returns, and how often it calls a closure that may refuse the CIE.
fn asked_by_section<R: Reader<Offset = usize>, S: UnwindContextStorage<usize>>(
    call: OnSection,
    section: &DebugFrame<R>,
    context: &mut UnwindContext<usize, S>,
    at: u64,
    refuses: bool,
) -> Asked {
    let bases = BaseAddresses::default();
    let mut asked = 0u32;
    let found = by_section(call, section, &bases, context, at, |from, bases, offset| {
        asked = asked.saturating_add(1);
        if refuses {
            return Err(Error::UnknownAugmentation);
        }
        from.cie_from_offset(bases, offset)
    });
    (found, asked)
}

/// `EhHdrTable::fde_for_address`.
fn fde_by_table<R: Reader<Offset = usize>, F>(
    table: &EhHdrTable<'_, R>,
    frame: &EhFrame<R>,
    bases: &BaseAddresses,
    address: u64,
    get_cie: F,
) -> Result<u64, Error>
where
    F: FnMut(&EhFrame<R>, &BaseAddresses, EhFrameOffset<usize>) -> Cie<R>,
    requires { F.IsAlwaysCallable get_cie }
{
    offset_of(table.fde_for_address(frame, bases, address, get_cie))
}

/// `EhHdrTable::unwind_info_for_address`.
fn row_by_cies<R: Reader<Offset = usize>, S: UnwindContextStorage<usize>, F>(
    table: &EhHdrTable<'_, R>,
    frame: &EhFrame<R>,
    bases: &BaseAddresses,
    context: &mut UnwindContext<usize, S>,
    address: u64,
    get_cie: F,
) -> Result<u64, Error>
where
    F: FnMut(&EhFrame<R>, &BaseAddresses, EhFrameOffset<usize>) -> Cie<R>,
    requires callable { F.IsAlwaysCallable get_cie }
    requires of_section { GivesCiesOf F.FnMut R.position
        (eh_frame_view R.position frame.now).position frame.now bases.now get_cie }
{
    start_of(range_of(table.unwind_info_for_address(frame, bases, context, address, get_cie)))
}

/// The calls on a header's table.
#[derive(Clone, Copy)]
pub(crate) enum OnTable {
    Fde,
    Row,
}

fn by_table<R: Reader<Offset = usize>, S: UnwindContextStorage<usize>, F>(
    call: OnTable,
    table: &EhHdrTable<'_, R>,
    frame: &EhFrame<R>,
    bases: &BaseAddresses,
    context: &mut UnwindContext<usize, S>,
    address: u64,
    get_cie: F,
) -> Result<u64, Error>
where
    F: FnMut(&EhFrame<R>, &BaseAddresses, EhFrameOffset<usize>) -> Cie<R>,
    requires callable { F.IsAlwaysCallable get_cie }
    requires of_section { GivesCiesOf F.FnMut R.position
        (eh_frame_view R.position frame.now).position frame.now bases.now get_cie }
{
    match call {
        OnTable::Fde => fde_by_table(table, frame, bases, address, get_cie),
        OnTable::Row => row_by_cies(table, frame, bases, context, address, get_cie),
    }
}

/// What one of these calls returns, and how often it calls a closure that may refuse the CIE.
pub(crate) fn asked_by_table<R: Reader<Offset = usize>, S: UnwindContextStorage<usize>>(
    call: OnTable,
    table: &EhHdrTable<'_, R>,
    frame: &EhFrame<R>,
    context: &mut UnwindContext<usize, S>,
    address: u64,
    refuses: bool,
) -> Asked {
    let bases = bases();
    let mut asked = 0u32;
    let found = by_table(
        call,
        table,
        frame,
        &bases,
        context,
        address,
        |from, bases, offset| {
            asked = asked.saturating_add(1);
            if refuses {
                return Err(Error::UnknownAugmentation);
            }
            from.cie_from_offset(bases, offset)
        },
    );
    (found, asked)
}

/// The section whose second FDE is longer than the rest of the section.
pub(crate) const CUT: [u8; 88] = [
    0x14, 0, 0, 0, 0, 0, 0, 0, 1, 0x7a, 0x52, 0, 1, 0x78, 0x10, 1, 0x1b, 0x0c, 7, 8, 0x90, 1, 0, 0,
    0x10, 0, 0, 0, 0x1c, 0, 0, 0, 0xe0, 0xef, 0xff, 0xff, 0x10, 0, 0, 0, 0, 0, 0, 0, 0x10, 0, 0, 0,
    0x30, 0, 0, 0, 0xdc, 0xef, 0xff, 0xff, 0x10, 0, 0, 0, 0x20, 0x41, 0x0e, 0x10, 0x10, 0, 0, 0,
    0x44, 0, 0, 0, 0xd8, 0xef, 0xff, 0xff, 0x20, 0, 0, 0, 0, 0, 0, 0, 0, 0, 0, 0,
];

/// The header, whose second row leads to the CIE.
pub(crate) const TO_THE_CIE: [u8; 36] = [
    1, 0x1b, 0x03, 0x3b, 0xfc, 0, 0, 0, 3, 0, 0, 0, 0, 0xf1, 0xff, 0xff, 0x18, 1, 0, 0, 0x10, 0xf1,
    0xff, 0xff, 0, 1, 0, 0, 0x20, 0xf1, 0xff, 0xff, 0x40, 1, 0, 0,
];

/// A header of one row, which is indirect.
pub(crate) const INDIRECT: [u8; 20] = [
    1, 0x1b, 0x03, 0xbb, 0xfc, 0, 0, 0, 1, 0, 0, 0, 0, 0xf1, 0xff, 0xff, 0x18, 1, 0, 0,
];

/// The readers of sections and headers: those that are as they should be, the cut section, a header
/// that leads to the CIE, an indirect one, and the section of `FDES`, whole and cut twice.
pub(crate) type Readers<R> = [R; 8];

/// The first bytes of a reader.
pub(crate) fn cut<R: Reader<Offset = usize>>(reader: R, length: usize) -> R {
    let mut whole = reader;
    match whole.split(length) {
        Ok(part) => part,
        Err(_) => reader,
    }
}

/// Two calls, and which readers they are passed: for the FDE at an offset, or for an address, by a
/// scan or by a header's table.
#[derive(Clone, Copy)]
enum Calls {
    AtOffset(usize),
    ByScan(usize),
    ByTable(usize, usize),
}

/// Both calls on a section, for an offset or an address.
fn both_by_section<R: Reader<Offset = usize>, S: UnwindContextStorage<usize>>(
    calls: [OnSection; 2],
    section: R,
    context: &mut UnwindContext<usize, S>,
    at: u64,
    refuses: bool,
) -> [Asked; 2] {
    let section = DebugFrame::from(section);
    [
        asked_by_section(calls[0], &section, context, at, refuses),
        asked_by_section(calls[1], &section, context, at, refuses),
    ]
}

/// Both calls for an address, by a table.
fn both_by_table<R: Reader<Offset = usize>, S: UnwindContextStorage<usize>>(
    table: &EhHdrTable<'_, R>,
    section: R,
    context: &mut UnwindContext<usize, S>,
    address: u64,
    refuses: bool,
) -> [Asked; 2] {
    let frame = EhFrame::from(section);
    [
        asked_by_table(OnTable::Fde, table, &frame, context, address, refuses),
        asked_by_table(OnTable::Row, table, &frame, context, address, refuses),
    ]
}

/// The same by a header.
fn both_by_header<R: Reader<Offset = usize>, S: UnwindContextStorage<usize>>(
    section: R,
    header: R,
    context: &mut UnwindContext<usize, S>,
    address: u64,
    refuses: bool,
) -> Result<[Asked; 2], Error> {
    let parsed = read_header(header)?;
    let table = table_of(&parsed)?;
    Ok(both_by_table(&table, section, context, address, refuses))
}

fn both<R: Reader<Offset = usize>, S: UnwindContextStorage<usize>>(
    calls: Calls,
    of: &Readers<R>,
    context: &mut UnwindContext<usize, S>,
    at: u64,
    refuses: bool,
) -> Result<[Asked; 2], Error> {
    match calls {
        Calls::AtOffset(section) => {
            let calls = [OnSection::Parse, OnSection::FdeAt];
            Ok(both_by_section(calls, of[section.min(7)], context, at, refuses))
        }
        Calls::ByScan(section) => {
            let calls = [OnSection::FdeFor, OnSection::RowFor];
            Ok(both_by_section(calls, of[section.min(7)], context, at, refuses))
        }
        Calls::ByTable(section, header) => {
            both_by_header(of[section.min(7)], of[header.min(7)], context, at, refuses)
        }
    }
}

/// Two calls, an offset or an address, and whether `get_cie` fails; what each of them returns, and
/// how often it calls the closure.
type Case = (Calls, u64, bool, [Asked; 2]);

const NONE: Result<u64, Error> = Err(Error::NoUnwindInfoForAddress);

const UNKNOWN: Result<u64, Error> = Err(Error::UnknownAugmentation);

const CUT_AT_84: Result<u64, Error> = Err(Error::UnexpectedEof(ReaderOffsetId(84)));

const CUT_AT_61: Result<u64, Error> = Err(Error::UnexpectedEof(ReaderOffsetId(61)));

const CUT_AT_48: Result<u64, Error> = Err(Error::UnexpectedEof(ReaderOffsetId(48)));

const NO_FDE: Result<u64, Error> = Err(Error::NotCiePointer(0));

const NOT_DIRECT: Result<u64, Error> = Err(Error::UnsupportedIndirectPointer);

const CASES: [Case; 20] = [
    (Calls::AtOffset(5), 20, false, [(Ok(20), 1); 2]),
    (Calls::AtOffset(5), 44, false, [(Ok(44), 1); 2]),
    (Calls::AtOffset(5), 68, false, [(CUT_AT_84, 1); 2]),
    (Calls::AtOffset(5), 0, false, [(NO_FDE, 0); 2]),
    (Calls::AtOffset(5), 84, false, [(CUT_AT_84, 0); 2]),
    (Calls::AtOffset(5), 44, true, [(UNKNOWN, 1); 2]),
    (
        Calls::ByScan(5),
        0x1008,
        false,
        [(Ok(20), 1), (Ok(0x1000), 1)],
    ),
    (
        Calls::ByScan(5),
        0x201f,
        false,
        [(Ok(44), 2), (Ok(0x2000), 2)],
    ),
    (Calls::ByScan(6), 0x3000, false, [(NONE, 2); 2]),
    (Calls::ByScan(7), 0x2008, false, [(CUT_AT_48, 1); 2]),
    (Calls::ByScan(5), 0x3000, false, [(CUT_AT_84, 3); 2]),
    (Calls::ByScan(5), 0x2008, true, [(UNKNOWN, 1); 2]),
    (
        Calls::ByTable(0, 1),
        0x1018,
        false,
        [(Ok(44), 1), (Ok(0x1011), 1)],
    ),
    (
        Calls::ByTable(0, 1),
        0x103f,
        false,
        [(Ok(64), 1), (Ok(0x1020), 1)],
    ),
    (Calls::ByTable(0, 1), 0xff0, false, [(NONE, 1); 2]),
    (Calls::ByTable(0, 1), 0x1040, false, [(NONE, 1); 2]),
    (Calls::ByTable(0, 1), 0x1018, true, [(UNKNOWN, 1); 2]),
    (Calls::ByTable(2, 1), 0x1018, false, [(CUT_AT_61, 1); 2]),
    (Calls::ByTable(0, 3), 0x1018, false, [(NO_FDE, 0); 2]),
    (Calls::ByTable(0, 4), 0x1000, false, [(NOT_DIRECT, 0); 2]),
];

fn check<R: Reader<Offset = usize>, S: UnwindContextStorage<usize>>(
    rt: &impl Abort,
    of: &Readers<R>,
    context: &mut UnwindContext<usize, S>,
    case: &Case,
) {
    let (calls, at, refuses, asked) = case;
    let found = both(*calls, of, context, *at, *refuses);
    expect(rt, *at, &found, &Ok(*asked));
}

/// Checks both calls in each case.
pub(crate) fn each_call_asks_once_an_fde<R: Reader<Offset = usize>, S: UnwindContextStorage<usize>>(
    rt: &impl Abort,
    of: &Readers<R>,
    context: &mut UnwindContext<usize, S>,
) {
    for case in &CASES {
        check(rt, of, context, case);
    }
}
