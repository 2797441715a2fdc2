//! A small profile in both byte orders, of a program, a mapped file and a sample, and the same from
//! a pipe. The expected values are what `perf script -D` prints of the two. Which error another
//! profile returns is proved.
use crate::comparison::expect;
use cfi_guide::hexadecimal::bytes_of;
use cfi_perf::{Event, PerfError, Profile, Record, RecordWalk, Sample};
use std::alloc::Global;
use std::test::Fail;

/// Of a little-endian machine.
const LITTLE: &str = "\
    50455246494c45326800000000000000700000000000000068000000000000007000000000000000d800000000000000\
    000100000000000000000000000000000000000000000000480000000000000000000000000000000000000000000000\
    000000000000000001000000600000000000000000000000102700000000000027310000000000000000000000000000\
    000004000000000000000000000000000000000000000000000000000000000000000000000000008101000000000000\
    100000000000000000000000000000000000000000000000030000000220280007000000070000006100000000000000\
    07000000070000000a000000000000000a00000002006000070000000700000000004000000000000010000000000000\
    002000000000000000000000000000000000000000000000000000000000000005000000020000002f62696e2f610000\
    07000000070000000b000000000000000900000002007800230140000000000007000000080000006300000000000000\
    01000000000000000100000000000000240140000000000002000000000000001100000000000000fe7f000000000000\
    23014000000000001000000000000000a0a1a2a3a4a5a6a7a8a9aaabacadaeaf0800000000000000f801000000000000\
    0c0000000000000004020000000000000c0000000000000008000000686f737400000000080000007838365f36340000";

/// Of a big-endian machine.
const BIG: &str = "\
    32454c4946524550000000000000006800000000000000700000000000000068000000000000007000000000000000d8\
    000000000000010000000000000000000000000000000000000000000000004800000000000000000000000000000000\
    000000000000000000000001000000600000000000000000000000000000271000000000000031270000000000000000\
    000020000000000000000000000000000000000000000000000000000000000000000000000000000000000000000181\
    000000100000000000000000000000000000000000000000000000032002002800000007000000076100000000000000\
    0000000700000007000000000000000a0000000a00020060000000070000000700000000004000000000000000001000\
    000000000000200000000000000000000000000000000000000000000000000000000005000000022f62696e2f610000\
    0000000700000007000000000000000b0000000900020078000000000040012300000007000000080000000000000063\
    000000000000000100000000000000010000000000400124000000000000000200000000000000110000000000007ffe\
    00000000004001230000000000000010a0a1a2a3a4a5a6a7a8a9aaabacadaeaf000000000000000800000000000001f8\
    000000000000000c0000000000000204000000000000000c00000008686f737400000000000000087838365f36340000";

/// Where the first record and the places of the sections behind the records begin in the
/// little-endian profile.
const RECORDS: usize = 216;

const BEHIND: usize = 472;

/// The time, what kind of record it is, the process, an address, and how many bytes its name or its
/// stack has.
type Line = (u64, u8, u32, u64, usize);

fn line(record: &Record<'_>) -> Line {
    match record.event {
        Event::Mapping(found) => (record.time, 10, found.pid, found.address, found.name.len()),
        Event::Program(found) => (record.time, 3, found.pid, 0, found.name.len()),
        Event::Fork(found) => (record.time, 7, found.pid, 0, 0),
        Event::Sample(found) => (record.time, 9, found.pid, found.ip, found.user.stack.len()),
        Event::Lost(found) => (record.time, 2, 0, found.records, 0),
        Event::Other => (record.time, 0, 0, 0, 0),
    }
}

/// The three records, and that no other follows.
const LINES: [Option<Line>; 4] = [
    Some((10, 3, 7, 0, 1)),
    Some((11, 10, 7, 0x40_0000, 6)),
    Some((99, 9, 7, 0x40_0123, 8)),
    None,
];

fn line_of(record: Option<Record<'_>>) -> Option<Line> {
    match record {
        Some(record) => Some(line(&record)),
        None => None,
    }
}

type Lines = Result<[Option<Line>; 4], PerfError>;

fn lines(bytes: &[u8]) -> Lines {
    let mut records = Profile::parse(bytes)?.records();
    let mut lines = [None; 4];
    for place in lines.iter_mut() {
        *place = line_of(records.next()?);
    }
    Ok(lines)
}

/// The next record, by a window that ends with the records.
fn next_line_in(walk: &mut RecordWalk<'_>, bytes: &[u8]) -> Result<Option<Line>, PerfError> {
    let left = bytes.get(walk.place() as usize..).unwrap_or_default();
    let window = left.get(..walk.left() as usize).unwrap_or_default();
    Ok(line_of(walk.next(window)?))
}

fn lines_by_windows(bytes: &[u8]) -> Lines {
    let mut walk = Profile::parse(bytes)?.walk();
    let mut lines = [None; 4];
    for place in lines.iter_mut() {
        *place = next_line_in(&mut walk, bytes)?;
    }
    Ok(lines)
}

/// The same by both, and the architecture.
type Whole<'a> = (Lines, Lines, Result<Option<&'a [u8]>, PerfError>);

fn architecture(bytes: &[u8]) -> Result<Option<&[u8]>, PerfError> {
    Profile::parse(bytes)?.architecture()
}

fn whole(bytes: &[u8]) -> Whole<'_> {
    (lines(bytes), lines_by_windows(bytes), architecture(bytes))
}

/// The registers AX, BX, SP and IP of a sample.
fn registers(sample: &Sample<'_>) -> [Option<u64>; 4] {
    match sample.user.registers {
        Some(found) => [found.get(0), found.get(1), found.get(7), found.get(8)],
        None => [None; 4],
    }
}

/// The registers of the third record.
fn sampled(bytes: &[u8]) -> Result<[Option<u64>; 4], PerfError> {
    let mut records = Profile::parse(bytes)?.records();
    records.next()?;
    records.next()?;
    match records.next()? {
        Some(
            Record {
                event: Event::Sample(sample),
                ..
            },
        ) => Ok(registers(&sample)),
        _ => Ok([None; 4]),
    }
}

const REGISTERS: [Option<u64>; 4] = [Some(0x11), None, Some(0x7ffe), Some(0x40_0123)];

#[test]
fn a_profile_in_both_orders(rt: HostRuntime) -> Result<(), Fail> {
    for text in [LITTLE, BIG] {
        let bytes = bytes_of(rt.alloc(), text)?;
        let found = (whole(bytes.as_slice()), sampled(bytes.as_slice()));
        let expected = (Ok(LINES), Ok(LINES), Ok(Some(b"x86_64".as_slice())));
        expect(&rt, "a profile", &found, &(expected, Ok(REGISTERS)));
    }
    Ok(())
}

/// What stands before the attributes of the event in a pipe, and before the records: the headers of
/// the pipe and of a record, and the record with the architecture.
const LITTLE_PIPE: [&str; 2] = [
    "50455246494c453210000000000000004000000000006800",
    "5000000000001c000600000000000000080000007838365f36340000",
];

const BIG_PIPE: [&str; 2] = [
    "32454c494652455000000000000000100000004000000068",
    "000000500000001c0000000000000006000000087838365f36340000",
];

/// The same event and records as a pipe has them.
fn piped(alloc: Global, text: &str, pipe: [&str; 2]) -> Result<Vec<u8>, Fail> {
    let whole = bytes_of(alloc, text)?;
    let mut bytes = bytes_of(alloc, pipe[0])?;
    bytes.extend_from_slice(whole.get(104..200).unwrap_or_default())?;
    bytes.extend_from_slice(bytes_of(alloc, pipe[1])?.as_slice())?;
    bytes.extend_from_slice(whole.get(RECORDS..BEHIND).unwrap_or_default())?;
    Ok(bytes)
}

/// Those two records, which are others, and the first two behind them.
const PIPED: [Option<Line>; 4] = [
    Some((0, 0, 0, 0, 0)),
    Some((0, 0, 0, 0, 0)),
    Some((10, 3, 7, 0, 1)),
    Some((11, 10, 7, 0x40_0000, 6)),
];

#[test]
fn a_pipe_in_both_orders(rt: HostRuntime) -> Result<(), Fail> {
    for (text, pipe) in [(LITTLE, LITTLE_PIPE), (BIG, BIG_PIPE)] {
        let bytes = piped(rt.alloc(), text, pipe)?;
        let expected = (Ok(PIPED), Ok(PIPED), Ok(Some(b"x86_64".as_slice())));
        expect(&rt, "a pipe", &whole(bytes.as_slice()), &expected);
    }
    Ok(())
}
