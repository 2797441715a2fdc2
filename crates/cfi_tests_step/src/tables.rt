//! Compiled tables of small sections, over both calls, and of many FDEs: how many steps, rows and
//! errors they have.
use crate::comparison::expect;
use cfi_compiled::CompiledTable;
use cfi_guide::hexadecimal::{bytes_of, joined};
use gimli_cfi::{
    BaseAddresses, DebugFrame, EndianSlice, Error, LittleEndian, Reader, StoreGrowing,
    UnwindContext, UnwindContextStorage,
};
use std::alloc::{AllocError, Global};
use std::test::Fail;

/// How many steps a table has, and how many rows and errors.
type Counts = Result<(usize, usize), Error>;

fn by_new<R: Reader<Offset = usize>>(alloc: Global, section: &DebugFrame<R>) -> Counts {
    let table = CompiledTable::new(alloc, section, &BaseAddresses::default())?;
    let has_steps = table.iter().next().is_some();
    Ok((if has_steps { table.len() } else { 0 }, table.results_len()))
}

fn by_context<R: Reader<Offset = usize>, S: UnwindContextStorage<usize>>(
    alloc: Global,
    section: &DebugFrame<R>,
    context: &mut UnwindContext<usize, S>,
) -> Counts {
    let table = CompiledTable::with_context(alloc, section, &BaseAddresses::default(), context)?;
    Ok((table.len(), table.results_len()))
}

/// By the storage of `new`, and by another one.
fn by_both<R: Reader<Offset = usize>, S: UnwindContextStorage<usize>>(
    alloc: Global,
    reader: R,
) -> Result<[Counts; 2], Error> {
    let section = DebugFrame::from(reader);
    let mut context: UnwindContext<usize, S> = UnwindContext::new_in(alloc)?;
    Ok([
        by_new(alloc, &section),
        by_context(alloc, &section, &mut context),
    ])
}

fn counts_of(alloc: Global, bytes: &[u8]) -> Result<[Counts; 2], Error> {
    by_both::<_, StoreGrowing>(alloc, EndianSlice::new(bytes, LittleEndian))
}

const CIE: &str = "10000000 ffffffff 04000800 017810 0c0708 9001";

/// FDEs of a `.debug_frame`, after the CIE; how many steps and how many rows and errors the table
/// has, counted by hand: equal rows once, and so `NoUnwindInfoForAddress`, but another error for
/// each of its steps.
const SECTIONS: [(&str, (usize, usize)); 22] = [
    ("", (1, 1)),
    // three rows, and none before and after them
    (
        "1c000000 00000000 0010000000000000 2000000000000000 41 0e10 8602 43 0d06",
        (5, 4),
    ),
    // two FDEs that meet and say the same: one step
    (
        "14000000 00000000 0010000000000000 2000000000000000 \
         14000000 00000000 2010000000000000 2000000000000000",
        (3, 2),
    ),
    // two that meet and say the same, by CIEs with other return address registers
    (
        "14000000 00000000 0010000000000000 2000000000000000 \
         10000000 ffffffff 04000800 017811 0c0708 9001 \
         14000000 2c000000 2010000000000000 2000000000000000",
        (4, 3),
    ),
    // the same two rows twice, with a gap
    (
        "17000000 00000000 0010000000000000 2000000000000000 410e10 \
         17000000 00000000 0011000000000000 2000000000000000 410e10",
        (7, 3),
    ),
    // a row that comes back
    (
        "1a000000 00000000 0010000000000000 2000000000000000 41 0e20 42 0e08",
        (5, 3),
    ),
    // remembered state
    (
        "19000000 00000000 0010000000000000 2000000000000000 0a 0e20 42 0b",
        (4, 3),
    ),
    // cut instruction
    (
        "16000000 00000000 0010000000000000 2000000000000000 41 02",
        (4, 3),
    ),
    // location set to itself: an empty row
    (
        "1d000000 00000000 0010000000000000 2000000000000000 01 0010000000000000",
        (3, 2),
    ),
    // number of eleven bytes
    (
        "1f000000 00000000 0010000000000000 2000000000000000 0e80808080808080808002",
        (3, 2),
    ),
    // state within a state
    (
        "1f000000 00000000 0010000000000000 2000000000000000 0a 0e20 0a 0e30 41 0b 42 0b 43",
        (5, 4),
    ),
    // restored before any state
    (
        "17000000 00000000 0010000000000000 2000000000000000 0b 0e10",
        (3, 2),
    ),
    // two that fall, the later one below, with a gap
    (
        "17000000 00000000 0011000000000000 2000000000000000 410e10 \
         14000000 00000000 0010000000000000 2000000000000000",
        (6, 3),
    ),
    // two that meet, and an empty one within
    (
        "17000000 00000000 2010000000000000 2000000000000000 410e10 \
         14000000 00000000 0010000000000000 2000000000000000 \
         14000000 00000000 0410000000000000 0000000000000000",
        (4, 3),
    ),
    // a move past the end of the FDE
    (
        "17000000 00000000 0010000000000000 2000000000000000 0240 41",
        (3, 2),
    ),
    // an FDE whose CIE isn't one, after a good one: its error is that of all other addresses
    (
        "14000000 00000000 0010000000000000 2000000000000000 \
         14000000 14000000 0011000000000000 2000000000000000",
        (3, 3),
    ),
    // a length that is cut, after a good one
    (
        "14000000 00000000 0010000000000000 2000000000000000 0500",
        (3, 3),
    ),
    // overlaps: the first within the second's rows
    (
        "14000000 00000000 0110000000000000 2000000000000000 \
         14000000 00000000 0010000000000000 0200000000000000",
        (3, 2),
    ),
    (
        "17000000 00000000 0810000000000000 0400000000000000 410e20 \
         1c000000 00000000 0010000000000000 2000000000000000 41 0e10 8602 43 0d06",
        (8, 5),
    ),
    // the second within the first
    (
        "1c000000 00000000 0010000000000000 2000000000000000 41 0e10 8602 43 0d06 \
         17000000 00000000 0810000000000000 0400000000000000 410e20",
        (5, 4),
    ),
    // three at one address
    (
        "17000000 00000000 0010000000000000 0400000000000000 410e20 \
         17000000 00000000 0010000000000000 0800000000000000 420e30 \
         17000000 00000000 0010000000000000 1000000000000000 430e40",
        (6, 5),
    ),
    // over an error
    (
        "17000000 00000000 0410000000000000 0400000000000000 410e20 \
         16000000 00000000 0010000000000000 2000000000000000 4102",
        (7, 5),
    ),
];

#[test]
fn equal_rows_are_stored_once(rt: HostRuntime) -> Result<(), Fail> {
    for (text, counts) in &SECTIONS {
        let bytes = joined(rt.alloc(), CIE, text)?;
        let found = counts_of(rt.alloc(), bytes.as_slice())?;
        expect(&rt, *text, &found, &[Ok(*counts); 2]);
    }
    Ok(())
}

/// Adds an FDE of 64 addresses. The CFA is r7 + 8 at the first, and r7 + 16 from the next one on.
fn add_fde(bytes: &mut Vec<u8>, start: u64) -> Result<(), AllocError> {
    bytes.extend_from_slice(&[0x17, 0, 0, 0, 0, 0, 0, 0])?;
    bytes.extend_from_slice(&start.to_le_bytes())?;
    bytes.extend_from_slice(&[0x40, 0, 0, 0, 0, 0, 0, 0, 0x41, 0x0e, 0x10])
}

/// A section of so many FDEs, so far apart and from 0x1000 on.
fn many(alloc: Global, count: u64, distance: u64) -> Result<Vec<u8>, Fail> {
    let mut bytes = bytes_of(alloc, CIE)?;
    for index in 0..count {
        let start = index.wrapping_mul(distance).wrapping_add(0x1000);
        add_fde(&mut bytes, start)?;
    }
    Ok(bytes)
}

/// How many FDEs, and their distances, with the counts. In the first section the steps of a page
/// end in the middle of an FDE, in the second each FDE is in pages of its own with others empty
/// between them, and in the third there are far more pages than steps.
const SPACED: [(u64, u64, (usize, usize)); 3] = [
    (3000, 0x50, (9001, 3)),
    (700, 0xfff, (2101, 3)),
    (30, 0x1000_0000_0000, (91, 3)),
];

#[test]
fn tables_of_many_fdes(rt: HostRuntime) -> Result<(), Fail> {
    for (count, distance, counts) in &SPACED {
        let bytes = many(rt.alloc(), *count, *distance)?;
        let found = counts_of(rt.alloc(), bytes.as_slice())?;
        expect(&rt, *count, &found, &[Ok(*counts); 2]);
    }
    Ok(())
}
