//! What is printed of files that are read by parts. They have the file of `printed` twice: its
//! headers lie at the beginning, and its section headers and sections a number of bytes behind.
use super::printed::{ALL_ROWS, DUMP, FILE, FailsAfter, prints};
use crate::comparison::expect;
use cfi_files::{Printed, Request, run_on_file};
use cfi_guide::hexadecimal::bytes_of;
use cfi_text::style::Format;
use std::alloc::Global;
use std::process::Abort;
use std::test::Fail;

/// Where the file has its section headers.
const SECTION_HEADERS: usize = 0x260;

/// The second bytes of the offset of the section headers in the file header, and of the offset of a
/// section in its header.
const OFFSET_OF_HEADERS: usize = 0x29;

const OFFSET_OF_SECTION: usize = 0x19;

/// The first byte of the size of the section with the names of symbols. The names of sections come
/// next.
const SIZE_OF_NAMES: usize = SECTION_HEADERS + 6 * 64 + 0x20;

/// The file, with its section headers and sections so many times 256 bytes behind.
fn spread(alloc: Global, high: u8) -> Result<Vec<u8>, Fail> {
    let distance = usize::from(high) * 256;
    let file = bytes_of(alloc, FILE)?;
    let mut bytes = bytes_of(alloc, FILE)?;
    bytes.resize(distance, 0)?;
    bytes.extend_from_slice(file.as_slice())?;
    add(&mut bytes, OFFSET_OF_HEADERS, high);
    for section in 1..8usize {
        let header = distance + SECTION_HEADERS + 64 * section;
        add(&mut bytes, header + OFFSET_OF_SECTION, high);
    }
    Ok(bytes)
}

fn add(bytes: &mut Vec<u8>, at: usize, more: u8) {
    if let Some(byte) = bytes.get_mut(at) {
        *byte = byte.wrapping_add(more);
    }
}

/// Compares what is printed where each read fails in turn, and where none fails, of which there are
/// so many.
fn prints_after(
    rt: &(impl Abort + AllocGlobal),
    printed: Printed<'_>,
    bytes: &[u8],
    reads: usize,
    text: &str,
) -> Result<(), Fail> {
    for left in 0..reads {
        let failing = &mut FailsAfter::parts(bytes, left);
        prints(rt, printed, failing, "wrong input\n", 2)?;
    }
    prints(rt, printed, &mut FailsAfter::parts(bytes, reads), text, 0)
}

/// How many times 256 bytes the sections lie behind, how much longer the names of symbols are made,
/// what is printed, by how many reads, and its text.
type Spread = (u8, u8, Printed<'static>, usize, &'static str);

const ROWS: Printed<'static> = Printed::Rows(None, Format::Text);

/// By the first 4,096 bytes, the section headers, their names, `.eh_frame`, its header,
/// `.debug_frame`, the symbols and their names. In the third `.eh_frame` begins among the first
/// 4,096 bytes and ends behind them, and `.debug_frame` and the symbols follow it. In the fourth
/// the names of symbols have those of sections in them, which were read: the file is read whole.
const SPREAD: [Spread; 4] = [
    (0x20, 0, Printed::Dump, 8, DUMP),
    (0x20, 0, ROWS, 8, ALL_ROWS),
    (0x0f, 0, ROWS, 7, ALL_ROWS),
    (0x20, 0x46, ROWS, 8, ALL_ROWS),
];

#[test]
fn parts(rt: HostRuntime) -> Result<(), Fail> {
    for (high, longer, printed, reads, text) in &SPREAD {
        let mut bytes = spread(rt.alloc(), *high)?;
        add(
            &mut bytes,
            usize::from(*high) * 256 + SIZE_OF_NAMES,
            *longer,
        );
        prints_after(&rt, *printed, bytes.as_slice(), *reads, text)?;
    }
    Ok(())
}

/// How many parts of a file are read for what is printed, and how many bytes these have.
fn counted(alloc: Global, printed: Printed<'_>, bytes: &[u8]) -> Result<(usize, u64), Fail> {
    let mut input = FailsAfter::parts(bytes, usize::MAX);
    let raw = false;
    let mut output = Vec::new(alloc);
    run_on_file(alloc, Request { printed, raw }, &mut input, &mut output)?;
    Ok((input.parts, input.read))
}

/// Of the 9,312 bytes of the file of `parts` only those of its parts are read: 4,096; 8 section
/// headers of 64; 70 of their names; 56, 20 and 48 of `.eh_frame`, its header and `.debug_frame`;
/// and 168 of the symbols and 57 of their names.
#[test]
fn bytes_that_are_read(rt: HostRuntime) -> Result<(), Fail> {
    let bytes = spread(rt.alloc(), 0x20)?;
    let bytes = bytes.as_slice();
    let dump = counted(rt.alloc(), Printed::Dump, bytes)?;
    let rows = counted(rt.alloc(), Printed::Rows(None, Format::Text), bytes)?;
    let found = (bytes.len(), dump, rows);
    expect(&rt, "bytes", &found, &(9_312, (8, 5_027), (8, 5_027)));
    Ok(())
}
