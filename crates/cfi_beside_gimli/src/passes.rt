//! Whole passes over a call frame section, for timing beside gimli from one program
//! (`docs/BENCHMARK.md`).
//!
//! Each export makes one pass over the public calls of `gimli_cfi`. It writes the number of answers
//! to `count` and returns their checksum, made as the driver in `bench/` makes that of gimli's
//! answers. Where a pass is refused as a whole, or the measure isn't known, the count is 2^64 - 1
//! and the checksum 0. The contexts are of the fixed storage.

use cfi_answers::compiled::of_compiled;
use cfi_answers::passes::{of_header, of_section};
use gimli_cfi::{BigEndian, LittleEndian, RunTimeEndian};
use std::alloc::Global;

/// One pass over `.eh_frame`, the least significant byte first, of 8-byte addresses, that lies at
/// `base`.
///
/// The measure is 0 for the entries (the offset of each), 1 for the FDEs with their CIEs (initial
/// address and length of each), 2 for all rows of all FDEs (addresses and CFA of each), 3 for a
/// scan of the section for each of the addresses (addresses and CFA of its row), 7 for all rows
/// with every rule.
#[unsafe(no_mangle)]
pub extern "C" fn cfi_passes_section_le(
    alloc: Global,
    measure: u32,
    section: &[u8],
    base: u64,
    addresses: &[u64],
    count: &mut u64,
) -> u64 {
    let done = of_section(alloc, measure, section, LittleEndian, base, addresses);
    *count = done.count;
    done.sum
}

/// `cfi_passes_section_le` with the most significant byte first.
#[unsafe(no_mangle)]
pub extern "C" fn cfi_passes_section_be(
    alloc: Global,
    measure: u32,
    section: &[u8],
    base: u64,
    addresses: &[u64],
    count: &mut u64,
) -> u64 {
    let done = of_section(alloc, measure, section, BigEndian, base, addresses);
    *count = done.count;
    done.sum
}

/// One pass by the table of `.eh_frame_hdr`, the least significant byte first, that lies at
/// `header_base`.
///
/// The measure is 4 for a lookup of each of the addresses (the pointer to its FDE), 5 for the row
/// of each by the table (addresses and CFA), 6 for the rows of the table (start and target of
/// each).
#[unsafe(no_mangle)]
pub extern "C" fn cfi_passes_header_le(
    alloc: Global,
    measure: u32,
    section: &[u8],
    base: u64,
    header: &[u8],
    header_base: u64,
    addresses: &[u64],
    count: &mut u64,
) -> u64 {
    let done = of_header(
        alloc,
        measure,
        section,
        LittleEndian,
        base,
        header,
        header_base,
        addresses,
    );
    *count = done.count;
    done.sum
}

/// `cfi_passes_header_le` with the most significant byte first.
#[unsafe(no_mangle)]
pub extern "C" fn cfi_passes_header_be(
    alloc: Global,
    measure: u32,
    section: &[u8],
    base: u64,
    header: &[u8],
    header_base: u64,
    addresses: &[u64],
    count: &mut u64,
) -> u64 {
    let done = of_header(
        alloc,
        measure,
        section,
        BigEndian,
        base,
        header,
        header_base,
        addresses,
    );
    *count = done.count;
    done.sum
}

/// Makes the compiled table of `.eh_frame`, the least significant byte first, of 8-byte addresses,
/// that lies at `base`, and then looks up the row of each of the addresses in it, `passes` times.
///
/// The measure is 8 for the CFA of each row, 9 for all that it says. The answers are those of one
/// of the passes; without a pass the count is the number of the table's steps, and the sum that of
/// its rows and errors.
#[unsafe(no_mangle)]
pub extern "C" fn cfi_passes_compiled_le(
    alloc: Global,
    measure: u32,
    section: &[u8],
    base: u64,
    addresses: &[u64],
    passes: u64,
    count: &mut u64,
) -> u64 {
    let endian = RunTimeEndian::Little;
    let done = of_compiled(alloc, measure, section, endian, base, addresses, passes);
    *count = done.count;
    done.sum
}

/// `cfi_passes_compiled_le` with the most significant byte first.
#[unsafe(no_mangle)]
pub extern "C" fn cfi_passes_compiled_be(
    alloc: Global,
    measure: u32,
    section: &[u8],
    base: u64,
    addresses: &[u64],
    passes: u64,
    count: &mut u64,
) -> u64 {
    let endian = RunTimeEndian::Big;
    let done = of_compiled(alloc, measure, section, endian, base, addresses, passes);
    *count = done.count;
    done.sum
}
