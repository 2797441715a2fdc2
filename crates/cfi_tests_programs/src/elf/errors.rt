//! Each error, by bytes of a file that are changed.
use super::bytes::{LITTLE_64, changed};
use crate::comparison::expect;
use cfi_elf::{ElfError, ElfFile};
use std::alloc::Global;
use std::process::Abort;
use std::test::Fail;

/// Where the section headers of `.text`, `.bss` and `.shstrtab` are.
const TEXT: usize = 460;

const BSS: usize = 588;

const NAMES: usize = 780;

/// The counts of headers and the index of the names are in section 0.
const EXTENDED: [(usize, u8); 9] = [
    (60, 0),
    (61, 0),
    (428, 7),
    (62, 0xff),
    (63, 0xff),
    (436, 6),
    (56, 0xff),
    (57, 0xff),
    (440, 2),
];

/// Which of seven are found, or the first error.
type Found = Result<[bool; 7], ElfError>;

/// A case, its bytes that are changed, each at its offset, some more than once, and what is found.
type Changed = (&'static str, [(usize, u8); 3], Found);

/// Five of them: neither the section that isn't there nor `.debug_frame`.
const FIVE: Found = Ok([true, false, false, true, true, true, true]);

/// The others but `.text`.
const FOUR: Found = Ok([false, false, false, true, true, true, true]);

const OF_THE_HEADER: [Changed; 9] = [
    ("the file as it is", [(0, 0x7f); 3], FIVE),
    ("no ELF", [(0, 0x7e); 3], Err(ElfError::NotElf)),
    ("class 3", [(4, 3); 3], Err(ElfError::UnknownClass(3))),
    (
        "no byte order",
        [(5, 0); 3],
        Err(ElfError::UnknownDataEncoding(0)),
    ),
    (
        "version 2 before the header",
        [(6, 2); 3],
        Err(ElfError::UnknownVersion(2)),
    ),
    (
        "version 2 in the header",
        [(20, 2); 3],
        Err(ElfError::UnknownVersion(2)),
    ),
    ("an object file", [(16, 1); 3], Err(ElfError::Relocatable)),
    ("a core file", [(16, 4); 3], Err(ElfError::Core)),
    ("neither table", [(32, 0), (40, 0), (41, 0)], Ok([false; 7])),
];

const OF_THE_TABLES: [Changed; 13] = [
    (
        "section headers of 65 bytes",
        [(58, 65); 3],
        Err(ElfError::SectionEntrySize(65)),
    ),
    (
        "8 sections",
        [(60, 8); 3],
        Err(ElfError::SectionTableOutOfBounds),
    ),
    (
        "sections after the end",
        [(47, 1); 3],
        Err(ElfError::SectionTableOutOfBounds),
    ),
    (
        "names in section 7",
        [(62, 7); 3],
        Err(ElfError::NoNameSection(7)),
    ),
    (
        "the names of symbols in place of those of sections",
        [(62, 5); 3],
        Err(ElfError::NameOutOfBounds),
    ),
    (
        "names that end before the zero of the last one",
        [(NAMES + 32, 47); 3],
        Err(ElfError::NameNotTerminated),
    ),
    (
        "SHF_COMPRESSED",
        [(TEXT + 9, 8); 3],
        Err(ElfError::Compressed),
    ),
    (
        "a section of more than 2^32 bytes",
        [(TEXT + 36, 1); 3],
        Err(ElfError::SectionOutOfBounds),
    ),
    (
        ".bss is called .zdebug_frame",
        [(BSS, 48); 3],
        Err(ElfError::Compressed),
    ),
    (".text is of type SHT_NULL", [(TEXT + 4, 0); 3], FOUR),
    (
        "program headers of 57 bytes",
        [(54, 57); 3],
        Err(ElfError::ProgramEntrySize(57)),
    ),
    (
        "segments after the end",
        [(39, 1); 3],
        Err(ElfError::ProgramTableOutOfBounds),
    ),
    (
        "a segment of more than 2^32 bytes",
        [(156, 1); 3],
        Err(ElfError::SegmentOutOfBounds),
    ),
];

/// Whether there are `.text`, a section that isn't there, and `.debug_frame`.
fn sections_in(file: &ElfFile<'_>) -> Result<[bool; 3], ElfError> {
    Ok([
        file.section(b".text")?.is_some(),
        file.section(b".missing")?.is_some(),
        file.debug_frame()?.is_some(),
    ])
}

/// Whether there are the header's segment, the bytes at the address of `.text`, the symbol `start`
/// and its function.
fn addresses_in(file: &ElfFile<'_>) -> Result<[bool; 4], ElfError> {
    Ok([
        file.eh_frame_hdr_segment()?.is_some(),
        file.loaded_bytes(0x10b0)?.is_some(),
        file.symbol_address(b"start")?.is_some(),
        file.function_at(0x10b0)?.is_some(),
    ])
}

/// What both find, one after the other.
fn found_in(bytes: &[u8]) -> Found {
    let file = ElfFile::parse(bytes)?;
    let [text, missing, debug_frame] = sections_in(&file)?;
    let [header, loaded, symbol, function] = addresses_in(&file)?;
    Ok([text, missing, debug_frame, header, loaded, symbol, function])
}

/// What is found in the file with these bytes changed.
fn found_with(alloc: Global, changes: &[(usize, u8)]) -> Result<Found, Fail> {
    let bytes = changed(alloc, LITTLE_64, changes)?;
    Ok(found_in(bytes.as_slice()))
}

/// Checks what is found in each case.
fn check(rt: &(impl Abort + AllocGlobal), cases: &[Changed]) -> Result<(), Fail> {
    for (case, changes, expected) in cases {
        expect(rt, *case, &found_with(rt.alloc(), changes)?, expected);
    }
    Ok(())
}

#[test]
fn each_error(rt: HostRuntime) -> Result<(), Fail> {
    check(&rt, &OF_THE_HEADER)?;
    check(&rt, &OF_THE_TABLES)?;
    expect(&rt, "extended", &found_with(rt.alloc(), &EXTENDED)?, &FIVE);
    Ok(())
}
