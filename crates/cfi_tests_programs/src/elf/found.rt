//! What is found in the four files.
use super::bytes::{BIG_32, BIG_64, LITTLE_32, LITTLE_64, changed};
use crate::comparison::expect;
use cfi_elf::{Class, ElfError, ElfFile, FunctionNames, Section};
use cfi_read_core::{RunTimeEndian, Vendor};
use std::process::Abort;
use std::test::Fail;

/// What a header says.
type Header = (Class, RunTimeEndian, u8, Vendor);

/// The addresses of `.text`, of its third and its fourth byte, of `.eh_frame`, of the header's
/// segment, and of `.bss`.
type Places = [u64; 6];

const OF_64_BITS: Places = [0x10b0, 0x10b2, 0x10b3, 0x10b4, 0x10bc, 0x10c0];

const OF_32_BITS: Places = [0x1074, 0x1076, 0x1077, 0x1078, 0x1080, 0x1084];

/// A file, the byte of its machine at 18, what its header says, and its places.
type File = (&'static str, u8, Header, Places);

const LITTLE: RunTimeEndian = RunTimeEndian::Little;

const BIG: RunTimeEndian = RunTimeEndian::Big;

/// The fifth is for AArch64.
const FILES: [File; 5] = [
    (
        LITTLE_64,
        62,
        (Class::Elf64, LITTLE, 8, Vendor::Default),
        OF_64_BITS,
    ),
    (
        BIG_64,
        0,
        (Class::Elf64, BIG, 8, Vendor::Default),
        OF_64_BITS,
    ),
    (
        LITTLE_32,
        3,
        (Class::Elf32, LITTLE, 4, Vendor::Default),
        OF_32_BITS,
    ),
    (
        BIG_32,
        0,
        (Class::Elf32, BIG, 4, Vendor::Default),
        OF_32_BITS,
    ),
    (
        LITTLE_64,
        183,
        (Class::Elf64, LITTLE, 8, Vendor::AArch64),
        OF_64_BITS,
    ),
];

/// The address of a section, and its bytes; or the error of the call.
type Part<'a> = Result<Option<(u64, &'a [u8])>, ElfError>;

fn part_of<'a>(section: Result<Option<Section<'a>>, ElfError>) -> Part<'a> {
    match section {
        Ok(Some(section)) => Ok(Some((section.address, section.bytes))),
        Ok(None) => Ok(None),
        Err(error) => Err(error),
    }
}

/// `.text`, `.eh_frame`, `.bss`, a section whose name begins another one's, `.debug_frame`, and the
/// header's segment.
fn parts_of<'a>(file: &ElfFile<'a>) -> [Part<'a>; 6] {
    [
        part_of(file.section(b".text")),
        part_of(file.section(b".eh_frame")),
        part_of(file.section(b".bss")),
        part_of(file.section(b".eh_fram")),
        part_of(file.debug_frame()),
        part_of(file.eh_frame_hdr_segment()),
    ]
}

/// Loaded bytes from an address on; or the error of the call.
type Loaded<'a> = Result<Option<&'a [u8]>, ElfError>;

/// The name of a function, its address, and its size; or the error of the call.
type Function<'a> = Result<Option<(&'a [u8], u64, u64)>, ElfError>;

fn function_at<'a>(file: &ElfFile<'a>, address: u64) -> Function<'a> {
    match file.function_at(address) {
        Ok(Some(function)) => Ok(Some((function.name, function.address, function.size))),
        Ok(None) => Ok(None),
        Err(error) => Err(error),
    }
}

/// The bytes of `.text`, and those from its third one on to the end of the header's segment.
const TEXT: &[u8] = &[0x90, 0x91, 0x92, 0xc3];

const WITHIN: &[u8] = &[
    0x92, 0xc3, 0xa0, 0xa1, 0xa2, 0xa3, 0, 0, 0, 0, 1, 0x1b, 3, 0x3b,
];

/// Those of `.eh_frame`, of the header's segment, and of `.bss`.
const FRAME: &[u8] = &[0xa0, 0xa1, 0xa2, 0xa3, 0, 0, 0, 0];

const HEADER: &[u8] = &[1, 0x1b, 3, 0x3b];

const NONE: &[u8] = &[];

fn check_parts(rt: &impl Abort, file: &ElfFile<'_>, places: &Places) {
    let [text, _, _, frame, header, data] = *places;
    let expected: [Part<'_>; 6] = [
        Ok(Some((text, TEXT))),
        Ok(Some((frame, FRAME))),
        Ok(Some((data, NONE))),
        Ok(None),
        Ok(None),
        Ok(Some((header, HEADER))),
    ];
    expect(rt, "parts", &parts_of(file), &expected);
}

/// Compares the bytes from the third of `.text` on, and behind the segment.
fn check_loaded(rt: &impl Abort, file: &ElfFile<'_>, places: &Places) {
    let [_, within, _, _, _, behind] = *places;
    let found: [Loaded<'_>; 2] = [file.loaded_bytes(within), file.loaded_bytes(behind)];
    expect(rt, "loaded", &found, &[Ok(Some(WITHIN)), Ok(None)]);
}

/// Compares the values of `start` and of a symbol that isn't there.
fn check_symbols(rt: &impl Abort, file: &ElfFile<'_>, places: &Places) {
    let [text, ..] = *places;
    let found = [file.symbol_address(b"start"), file.symbol_address(b"star")];
    expect(rt, "symbols", &found, &[Ok(Some(text)), Ok(None)]);
}

/// Compares the functions at three addresses.
fn check_functions(rt: &impl Abort, file: &ElfFile<'_>, places: &Places) {
    let [text, third, fourth, behind, ..] = *places;
    let found: [Function<'_>; 3] = [
        function_at(file, third),
        function_at(file, fourth),
        function_at(file, behind),
    ];
    let start: Function<'_> = Ok(Some((b"start", text, 3)));
    let other: Function<'_> = Ok(Some((b"other", fourth, 1)));
    expect(rt, "functions", &found, &[start, other, Ok(None)]);
}

/// The names at three addresses, at the second of which no function begins.
fn names_at<'a>(names: &FunctionNames<'a>, places: &Places) -> [Option<&'a [u8]>; 3] {
    let [text, third, fourth, ..] = *places;
    [
        names.name_at(text),
        names.name_at(third),
        names.name_at(fourth),
    ]
}

const START_AND_OTHER: [Option<&[u8]>; 3] = [Some(b"start"), None, Some(b"other")];

fn check_names(
    rt: &(impl Abort + AllocGlobal),
    file: &ElfFile<'_>,
    places: &Places,
) -> Result<(), Fail> {
    let names = FunctionNames::new(rt.alloc(), file)?;
    expect(rt, "names", &names_at(&names, places), &START_AND_OTHER);
    Ok(())
}

fn header_of(file: &ElfFile<'_>) -> Header {
    (
        file.class(),
        file.endian(),
        file.address_size(),
        file.vendor(),
    )
}

#[test]
fn what_each_file_has(rt: HostRuntime) -> Result<(), Fail> {
    for (text, machine, header, places) in &FILES {
        let bytes = changed(rt.alloc(), text, &[(18, *machine)])?;
        let file = ElfFile::parse(bytes.as_slice())?;
        expect(&rt, "header", &header_of(&file), header);
        check_parts(&rt, &file, places);
        check_loaded(&rt, &file, places);
        check_symbols(&rt, &file, places);
        check_functions(&rt, &file, places);
        check_names(&rt, &file, places)?;
    }
    Ok(())
}
