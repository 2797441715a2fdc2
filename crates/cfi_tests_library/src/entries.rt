//! Each call on FDEs and their CIEs once, where it succeeds. The reads themselves are worked out in
//! `gimli_cfi/proofs/WorkedEntries` and `cfi_parts/proofs/Vectors`, and many more sections are test
//! vectors (`cfi_rows/runs/rows`).
use crate::comparison::expect;
use crate::readers::{OfBytes, Slice};
use cfi_parts::instruction::CallFrameInstruction;
use cfi_parts::pointer::{BaseAddresses, Pointer};
use cfi_read_core::{
    DebugFrameOffset, DwEhPe, EhFrameOffset, Error, Format, Reader, Register, Vendor,
};
use cfi_unwind::entry::{CommonInformationEntry, FrameDescriptionEntry};
use cfi_unwind::unwind_section::{DebugFrame, EhFrame, UnwindSection, scan_for_fde};

/// `.eh_frame` at 0x2000: a CIE with the letters `zPLRS`, and at 33 an FDE of it, from 0x1000 on,
/// with language-specific data at 0x5050.
const LETTERS: [u8; 58] = [
    0x1d, 0, 0, 0, 0, 0, 0, 0, 1, 0x7a, 0x50, 0x4c, 0x52, 0x53, 0, 1, 0x78, 0x10, 0x0b, 0, 0x30,
    0x40, 0, 0, 0, 0, 0, 0, 0, 0x1b, 0x0c, 7, 8, 0x15, 0, 0, 0, 0x25, 0, 0, 0, 0xd7, 0xef, 0xff,
    0xff, 0x10, 0, 0, 0, 8, 0x50, 0x50, 0, 0, 0, 0, 0, 0,
];

/// The format of a CIE, its length, version, size of addresses, factors, and return address
/// register.
type Settings = (Format, usize, u8, u8, (u64, i64), Register);

fn settings_of<R: Reader<Offset = usize>>(cie: &CommonInformationEntry<R>) -> Settings {
    let factors = (cie.code_alignment_factor(), cie.data_alignment_factor());
    (
        cie.encoding().format,
        cie.entry_len(),
        cie.version(),
        cie.address_size(),
        factors,
        cie.return_address_register(),
    )
}

/// Whether a CIE has an augmentation, language-specific data, the mark of a signal trampoline, and
/// that of the B key.
type Marks = [bool; 4];

fn marks_of<R: Reader>(cie: &CommonInformationEntry<R>) -> Marks {
    [
        cie.augmentation().is_some(),
        cie.has_lsda(),
        cie.is_signal_trampoline(),
        cie.uses_b_key(),
    ]
}

/// The encodings of language-specific data and of addresses, and the personality, also with its
/// encoding.
type Pointers = (
    [Option<DwEhPe>; 2],
    Option<Pointer>,
    Option<(DwEhPe, Pointer)>,
);

fn pointers_of<R: Reader>(cie: &CommonInformationEntry<R>) -> Pointers {
    (
        [cie.lsda_encoding(), cie.fde_address_encoding()],
        cie.personality(),
        cie.personality_with_encoding(),
    )
}

/// The offset and the length of an FDE, its addresses, whether it contains its end, and its
/// language-specific data.
type Range = ((usize, usize), (u64, u64, u64), bool, Option<Pointer>);

fn range_of<R: Reader<Offset = usize>>(fde: &FrameDescriptionEntry<R>) -> Range {
    let end = fde.end_address();
    (
        (fde.offset(), fde.entry_len()),
        (fde.initial_address(), end, fde.len()),
        fde.contains(end),
        fde.lsda(),
    )
}

/// The CIE and the FDE.
type OfLetters = (Settings, Marks, Pointers, Range);

fn of_letters<R: Reader<Offset = usize>>(reader: R) -> Result<OfLetters, Error> {
    let bases = BaseAddresses::default().set_eh_frame(0x2000);
    let fde = scan_for_fde(&EhFrame::from(reader), &bases, 0x1000)?;
    let cie = fde.cie();
    Ok((
        settings_of(cie),
        marks_of(cie),
        pointers_of(cie),
        range_of(&fde),
    ))
}

const OF_LETTERS: Result<OfLetters, Error> = Ok((
    (Format::Dwarf32, 29, 1, 8, (1, -8), Register(16)),
    [true, true, true, false],
    (
        [Some(DwEhPe(0)), Some(DwEhPe(0x1b))],
        Some(Pointer::Direct(0x4030)),
        Some((DwEhPe(0), Pointer::Direct(0x4030))),
    ),
    (
        (33, 21),
        (0x1000, 0x1010, 0x10),
        false,
        Some(Pointer::Direct(0x5050)),
    ),
));

/// `.debug_frame`: a CIE of version 1, and at 13 an FDE of addresses of two bytes, from 0x1000 on,
/// whose one instruction is of AArch64.
const NARROW: [u8; 26] = [
    9, 0, 0, 0, 0xff, 0xff, 0xff, 0xff, 1, 0, 1, 0x78, 0x10, 9, 0, 0, 0, 0, 0, 0, 0, 0, 0x10, 0x20,
    0, 0x2d,
];

type Instruction = Result<Option<CallFrameInstruction<usize>>, Error>;

/// The FDE at 13, and its instruction.
type OfNarrow = (Range, Instruction);

fn of_narrow<R: Reader<Offset = usize>>(section: &DebugFrame<R>) -> Result<OfNarrow, Error> {
    let bases = BaseAddresses::default();
    let fde = scan_for_fde(section, &bases, 0x1000)?;
    let instruction = fde.instructions(section, &bases).next();
    Ok((range_of(&fde), instruction))
}

const OF_NARROW: Result<OfNarrow, Error> = Ok((
    ((13, 9), (0x1000, 0x1020, 0x20), false, None),
    Ok(Some(CallFrameInstruction::NegateRaState)),
));

/// The section of bytes with these settings.
fn narrow<R: Reader>(reader: R) -> DebugFrame<R> {
    let mut section = DebugFrame::from(reader);
    section.set_address_size(2);
    section.set_vendor(Vendor::AArch64);
    section
}

/// `.debug_frame`: a CIE with letter `B`.
const B_KEY: [u8; 21] = [
    0x11, 0, 0, 0, 0xff, 0xff, 0xff, 0xff, 4, 0x42, 0, 8, 0, 1, 0x78, 0x10, 0x0c, 7, 8, 0x90, 1,
];

/// `.debug_frame`: a CIE with letter `S`.
const SIGNAL: [u8; 17] = [
    0x0d, 0, 0, 0, 0xff, 0xff, 0xff, 0xff, 4, 0x53, 0, 8, 0, 1, 0x78, 0x10, 0,
];

/// `.eh_frame`: a CIE with letter `S`.
const SIGNAL_EH: [u8; 14] = [0x0a, 0, 0, 0, 0, 0, 0, 0, 1, 0x53, 0, 1, 0x78, 0x10];

/// `.eh_frame`: a CIE whose personality is indirect, 16 bytes after its pointer at 17.
const PERSONALITY: [u8; 21] = [
    0x11, 0, 0, 0, 0, 0, 0, 0, 1, 0x7a, 0x50, 0, 1, 0x78, 0x10, 5, 0x9b, 0x10, 0, 0, 0,
];

/// The marks of a CIE, and its pointers.
type OfCie = Result<(Marks, Pointers), Error>;

fn of_cie<R: Reader>(cie: Result<CommonInformationEntry<R>, Error>) -> OfCie {
    let cie = cie?;
    Ok((marks_of(&cie), pointers_of(&cie)))
}

fn in_debug_frame<R: Reader<Offset = usize>>(reader: R) -> OfCie {
    let section = DebugFrame::from(reader);
    of_cie(section.cie_from_offset(&BaseAddresses::default(), DebugFrameOffset(0)))
}

fn in_eh_frame<R: Reader<Offset = usize>>(reader: R, bases: &BaseAddresses) -> OfCie {
    of_cie(EhFrame::from(reader).cie_from_offset(bases, EhFrameOffset(0)))
}

/// Those CIEs, the last one also without the base of its section.
type OfCies = [OfCie; 5];

fn of_cies<'a, R: Reader<Offset = usize> + OfBytes<'a>>() -> OfCies {
    let bases = BaseAddresses::default();
    [
        in_debug_frame(R::of(&B_KEY)),
        in_debug_frame(R::of(&SIGNAL)),
        in_eh_frame(R::of(&SIGNAL_EH), &bases),
        in_eh_frame(R::of(&PERSONALITY), &bases.set_eh_frame(0x2000)),
        in_eh_frame(R::of(&PERSONALITY), &bases),
    ]
}

const NO_POINTERS: Pointers = ([None, None], None, None);

const INDIRECT: Pointer = Pointer::Indirect(0x2021);

const OF_CIES: OfCies = [
    Ok(([true, false, false, true], NO_POINTERS)),
    Ok(([true, false, true, false], NO_POINTERS)),
    Ok(([true, false, true, false], NO_POINTERS)),
    Ok((
        [true, false, false, false],
        ([None, None], Some(INDIRECT), Some((DwEhPe(0x9b), INDIRECT))),
    )),
    Err(Error::PcRelativePointerButSectionBaseIsUndefined),
];

/// What is read of both sections, and of the CIEs.
type All = (Result<OfNarrow, Error>, Result<OfLetters, Error>, OfCies);

fn all<'a, R: Reader<Offset = usize> + OfBytes<'a>>() -> All {
    (
        of_narrow(&narrow(R::of(&NARROW))),
        of_letters(R::of(&LETTERS)),
        of_cies::<R>(),
    )
}

#[test]
fn each_call(rt: HostRuntime) {
    expect(
        &rt,
        "entries",
        &all::<Slice<'_>>(),
        &(OF_NARROW, OF_LETTERS, OF_CIES),
    );
}
