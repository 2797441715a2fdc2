//! Lengths and offsets past the end, over offsets of eight bytes and of four.
use crate::comparison::expect;
use crate::readers::Slice;
use cfi_parts::pointer::BaseAddresses;
use cfi_read_core::{
    EndianSlice, Error, LittleEndian, NarrowSlice, Reader, ReaderOffset, ReaderOffsetId,
};
use cfi_unwind::unwind_section::{DebugFrame, EhFrame, scan_for_fde};
use std::process::Abort;
use std::test::Fail;

/// A section, how many bytes of it there are, whether it is `.eh_frame`, and the error of an entry
/// with offsets of eight bytes and of four.
type Case = ([u8; 20], u64, bool, Error, Error);

const CASES: [Case; 8] = [
    (
        [4, 0, 0, 0, 0, 0, 0, 0, 0, 0, 0, 0, 0, 0, 0, 0, 0, 0, 0, 0],
        8,
        false,
        Error::NotCieId(0),
        Error::NotCieId(0),
    ),
    (
        [4, 0, 0, 0, 8, 0, 0, 0, 0, 0, 0, 0, 0, 0, 0, 0, 0, 0, 0, 0],
        8,
        false,
        Error::UnexpectedEof(ReaderOffsetId(8)),
        Error::UnexpectedEof(ReaderOffsetId(8)),
    ),
    (
        [4, 0, 0, 0, 9, 0, 0, 0, 0, 0, 0, 0, 0, 0, 0, 0, 0, 0, 0, 0],
        8,
        false,
        Error::UnexpectedEof(ReaderOffsetId(0)),
        Error::UnexpectedEof(ReaderOffsetId(0)),
    ),
    (
        [0, 0, 0, 0, 4, 0, 0, 0, 0, 0, 0, 0, 0, 0, 0, 0, 0, 0, 0, 0],
        12,
        false,
        Error::NoEntryAtGivenOffset(0),
        Error::NoEntryAtGivenOffset(0),
    ),
    (
        [
            0xef, 0xff, 0xff, 0xff, 0, 0, 0, 0, 0, 0, 0, 0, 0, 0, 0, 0, 0, 0, 0, 0,
        ],
        4,
        false,
        Error::UnexpectedEof(ReaderOffsetId(4)),
        Error::UnexpectedEof(ReaderOffsetId(4)),
    ),
    (
        [
            0xff, 0xff, 0xff, 0xff, 0xff, 0xff, 0xff, 0xff, 0xff, 0xff, 0xff, 0xff, 0, 0, 0, 0, 0,
            0, 0, 0,
        ],
        12,
        false,
        Error::UnexpectedEof(ReaderOffsetId(12)),
        Error::UnsupportedOffset,
    ),
    (
        [
            0xff, 0xff, 0xff, 0xff, 0, 0, 0, 0, 1, 0, 0, 0, 0, 0, 0, 0, 0, 0, 0, 0,
        ],
        12,
        false,
        Error::UnexpectedEof(ReaderOffsetId(12)),
        Error::UnsupportedOffset,
    ),
    (
        [
            0x0f, 0, 0, 0, 0, 0, 0, 0, 1, 0x7a, 0, 1, 0x78, 0x10, 0x80, 0x80, 0x80, 0x80, 0x10, 0,
        ],
        19,
        true,
        Error::UnexpectedEof(ReaderOffsetId(19)),
        Error::UnsupportedOffset,
    ),
];

/// The error of the first entry.
fn error_in<R: Reader>(whole: R, length: u64, is_eh_frame: bool) -> Result<(), Error> {
    let mut reader = whole;
    let (section, bases) = (
        reader.split(R::Offset::from_u64(length)?)?,
        BaseAddresses::default(),
    );
    if is_eh_frame {
        let _fde = scan_for_fde(&EhFrame::from(section), &bases, 0x1000)?;
    } else {
        let _fde = scan_for_fde(&DebugFrame::from(section), &bases, 0x1000)?;
    }
    Ok(())
}

/// Checks a case over both readers.
fn check<W: Reader, N: Reader>(rt: &impl Abort, wide: W, narrow: N, case: &Case) {
    let (_, length, is_eh_frame, of_eight, of_four) = case;
    let found = [
        error_in(wide, *length, *is_eh_frame),
        error_in(narrow, *length, *is_eh_frame),
    ];
    expect(rt, *length, &found, &[Err(*of_eight), Err(*of_four)]);
}

#[test]
fn lengths_and_offsets_past_the_end(rt: HostRuntime) -> Result<(), Fail> {
    for case in &CASES {
        let wide: Slice<'_> = EndianSlice::new(&case.0, LittleEndian);
        check(&rt, wide, NarrowSlice::new(&case.0, LittleEndian)?, case);
    }
    Ok(())
}
