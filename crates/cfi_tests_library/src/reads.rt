//! Numbers of a fixed width, a length and a text, each call once. LEB128 numbers are worked out in
//! `proofs/Leb128`.
use crate::comparison::expect;
use crate::readers::{OfBytes, Slice};
use cfi_read_core::common::Format;
use cfi_read_core::{Error, Reader};

/// A length of the 64-bit format, a number of two bytes, a signed one of four, a size of addresses,
/// a text, and what is left.
const PARTS: [u8; 23] = [
    0xff, 0xff, 0xff, 0xff, 1, 0, 0, 0, 0, 0, 0, 0, 0x12, 0x34, 0xfe, 0xff, 0xff, 0xff, 8, b'z',
    b'R', 0, 3,
];

/// Those numbers.
type Numbers = (
    Result<(usize, Format), Error>,
    Result<u16, Error>,
    Result<i32, Error>,
    Result<u8, Error>,
);

fn numbers<R: Reader<Offset = usize>>(reader: &mut R) -> Numbers {
    (
        reader.read_initial_length(),
        reader.read_u16(),
        reader.read_i32(),
        reader.read_address_size(),
    )
}

fn first_byte<R: Reader<Offset = usize>>(text: &mut R) -> Result<u8, Error> {
    let mut first = text.split(1)?;
    first.read_u8()
}

/// How long the text is, its first byte, and whether its second one is the last.
type Text = (usize, Result<u8, Error>, Result<(), Error>, bool);

fn of_text<R: Reader<Offset = usize>>(text: &mut R) -> Text {
    let whole = text.len();
    let first = first_byte(text);
    let skipped = text.skip(1);
    (whole, first, skipped, text.is_empty())
}

/// The text, and the place and the length of what is left.
type Texts = (Text, usize, usize);

fn texts<R: Reader<Offset = usize>>(reader: &mut R) -> Result<Texts, Error> {
    let mut text = reader.read_null_terminated_slice()?;
    Ok((of_text(&mut text), reader.place(), reader.len()))
}

/// The parts, and the error of a size of addresses after them.
type Parts = (Numbers, Result<Texts, Error>, Result<u8, Error>);

fn parts<R: Reader<Offset = usize>>(reader: R) -> Parts {
    let mut reader = reader;
    (
        numbers(&mut reader),
        texts(&mut reader),
        reader.read_address_size(),
    )
}

const OF_PARTS: Parts = (
    (Ok((1, Format::Dwarf64)), Ok(0x3412), Ok(-2), Ok(8)),
    Ok(((2, Ok(b'z'), Ok(()), true), 22, 1)),
    Err(Error::UnsupportedAddressSize(3)),
);

#[test]
fn numbers_and_texts(rt: HostRuntime) {
    expect(&rt, "parts", &parts(Slice::of(&PARTS)), &OF_PARTS);
}
