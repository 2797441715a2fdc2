//! Sections as bytes that are written in hexadecimal, for examples and tests.

use hex::FromHexError;
use std::alloc::Global;

/// A CIE of version 4 (addresses of 8 bytes, factors 1 and -8, return register 16; r7+8, r16 at
/// -8), and an FDE from 0x1000 up to 0x1020 whose instructions make three rows.
pub const THREE_ROWS: [u8; 52] = [
    0x10, 0, 0, 0, 0xff, 0xff, 0xff, 0xff, 4, 0, 8, 0, 1, 0x78, 0x10, 0x0c, 7, 8, 0x90, 1, 0x1c, 0,
    0, 0, 0, 0, 0, 0, 0, 0x10, 0, 0, 0, 0, 0, 0, 0x20, 0, 0, 0, 0, 0, 0, 0, 0x41, 0x0e, 0x10, 0x86,
    2, 0x43, 0x0d, 6,
];

/// The bytes given by hexadecimal digits; spaces are skipped.
pub fn bytes_of(alloc: Global, text: &str) -> Result<Vec<u8>, FromHexError> {
    let mut digits = Vec::new(alloc);
    if digits.extend_from_slice(text.as_bytes()).is_err() {
        return Err(FromHexError::OutOfMemory);
    }
    digits.retain(|byte| *byte != b' ');
    hex::decode(alloc, digits.as_slice())
}

/// The bytes of both texts, one after the other.
pub fn joined(alloc: Global, first: &str, second: &str) -> Result<Vec<u8>, FromHexError> {
    let mut bytes = bytes_of(alloc, first)?;
    match bytes.extend_from_slice(bytes_of(alloc, second)?.as_slice()) {
        Ok(()) => Ok(bytes),
        Err(_) => Err(FromHexError::OutOfMemory),
    }
}
