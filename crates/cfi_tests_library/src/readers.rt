//! A reader of bytes, for checks over any reader: a call that names a reader takes longer to check.
use cfi_read_core::{EndianSlice, LittleEndian};

/// The reader of most tests.
pub(crate) type Slice<'a> = EndianSlice<'a, LittleEndian>;

/// Makes a reader of bytes.
pub(crate) trait OfBytes<'a>: Sized {
    fn of(bytes: &'a [u8]) -> Self;
}

impl<'a> OfBytes<'a> for Slice<'a> {
    fn of(bytes: &'a [u8]) -> Self {
        EndianSlice::new(bytes, LittleEndian)
    }
}
