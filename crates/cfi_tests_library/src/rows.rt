//! What the tests say of a row.
use gimli_cfi::{
    ArrayLike, BaseAddresses, EndianSlice, Error, LittleEndian, ReaderOffset, Register,
    RegisterRule, UnwindTableRow,
};

pub(crate) type Slice = EndianSlice<'static, LittleEndian>;

/// Over bytes in little-endian order.
pub(crate) fn slice(bytes: &'static [u8]) -> Slice {
    EndianSlice::new(bytes, LittleEndian)
}

/// The bases of a section at 0x2000, with its header at 0x1f00.
pub(crate) fn bases() -> BaseAddresses {
    BaseAddresses::default()
        .set_eh_frame_hdr(0x1f00)
        .set_eh_frame(0x2000)
}

/// The addresses of a row: the first one, and the first one after it.
pub(crate) type Range = (u64, u64);

pub(crate) fn range_of<T: ReaderOffset, A: ArrayLike<Item = (Register, RegisterRule<T>)>>(
    found: Result<&UnwindTableRow<T, A>, Error>,
) -> Result<Range, Error> {
    match found {
        Ok(row) => Ok((row.start_address(), row.end_address())),
        Err(refusal) => Err(refusal),
    }
}
