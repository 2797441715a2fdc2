//! The section `.eh_frame_hdr` and its header, up to the rows of its table.
ghost use Rattle.std.specs.Prelude.{◌≡◌, ⊤, IfOk, IfSome};
ghost use Rattle.std.specs.Option.{option_map};
ghost use Rattle.cfi_read_core.specs.Addresses.{IsAddressSize};
ghost use Rattle.cfi_read_core.specs.CallFrameSections.{IsOf, IsOf_prop};
ghost use Rattle.cfi_read_core.specs.ReaderCalls.{ReadsValue, all_of, map_ok};
ghost use Rattle.cfi_read_core.specs.SliceReaders.{slice_position};
ghost use Rattle.cfi_read_core.specs.declared.common.SectionId.TheVariants.{EhFrameHdr as hdr_id};
ghost use Rattle.gimli_cfi.specs.EhFrameHdr.{header_of, row_count};

use crate::hdr::table::EhHdrTable;
use cfi_parts::pointer::{
    BaseAddresses, Pointer, PointerEncodingParameters, parse_encoded_pointer, parse_encoded_value,
    parse_pointer_encoding,
};
use cfi_read_core::address::AddressSize;
use cfi_read_core::constants::DW_EH_PE_omit;
use cfi_read_core::{DwEhPe, EndianSlice, Endianity, Error, Reader, Result, Section, SectionId};
use std::alloc::AllocError;

/// The section `.eh_frame_hdr` (LSB Core, "The .eh_frame_hdr section").
///
/// It points to `.eh_frame`, and may have a table of rows by which an FDE is found without scanning
/// that section.
#[derive(Clone, Copy, Debug, PartialEq, Eq)]
pub struct EhFrameHdr<R>(R);

impl<'input, E: Endianity> EhFrameHdr<EndianSlice<'input, E>> {
    ghost use Rattle.gimli_cfi.specs.HeaderViews.{header_reader};

    /// The section of these bytes in this byte order. The bytes are borrowed.
    #[inline(always)]
    pub fn new(section: &'input [u8], endian: E) -> Self
        ensures { slice_position E.big_endian (header_reader result)
            ≡ all_of section.now (E.big_endian endian) 18446744073709551615 }
    {
        Self::from(EndianSlice::new(section, endian))
    }
}

impl<R> From<R> for EhFrameHdr<R> {
    ghost from_gives = { λ r s. s.0 ≡ r };

    #[inline(always)]
    fn from(section: R) -> Self {
        EhFrameHdr(section)
    }
}

impl<R> Section<R> for EhFrameHdr<R> {
    ghost bytes = { λ s. s.0 };

    ghost ID = { hdr_id };

    #[inline(always)]
    fn id() -> SectionId {
        SectionId::EhFrameHdr
    }

    #[inline(always)]
    fn reader(&self) -> &R {
        &self.0
    }

    ghost of_reader = { λ r s e. e };
}

impl<R: Reader> EhFrameHdr<R> {
    ghost use Rattle.gimli_cfi.specs.HeaderViews.{header_address_size, header_bytes};
    ghost use Rattle.gimli_cfi.specs.HeaderViews.{header_reader, header_view, unparsed_view};

    /// Parses the header up to the rows of its table, of which none is read yet.
    ///
    /// The bases are those in `BaseAddresses::eh_frame_hdr`. The address size is that of the
    /// section's pointers, 1, 2, 4 or 8: the section doesn't give it.
    ///
    /// Fails, in the order of the bytes, with `UnknownVersion` for a version other than 1; with
    /// `UnknownPointerEncoding` for an unknown encoding of the pointer to `.eh_frame`, of the count
    /// or of the rows; as any pointer of the section does for the pointer to `.eh_frame`; and, if
    /// neither the count nor the rows are omitted, with `UnsupportedPointerEncoding` for a count
    /// that is relative or indirect, then as the value of any pointer does for the count. It fails
    /// with `UnexpectedEof` if the bytes end before a part. It does not allocate.
    #[tactic(auto, unfolding(crate::specs::EhFrameHdr::header_fields))]
    pub fn parse(&self, bases: &BaseAddresses, address_size: u8) -> Result<ParsedEhFrameHdr<R>>
        requires { IsAddressSize address_size }
        ensures read { map_ok (header_view R.position) result
            ≡ header_of (unparsed_view R.position self.now address_size bases.now) }
        ensures section { IfOk result (λ header. header_bytes header ≡ header_reader self.now) }
        ensures size { IfOk result (λ header. header_address_size header ≡ address_size) }
    {
        let mut reader = self.0;
        let version = reader.read_u8()?;
        if version != 1 {
            return Err(Error::UnknownVersion(u64::from(version)));
        }
        let pointer_encoding = parse_pointer_encoding(&mut reader)?;
        let count_encoding = parse_pointer_encoding(&mut reader)?;
        let table_encoding = parse_pointer_encoding(&mut reader)?;
        let size = AddressSize::new(address_size);
        let parameters = PointerEncodingParameters {
            bases: &bases.eh_frame_hdr,
            func_base: None,
            address_size: size,
            section: &self.0,
        };
        let eh_frame_ptr = parse_encoded_pointer(pointer_encoding, &parameters, &mut reader)?;
        let fde_count = read_row_count(count_encoding, table_encoding, address_size, &mut reader)?;
        Ok(ParsedEhFrameHdr {
            address_size: size,
            section: self.0,
            eh_frame_ptr,
            fde_count,
            table_enc: table_encoding,
            table: reader,
        })
    }
}

/// How many rows the table has: none if the count or the rows are omitted.
#[tactic(auto, unfolding(crate::specs::EhFrameHdr::row_count))]
#[inline(always)]
fn read_row_count<R: Reader>(
    count_encoding: DwEhPe,
    table_encoding: DwEhPe,
    address_size: u8,
    input: &mut R,
) -> Result<u64>
    ensures { ReadsValue R.position (row_count address_size count_encoding.0 table_encoding.0)
        input.old result input.new }
{
    if count_encoding == DW_EH_PE_omit || table_encoding == DW_EH_PE_omit {
        return Ok(0);
    }
    if count_encoding != count_encoding.format() {
        return Err(Error::UnsupportedPointerEncoding(count_encoding));
    }
    parse_encoded_value(count_encoding, address_size, input)
}

/// A parsed header: where `.eh_frame` is, and the rows of its table.
#[derive(Debug)]
pub struct ParsedEhFrameHdr<R: Reader> {
    pub(crate) address_size: AddressSize,
    pub(crate) section: R,
    pub(crate) eh_frame_ptr: Pointer,
    pub(crate) fde_count: u64,
    pub(crate) table_enc: DwEhPe,
    pub(crate) table: R,
    ghost of_section: { IsOf (R.position table)
        (R.position section) } by { IsOf_prop (R.position table) (R.position section) },
}

impl<R: Reader> Clone for ParsedEhFrameHdr<R> {
    ghost is_clone = { λ x y. y ≡ x };

    ghost is_infallible = { λ _. ⊤ };

    #[inline(always)]
    fn clone(&self) -> std::result::Result<Self, AllocError> {
        Ok(*self)
    }
}

impl<R: Reader> Copy for ParsedEhFrameHdr<R> {}

impl<R: Reader> ParsedEhFrameHdr<R> {
    ghost use Rattle.gimli_cfi.specs.HeaderViews.{header_view, table_header, table_view};

    /// Where `.eh_frame` is.
    #[inline(always)]
    pub fn eh_frame_ptr(&self) -> Pointer
        ensures { result ≡ (header_view R.position self.now).eh_frame }
    {
        self.eh_frame_ptr
    }

    /// The table. `None` if it has no rows: the count is 0 or omitted, or the rows are omitted.
    #[inline(always)]
    pub fn table(&self) -> Option<EhHdrTable<'_, R>>
        ensures rows { option_map (table_view R.position) result
            ≡ (header_view R.position self.now).table }
        ensures header { IfSome result (λ table. table_header table ≡ self.now) }
    {
        if self.fde_count == 0 {
            None
        } else {
            Some(EhHdrTable::new(self))
        }
    }
}
