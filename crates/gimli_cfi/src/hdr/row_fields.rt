//! The start and the target of a row, each read where it is in the table.
ghost use Rattle.std.specs.Prelude.{◌≡◌, ◌≤◌, IfSome, Some};
ghost use Rattle.cfi_read_core.specs.ReadFunctions.{skip};
ghost use Rattle.cfi_read_core.specs.ReaderCalls.{ReadsValue};
ghost use Rattle.cfi_parts.specs.Pointers.{pointer};
ghost use Rattle.gimli_cfi.specs.EhFrameHdr.{header_context, row_field, rows_passed};
ghost use Rattle.gimli_cfi.specs.EhFrameHdr.{searched_size, value_size};
ghost use Rattle.gimli_cfi.specs.HeaderViews.{header_section_view, rows_view, starts_view};
ghost use Rattle.gimli_cfi.specs.HeaderViews.{targets_view};
ghost use Rattle.gimli_cfi.specs.RowReadings.{ReadsRows};

use crate::hdr::header::ParsedEhFrameHdr;
use cfi_parts::pointer::{
    BaseAddresses, Pointer, PointerEncodingParameters, parse_encoded_pointer,
};
use cfi_read_core::constants::{
    DW_EH_PE_absptr, DW_EH_PE_datarel, DW_EH_PE_sdata2, DW_EH_PE_sdata4, DW_EH_PE_sdata8,
    DW_EH_PE_udata2, DW_EH_PE_udata4, DW_EH_PE_udata8,
};
use cfi_read_core::{DwEhPe, Error, Reader, ReaderAddress, ReaderOffset, ReaderOffsetId, Result};

/// The size in bytes of a value in a format that can be searched. Fails with
/// `UnsupportedPointerEncoding` for other formats.
#[inline(always)]
pub(crate) fn searchable_size(encoding: DwEhPe) -> Result<u64>
    ensures { result ≡ searched_size encoding.0 }
{
    match encoding.format() {
        DW_EH_PE_udata2 | DW_EH_PE_sdata2 => Ok(2),
        DW_EH_PE_udata4 | DW_EH_PE_sdata4 => Ok(4),
        DW_EH_PE_udata8 | DW_EH_PE_sdata8 => Ok(8),
        _ => Err(Error::UnsupportedPointerEncoding(encoding)),
    }
}

/// Skips `count` rows of two values of this size.
#[inline(always)]
pub(crate) fn pass_rows<R: Reader>(input: &mut R, size: u64, count: u64) -> Result<()>
    requires { size ≤ 8 }
    ensures { ReadsValue R.position (rows_passed size count) input.old result input.new }
{
    // It is read for the checker alone, which then knows that each offset is a `u64`.
    let _greatest = R::Offset::GREATEST;
    let Some(bytes) = count.checked_mul(2 * size) else {
        return Err(Error::UnsupportedOffset);
    };
    input.skip(R::Offset::from_u64(bytes)?)
}

/// Skips a value of this size. A size that does not fit the offset type is more than is left.
#[inline(always)]
fn pass_value<R: Reader>(input: &mut R, size: u64) -> Result<()>
    ensures { ReadsValue R.position (skip size) input.old result input.new }
{
    match R::Offset::from_u64(size) {
        Ok(bytes) => input.skip(bytes),
        Err(_) => Err(Error::UnexpectedEof(ReaderOffsetId(input.place().into_u64()))),
    }
}

/// The base to which the pointers in the rows are added, if each of them is four bytes with a sign,
/// as linkers write them, and addresses have eight bytes. `None` if they are read by the table's
/// encoding.
#[inline(always)]
pub(crate) fn base_of_rows<R: Reader>(
    hdr: &ParsedEhFrameHdr<R>,
    bases: &BaseAddresses,
) -> Option<u64>
    ensures read { ReadsRows R.position result hdr.now bases.now }
    ensures four { IfSome result (λ _. value_size hdr.now.table_enc.0 ≡ Some 4) }
{
    let encoding = hdr.table_enc;
    let is_signed_4 = encoding.format() == DW_EH_PE_sdata4 && !encoding.is_indirect();
    if !is_signed_4 || hdr.address_size.bytes() != 8 {
        return None;
    }
    match encoding.application() {
        DW_EH_PE_absptr => Some(0),
        DW_EH_PE_datarel => bases.eh_frame_hdr.data_base,
        _ => None,
    }
}

/// Reads a pointer of a row, where the rows have this base. The reader is at the first row or past
/// it.
#[inline(always)]
pub(crate) fn read_pointer<R: Reader>(
    hdr: &ParsedEhFrameHdr<R>,
    bases: &BaseAddresses,
    base: Option<u64>,
    input: &mut R,
) -> Result<Pointer>
    requires chosen { ReadsRows R.position base hdr.now bases.now }
    requires behind { (R.position hdr.now.section).place ≤ (R.position input.old).place }
    ensures { ReadsValue R.position
        (pointer hdr.now.table_enc.0
        (header_context (header_section_view R.position hdr.now bases.now)))
        input.old result input.new }
{
    if let Some(base) = base {
        let value = i64::from(input.read_i32()?).cast_unsigned();
        return Ok(Pointer::Direct(base.wrapping_add_sized(value, 8)));
    }
    // A copy is lent to the call, so that only it has to be in memory.
    let mut apart = *input;
    let found = read_by_encoding(hdr, bases, &mut apart);
    *input = apart;
    found
}

/// Reads a pointer of a row by the table's encoding.
// Not inlined: linkers write four bytes with a sign. With this read the functions around would get
// so large that their own hints are dropped.
#[inline(never)]
fn read_by_encoding<R: Reader>(
    hdr: &ParsedEhFrameHdr<R>,
    bases: &BaseAddresses,
    input: &mut R,
) -> Result<Pointer>
    requires { (R.position hdr.now.section).place ≤ (R.position input.old).place }
    ensures { ReadsValue R.position
        (pointer hdr.now.table_enc.0
        (header_context (header_section_view R.position hdr.now bases.now)))
        input.old result input.new }
{
    let parameters = PointerEncodingParameters {
        bases: &bases.eh_frame_hdr,
        func_base: None,
        address_size: hdr.address_size,
        section: &hdr.section,
    };
    parse_encoded_pointer(hdr.table_enc, &parameters, input)
}

/// Reads a field of the row with this index: the one after the first `before` bytes of the row. The
/// reader is at the first row.
#[tactic(auto, unfolding(crate::specs::EhFrameHdr::row_field))]
#[inline(always)]
fn read_field<R: Reader>(
    hdr: &ParsedEhFrameHdr<R>,
    bases: &BaseAddresses,
    base: Option<u64>,
    size: u64,
    index: u64,
    before: u64,
    input: &mut R,
) -> Result<Pointer>
    requires chosen { ReadsRows R.position base hdr.now bases.now }
    requires small { size ≤ 8 }
    requires behind { (R.position hdr.now.section).place ≤ (R.position input.old).place }
    ensures { let header = header_section_view R.position hdr.now bases.now in
        ReadsValue R.position (row_field header (rows_view R.position hdr.now) size index before)
        input.old result input.new }
{
    pass_rows(input, size, index)?;
    pass_value(input, before)?;
    read_pointer(hdr, bases, base, input)
}

/// The start of a row, which has to be direct.
#[inline(always)]
pub(crate) fn start_of_row<R: Reader>(
    hdr: &ParsedEhFrameHdr<R>,
    bases: &BaseAddresses,
    base: Option<u64>,
    size: u64,
    index: u64,
) -> Result<u64>
    requires chosen { ReadsRows R.position base hdr.now bases.now }
    requires searchable { value_size hdr.now.table_enc.0 ≡ Some size }
    ensures { result ≡ starts_view R.position hdr.now bases.now index }
{
    let mut rows = hdr.table;
    read_field(hdr, bases, base, size, index, 0, &mut rows)?.direct()
}

/// The target of a row.
#[inline(always)]
pub(crate) fn target_of_row<R: Reader>(
    hdr: &ParsedEhFrameHdr<R>,
    bases: &BaseAddresses,
    size: u64,
    index: u64,
) -> Result<Pointer>
    requires { value_size hdr.now.table_enc.0 ≡ Some size }
    ensures { result ≡ targets_view R.position hdr.now bases.now index }
{
    let base = base_of_rows(hdr, bases);
    let mut rows = hdr.table;
    read_field(hdr, bases, base, size, index, size, &mut rows)
}
