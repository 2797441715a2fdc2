//! How the fields of an FDE are read (DWARF 5 section 6.4.1; LSB Core, "The Frame Description Entry
//! Format").
ghost use Rattle.std.specs.Prelude.{◌≤◌};
ghost use Rattle.std.specs.Option.{option_map};
ghost use Rattle.cfi_read_core.specs.AddressSizes.{size_in_bytes};
ghost use Rattle.cfi_read_core.specs.ReaderCalls.{ReadsValue};
ghost use Rattle.cfi_read_core.specs.CallFrameSections.{IsOf};
ghost use Rattle.cfi_entry.specs.Fdes.{addresses, lsda};
ghost use Rattle.cfi_entry.specs.EntryViews.{cie_view, position_in, section_in};

use crate::cie::CommonInformationEntry;
use crate::in_section::{InSection, pointers_in};
use cfi_parts::pointer::{Pointer, parse_encoded_pointer, parse_encoded_value};
use cfi_read_core::address::AddressSize;
use cfi_read_core::reader::read_offset;
use cfi_read_core::section_properties::_UnwindSectionPrivate;
use cfi_read_core::{DwEhPe, Reader, Result};

/// Reads the initial address and the number of addresses. Indirection of the address is ignored.
///
/// Fails as `read_address` for plain addresses, and as `parse_encoded_pointer` and then
/// `parse_encoded_value` for encoded ones.
#[inline(always)]
pub fn read_addresses<R: Reader, S: _UnwindSectionPrivate<R>>(
    at: &InSection<'_, S>,
    address_size: AddressSize,
    encoding: Option<DwEhPe>,
    input: &mut R,
) -> Result<(u64, u64)>
    requires { (position_in S.view at.now).place ≤ (R.position input.old).place }
    ensures { ReadsValue R.position
        (addresses (section_in S.view at.now) (size_in_bytes address_size)
        (option_map (λ e. e.0) encoding))
        input.old result input.new }
{
    let size = address_size.bytes();
    let Some(encoding) = encoding else {
        let initial_address = input.read_address(size)?;
        return Ok((initial_address, input.read_address(size)?));
    };
    let parameters = pointers_in(&at.section, at.bases, None, address_size);
    let initial_address = parse_encoded_pointer(encoding, &parameters, input)?.pointer();
    Ok((initial_address, parse_encoded_value(encoding, size, input)?))
}

/// Reads the pointer to the language-specific data from the augmentation data. The rest of the data
/// is skipped. Returns `None` where the CIE announces no data, or no such pointer.
///
/// Fails as `read_offset` for the length of the data, with `UnexpectedEof` where the data is cut
/// off, and as `parse_encoded_pointer` for the pointer.
#[inline(always)]
pub fn read_lsda<R: Reader, S: _UnwindSectionPrivate<R>>(
    at: &InSection<'_, S>,
    cie: &CommonInformationEntry<R>,
    initial_address: u64,
    input: &mut R,
) -> Result<Option<Pointer>>
    requires { IsOf (R.position input.old) (position_in S.view at.now) }
    ensures { let known = cie_view R.position R.Offset.number cie.now in
        ReadsValue R.position
        (lsda (section_in S.view at.now) known.address_size initial_address known.augmentation)
        input.old result input.new }
{
    let Some(augmentation) = cie.augmentation() else {
        return Ok(None);
    };
    if !augmentation.has_augmentation_data {
        return Ok(None);
    }
    let length = read_offset(input)?;
    let mut data = input.split(length)?;
    let Some(encoding) = augmentation.lsda_encoding else {
        return Ok(None);
    };
    let function = Some(initial_address);
    let parameters = pointers_in(&at.section, at.bases, function, cie.address_size);
    Ok(Some(parse_encoded_pointer(encoding, &parameters, &mut data)?))
}
