//! What each entry begins with: its length, which gives the format and the extent, and its id
//! (DWARF 5 section 6.4.1).
ghost use Rattle.std.specs.Prelude.{◌≡◌, ◌≢◌, IfOk, IfSome, MatchOption, Ok};
ghost use Rattle.std.specs.Option.{option_map};
ghost use Rattle.cfi_read_core.specs.Numbers.{initial_length, unsigned};
ghost use Rattle.cfi_read_core.specs.declared.common.Format.TheVariants.{Dwarf32};
ghost use Rattle.cfi_read_core.specs.ReaderCalls.{ReadsBy, ReadsValue, map_ok};
ghost use Rattle.cfi_read_core.specs.CallFrameSections.{IsOf, width_of};
ghost use Rattle.cfi_entry.specs.Prefixes.{fields_after_length, prefix};
ghost use Rattle.cfi_entry.specs.Entries.{prefix_at};
ghost use Rattle.cfi_entry.specs.EntryViews.{IsPrefixOf, position_in, prefix_view, section_in};

use crate::in_section::InSection;
use cfi_read_core::section_properties::{_UnwindSectionPrivate, CieOffsetEncoding};
use cfi_read_core::{Error, Format, Reader, ReaderOffset, Result};

/// The prefix of an entry, and the rest of the entry after its id.
#[derive(Clone, Copy, Debug, PartialEq, Eq)]
pub struct EntryPrefix<R, O> {
    /// Where the entry begins in its section.
    pub offset: O,
    /// The value of the length field.
    pub length: O,
    pub format: Format,
    pub id: u64,
    /// Where the id is in the section.
    pub id_offset: O,
    /// The entry after its id.
    pub rest: R,
}

/// Reads an id of this width.
#[inline(always)]
fn read_id<R: Reader>(encoding: CieOffsetEncoding, input: &mut R) -> Result<u64>
    ensures { ReadsValue R.position (unsigned (width_of encoding)) input.old result input.new }
{
    match encoding {
        CieOffsetEncoding::U32 => Ok(u64::from(input.read_u32()?)),
        CieOffsetEncoding::U64 => input.read_u64(),
    }
}

/// Reads the id at the beginning of an entry's extent.
#[inline(always)]
fn read_identified<R: Reader, S: _UnwindSectionPrivate<R>>(
    at: &InSection<'_, S>,
    offset: R::Offset,
    length: R::Offset,
    format: Format,
    extent: R,
) -> Result<EntryPrefix<R, R::Offset>>
    requires { IsOf (R.position extent) (position_in S.view at.now) }
    ensures read { map_ok (prefix_view R.position R.Offset.number) result
        ≡ (fields_after_length (section_in S.view at.now) (R.Offset.number offset)
        (R.Offset.number length) format
        (R.position extent).source (R.position extent).place).value }
    ensures part { IfOk result (IsPrefixOf R.position (position_in S.view at.now)) }
{
    let mut rest = extent;
    let id_offset = rest.offset_from(at.section.section());
    let id = read_id(S::cie_offset_encoding(format), &mut rest)?;
    Ok(EntryPrefix {
        offset,
        length,
        format,
        id,
        id_offset,
        rest,
    })
}

/// Reads the length of an entry that is in the 32-bit format and has room for an id, as most are.
/// Returns `None`, and reads nothing, where there is another.
#[tactic(auto, unfolding(cfi_read_core::specs::Numbers::initial_length))]
#[inline(always)]
fn read_short_length<R: Reader>(input: &mut R) -> Option<R::Offset>
    ensures { MatchOption result (R.position input.new ≡ R.position input.old) (λ length.
        (R.Offset.number length ≢ 0) × ReadsValue R.position initial_length
        input.old (Ok (record { length = R.Offset.number length; format = Dwarf32 })) input.new) }
{
    let mut ahead = *input;
    let Ok(word) = ahead.read_u32() else {
        return None;
    };
    if word < 4 || word >= 0xffff_fff0 {
        return None;
    }
    let Ok(length) = R::Offset::from_u64(u64::from(word)) else {
        return None;
    };
    *input = ahead;
    Some(length)
}

/// Reads the prefix of an entry of any format and length, as `read_prefix`.
#[tactic(auto, unfolding(crate::specs::Prefixes::prefix))]
#[inline(always)]
fn read_any_prefix<R: Reader, S: _UnwindSectionPrivate<R>>(
    at: &InSection<'_, S>,
    input: &mut R,
) -> Result<Option<EntryPrefix<R, R::Offset>>>
    requires { IsOf (R.position input.old) (position_in S.view at.now) }
    ensures read { ReadsBy R.position (option_map (prefix_view R.position R.Offset.number))
        (prefix (section_in S.view at.now)) input.old result input.new }
    ensures part { IfOk result (λ found. IfSome found
        (IsPrefixOf R.position (position_in S.view at.now))) }
{
    let offset = input.offset_from(at.section.section());
    let (length, format) = input.read_initial_length()?;
    if length.into_u64() == 0 {
        return Ok(None);
    }
    let extent = input.split(length)?;
    let found = read_identified(at, offset, length, format, extent)?;
    Ok(Some(found))
}

/// Reads the prefix of the entry at which the input is, and moves the input past the entry. Returns
/// `None` where the length is zero.
///
/// Fails as `read_initial_length` for the length, and with `UnexpectedEof` where the entry goes
/// past the section's end, or its id past its own end.
#[tactic(auto, unfolding(crate::specs::Prefixes::prefix))]
#[inline(always)]
pub fn read_prefix<R: Reader, S: _UnwindSectionPrivate<R>>(
    at: &InSection<'_, S>,
    input: &mut R,
) -> Result<Option<EntryPrefix<R, R::Offset>>>
    requires { IsOf (R.position input.old) (position_in S.view at.now) }
    ensures read { ReadsBy R.position (option_map (prefix_view R.position R.Offset.number))
        (prefix (section_in S.view at.now)) input.old result input.new }
    ensures part { IfOk result (λ found. IfSome found
        (IsPrefixOf R.position (position_in S.view at.now))) }
{
    let offset = input.offset_from(at.section.section());
    let Some(length) = read_short_length(input) else {
        return read_any_prefix(at, input);
    };
    let extent = input.split(length)?;
    let found = read_identified(at, offset, length, Format::Dwarf32, extent)?;
    Ok(Some(found))
}

/// Reads the prefix of the entry at an offset of the section.
///
/// Fails with `UnexpectedEof` where the offset is past the section's end, as `read_prefix`, and
/// with `NoEntryAtGivenOffset` where the length there is zero.
#[inline(always)]
pub fn prefix_at<R: Reader, S: _UnwindSectionPrivate<R>>(
    at: &InSection<'_, S>,
    offset: R::Offset,
) -> Result<EntryPrefix<R, R::Offset>>
    ensures read { map_ok (prefix_view R.position R.Offset.number) result
        ≡ prefix_at (section_in S.view at.now) (R.Offset.number offset) }
    ensures part { IfOk result (IsPrefixOf R.position (position_in S.view at.now)) }
{
    let mut input = *at.section.section();
    input.skip(offset)?;
    match read_prefix(at, &mut input)? {
        Some(found) => Ok(found),
        None => Err(Error::NoEntryAtGivenOffset(offset.into_u64())),
    }
}
