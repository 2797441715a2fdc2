//! The entries of a section in order, and the entry at an offset.
ghost use Rattle.std.specs.Prelude.{◌≡◌, ◌<◌, ⊤, IfOk, IfSome};
ghost use Rattle.std.specs.Option.{option_map};
ghost use Rattle.cfi_read_core.specs.ReaderCalls.{ReadsBy, remaining, map_ok};
ghost use Rattle.cfi_parts.specs.InstructionReaders.{Meets};
ghost use Rattle.cfi_entry.specs.Entries.{entries_left, entry_of, partial_fde_at, partial_fde_of};
ghost use Rattle.cfi_unwind.specs.EntrySteps.{GoesThrough, GoesThrough_prop, entry_read};
ghost use Rattle.cfi_entry.specs.EntryViews.{IsPrefixOf, position_in, prefix_view, section_in};
ghost use Rattle.cfi_unwind.specs.WalkViews.{IsEntryOf, IsPartialOf, cie_or_fde_view};
ghost use Rattle.cfi_unwind.specs.WalkViews.{partial_view};

use crate::entry::partial::{PartialFdeFields, PartialFrameDescriptionEntry};
use cfi_entry::cie::{CommonInformationEntry, read_cie};
use cfi_entry::in_section::InSection;
use cfi_entry::prefix::{EntryPrefix, prefix_at, read_prefix};
use cfi_parts::pointer::BaseAddresses;
use cfi_read_core::section_properties::_UnwindSectionPrivate;
use cfi_read_core::{Error, Reader, ReaderOffset, Result};
use std::alloc::AllocError;

/// An entry, generic over the types of its CIE and its FDE.
#[derive(Copy, Debug, PartialEq, Eq)]
pub enum EntryFields<C, F> {
    /// A common information entry.
    Cie(C),
    /// A frame description entry as far as the offset of its CIE.
    Fde(F),
}

impl<C: Copy, F: Copy> Clone for EntryFields<C, F> {
    ghost is_clone = { λ x y. y ≡ x };

    ghost is_infallible = { λ _. ⊤ };

    #[inline(always)]
    fn clone(&self) -> std::result::Result<Self, AllocError> {
        Ok(*self)
    }
}

/// An entry: a whole CIE, or an FDE as far as the offset of its CIE.
pub type CieOrFde<'bases, Section, R> = EntryFields<
    CommonInformationEntry<R>,
    PartialFrameDescriptionEntry<'bases, Section, R>,
>;

/// Reads the FDE whose prefix was read, as far as the offset of its CIE.
///
/// Fails with `UnsupportedOffset` where the id does not fit the offset type, and with
/// `OffsetOutOfBounds` where the CIE would be before the section.
#[inline(always)]
fn read_partial_fde<'bases, R: Reader, S: _UnwindSectionPrivate<R> + Copy>(
    at: &InSection<'bases, S>,
    found: EntryPrefix<R, R::Offset>,
) -> Result<PartialFrameDescriptionEntry<'bases, S, R>>
    requires { IsPrefixOf R.position (position_in S.view at.now) found }
    ensures read { map_ok (partial_view R.position R.Offset.number) result
        ≡ partial_fde_of (section_in S.view at.now) (prefix_view R.position R.Offset.number found) }
    ensures same_section_and_bases { IfOk result
        (IsPartialOf at.now.section at.now.bases.now) }
{
    let id = R::Offset::from_u64(found.id)?;
    let cie_offset = at
        .section
        .resolve_cie_offset(found.id_offset, id)
        .ok_or(Error::OffsetOutOfBounds(found.id))?;
    Ok(PartialFdeFields {
        section: at.section,
        bases: at.bases,
        prefix: found,
        cie_offset,
    })
}

/// Reads the entry whose prefix was read: a whole CIE, or an FDE as far as the offset of its CIE.
#[tactic(auto, unfolding(cfi_entry::specs::Entries::entry_of))]
#[inline(always)]
fn read_entry_after<'bases, R: Reader, S: _UnwindSectionPrivate<R> + Copy>(
    at: &InSection<'bases, S>,
    found: EntryPrefix<R, R::Offset>,
) -> Result<CieOrFde<'bases, S, R>>
    requires { IsPrefixOf R.position (position_in S.view at.now) found }
    ensures read { map_ok (cie_or_fde_view R.position R.Offset.number) result
        ≡ entry_of (section_in S.view at.now) (prefix_view R.position R.Offset.number found) }
    ensures same_section_and_bases { IfOk result
        (IsEntryOf S.view R.position at.now.section at.now.bases.now) }
{
    if S::is_cie(found.format, found.id) {
        Ok(EntryFields::Cie(read_cie(at, &found)?))
    } else {
        Ok(EntryFields::Fde(read_partial_fde(at, found)?))
    }
}

/// Reads the entry at which the input is, and moves the input past it. Returns `None` where its
/// length is zero.
#[tactic(auto, unfolding(crate::specs::EntrySteps::entry_read))]
#[inline(always)]
fn read_entry<'bases, R: Reader, S: _UnwindSectionPrivate<R> + Copy>(
    at: &InSection<'bases, S>,
    input: &mut R,
) -> Result<Option<CieOrFde<'bases, S, R>>>
    requires { GoesThrough (R.position input.old) (position_in S.view at.now) }
    ensures read { ReadsBy R.position (option_map (cie_or_fde_view R.position R.Offset.number))
        (entry_read (section_in S.view at.now)) input.old result input.new }
    ensures same_section_and_bases { IfOk result (λ found. IfSome found
        (IsEntryOf S.view R.position at.now.section at.now.bases.now)) }
{
    match read_prefix(at, input)? {
        Some(found) => Ok(Some(read_entry_after(at, found)?)),
        None => Ok(None),
    }
}

/// Reads the next entry from where the input is. An entry of length zero is skipped, or ends the
/// section. After an error or the end the input is empty.
#[inline(always)]
fn next_entry<'bases, R: Reader, S: _UnwindSectionPrivate<R> + Copy>(
    at: &InSection<'bases, S>,
    input: &mut R,
) -> Result<Option<CieOrFde<'bases, S, R>>>
    requires { GoesThrough (R.position input.old) (position_in S.view at.now) }
    ensures met { Meets (cie_or_fde_view R.position R.Offset.number) result
        (entries_left (section_in S.view at.now) (R.position input.old).place)
        (entries_left (section_in S.view at.now) (R.position input.new).place) }
    ensures through { GoesThrough (R.position input.new) (position_in S.view at.now) }
    ensures fewer { IfOk result (λ found. IfSome found (λ _.
        remaining (R.position input.new) < remaining (R.position input.old))) }
    ensures same_section_and_bases { IfOk result (λ found. IfSome found
        (IsEntryOf S.view R.position at.now.section at.now.bases.now)) }
{
    while !input.is_empty() {
        match read_entry(at, input) {
            Ok(Some(entry)) => return Ok(Some(entry)),
            Ok(None) => {
                if S::has_zero_terminator() {
                    input.empty();
                    return Ok(None);
                }
            }
            Err(refusal) => {
                input.empty();
                return Err(refusal);
            }
        }
    }
    input.empty();
    Ok(None)
}

/// Reads the FDE at an offset of the section, as far as the offset of its CIE.
///
/// Fails as `prefix_at`, with `NotCiePointer` where the id there is a CIE's, and as
/// `read_partial_fde`.
#[tactic(auto, unfolding(cfi_entry::specs::Entries::partial_fde_at))]
#[inline(always)]
pub(crate) fn partial_fde_at<'bases, R: Reader, S: _UnwindSectionPrivate<R> + Copy>(
    at: &InSection<'bases, S>,
    offset: R::Offset,
) -> Result<PartialFrameDescriptionEntry<'bases, S, R>>
    ensures read { map_ok (partial_view R.position R.Offset.number) result
        ≡ partial_fde_at (section_in S.view at.now) (R.Offset.number offset) }
    ensures same_section_and_bases { IfOk result
        (IsPartialOf at.now.section at.now.bases.now) }
{
    let found = prefix_at(at, offset)?;
    if S::is_cie(found.format, found.id) {
        Err(Error::NotCiePointer(offset.into_u64()))
    } else {
        read_partial_fde(at, found)
    }
}

/// An iterator over the entries of a section, in order from its beginning. After an error or the
/// end it returns nothing more.
#[derive(Debug)]
pub struct CfiEntriesIter<'bases, Section: _UnwindSectionPrivate<R>, R: Reader> {
    pub(crate) section: Section,
    pub(crate) bases: &'bases BaseAddresses,
    pub(crate) input: R,
    ghost through: { GoesThrough (R.position input)
        (Section.view section).position } by { GoesThrough_prop (R.position input)
            (Section.view section).position },
}

impl<Section: _UnwindSectionPrivate<R> + Copy, R: Reader> Clone for CfiEntriesIter<'_, Section, R> {
    ghost is_clone = { λ x y. y ≡ x };

    ghost is_infallible = { λ _. ⊤ };

    #[inline(always)]
    fn clone(&self) -> std::result::Result<Self, AllocError> {
        Ok(CfiEntriesIter {
            section: self.section,
            bases: self.bases,
            input: self.input,
        })
    }
}

impl<Section: _UnwindSectionPrivate<R> + Copy, R: Reader> Copy for CfiEntriesIter<'_, Section, R> {}

impl<'bases, Section: _UnwindSectionPrivate<R> + Copy, R: Reader> CfiEntriesIter<
    'bases,
    Section,
    R,
> {
    ghost use Rattle.cfi_unwind.specs.EntryIterators.{IsAtStart, IsShorter, entries_of};
    ghost use Rattle.cfi_unwind.specs.EntryIterators.{walk_bases, walk_section};

    /// Iterates over all entries of the section.
    #[inline(always)]
    pub(crate) fn new(section: &Section, bases: &'bases BaseAddresses) -> Self
        ensures section { walk_section result ≡ section.now }
        ensures bases { walk_bases result ≡ bases.now }
        ensures all { IsAtStart Section.view R.position result }
    {
        CfiEntriesIter {
            section: *section,
            bases,
            input: *section.section(),
        }
    }

    /// Returns the next entry: a whole CIE, or an FDE as far as the offset of its CIE.
    ///
    /// Fails as the bytes of the entry show, and with `UnsupportedOffset` or `OffsetOutOfBounds`
    /// where an FDE's CIE has no offset in the section. After an error or the end it returns
    /// `None`. Each entry takes at least one byte.
    #[inline(always)]
    pub fn next(&mut self) -> Result<Option<CieOrFde<'bases, Section, R>>>
        ensures met { Meets (cie_or_fde_view R.position R.Offset.number) result
            (entries_of Section.view R.position self.old)
            (entries_of Section.view R.position self.new) }
        ensures section { walk_section self.new ≡ walk_section self.old }
        ensures bases { walk_bases self.new ≡ walk_bases self.old }
        ensures fewer { IfOk result (λ found. IfSome found (λ _.
            IsShorter R.position self.new self.old)) }
        ensures same_section_and_bases { IfOk result (λ found. IfSome found
            (IsEntryOf Section.view R.position (walk_section self.old) (walk_bases self.old))) }
    {
        let at = InSection {
            section: self.section,
            bases: self.bases,
        };
        let mut input = self.input;
        let answer = next_entry(&at, &mut input);
        self.input = input;
        answer
    }
}

impl<'bases, Section: _UnwindSectionPrivate<R> + Copy, R: Reader> Iterator
    for CfiEntriesIter<'bases, Section, R> {
    ghost use Rattle.std.specs.Iterator.{YieldsFirstBy, item_count};
    ghost use Rattle.cfi_parts.specs.InstructionReaders.{items};
    ghost use Rattle.cfi_unwind.specs.EntryIterators.{IsSameWalk, entries_of};
    ghost use Rattle.cfi_unwind.specs.EntryIterators.{walk_bases, walk_section};

    type Item = Result<CieOrFde<'bases, Section, R>>;

    ghost next_gives = { λ s r t.
        YieldsFirstBy (map_ok (cie_or_fde_view R.position R.Offset.number))
        (λ walk. items (entries_of Section.view R.position walk)) s r t
        × IsSameWalk t s
        × IfSome r (λ answer. IfOk answer
        (IsEntryOf Section.view R.position (walk_section s) (walk_bases s))) };

    ghost remaining = { item_count (λ walk. items (entries_of Section.view R.position walk)) };

    #[inline(always)]
    fn next(&mut self) -> Option<Result<CieOrFde<'bases, Section, R>>> {
        CfiEntriesIter::next(self).transpose()
    }
}
