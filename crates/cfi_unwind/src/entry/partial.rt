//! Frame description entries as far as the offset of their CIE.
ghost use Rattle.std.specs.Prelude.{◌≡◌, ⊤};
ghost use Rattle.cfi_read_core.specs.CallFrameSections.{IsOf_prop};
ghost use Rattle.cfi_entry.specs.EntryViews.{IsPrefixOf};

use crate::entry::fde::{FrameDescriptionEntry, read_fde};
use crate::unwind_section::UnwindSection;
use cfi_entry::cie::CommonInformationEntry;
use cfi_entry::in_section::InSection;
use cfi_entry::prefix::EntryPrefix;
use cfi_parts::pointer::BaseAddresses;
use cfi_read_core::section_properties::_UnwindSectionPrivate;
use cfi_read_core::{Format, Reader, Result};
use std::alloc::AllocError;

/// A frame description entry as far as the offset of its CIE, generic over its section, its reader
/// and the reader's offsets.
#[derive(Debug, PartialEq, Eq)]
pub struct PartialFdeFields<'bases, S: _UnwindSectionPrivate<R>, R: Reader, O> {
    pub(crate) section: S,
    pub(crate) bases: &'bases BaseAddresses,
    pub(crate) prefix: EntryPrefix<R, O>,
    pub(crate) cie_offset: O,
    ghost of_section: { IsPrefixOf R.position
        (S.view section).position prefix } by { IsOf_prop (R.position prefix.rest)
            (S.view section).position },
}

impl<S: _UnwindSectionPrivate<R> + Copy, R: Reader, O: Copy> Clone
    for PartialFdeFields<'_, S, R, O> {
    ghost is_clone = { λ x y. y ≡ x };

    ghost is_infallible = { λ _. ⊤ };

    #[inline(always)]
    fn clone(&self) -> std::result::Result<Self, AllocError> {
        Ok(PartialFdeFields {
            section: self.section,
            bases: self.bases,
            prefix: self.prefix,
            cie_offset: self.cie_offset,
        })
    }
}

impl<S: _UnwindSectionPrivate<R> + Copy, R: Reader, O: Copy> Copy
    for PartialFdeFields<'_, S, R, O> {}

/// A frame description entry as far as the offset of its CIE. Its addresses, its augmentation data
/// and its instructions are not read yet, since the CIE says how.
pub type PartialFrameDescriptionEntry<'bases, Section, R> = PartialFdeFields<
    'bases,
    Section,
    R,
    <R as Reader>::Offset,
>;

impl<'bases, Section: _UnwindSectionPrivate<R> + Copy, R: Reader> PartialFrameDescriptionEntry<
    'bases,
    Section,
    R,
> {
    ghost use Rattle.std.specs.Prelude.{IfOk};
    ghost use Rattle.cfi_read_core.specs.ReaderCalls.{map_ok};
    ghost use Rattle.cfi_entry.specs.Sections.{section_of};
    ghost use Rattle.cfi_entry.specs.Fdes.{fde_of};
    ghost use Rattle.cfi_entry.specs.EntryViews.{cie_view};
    ghost use Rattle.cfi_unwind.specs.FdeViews.{IsFdeOf, fde_cie, fde_view};
    ghost use Rattle.cfi_unwind.specs.WalkViews.{partial_prefix, partial_view};

    /// Returns the offset in the section at which the entry begins.
    #[inline(always)]
    pub fn offset(&self) -> R::Offset
        ensures { result ≡ (partial_prefix self.now).offset }
    {
        self.prefix.offset
    }

    /// Returns the value of the entry's length field.
    #[inline(always)]
    pub fn entry_len(&self) -> R::Offset
        ensures { result ≡ (partial_prefix self.now).length }
    {
        self.prefix.length
    }

    /// Returns the format: of 32 bits, where the length field takes four bytes, or of 64 bits,
    /// where it takes twelve.
    #[inline(always)]
    pub fn format(&self) -> Format
        ensures { result ≡ (partial_prefix self.now).format }
    {
        self.prefix.format
    }

    /// Reads the rest of the entry, with its CIE.
    #[inline(always)]
    pub(crate) fn with_cie(
        &self,
        cie: &CommonInformationEntry<R>,
    ) -> Result<FrameDescriptionEntry<R>>
        ensures read { map_ok (fde_view R.position R.Offset.number) result
            ≡ fde_of (section_of (Section.view self.now.section) self.now.bases.now)
            (partial_view R.position R.Offset.number self.now)
            (cie_view R.position R.Offset.number cie.now) }
        ensures part { IfOk result (IsFdeOf R.position (Section.view self.now.section).position) }
        ensures cie { IfOk result (λ fde. fde_cie fde ≡ cie.now) }
    {
        let at = InSection {
            section: self.section,
            bases: self.bases,
        };
        read_fde(&at, &self.prefix, cie)
    }
}

impl<'bases, Section: UnwindSection<R>, R: Reader> PartialFrameDescriptionEntry<
    'bases,
    Section,
    R,
> {
    ghost use Rattle.std.specs.Prelude.{IfOk};
    ghost use Rattle.cfi_entry.specs.Sections.{section_of};
    ghost use Rattle.cfi_unwind.specs.GetCieCalls.{AsksForCie, IsAnswered, ReadsFdeOf};
    ghost use Rattle.cfi_unwind.specs.FdeViews.{IsFdeOf, fde_cie, fde_view};
    ghost use Rattle.cfi_unwind.specs.WalkViews.{partial_bases, partial_cie_offset};
    ghost use Rattle.cfi_unwind.specs.WalkViews.{partial_section, partial_view};

    /// Returns the offset in the section at which the entry's CIE begins.
    #[inline(always)]
    pub fn cie_offset(&self) -> Section::Offset
        ensures { Section.Offset.offset result ≡ partial_cie_offset self.now }
    {
        Section::Offset::from(self.cie_offset)
    }

    /// Reads the rest of the entry, with the CIE that `get_cie` returns for its offset. `get_cie`
    /// is called once.
    ///
    /// Fails with the error of `get_cie`, and as the bytes of the entry show.
    #[inline(always)]
    pub fn parse<F>(&self, mut get_cie: F) -> Result<FrameDescriptionEntry<R>>
    where
        F: FnMut(&Section, &BaseAddresses, Section::Offset) -> Result<CommonInformationEntry<R>>,
        requires { F.IsAlwaysCallable get_cie }
        ensures read { (last : F) × ReadsFdeOf
            (AsksForCie F.FnMut R.position R.Offset.number Section.Offset.offset
            (partial_section self.now) (partial_bases self.now))
            (fde_view R.position R.Offset.number)
            (section_of (Section.view (partial_section self.now)) (partial_bases self.now))
            (partial_view R.position R.Offset.number self.now) get_cie result last }
        ensures cie { IfOk result (λ fde.
            IsAnswered F.FnMut (partial_section self.now) (partial_bases self.now) get_cie
            (fde_cie fde)) }
        ensures part { IfOk result
            (IsFdeOf R.position (Section.view (partial_section self.now)).position) }
    {
        self.parse_with(&mut get_cie)
    }

    /// Reads the rest of the entry, as `parse`, and borrows `get_cie`, so that the caller can use
    /// what it keeps. The contract names the state in which its one call leaves it.
    #[inline(always)]
    pub fn parse_with<F>(&self, get_cie: &mut F) -> Result<FrameDescriptionEntry<R>>
    where
        F: FnMut(&Section, &BaseAddresses, Section::Offset) -> Result<CommonInformationEntry<R>>,
        requires { F.IsAlwaysCallable get_cie.old }
        ensures read { ReadsFdeOf
            (AsksForCie F.FnMut R.position R.Offset.number Section.Offset.offset
            (partial_section self.now) (partial_bases self.now))
            (fde_view R.position R.Offset.number)
            (section_of (Section.view (partial_section self.now)) (partial_bases self.now))
            (partial_view R.position R.Offset.number self.now) get_cie.old result get_cie.new }
        ensures cie { IfOk result (λ fde.
            IsAnswered F.FnMut (partial_section self.now) (partial_bases self.now) get_cie.old
            (fde_cie fde)) }
        ensures part { IfOk result
            (IsFdeOf R.position (Section.view (partial_section self.now)).position) }
    {
        let cie = get_cie(&self.section, self.bases, self.cie_offset())?;
        self.with_cie(&cie)
    }
}
