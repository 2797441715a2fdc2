//! A cache of one CIE, for FDEs that point to the same.
ghost use Rattle.std.specs.Prelude.{◌≡◌, IfOk};
ghost use Rattle.cfi_read_core.specs.ReaderCalls.{map_ok};
ghost use Rattle.cfi_read_core.specs.CallFrameSections.{SectionView};
ghost use Rattle.cfi_parts.specs.declared.pointer.BaseAddresses.{BaseAddresses as Bases};
ghost use Rattle.cfi_entry.specs.Sections.{section_of};
ghost use Rattle.cfi_entry.specs.Entries.{cie_at};
ghost use Rattle.cfi_entry.specs.EntryViews.{IsCieOf, cie_view};
ghost use Rattle.cfi_unwind.specs.CachedCie.{IsCacheOf};
ghost use Rattle.cfi_unwind.specs.FdeViews.{HasCieOf, IsFdeOf, fde_view};
ghost use Rattle.cfi_unwind.specs.Scan.{read_fde};
ghost use Rattle.cfi_unwind.specs.WalkViews.{partial_bases, partial_section, partial_view};

use crate::entry::{CommonInformationEntry, FrameDescriptionEntry, PartialFrameDescriptionEntry};
use crate::unwind_section::UnwindSection;
use cfi_entry::cie::CieFields;
use cfi_parts::pointer::BaseAddresses;
use cfi_read_core::section_properties::UnwindOffset;
use cfi_read_core::{Reader, ReaderOffset, Result};

/// The CIE that was read last, with its offset, generic over its reader and the reader's offsets.
#[derive(Debug, Drop)]
pub struct CieCacheFields<R, O> {
    kept: Option<(u64, CieFields<R, O>)>,
}

/// The CIE that was read last, with its offset in the section.
///
/// FDEs in a row mostly point to one CIE, which is then read once. A cache is for one section with
/// one set of bases.
pub type CieCache<R> = CieCacheFields<R, <R as Reader>::Offset>;

impl<R: Reader> CieCache<R> {
    /// Makes an empty cache, for any section.
    #[inline(always)]
    pub fn new() -> Self
        ensures { (section : SectionView) (bases : Bases) →
            IsCacheOf R.position R.Offset.number section bases result }
    {
        CieCacheFields { kept: None }
    }

    /// Returns the CIE at an offset of the section: the cached one if it was read at this offset,
    /// else it is read and cached.
    ///
    /// The cache must have been used with this section and these bases alone. Fails as
    /// `UnwindSection::cie_from_offset`.
    #[inline(always)]
    pub fn get<S: UnwindSection<R>>(
        &mut self,
        section: &S,
        bases: &BaseAddresses,
        offset: S::Offset,
    ) -> Result<CommonInformationEntry<R>>
        ensures read { IsCacheOf R.position R.Offset.number
            (S.view section.now) bases.now self.old →
            map_ok (cie_view R.position R.Offset.number) result
            ≡ cie_at (section_of (S.view section.now) bases.now)
            (R.Offset.number (S.Offset.offset offset)) }
        ensures part { IsCacheOf R.position R.Offset.number
            (S.view section.now) bases.now self.old →
            IfOk result (IsCieOf R.position (S.view section.now).position) }
        ensures keeps { IsCacheOf R.position R.Offset.number
            (S.view section.now) bases.now self.old →
            IsCacheOf R.position R.Offset.number (S.view section.now) bases.now self.new }
    {
        let place = UnwindOffset::into(offset).into_u64();
        if let Some((known, cie)) = self.kept {
            if known == place {
                return Ok(cie);
            }
        }
        let cie = section.cie_from_offset(bases, offset)?;
        self.kept = Some((place, cie));
        Ok(cie)
    }

    /// Reads the rest of an FDE, with the CIE to which it points, as `get` returns it.
    ///
    /// The cache must have been used with the entry's section and bases alone. Fails as
    /// `PartialFrameDescriptionEntry::parse` with `UnwindSection::cie_from_offset`.
    #[inline(always)]
    pub fn fde<S: UnwindSection<R>>(
        &mut self,
        partial: &PartialFrameDescriptionEntry<'_, S, R>,
    ) -> Result<FrameDescriptionEntry<R>>
        ensures read { let section = S.view (partial_section partial.now) in
            let bases = partial_bases partial.now in
            IsCacheOf R.position R.Offset.number section bases self.old →
            map_ok (fde_view R.position R.Offset.number) result
            ≡ read_fde (section_of section bases)
            (partial_view R.position R.Offset.number partial.now) }
        ensures part { IfOk result
            (IsFdeOf R.position (S.view (partial_section partial.now)).position) }
        ensures cie_part { let section = S.view (partial_section partial.now) in
            IsCacheOf R.position R.Offset.number section (partial_bases partial.now) self.old →
            IfOk result (HasCieOf R.position section.position) }
        ensures keeps { let section = S.view (partial_section partial.now) in
            let bases = partial_bases partial.now in
            IsCacheOf R.position R.Offset.number section bases self.old →
            IsCacheOf R.position R.Offset.number section bases self.new }
    {
        let cie = self.get(&partial.section, partial.bases, partial.cie_offset())?;
        partial.with_cie(&cie)
    }
}
