//! Callers that pass a `get_cie`, one that caches CIEs, to each of the six calls that take one.
//!
//! Compilers write hundreds of FDEs in a row that point to one CIE, and the same FDE is looked up
//! again and again. Each closure here asks a `CieCache`, which keeps the CIE that it read last. The
//! clauses `part` and `cie_part` of an FDE are what its own calls require of it.
ghost use Rattle.std.specs.Prelude.{◌≡◌, IfOk, Ok, Result};
ghost use Rattle.gimli_cfi.specs.Words.{Covers, Error as Refusal, Fde, GetsCie, HasCieOf};
ghost use Rattle.gimli_cfi.specs.Words.{IsRowByScan, IsRowOfFound, chosen_fde, fde_at, fde_by};
ghost use Rattle.gimli_cfi.specs.Words.{eh_frame_view, fde_view, map_ok, partial_bases};
ghost use Rattle.gimli_cfi.specs.Words.{partial_section, partial_view, row_lent, section_of};
ghost use Rattle.gimli_cfi.specs.Words.{IsFdeOf, section_view};

use gimli_cfi::{
    _UnwindSectionPrivate, BaseAddresses, CieCache, EhFrame, EhFrameOffset, EhHdrTable,
    FrameDescriptionEntry, PartialFrameDescriptionEntry, Reader, ReaderOffset, Result,
    UnwindContext, UnwindContextStorage, UnwindOffset, UnwindSection, UnwindTableRow,
};

/// The row of an address in the section, as `row_by_scan` returns it.
pub fn row_with_cached_cies<
    'ctx,
    R: Reader,
    Section: UnwindSection<R>,
    S: UnwindContextStorage<R::Offset>,
>(
    section: &Section,
    bases: &BaseAddresses,
    ctx: &'ctx mut UnwindContext<R::Offset, S>,
    address: u64,
) -> Result<&'ctx UnwindTableRow<R::Offset, S::Rules>>
    ensures row { IsRowByScan S.Rules.limit S.Stack.limit S.Rules.copies_free
        (section_of (Section.view section.now) bases.now) address
        (row_lent R.Offset.number result) }
{
    let mut cache: CieCache<R> = CieCache::new();
    section.unwind_info_for_address(
        bases,
        ctx,
        address,
        |from: &Section, bases: &BaseAddresses, offset: Section::Offset|
            ensures { GetsCie R.position R.Offset.number (Section.view from.now)
                bases.now cache.entry (R.Offset.number (Section.Offset.offset offset))
                result cache.exit }
        { cache.get(from, bases, offset) },
    )
}

/// The row of an address in two steps: the FDE, then its row.
pub fn row_of_found_fde<
    'ctx,
    R: Reader,
    Section: UnwindSection<R>,
    S: UnwindContextStorage<R::Offset>,
>(
    section: &Section,
    bases: &BaseAddresses,
    ctx: &'ctx mut UnwindContext<R::Offset, S>,
    address: u64,
) -> Result<&'ctx UnwindTableRow<R::Offset, S::Rules>>
    ensures row { IsRowByScan S.Rules.limit S.Stack.limit S.Rules.copies_free
        (section_of (Section.view section.now) bases.now) address
        (row_lent R.Offset.number result) }
{
    let fde = fde_with_cached_cies(section, bases, address)?;
    fde.unwind_info_for_address(section, bases, ctx, address)
}

/// The first FDE of the section that contains the address.
pub fn fde_with_cached_cies<R: Reader, S: UnwindSection<R>>(
    section: &S,
    bases: &BaseAddresses,
    address: u64,
) -> Result<FrameDescriptionEntry<R>>
    ensures found { map_ok (fde_view R.position R.Offset.number) result
        ≡ chosen_fde (section_of (S.view section.now) bases.now) address }
    ensures part { IfOk result (IsFdeOf R.position (S.view section.now).position) }
    ensures cie_part { IfOk result (HasCieOf R.position (S.view section.now).position) }
{
    let mut cache: CieCache<R> = CieCache::new();
    section.fde_for_address(
        bases,
        address,
        |from: &S, bases: &BaseAddresses, offset: S::Offset|
            ensures { GetsCie R.position R.Offset.number (S.view from.now)
                bases.now cache.entry (R.Offset.number (S.Offset.offset offset))
                result cache.exit }
        { cache.get(from, bases, offset) },
    )
}

/// The FDE at an offset of the section.
pub fn fde_at_offset<R: Reader, S: UnwindSection<R>>(
    section: &S,
    bases: &BaseAddresses,
    offset: S::Offset,
) -> Result<FrameDescriptionEntry<R>>
    ensures read { map_ok (fde_view R.position R.Offset.number) result
        ≡ fde_at (section_of (S.view section.now) bases.now)
        (R.Offset.number (S.Offset.offset offset)) }
    ensures part { IfOk result (IsFdeOf R.position (S.view section.now).position) }
    ensures cie_part { IfOk result (HasCieOf R.position (S.view section.now).position) }
{
    let mut cache: CieCache<R> = CieCache::new();
    section.fde_from_offset(
        bases,
        offset,
        |from: &S, bases: &BaseAddresses, offset: S::Offset|
            ensures { GetsCie R.position R.Offset.number (S.view from.now)
                bases.now cache.entry (R.Offset.number (S.Offset.offset offset))
                result cache.exit }
        { cache.get(from, bases, offset) },
    )
}

/// The rest of an FDE that was read up to the offset of its CIE.
pub fn whole_fde<R: Reader, S: UnwindSection<R>>(
    partial: &PartialFrameDescriptionEntry<'_, S, R>,
) -> Result<FrameDescriptionEntry<R>>
    ensures read { map_ok (fde_view R.position R.Offset.number) result
        ≡ fde_by (section_of (S.view (partial_section partial.now)) (partial_bases partial.now))
        (Ok (partial_view R.position R.Offset.number partial.now)) }
    ensures part { IfOk result
        (IsFdeOf R.position (S.view (partial_section partial.now)).position) }
    ensures cie_part { IfOk result
        (HasCieOf R.position (S.view (partial_section partial.now)).position) }
{
    let mut cache: CieCache<R> = CieCache::new();
    partial.parse(
        |from: &S, bases: &BaseAddresses, offset: S::Offset|
            ensures { GetsCie R.position R.Offset.number (S.view from.now)
                bases.now cache.entry (R.Offset.number (S.Offset.offset offset))
                result cache.exit }
        { cache.get(from, bases, offset) },
    )
}

/// The FDE of the address, by a header's table.
pub fn fde_by_table_with_cached_cies<R: Reader>(
    table: &EhHdrTable<'_, R>,
    frame: &EhFrame<R>,
    bases: &BaseAddresses,
    address: u64,
) -> Result<FrameDescriptionEntry<R>>
    ensures contains { IfOk result (λ fde.
        Covers (fde_view R.position R.Offset.number fde) address) }
    ensures part { IfOk result
        (IsFdeOf R.position (eh_frame_view R.position frame.now).position) }
    ensures cie_part { IfOk result
        (HasCieOf R.position (eh_frame_view R.position frame.now).position) }
{
    let mut cache: CieCache<R> = CieCache::new();
    table.fde_for_address(
        frame,
        bases,
        address,
        |from: &EhFrame<R>, bases: &BaseAddresses, offset: EhFrameOffset<R::Offset>|
            ensures { GetsCie R.position R.Offset.number (eh_frame_view R.position from.now)
                bases.now cache.entry (R.Offset.number offset.0)
                result cache.exit }
        { cache.get(from, bases, offset) },
    )
}

/// The row of the address by a header's table: that of some FDE, or an error.
pub fn row_by_table_with_cached_cies<'ctx, R: Reader, S: UnwindContextStorage<R::Offset>>(
    table: &EhHdrTable<'_, R>,
    frame: &EhFrame<R>,
    bases: &BaseAddresses,
    ctx: &'ctx mut UnwindContext<R::Offset, S>,
    address: u64,
) -> Result<&'ctx UnwindTableRow<R::Offset, S::Rules>>
    ensures row { (found : Result Fde Refusal)
        × IsRowOfFound S.Rules.limit S.Stack.limit S.Rules.copies_free
        (section_view R.position frame.now bases.now) address
        found (row_lent R.Offset.number result) }
{
    let mut cache: CieCache<R> = CieCache::new();
    table.unwind_info_for_address(
        frame,
        bases,
        ctx,
        address,
        |from: &EhFrame<R>, bases: &BaseAddresses, offset: EhFrameOffset<R::Offset>|
            ensures { GetsCie R.position R.Offset.number (eh_frame_view R.position from.now)
                bases.now cache.entry (R.Offset.number offset.0)
                result cache.exit }
        { cache.get(from, bases, offset) },
    )
}
