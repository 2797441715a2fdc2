//! The FDEs of a section that contain an address.
ghost use Rattle.std.specs.Prelude.{◌≡◌, Ok, IfOk, map};
ghost use Rattle.std.specs.List.{All};
ghost use Rattle.cfi_read_core.specs.ReaderCalls.{map_ok};
ghost use Rattle.cfi_entry.specs.Entries.{entries};
ghost use Rattle.cfi_entry.specs.Sections.{section_of};
ghost use Rattle.cfi_unwind.specs.CachedCie.{IsCacheOf};
ghost use Rattle.cfi_unwind.specs.WalkViews.{IsPartialOf, partial_view};
ghost use Rattle.cfi_unwind.specs.FdeViews.{HasCieOf, IsFdeOf, fde_view};
ghost use Rattle.cfi_unwind.specs.Scan.{fde_readings, read_fde};
ghost use Rattle.cfi_compiled.specs.CoveringFdes.{covering, outside};

use cfi_parts::pointer::BaseAddresses;
use cfi_read_core::{Error, Reader};
use cfi_unwind::cie_cache::CieCache;
use cfi_unwind::entry::{CieOrFde, FrameDescriptionEntry, PartialFrameDescriptionEntry};
use cfi_unwind::unwind_section::UnwindSection;
use std::alloc::{AllocError, Global};

/// The FDEs before the first error that contain an address, and the error for an address that none
/// of them contains.
#[derive(Drop)]
pub(crate) struct CoveringFdes<R: Reader> {
    pub(crate) fdes: Vec<FrameDescriptionEntry<R>>,
    pub(crate) outside: Error,
}

/// Goes through the entries of a section once.
pub(crate) fn covering_fdes<R: Reader<Offset = usize>, S: UnwindSection<R>>(
    alloc: Global,
    section: &S,
    bases: &BaseAddresses,
) -> Result<CoveringFdes<R>, AllocError>
    ensures fdes { IfOk result (λ found. map (fde_view R.position (λ n. n)) found.fdes.items
        ≡ covering (fde_readings (section_of (S.view section.now) bases.now))) }
    ensures outside { let from = section_of (S.view section.now) bases.now in
        IfOk result (λ found. found.outside ≡ outside (fde_readings from) (entries from).refusal) }
    ensures own { IfOk result (λ found.
        All (IsFdeOf R.position (S.view section.now).position) found.fdes.items) }
    ensures cie { IfOk result (λ found.
        All (HasCieOf R.position (S.view section.now).position) found.fdes.items) }
{
    let mut fdes = Vec::new(alloc);
    let mut cache: CieCache<R> = CieCache::new();
    let mut entries = section.entries(bases);
    loop {
        match entries.next() {
            Ok(Some(CieOrFde::Cie(_))) => {}
            Ok(Some(CieOrFde::Fde(partial))) => match whole(&mut cache, section, bases, &partial) {
                Ok(fde) => {
                    if fde.initial_address() < fde.end_address() {
                        fdes.push(fde)?;
                    }
                }
                Err(outside) => return Ok(CoveringFdes { fdes, outside }),
            },
            Ok(None) => {
                let outside = Error::NoUnwindInfoForAddress;
                return Ok(CoveringFdes { fdes, outside });
            }
            Err(outside) => return Ok(CoveringFdes { fdes, outside }),
        }
    }
}

/// The whole FDE, with the CIE that stands in the section. FDEs in a row mostly point to one CIE,
/// which is then read once.
fn whole<R: Reader, S: UnwindSection<R>>(
    cache: &mut CieCache<R>,
    section: &S,
    bases: &BaseAddresses,
    partial: &PartialFrameDescriptionEntry<'_, S, R>,
) -> Result<FrameDescriptionEntry<R>, Error>
    requires of { IsPartialOf section.now bases.now partial.now }
    requires cache { IsCacheOf R.position R.Offset.number
        (S.view section.now) bases.now cache.old }
    ensures read { map_ok (fde_view R.position R.Offset.number) result
        ≡ read_fde (section_of (S.view section.now) bases.now)
        (partial_view R.position R.Offset.number partial.now) }
    ensures part { IfOk result (IsFdeOf R.position (S.view section.now).position) }
    ensures cie_part { IfOk result (HasCieOf R.position (S.view section.now).position) }
    ensures keeps { IsCacheOf R.position R.Offset.number
        (S.view section.now) bases.now cache.new }
{
    let cie = cache.get(section, bases, partial.cie_offset())?;
    partial.parse(
        |_from: &S, _bases: &BaseAddresses, _offset: S::Offset|
            ensures { result ≡ Ok cie }
        { Ok(cie) },
    )
}
