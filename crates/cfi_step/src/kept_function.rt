//! The row of an address with what its FDE says, both of which are kept in a cache.
ghost use Rattle.std.specs.Prelude.{IfOk};
ghost use Rattle.cfi_read_core.specs.Addresses.{IsAddressSize};
ghost use Rattle.cfi_read_core.specs.ReaderCalls.{map_ok};
ghost use Rattle.cfi_entry.specs.Sections.{section_of};
ghost use Rattle.cfi_unwind.specs.FdeViews.{HasCieOf, IsFdeOf, fde_view};
ghost use Rattle.cfi_step.specs.Modules.{address_in_file};
ghost use Rattle.cfi_step.specs.PackedRows.{IsKept, KeepsFound, rows_in};

use crate::function::function_of;
use crate::module::{LoadedModule, fde_in_module};
use crate::row_cache::RowCache;
use crate::section::PlacedSection;
use gimli_cfi::{
    FrameDescriptionEntry, Reader, UnwindContext, UnwindContextStorage, UnwindSection,
};

/// Keeps in the cache, under the number of the file, the row that a module has for an address
/// (`row_address`), with what the FDE says of the function: by the FDE that `fde_in_module` finds,
/// as `step_in_function`. The address size is 1, 2, 4 or 8.
///
/// Keeps nothing if there is no FDE or no row, or if the row can't be packed (`RowCache::keep`).
/// Over a fixed storage it does not allocate.
pub fn keep_row<R: Reader<Offset = usize>, S: UnwindContextStorage<usize>>(
    loaded: &LoadedModule<'_, R>,
    cache: &mut RowCache,
    file: u64,
    ctx: &mut UnwindContext<usize, S>,
    address_size: u8,
    address: u64,
)
    requires { IsAddressSize address_size }
    ensures { IsKept R.position address_size S.Rules.limit S.Stack.limit S.Rules.copies_free
        loaded.now (address_in_file loaded.now.bias address) file
        (rows_in cache.old) (rows_in cache.new) }
{
    let address = loaded.address_in_file(address);
    let found = fde_in_module(loaded, address_size, address);
    let placed = PlacedSection {
        section: &loaded.frame,
        bases: &loaded.bases,
    };
    keep_found(found, &placed, cache, file, ctx, address);
}

/// Keeps the row that the FDE has for the address, if one was found. The FDE and its CIE are of the
/// section.
pub fn keep_found<
    R: Reader<Offset = usize>,
    Section: UnwindSection<R>,
    S: UnwindContextStorage<usize>,
>(
    found: gimli_cfi::Result<FrameDescriptionEntry<R>>,
    placed: &PlacedSection<'_, Section>,
    cache: &mut RowCache,
    file: u64,
    ctx: &mut UnwindContext<usize, S>,
    address: u64,
)
    requires own { IfOk found (IsFdeOf R.position (Section.view placed.now.section.now).position) }
    requires cie { IfOk found (HasCieOf R.position (Section.view placed.now.section.now).position) }
    ensures { KeepsFound S.Rules.limit S.Stack.limit S.Rules.copies_free
        (section_of (Section.view placed.now.section.now) placed.now.bases.now) address
        (map_ok (fde_view R.position (λ n. n)) found) file
        (rows_in cache.old) (rows_in cache.new) }
{
    let Ok(fde) = found else {
        return;
    };
    match fde.unwind_info_for_address(placed.section, placed.bases, ctx, address) {
        Ok(row) => cache.keep(file, address, row, &function_of(&fde)),
        Err(_error) => {}
    }
}
