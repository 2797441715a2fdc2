//! The compiled table of a section.
ghost use Rattle.std.specs.Prelude.{◌≡◌, Some, IfOk, IfErr};
ghost use Rattle.cfi_read_core.specs.declared.error.Error.TheVariants.{OutOfMemory};
ghost use Rattle.cfi_entry.specs.Sections.{section_of};
ghost use Rattle.cfi_compiled.specs.CompiledTables.{IsCompiled};

use crate::builder::TableBuilder;
use crate::fdes::covering_fdes;
use crate::pieces::{resolve, spans_of};
use crate::steps::NoMemory;
use crate::table::CompiledTable;
use crate::walk::walk_fdes;
use cfi_parts::pointer::BaseAddresses;
use cfi_read_core::{Error, Reader, Result};
use cfi_state::storage::UnwindContextStorage;
use cfi_state::table::context::UnwindContext;
use cfi_unwind::unwind_section::UnwindSection;
use std::alloc::Global;

impl CompiledTable {
    /// Returns the table of a section, within the limits of `StoreOnHeap`: 192 rules a row and 4
    /// rows (DWARF 5 section 6.4).
    ///
    /// The bases are those of the pointers in the section's entries. FDEs may be in any order, be
    /// empty, overlap, and have errors: an address belongs to the first FDE that contains it, in
    /// the order of the entries, and an error is kept for the addresses for which `row_by_scan`
    /// returns it. Which of `n` FDEs has an address is sorted out in time in proportion to
    /// `n log n`; the instructions of an FDE that earlier ones cut into pieces run once for each
    /// piece, up to its end. Memory is in proportion to the number of FDEs and steps.
    ///
    /// Fails with `OutOfMemory` only where the context or a list of the table was refused memory.
    /// The error of an entry, a CIE or an instruction isn't returned here, but by `row`.
    pub fn new<R: Reader<Offset = usize>, S: UnwindSection<R>>(
        alloc: Global,
        section: &S,
        bases: &BaseAddresses,
    ) -> Result<Self>
        ensures rows { IfOk result (IsCompiled (Some 192) (Some 4)
            (section_of (S.view section.now) bases.now)) }
        ensures err { IfErr result (λ error. error ≡ OutOfMemory) }
    {
        let mut context: UnwindContext<usize> = UnwindContext::new(alloc)?;
        Self::with_context(alloc, section, bases, &mut context)
    }

    /// Returns the table of a section as `new`, within the limits of the context's storage. What
    /// the context held before doesn't matter.
    ///
    /// Fails with `OutOfMemory` only where a list of the table was refused memory or, over a
    /// storage that isn't fixed, an instruction was.
    pub fn with_context<
        R: Reader<Offset = usize>,
        S: UnwindSection<R>,
        C: UnwindContextStorage<usize>,
    >(
        alloc: Global,
        section: &S,
        bases: &BaseAddresses,
        ctx: &mut UnwindContext<usize, C>,
    ) -> Result<Self>
        ensures rows { IfOk result (IsCompiled C.Rules.limit C.Stack.limit
            (section_of (S.view section.now) bases.now)) }
        ensures err { IfErr result (λ error. error ≡ OutOfMemory) }
    {
        match compile(alloc, ctx, section, bases) {
            Ok(table) => Ok(table),
            Err(_) => Err(Error::OutOfMemory),
        }
    }
}

/// The table of a section. Fails where memory is refused.
fn compile<R: Reader<Offset = usize>, S: UnwindSection<R>, C: UnwindContextStorage<usize>>(
    alloc: Global,
    context: &mut UnwindContext<usize, C>,
    section: &S,
    bases: &BaseAddresses,
) -> std::result::Result<CompiledTable, NoMemory>
    ensures { IfOk result (IsCompiled C.Rules.limit C.Stack.limit
        (section_of (S.view section.now) bases.now)) }
{
    let found = covering_fdes(alloc, section, bases)?;
    let outside = found.outside;
    let fdes = found.fdes;
    let spans = spans_of(alloc, fdes.as_slice())?;
    let pieces = resolve(alloc, spans.as_slice())?;
    let mut table = TableBuilder::new(alloc);
    walk_fdes(
        &mut table,
        section,
        bases,
        context,
        fdes.as_slice(),
        pieces.as_slice(),
        outside,
    )?;
    Ok(table.finish()?)
}
