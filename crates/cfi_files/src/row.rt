//! The row of an address in the sections of call frames of a file.
ghost use Rattle.std.specs.Prelude.{◌≡◌};
ghost use Rattle.cfi_read_core.specs.ReaderCalls.{map_ok};
ghost use Rattle.gimli_cfi.specs.SectionSources.{source_view};
ghost use Rattle.cfi_elf.specs.ElfFiles.{file_view};
ghost use Rattle.cfi_files.specs.FoundSections.{AreSectionsOf, frames_view};
ghost use Rattle.cfi_files.specs.Rows.{IsInDebugFrame, IsInEhFrame, IsOtherwise, IsRowAt};
ghost use Rattle.cfi_files.specs.Rows.{IsScannedOr, row_in, row_of};

use crate::error::FileError;
use cfi_elf::{ElfError, ElfFile};
use cfi_object::call_frames::{debug_frame, eh_frame};
use gimli_cfi::{
    ArrayLike, Error, Register, RegisterRule, SectionSource, UnwindContext, UnwindContextStorage,
    UnwindTableRow,
};

/// The sections of call frames of a file: each may be missing, or have an error in its place.
#[derive(Clone, Copy)]
pub struct FrameSections<'file> {
    /// The section `.eh_frame`.
    pub eh_frame: Option<Result<SectionSource<'file>, ElfError>>,
    /// The section `.debug_frame`.
    pub debug_frame: Option<Result<SectionSource<'file>, ElfError>>,
}

/// A row, borrowed from a context, and the section that it is in.
#[derive(Drop)]
pub struct FoundRow<'file, 'ctx, A: ArrayLike<Item = (Register, RegisterRule<usize>)>> {
    /// The section.
    pub section: SectionSource<'file>,
    /// The row.
    pub row: &'ctx UnwindTableRow<usize, A>,
}

impl<'file> FrameSections<'file> {
    /// Returns the sections of the file. The bytes are borrowed, not copied.
    pub fn of(file: &ElfFile<'file>) -> FrameSections<'file>
        ensures { AreSectionsOf (file_view file.now) result }
    {
        FrameSections {
            eh_frame: eh_frame(file).transpose(),
            debug_frame: debug_frame(file).transpose(),
        }
    }

    /// Returns the row of the address, borrowed from the context: in `.eh_frame`, by the table of
    /// the header where that leads to a row and else by a scan; or in `.debug_frame` where the file
    /// has no `.eh_frame` or no FDE of that has the address.
    ///
    /// Fails with the error in the place of a section, with `NoCallFrames` where the file has
    /// neither, and with `Row` where no section has a row. Allocates as `SectionSource::row`.
    pub fn row<'ctx, S: UnwindContextStorage<usize>>(
        &self,
        context: &'ctx mut UnwindContext<usize, S>,
        address: u64,
    ) -> Result<FoundRow<'file, 'ctx, S::Rules>, FileError>
        ensures { IsRowAt S.Rules.limit S.Stack.limit S.Rules.copies_free
            (frames_view self.now.eh_frame) (frames_view self.now.debug_frame) address
            (map_ok (λ found. row_of (source_view found.section) found.row.now) result) }
    {
        match self.eh_frame {
            None => row_in_debug_frame(self.debug_frame, FileError::NoCallFrames, context, address),
            Some(Ok(frames)) => row_in_eh_frame(frames, self.debug_frame, context, address),
            Some(Err(error)) => Err(FileError::Elf(error)),
        }
    }
}

/// Returns the row in `.eh_frame`, or in `.debug_frame` where no FDE has the address. A row that
/// there is is looked up once more, to be borrowed on the way on which it is returned.
fn row_in_eh_frame<'file, 'ctx, S: UnwindContextStorage<usize>>(
    frames: SectionSource<'file>,
    debug_frame: Option<Result<SectionSource<'file>, ElfError>>,
    context: &'ctx mut UnwindContext<usize, S>,
    address: u64,
) -> Result<FoundRow<'file, 'ctx, S::Rules>, FileError>
    ensures { IsInEhFrame S.Rules.limit S.Stack.limit S.Rules.copies_free
        (source_view frames.entry) (frames_view debug_frame.entry) address
        (map_ok (λ found. row_of (source_view found.section) found.row.now) result) }
{
    if frames.row(context, address).is_ok() {
        return found_in(frames, frames.row(context, address));
    }
    scanned_row(frames, debug_frame, context, address)
}

/// Returns the row in `.eh_frame` by a scan, or in `.debug_frame` where no FDE has the address.
fn scanned_row<'file, 'ctx, S: UnwindContextStorage<usize>>(
    frames: SectionSource<'file>,
    debug_frame: Option<Result<SectionSource<'file>, ElfError>>,
    context: &'ctx mut UnwindContext<usize, S>,
    address: u64,
) -> Result<FoundRow<'file, 'ctx, S::Rules>, FileError>
    ensures { IsScannedOr S.Rules.limit S.Stack.limit S.Rules.copies_free
        (source_view frames.entry) (frames_view debug_frame.entry) address
        (map_ok (λ found. row_of (source_view found.section) found.row.now) result) }
{
    match frames.row_by_scan(context, address).err() {
        None => found_in(frames, frames.row_by_scan(context, address)),
        Some(error) => row_otherwise(debug_frame, error, context, address),
    }
}

/// Returns the row of a section, or why there is none.
fn found_in<'file, 'ctx, A: ArrayLike<Item = (Register, RegisterRule<usize>)>>(
    section: SectionSource<'file>,
    row: Result<&'ctx UnwindTableRow<usize, A>, Error>,
) -> Result<FoundRow<'file, 'ctx, A>, FileError>
    ensures { map_ok (λ found. row_of (source_view found.section) found.row.now) result
        ≡ row_in (source_view section.entry) (map_ok (λ row. row.now) row.entry) }
{
    match row {
        Ok(row) => Ok(FoundRow { section, row }),
        Err(error) => Err(FileError::Row(error)),
    }
}

/// Returns why `.eh_frame` has no row; or the row in `.debug_frame`, where that is because no FDE
/// has the address.
fn row_otherwise<'file, 'ctx, S: UnwindContextStorage<usize>>(
    debug_frame: Option<Result<SectionSource<'file>, ElfError>>,
    error: Error,
    context: &'ctx mut UnwindContext<usize, S>,
    address: u64,
) -> Result<FoundRow<'file, 'ctx, S::Rules>, FileError>
    ensures { IsOtherwise S.Rules.limit S.Stack.limit S.Rules.copies_free
        (frames_view debug_frame.entry) error address
        (map_ok (λ found. row_of (source_view found.section) found.row.now) result) }
{
    if error != Error::NoUnwindInfoForAddress {
        return Err(FileError::Row(error));
    }
    row_in_debug_frame(debug_frame, FileError::Row(error), context, address)
}

/// Returns the row in `.debug_frame` by a scan, or the error in the place of the section; this
/// error where there is no such section.
fn row_in_debug_frame<'file, 'ctx, S: UnwindContextStorage<usize>>(
    debug_frame: Option<Result<SectionSource<'file>, ElfError>>,
    otherwise: FileError,
    context: &'ctx mut UnwindContext<usize, S>,
    address: u64,
) -> Result<FoundRow<'file, 'ctx, S::Rules>, FileError>
    ensures { IsInDebugFrame S.Rules.limit S.Stack.limit S.Rules.copies_free otherwise
        (frames_view debug_frame.entry) address
        (map_ok (λ found. row_of (source_view found.section) found.row.now) result) }
{
    match debug_frame {
        None => Err(otherwise),
        Some(Ok(frames)) => found_in(frames, frames.row_by_scan(context, address)),
        Some(Err(error)) => Err(FileError::Elf(error)),
    }
}
