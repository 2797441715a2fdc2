//! Rows, in a storage of the caller's choice.
ghost use Rattle.std.specs.Prelude.{◌≡◌};
ghost use Rattle.cfi_read_core.specs.CallFrameSections.{IsOf};

use crate::answers::Answers;
use crate::asked::{Asked, size_of};
use crate::entries::whole;
use crate::storage::Small;
use gimli_cfi::{
    BaseAddresses, CieOrFde, EhFrame, EhFrameHdr, FaithfulTable, FrameDescriptionEntry,
    PartialFrameDescriptionEntry, Reader, Result, StoreGrowing, StoreOnHeap, UnwindContext,
    UnwindContextStorage, UnwindSection, UnwindTable, UnwindTableRow, row_by_header, row_by_scan,
};
use std::alloc::Global;

/// What is asked of rows, over a context of any storage.
pub trait RowTask<R: Reader> {
    fn put<S: UnwindContextStorage<R::Offset>>(
        &self,
        context: &mut UnwindContext<R::Offset, S>,
        answers: &mut Answers<'_>,
    );
}

/// The answers of a task, with a context of the storage that is asked for.
pub fn put_task<R: Reader<Offset = usize>, Task: RowTask<R>>(
    alloc: Global,
    asked: &Asked,
    task: &Task,
    answers: &mut Answers<'_>,
) {
    match asked.storage {
        0 => put_in::<R, Task, StoreOnHeap>(alloc, task, answers),
        1 => put_in::<R, Task, StoreGrowing>(alloc, task, answers),
        _ => put_in::<R, Task, Small>(alloc, task, answers),
    }
}

fn put_in<R: Reader, Task: RowTask<R>, S: UnwindContextStorage<R::Offset>>(
    alloc: Global,
    task: &Task,
    answers: &mut Answers<'_>,
) {
    match UnwindContext::<R::Offset, S>::new_in(alloc) {
        Ok(mut context) => task.put(&mut context, answers),
        Err(error) => answers.put_error(error),
    }
}

/// The row of each address, by a source of rows.
#[derive(Drop)]
pub struct RowsAt<'a, Source> {
    pub source: &'a Source,
    pub addresses: &'a [u64],
}

impl<R: Reader, Source: RowSource<R>> RowTask<R> for RowsAt<'_, Source> {
    fn put<S: UnwindContextStorage<R::Offset>>(
        &self,
        context: &mut UnwindContext<R::Offset, S>,
        answers: &mut Answers<'_>,
    ) {
        for address in self.addresses {
            match self.source.row(context, *address) {
                Ok(row) => answers.put_row(row),
                Err(error) => answers.put_error(error),
            }
        }
    }
}

/// What returns the row of an address.
pub trait RowSource<R: Reader> {
    fn row<'ctx, S: UnwindContextStorage<R::Offset>>(
        &self,
        context: &'ctx mut UnwindContext<R::Offset, S>,
        address: u64,
    ) -> Result<&'ctx UnwindTableRow<R::Offset, S::Rules>>;
}

/// A section whose rows are found by a scan.
#[derive(Drop)]
pub struct Scan<'a, Section> {
    pub section: &'a Section,
    pub bases: &'a BaseAddresses,
}

impl<R: Reader, Section: UnwindSection<R>> RowSource<R> for Scan<'_, Section> {
    fn row<'ctx, S: UnwindContextStorage<R::Offset>>(
        &self,
        context: &'ctx mut UnwindContext<R::Offset, S>,
        address: u64,
    ) -> Result<&'ctx UnwindTableRow<R::Offset, S::Rules>> {
        row_by_scan(self.section, self.bases, context, address)
    }
}

/// A header that is parsed for each row.
#[derive(Drop)]
pub struct ByHeader<'a, R> {
    pub header: &'a EhFrameHdr<R>,
    pub asked: &'a Asked,
    pub frame: &'a EhFrame<R>,
    pub bases: &'a BaseAddresses,
}

impl<R: Reader> RowSource<R> for ByHeader<'_, R> {
    fn row<'ctx, S: UnwindContextStorage<R::Offset>>(
        &self,
        context: &'ctx mut UnwindContext<R::Offset, S>,
        address: u64,
    ) -> Result<&'ctx UnwindTableRow<R::Offset, S::Rules>> {
        let size = size_of(self.asked);
        row_by_header(self.header, size, self.frame, self.bases, context, address)
    }
}

impl<R: Reader> RowSource<R> for FaithfulTable<'_, R> {
    fn row<'ctx, S: UnwindContextStorage<R::Offset>>(
        &self,
        context: &'ctx mut UnwindContext<R::Offset, S>,
        address: u64,
    ) -> Result<&'ctx UnwindTableRow<R::Offset, S::Rules>> {
        FaithfulTable::row(self, context, address)
    }
}

/// Each FDE, and its rows by `next_row`, which is called until there are no more, also after
/// errors.
#[derive(Drop)]
pub struct AllRows<'a, Section> {
    pub section: &'a Section,
    pub bases: &'a BaseAddresses,
}

impl<R: Reader, Section: UnwindSection<R>> RowTask<R> for AllRows<'_, Section> {
    fn put<S: UnwindContextStorage<R::Offset>>(
        &self,
        context: &mut UnwindContext<R::Offset, S>,
        answers: &mut Answers<'_>,
    ) {
        put_rows(self.section, self.bases, context, answers);
    }
}

fn put_rows<R: Reader, Section: UnwindSection<R>, S: UnwindContextStorage<R::Offset>>(
    section: &Section,
    bases: &BaseAddresses,
    context: &mut UnwindContext<R::Offset, S>,
    answers: &mut Answers<'_>,
) {
    let mut entries = section.entries(bases);
    for _ in 0..u64::MAX {
        let Ok(Some(entry)) = entries.next() else {
            break;
        };
        if let CieOrFde::Fde(partial) = entry {
            put_fde_and_rows(section, bases, &partial, context, answers);
        }
    }
    answers.put_end();
}

fn put_fde_and_rows<R: Reader, Section: UnwindSection<R>, S: UnwindContextStorage<R::Offset>>(
    section: &Section,
    bases: &BaseAddresses,
    partial: &PartialFrameDescriptionEntry<'_, Section, R>,
    context: &mut UnwindContext<R::Offset, S>,
    answers: &mut Answers<'_>,
)
    requires { partial.now.section ≡ section.now }
{
    if let Ok(fde) = whole(partial) {
        answers.put_fde(&fde);
        put_rows_of(section, bases, &fde, context, answers);
    }
}

fn put_rows_of<'x, R: Reader, Section: UnwindSection<R>, S: UnwindContextStorage<R::Offset>>(
    section: &'x Section,
    bases: &'x BaseAddresses,
    fde: &FrameDescriptionEntry<R>,
    context: &mut UnwindContext<R::Offset, S>,
    answers: &mut Answers<'_>,
)
    requires own { IsOf (R.position fde.now.instructions) (Section.view section.now).position }
    requires cie { IsOf (R.position fde.now.cie.initial_instructions)
        (Section.view section.now).position }
{
    match fde.rows(section, bases, context) {
        Ok(mut table) => put_rows_left(&mut table, answers),
        Err(error) => answers.put_error(error),
    }
}

fn put_rows_left<R: Reader, S: UnwindContextStorage<R::Offset>>(
    table: &mut UnwindTable<'_, '_, R, S>,
    answers: &mut Answers<'_>,
) {
    for _ in 0..u64::MAX {
        match table.next_row() {
            Ok(None) => break,
            Ok(Some(row)) => answers.put_row(row),
            Err(error) => answers.put_error(error),
        }
    }
}
