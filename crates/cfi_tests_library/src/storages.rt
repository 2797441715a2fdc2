//! Rows over storages that allocate and one that doesn't, and over offsets of four bytes: each
//! succeeds where memory isn't refused. Which row it is, whatever the storage and the past of its
//! context, is proved.
use crate::comparison::expect;
use crate::rows::{Range, Slice, range_of, slice};
use arrayvec::ArrayVec;
use cfi_guide::hexadecimal::THREE_ROWS;
use gimli_cfi::{
    ArrayLike, BaseAddresses, CopyList, DebugFrame, Error, LittleEndian, NarrowSlice, Reader,
    ReaderOffset, Register, RegisterRule, StoreGrowing, StoreOnHeap, UnwindContext,
    UnwindContextStorage, UnwindTable, UnwindTableRow, row_by_scan, scan_for_fde,
};
use std::alloc::Global;
use std::process::Abort;
use std::test::Fail;

/// A storage whose rules are copied into memory of their own.
struct StoreBoxed;

impl<T: ReaderOffset> UnwindContextStorage<T> for StoreBoxed {
    type Rules = Box<ArrayVec<(Register, RegisterRule<T>), 8>>;

    type Stack = Vec<UnwindTableRow<T, Self::Rules>>;

    ghost has_room = { tt };
}

/// A CIE with a rule for register 16, and an FDE that remembers its row, and then has rules for the
/// registers 7 and 6.
const RULES: [u8; 49] = [
    0x10, 0, 0, 0, 0xff, 0xff, 0xff, 0xff, 4, 0, 8, 0, 1, 0x78, 0x10, 0x0c, 7, 8, 0x90, 1, 0x19, 0,
    0, 0, 0, 0, 0, 0, 0, 0x10, 0, 0, 0, 0, 0, 0, 0x20, 0, 0, 0, 0, 0, 0, 0, 0x0a, 0x87, 1, 0x86, 2,
];

/// The register of a pair.
fn register_of(pair: Option<&(Register, RegisterRule<usize>)>) -> Option<u16> {
    match pair {
        Some(pair) => Some(pair.0.0),
        None => None,
    }
}

/// The first four registers of a row, in the order of the iterator.
type Registers = [Option<u16>; 4];

fn registers_of<A: ArrayLike<Item = (Register, RegisterRule<usize>)>>(
    row: &UnwindTableRow<usize, A>,
) -> Registers {
    let mut registers = row.registers();
    let mut found = [None; 4];
    for place in found.iter_mut() {
        *place = register_of(registers.next());
    }
    found
}

/// Whether the copy of a row is equal to it.
fn is_copied<A: CopyList<Item = (Register, RegisterRule<usize>)>>(
    row: &UnwindTableRow<usize, A>,
) -> Result<bool, Error> {
    Ok(row.try_clone()? == *row)
}

/// The registers of a row, and whether its copy is equal to it.
type OfRow = Result<(Registers, Result<bool, Error>), Error>;

fn row_of<R: Reader<Offset = usize>, S: UnwindContextStorage<usize>>(
    section: &DebugFrame<R>,
    context: &mut UnwindContext<usize, S>,
) -> OfRow {
    match row_by_scan(section, &BaseAddresses::default(), context, 0x1000) {
        Ok(row) => Ok((registers_of(row), is_copied(row))),
        Err(refusal) => Err(refusal),
    }
}

/// Where a row ends.
fn end_of<A: ArrayLike<Item = (Register, RegisterRule<usize>)>>(
    row: Option<&UnwindTableRow<usize, A>>,
) -> Option<u64> {
    match row {
        Some(row) => Some(row.end_address()),
        None => None,
    }
}

/// Where the first row of the FDE for 0x1000 ends, and the row that its table leaves after it.
type OfTable = Result<[Option<u64>; 2], Error>;

fn first_row_of<R: Reader<Offset = usize>, S: UnwindContextStorage<usize>>(
    section: &DebugFrame<R>,
    context: &mut UnwindContext<usize, S>,
) -> OfTable {
    let bases = BaseAddresses::default();
    let fde = scan_for_fde(section, &bases, 0x1000)?;
    let mut table = UnwindTable::new(section, &bases, context, &fde)?;
    let first = end_of(table.next_row()?);
    Ok([first, end_of(table.into_current_row())])
}

/// Whether a context's copy is equal to it.
fn is_context_copied<S: UnwindContextStorage<usize>>(
    alloc: Global,
    context: &UnwindContext<usize, S>,
) -> Result<bool, Error> {
    Ok(context.try_clone(alloc)? == *context)
}

/// What a context returns for a row of each section, in turn; and its copy.
type OfContext = (OfRow, OfTable, OfRow, Result<bool, Error>);

fn of_context<R: Reader<Offset = usize>, S: UnwindContextStorage<usize>>(
    alloc: Global,
    rules: R,
    three_rows: R,
    context: &mut UnwindContext<usize, S>,
) -> OfContext {
    let (rules, three_rows) = (DebugFrame::from(rules), DebugFrame::from(three_rows));
    (
        row_of(&rules, context),
        first_row_of(&three_rows, context),
        row_of(&rules, context),
        is_context_copied(alloc, context),
    )
}

/// The same for a fresh context.
fn of_storage<R: Reader<Offset = usize>, S: UnwindContextStorage<usize>>(
    alloc: Global,
    rules: R,
    three_rows: R,
) -> Result<OfContext, Error> {
    let mut context: UnwindContext<usize, S> = UnwindContext::new_in(alloc)?;
    Ok(of_context(alloc, rules, three_rows, &mut context))
}

/// The registers rise, in whichever order the section has them.
const RISING: OfRow = Ok(([Some(6), Some(7), Some(16), None], Ok(true)));

const OF_CONTEXT: Result<OfContext, Error> = Ok((
    RISING,
    Ok([Some(0x1001), Some(0x1001)]),
    RISING,
    Ok(true),
));

/// Checks a fixed storage, a growing one, and one with boxed rules. It is generic over them, since
/// the check takes longer for each call that names one.
fn check_storages<R, F, G, B>(rt: &(impl Abort + AllocGlobal), rules: R, three_rows: R)
where
    R: Reader<Offset = usize>,
    F: UnwindContextStorage<usize>,
    G: UnwindContextStorage<usize>,
    B: UnwindContextStorage<usize>,
{
    let found = [
        of_storage::<R, F>(rt.alloc(), rules, three_rows),
        of_storage::<R, G>(rt.alloc(), rules, three_rows),
        of_storage::<R, B>(rt.alloc(), rules, three_rows),
    ];
    expect(rt, "storages", &found, &[OF_CONTEXT; 3]);
}

#[test]
fn rows_over_each_storage(rt: HostRuntime) {
    check_storages::<Slice, StoreOnHeap, StoreGrowing, StoreBoxed>(
        &rt,
        slice(&RULES),
        slice(&THREE_ROWS),
    );
}

/// The addresses of a row, by a fresh context.
fn range_by<R: Reader, S: UnwindContextStorage<R::Offset>>(
    alloc: Global,
    rules: R,
) -> Result<Range, Error> {
    let mut context: UnwindContext<R::Offset, S> = UnwindContext::new_in(alloc)?;
    let bases = BaseAddresses::default();
    let section = DebugFrame::from(rules);
    range_of(row_by_scan(&section, &bases, &mut context, 0x1000))
}

#[test]
fn a_row_over_offsets_of_four_bytes(rt: HostRuntime) -> Result<(), Fail> {
    let rules = NarrowSlice::new(&RULES, LittleEndian)?;
    let found = range_by::<_, StoreOnHeap>(rt.alloc(), rules);
    expect(&rt, "offsets of four bytes", &found, &Ok((0x1000, 0x1020)));
    Ok(())
}
