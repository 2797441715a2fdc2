//! The passes: each goes over a section or a header once, and counts and sums its answers.
//!
//! A driver makes the same passes by gimli, so these take what a user of gimli takes, and no
//! shorter way.
ghost use Rattle.std.specs.Prelude.{◌≡◌, IfOk};
ghost use Rattle.cfi_read_core.specs.CallFrameSections.{IsOf};

use crate::sums::{Done, FAILED, REFUSED, Summed, row_sum};
use gimli_cfi::{
    BaseAddresses, CieOrFde, EhFrame, EhFrameHdr, EhHdrTable, Endianity, FrameDescriptionEntry,
    PartialFrameDescriptionEntry, Reader, Result, StoreOnHeap, TableStarts, UnwindContext,
    UnwindContextStorage, UnwindSection, UnwindTableRow, row_by_scan, row_by_table,
};
use std::alloc::Global;

/// One pass over a section of 8-byte addresses at the address `base`.
pub fn of_section<E: Endianity>(
    alloc: Global,
    measure: u32,
    bytes: &[u8],
    endian: E,
    base: u64,
    addresses: &[u64],
) -> Done {
    let bases = BaseAddresses::default().set_eh_frame(base);
    let frame = EhFrame::new(bytes, endian);
    over_section(alloc, measure, &frame, &bases, addresses).unwrap_or(FAILED)
}

fn over_section<R: Reader<Offset = usize>, S: UnwindSection<R>>(
    alloc: Global,
    measure: u32,
    section: &S,
    bases: &BaseAddresses,
    addresses: &[u64],
) -> Result<Done> {
    match measure {
        0 => entries(section, bases),
        1 => walk(alloc, section, bases, Summed::Fde),
        2 => walk(alloc, section, bases, Summed::Row),
        3 => scans(alloc, section, bases, addresses),
        7 => walk(alloc, section, bases, Summed::Rules),
        _ => Ok(FAILED),
    }
}

/// One pass over a header at the address `header_base`, and over its section.
pub fn of_header<E: Endianity>(
    alloc: Global,
    measure: u32,
    bytes: &[u8],
    endian: E,
    base: u64,
    header: &[u8],
    header_base: u64,
    addresses: &[u64],
) -> Done {
    let bases = BaseAddresses::default()
        .set_eh_frame(base)
        .set_eh_frame_hdr(header_base);
    let frame = EhFrame::new(bytes, endian);
    let header = EhFrameHdr::new(header, endian);
    over_header(alloc, measure, &header, &frame, &bases, addresses).unwrap_or(FAILED)
}

fn over_header<R: Reader<Offset = usize>>(
    alloc: Global,
    measure: u32,
    header: &EhFrameHdr<R>,
    frame: &EhFrame<R>,
    bases: &BaseAddresses,
    addresses: &[u64],
) -> Result<Done> {
    let parsed = header.parse(bases, 8)?;
    let Some(table) = parsed.table() else {
        return Ok(FAILED);
    };
    over_table(alloc, measure, &table, frame, bases, addresses)
}

fn over_table<R: Reader<Offset = usize>>(
    alloc: Global,
    measure: u32,
    table: &EhHdrTable<'_, R>,
    frame: &EhFrame<R>,
    bases: &BaseAddresses,
    addresses: &[u64],
) -> Result<Done> {
    match measure {
        4 => Ok(lookups(table, bases, addresses)),
        5 => rows_by_table(alloc, table, frame, bases, addresses),
        6 => table_rows(table, bases),
        _ => Ok(FAILED),
    }
}

fn entries<R: Reader<Offset = usize>, S: UnwindSection<R>>(
    section: &S,
    bases: &BaseAddresses,
) -> Result<Done> {
    let mut done = Done::none();
    let mut entries = section.entries(bases);
    while let Some(entry) = entries.next()? {
        match entry {
            CieOrFde::Cie(cie) => done.take(cie.offset() as u64),
            CieOrFde::Fde(partial) => done.take(partial.offset() as u64),
        }
    }
    Ok(done)
}

/// Returns the whole FDE, with its CIE in the section.
fn whole<R: Reader, S: UnwindSection<R>>(
    partial: &PartialFrameDescriptionEntry<'_, S, R>,
) -> Result<FrameDescriptionEntry<R>>
    ensures part { IfOk result (λ fde.
        IsOf (R.position fde.instructions) (S.view partial.now.section).position) }
    ensures cie_part { IfOk result (λ fde.
        IsOf (R.position fde.cie.initial_instructions) (S.view partial.now.section).position) }
{
    let reader = partial.offset();
    partial.parse(|from: &S, bases: &BaseAddresses, offset: S::Offset| {
        let _reader = reader;
        from.cie_from_offset(bases, offset)
    })
}

/// The rows of an FDE, each by its sum.
fn walk_fde<
    'x,
    R: Reader<Offset = usize>,
    Section: UnwindSection<R>,
    S: UnwindContextStorage<usize>,
>(
    section: &'x Section,
    bases: &'x BaseAddresses,
    fde: &FrameDescriptionEntry<R>,
    context: &mut UnwindContext<usize, S>,
    summed: Summed,
    done: &mut Done,
)
    requires own { IsOf (R.position fde.now.instructions) (Section.view section.now).position }
    requires cie { IsOf (R.position fde.now.cie.initial_instructions)
        (Section.view section.now).position }
{
    let Ok(mut table) = fde.rows(section, bases, context) else {
        return;
    };
    for _ in 0..u64::MAX {
        match table.next_row() {
            Ok(None) => break,
            Ok(Some(row)) => done.take(summed.of::<S>(row)),
            Err(_) => done.take(REFUSED),
        }
    }
}

/// An FDE that is read with its CIE, or its rows.
fn walk_partial<
    'x,
    R: Reader<Offset = usize>,
    Section: UnwindSection<R>,
    S: UnwindContextStorage<usize>,
>(
    section: &'x Section,
    bases: &'x BaseAddresses,
    partial: &PartialFrameDescriptionEntry<'_, Section, R>,
    context: &mut Option<UnwindContext<usize, S>>,
    summed: Summed,
    done: &mut Done,
) -> Result<()>
    requires { partial.now.section ≡ section.now }
{
    let fde = whole(partial)?;
    match context {
        Some(context) => walk_fde(section, bases, &fde, context, summed, done),
        None => done.take(fde.initial_address() ^ fde.len()),
    }
    Ok(())
}

fn walk<R: Reader<Offset = usize>, S: UnwindSection<R>>(
    alloc: Global,
    section: &S,
    bases: &BaseAddresses,
    summed: Summed,
) -> Result<Done> {
    let mut context = match summed {
        Summed::Fde => None,
        _ => Some(UnwindContext::<usize>::new(alloc)?),
    };
    walk_in::<R, S, StoreOnHeap>(section, bases, &mut context, summed)
}

fn walk_in<R: Reader<Offset = usize>, Section: UnwindSection<R>, S: UnwindContextStorage<usize>>(
    section: &Section,
    bases: &BaseAddresses,
    context: &mut Option<UnwindContext<usize, S>>,
    summed: Summed,
) -> Result<Done> {
    let mut done = Done::none();
    let mut entries = section.entries(bases);
    for _ in 0..u64::MAX {
        let Some(entry) = entries.next()? else {
            break;
        };
        if let CieOrFde::Fde(partial) = entry {
            walk_partial(section, bases, &partial, context, summed, &mut done)?;
        }
    }
    Ok(done)
}

fn scans<R: Reader<Offset = usize>, S: UnwindSection<R>>(
    alloc: Global,
    section: &S,
    bases: &BaseAddresses,
    addresses: &[u64],
) -> Result<Done> {
    let mut context = UnwindContext::<usize>::new(alloc)?;
    Ok(scans_in(section, bases, &mut context, addresses))
}

fn scans_in<R: Reader<Offset = usize>, Section: UnwindSection<R>, S: UnwindContextStorage<usize>>(
    section: &Section,
    bases: &BaseAddresses,
    context: &mut UnwindContext<usize, S>,
    addresses: &[u64],
) -> Done {
    let mut done = Done::none();
    for address in addresses {
        match row_by_scan(section, bases, context, *address) {
            Ok(row) => done.take(row_sum::<S>(row)),
            Err(_) => done.take(!*address),
        }
    }
    done
}

fn lookups<R: Reader>(table: &EhHdrTable<'_, R>, bases: &BaseAddresses, addresses: &[u64]) -> Done {
    let mut done = Done::none();
    for address in addresses {
        match table.lookup(*address, bases) {
            Ok(pointer) => done.take(pointer.pointer()),
            Err(_) => done.take(!*address),
        }
    }
    done
}

fn rows_by_table<R: Reader<Offset = usize>>(
    alloc: Global,
    table: &EhHdrTable<'_, R>,
    frame: &EhFrame<R>,
    bases: &BaseAddresses,
    addresses: &[u64],
) -> Result<Done> {
    let mut context = UnwindContext::<usize>::new(alloc)?;
    rows_in(table, frame, bases, &mut context, addresses)
}

fn rows_in<R: Reader<Offset = usize>, S: UnwindContextStorage<usize>>(
    table: &EhHdrTable<'_, R>,
    frame: &EhFrame<R>,
    bases: &BaseAddresses,
    context: &mut UnwindContext<usize, S>,
    addresses: &[u64],
) -> Result<Done> {
    let mut starts = TableStarts::new(table, bases)?;
    let mut done = Done::none();
    for address in addresses {
        match row_by_table(table, &mut starts, frame, bases, context, *address) {
            Ok(row) => done.take(row_sum::<S>(row)),
            Err(_) => done.take(!*address),
        }
    }
    Ok(done)
}

fn table_rows<R: Reader>(table: &EhHdrTable<'_, R>, bases: &BaseAddresses) -> Result<Done> {
    let mut done = Done::none();
    let mut rows = table.iter(bases);
    for _ in 0..u64::MAX {
        match rows.next()? {
            None => break,
            Some((start, target)) => done.take(start.pointer() ^ target.pointer()),
        }
    }
    Ok(done)
}
