//! Which answers are asked for, of which section and in which storage.
use crate::answers::Answers;
use crate::asked::{Asked, bases_of, endian_of, size_of, vendor_of};
use crate::rows::{AllRows, ByHeader, RowsAt, Scan, put_task};
use crate::{check, entries, header};
use gimli_cfi::{
    BaseAddresses, DebugFrame, EhFrame, EhFrameHdr, EndianSlice, ParsedEhFrameHdr, Reader,
    UnwindSection,
};
use std::alloc::Global;

/// The answers of a section, and how many numbers they take.
///
/// `asked.what` is 0 for the entries, each FDE with its CIE, 1 for all rows of all FDEs by
/// `next_row`, 2 for the row of each of the addresses by a scan.
pub fn of_section(
    alloc: Global,
    asked: &Asked,
    section: &[u8],
    addresses: &[u64],
    room: &mut [u64],
) -> usize {
    let mut answers = Answers::new(room);
    let reader = EndianSlice::new(section, endian_of(asked));
    in_section(alloc, asked, reader, addresses, &mut answers);
    answers.count()
}

/// The answers of a header, and of its section, and how many numbers they take.
///
/// `asked.what` is 3 for the rows of the table by `next` and `nth`, 4 for the pointer that a lookup
/// of each number returns and its offset, 5 for the row of each number by the header, 6 for
/// `check_table`, 7 for the row of each number by a `FaithfulTable`. For 3 an odd number is a call
/// of `next`, and another one a call of `nth` with half of it.
pub fn of_header(
    alloc: Global,
    asked: &Asked,
    section: &[u8],
    header: &[u8],
    numbers: &[u64],
    room: &mut [u64],
) -> usize {
    let mut answers = Answers::new(room);
    let endian = endian_of(asked);
    let frame = EndianSlice::new(section, endian);
    let header = EndianSlice::new(header, endian);
    in_header(alloc, asked, frame, header, numbers, &mut answers);
    answers.count()
}

fn in_section<R: Reader<Offset = usize>>(
    alloc: Global,
    asked: &Asked,
    reader: R,
    addresses: &[u64],
    answers: &mut Answers<'_>,
) {
    let bases = bases_of(asked);
    if asked.debug_frame {
        let mut frame = DebugFrame::from(reader);
        frame.set_address_size(size_of(asked));
        frame.set_vendor(vendor_of(asked));
        over_section(alloc, asked, &frame, &bases, addresses, answers);
    } else {
        let mut frame = EhFrame::from(reader);
        frame.set_address_size(size_of(asked));
        frame.set_vendor(vendor_of(asked));
        over_section(alloc, asked, &frame, &bases, addresses, answers);
    }
}

fn over_section<R: Reader<Offset = usize>, S: UnwindSection<R>>(
    alloc: Global,
    asked: &Asked,
    section: &S,
    bases: &BaseAddresses,
    addresses: &[u64],
    answers: &mut Answers<'_>,
) {
    match asked.what {
        0 => entries::put_entries(section, bases, answers),
        1 => put_task::<R, _>(alloc, asked, &AllRows { section, bases }, answers),
        _ => {
            let source = &Scan { section, bases };
            put_task::<R, _>(alloc, asked, &RowsAt { source, addresses }, answers);
        }
    }
}

fn in_header<R: Reader<Offset = usize>>(
    alloc: Global,
    asked: &Asked,
    frame: R,
    header: R,
    numbers: &[u64],
    answers: &mut Answers<'_>,
) {
    let bases = bases_of(asked);
    let mut frame = EhFrame::from(frame);
    frame.set_address_size(size_of(asked));
    frame.set_vendor(vendor_of(asked));
    let header = EhFrameHdr::from(header);
    over_header(alloc, asked, &header, &frame, &bases, numbers, answers);
}

fn over_header<R: Reader<Offset = usize>>(
    alloc: Global,
    asked: &Asked,
    header: &EhFrameHdr<R>,
    frame: &EhFrame<R>,
    bases: &BaseAddresses,
    numbers: &[u64],
    answers: &mut Answers<'_>,
) {
    if asked.what == 5 {
        return put_by_header(alloc, asked, header, frame, bases, numbers, answers);
    }
    match header.parse(bases, size_of(asked)) {
        Ok(parsed) => over_parsed(alloc, asked, &parsed, frame, bases, numbers, answers),
        Err(error) => answers.put_error(error),
    }
}

fn put_by_header<R: Reader<Offset = usize>>(
    alloc: Global,
    asked: &Asked,
    header: &EhFrameHdr<R>,
    frame: &EhFrame<R>,
    bases: &BaseAddresses,
    addresses: &[u64],
    answers: &mut Answers<'_>,
) {
    let source = &ByHeader {
        header,
        asked,
        frame,
        bases,
    };
    put_task::<R, _>(alloc, asked, &RowsAt { source, addresses }, answers);
}

fn over_parsed<R: Reader<Offset = usize>>(
    alloc: Global,
    asked: &Asked,
    parsed: &ParsedEhFrameHdr<R>,
    frame: &EhFrame<R>,
    bases: &BaseAddresses,
    numbers: &[u64],
    answers: &mut Answers<'_>,
) {
    answers.put_header(parsed);
    let Some(table) = parsed.table() else {
        return;
    };
    match asked.what {
        3 => header::put_steps(&table, bases, numbers, answers),
        4 => header::put_lookups(&table, bases, numbers, answers),
        6 => check::put_check(&table, frame, bases, answers),
        _ => check::put_rows(alloc, asked, &table, frame, bases, numbers, answers),
    }
}
