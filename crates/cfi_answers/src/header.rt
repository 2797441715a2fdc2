//! The table of a header.
use crate::answers::Answers;
use gimli_cfi::{BaseAddresses, EhHdrTable, EhHdrTableIter, Reader, ReaderOffset};

/// How many rows remain before each call, and what `next` or `nth` returns.
pub fn put_steps<R: Reader>(
    table: &EhHdrTable<'_, R>,
    bases: &BaseAddresses,
    numbers: &[u64],
    answers: &mut Answers<'_>,
) {
    let mut rows = table.iter(bases);
    for number in numbers {
        answers.put_number(rows.size_hint().0 as u64);
        put_step(&mut rows, *number, answers);
    }
}

fn put_step<R: Reader>(
    rows: &mut EhHdrTableIter<'_, '_, R>,
    number: u64,
    answers: &mut Answers<'_>,
) {
    let found = if number & 1 == 1 {
        EhHdrTableIter::next(rows)
    } else {
        EhHdrTableIter::nth(rows, (number / 2) as usize)
    };
    match found {
        Ok(None) => answers.put_end(),
        Ok(Some((start, target))) => {
            answers.put_pointer(start);
            answers.put_pointer(target);
        }
        Err(error) => answers.put_error(error),
    }
}

/// The pointer that a lookup of each address returns, and its offset in `.eh_frame`.
pub fn put_lookups<R: Reader>(
    table: &EhHdrTable<'_, R>,
    bases: &BaseAddresses,
    addresses: &[u64],
    answers: &mut Answers<'_>,
) {
    for address in addresses {
        match table.lookup(*address, bases) {
            Ok(pointer) => {
                answers.put_pointer(pointer);
                match table.pointer_to_offset(pointer) {
                    Ok(offset) => answers.put_number(offset.0.into_u64()),
                    Err(error) => answers.put_error(error),
                }
            }
            Err(error) => answers.put_error(error),
        }
    }
}
