//! Whether a table is faithful, and rows by one that is.
use crate::answers::Answers;
use crate::asked::Asked;
use crate::rows::{RowsAt, put_task};
use gimli_cfi::{
    BaseAddresses, EhFrame, EhHdrTable, FaithfulTable, Reader, TableStarts, Unfaithful, check_table,
};
use std::alloc::Global;

/// The reason why the table isn't faithful, or an end.
pub fn put_check<R: Reader>(
    table: &EhHdrTable<'_, R>,
    frame: &EhFrame<R>,
    bases: &BaseAddresses,
    answers: &mut Answers<'_>,
) {
    match TableStarts::new(table, bases) {
        Ok(mut starts) => match check_table(table, &mut starts, frame, bases) {
            Ok(()) => answers.put_end(),
            Err(reason) => put_reason(reason, answers),
        },
        Err(error) => put_reason(Unfaithful::Header(error), answers),
    }
}

fn put_reason(reason: Unfaithful, answers: &mut Answers<'_>) {
    match reason {
        Unfaithful::Header(error) => {
            answers.put_reason(0, 0, 0, 0);
            answers.put_error(error);
        }
        Unfaithful::Row { row, refusal } => {
            answers.put_reason(1, row, 0, 0);
            answers.put_error(refusal);
        }
        Unfaithful::Order { row, before, start } => answers.put_reason(2, row, before, start),
        Unfaithful::Entry { offset, refusal } => {
            answers.put_reason(3, offset, 0, 0);
            answers.put_error(refusal);
        }
        Unfaithful::Fde { offset, refusal } => {
            answers.put_reason(4, offset, 0, 0);
            answers.put_error(refusal);
        }
        Unfaithful::NoRow { offset, address } => answers.put_reason(5, offset, address, 0),
        Unfaithful::Overlap { offset, end, next } => answers.put_reason(6, offset, end, next),
        Unfaithful::Count { rows, fdes } => answers.put_reason(7, rows, fdes, 0),
    }
}

/// The row of each address by the table, or the reason why it isn't faithful.
pub fn put_rows<R: Reader<Offset = usize>>(
    alloc: Global,
    asked: &Asked,
    table: &EhHdrTable<'_, R>,
    frame: &EhFrame<R>,
    bases: &BaseAddresses,
    addresses: &[u64],
    answers: &mut Answers<'_>,
) {
    match FaithfulTable::new(table, frame, bases) {
        Ok(checked) => {
            let source = &checked;
            put_task::<R, _>(alloc, asked, &RowsAt { source, addresses }, answers);
        }
        Err(reason) => put_reason(reason, answers),
    }
}
