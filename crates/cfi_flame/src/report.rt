//! The report of folded stacks: a table of their functions.
use crate::folded::FoldedError;
use crate::functions::Function;
use crate::plain::plain_text;
use crate::ranking::ranked_functions;
use cfi_text::text::Text;
use itoa::Buffer;
use std::alloc::Global;

/// Returns the report of folded stacks: a table of their functions, those with most samples of
/// their own first, and those with as many in the order of their names' bytes.
///
/// Each has its own samples, those of the stacks that end with it, and all, those of the stacks
/// that have it, both also in per cent of all samples, cut to hundredths.
///
/// Fails as `ranked_functions`. Allocates for the stacks, the functions and the table.
pub fn report_of(alloc: Global, text: &[u8]) -> Result<Vec<u8>, FoldedError> {
    let plainer = plain_text(alloc, text)?;
    report_of_plain(alloc, plainer.as_slice())
}

/// Returns the report of the stacks of a plain text.
fn report_of_plain(alloc: Global, text: &[u8]) -> Result<Vec<u8>, FoldedError> {
    let ranking = ranked_functions(alloc, text)?;
    let mut report = Text::new(alloc);
    put_table(&mut report, ranking.all, ranking.functions.as_slice());
    Ok(report.into_bytes()?)
}

/// Writes the table of these functions, where there are so many samples in all.
fn put_table(report: &mut Text, all: u64, rows: &[Function<'_>]) {
    let mut most = 0;
    for row in rows {
        most = row.total.max(most);
    }
    let width = Buffer::new().format(most).len().saturating_add(1).max(12);
    report.right(width, b"self");
    report.put(b"    self%");
    report.right(width, b"total");
    report.put(b"   total%  function\n");
    for row in rows {
        put_count(report, width, all, row.own);
        put_count(report, width, all, row.total);
        report.put(b"  ");
        report.put(row.name);
        report.put(b"\n");
    }
}

/// Writes a number of samples in so many columns, and their share of all in nine.
fn put_count(report: &mut Text, width: usize, all: u64, samples: u64) {
    let hundredths = samples as u128 * 10_000 / all.max(1) as u128;
    let mut digits = Buffer::new();
    report.right(width, digits.format(samples).as_bytes());
    report.right(5, digits.format(hundredths / 100).as_bytes());
    report.put(b".");
    report.number(hundredths / 10 % 10);
    report.number(hundredths % 10);
    report.put(b"%");
}
