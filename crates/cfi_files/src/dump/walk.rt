//! What a walk over the entries of a section makes their lines and rows in.

use cfi_row_text::plain_rows::PlainRows;
use cfi_text::text::Text;
use gimli_cfi::UnwindContext;

/// What a walk over the entries of a section makes their lines and rows in.
#[derive(Drop)]
pub(crate) struct Walk {
    /// The lines that aren't written yet.
    pub(crate) text: Text,
    /// The rules of the last rows.
    pub(crate) kept: PlainRows,
    /// Where the rows of an FDE are made.
    pub(crate) context: UnwindContext<usize>,
}
