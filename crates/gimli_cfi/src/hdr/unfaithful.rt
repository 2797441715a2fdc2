//! Why a header's table doesn't list the FDEs of its section faithfully.

use cfi_read_core::Error;

/// A reason why a table isn't faithful to its section. A faithful table has none.
///
/// Rows are counted from 0. Offsets count from the beginning of `.eh_frame`.
#[derive(Clone, Copy, Debug, PartialEq, Eq)]
pub enum Unfaithful {
    /// The header's pointer to `.eh_frame` is indirect (`UnsupportedIndirectPointer`), or its table
    /// has a format that can't be searched (`UnsupportedPointerEncoding`).
    Header(Error),
    /// The start or the target of a row can't be read; `UnsupportedIndirectPointer` if the start is
    /// indirect.
    Row {
        /// The index of the row.
        row: u64,
        /// Why it can't be read.
        refusal: Error,
    },
    /// A row doesn't start above the previous row.
    Order {
        /// The index of the row.
        row: u64,
        /// The start of the previous row.
        before: u64,
        /// Its own start.
        start: u64,
    },
    /// A scan of the section can't read an entry: a CIE whole, an FDE up to its CIE's offset.
    Entry {
        /// The offset of the entry, where the previous one ends.
        offset: u64,
        /// Why it can't be read.
        refusal: Error,
    },
    /// An FDE can't be read, or the CIE that it points to.
    Fde {
        /// The offset of the FDE.
        offset: u64,
        /// Why it can't be read.
        refusal: Error,
    },
    /// An FDE has no row: none has its first address as start and the FDE as target.
    NoRow {
        /// The offset of the FDE.
        offset: u64,
        /// The first address of the FDE.
        address: u64,
    },
    /// An FDE contains the start of the row after its own.
    Overlap {
        /// The offset of the FDE.
        offset: u64,
        /// The end address of the FDE.
        end: u64,
        /// The start of the row after its own.
        next: u64,
    },
    /// The section has fewer FDEs than the table has rows.
    Count {
        /// How many rows the table has.
        rows: u64,
        /// How many FDEs the section has.
        fdes: u64,
    },
}
