//! Unwind contexts, rows and tables, and the row of an address.

pub use crate::by_scan::row_by_scan;
pub use cfi_state::table::context::UnwindContext;
pub use cfi_state::table::row::UnwindTableRow;
pub use cfi_state::table::rules::{CfaRule, RA_SIGN_STATE, RegisterRule, RegisterRuleIter};
pub use cfi_unwind::unwind_table::UnwindTable;
