//! The words of the program `cfi_rows`, and its answer.

pub(crate) mod command_line;
pub mod row_lookup;

pub use command_line::Request;
