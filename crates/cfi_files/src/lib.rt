#![tactic(auto)]
//! The call frames of an ELF file, and the check of the table of its header.
//!
//! What is found is a value, and says by its contract what it is: the bytes of a relocated file
//! (`relocated`), the row of an address (`row`), the verdict on a table and what it comes to
//! (`check`; its line: `verdict_line`), a count of these (`tally`), and why there is none of these
//! (`error`). `run` prints what is asked for of a file (`request`): rows of addresses (`words`,
//! after what was asked: `query`), or of each section (`sections`) its entries or its rows
//! (`listing`, by `dump`) or its compiled table (`compiled`).

pub mod check;
mod compiled;
pub mod dump;
pub mod error;
mod listing;
mod query;
mod relocated;
pub mod request;
pub mod row;
pub mod run;
mod sections;
pub mod tally;
pub mod verdict_line;
mod words;

pub use check::{CheckStyle, Finding, check_file};
pub use error::FileError;
pub use request::{Printed, Request};
pub use run::run_on_file;
pub use tally::{Tally, count_findings, greatest_status, put_tally};
