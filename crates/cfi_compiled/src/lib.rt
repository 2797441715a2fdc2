//! Compiled unwind tables: the rows of a call frame section for all addresses, made once, and then
//! found by a binary search.
//!
//! For every address a table returns what `row_by_scan` returns for its section: all that the row
//! says but its two addresses, or the error. With a row it has what the CIE says of the return.
//! Nothing is read from the section any more.
#![tactic(auto)]

mod builder;
mod compile;
mod compiled_steps;
mod facts;
mod fdes;
mod guesses;
mod hash;
mod paged_steps;
mod pieces;
mod rests;
mod results;
mod row;
mod same;
mod slots;
mod step_list;
mod steps;
mod table;
mod walk;

pub use compiled_steps::{CompiledStep, CompiledSteps};
pub use row::CompiledRow;
pub use table::CompiledTable;
