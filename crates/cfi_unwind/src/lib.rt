#![tactic(auto)]
//! The entries of call frame sections, the FDE for an address, and the rows of an FDE.
//!
//! `entry` has CIEs, FDEs and the iterator over them, `unwind_section` what a section is asked for,
//! `cie_cache` a cache of the last CIE, `unwind_table` the table of an FDE, which gives its rows,
//! and `fde_rows` an FDE's own calls for them.

pub mod cie_cache;
pub mod entry;
mod fde_rows;
pub mod unwind_section;
pub mod unwind_table;
