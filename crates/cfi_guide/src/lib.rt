//! Programs that call `gimli_cfi`: those that CALLING.md shows, a file for each task.
//!
//! They need no crate of the library but `gimli_cfi`, `cfi_compiled` for compiled tables, and
//! `arrayvec` for a storage of one's own. `cfi_tests_step` has their tests. `hexadecimal` has
//! sections as bytes, for these and for other tests.
//! Their clauses cite the words that `gimli_cfi` passes on in its `specs/Words`. `.ci/guide`
//! checks that what CALLING.md shows is here word for word, so it is proved.
#![tactic(auto)]

pub mod all_rows;
pub mod cached_cies;
pub mod compiled_rows;
pub mod expressions;
pub mod hexadecimal;
pub mod instructions;
pub mod one_row;
pub mod own_storage;
