//! A program that calls `cfi_stacks`, which CALLING.md shows.
//!
//! It is a crate of its own, so that what needs `cfi_guide` doesn't wait for `cfi_stacks`.
#![tactic(auto)]

pub mod profile_stacks;
