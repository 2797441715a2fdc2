//! What tools run beside gimli: `bench/` times the passes, and `fuzz/` and
//! `tools/compare_with_gimli` compare the answers.
//!
//! Each export only calls `cfi_answers`. None keeps anything for the next one; those with rows make
//! one context, and free it at their end.
#![tactic(auto)]

mod answers;
mod passes;
