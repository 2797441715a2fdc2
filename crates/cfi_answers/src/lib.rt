//! What gimli_cfi returns, as numbers, for the fuzz target in `fuzz/`, which compares it with what
//! gimli returns; and in `passes` and `compiled` whole passes that count and sum, for timing beside
//! gimli (`docs/BENCHMARK.md`). `cfi_beside_gimli` exports both.
//!
//! Each call goes over a section, or over a header with its section. But for the passes it writes
//! the answers one after the other to `room`, and returns how many numbers they take: where there
//! is less room, the rest is not written. `answers` tells what the numbers are. No call keeps
//! anything for the next one; those with rows make one context, and free it at their end.
#![tactic(auto)]

mod answers;
mod asked;
mod check;
pub mod compiled;
mod dispatch;
mod entries;
mod expression;
mod header;
pub mod passes;
mod rows;
mod storage;
pub mod sums;

pub use asked::Asked;
pub use dispatch::{of_header, of_section};
pub use expression::{AskedFrame, of_expression};
