//! Values of JSON (RFC 8259) as programs print them, and the proof that their text is read back as
//! the value (`laws`). The objects of stacks are such texts, so that each line of these is read
//! back too. The grammar is that of the library `json`, which only definitions and proofs use.
#![tactic(auto)]

pub mod laws;
pub mod value;
