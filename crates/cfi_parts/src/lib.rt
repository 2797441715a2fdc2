//! Reading of encoded pointers and of call frame instructions.
#![tactic(auto)]

pub mod instruction;
pub mod pointer;
