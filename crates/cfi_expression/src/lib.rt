//! DWARF expressions of call frames, and their values in a frame (DWARF 5 section 2.5.1).
//!
//! `evaluate` gives the value of an expression over the registers and the memory of a frame.
//! Nothing allocates.
#![tactic(auto)]

mod arithmetic;
pub mod error;
pub mod evaluation;
pub mod frame;
pub mod memory;
mod operation;
mod parse;
mod perform;
mod stack;

pub use cfi_read_core::address::AddressSize;
pub use error::FrameError;
pub use evaluation::evaluate;
pub use frame::Frame;
pub use memory::{Memory, Window};
