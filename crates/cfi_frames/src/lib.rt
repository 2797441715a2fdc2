//! The frames of a stack, as they are printed of profiles and of core files.
//!
//! A frame is a line (`frame_text`) or an object of JSON (`frame_json`), by a `frame_style`.
//! `reasons` says why there are no more. `names` are those of processes.
#![tactic(auto)]

pub mod frame_json;
pub mod frame_style;
pub mod frame_text;
pub mod names;
pub mod reasons;
