//! The parts of which the programs make their lines.
//!
//! A `text` is put together part by part and written by `lines`: `addresses`, names as they are
//! printed (`escapes`, of `name_parts`), `register_names`, in a form (`style`). `refusals` are the
//! lines that say why there is no result: of an input that can't be read `input_refusals`, with
//! what errors say in `error_lines` and `error_words`. `reading` and `beginnings` read an input to
//! its end.
#![tactic(auto)]

mod addresses;
pub mod beginnings;
pub mod error_lines;
pub mod error_words;
pub mod escapes;
pub mod input_refusals;
pub mod lines;
pub mod name_parts;
pub mod reading;
pub mod refusals;
pub mod register_names;
pub mod style;
pub mod text;
