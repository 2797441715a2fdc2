//! Folded stacks, the flame graph of them, and a table of their functions.
//!
//! `plain` makes a text plain, and `folded` reads the stacks of its lines. `kinds` marks which
//! functions are the kernel's, and where it is asked, `turned` turns the stacks. `boxes` says which
//! boxes their graph has, `graph` has the file, an SVG, with the style and the script of `page` and
//! the labels of `label`, and `flame` does all of this. `functions` counts the samples of each
//! function, `ranking` puts those with most first, `report` has the table of them, and
//! `function_objects` the objects of JSON. `counts` makes folded stacks: it counts samples by their
//! stacks. `decimal` reads numbers.
#![tactic(auto)]

pub mod boxes;
pub mod counts;
pub mod decimal;
pub mod flame;
pub mod folded;
pub mod function_objects;
pub mod functions;
mod graph;
mod kinds;
mod label;
mod page;
pub mod plain;
pub mod ranking;
mod report;
pub mod turned;

pub use counts::StackCounts;
pub use flame::{Drawing, Picture, flame_of, picture_of};
pub use folded::FoldedError;
pub use plain::plain_text;
pub use ranking::{Ranking, ranked_functions};
pub use report::report_of;
