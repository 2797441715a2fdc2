//! The entries, instructions and rows of a section, as lines.

mod addressed_rows;
mod advances;
mod entry_line;
mod fde_rows;
mod instruction_words;
mod lines;
mod print;
mod printed;
mod section;
mod walk;

pub use print::print_source;
pub use printed::{AskedRows, Printed};
