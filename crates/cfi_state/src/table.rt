//! The rules, rows and contexts of an unwind table (DWARF 5 section 6.4.1).

pub mod context;
pub mod machine;
pub mod row;
pub mod rules;
