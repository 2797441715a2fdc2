//! How rows, their rules and their expressions are printed, in text and in JSON.
//!
//! A row is a line of text (`row_line`, of parts in `row_text`; with its expressions in words
//! `row_words`) or an object of JSON (`json_row`). `plain_rows` prints rows without expressions one
//! after the other, by the rules that `kept_rules` has of rows before; `register_rules` looks rules
//! up. `expression_words` says expressions in words, by the table in `operations`, which
//! `operation_reader` reads by. `refusal_text` says why there is no row, and `style` is the form of
//! all lines.
#![tactic(auto)]

pub mod expression_words;
mod json_row;
mod kept_rules;
mod operation_reader;
mod operations;
pub mod plain_rows;
pub mod refusal_text;
pub mod register_rules;
pub mod row_line;
pub mod row_text;
pub mod row_words;
pub mod style;
