//! The program `cfi_rows`, over any reader and writer.
//!
//! `arguments` are the words of the process; `words` says which section and addresses they name,
//! with `numbers`; `input` reads the section in hexadecimal. `rows` looks the row up and prints it,
//! `wrong_lines` what is printed where words or input are wrong, and `run` is the whole.
#![tactic(auto)]

mod arguments;
pub mod input;
pub mod numbers;
pub mod rows;
pub mod run;
pub mod words;
mod wrong_lines;
