#![tactic(auto)]
//! The call frames of an ELF file: its sections of call frames, each with its address and its
//! bases (`call_frames`), the parts of the file that are read for them (`needed`, `file_parts`,
//! `input`), the addresses that words name in it (`target`, `numbers`), and the names of the
//! registers of its machine (`machine_names`).

pub mod call_frames;
pub mod file_parts;
pub mod input;
pub mod machine_names;
pub mod needed;
pub mod numbers;
pub mod target;

pub use call_frames::{bases_at, debug_frame, eh_frame, given_section};
pub use file_parts::FileParts;
pub use input::{FileInput, read_whole};
pub use machine_names::names_in;
pub use needed::{Needed, read_parts};
pub use numbers::number_in;
pub use target::{names_entry, target_addresses};
