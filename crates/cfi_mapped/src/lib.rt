//! What is mapped in processes, and the files that it is of.
//!
//! `mappings` and `processes` follow what is mapped where in each process, `threads` the names of
//! threads. A file is `wanted` by its name, build and process, and may be a text; `wanted_files`
//! finds those that a profile's mappings are of, each once in a `file_list`. `read_files` opens
//! them and their debug files by an `opener`: `opened_file` is what was read, of code its
//! `code_parts`, of a build that `file_builds` tells. `text_symbols` reads symbols that are text:
//! `kernel_symbols` and `kernel_names` those of the kernel, `code_map` those of code that a
//! process made. `names` are those of files and functions.
#![tactic(auto)]

pub mod code_map;
pub mod code_parts;
pub mod file_builds;
pub mod file_list;
pub mod kernel_names;
pub mod kernel_symbols;
pub mod mappings;
pub mod names;
pub mod opened_file;
pub mod opener;
pub mod processes;
pub mod read_files;
pub mod text_symbols;
pub mod threads;
pub mod wanted;
pub mod wanted_files;

pub use file_list::FileList;
pub use mappings::{MappedCode, Mappings};
pub use names::Name;
pub use opener::Opener;
pub use processes::Processes;
pub use threads::Threads;
pub use wanted::{LinkFolder, WantedFile};
