//! The stacks of a core file, as they are printed.
//!
//! `core_run` prints them, as a `listing` says: by the parts of the file that are mostly enough
//! (`lacking`), and else by all of it (`known_core`), for which an opener is quiet
//! (`quiet_opener`). `core_files` opens the files of its process, `core_code` has what is mapped,
//! `core_windows` what they have of the memory (`known_memory`). `core_threads` prints the threads
//! that are asked for (`asked_threads`) of the process (`core_process`) by `core_text`, and
//! `core_errors` why there are no more.
//!
//! `thread_walk` walks the stack of a thread in a room, by `thread_frames`, over signal trampolines
//! and from the address 0 too (`signal_steps`, `null_steps`), where no call frames lead there
//! (`missing_frames`). `thread_stack` is the stack as a value, which `thread_text` or
//! `thread_object` put into a text, with the name of a signal (`signals`).
#![tactic(auto)]

mod asked_threads;
mod core_code;
mod core_errors;
pub mod core_files;
pub mod core_process;
pub mod core_run;
mod core_text;
mod core_threads;
mod core_windows;
mod known_core;
mod known_memory;
mod lacking;
pub mod listing;
mod missing_frames;
pub mod null_steps;
mod quiet_opener;
pub mod signal_steps;
pub mod signals;
pub mod thread_frames;
mod thread_object;
pub mod thread_stack;
mod thread_text;
mod thread_walk;

pub use core_run::print_core;
pub use listing::ThreadListing;
