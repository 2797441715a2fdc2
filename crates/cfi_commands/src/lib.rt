//! What the program `cfi` has without stacks.
//!
//! Its words: `arguments` has those of the process, `short_flags` puts flags of one letter by
//! their names, `command_line` passes the commands to clap and returns its matches, with the
//! arguments of `options`; `words` has what they say of files and what is wrong with them, `times`
//! reads times, `billionths` numbers with decimals.
//!
//! What it has of the system (`system`), and that of a runtime (`host`), with its open files
//! (`host_file`): `files` opens those that are named, `profile_file` a profile, and `profile` those
//! that a profile or a core file names, at the paths of `folders`.
//!
//! Which files a check is of: `targets` finds them. What is printed of folded stacks: `flames`
//! prints the flame graph or the report.
#![tactic(auto)]

mod arguments;
pub mod billionths;
mod command_line;
mod files;
pub mod flames;
pub mod folders;
mod host;
mod host_file;
mod options;
pub mod profile;
mod profile_file;
pub mod short_flags;
pub mod system;
pub mod targets;
pub mod times;
pub mod words;

pub use billionths::billionths_of;
pub use command_line::matches_of;
pub use files::open_named;
pub use flames::{Summary, print_folded};
pub use folders::Folders;
pub use host::Host;
pub use profile::ProfileOpener;
pub use profile_file::open_profile;
pub use system::System;
pub use targets::{Target, targets_of};
pub use times::{ANY_TIME, Times, times_of};
pub use words::{FileArguments, UsageError};
