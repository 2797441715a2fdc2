//! The processes of a profile that `perf record` wrote, and the frames of its samples.
//!
//! `replay` follows what is mapped in each process, and the names of threads, by the records of a
//! profile. `profile_files` has the files with their functions and their code: `objects` and
//! `file_code` make modules of them, `file_functions` finds the names of their functions. `sites`
//! and `kernel_sites` find the place of an address in them, `process_code` has what is mapped in a
//! process, `process_modules` its modules, and `frames` makes frames as values. `registers` finds
//! perf's registers by DWARF's numbers, `stack_walk` writes the frames of a stack over any memory,
//! and `sample_stack` those of a sample. All stacks are walked in a `room`.
#![tactic(auto)]

pub mod file_code;
pub mod file_functions;
pub mod frames;
pub mod kernel_sites;
pub mod objects;
pub mod process_code;
pub mod process_modules;
pub mod profile_files;
pub mod registers;
pub mod replay;
pub mod room;
pub mod sample_stack;
pub mod sites;
pub mod stack_walk;

pub use frames::{Frame, FrameKind};
pub use objects::Object;
pub use process_code::ProcessCode;
pub use registers::SampleMachine;
pub use replay::Replay;
pub use room::Room;
pub use sample_stack::{NoFrames, unwind_sample};
pub use sites::Site;
pub use stack_walk::unwind_from;
