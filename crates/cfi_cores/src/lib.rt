//! Core files of Linux: their threads, what was mapped, and the memory.
//!
//! A core file is an ELF file of type `ET_CORE`. Its segments of type `PT_NOTE` have the registers
//! of each thread (`NT_PRSTATUS`) and the files that were mapped (`NT_FILE`), those of type
//! `PT_LOAD` the memory (`segments`). `core_file` reads it, or says why it can't (`error`),
//! `contents` its notes, `thread`, `mapped_files`, `process_name`, `fault`, `auxiliary_vector` and
//! `vdso` what these say; `builds` finds images of files in the memory, and their build ids;
//! `registers` finds a thread's registers by DWARF's numbers, and `memory` reads the memory.
//!
//! `core_parts` reads the parts of a core file that its stacks need: headers and notes as far as
//! they reach, and then what `needed_ranges` finds. Of these parts `core_notes` reads the notes,
//! `core_heads` the headers with them, `partial_cores` all but the memory, and `stack_window` a
//! stack.
#![tactic(auto)]

mod auxiliary_vector;
pub mod builds;
mod contents;
pub mod core_file;
mod core_heads;
mod core_notes;
pub mod core_parts;
pub mod error;
pub mod fault;
pub mod mapped_files;
pub mod memory;
mod needed_ranges;
pub mod partial_cores;
mod process_name;
mod registers;
pub mod segments;
pub mod stack_window;
pub mod thread;
pub mod vdso;

pub use core_file::{Core, read_core};
pub use core_parts::read_core_parts;
pub use error::CoreError;
pub use fault::Fault;
pub use mapped_files::CoreMapping;
pub use memory::CoreMemory;
pub use partial_cores::{PartialCore, partial_core};
pub use segments::CoreSegment;
pub use stack_window::stack_at;
pub use thread::CoreThread;
