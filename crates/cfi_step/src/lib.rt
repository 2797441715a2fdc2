//! From a frame to its caller, by a row of an unwind table (DWARF 5 sections 6.4.1 and 6.4.4).
//!
//! `recover` and `step_by_row` take a row, the other steps find it: by an FDE, by a scan of a
//! section, by the table of a header, or by a compiled table; `step_in_function` also returns what
//! the FDE says of the function. `Modules` finds the module of an address, and `unwind` writes the
//! frames of a stack; `unwind_cached` does so with a cache of rows, `write_frames` by any steps.
//! Nothing allocates over a fixed storage.
#![tactic(auto)]

pub mod abi;
pub mod cached_rows;
pub mod cached_walk;
pub mod code_ranges;
pub mod compiled;
mod expression_bytes;
pub mod function;
pub mod function_steps;
pub mod kept_function;
pub mod marks;
pub mod module;
pub mod module_steps;
pub mod modules;
pub mod packed_rows;
pub mod packed_rules;
pub mod process;
pub mod recover;
pub mod row_cache;
pub mod rows;
pub mod section;
pub mod slots;
pub mod step;
pub mod steps;
pub mod walk;

pub use abi::Abi;
pub use cached_rows::{CachedRow, clear_rows};
pub use cached_walk::unwind_cached;
pub use cfi_expression::{AddressSize, Frame, FrameError, Memory, Window};
pub use code_ranges::{HasCode, code_at};
pub use compiled::step_by_compiled;
pub use function::Function;
pub use function_steps::{FunctionStep, function_step, step_in_function};
pub use gimli_cfi::fde_by_header;
pub use kept_function::{keep_found, keep_row};
pub use module::{DebugTable, LoadedModule, fde_in_module};
pub use module_steps::step_in_module;
pub use modules::{Modules, OutOfOrder};
pub use packed_rows::PackedRow;
pub use packed_rules::{PackedRule, SmallRule};
pub use process::{Process, unwind};
pub use row_cache::RowCache;
pub use rows::RowRules;
pub use section::PlacedSection;
pub use step::{Caller, row_address, step_by_fde, step_by_row, step_by_scan};
pub use steps::{Steps, WalkFrame};
pub use walk::{End, StackFrame, Walk, write_frames};
