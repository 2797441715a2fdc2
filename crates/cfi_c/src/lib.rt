//! Rows of addresses, and the frames of stacks, for C programs. `cfi_c.h` says the same in C.
#![tactic(auto)]

ghost use Rattle.std.specs.Prelude.{◌≡◌};

mod cache;
mod cached_step;
mod caches;
mod check;
mod compiled;
mod context;
mod debug_frame;
mod end;
mod first_window;
mod frame;
mod function;
mod held_cache;
mod held_context;
mod held_step;
mod held_table;
mod image;
mod memory;
mod module;
mod packed_caller;
mod packed_registers;
mod packed_step;
mod passed_steps;
mod program_header;
mod refusal;
mod register;
mod rows;
mod section;
mod stack;
mod step;
mod table;
mod unboxed;
mod unwind;
mod unwind_registers;
mod written;

/// The version 0.1.0.
const VERSION: u32 = 100;

/// The version of the library: 10,000 times its first number, 100 times its second, and its third.
#[unsafe(no_mangle)]
pub extern "C" fn cfi_version() -> u32
    ensures { result ≡ 100 }
{
    VERSION
}
