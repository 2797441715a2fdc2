//! What the functions of folded stacks are: whether of the program, or of the kernel, compiled as
//! the program ran, or inlined.
use crate::folded::{Stack, function_names};
use cfi_text::escapes::SEPARATOR;
use std::alloc::{AllocError, Global};

/// What a function is.
#[derive(Clone, Copy, Debug, PartialEq, Eq)]
pub enum Kind {
    /// None of the others.
    Program,
    /// The kernel's, or of a module of it.
    Kernel,
    /// Compiled as the program ran.
    Compiled,
    /// Inlined in the function before it.
    Inlined,
}

/// What stands behind the name of a function of the kernel. As the other marks it is no byte of a
/// plain text, and is sorted before those.
const KERNEL: u8 = 1;

/// What stands behind the name of a function that was compiled as the program ran.
const COMPILED: u8 = 2;

/// What stands behind the name of an inlined function.
const INLINED: u8 = 3;

/// How names begin by which Linux is entered: on x86-64, on AArch64, in a thread of its own, and
/// where its symbols couldn't be read.
const ENTRIES: [&[u8]; 17] = [
    b"entry_SYSCALL_",
    b"entry_SYSENTER_",
    b"entry_INT80_",
    b"asm_exc_",
    b"asm_sysvec_",
    b"asm_common_interrupt",
    b"asm_int80_emulation",
    b"do_syscall_64",
    b"el0_",
    b"el0t_",
    b"el1_",
    b"el1h_",
    b"ret_from_fork",
    b"secondary_startup",
    b"__primary_switched",
    b"[[kernel.",
    b"[[guest.kernel.",
];

/// How names of functions begin that V8 and Python compile as they run.
const COMPILERS: [&[u8]; 9] = [
    b"JS:",
    b"LazyCompile:",
    b"Function:~",
    b"Function:*",
    b"Script:~",
    b"Eval:~",
    b"RegExp:",
    b"BytecodeHandler:",
    b"py::",
];

/// A stack with marks, and the number of its samples.
#[derive(Drop)]
pub struct MarkedStack {
    /// The names of its functions from the outermost one in, between separators, each with the mark
    /// of its kind behind it.
    frames: Vec<u8>,
    /// How many samples have it.
    count: u64,
}

/// Returns the stacks with a mark behind each name that isn't of the program. Allocates for them.
///
/// A function is what its name ends with, as `stackcollapse-perf.pl` writes it, and that end is
/// left out: `_[k]` of the kernel, `_[j]` compiled as the program ran, `_[i]` inlined. Else it is
/// the kernel's if its name or one further out begins as those by which the kernel is entered, or
/// was compiled if its name begins as those of V8 and Python.
pub fn marked_stacks(alloc: Global, stacks: &[Stack<'_>]) -> Result<Vec<MarkedStack>, AllocError> {
    let mut marked = Vec::new(alloc);
    for stack in stacks {
        let frames = marked_frames(alloc, stack.frames)?;
        marked.push(MarkedStack {
            frames,
            count: stack.count,
        })?;
    }
    Ok(marked)
}

/// Returns the stacks as others are. Allocates for them, but not for their names.
pub fn stacks_of(alloc: Global, marked: &[MarkedStack]) -> Result<Vec<Stack<'_>>, AllocError> {
    let mut stacks = Vec::new(alloc);
    for stack in marked {
        stacks.push(Stack {
            frames: stack.frames.as_slice(),
            count: stack.count,
        })?;
    }
    Ok(stacks)
}

/// Returns the functions of a stack with their marks.
fn marked_frames(alloc: Global, frames: &[u8]) -> Result<Vec<u8>, AllocError> {
    let names = function_names(alloc, frames)?;
    let mut marked = Vec::new(alloc);
    let mut is_kernel = false;
    for k in 0..names.len() {
        if k > 0 {
            marked.push(SEPARATOR)?;
        }
        is_kernel = is_kernel || begins_with(names[k], &ENTRIES);
        push_marked(&mut marked, names[k], is_kernel)?;
    }
    Ok(marked)
}

/// Appends the name of a function and its mark.
fn push_marked(marked: &mut Vec<u8>, name: &[u8], is_kernel: bool) -> Result<(), AllocError> {
    let (bare, kind) = kind_by_end(name);
    marked.extend_from_slice(bare)?;
    match kind {
        Kind::Kernel => marked.push(KERNEL)?,
        Kind::Compiled => marked.push(COMPILED)?,
        Kind::Inlined => marked.push(INLINED)?,
        Kind::Program if is_kernel => marked.push(KERNEL)?,
        Kind::Program if begins_with(name, &COMPILERS) => marked.push(COMPILED)?,
        Kind::Program => {}
    }
    Ok(())
}

/// Returns a name without the end that `stackcollapse-perf.pl` writes, and what that says.
fn kind_by_end(name: &[u8]) -> (&[u8], Kind) {
    match name {
        [bare @ .., b'_', b'[', b'k', b']'] => (bare, Kind::Kernel),
        [bare @ .., b'_', b'[', b'j', b']'] => (bare, Kind::Compiled),
        [bare @ .., b'_', b'[', b'i', b']'] => (bare, Kind::Inlined),
        _ => (name, Kind::Program),
    }
}

/// Returns whether a name begins with one of these.
fn begins_with(name: &[u8], beginnings: &[&[u8]]) -> bool {
    for beginning in beginnings {
        if name.starts_with(*beginning) {
            return true;
        }
    }
    false
}

/// Returns a name without its mark, and what that says.
pub fn unmarked(name: &[u8]) -> (&[u8], Kind) {
    match name {
        [bare @ .., KERNEL] => (bare, Kind::Kernel),
        [bare @ .., COMPILED] => (bare, Kind::Compiled),
        [bare @ .., INLINED] => (bare, Kind::Inlined),
        _ => (name, Kind::Program),
    }
}
