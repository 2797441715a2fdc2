//! Folded stacks: on each line a stack, the names of its functions from the outermost one in,
//! between semicolons, and behind a space the number of its samples.
ghost use Rattle.std.specs.Prelude.{◌≡◌, ◌==◌, ◌+◌, ◌^◌, ◌<◌, IfErr, IfOk, Ok, SomeIff, length};
ghost use Rattle.std.specs.Prelude.{map, not, option_map};
ghost use Rattle.std.specs.List.{slice_split, suffix_len};
ghost use Rattle.cfi_flame.specs.FoldedStacks.{IsStackAdded, IsStackError, function_names};
ghost use Rattle.cfi_flame.specs.FoldedStacks.{stack_of, stack_view, stacks_from, stacks_of};
ghost use Rattle.cfi_flame.specs.FoldedStacks.{total_of};

use crate::decimal::decimal_of;
use cfi_text::escapes::SEPARATOR;
use std::alloc::{AllocError, Global};

/// A stack and the number of its samples.
#[derive(Clone, Copy)]
pub struct Stack<'text> {
    /// The names of its functions from the outermost one in, between separators.
    pub frames: &'text [u8],
    /// How many samples have it, or the sum of their periods.
    pub count: u64,
}

/// Why there are no stacks.
#[derive(Clone, Copy)]
pub enum FoldedError {
    /// An allocation failed.
    OutOfMemory,
    /// A line isn't a stack, a space and a number below 2^64. Carries its number, from 1.
    NotFolded(u64),
    /// The stacks have no samples.
    NoSamples,
    /// The stacks have 2^64 samples or more.
    TooManySamples,
}

impl From<AllocError> for FoldedError {
    fn from(_: AllocError) -> FoldedError {
        FoldedError::OutOfMemory
    }
}

/// Returns the stacks of a plain text, in the order of its lines. Empty lines are passed over.
///
/// Fails with `NotFolded` at the first line that isn't a stack, a space and a number, and with
/// `OutOfMemory`. Allocates for the lines and the stacks.
pub fn read_stacks<'text>(
    alloc: Global,
    text: &'text [u8],
) -> Result<Vec<Stack<'text>>, FoldedError>
    ensures read { IfOk result (λ stacks.
        stacks_of text.now ≡ Ok (map stack_view stacks.items)) }
    ensures refused { IfErr result (IsStackError (stacks_of text.now)) }
{
    match lines_of(alloc, text) {
        Ok(lines) => stacks_in(alloc, lines.as_slice()),
        Err(_) => Err(FoldedError::OutOfMemory),
    }
}

/// Returns the lines of the text.
fn lines_of<'text>(alloc: Global, text: &'text [u8]) -> Result<Vec<&'text [u8]>, AllocError>
    ensures { IfOk result (λ lines. map (λ line. line.now) lines.items
        ≡ slice_split (λ c. c == 10) text.now) }
{
    text.split(|byte| *byte == b'\n').collect(alloc)
}

/// Returns the stacks of the lines.
fn stacks_in<'text>(alloc: Global, lines: &[&'text [u8]]) -> Result<Vec<Stack<'text>>, FoldedError>
    ensures read { IfOk result (λ stacks.
        stacks_from 1 (map (λ line. line.now) lines.now) ≡ Ok (map stack_view stacks.items)) }
    ensures refused { IfErr result
        (IsStackError (stacks_from 1 (map (λ line. line.now) lines.now))) }
{
    let mut stacks = Vec::new(alloc);
    for k in 0..lines.len() {
        add_stack(&mut stacks, k as u64 + 1, lines[k])?;
    }
    Ok(stacks)
}

/// Adds the stack of the line of this number, unless it is empty.
fn add_stack<'text>(
    stacks: &mut Vec<Stack<'text>>,
    number: u64,
    line: &'text [u8],
) -> Result<(), FoldedError>
    ensures { IsStackAdded number line.entry.now
        (map stack_view stacks.old.items) (map stack_view stacks.new.items) result }
{
    if line.is_empty() {
        return Ok(());
    }
    match stack_of(line) {
        Some(stack) => match stacks.push(stack) {
            Ok(()) => Ok(()),
            Err(_) => Err(FoldedError::OutOfMemory),
        },
        None => Err(FoldedError::NotFolded(number)),
    }
}

/// Returns the stack of a line, and `None` where it isn't a stack, a space and a number.
fn stack_of(line: &[u8]) -> Option<Stack<'_>>
    ensures { option_map stack_view result ≡ stack_of line.now }
{
    let start = last_part(line, b' ');
    if start < 2 {
        return None;
    }
    match decimal_of(&line[start..]) {
        Some(count) => Some(Stack {
            frames: &line[..start - 1],
            count,
        }),
        None => None,
    }
}

/// Returns where the last part of the bytes begins, behind the last of these separators: 0 where
/// there is none.
pub fn last_part(bytes: &[u8], separator: u8) -> usize
    ensures { result + suffix_len (λ c. not (c == separator)) bytes.now ≡ length bytes.now }
{
    let mut start = bytes.len();
    while start > 0 && bytes[start - 1] != separator {
        start -= 1;
    }
    start
}

/// Returns the names of a stack's functions, from the outermost one in. Allocates for them.
pub fn function_names<'text>(
    alloc: Global,
    frames: &'text [u8],
) -> Result<Vec<&'text [u8]>, AllocError>
    ensures { IfOk result (λ names.
        map (λ name. name.now) names.items ≡ function_names frames.now) }
{
    frames.split(|byte| *byte == SEPARATOR).collect(alloc)
}

/// Returns how many samples the stacks have, `None` where there are 2^64 or more.
pub fn total_of(stacks: &[Stack<'_>]) -> Option<u64>
    ensures { let total = total_of (map stack_view stacks.now) in
        SomeIff result (total < 2 ^ 64) total }
{
    let mut total = 0u64;
    for stack in stacks {
        total = total.checked_add(stack.count)?;
    }
    Some(total)
}
