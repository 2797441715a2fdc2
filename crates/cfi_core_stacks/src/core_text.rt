//! The stack of a thread, as it is printed.
ghost use Rattle.std.specs.Prelude.{◌≤◌, ℕ, IfOk, List, length, map};
ghost use Rattle.cfi_cores.specs.CoreThreads.{thread_view};
ghost use Rattle.cfi_text.specs.Texts.{Puts};
ghost use Rattle.cfi_text.specs.WriterOutput.{Writes};
ghost use Rattle.cfi_processes.specs.KnownFiles.{known_view};
ghost use Rattle.cfi_mapped.specs.Mappings.{AreMappedInOrder};
ghost use Rattle.cfi_mapped.specs.ThreadNames.{name_bytes};
ghost use Rattle.cfi_frames.specs.Outputs.{IsSaidIn};
ghost use Rattle.cfi_core_stacks.specs.ThreadOutputs.{IsFoundText, IsInFormat};
ghost use Rattle.cfi_core_stacks.specs.ThreadOutputs.{stack_view, thread_object};

use crate::core_process::CoreProcess;
use crate::listing::ThreadListing;
use crate::thread_object::put_thread_object;
use crate::thread_stack::ThreadStack;
use crate::thread_text::put_thread_text;
use cfi_cores::CoreThread;
use cfi_processes::sample_stack::NoFrames;
use cfi_step::{StackFrame, Walk};
use cfi_text::style::Format;
use cfi_text::text::Text;
use std::alloc::Global;
use std::io;
use std::io::{ErrorKind, Write};

/// Prints what was found of a thread's stack: a line with its number, the signal that it got and
/// the name of its process, a line for each frame, the reason why there are no more if the last one
/// isn't the outermost, and an empty line. By the listing it is an object of JSON in a line instead
/// (`thread_object`), and has no functions.
///
/// Fails with the kind `OutOfMemory` where memory for
/// the frames or their text is refused, and then writes nothing. Allocates for both.
pub(crate) fn print_found<W: Write>(
    alloc: Global,
    listing: ThreadListing,
    process: &CoreProcess<'_, '_, '_>,
    thread: &CoreThread<'_>,
    found: Result<Walk, NoFrames>,
    walked: &[StackFrame],
    output: &mut W,
) -> io::Result<()>
    requires order { AreMappedInOrder 0 process.now.code.mappings.now }
    requires count { IfOk found (λ walk. walk.count ≤ length walked.now) }
    ensures { (text : List ℕ)
        × Writes (W.contents output.old) (W.contents output.new) result text
        × IsFoundText listing (map known_view process.now.code.files.now)
        process.now.code.mappings.now (name_bytes process.now.name) (thread_view thread.now)
        found walked.now text }
{
    match process.found_frames(alloc, !listing.raw, found, walked) {
        Ok(frames) => print_stack(
            alloc,
            listing,
            &process.stack(thread, found, frames.as_slice()),
            output,
        ),
        Err(_) => Err(io::Error::from(ErrorKind::OutOfMemory)),
    }
}

/// Prints the stack of a thread. Fails as `print_found`. Allocates for the text.
fn print_stack<W: Write>(
    alloc: Global,
    listing: ThreadListing,
    stack: &ThreadStack<'_, '_>,
    output: &mut W,
) -> io::Result<()>
    ensures { (text : List ℕ)
        × Writes (W.contents output.old) (W.contents output.new) result text
        × IsInFormat listing (stack_view stack.now) text }
{
    let mut text = Text::new(alloc);
    put_stack(&mut text, listing, stack);
    text.write_to(output)
}

/// Puts a stack in the format of the listing.
fn put_stack(text: &mut Text, listing: ThreadListing, stack: &ThreadStack<'_, '_>)
    ensures { IsSaidIn listing.format
        (Puts (thread_object listing.raw (stack_view stack.now)) text.old text.new) }
{
    match listing.format {
        Format::Text => put_thread_text(text, listing.raw, stack),
        Format::Json => put_thread_object(text, listing.raw, stack),
    }
}
