//! The folded stack of a sample.
ghost use Rattle.std.specs.Prelude.{◌≡◌, IfOk, map, option_map};
ghost use Rattle.cfi_mapped.specs.ThreadNames.{name_bytes};
ghost use Rattle.cfi_processes.specs.Frames.{frame_view};
ghost use Rattle.cfi_processes.specs.Sites.{site_view};
ghost use Rattle.cfi_text.specs.Texts.{Puts};
ghost use Rattle.cfi_stacks.specs.FoldedTexts.{base_name, file_name, folded_text, names_text};
ghost use Rattle.cfi_stacks.specs.FoldedTexts.{site_name, thread_name};
ghost use Rattle.cfi_stacks.specs.SampleOutputs.{stack_view};

use crate::sample_head::put_without_name;
use crate::sample_stack::SampleStack;
use cfi_flame::folded::last_part;
use cfi_mapped::Name;
use cfi_processes::{Frame, Site};
use cfi_text::escapes::Escaping;
use cfi_text::text::Text;
use std::alloc::{AllocError, Global};

/// Returns the folded stack of a sample: the thread, and the functions from the outermost one in,
/// each after a semicolon, those of user space before the kernel's.
///
/// A frame without a function has the name of its file in brackets, without the folders, or
/// `[unknown]`. Names are as they are printed, but a semicolon becomes a colon, and a space in a
/// thread's name an underscore. Fails where memory is refused.
pub(crate) fn folded_stack(
    alloc: Global,
    stack: &SampleStack<'_, '_>,
) -> Result<Vec<u8>, AllocError>
    ensures { IfOk result (λ line. line.items ≡ folded_text (stack_view stack.now)) }
{
    let mut text = Text::new(alloc);
    put_stack(&mut text, stack);
    text.into_bytes()
}

/// Puts the folded stack of a sample.
fn put_stack(text: &mut Text, stack: &SampleStack<'_, '_>)
    ensures { Puts (folded_text (stack_view stack.now)) text.old text.new }
{
    put_thread(text, stack.sample.tid, stack.name);
    put_frames(text, stack.frames);
}

/// Puts the name of a thread. One without has `:TID`, but for the idle thread, 0, which is
/// `swapper`.
fn put_thread(text: &mut Text, tid: u32, name: Option<Name<'_>>)
    ensures { Puts (thread_name tid (name_bytes name.entry)) text.old text.new }
{
    match name {
        Some(name) => text.escaped(Escaping::Folded(b'_'), name.bytes),
        None => put_without_name(text, tid),
    }
}

/// Puts the functions of the frames, of which the first is the innermost.
fn put_frames(text: &mut Text, frames: &[Frame<'_>])
    ensures { Puts (names_text (map frame_view frames.now)) text.old text.new }
{
    for passed in 0..frames.len() {
        text.put(b";");
        put_site(text, frames[frames.len() - 1 - passed].site);
    }
}

/// Puts the function at a site, or the file in brackets.
fn put_site(text: &mut Text, site: Site<'_>)
    ensures { Puts (site_name (site_view site.entry)) text.old text.new }
{
    match site.function {
        Some(place) => text.escaped(Escaping::Folded(b' '), place.name),
        None => put_file(text, site.file),
    }
}

/// Puts the name of a file in brackets, without the folders.
fn put_file(text: &mut Text, file: Option<Name<'_>>)
    ensures { Puts (file_name (option_map (λ name. name.bytes.now) file.entry)) text.old text.new }
{
    match file {
        None => text.put(b"[unknown]"),
        Some(name) => {
            text.put(b"[");
            text.escaped(Escaping::Folded(b' '), base_name(name.bytes));
            text.put(b"]");
        }
    }
}

/// Returns the name of a file without the folders.
fn base_name(path: &[u8]) -> &[u8]
    ensures { result.now ≡ base_name path.now }
{
    &path[last_part(path, b'/')..]
}
