//! The stack of a thread of a core file as lines.
use crate::signals::signal_name;
use crate::thread_stack::ThreadStack;
use cfi_cores::{CoreThread, Fault};
use cfi_frames::frame_style::FrameStyle;
use cfi_frames::frame_text::{put_frames, put_name};
use cfi_mapped::Name;
use cfi_text::text::Text;

/// Puts the lines of a stack: one with the thread's number, the signal that it got and the name of
/// its process, one for each frame, without its function if it is `raw`, the reason why there are
/// no more if the last one isn't the outermost, and an empty line.
pub(crate) fn put_thread_text(text: &mut Text, raw: bool, stack: &ThreadStack<'_, '_>) {
    let style = FrameStyle {
        raw,
        with_address: true,
    };
    put_head(text, stack.thread, stack.process);
    put_frames(text, style, stack.frames, stack.reason);
}

/// Puts the line of a thread: its number, the signal that it got, if it got one, and the name of
/// its process, if it is known.
fn put_head(text: &mut Text, thread: &CoreThread<'_>, process: Option<Name<'_>>) {
    text.put(b"thread ");
    text.number(thread.tid);
    if thread.signal != 0 {
        put_signal(text, thread.signal, thread.fault);
    }
    if let Some(name) = process {
        text.put(b" of ");
        put_name(text, name);
    }
    text.put(b"\n");
}

/// Puts the signal that a thread got: its number, its name if it has one, and the fault for which
/// the thread got it, if that is known: its code and its address.
fn put_signal(text: &mut Text, signal: u16, fault: Option<Fault>) {
    text.put(b" signal ");
    text.number(signal);
    if let Some(name) = signal_name(signal) {
        text.put(b" ");
        text.put(name.as_bytes());
    }
    if let Some(fault) = fault {
        text.put(b" code ");
        text.number(fault.code);
        text.put(b" address ");
        text.address(fault.address);
    }
}
