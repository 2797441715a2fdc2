//! The stack of a thread of a core file as an object of JSON (RFC 8259).
ghost use Rattle.std.specs.Prelude.{option_map};
ghost use Rattle.cfi_cores.specs.CoreThreads.{thread_view};
ghost use Rattle.cfi_mapped.specs.ThreadNames.{name_bytes};
ghost use Rattle.cfi_text.specs.Texts.{Puts};
ghost use Rattle.cfi_core_stacks.specs.ThreadMembers.{fault_members, process_member};
ghost use Rattle.cfi_core_stacks.specs.ThreadMembers.{signal_members, signal_name_member};
ghost use Rattle.cfi_core_stacks.specs.ThreadMembers.{thread_head};
ghost use Rattle.cfi_core_stacks.specs.ThreadOutputs.{stack_view, thread_object};

use crate::signals::signal_name;
use crate::thread_stack::ThreadStack;
use cfi_cores::{CoreThread, Fault};
use cfi_frames::frame_json::{put_frame_objects, put_object_end};
use cfi_frames::frame_style::FrameStyle;
use cfi_mapped::Name;
use cfi_text::escapes::Escaping;
use cfi_text::text::Text;

/// Puts a thread's stack as an object of JSON, in a line: its number, the signal that it got, the
/// name of its process, the frames, without functions if they are `raw`, and the name of the reason
/// why there are no more, if the last one isn't the outermost.
pub(crate) fn put_thread_object(text: &mut Text, raw: bool, stack: &ThreadStack<'_, '_>)
    ensures { Puts (thread_object raw (stack_view stack.now)) text.old text.new }
{
    let style = FrameStyle {
        raw,
        with_address: true,
    };
    put_head(text, stack.thread, stack.process);
    put_frame_objects(text, style, stack.frames);
    put_object_end(text, stack.reason);
}

/// Puts what comes before the frames.
fn put_head(text: &mut Text, thread: &CoreThread<'_>, process: Option<Name<'_>>)
    ensures { Puts (thread_head (thread_view thread.now) (name_bytes process.entry))
        text.old text.new }
{
    text.put(b"{\"tid\":");
    text.json_number(u64::from(thread.tid));
    put_signal(text, thread.signal, thread.fault);
    put_process(text, process);
    text.put(b",\"frames\":[");
}

/// Puts the signal that a thread got, if it got one: its number, its name if it has one, and the
/// fault.
fn put_signal(text: &mut Text, signal: u16, fault: Option<Fault>)
    ensures { Puts (signal_members signal fault) text.old text.new }
{
    if signal != 0 {
        text.put(b",\"signal\":");
        text.json_number(u64::from(signal));
        put_signal_name(text, signal_name(signal));
        put_fault(text, fault);
    }
}

/// Puts the name of a signal, if it has one.
fn put_signal_name(text: &mut Text, name: Option<&str>)
    ensures { Puts (signal_name_member (option_map (λ name. name.now) name.entry))
        text.old text.new }
{
    if let Some(name) = name {
        text.put(b",\"name\":\"");
        text.put(name.as_bytes());
        text.put(b"\"");
    }
}

/// Puts the fault for which a thread got a signal, if it is known: its code and its address.
fn put_fault(text: &mut Text, fault: Option<Fault>)
    ensures { Puts (fault_members fault) text.old text.new }
{
    if let Some(fault) = fault {
        text.put(b",\"code\":");
        text.json_number(u64::from(fault.code));
        text.put(b",\"fault\":\"");
        text.address(fault.address);
        text.put(b"\"");
    }
}

/// Puts the name of a process, if it is known.
fn put_process(text: &mut Text, name: Option<Name<'_>>)
    ensures { Puts (process_member (name_bytes name.entry)) text.old text.new }
{
    if let Some(name) = name {
        text.put(b",\"process\":\"");
        text.escaped(Escaping::Json, name.bytes);
        text.put(b"\"");
    }
}
