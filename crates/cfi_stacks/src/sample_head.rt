//! The line before the frames of a sample.
ghost use Rattle.std.specs.Prelude.{None};
ghost use Rattle.cfi_text.specs.Texts.{Puts};
ghost use Rattle.cfi_stacks.specs.SampleHeads.{thread_name_text};

use cfi_frames::frame_text::put_name;
use cfi_mapped::Name;
use cfi_perf::Sample;
use cfi_text::text::Text;
use itoa::{Buffer, Integer};

/// Puts the line before a sample's frames, as `perf script` prints it with
/// `-F comm,pid,tid,cpu,time,period,event`: `NAME PID/TID [CPU] SECONDS: PERIOD EVENT:`. The time
/// is in nanoseconds. The processor is left out where the sample doesn't have it. A thread without
/// a name has `:TID`, but for the idle thread, 0, which is `swapper`.
pub(crate) fn put_head(text: &mut Text, name: Option<Name<'_>>, time: u64, sample: &Sample<'_>) {
    put_thread_name(text, sample.tid, name);
    let mut digits = Buffer::new();
    text.put(b" ");
    text.right(5, digits.format(sample.pid).as_bytes());
    text.put(b"/");
    text.left(5, digits.format(sample.tid).as_bytes());
    text.put(b" ");
    if let Some(cpu) = sample.cpu {
        text.put(b"[");
        put_padded(text, 3, cpu);
        text.put(b"] ");
    }
    text.right(5, digits.format(time / 1_000_000_000).as_bytes());
    text.put(b".");
    put_padded(text, 6, time / 1000 % 1_000_000);
    text.put(b": ");
    text.right(10, digits.format(sample.period).as_bytes());
    text.put(b" ");
    text.name(sample.event);
    text.put(b":\n");
}

/// Puts the name of a thread, or what stands in the place of one.
fn put_thread_name(text: &mut Text, tid: u32, name: Option<Name<'_>>) {
    match name {
        Some(name) => put_name(text, name),
        None => put_without_name(text, tid),
    }
}

/// Puts what stands in place of a thread's name that isn't known: `:TID`, but for the idle thread,
/// 0, which is `swapper`.
pub(crate) fn put_without_name(text: &mut Text, tid: u32)
    ensures { Puts (thread_name_text tid None) text.old text.new }
{
    if tid == 0 {
        text.put(b"swapper");
    } else {
        text.put(b":");
        text.number(tid);
    }
}

/// Puts a number, after as many zeros as make it so wide.
fn put_padded<I: Integer>(text: &mut Text, width: usize, number: I) {
    let mut buffer = Buffer::new();
    let digits = buffer.format(number).as_bytes();
    for _ in digits.len()..width {
        text.put(b"0");
    }
    text.put(digits);
}
