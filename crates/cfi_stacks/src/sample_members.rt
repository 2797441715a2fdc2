//! What the object of a sample has before its frames (RFC 8259).
ghost use Rattle.std.specs.Prelude.{codes};
ghost use Rattle.std.specs.Fmt.{decimal};
ghost use Rattle.cfi_perf.specs.Samples.{sample_view};
ghost use Rattle.cfi_mapped.specs.ThreadNames.{name_bytes};
ghost use Rattle.cfi_text.specs.Texts.{Puts};
ghost use Rattle.cfi_stacks.specs.SampleMembers.{comm_text, cpu_member, filled, nanoseconds_text};
ghost use Rattle.cfi_stacks.specs.SampleMembers.{number_members, sample_head, time_members};

use crate::sample_head::put_without_name;
use cfi_mapped::Name;
use cfi_perf::Sample;
use cfi_text::escapes::Escaping;
use cfi_text::text::Text;
use itoa::Buffer;

/// Puts what comes before the frames.
pub(crate) fn put_sample_head(
    text: &mut Text,
    name: Option<Name<'_>>,
    time: u64,
    sample: &Sample<'_>,
)
    ensures { Puts (sample_head (name_bytes name.entry) time (sample_view sample.now))
        text.old text.new }
{
    text.put(b"{\"comm\":\"");
    put_comm(text, sample.tid, name);
    put_number_members(text, time, sample);
    text.escaped(Escaping::Json, sample.event);
    text.put(b"\",\"frames\":[");
}

/// Puts the name of a thread, or what stands in the place of one.
fn put_comm(text: &mut Text, tid: u32, name: Option<Name<'_>>)
    ensures { Puts (comm_text tid (name_bytes name.entry)) text.old text.new }
{
    match name {
        Some(name) => text.escaped(Escaping::Json, name.bytes),
        None => put_without_name(text, tid),
    }
}

/// Puts the process, the thread, the processor, the time and the period of a sample.
fn put_number_members(text: &mut Text, time: u64, sample: &Sample<'_>)
    ensures { Puts (number_members time (sample_view sample.now)) text.old text.new }
{
    text.put(b"\",\"pid\":");
    text.json_number(u64::from(sample.pid));
    text.put(b",\"tid\":");
    text.json_number(u64::from(sample.tid));
    put_cpu_member(text, sample.cpu);
    put_time_members(text, time, sample.period);
}

/// Puts the time and the period.
fn put_time_members(text: &mut Text, time: u64, period: u64)
    ensures { Puts (time_members time period) text.old text.new }
{
    text.put(b",\"time\":\"");
    put_nanoseconds(text, time);
    text.put(b"\",\"period\":");
    text.json_number(period);
    text.put(b",\"event\":\"");
}

/// Puts the processor, if it is known.
fn put_cpu_member(text: &mut Text, cpu: Option<u32>)
    ensures { Puts (cpu_member cpu) text.old text.new }
{
    if let Some(cpu) = cpu {
        text.put(b",\"cpu\":");
        text.json_number(u64::from(cpu));
    }
}

/// Puts a time in nanoseconds as seconds, with nine digits after the point.
fn put_nanoseconds(text: &mut Text, time: u64)
    ensures { Puts (nanoseconds_text time) text.old text.new }
{
    put_decimal(text, time / 1_000_000_000);
    text.put(b".");
    put_nine(text, time % 1_000_000_000);
}

/// Puts a number in decimal.
fn put_decimal(text: &mut Text, number: u64)
    ensures { Puts (decimal number) text.old text.new }
{
    text.number(number);
}

/// Puts a number after as many zeros as make it nine digits wide.
fn put_nine(text: &mut Text, number: u64)
    ensures { Puts (filled (codes "000000000") (decimal number)) text.old text.new }
{
    let mut buffer = Buffer::new();
    put_filled(text, b"000000000", buffer.format(number).as_bytes());
}

/// Puts a text after as much of the fill as makes it as long.
fn put_filled(text: &mut Text, fill: &[u8], shown: &[u8])
    ensures { Puts (filled fill.now shown.now) text.old text.new }
{
    text.put(&fill[..fill.len().saturating_sub(shown.len())]);
    text.put(shown);
}
