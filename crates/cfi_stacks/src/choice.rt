//! Which samples of a profile are printed.
ghost use Rattle.std.specs.Prelude.{◌≡◌, ◌==◌, ⊤, None, nat_le, option_map};
ghost use Rattle.std.specs.Str.{bytes_eq};
ghost use Rattle.cfi_mapped.specs.ThreadNames.{name_bytes};
ghost use Rattle.cfi_stacks.specs.Choices.{choice_view, comm_of, holds};
ghost use Rattle.cfi_stacks.specs.SampleHeads.{thread_name_text};

use cfi_mapped::Name;
use cfi_perf::Sample;
use itoa::Buffer;
use std::alloc::AllocError;

/// Which samples of a profile are printed: those for which each part that is given holds.
#[derive(Copy, Debug)]
pub struct Choice<'w> {
    /// The name of the sample's thread, by its bytes; where it has none, `:TID`, or `swapper` for
    /// thread 0, as in the line before the frames.
    pub comm: Option<&'w str>,
    /// The process.
    pub pid: Option<u64>,
    /// The thread.
    pub tid: Option<u64>,
    /// The first time, in nanoseconds: samples at it or after it.
    pub from: Option<u64>,
    /// The last time, in nanoseconds: samples at it or before it.
    pub until: Option<u64>,
    /// The name of the sample's event, by its bytes.
    pub event: Option<&'w str>,
    /// How many samples at most: the first ones of those for which the other parts hold.
    pub limit: Option<u64>,
}

impl Clone for Choice<'_> {
    ghost is_clone = { λ x y. y ≡ x };

    ghost is_infallible = { λ _. ⊤ };

    #[inline(always)]
    fn clone(&self) -> Result<Self, AllocError> {
        Ok(*self)
    }
}

impl Choice<'_> {
    ghost use Rattle.std.specs.Prelude.{◌≡◌};
    ghost use Rattle.cfi_perf.specs.Samples.{sample_view};
    ghost use Rattle.cfi_mapped.specs.ThreadNames.{name_bytes};
    ghost use Rattle.cfi_stacks.specs.Choices.{choice_view, chooses, everything, is_in_time};
    ghost use Rattle.cfi_stacks.specs.Choices.{is_of_thread};

    /// All samples.
    pub fn everything() -> Self
        ensures { choice_view result ≡ everything }
    {
        Choice {
            comm: None,
            pid: None,
            tid: None,
            from: None,
            until: None,
            event: None,
            limit: None,
        }
    }

    /// Returns whether a sample is one of those that are chosen, whatever the limit is. Its thread
    /// has this name, if one is known; the time is in nanoseconds. Does not allocate.
    pub fn chooses(&self, name: Option<Name<'_>>, time: u64, sample: &Sample<'_>) -> bool
        ensures { result ≡ chooses (choice_view self.now) (name_bytes name.entry) time
            (sample_view sample.now) }
    {
        self.is_of_thread(name, sample) && self.is_in_time(time) && is_event(self.event, sample)
    }

    /// Whether a sample is of a thread that is chosen.
    fn is_of_thread(&self, name: Option<Name<'_>>, sample: &Sample<'_>) -> bool
        ensures { result ≡ is_of_thread (choice_view self.now) (name_bytes name.entry)
            (sample_view sample.now) }
    {
        is_number(self.pid, sample.pid)
            && is_number(self.tid, sample.tid)
            && is_comm(self.comm, sample.tid, name)
    }

    /// Whether a time is one that is chosen.
    fn is_in_time(&self, time: u64) -> bool
        ensures { result ≡ is_in_time (choice_view self.now) time }
    {
        is_from(self.from, time) && is_until(self.until, time)
    }
}

/// Whether a number is the one that is asked for, if one is.
fn is_number(asked: Option<u64>, number: u32) -> bool
    ensures { result ≡ holds (λ asked. number == asked) asked }
{
    match asked {
        None => true,
        Some(asked) => u64::from(number) == asked,
    }
}

/// Whether a time is at the first one or after it, if there is one.
fn is_from(asked: Option<u64>, time: u64) -> bool
    ensures { result ≡ holds (λ first. nat_le first time) asked }
{
    match asked {
        None => true,
        Some(first) => first <= time,
    }
}

/// Whether a time is at the last one or before it, if there is one.
fn is_until(asked: Option<u64>, time: u64) -> bool
    ensures { result ≡ holds (λ last. nat_le time last) asked }
{
    match asked {
        None => true,
        Some(last) => time <= last,
    }
}

/// Whether a sample is of the event that is asked for, if one is.
fn is_event(asked: Option<&str>, sample: &Sample<'_>) -> bool
    ensures { result ≡ holds (λ event. bytes_eq sample.now.event.now event)
        (option_map (λ name. name.now) asked.entry) }
{
    match asked {
        None => true,
        Some(event) => sample.event == event.as_bytes(),
    }
}

/// Whether a thread has the name that is asked for, if one is.
fn is_comm(asked: Option<&str>, tid: u32, name: Option<Name<'_>>) -> bool
    ensures { result ≡ holds (λ comm. bytes_eq (comm_of tid (name_bytes name.entry)) comm)
        (option_map (λ name. name.now) asked.entry) }
{
    match asked {
        None => true,
        Some(comm) => is_named(comm.as_bytes(), tid, name),
    }
}

/// Whether this is the name of a thread, or stands in the place of one.
fn is_named(comm: &[u8], tid: u32, name: Option<Name<'_>>) -> bool
    ensures { result ≡ bytes_eq (comm_of tid (name_bytes name.entry)) comm.now }
{
    match name {
        Some(name) => name.bytes == comm,
        None => stands_for(comm, tid),
    }
}

/// Whether this stands in the place of the name of a thread.
fn stands_for(comm: &[u8], tid: u32) -> bool
    ensures { result ≡ bytes_eq (thread_name_text tid None) comm.now }
{
    if tid == 0 {
        return comm == b"swapper".as_slice();
    }
    match comm {
        [b':', digits @ ..] => Buffer::new().format(tid).as_bytes() == digits,
        _ => false,
    }
}
