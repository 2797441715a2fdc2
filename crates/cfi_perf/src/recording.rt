//! What the records of a profile say of the recording.
ghost use Rattle.std.specs.Prelude.{◌≡◌, map};
ghost use Rattle.cfi_perf.specs.Events.{record_view};
ghost use Rattle.cfi_perf.specs.Recordings.{is_stack_sample, has_samples, has_stacks, is_sample};
ghost use Rattle.cfi_perf.specs.Recordings.{lacks_stacks, lost_in, lost_of};

use crate::record::{Event, Lost, Record};

/// How many records and samples were lost: the sums over the records, and at most 2^64 - 1. Does
/// not allocate.
pub fn lost_in(records: &[Record<'_>]) -> Lost
    ensures { result ≡ lost_in (map record_view records.now) }
{
    let mut found = 0u64;
    let mut samples = 0u64;
    for record in records {
        let lost = lost_of(record);
        found = found.saturating_add(lost.records);
        samples = samples.saturating_add(lost.samples);
    }
    Lost {
        records: found,
        samples,
    }
}

/// What a record says was lost.
fn lost_of(item: &Record<'_>) -> Lost
    ensures { result ≡ lost_of (record_view item.now).event }
{
    match item.event {
        Event::Lost(lost) => lost,
        _ => Lost {
            records: 0,
            samples: 0,
        },
    }
}

/// Whether there are samples, and the event of none of them copies stacks, so that their frames are
/// those of the call chains. Does not allocate.
pub fn lacks_stacks(records: &[Record<'_>]) -> bool
    ensures { result ≡ lacks_stacks (map record_view records.now) }
{
    has_samples(records) && !has_stacks(records)
}

/// Whether there are samples.
fn has_samples(records: &[Record<'_>]) -> bool
    ensures { result ≡ has_samples (map record_view records.now) }
{
    records.iter().any(|record| is_sample(record))
}

/// Whether there are samples whose event copies stacks.
fn has_stacks(records: &[Record<'_>]) -> bool
    ensures { result ≡ has_stacks (map record_view records.now) }
{
    records.iter().any(|record| copies_stack(record))
}

/// Whether a record is a sample.
fn is_sample(item: &Record<'_>) -> bool
    ensures { result ≡ is_sample (record_view item.now).event }
{
    match item.event {
        Event::Sample(_) => true,
        _ => false,
    }
}

/// Whether a record is a sample whose event copies stacks.
fn copies_stack(item: &Record<'_>) -> bool
    ensures { result ≡ is_stack_sample (record_view item.now).event }
{
    match item.event {
        Event::Sample(sample) => sample.copies_stack,
        _ => false,
    }
}
