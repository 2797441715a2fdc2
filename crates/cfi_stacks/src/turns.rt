//! One more record, while the samples of a profile are followed.
ghost use Rattle.std.specs.Prelude.{◌≡◌, ◌≢◌, ℕ, List, Option, IfOk, false, ◌-◌};
ghost use Rattle.std.specs.Prelude.{option_map};
ghost use Rattle.cfi_perf.specs.Events.{Record as RecordOfProfile, SampleEvent};
ghost use Rattle.cfi_perf.specs.Recordings.{is_sample};
ghost use Rattle.cfi_perf.specs.Samples.{sample_view};
ghost use Rattle.cfi_processes.specs.Replays.{HasOwnModules, replay_files, replay_known};
ghost use Rattle.cfi_stacks.specs.Choices.{choice_view};
ghost use Rattle.cfi_stacks.specs.Turns.{IsKnownAfter, is_not_chosen};
ghost use Rattle.cfi_stacks.specs.ProfileIndexes.{IsReadAt};
ghost use Rattle.cfi_stacks.specs.KnownSamples.{known_in};

use crate::choice::Choice;
use crate::profile_index::ProfileIndex;
use cfi_perf::{Event, PlaceKind, RecordPlace, Sample};
use cfi_processes::Frame;
use cfi_processes::replay::Replay;
use cfi_processes::room::Room;
use cfi_text::reading::InputError;

/// What the records said that were followed, and what samples are walked in.
#[derive(Drop)]
pub(crate) struct Walker<'f, 'run, 'names> {
    pub(crate) replay: Replay<'f, 'run, 'names>,
    pub(crate) room: Room,
    /// The frames of the stack that was walked last.
    pub(crate) frames: Vec<Frame<'run>>,
}

/// Follows the record at a place that is no sample.
pub(crate) fn follow_other<'k>(
    index: &'k ProfileIndex<'_>,
    place: &RecordPlace,
    left: Option<u64>,
    replay: &mut Replay<'_, '_, 'k>,
) -> Result<Option<u64>, InputError>
    requires kind { place.now.kind ≢ PlaceKind.InFile }
    ensures followed { IfOk result (λ more. (more ≡ left) × ((known : Option (List ℕ))
        → (r : RecordOfProfile) × IsReadAt known index.now place.now r
        × (is_sample r.event ≡ false)
        × IsKnownAfter (replay_known replay.old) r.event (known_in replay.old)
        (known_in replay.new))) }
    ensures own { HasOwnModules replay.old → HasOwnModules replay.new }
    ensures files { replay_files replay.new ≡ replay_files replay.old }
{
    let item = index.other_at(place)?;
    if let Event::Sample(_) = item.event {
        return Err(InputError::Unreadable);
    }
    match replay.follow(&item) {
        Ok(()) => Ok(left),
        Err(_) => Err(InputError::OutOfMemory),
    }
}

/// Whether a sample isn't chosen, by the name that its thread has before it.
pub(crate) fn is_left_out(
    choice: &Choice<'_>,
    replay: &Replay<'_, '_, '_>,
    time: u64,
    sample: &Sample<'_>,
) -> bool
    ensures { result ≡ is_not_chosen (choice_view choice.now) (known_in replay.now) time
        (SampleEvent (sample_view sample.now)) }
{
    !choice.chooses(replay.name(sample.tid), time, sample)
}

/// How many more samples may be handed over after one, if there is a limit.
pub(crate) fn one_less(left: Option<u64>) -> Option<u64>
    ensures { result ≡ option_map (λ n. n - 1) left }
{
    match left {
        None => None,
        Some(n) => Some(n.saturating_sub(1)),
    }
}
