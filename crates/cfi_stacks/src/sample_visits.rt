//! The walk of a profile's samples, which hands the stack of each to a visitor.
ghost use Rattle.std.specs.Prelude.{◌≡◌, map};
ghost use Rattle.cfi_perf.specs.Events.{SampleEvent};
ghost use Rattle.cfi_perf.specs.Samples.{sample_view};
ghost use Rattle.cfi_processes.specs.KnownFiles.{known_view};
ghost use Rattle.cfi_processes.specs.Replays.{AreModulesFor, HasOwnModules, replay_files};
ghost use Rattle.cfi_processes.specs.Replays.{replay_known};
ghost use Rattle.cfi_processes.specs.Rooms.{IsRoomFor};
ghost use Rattle.cfi_stacks.specs.Choices.{choice_view};
ghost use Rattle.cfi_stacks.specs.KnownSamples.{known_in};
ghost use Rattle.cfi_stacks.specs.ProfileIndexes.{HoldsOf, IsIndex};
ghost use Rattle.cfi_stacks.specs.TakenSamples.{taken_of};
ghost use Rattle.cfi_stacks.specs.Turns.{sample_record};
ghost use Rattle.cfi_stacks.specs.Visits.{AreVisited, IsVisited, VisitsRecord, VisitsTurn};

use crate::choice::Choice;
use crate::profile_index::ProfileIndex;
use crate::sample_walk::walk_sample;
use crate::taken_sample::TakenSample;
use crate::turns::{Walker, follow_other, is_left_out, one_less};
use crate::visitor::{VisitError, Visitor, ended};
use cfi_object::input::FileInput;
use cfi_perf::{PlaceKind, RecordPlace, Sample};
use cfi_processes::Frame;
use cfi_processes::process_code::KERNEL;
use cfi_processes::profile_files::ProfileFile;
use cfi_processes::registers::SampleMachine;
use cfi_processes::replay::Replay;
use cfi_processes::room::Room;
use cfi_text::reading::InputError;
use std::alloc::Global;

/// The samples of a profile whose stacks are wanted, which are the same for all of its records.
#[derive(Drop)]
pub(crate) struct ChosenSamples<'r, 'p> {
    pub(crate) alloc: Global,
    /// Whether the functions of frames are looked up.
    pub(crate) with_functions: bool,
    pub(crate) choice: &'r Choice<'r>,
    /// That the profile was recorded on.
    pub(crate) machine: SampleMachine,
    /// Where the records are.
    pub(crate) index: &'r ProfileIndex<'p>,
}

/// Hands the stacks of the samples to the visitor, by the files, and returns the error that ended
/// the records. Neither a sample that isn't chosen nor one after the limit is unwound.
pub(crate) fn visit_samples<I: FileInput, T, V: Visitor<T>>(
    chosen: &ChosenSamples<'_, '_>,
    files: &[ProfileFile<'_>],
    input: &mut I,
    visitor: &mut V,
    target: &mut T,
) -> Result<(), VisitError<V::Error>>
    requires { IsIndex (I.bytes input.old) chosen.now.index.now }
    ensures { HoldsOf (I.bytes input.old) chosen.now.index.now (λ sorted.
        AreVisited V.visits V.refuses chosen.now.with_functions chosen.now.machine
        (map known_view files.now) (choice_view chosen.now.choice.now) sorted
        chosen.now.index.now.error (visitor.old, target.old) (visitor.new, target.new) result) }
{
    let Ok(room) = Room::new(chosen.alloc) else {
        return Err(VisitError::Input(InputError::OutOfMemory));
    };
    let replay = Replay::new(chosen.alloc, files);
    let frames = Vec::new(chosen.alloc);
    let mut walker = Walker {
        replay,
        room,
        frames,
    };
    let mut left = chosen.choice.limit;
    for place in chosen.index.records.places() {
        if left == Some(0) {
            return ended(chosen.index.error);
        }
        match visit_place(chosen, place, left, input, &mut walker, visitor, target) {
            Ok(more) => left = more,
            Err(error) => return Err(error),
        }
    }
    ended(chosen.index.error)
}

/// Follows the record at a place, and hands its stack over if it is a sample that is chosen.
/// Returns how many more may be.
fn visit_place<'k, I: FileInput, T, V: Visitor<T>>(
    chosen: &ChosenSamples<'k, '_>,
    place: &RecordPlace,
    left: Option<u64>,
    input: &mut I,
    walker: &mut Walker<'_, '_, 'k>,
    visitor: &mut V,
    target: &mut T,
) -> Result<Option<u64>, VisitError<V::Error>>
    requires own { HasOwnModules walker.old.replay }
    requires cached { IsRoomFor (replay_files walker.old.replay) walker.old.room }
    ensures visited { VisitsTurn V.visits V.refuses chosen.now.with_functions chosen.now.machine
        (replay_known walker.old.replay) (choice_view chosen.now.choice.now)
        (I.bytes input.old) chosen.now.index.now place.now
        (known_in walker.old.replay) left (known_in walker.new.replay)
        (visitor.old, target.old) (visitor.new, target.new) result }
    ensures same { I.bytes input.new ≡ I.bytes input.old }
    ensures own { HasOwnModules walker.new.replay }
    ensures cached { IsRoomFor (replay_files walker.new.replay) walker.new.room }
    ensures files { replay_files walker.new.replay ≡ replay_files walker.old.replay }
{
    match place.kind {
        PlaceKind::InFile => match chosen.index.sample_bytes(chosen.alloc, place, input) {
            Ok(bytes) => {
                let Some(sample) = chosen.index.sample_at(place, bytes.as_slice()) else {
                    return Err(VisitError::Input(InputError::Unreadable));
                };
                visit_chosen(chosen, place.time, &sample, left, walker, visitor, target)
            }
            Err(error) => Err(VisitError::Input(error)),
        },
        _ => match follow_other(chosen.index, place, left, &mut walker.replay) {
            Ok(left) => Ok(left),
            Err(error) => Err(VisitError::Input(error)),
        },
    }
}

/// Hands over the stack of a sample, if it is chosen. Returns how many more may be.
fn visit_chosen<T, V: Visitor<T>>(
    chosen: &ChosenSamples<'_, '_>,
    time: u64,
    sample: &Sample<'_>,
    left: Option<u64>,
    walker: &mut Walker<'_, '_, '_>,
    visitor: &mut V,
    target: &mut T,
) -> Result<Option<u64>, VisitError<V::Error>>
    requires own { HasOwnModules walker.old.replay }
    requires cached { IsRoomFor (replay_files walker.old.replay) walker.old.room }
    ensures visited { VisitsRecord V.visits V.refuses chosen.now.with_functions
        chosen.now.machine (replay_known walker.old.replay) (choice_view chosen.now.choice.now)
        (sample_record time (sample_view sample.now)) (known_in walker.old.replay) left
        (known_in walker.new.replay) (visitor.old, target.old) (visitor.new, target.new) result }
    ensures own { HasOwnModules walker.new.replay }
    ensures cached { IsRoomFor (replay_files walker.new.replay) walker.new.room }
    ensures files { replay_files walker.new.replay ≡ replay_files walker.old.replay }
{
    if is_left_out(chosen.choice, &walker.replay, time, sample) {
        return Ok(left);
    }
    match walker.replay.load(sample.pid) {
        Ok(()) => {
            match visit_sample(
                chosen,
                &walker.replay,
                time,
                sample,
                &mut walker.room,
                &mut walker.frames,
                visitor,
                target,
            ) {
                Ok(()) => Ok(one_less(left)),
                Err(error) => Err(error),
            }
        }
        Err(_) => Err(VisitError::Input(InputError::OutOfMemory)),
    }
}

/// Hands over the stack of a sample.
///
/// The frames of user space are those of the call chain where the sample's event copies no stacks.
/// The modules are those of what is mapped. The rows that the room keeps are those of the files, in
/// whichever process they were found. There is room for 4096 frames. Allocates where there is no
/// room for a frame.
fn visit_sample<'run, T, V: Visitor<T>>(
    chosen: &ChosenSamples<'_, '_>,
    replay: &Replay<'_, 'run, '_>,
    time: u64,
    sample: &Sample<'_>,
    room: &mut Room,
    frames: &mut Vec<Frame<'run>>,
    visitor: &mut V,
    target: &mut T,
) -> Result<(), VisitError<V::Error>>
    requires modules { AreModulesFor (SampleEvent (sample_view sample.now)) replay.now }
    requires own { HasOwnModules replay.now }
    requires cached { IsRoomFor (replay_files replay.now) room.old }
    ensures visited { IsVisited V.visits V.refuses chosen.now.with_functions chosen.now.machine
        (taken_of (replay_known replay.now) (record {
          known = known_in replay.now;
          time = time;
          sample = sample_view sample.now;
        }))
        (visitor.old, target.old) (visitor.new, target.new) result }
    ensures cached { IsRoomFor (replay_files replay.now) room.new }
{
    let taken = TakenSample {
        kernel: replay.code(KERNEL),
        code: replay.code(sample.pid),
        name: replay.name(sample.tid),
        time,
        sample: *sample,
    };
    let found = walk_sample(
        room,
        chosen.machine,
        &taken.code,
        replay.modules(),
        &sample.user,
    );
    let walked = room.frames.as_slice();
    let Ok(()) = taken.collect_frames(chosen.with_functions, found, walked, frames) else {
        return Err(VisitError::Input(InputError::OutOfMemory));
    };
    match visitor.visit(&taken.stack(found, frames.as_slice()), target) {
        Ok(()) => Ok(()),
        Err(error) => Err(VisitError::Visitor(error)),
    }
}
