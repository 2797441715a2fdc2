//! What a profile is visited by: what stands around its records, their index, and the files of its
//! code.
ghost use Rattle.std.specs.Prelude.{◌⊎◌, ℕ, IfOk, List, Some};
ghost use Rattle.cfi_text.specs.Readings.{AreLeft};
ghost use Rattle.cfi_perf.specs.ProfileHeads.{head_view};
ghost use Rattle.cfi_perf.specs.Profiles.{records_by};
ghost use Rattle.cfi_perf.specs.Windows.{records_in};
ghost use Rattle.cfi_stacks.specs.Choices.{choice_view};
ghost use Rattle.cfi_stacks.specs.ProfileIndexes.{AreBytesAt, AreBytesOf, HasRecords, HasRecordsAt};
ghost use Rattle.cfi_stacks.specs.ProfileIndexes.{HoldsOf, IsIndex, IsTallySaid};
ghost use Rattle.cfi_stacks.specs.ProfileNotices.{IsHeadSaid, IsProfileSaid, IsWalkSaid};
ghost use Rattle.cfi_stacks.specs.Visits.{IsNoneVisited, IsProfileVisited, VisitsHead};
ghost use Rattle.cfi_stacks.specs.Visits.{VisitsRecords, VisitsSorted};

use crate::around::read_around;
use crate::choice::Choice;
use crate::profile_index::{ProfileIndex, index_records};
use crate::sample_visits::{ChosenSamples, visit_samples};
use crate::visitor::{VisitError, Visitor};
use cfi_mapped::Opener;
use cfi_mapped::read_files::read_files;
use cfi_object::input::FileInput;
use cfi_object::read_whole;
use cfi_perf::{Profile, ProfileHead, RecordWalk};
use cfi_processes::profile_files::profile_files;
use cfi_processes::registers::SampleMachine;
use cfi_text::reading::InputError;
use std::alloc::Global;

/// Whose stacks are handed over, with which functions, and what opens the files of the code.
#[derive(Drop)]
struct Visit<'r, O> {
    alloc: Global,
    with_functions: bool,
    choice: &'r Choice<'r>,
    opener: &'r O,
}

/// Hands the stacks of the samples of a profile that are chosen to a visitor, in the order of their
/// times. Other samples aren't unwound. Without functions, none is looked up.
///
/// The frames of the kernel are those of the call chain, and so are those of user space where the
/// sample's event copies no stacks; where no sample's does, the opener says so before the first
/// stack. After the last one it says how many records and samples were lost, if any were. The files
/// of code are opened by the names that the profile has for them, and where it has a file's build,
/// only a file of that build is taken (`cfi_mapped::read_files::read_files`).
///
/// Fails with `Input` where the input can't be read or memory is refused, with `Profile` where it
/// is no profile, with `UnknownMachine` where its registers aren't known here, with the visitor's
/// first error, and after the last stack with `Records` where an error ended the records.
///
/// The records are found by windows of the file, and each sample is read when its stack is walked.
/// One that isn't the one that was found, as of a file that was changed, can't be read. A profile
/// of which a part of the header stands among the records is read whole.
///
/// Allocates for where the samples are, for the other records, the files and what is mapped, and
/// for one window or sample. Unwinding doesn't allocate.
pub fn visit_profile<O: Opener, I: FileInput, T, V: Visitor<T>>(
    alloc: Global,
    with_functions: bool,
    choice: &Choice<'_>,
    opener: &O,
    input: &mut I,
    visitor: &mut V,
    target: &mut T,
) -> Result<(), VisitError<V::Error>>
    ensures visited { (bytes : List ℕ) × AreLeft (I.bytes input.old) bytes
        × IsProfileVisited V.visits V.refuses with_functions (choice_view choice.now)
        (O.may_open opener.now) O.File.remaining (visitor.old, target.old)
        (visitor.new, target.new) result bytes }
    ensures said { IfOk result (λ done. IsProfileSaid (O.has_said opener.now)
        (I.bytes input.old)) }
{
    let visit = Visit {
        alloc,
        with_functions,
        choice,
        opener,
    };
    match read_around(alloc, input) {
        Ok(around) => {
            let before = around.before.as_slice();
            match Profile::parse_around(before, around.behind.as_slice(), around.length) {
                Ok(Some(head)) => visit_head(&visit, &head, input, visitor, target),
                Ok(None) => visit_whole(&visit, input, visitor, target),
                Err(error) => Err(VisitError::Profile(error)),
            }
        }
        Err(error) => Err(VisitError::Input(error)),
    }
}

/// Reads the profile whole, and visits it.
fn visit_whole<O: Opener, I: FileInput, T, V: Visitor<T>>(
    visit: &Visit<'_, O>,
    input: &mut I,
    visitor: &mut V,
    target: &mut T,
) -> Result<(), VisitError<V::Error>>
    ensures visited { (bytes : List ℕ) × AreLeft (I.bytes input.old) bytes
        × IsProfileVisited V.visits V.refuses visit.now.with_functions
        (choice_view visit.now.choice.now) (O.may_open visit.now.opener.now) O.File.remaining
        (visitor.old, target.old) (visitor.new, target.new) result bytes }
    ensures said { IfOk result (λ done. IsProfileSaid (O.has_said visit.now.opener.now)
        (I.bytes input.old)) }
{
    match read_whole(visit.alloc, input) {
        Ok(bytes) => visit_bytes(visit, bytes.as_slice(), visitor, target),
        Err(error) => Err(VisitError::Input(error)),
    }
}

/// Visits the profile that these bytes are.
fn visit_bytes<O: Opener, T, V: Visitor<T>>(
    visit: &Visit<'_, O>,
    bytes: &[u8],
    visitor: &mut V,
    target: &mut T,
) -> Result<(), VisitError<V::Error>>
    ensures visited { IsProfileVisited V.visits V.refuses visit.now.with_functions
        (choice_view visit.now.choice.now) (O.may_open visit.now.opener.now) O.File.remaining
        (visitor.old, target.old) (visitor.new, target.new) result bytes.now }
    ensures said { IfOk result (λ done. IsProfileSaid (O.has_said visit.now.opener.now)
        (Some bytes.now)) }
{
    match Profile::parse(bytes) {
        Ok(profile) => {
            let mut input = bytes;
            let head = profile.head();
            visit_head(visit, &head, &mut input, visitor, target)
        }
        Err(error) => Err(VisitError::Profile(error)),
    }
}

/// Visits the records of a profile that says this before them.
fn visit_head<O: Opener, I: FileInput, T, V: Visitor<T>>(
    visit: &Visit<'_, O>,
    head: &ProfileHead<'_>,
    input: &mut I,
    visitor: &mut V,
    target: &mut T,
) -> Result<(), VisitError<V::Error>>
    requires { HasRecordsAt (I.bytes input.old) (head_view head.now).place
        (head_view head.now).size }
    ensures visited { ((all : List ℕ)
        × AreBytesAt (I.bytes input.old) (head_view head.now).place (head_view head.now).size all
        × VisitsHead V.visits V.refuses visit.now.with_functions
        (choice_view visit.now.choice.now) (O.may_open visit.now.opener.now) O.File.remaining
        (visitor.old, target.old) (visitor.new, target.new) result
        (head_view head.now).architecture (records_by (head_view head.now) all))
        ⊎ IsNoneVisited {V = V × T} (visitor.old, target.old) (visitor.new, target.new) result }
    ensures said { IfOk result (λ done. IsHeadSaid (O.has_said visit.now.opener.now)
        (I.bytes input.old) (head_view head.now)) }
{
    match head.architecture() {
        Ok(Some(name)) => match SampleMachine::named(name) {
            Some(machine) => visit_records(visit, machine, head.walk(), input, visitor, target),
            None => Err(VisitError::UnknownMachine),
        },
        Ok(None) => Err(VisitError::UnknownMachine),
        Err(error) => Err(VisitError::Profile(error)),
    }
}

/// Visits the records, of which a walk is at the first. Says before the first stack if there are no
/// copies of stacks, and after the last one what was lost.
fn visit_records<O: Opener, I: FileInput, T, V: Visitor<T>>(
    visit: &Visit<'_, O>,
    machine: SampleMachine,
    walk: RecordWalk<'_>,
    input: &mut I,
    visitor: &mut V,
    target: &mut T,
) -> Result<(), VisitError<V::Error>>
    requires { HasRecords (I.bytes input.old) walk }
    ensures visited { ((all : List ℕ) × AreBytesOf (I.bytes input.old) walk.entry all
        × VisitsRecords V.visits V.refuses visit.now.with_functions
        (choice_view visit.now.choice.now) (O.may_open visit.now.opener.now) O.File.remaining
        (visitor.old, target.old) (visitor.new, target.new) result
        machine (records_in walk.entry all))
        ⊎ IsNoneVisited {V = V × T} (visitor.old, target.old) (visitor.new, target.new) result }
    ensures said { IfOk result (λ done. IsWalkSaid (O.has_said visit.now.opener.now)
        (I.bytes input.old) walk.entry) }
{
    match index_records(visit.alloc, walk, input) {
        Ok(index) => visit_index(visit, machine, &index, input, visitor, target),
        Err(error) => Err(VisitError::Input(error)),
    }
}

/// Visits the records of an index, and returns the error that ended them. Says before them if there
/// are no copies of stacks, and after them what was lost.
fn visit_index<O: Opener, I: FileInput, T, V: Visitor<T>>(
    visit: &Visit<'_, O>,
    machine: SampleMachine,
    index: &ProfileIndex<'_>,
    input: &mut I,
    visitor: &mut V,
    target: &mut T,
) -> Result<(), VisitError<V::Error>>
    requires { IsIndex (I.bytes input.old) index.now }
    ensures visited { HoldsOf (I.bytes input.old) index.now (λ sorted.
        VisitsSorted V.visits V.refuses visit.now.with_functions
        (choice_view visit.now.choice.now) (O.may_open visit.now.opener.now) O.File.remaining
        (visitor.old, target.old) (visitor.new, target.new) result
        machine sorted index.now.error)
        ⊎ IsNoneVisited {V = V × T} (visitor.old, target.old) (visitor.new, target.new) result }
    ensures said { IsTallySaid (O.has_said visit.now.opener.now) index.now.tally }
{
    let tally = index.tally;
    if tally.has_samples && !tally.has_stacks {
        visit.opener.tell_without_stacks();
    }
    let visited = visit_mapped(visit, machine, index, input, visitor, target);
    if tally.lost_records != 0 || tally.lost_samples != 0 {
        visit
            .opener
            .tell_lost(tally.lost_records, tally.lost_samples);
    }
    visited
}

/// Opens the files of the records, and visits these.
fn visit_mapped<O: Opener, I: FileInput, T, V: Visitor<T>>(
    visit: &Visit<'_, O>,
    machine: SampleMachine,
    index: &ProfileIndex<'_>,
    input: &mut I,
    visitor: &mut V,
    target: &mut T,
) -> Result<(), VisitError<V::Error>>
    requires { IsIndex (I.bytes input.old) index.now }
    ensures { HoldsOf (I.bytes input.old) index.now (λ sorted.
        VisitsSorted V.visits V.refuses visit.now.with_functions
        (choice_view visit.now.choice.now) (O.may_open visit.now.opener.now) O.File.remaining
        (visitor.old, target.old) (visitor.new, target.new) result
        machine sorted index.now.error)
        ⊎ IsNoneVisited {V = V × T} (visitor.old, target.old) (visitor.new, target.new) result }
{
    let chosen = ChosenSamples {
        alloc: visit.alloc,
        with_functions: visit.with_functions,
        choice: visit.choice,
        machine,
        index,
    };
    match index.wanted_files(visit.alloc) {
        Ok(wanted) => match read_files(visit.alloc, false, visit.opener, wanted.as_slice()) {
            Ok(opened) => {
                match profile_files(visit.alloc, visit.with_functions, opened.as_slice()) {
                    Ok(files) => visit_samples(&chosen, files.as_slice(), input, visitor, target),
                    Err(_) => Err(VisitError::Input(InputError::OutOfMemory)),
                }
            }
            Err(_) => Err(VisitError::Input(InputError::OutOfMemory)),
        },
        Err(error) => Err(VisitError::Input(error)),
    }
}
