//! The folded stacks of a profile's samples.
ghost use Rattle.std.specs.Prelude.{◌≡◌, ℕ, IfErr, IfOk, List, OnOk, true};
ghost use Rattle.cfi_flame.specs.FoldedCounts.{counted_in};
ghost use Rattle.cfi_perf.specs.Samples.{sample_view};
ghost use Rattle.cfi_text.specs.Readings.{AreLeft};
ghost use Rattle.cfi_text.specs.WriterOutput.{Prints, PrintsSome};
ghost use Rattle.cfi_stacks.specs.Choices.{choice_view};
ghost use Rattle.cfi_stacks.specs.ChosenStacks.{sample_weight};
ghost use Rattle.cfi_stacks.specs.ProfileNotices.{IsProfileSaid};
ghost use Rattle.cfi_stacks.specs.ProfileOutputs.{Counts, EndsFolded, EndsFoldedBy, IsEndFolded};
ghost use Rattle.cfi_stacks.specs.ProfileOutputs.{IsFolded, IsNotCounted, IsOwed, profile_ended};
ghost use Rattle.cfi_stacks.specs.ProfileOutputs.{too_many, uncounted};
ghost use Rattle.cfi_stacks.specs.SampleOutputs.{stack_view};

use crate::choice::Choice;
use crate::folded_text::folded_stack;
use crate::profile_errors::{write_perf_refusal, write_unknown_machine};
use crate::sample_stack::SampleStack;
use crate::visitor::{VisitError, Visitor};
use crate::visits::visit_profile;
use cfi_flame::{FoldedError, StackCounts};
use cfi_mapped::Opener;
use cfi_object::input::FileInput;
use cfi_perf::{PerfError, Sample};
use cfi_text::input_refusals::write_input_refusal;
use cfi_text::lines::write_text;
use cfi_text::reading::InputError;
use cfi_text::style::Format;
use cfi_text::text::Text;
use std::alloc::Global;
use std::io;
use std::io::Write;

/// Prints the folded stacks of the samples of a profile that are chosen, and then the error that
/// ended its records, if one did; or why there are none.
pub(crate) fn print_folded<O: Opener, I: FileInput, W: Write>(
    alloc: Global,
    by_period: bool,
    choice: &Choice<'_>,
    opener: &O,
    input: &mut I,
    output: &mut W,
) -> io::Result<u8>
    ensures printed { (bytes : List ℕ) × AreLeft (I.bytes input.old) bytes
        × PrintsSome (IsOwed Format.Text true (O.may_open opener.now)
        O.File.remaining (IsFolded by_period (choice_view choice.now)) bytes)
        (W.contents output.old) (W.contents output.new) result }
    ensures said { IfOk result (λ status. status ≡ 0
        → IsProfileSaid (O.has_said opener.now) (I.bytes input.old)) }
{
    let mut folding = Folding { alloc, by_period };
    let mut counts = StackCounts::new(alloc);
    let visited = visit_profile(
        alloc,
        true,
        choice,
        opener,
        input,
        &mut folding,
        &mut counts,
    );
    write_folded_end(alloc, &counts, visited, output)
}

/// Counts samples by their folded stacks.
#[derive(Drop)]
struct Folding {
    alloc: Global,
    by_period: bool,
}

impl Visitor<StackCounts> for Folding {
    type Error = FoldedError;

    ghost visits = { λ old stack new.
        Counts old.0.by_period (counted_in old.1) stack (counted_in new.1)
        × (new.0.by_period ≡ old.0.by_period) };

    ghost refuses = { λ old stack new why.
        IsNotCounted old.0.by_period (counted_in old.1) stack why };

    fn visit(
        &mut self,
        stack: &SampleStack<'_, '_>,
        counts: &mut StackCounts,
    ) -> Result<(), FoldedError> {
        count_stack(self.alloc, self.by_period, stack, counts)
    }
}

/// Counts a sample by its folded stack. Fails where the stack has too many, and with `OutOfMemory`.
fn count_stack(
    alloc: Global,
    by_period: bool,
    stack: &SampleStack<'_, '_>,
    counts: &mut StackCounts,
) -> Result<(), FoldedError>
    ensures counted { OnOk result
        (Counts by_period (counted_in counts.old) (stack_view stack.now) (counted_in counts.new)) }
    ensures refused { IfErr result
        (IsNotCounted by_period (counted_in counts.old) (stack_view stack.now)) }
{
    match folded_stack(alloc, stack) {
        Ok(line) => counts.add(alloc, line.as_slice(), weight(by_period, &stack.sample)),
        Err(_) => Err(FoldedError::OutOfMemory),
    }
}

/// Returns how much a sample counts: one, or its period. One also where the period is 0.
fn weight(by_period: bool, sample: &Sample<'_>) -> u64
    ensures { result ≡ sample_weight by_period (sample_view sample.now) }
{
    if by_period && sample.period != 0 {
        sample.period
    } else {
        1
    }
}

/// Prints the stacks that were counted, and then the error that ended the records; or why there are
/// none. Returns the status.
fn write_folded_end<W: Write>(
    alloc: Global,
    counts: &StackCounts,
    visited: Result<(), VisitError<FoldedError>>,
    output: &mut W,
) -> io::Result<u8>
    ensures { EndsFolded (counted_in counts.now) visited (W.contents output.old)
        (W.contents output.new) result }
{
    match visited {
        Ok(()) => write_counts(alloc, counts, None, output),
        Err(error) => write_stopped(alloc, counts, error, output),
    }
}

/// Prints the stacks that were counted and the error that ended the records, or why there are none.
fn write_stopped<W: Write>(
    alloc: Global,
    counts: &StackCounts,
    error: VisitError<FoldedError>,
    output: &mut W,
) -> io::Result<u8>
    ensures { EndsFoldedBy (counted_in counts.now) error (W.contents output.old)
        (W.contents output.new) result }
{
    let format = Format::Text;
    match error {
        VisitError::Records(error) => write_counts(alloc, counts, Some(error), output),
        VisitError::Profile(error) => write_perf_refusal(output, format, error),
        VisitError::UnknownMachine => write_unknown_machine(output, format),
        VisitError::Input(error) => write_input_refusal(output, format, error),
        VisitError::Visitor(error) => write_uncounted(output, error),
    }
}

/// Prints the folded stacks, and then the error that ended the records, and returns the status.
fn write_counts<W: Write>(
    alloc: Global,
    counts: &StackCounts,
    error: Option<PerfError>,
    output: &mut W,
) -> io::Result<u8>
    ensures { PrintsSome (IsEndFolded (counted_in counts.now) error) (W.contents output.old)
        (W.contents output.new) result }
{
    let mut text = Text::new(alloc);
    counts.put_lines(&mut text);
    match text.into_bytes() {
        Ok(lines) => write_folded(lines.as_slice(), error, output),
        Err(_) => write_input_refusal(output, Format::Text, InputError::OutOfMemory),
    }
}

/// Prints the lines of folded stacks, and then the error that ended the records.
fn write_folded<W: Write>(text: &[u8], error: Option<PerfError>, output: &mut W) -> io::Result<u8>
    ensures { Prints (profile_ended Format.Text text.now error)
        (W.contents output.old) (W.contents output.new) result }
{
    write_text(output, text)?;
    match error {
        None => Ok(0),
        Some(error) => write_perf_refusal(output, Format::Text, error),
    }
}

/// Prints why a stack wasn't counted, and returns the status: it has too many samples, or memory
/// was refused.
fn write_uncounted<W: Write>(output: &mut W, error: FoldedError) -> io::Result<u8>
    ensures { Prints (uncounted error) (W.contents output.old) (W.contents output.new) result }
{
    match error {
        FoldedError::TooManySamples => write_too_many(output),
        _ => write_input_refusal(output, Format::Text, InputError::OutOfMemory),
    }
}

/// Prints that a stack has too many samples, and returns the status 1.
fn write_too_many<W: Write>(output: &mut W) -> io::Result<u8>
    ensures { Prints too_many (W.contents output.old) (W.contents output.new) result }
{
    write_text(output, b"refused TooManySamples\n")?;
    Ok(1)
}
