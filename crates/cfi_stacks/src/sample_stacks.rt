//! The stacks of a profile's samples, printed one after the other.
ghost use Rattle.std.specs.Prelude.{◌≡◌, ℕ, IfErr, IfOk, List, OnOk, not};
ghost use Rattle.cfi_text.specs.Readings.{AreLeft};
ghost use Rattle.cfi_text.specs.Texts.{Puts};
ghost use Rattle.cfi_text.specs.WriterOutput.{PrintsSome};
ghost use Rattle.cfi_stacks.specs.Choices.{choice_view};
ghost use Rattle.cfi_stacks.specs.ProfileNotices.{IsProfileSaid};
ghost use Rattle.cfi_stacks.specs.ProfileOutputs.{AreStacksPrinted, IsOwed};
ghost use Rattle.cfi_stacks.specs.SampleOutputs.{Begins, IsSaidIn, Shows, sample_object};
ghost use Rattle.cfi_stacks.specs.SampleOutputs.{stack_view};

use crate::choice::Choice;
use crate::listing::StackStyle;
use crate::profile_errors::write_end;
use crate::sample_object::put_sample_object;
use crate::sample_stack::SampleStack;
use crate::sample_text::put_sample_text;
use crate::visitor::Visitor;
use crate::visits::visit_profile;
use cfi_mapped::Opener;
use cfi_object::input::FileInput;
use cfi_text::style::Format;
use cfi_text::text::Text;
use std::alloc::Global;
use std::io;
use std::io::Write;

/// Prints stacks one after the other.
#[derive(Drop)]
struct Printer {
    style: StackStyle,
    /// The text of a stack.
    text: Text,
}

impl<W: Write> Visitor<W> for Printer {
    type Error = io::Error;

    ghost visits = { λ old stack new.
        Shows old.0.style (W.contents old.1) stack (W.contents new.1)
        × (new.0.style ≡ old.0.style) };

    ghost refuses = { λ old stack new _.
        Begins old.0.style (W.contents old.1) stack (W.contents new.1) };

    fn visit(&mut self, stack: &SampleStack<'_, '_>, output: &mut W) -> io::Result<()> {
        print_stack(self.style, stack, &mut self.text, output)
    }
}

/// Prints the stack of a sample: its lines, or an object of JSON in a line; without functions if it
/// is `raw`. The text is room for it. Fails with `OutOfMemory` where memory is refused, and then
/// writes nothing.
fn print_stack<W: Write>(
    style: StackStyle,
    stack: &SampleStack<'_, '_>,
    text: &mut Text,
    output: &mut W,
) -> io::Result<()>
    ensures printed { OnOk result
        (Shows style (W.contents output.old) (stack_view stack.now) (W.contents output.new)) }
    ensures refused { IfErr result (λ _.
        Begins style (W.contents output.old) (stack_view stack.now) (W.contents output.new)) }
{
    text.clear();
    put_stack(text, style, stack);
    text.write_to(output)
}

/// Puts a stack in its format.
fn put_stack(text: &mut Text, style: StackStyle, stack: &SampleStack<'_, '_>)
    ensures { IsSaidIn style.format
        (Puts (sample_object style.raw (stack_view stack.now)) text.old text.new) }
{
    match style.format {
        Format::Text => put_sample_text(text, style.raw, stack),
        Format::Json => put_sample_object(text, style.raw, stack),
    }
}

/// Prints the stacks of the samples of a profile that are chosen, and then why there are no more,
/// if there is a reason.
pub(crate) fn print_stacks<O: Opener, I: FileInput, W: Write>(
    alloc: Global,
    style: StackStyle,
    choice: &Choice<'_>,
    opener: &O,
    input: &mut I,
    output: &mut W,
) -> io::Result<u8>
    ensures printed { (bytes : List ℕ) × AreLeft (I.bytes input.old) bytes
        × PrintsSome (IsOwed style.format (not style.raw) (O.may_open opener.now)
        O.File.remaining (AreStacksPrinted style (choice_view choice.now)) bytes)
        (W.contents output.old) (W.contents output.new) result }
    ensures said { IfOk result (λ status. status ≡ 0
        → IsProfileSaid (O.has_said opener.now) (I.bytes input.old)) }
{
    let text = Text::new(alloc);
    let mut printer = Printer { style, text };
    let visited = visit_profile(
        alloc,
        !style.raw,
        choice,
        opener,
        input,
        &mut printer,
        output,
    );
    write_end(output, style.format, visited)
}
