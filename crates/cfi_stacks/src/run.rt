//! The stacks of a profile, by the files that it names.
ghost use Rattle.std.specs.Prelude.{◌≡◌, ℕ, IfOk, List};
ghost use Rattle.cfi_text.specs.Readings.{AreLeft};
ghost use Rattle.cfi_text.specs.WriterOutput.{PrintsSome};
ghost use Rattle.cfi_stacks.specs.Choices.{choice_view};
ghost use Rattle.cfi_stacks.specs.ProfileNotices.{IsProfileSaid};
ghost use Rattle.cfi_stacks.specs.ProfileOutputs.{IsListingOwed};

use crate::choice::Choice;
use crate::folding::print_folded;
use crate::listing::{Listing, StackStyle};
use crate::sample_stacks::print_stacks;
use cfi_mapped::Opener;
use cfi_object::input::FileInput;
use cfi_text::style::Format;
use std::alloc::Global;
use std::io;
use std::io::Write;

/// Prints the stacks of the samples of a profile that are chosen: one after the other, in the order
/// of their times, or folded. `visit_profile` says which frames they have, which files are opened
/// and what is said beside them.
///
/// For each sample there is a line with the thread, its name, the processor, the time, the period
/// and the event, a line for each frame of the kernel and of user space, where there is a reason
/// for which the last frame isn't the outermost one a line with it, and an empty line. The line of
/// a frame has its place in a file, the function and the file; if the listing is raw, it has no
/// function, and none is looked up. With `Listing::Json` there is a line for each sample instead,
/// an object with the same, and what is printed below in place of stacks is the member `error` of
/// one (`write_reason`). Folded stacks are counted (`Listing::Folded`), and their lines, the stack,
/// a space and the number, are printed in the order of their bytes (`folded_text` says what names
/// become).
///
/// Status 0: all samples are printed. Status 1: the profile, or the rest of it, can't be read,
/// which prints `refused` and the name of the error; it is of a machine whose registers aren't
/// known here, which prints `unknown machine`; a folded stack has 2^64 samples or more, which
/// prints `refused TooManySamples`; or memory is refused. Status 2: the input can't be read, which
/// prints `wrong input`, after the stacks that were printed if it is a sample that can't. Fails
/// where the output can't be written: then a beginning has been written.
///
/// Allocates as `visit_profile`, and for folded stacks: one text for each different one, and the
/// lines of all. Printing one stack after the other doesn't allocate.
pub fn list_profile<O: Opener, I: FileInput, W: Write>(
    alloc: Global,
    listing: Listing,
    choice: &Choice<'_>,
    opener: &O,
    input: &mut I,
    output: &mut W,
) -> io::Result<u8>
    ensures printed { (bytes : List ℕ) × AreLeft (I.bytes input.old) bytes
        × PrintsSome (λ line. IsListingOwed listing (choice_view choice.now)
        (O.may_open opener.now) O.File.remaining
        bytes line)
        (W.contents output.old) (W.contents output.new) result }
    ensures said { IfOk result (λ status. status ≡ 0
        → IsProfileSaid (O.has_said opener.now) (I.bytes input.old)) }
{
    match listing {
        Listing::Frames(raw) => {
            let format = Format::Text;
            let style = StackStyle { raw, format };
            print_stacks(alloc, style, choice, opener, input, output)
        }
        Listing::Json(raw) => {
            let format = Format::Json;
            let style = StackStyle { raw, format };
            print_stacks(alloc, style, choice, opener, input, output)
        }
        Listing::Folded(by_period) => {
            print_folded(alloc, by_period, choice, opener, input, output)
        }
    }
}
