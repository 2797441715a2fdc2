//! The stacks of a profile, by a visitor of one's own.
ghost use Rattle.std.specs.Prelude.{⊤};

use cfi_mapped::Opener;
use cfi_stacks::{Choice, SampleStack, VisitError, Visitor, visit_profile};
use cfi_text::text::Text;
use std::alloc::{AllocError, Global};

/// Puts a line for each frame of a stack, with its address and its function if one is known, and an
/// empty line.
#[derive(Drop)]
pub struct Lines;

impl Visitor<Text> for Lines {
    type Error = AllocError;

    ghost visits = { λ _ _ _. ⊤ };

    ghost refuses = { λ _ _ _ _. ⊤ };

    fn visit(&mut self, stack: &SampleStack<'_, '_>, text: &mut Text) -> Result<(), AllocError> {
        for frame in stack.frames {
            text.address(frame.address);
            if let Some(function) = frame.site.function {
                text.put(b" ");
                text.name(function.name);
            }
            text.put(b"\n");
        }
        text.put(b"\n");
        Ok(())
    }
}

/// Returns the stacks of all samples of a profile, as lines.
pub fn lines_of<O: Opener>(
    alloc: Global,
    opener: &O,
    profile: &[u8],
) -> Result<Vec<u8>, VisitError<AllocError>> {
    let choice = Choice::everything();
    let mut input = profile;
    let mut text = Text::new(alloc);
    visit_profile(
        alloc, true, &choice, opener, &mut input, &mut Lines, &mut text,
    )?;
    match text.into_bytes() {
        Ok(lines) => Ok(lines),
        Err(error) => Err(VisitError::Visitor(error)),
    }
}
