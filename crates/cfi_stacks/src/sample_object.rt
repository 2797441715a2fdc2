//! A sample's stack as an object of JSON (RFC 8259).
ghost use Rattle.cfi_text.specs.Texts.{Puts};
ghost use Rattle.cfi_stacks.specs.SampleOutputs.{sample_object, stack_view};

use crate::sample_members::put_sample_head;
use crate::sample_stack::SampleStack;
use cfi_frames::frame_json::{put_frame_objects, put_object_end};
use cfi_frames::frame_style::FrameStyle;
use cfi_text::text::Text;

/// Puts a sample's stack as an object of JSON, in a line: its thread, time and event, the frames,
/// without functions if they are `raw`, and the name of the reason why there are no more, if the
/// last one isn't the outermost.
pub(crate) fn put_sample_object(text: &mut Text, raw: bool, stack: &SampleStack<'_, '_>)
    ensures { Puts (sample_object raw (stack_view stack.now)) text.old text.new }
{
    let style = FrameStyle {
        raw,
        with_address: false,
    };
    put_sample_head(text, stack.name, stack.time, &stack.sample);
    put_frame_objects(text, style, stack.frames);
    put_object_end(text, stack.reason);
}
