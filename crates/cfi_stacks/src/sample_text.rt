//! The stack of a sample as lines.
use crate::sample_head::put_head;
use crate::sample_stack::SampleStack;
use cfi_frames::frame_style::FrameStyle;
use cfi_frames::frame_text::put_frames;
use cfi_text::text::Text;

/// Puts the lines of a stack: one with the sample's thread, time and event, one for each frame of
/// the kernel and of user space, without its function if it is `raw`, the reason why there are no
/// more if the last one isn't the outermost, and an empty line.
pub(crate) fn put_sample_text(text: &mut Text, raw: bool, stack: &SampleStack<'_, '_>) {
    let style = FrameStyle {
        raw,
        with_address: false,
    };
    put_head(text, stack.name, stack.time, &stack.sample);
    put_frames(text, style, stack.frames, stack.reason);
}
