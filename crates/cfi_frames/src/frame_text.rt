//! The lines of frames, and of why there are no more.
use crate::frame_style::FrameStyle;
use crate::reasons::Reason;
use cfi_elf::FunctionPlace;
use cfi_mapped::Name;
use cfi_processes::Frame;
use cfi_text::escapes::Escaping;
use cfi_text::name_parts::digit;
use cfi_text::text::Text;

/// Puts the lines of the frames, why there are no more, if there is a reason, and an empty line.
pub fn put_frames(
    text: &mut Text,
    style: FrameStyle,
    frames: &[Frame<'_>],
    reason: Option<Reason>,
) {
    for frame in frames {
        put_frame(text, style, frame);
    }
    put_reason(text, reason);
    text.put(b"\n");
}

/// Puts the line of a frame: its address in the process, if that is shown, and the place in the
/// file, each after a tab and in sixteen columns, the function and how far into it the address is,
/// unless it is `raw`, and the file in parentheses. `[unknown]` stands for a function or a file
/// that isn't known.
fn put_frame(text: &mut Text, style: FrameStyle, frame: &Frame<'_>) {
    if style.with_address {
        put_column(text, frame.address);
    }
    put_column(text, frame.site.place);
    if !style.raw {
        text.put(b" ");
        put_function(text, frame.site.function);
    }
    text.put(b" (");
    put_file(text, frame.site.file);
    text.put(b")\n");
}

/// Puts a tab, and a number in hexadecimal in sixteen columns.
fn put_column(text: &mut Text, number: u64) {
    let mut columns = [b' '; 16];
    for column in 0..16 {
        let left = number >> (60 - 4 * column);
        if left != 0 || column == 15 {
            columns[column] = digit((left % 16) as u8);
        }
    }
    text.put(b"\t");
    text.put(&columns);
}

/// Puts the name of a function, and how far into it an address is.
fn put_function(text: &mut Text, function: Option<FunctionPlace<'_>>) {
    match function {
        Some(place) => {
            text.name(place.name);
            text.put(b"+");
            text.address(place.offset);
        }
        None => text.put(b"[unknown]"),
    }
}

/// Puts the name of a file.
fn put_file(text: &mut Text, file: Option<Name<'_>>) {
    match file {
        Some(name) => put_name(text, name),
        None => text.put(b"[unknown]"),
    }
}

/// Puts a name as `Text::name` does, without a look at each byte where all are known to be
/// printable ASCII.
pub fn put_name(text: &mut Text, name: Name<'_>) {
    if name.is_plain {
        text.put(name.bytes);
    } else {
        text.escaped(Escaping::Text, name.bytes);
    }
}

/// Puts the line of a reason, if there is one: `# ` and the words, and in parentheses the name,
/// and after a space the name of the error that it carries.
fn put_reason(text: &mut Text, reason: Option<Reason>) {
    if let Some(reason) = reason {
        text.put(b"# ");
        text.put(reason.words.as_bytes());
        text.put(b" (");
        text.put(reason.name.as_bytes());
        if let Some(error) = reason.error {
            text.put(b" ");
            text.put(error.name().as_bytes());
        }
        text.put(b")\n");
    }
}
