//! The frames of a stack as objects of JSON (RFC 8259), and the end of the stack's object.
ghost use Rattle.std.specs.Prelude.{◌++◌, map, option_map};
ghost use Rattle.cfi_elf.specs.FunctionPlaces.{place_view};
ghost use Rattle.cfi_processes.specs.Frames.{frame_view};
ghost use Rattle.cfi_processes.specs.Sites.{site_view};
ghost use Rattle.cfi_text.specs.Texts.{Puts};
ghost use Rattle.cfi_frames.specs.FrameJson.{comma_before, file_member, frame_address, frame_json};
ghost use Rattle.cfi_frames.specs.FrameJson.{frame_opening, frames_json, function_members};
ghost use Rattle.cfi_frames.specs.FrameJson.{kind_closing, object_end, place_member};
ghost use Rattle.cfi_frames.specs.FrameJson.{reason_member, shown_function, site_json};
ghost use Rattle.cfi_frames.specs.Reasons.{reason_view};

use crate::frame_style::FrameStyle;
use crate::reasons::Reason;
use cfi_elf::FunctionPlace;
use cfi_mapped::Name;
use cfi_processes::{Frame, FrameKind, Site};
use cfi_text::escapes::Escaping;
use cfi_text::text::Text;

/// Puts the objects of the frames, with commas between them.
pub fn put_frame_objects(text: &mut Text, style: FrameStyle, frames: &[Frame<'_>])
    ensures { Puts (frames_json style (map frame_view frames.now)) text.old text.new }
{
    let mut is_first = true;
    for frame in frames {
        put_frame_object(text, style, is_first, frame);
        is_first = false;
    }
}

/// Puts the object of a frame, after a comma unless it is the first: its address in the process, if
/// that is shown, the place in the file, the function and how far into it the address is, unless it
/// is `raw`, and the file; of a frame of the kernel that it is one. A function or a file that isn't
/// known is left out.
pub fn put_frame_object(text: &mut Text, style: FrameStyle, is_first: bool, frame: &Frame<'_>)
    ensures { Puts (comma_before is_first ++ frame_json style (frame_view frame.now))
        text.old text.new }
{
    put_comma(text, is_first);
    put_opening(text, style.with_address, frame.address);
    put_site(text, style.raw, frame.site);
    put_closing(text, frame.kind);
}

/// Puts a comma, unless what comes is the first of all.
fn put_comma(text: &mut Text, is_first: bool)
    ensures { Puts (comma_before is_first) text.old text.new }
{
    if !is_first {
        text.put(b",");
    }
}

/// Puts the beginning of an object, with the address if that is shown.
fn put_opening(text: &mut Text, with_address: bool, address: u64)
    ensures { Puts (frame_opening with_address address) text.old text.new }
{
    if with_address {
        put_address(text, address);
    } else {
        text.put(b"{");
    }
}

/// Puts the beginning of an object, with the address.
fn put_address(text: &mut Text, address: u64)
    ensures { Puts (frame_address address) text.old text.new }
{
    text.put(b"{\"address\":\"");
    text.address(address);
    text.put(b"\",");
}

/// Puts the place in the file, the function unless the frame is `raw`, and the file.
fn put_site(text: &mut Text, raw: bool, site: Site<'_>)
    ensures { Puts (site_json raw (site_view site.entry)) text.old text.new }
{
    put_place(text, site.place);
    put_shown_function(text, raw, site.function);
    put_file(text, site.file);
}

/// Puts the place in the file.
fn put_place(text: &mut Text, place: u64)
    ensures { Puts (place_member place) text.old text.new }
{
    text.put(b"\"place\":\"");
    text.address(place);
    text.put(b"\"");
}

/// Puts the function, unless the frame is `raw`.
fn put_shown_function(text: &mut Text, raw: bool, function: Option<FunctionPlace<'_>>)
    ensures { Puts (function_members (shown_function raw (option_map place_view function.entry)))
        text.old text.new }
{
    if !raw {
        put_function(text, function);
    }
}

/// Puts the name of a function and how far into it an address is, if it is known.
fn put_function(text: &mut Text, function: Option<FunctionPlace<'_>>)
    ensures { Puts (function_members (option_map place_view function.entry)) text.old text.new }
{
    if let Some(place) = function {
        text.put(b",\"function\":\"");
        text.escaped(Escaping::Json, place.name);
        text.put(b"\",\"offset\":");
        text.json_number(place.offset);
    }
}

/// Puts the name of a file, if it is known.
fn put_file(text: &mut Text, file: Option<Name<'_>>)
    ensures { Puts (file_member (option_map (λ name. name.bytes.now) file.entry))
        text.old text.new }
{
    if let Some(name) = file {
        text.put(b",\"file\":\"");
        text.escaped(Escaping::Json, name.bytes);
        text.put(b"\"");
    }
}

/// Puts the end of the object of a frame.
fn put_closing(text: &mut Text, kind: FrameKind)
    ensures { Puts (kind_closing kind) text.old text.new }
{
    match kind {
        FrameKind::User => text.put(b"}"),
        FrameKind::Kernel => text.put(b",\"kernel\":true}"),
    }
}

/// Puts the end of the object of a stack: why there are no more frames, if there is a reason.
pub fn put_object_end(text: &mut Text, reason: Option<Reason>)
    ensures { Puts (object_end (option_map reason_view reason)) text.old text.new }
{
    text.put(b"]");
    put_reason(text, reason);
    text.put(b"}\n");
}

/// Puts the name of the reason, if there is one.
fn put_reason(text: &mut Text, reason: Option<Reason>)
    ensures { Puts (reason_member (option_map reason_view reason)) text.old text.new }
{
    if let Some(reason) = reason {
        text.put(b",\"end\":\"");
        text.put(reason.name.as_bytes());
        text.put(b"\"");
    }
}
