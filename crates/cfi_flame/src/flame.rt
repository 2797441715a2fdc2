//! The flame graph of folded stacks.
ghost use Rattle.std.specs.Prelude.{◌≡◌, ◌<◌, IfErr, IfOk, map};
ghost use Rattle.cfi_flame.specs.Boxes.{box_view};
ghost use Rattle.cfi_flame.specs.Flames.{IsPictureOf, IsPictureOfSorted, IsLawful};
ghost use Rattle.cfi_flame.specs.Flames.{IsSortedRefused, IsStacksRefused};
ghost use Rattle.cfi_flame.specs.FoldedStacks.{stack_view, total_of};

use crate::boxes::{FlameBox, boxes_of, wide_boxes};
use crate::folded::{FoldedError, Stack, read_stacks, total_of};
use crate::graph::graph_of;
use crate::kinds::{marked_stacks, stacks_of};
use crate::plain::plain_text;
use crate::turned::{turned_frames, turned_stacks};
use std::alloc::{AllocError, Global};

/// How a flame graph is drawn.
#[derive(Clone, Copy)]
pub struct Drawing<'w> {
    /// What stands above it.
    pub title: &'w [u8],
    /// Whether the stacks are read from the innermost function out, so that a box lies on one that
    /// it calls.
    pub reverse: bool,
    /// How wide a box is at least, in billionths of a pixel where the graph has 1,200 pixels;
    /// narrower ones are left out.
    pub least_width: u64,
}

/// The boxes of a flame graph.
#[derive(Drop)]
pub struct Picture<'text> {
    /// How many samples the stacks have.
    pub total: u64,
    /// The boxes, those of each stack from the outermost function in.
    pub boxes: Vec<FlameBox<'text>>,
}

/// Returns the flame graph of folded stacks: the text of an SVG file.
///
/// Fails with `NotFolded` at the first line that isn't a stack, a space and a number, with
/// `NoSamples` where the numbers are all 0, with `TooManySamples` where their sum is 2^64 or more,
/// and with `OutOfMemory`. Allocates for the stacks, the boxes and the file.
pub fn flame_of(alloc: Global, drawing: Drawing<'_>, text: &[u8]) -> Result<Vec<u8>, FoldedError> {
    let plainer = plain_text(alloc, text)?;
    flame_of_plain(alloc, drawing, plainer.as_slice())
}

/// Returns the flame graph of the stacks of a plain text.
fn flame_of_plain(
    alloc: Global,
    drawing: Drawing<'_>,
    text: &[u8],
) -> Result<Vec<u8>, FoldedError> {
    let bare = read_stacks(alloc, text)?;
    let marked = marked_stacks(alloc, bare.as_slice())?;
    let stacks = stacks_of(alloc, marked.as_slice())?;
    if !drawing.reverse {
        return flame_of_stacks(alloc, drawing, stacks);
    }
    let frames = turned_frames(alloc, stacks.as_slice())?;
    let turned = turned_stacks(alloc, frames.as_slice(), stacks.as_slice())?;
    flame_of_stacks(alloc, drawing, turned)
}

/// Returns the flame graph of these stacks.
fn flame_of_stacks(
    alloc: Global,
    drawing: Drawing<'_>,
    stacks: Vec<Stack<'_>>,
) -> Result<Vec<u8>, FoldedError> {
    let picture = picture_of(alloc, drawing.least_width, stacks)?;
    Ok(graph_of(alloc, drawing.title, &picture)?)
}

/// Returns the boxes of stacks in any order, but for those that are narrower than so many
/// billionths of a pixel. Allocates for them.
///
/// Fails with `NoSamples` where the stacks have none, with `TooManySamples` where they have 2^64 or
/// more, and with `OutOfMemory`.
pub fn picture_of<'text>(
    alloc: Global,
    least_width: u64,
    stacks: Vec<Stack<'text>>,
) -> Result<Picture<'text>, FoldedError>
    ensures found { IfOk result (λ picture. IsPictureOf least_width
        (map stack_view stacks.entry.items) picture.total (map box_view picture.boxes.items)) }
    ensures lawful { IfOk result (λ picture.
        IsLawful (map stack_view stacks.entry.items) (map box_view picture.boxes.items)) }
    ensures refused { IfErr result (IsStacksRefused (map stack_view stacks.entry.items)) }
{
    let mut sorted = stacks;
    match sorted.sort_by_key(|stack| stack.frames) {
        Ok(()) => picture_of_sorted(alloc, least_width, sorted.as_slice()),
        Err(_) => Err(FoldedError::OutOfMemory),
    }
}

/// Returns the boxes of sorted stacks.
fn picture_of_sorted<'text>(
    alloc: Global,
    least_width: u64,
    sorted: &[Stack<'text>],
) -> Result<Picture<'text>, FoldedError>
    ensures found { IfOk result (λ picture. IsPictureOfSorted least_width
        (map stack_view sorted.now) picture.total (map box_view picture.boxes.items)) }
    ensures refused { IfErr result (IsSortedRefused (map stack_view sorted.now)) }
{
    match total_of(sorted) {
        Some(0) => Err(FoldedError::NoSamples),
        Some(total) => match drawn_boxes(alloc, least_width, total, sorted) {
            Ok(boxes) => Ok(Picture { total, boxes }),
            Err(_) => Err(FoldedError::OutOfMemory),
        },
        None => Err(FoldedError::TooManySamples),
    }
}

/// Returns the boxes of sorted stacks that have this many samples.
fn drawn_boxes<'text>(
    alloc: Global,
    least_width: u64,
    total: u64,
    sorted: &[Stack<'text>],
) -> Result<Vec<FlameBox<'text>>, AllocError>
    requires counted { total ≡ total_of (map stack_view sorted.now) }
    requires some { 0 < total }
    ensures { IfOk result (λ boxes. IsPictureOfSorted least_width
        (map stack_view sorted.now) total (map box_view boxes.items)) }
{
    let boxes = boxes_of(alloc, sorted)?;
    wide_boxes(alloc, least_width, total, boxes.as_slice())
}
