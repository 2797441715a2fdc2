//! The file of a flame graph: an SVG that any browser opens, with its style and its script.
ghost use Rattle.std.specs.Prelude.{◌<◌, ◌^◌};

use crate::boxes::FlameBox;
use crate::flame::Picture;
use crate::kinds::{Kind, unmarked};
use crate::label::{Label, label_of};
use crate::page::{BEFORE_BOXES, BEFORE_HEIGHT, BEFORE_LABELS, BEFORE_TITLE, BEHIND_LABELS};
use cfi_text::escapes::Escaping;
use cfi_text::text::Text;
use std::alloc::{AllocError, Global};

/// How many pixels high a row is.
const ROW: u128 = 18;

/// Returns the file of a picture of marked stacks: the text of an SVG. Allocates for it.
pub fn graph_of(alloc: Global, title: &[u8], picture: &Picture<'_>) -> Result<Vec<u8>, AllocError> {
    let mut text = Text::new(alloc);
    put_graph(&mut text, title, picture.total, picture.boxes.as_slice());
    text.into_bytes()
}

/// Writes the file of these boxes.
fn put_graph(text: &mut Text, title: &[u8], total: u64, boxes: &[FlameBox<'_>]) {
    let mut rows = 1usize;
    for found in boxes {
        rows = rows.max(found.depth.saturating_add(1));
    }
    let whole = FlameBox {
        functions: b"all",
        depth: 0,
        left: 0,
        width: total,
    };
    text.put(BEFORE_HEIGHT);
    text.number((rows as u128 + 1) * ROW + 82);
    text.put(BEFORE_TITLE);
    text.escaped(Escaping::Xml, title);
    text.put(BEFORE_BOXES);
    put_box(text, rows, total, &whole);
    for found in boxes {
        put_box(text, row_of(rows, found), total, found);
    }
    text.put(BEFORE_LABELS);
    put_label(text, rows, total, &whole);
    for found in boxes {
        put_label(text, row_of(rows, found), total, found);
    }
    text.put(BEHIND_LABELS);
}

/// Returns the row of a box, from the top.
fn row_of(rows: usize, found: &FlameBox<'_>) -> usize {
    rows.saturating_sub(found.depth).saturating_sub(1)
}

/// Writes a box in this row, with the name and the samples that are shown where a pointer is over
/// it.
fn put_box(text: &mut Text, row: usize, total: u64, found: &FlameBox<'_>) {
    let (name, kind) = unmarked(found.name());
    text.put(b"<rect");
    put_place(text, row, total, found);
    text.put(b" height=\"17\" fill=\"hsl(");
    text.number(hue_of(kind, name));
    text.put(b",80%,65%)\"><title>");
    text.escaped(Escaping::Xml, name);
    text.put(b": ");
    text.number(found.width);
    text.put(samples_word(found.width));
    put_per_cent(text, total, found.width);
    text.put(kind_words(kind));
    text.put(b"</title></rect>\n");
}

/// Writes the label of a box in this row, if there is room for three letters where the graph has
/// 1,200 pixels. In a narrower one it is cut off where the box ends.
fn put_label(text: &mut Text, row: usize, total: u64, found: &FlameBox<'_>) {
    let (name, _) = unmarked(found.name());
    let label = label_of(name, found.width, total);
    if let Label::None = label {
        return;
    }
    text.put(b"<svg");
    put_place(text, row, total, found);
    text.put(b"><text x=\"3\" y=\"13\">");
    match label {
        Label::None => {}
        Label::Cut(part) => {
            text.escaped(Escaping::Xml, part);
            text.put(b"..");
        }
        Label::Name => text.escaped(Escaping::Xml, name),
        Label::Figures => {
            text.escaped(Escaping::Xml, name);
            text.put(b" (");
            text.number(found.width);
            text.put(b", ");
            put_per_cent(text, total, found.width);
            text.put(b")");
        }
    }
    text.put(b"</text></svg>\n");
}

/// Writes where a box is in this row. It begins and ends where its share of all samples does: `x`
/// and `width` are in millionths of a per cent.
fn put_place(text: &mut Text, row: usize, total: u64, found: &FlameBox<'_>) {
    let start = share(found.left as u128, total);
    let end = share(found.left as u128 + found.width as u128, total);
    text.put(b" x=\"");
    text.number(start);
    text.put(b"e-6%\" y=\"");
    text.number(row as u128 * ROW);
    text.put(b"\" width=\"");
    text.number(end.saturating_sub(start));
    text.put(b"e-6%\"");
}

/// Returns what stands behind a number of samples.
fn samples_word(samples: u64) -> &'static [u8] {
    if samples == 1 {
        b" sample, "
    } else {
        b" samples, "
    }
}

/// Writes the share of all samples, cut to hundredths of a per cent.
fn put_per_cent(text: &mut Text, total: u64, samples: u64) {
    let hundredths = samples as u128 * 10_000 / total.max(1) as u128;
    text.number(hundredths / 100);
    text.put(b".");
    text.number(hundredths / 10 % 10);
    text.number(hundredths % 10);
    text.put(b"%");
}

/// Returns the share of all samples, in millionths of a per cent.
fn share(samples: u128, total: u64) -> u128
    requires { samples < 2 ^ 65 }
{
    samples * 100_000_000 / total.max(1) as u128
}

/// Returns what is said of a function of this kind behind its figures.
fn kind_words(kind: Kind) -> &'static [u8] {
    match kind {
        Kind::Program => b"",
        Kind::Kernel => b", kernel",
        Kind::Compiled => b", JIT",
        Kind::Inlined => b", inlined",
    }
}

/// Returns the hue of a name, in degrees: of a program from red to yellow, of the kernel blue, of
/// what was compiled as it ran green, and of an inlined function between these.
fn hue_of(kind: Kind, name: &[u8]) -> u64 {
    let mut hash = 0u64;
    for byte in name {
        hash = (hash % 997 * 31 + *byte as u64) % 997;
    }
    match kind {
        Kind::Program => 10 + hash % 50,
        Kind::Kernel => 200 + hash % 30,
        Kind::Compiled => 90 + hash % 30,
        Kind::Inlined => 150 + hash % 30,
    }
}
