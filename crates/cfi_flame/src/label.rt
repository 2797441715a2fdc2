//! What stands in a box of a flame graph.
use itoa::Buffer;

/// How many hundredths of a pixel a letter is wide.
const LETTER: u128 = 725;

/// How many hundredths of a pixel are left free in a box, beside its letters.
const FREE: u128 = 600;

/// What stands in a box.
#[derive(Clone, Copy)]
pub enum Label<'name> {
    /// Nothing: there is no room for three letters, or a wide one and the dots.
    None,
    /// This beginning of the name, and two dots.
    Cut(&'name [u8]),
    /// The name.
    Name,
    /// The name, and in parentheses the samples and their share.
    Figures,
}

/// Returns what stands in a box of so many of all samples where the graph has 1,200 pixels. No
/// character of the name is cut: it is UTF-8.
pub fn label_of(name: &[u8], width: u64, total: u64) -> Label<'_> {
    let pixels = width as u128 * 120_000 / total.max(1) as u128;
    let room = pixels.saturating_sub(FREE) / LETTER;
    let letters = letters_of(name) as u128;
    if room < 3 {
        Label::None
    } else if letters > room {
        cut_label(name, room - 2)
    } else if letters.saturating_add(figure_letters(width, total)) > room {
        Label::Name
    } else {
        Label::Figures
    }
}

/// Returns the label of a name that is cut, with room for so many letters of it.
fn cut_label(name: &[u8], letters: u128) -> Label<'_> {
    let part = cut(name, letters);
    if part.is_empty() {
        return Label::None;
    }
    Label::Cut(part)
}

/// Returns how many letters the samples and their share have, in parentheses behind a space.
fn figure_letters(width: u64, total: u64) -> u128 {
    let per_cent = width as u128 * 100 / total.max(1) as u128;
    let digits = Buffer::new().format(width).len() as u128;
    digits.saturating_add(Buffer::new().format(per_cent).len() as u128 + 9)
}

/// Returns how many letters wide a name is.
fn letters_of(name: &[u8]) -> usize {
    let mut letters = 0usize;
    for byte in name {
        letters = letters.saturating_add(letters_at(*byte));
    }
    letters
}

/// Returns the beginning of a name that is at most so many letters wide.
fn cut(name: &[u8], letters: u128) -> &[u8] {
    let mut left = letters;
    for k in 0..name.len() {
        let wide = letters_at(name[k]) as u128;
        if wide > left {
            return &name[..k];
        }
        left -= wide;
    }
    name
}

/// Returns how many letters wide the character is that begins with this byte: two if it isn't
/// ASCII, since some are so wide, and 0 if none begins with it.
fn letters_at(byte: u8) -> usize {
    if byte < 0x80 {
        1
    } else if byte < 0xc0 {
        0
    } else {
        2
    }
}
