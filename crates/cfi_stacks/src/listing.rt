//! How the stacks of a profile are printed.
use cfi_text::style::Format;

/// How the stacks of a profile are printed.
#[derive(Clone, Copy, Debug)]
pub enum Listing {
    /// One after the other, with a line for each frame; without functions if true.
    Frames(bool),
    /// One after the other, an object of JSON in a line for each; without functions if true.
    Json(bool),
    /// Folded: a line for each different stack, with the number of its samples, or with the sum of
    /// their periods if true. A sample with the period 0 counts 1.
    Folded(bool),
}

/// How the stack of a sample is printed.
#[derive(Clone, Copy, Debug)]
pub struct StackStyle {
    /// Whether functions are left out.
    pub raw: bool,
    /// A line for each frame, or an object of JSON in a line.
    pub format: Format,
}
