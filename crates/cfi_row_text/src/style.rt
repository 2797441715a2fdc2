//! How answers are printed: the form of the lines, and the names of registers.

use cfi_text::register_names::RegisterNames;
use cfi_text::style::Format;

/// How answers are printed.
#[derive(Clone, Copy)]
pub struct Style {
    /// The names of registers.
    pub names: RegisterNames,
    /// The form of the lines.
    pub format: Format,
}
