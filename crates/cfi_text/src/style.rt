//! The form of the lines that are printed.

/// The form of what is printed.
#[derive(Clone, Copy, Debug, PartialEq, Eq)]
pub enum Format {
    /// Lines of text.
    Text,
    /// Lines of JSON, an object each (RFC 8259).
    Json,
}
