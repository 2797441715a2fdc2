//! How the stacks of a core file are printed.
use cfi_text::style::Format;

/// How the stacks of a core file are printed, and of which threads.
#[derive(Clone, Copy, Debug)]
pub struct ThreadListing {
    /// Whether functions are left out.
    pub raw: bool,
    /// A line for each frame, or an object of JSON in a line for each thread.
    pub format: Format,
    /// The number of the only thread that is printed (`pr_pid`); all are where it is `None`.
    pub thread: Option<u64>,
}
