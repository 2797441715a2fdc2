//! How the frames of a walk are printed.

/// How the frames of a walk are printed.
#[derive(Clone, Copy)]
pub struct FrameStyle {
    /// Whether functions are left out.
    pub raw: bool,
    /// Whether the address in the process comes first.
    pub with_address: bool,
}
