//! Sections over a reader, and expressions.
ghost use Rattle.std.specs.Prelude.{◌≡◌};
ghost use Rattle.cfi_read_core.specs.declared.common.SectionId.{SectionId};

use crate::common::SectionId;

/// A section over a reader.
pub trait Section<R>: From<R> {
    /// The section's reader.
    ghost bytes: { Self → R };

    /// The section's id.
    ghost ID: { SectionId };

    /// The section's id.
    fn id() -> SectionId
        ensures { result ≡ ID };

    /// The section's reader.
    fn reader(&self) -> &R
        ensures { result.now ≡ bytes self.now };

    /// A section made from a reader has that reader's bytes.
    ghost of_reader: { (r : R) (s : Self) → Self.from_gives r s → bytes s ≡ r };
}

/// The bytes of a DWARF expression (DWARF 5 section 2.5).
#[derive(Clone, Copy, Debug, PartialEq, Eq)]
pub struct Expression<R>(pub R);
