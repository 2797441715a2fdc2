//! A section of call frames with its bases.
ghost use Rattle.std.specs.Prelude.{◌≡◌, ⊤};

use gimli_cfi::BaseAddresses;
use std::alloc::AllocError;

/// A section of call frames, with the bases of the pointers in it.
pub struct PlacedSection<'a, Section> {
    /// The section.
    pub section: &'a Section,
    /// Where it and the sections that it points to are loaded.
    pub bases: &'a BaseAddresses,
}

impl<Section> Clone for PlacedSection<'_, Section> {
    ghost is_clone = { λ x y. y ≡ x };

    ghost is_infallible = { λ _. ⊤ };

    fn clone(&self) -> std::result::Result<Self, AllocError> {
        Ok(*self)
    }
}

impl<Section> Copy for PlacedSection<'_, Section> {}
