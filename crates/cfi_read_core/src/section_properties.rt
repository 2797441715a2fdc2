//! How `.debug_frame` and `.eh_frame` differ, and offsets in them.
ghost use Rattle.std.specs.Prelude.{◌≡◌, ◌==◌, ok_or};
ghost use Rattle.std.specs.Option.{option_map};
ghost use Rattle.cfi_read_core.specs.declared.error.Error.TheVariants.{OffsetOutOfBounds};
ghost use Rattle.cfi_read_core.specs.Addresses.{IsAddressSize};
ghost use Rattle.cfi_read_core.specs.ReaderCalls.{IsSound};
ghost use Rattle.cfi_read_core.specs.CallFrameSections.{SectionKind, SectionView, cie_id};
ghost use Rattle.cfi_read_core.specs.CallFrameSections.{cie_offset_from, has_sizes, id_width};
ghost use Rattle.cfi_read_core.specs.CallFrameSections.{width_of, zero_length_ends};

use crate::{DebugFrameOffset, EhFrameOffset, Format, Reader, Vendor};
use std::fmt::Debug;

/// The width of an entry's id (DWARF 5 section 6.4.1).
#[derive(Clone, Copy, Debug, PartialEq, Eq)]
pub enum CieOffsetEncoding {
    /// Four bytes.
    U32,
    /// Eight bytes.
    U64,
}

/// An offset in one of the sections, made from a value of the reader's offset type.
pub trait UnwindOffset<T>: Copy + Debug + Eq + From<T> {
    /// The value.
    ghost offset: { Self → T };

    /// The value.
    fn into(self) -> T
        ensures { result ≡ offset self };

    /// `into` returns the value that the offset was made from.
    ghost inverse: { (x : T) (y : Self) → Self.from_gives x y → offset y ≡ x };
}

impl<T: Copy + Debug + Eq> UnwindOffset<T> for DebugFrameOffset<T> {
    ghost offset = { λ it. it.0 };

    #[inline(always)]
    fn into(self) -> T {
        self.0
    }

    ghost inverse = { λ x y e. e };
}

impl<T: Copy + Debug + Eq> UnwindOffset<T> for EhFrameOffset<T> {
    ghost offset = { λ it. it.0 };

    #[inline(always)]
    fn into(self) -> T {
        self.0
    }

    ghost inverse = { λ x y e. e };
}

/// The properties of a call frame section, and how the two sections differ (DWARF 5 section
/// 6.4.1; LSB Core, "The .eh_frame section").
pub trait _UnwindSectionPrivate<R: Reader> {
    /// The section's properties.
    ghost view: { Self → SectionView };

    /// Which of the two sections it is.
    ghost KIND: { SectionKind };

    /// The section's reader.
    fn section(&self) -> &R
        ensures { R.position result.now ≡ (view self.now).position };

    /// Whether an entry of length zero ends the section. If not, it is skipped.
    fn has_zero_terminator() -> bool
        ensures { result ≡ zero_length_ends KIND };

    /// Whether an entry with this id is a CIE.
    fn is_cie(format: Format, id: u64) -> bool
        ensures { result ≡ (id == cie_id KIND format) };

    /// The width of the id of an entry in this format.
    fn cie_offset_encoding(format: Format) -> CieOffsetEncoding
        ensures { width_of result ≡ id_width KIND format };

    /// The offset in the section of the CIE to which an FDE points. `offset` is the FDE's id, and
    /// `base` is the offset of the id in the section. Returns `None` if the CIE would begin before
    /// the start of the section.
    fn resolve_cie_offset(&self, base: R::Offset, offset: R::Offset) -> Option<R::Offset>
        ensures { ok_or (option_map R.Offset.number result)
            (OffsetOutOfBounds (R.Offset.number offset))
            ≡ cie_offset_from KIND (R.Offset.number base) (R.Offset.number offset) };

    /// Whether a CIE of this version has fields for the sizes of an address and of a segment
    /// selector.
    fn has_address_and_segment_sizes(version: u8) -> bool
        ensures { result ≡ has_sizes KIND version };

    /// The size of an address in bytes, 1, 2, 4 or 8, for a CIE that has no such field.
    fn address_size(&self) -> u8
        ensures { result ≡ (view self.now).address_size };

    /// Which vendor opcodes are known.
    fn vendor(&self) -> Vendor
        ensures { result ≡ (view self.now).vendor };

    /// The properties name this kind of section.
    ghost kind: { (s : Self) → (view s).kind ≡ KIND };

    /// The size of an address is 1, 2, 4 or 8.
    ghost sized: { (s : Self) → IsAddressSize (view s).address_size };

    /// The section's places are in order, within its bytes, and fit the offset type.
    ghost sound: { (s : Self) → IsSound (view s).position };

    /// The section's greatest offset is that of the reader's offset type.
    ghost greatest: { (s : Self) → (view s).position.source.greatest ≡ R.Offset.GREATEST };
}
