//! A function, as its FDE describes it.
ghost use Rattle.std.specs.Prelude.{◌≡◌};
ghost use Rattle.cfi_unwind.specs.FdeViews.{fde_view};
ghost use Rattle.cfi_step.specs.Functions.{function_of};

use gimli_cfi::{FrameDescriptionEntry, Pointer, Reader, ReaderOffset, Register};

/// What an FDE and its CIE say of a function, beside its rows.
#[derive(Clone, Copy, Debug, PartialEq, Eq)]
pub struct Function {
    /// Its first address in the file.
    pub start: u64,
    /// The first address after it. The end wraps at the size of an address.
    pub end: u64,
    /// The language-specific data area, if it has one.
    pub lsda: Option<Pointer>,
    /// The personality routine, if it has one.
    pub personality: Option<Pointer>,
    /// The register that holds the return address.
    pub return_address: Register,
    /// Whether it is a signal trampoline: its caller was interrupted.
    pub is_signal_trampoline: bool,
    /// The offset of the FDE in the section.
    pub offset: u64,
}

/// What the FDE says of its function.
pub fn function_of<R: Reader>(fde: &FrameDescriptionEntry<R>) -> Function
    ensures { result ≡ function_of (fde_view R.position R.Offset.number fde.now) }
{
    Function {
        start: fde.initial_address(),
        end: fde.end_address(),
        lsda: fde.lsda(),
        personality: fde.personality(),
        return_address: fde.cie().return_address_register(),
        is_signal_trampoline: fde.is_signal_trampoline(),
        offset: fde.offset().into_u64(),
    }
}
