//! What a CIE says of the return from a frame.
ghost use Rattle.std.specs.Prelude.{◌≡◌};
ghost use Rattle.cfi_unwind.specs.FdeViews.{fde_view};
ghost use Rattle.cfi_compiled.specs.FrameParts.{facts_of};

use cfi_read_core::{Reader, Register};
use cfi_unwind::entry::FrameDescriptionEntry;

/// What a step to the caller needs of a CIE beside its rows (DWARF 5 section 6.4.1).
#[derive(Clone, Copy, Debug)]
pub(crate) struct CieFacts {
    /// The register that holds the return address.
    pub(crate) return_address: Register,
    /// Whether its FDEs are signal trampolines: the augmentation has the letter `S`.
    pub(crate) is_signal_trampoline: bool,
}

/// What the CIE of an FDE says.
pub(crate) fn facts_of<R: Reader<Offset = usize>>(fde: &FrameDescriptionEntry<R>) -> CieFacts
    ensures { result ≡ facts_of (fde_view R.position (λ n. n) fde.now) }
{
    CieFacts {
        return_address: fde.cie().return_address_register(),
        is_signal_trampoline: fde.is_signal_trampoline(),
    }
}
