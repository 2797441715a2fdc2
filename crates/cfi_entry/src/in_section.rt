//! A section with the bases of its pointers, and with what its pointers and instructions are read.
ghost use Rattle.std.specs.Prelude.{◌≡◌};
ghost use Rattle.std.specs.Option.{option_map};
ghost use Rattle.cfi_read_core.specs.AddressSizes.{size_in_bytes};
ghost use Rattle.cfi_read_core.specs.CallFrameSections.{IsOf};
ghost use Rattle.cfi_read_core.specs.ReaderCalls.{extent_of};
ghost use Rattle.cfi_parts.specs.InstructionIterators.{instruction_reader};
ghost use Rattle.cfi_parts.specs.InstructionReaders.{ReadsIn, instructions_left};
ghost use Rattle.cfi_parts.specs.ReadingParameters.{pointer_context as context_of};
ghost use Rattle.cfi_entry.specs.Sections.{pointer_context, section_of};
ghost use Rattle.cfi_entry.specs.EntryInstructions.{instructions_in};

use cfi_parts::instruction::CallFrameInstructionIter;
use cfi_parts::pointer::{BaseAddresses, PointerEncodingParameters};
use cfi_read_core::address::AddressSize;
use cfi_read_core::section_properties::_UnwindSectionPrivate;
use cfi_read_core::{DwEhPe, Reader};

/// A section, with the bases of the pointers in its entries.
#[derive(Clone, Copy, Debug, PartialEq, Eq)]
pub struct InSection<'bases, S> {
    pub section: S,
    pub bases: &'bases BaseAddresses,
}

/// Returns the parameters of the pointers in the section's entries, with the first address of the
/// function to which a pointer may be relative, if there is one.
#[inline(always)]
pub(crate) fn pointers_in<'a, R: Reader, S: _UnwindSectionPrivate<R>>(
    section: &'a S,
    bases: &'a BaseAddresses,
    func_base: Option<u64>,
    address_size: AddressSize,
) -> PointerEncodingParameters<'a, R>
    ensures { context_of R.position result
        ≡ pointer_context (section_of (S.view section.now) bases.now) func_base
        (size_in_bytes address_size) }
{
    PointerEncodingParameters {
        bases: &bases.eh_frame,
        func_base,
        address_size,
        section: section.section(),
    }
}

/// Iterates over the instructions in what is left of the input, a part of the section. None is read
/// yet.
///
/// The address of `DW_CFA_set_loc` is a pointer of the encoding, or a plain address where there is
/// none.
#[inline(always)]
pub fn instructions_in<'a, R: Reader, S: _UnwindSectionPrivate<R>>(
    section: &'a S,
    bases: &'a BaseAddresses,
    input: R,
    address_encoding: Option<DwEhPe>,
    address_size: AddressSize,
) -> CallFrameInstructionIter<'a, R>
    requires { IsOf (R.position input) (S.view section.now).position }
    ensures left { instructions_left (instruction_reader R.position result)
        ≡ instructions_in (section_of (S.view section.now) bases.now) (size_in_bytes address_size)
        (option_map (λ e. e.0) address_encoding) (extent_of (R.position input)) }
    ensures within { ReadsIn (S.view section.now).position (instruction_reader R.position result) }
{
    let pointers = pointers_in(section, bases, None, address_size);
    CallFrameInstructionIter::new(input, address_encoding, pointers, section.vendor())
}
