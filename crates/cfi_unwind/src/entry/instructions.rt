//! The instructions of FDEs (DWARF 5 section 6.4.2).
ghost use Rattle.std.specs.Prelude.{◌≡◌};
ghost use Rattle.cfi_parts.specs.InstructionIterators.{instruction_reader};
ghost use Rattle.cfi_parts.specs.InstructionReaders.{ReadsIn, instructions_left};
ghost use Rattle.cfi_entry.specs.Sections.{section_of};
ghost use Rattle.cfi_entry.specs.EntryInstructions.{fde_instructions};
ghost use Rattle.cfi_unwind.specs.FdeViews.{IsFdeOf, fde_view};

use crate::entry::fde::FrameDescriptionEntry;
use cfi_entry::cie::address_size_of;
use cfi_entry::in_section::instructions_in;
use cfi_parts::instruction::CallFrameInstructionIter;
use cfi_parts::pointer::BaseAddresses;
use cfi_read_core::Reader;
use cfi_read_core::section_properties::_UnwindSectionPrivate;

impl<R: Reader> FrameDescriptionEntry<R> {
    /// Iterates over the FDE's own instructions, which follow those of its CIE. None is read yet.
    ///
    /// The FDE must be of this section; the bases are those of the section's entries. Expressions
    /// are in the section.
    #[inline(always)]
    pub fn instructions<'a, Section: _UnwindSectionPrivate<R>>(
        &self,
        section: &'a Section,
        bases: &'a BaseAddresses,
    ) -> CallFrameInstructionIter<'a, R>
        requires { IsFdeOf R.position (Section.view section.now).position self.now }
        ensures left { instructions_left (instruction_reader R.position result)
            ≡ fde_instructions (section_of (Section.view section.now) bases.now)
            (fde_view R.position R.Offset.number self.now) }
        ensures within { ReadsIn (Section.view section.now).position
            (instruction_reader R.position result) }
    {
        let encoding = self.cie.fde_address_encoding();
        let size = address_size_of(&self.cie);
        instructions_in(section, bases, self.instructions, encoding, size)
    }
}
