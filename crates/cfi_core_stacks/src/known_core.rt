//! A core file, as far as it was read.
ghost use Rattle.std.specs.List.Sorted.{IsNonDecreasingBy};
ghost use Rattle.cfi_elf.specs.declared.program_header.ProgramHeader.{ProgramHeader as Header};

use cfi_cores::Core;
use cfi_elf::{Image, ProgramHeader};

/// A core file that was read whole, or of which parts were read.
#[derive(Drop)]
pub(crate) struct KnownCore<'c, 'run> {
    /// The core; of parts, as `PartialCore` has it.
    pub(crate) core: &'c Core<'run>,
    /// The parts that have the stacks; `None` where the file was read whole.
    pub(crate) parts: Option<StackParts<'c>>,
}

/// The parts that were read of a core file, and where its memory is in it.
#[derive(Drop)]
pub(crate) struct StackParts<'p> {
    pub(crate) image: Image<'p>,
    /// The headers of the segments, in the order of their addresses.
    pub(crate) places: &'p [ProgramHeader],
    ghost in_order: { IsNonDecreasingBy (λ (h : Header). h.p_vaddr) places.now },
}
