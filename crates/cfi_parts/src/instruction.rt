//! Reading call frame instructions (DWARF 5 sections 6.4.2 and 7.24). Their values are those of
//! `cfi_read_core::instruction`, which this module re-exports.
ghost use Rattle.std.specs.Prelude.{◌≡◌, ◌≤◌, ⊤};
ghost use Rattle.cfi_read_core.specs.MappedInstructions.{map_instruction};
ghost use Rattle.cfi_read_core.specs.ReaderCalls.{map_ok};
ghost use Rattle.cfi_parts.specs.InstructionReaders.{HasExpressionOf, IfFound, IsShorter};
ghost use Rattle.cfi_parts.specs.InstructionReaders.{MeetsNext, SameContext, SameSource};
ghost use Rattle.cfi_parts.specs.InstructionReaders.{StaysWithin};
ghost use Rattle.cfi_parts.specs.InstructionVisits.{VisitsNext};
ghost use Rattle.cfi_parts.specs.ReadingParameters.{NotBeforeSection, reader_at};

mod parse;

use crate::pointer::PointerEncodingParameters;
use cfi_read_core::instruction::visitor::{InstructionValue, InstructionVisitor};
pub use cfi_read_core::instruction::{CallFrameInstruction, UnwindExpression, visitor};
use cfi_read_core::{DwEhPe, Reader, Result, Vendor};
use parse::{InstructionParameters, visit_instruction};
use std::alloc::AllocError;

/// An iterator over the instructions of an entry (DWARF 5 sections 6.4.2 and 7.24).
///
/// Each instruction takes at least a byte, so there are no more than bytes. Does not allocate.
#[derive(Debug)]
pub struct CallFrameInstructionIter<'a, R: Reader> {
    input: R,
    parameters: InstructionParameters<'a, R>,
    ghost behind: { (R.position parameters.pointers.section.now).place ≤ (R.position input).place },
}

impl<R: Reader> Clone for CallFrameInstructionIter<'_, R> {
    ghost is_clone = { λ x y. y ≡ x };

    ghost is_infallible = { λ _. ⊤ };

    #[inline(always)]
    fn clone(&self) -> std::result::Result<Self, AllocError> {
        Ok(CallFrameInstructionIter {
            input: self.input,
            parameters: self.parameters,
        })
    }
}

impl<R: Reader> Copy for CallFrameInstructionIter<'_, R> {}

impl<'a, R: Reader> CallFrameInstructionIter<'a, R> {
    ghost use Rattle.cfi_parts.specs.InstructionIterators.{instruction_reader};

    /// Iterates over the instructions in the rest of `input`, which is in the section of
    /// `pointers`.
    ///
    /// The address of `DW_CFA_set_loc` is a pointer in this encoding, or a plain address if there
    /// is no encoding.
    #[inline(always)]
    pub fn new(
        input: R,
        address_encoding: Option<DwEhPe>,
        pointers: PointerEncodingParameters<'a, R>,
        vendor: Vendor,
    ) -> Self
        requires { NotBeforeSection R.position pointers input }
        ensures { instruction_reader R.position result ≡ reader_at R.position (record {
          address_encoding = address_encoding;
          pointers = pointers.entry;
          vendor = vendor;
        }) input }
    {
        CallFrameInstructionIter {
            input,
            parameters: InstructionParameters {
                address_encoding,
                pointers,
                vendor,
            },
        }
    }

    /// Reads the next instruction, or returns `None` at the end. Returns `None` from then on, also
    /// after an error. The expression of an instruction lies in the section, so that
    /// `UnwindExpression::get` succeeds for it.
    ///
    /// Returns `Error::UnexpectedEof` if the bytes end within an instruction,
    /// `Error::UnknownCallFrameInstruction` for an opcode that is unknown for the vendor,
    /// `Error::BadUnsignedLeb128`, `Error::BadSignedLeb128` or `Error::UnsupportedRegister` for an
    /// operand, and `Error::UnsupportedOffset` if the length of an expression does not fit the
    /// offset type. For the address of `DW_CFA_set_loc` it fails as `parse_encoded_pointer` and
    /// `Pointer::direct` do.
    #[inline(always)]
    pub fn next(&mut self) -> Result<Option<CallFrameInstruction<R::Offset>>>
        ensures met { MeetsNext R.Offset.number result
            (instruction_reader R.position self.old) (instruction_reader R.position self.new) }
        ensures context { SameContext
            (instruction_reader R.position self.old) (instruction_reader R.position self.new) }
        ensures source { SameSource
            (instruction_reader R.position self.old) (instruction_reader R.position self.new) }
        ensures fewer { IfFound result (λ _. IsShorter
            (instruction_reader R.position self.new) (instruction_reader R.position self.old)) }
        ensures expressions { IfFound result
            (HasExpressionOf R.Offset.number (instruction_reader R.position self.old)) }
        ensures within { StaysWithin
            (instruction_reader R.position self.old) (instruction_reader R.position self.new) }
    {
        self.visit_next(&InstructionValue, &mut ())
    }

    /// Reads the next instruction and visits it, with a target. Returns what the visit returned, or
    /// `None` at the end, and fails, as `next` does; the target then stays as it is.
    #[inline(always)]
    pub fn visit_next<C, V: InstructionVisitor<R::Offset, C>>(
        &mut self,
        visitor: &V,
        target: &mut C,
    ) -> Result<Option<V::Answer>>
        ensures visits { VisitsNext R.Offset.number (V.visits visitor.now)
            (instruction_reader R.position self.old) (instruction_reader R.position self.new)
            target.old target.new result }
        ensures context { SameContext
            (instruction_reader R.position self.old) (instruction_reader R.position self.new) }
        ensures source { SameSource
            (instruction_reader R.position self.old) (instruction_reader R.position self.new) }
        ensures within { StaysWithin
            (instruction_reader R.position self.old) (instruction_reader R.position self.new) }
    {
        if self.input.is_empty() {
            return Ok(None);
        }
        match visit_instruction(&self.parameters, &mut self.input, visitor, target) {
            Ok(answer) => Ok(Some(answer)),
            Err(refusal) => {
                self.input.empty();
                Err(refusal)
            }
        }
    }
}

impl<R: Reader> Iterator for CallFrameInstructionIter<'_, R> {
    type Item = Result<CallFrameInstruction<R::Offset>>;

    ghost use Rattle.std.specs.Iterator.{YieldsFirstBy, item_count};
    ghost use Rattle.cfi_parts.specs.InstructionIterators.{instruction_items};

    ghost next_gives = { YieldsFirstBy (map_ok (map_instruction R.Offset.number))
        (λ it. instruction_items R.position it) };

    ghost remaining = { item_count (λ it. instruction_items R.position it) };

    #[inline(always)]
    fn next(&mut self) -> Option<Result<CallFrameInstruction<R::Offset>>> {
        CallFrameInstructionIter::next(self).transpose()
    }
}
