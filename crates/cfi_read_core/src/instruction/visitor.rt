//! What is done with an instruction that is read: it is visited (DWARF 5 section 6.4.2).
ghost use Rattle.std.specs.Prelude.{◌≡◌};
ghost use Rattle.cfi_read_core.specs.declared.instruction.CallFrameInstruction as declared;
ghost use Rattle.cfi_read_core.specs.declared.instruction.CallFrameInstruction.TheVariants
    as instruction;

use crate::Register;
use crate::instruction::CallFrameInstruction;

/// What is done with an instruction as soon as it is read, to a target of type `C`.
///
/// Each kind of instruction that compilers write most has a method, which gets its operands; any
/// instruction can come to `other`, as a value. It means the same to a visitor either way.
pub trait InstructionVisitor<T, C> {
    /// What a visit returns.
    type Answer: Drop;

    /// What a visit of the instruction makes of the target, and returns.
    ghost visits: { Self → declared.CallFrameInstruction T → C → C → Self.Answer → Type 0 };

    /// `DW_CFA_advance_loc`, with an operand of any size.
    #[inline(always)]
    fn advance(&self, target: &mut C, delta: u32) -> Self::Answer
        ensures { visits self.now (instruction.AdvanceLoc delta) target.old target.new result }
    {
        self.other(target, CallFrameInstruction::AdvanceLoc { delta })
    }

    /// `DW_CFA_offset`.
    #[inline(always)]
    fn offset(&self, target: &mut C, register: Register, factored_offset: u64) -> Self::Answer
        ensures { visits self.now (instruction.Offset register factored_offset)
            target.old target.new result }
    {
        let instruction = CallFrameInstruction::Offset {
            register,
            factored_offset,
        };
        self.other(target, instruction)
    }

    /// `DW_CFA_restore`.
    #[inline(always)]
    fn restore(&self, target: &mut C, register: Register) -> Self::Answer
        ensures { visits self.now (instruction.Restore register) target.old target.new result }
    {
        self.other(target, CallFrameInstruction::Restore { register })
    }

    /// `DW_CFA_def_cfa`.
    #[inline(always)]
    fn def_cfa(&self, target: &mut C, register: Register, offset: u64) -> Self::Answer
        ensures { visits self.now (instruction.DefCfa register offset)
            target.old target.new result }
    {
        self.other(target, CallFrameInstruction::DefCfa { register, offset })
    }

    /// `DW_CFA_def_cfa_register`.
    #[inline(always)]
    fn def_cfa_register(&self, target: &mut C, register: Register) -> Self::Answer
        ensures { visits self.now (instruction.DefCfaRegister register)
            target.old target.new result }
    {
        self.other(target, CallFrameInstruction::DefCfaRegister { register })
    }

    /// `DW_CFA_def_cfa_offset`.
    #[inline(always)]
    fn def_cfa_offset(&self, target: &mut C, offset: u64) -> Self::Answer
        ensures { visits self.now (instruction.DefCfaOffset offset) target.old target.new result }
    {
        self.other(target, CallFrameInstruction::DefCfaOffset { offset })
    }

    /// `DW_CFA_remember_state`.
    #[inline(always)]
    fn remember_state(&self, target: &mut C) -> Self::Answer
        ensures { visits self.now instruction.RememberState target.old target.new result }
    {
        self.other(target, CallFrameInstruction::RememberState)
    }

    /// `DW_CFA_restore_state`.
    #[inline(always)]
    fn restore_state(&self, target: &mut C) -> Self::Answer
        ensures { visits self.now instruction.RestoreState target.old target.new result }
    {
        self.other(target, CallFrameInstruction::RestoreState)
    }

    /// `DW_CFA_nop`.
    #[inline(always)]
    fn nop(&self, target: &mut C) -> Self::Answer
        ensures { visits self.now instruction.Nop target.old target.new result }
    {
        self.other(target, CallFrameInstruction::Nop)
    }

    /// Any instruction, as a value.
    fn other(&self, target: &mut C, instruction: CallFrameInstruction<T>) -> Self::Answer
        ensures { visits self.now instruction target.old target.new result };
}

/// Returns the instruction as a value. It has no target.
#[derive(Clone, Copy, Debug)]
pub struct InstructionValue;

impl<T: Copy> InstructionVisitor<T, ()> for InstructionValue {
    type Answer = CallFrameInstruction<T>;

    ghost visits = { λ _ instruction _ _ answer. answer ≡ instruction };

    #[inline(always)]
    fn other(
        &self,
        _target: &mut (),
        instruction: CallFrameInstruction<T>,
    ) -> CallFrameInstruction<T>
        ensures { result ≡ instruction }
    {
        instruction
    }
}
