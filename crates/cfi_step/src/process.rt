//! The frames of a stack of a process, by its modules.
ghost use Rattle.std.specs.Prelude.{◌≡◌, ◌≤◌, ⊤, drop, length, take, true, Err, None};
ghost use Rattle.cfi_read_core.specs.AddressSizes.{size_in_bytes};
ghost use Rattle.cfi_step.specs.CachedRows.{AreRightFor, StayRightFor};
ghost use Rattle.cfi_step.specs.ModuleLists.{module_list};
ghost use Rattle.cfi_step.specs.Walks.{IsStepFrom, IsWalk};

use crate::abi::Abi;
use crate::module_steps::step_in_kept;
use crate::modules::Modules;
use crate::rows::RowRules;
use crate::slots::{NoRow, RowSlot};
use crate::step::{Caller, row_address};
use crate::steps::Steps;
use crate::walk::{End, StackFrame, Start, Walk, checked, write_frames};
use cfi_expression::{AddressSize, Frame, Memory};
use gimli_cfi::{Reader, UnwindContext, UnwindContextStorage};
use std::alloc::AllocError;

/// A process whose stack is walked.
pub struct Process<'a, R, M> {
    /// Its modules.
    pub modules: Modules<'a, R>,
    /// Its memory.
    pub memory: &'a M,
    /// The size of an address.
    pub address_size: AddressSize,
    /// Its ABI.
    pub abi: Abi,
}

impl<R, M> Clone for Process<'_, R, M> {
    ghost is_clone = { λ x y. y ≡ x };

    ghost is_infallible = { λ _. ⊤ };

    fn clone(&self) -> std::result::Result<Self, AllocError> {
        Ok(*self)
    }
}

impl<R, M> Copy for Process<'_, R, M> {}

/// Writes the frames of a stack, from the innermost one out, as far as there is room.
///
/// `pc` and `registers` are those of the innermost frame; a register that is not known is `None`.
/// `caller` has as much room. Afterwards `registers` are those of the last frame that was written,
/// and `caller` those of its caller, if it was found. If the walk ends for want of room, both are
/// those of the last frame's caller; if there is no room at all, neither is written. Over a fixed
/// storage it does not allocate.
pub fn unwind<R: Reader, S: UnwindContextStorage<R::Offset>, M: Memory>(
    process: &Process<'_, R, M>,
    ctx: &mut UnwindContext<R::Offset, S>,
    pc: u64,
    registers: &mut [Option<u64>],
    caller: &mut [Option<u64>],
    frames: &mut [StackFrame],
) -> Walk
    requires room { length registers.old ≤ 0x10000 }
    requires same_room { length caller.old ≡ length registers.old }
    ensures walk { IsWalk R.position R.Offset.number M.number_at
        S.Rules.limit S.Stack.limit S.Rules.copies_free process.now
        (record {
          at = record { pc = pc; is_interrupted = true; callee_cfa = None };
          registers = registers.old;
          caller = caller.old;
        })
        (take result.count frames.new) result.end registers.new caller.new }
    ensures rest { drop result.count frames.new ≡ drop result.count frames.old }
    ensures count { result.count ≤ length frames.new }
    ensures full { result.end ≡ End.NoRoom → result.count ≡ length frames.new }
{
    let mut none: [NoRow<R::Offset>; 0] = [];
    write_frames(process, &mut none, ctx, pc, registers, caller, frames)
}

/// The steps in the modules of a process. A module without a compiled table takes the rows that the
/// cache holds, and keeps others there.
impl<
    R: Reader,
    S: UnwindContextStorage<R::Offset>,
    K: RowSlot + RowRules<Offset = R::Offset>,
    M: Memory,
> Steps<K, UnwindContext<R::Offset, S>> for Process<'_, R, M> {
    ghost use Rattle.cfi_read_core.specs.AddressSizes.{size_in_bytes};
    ghost use Rattle.cfi_step.specs.CachedRows.{AreRightFor, StayRightFor};
    ghost use Rattle.cfi_step.specs.ModuleLists.{module_list};
    ghost use Rattle.cfi_step.specs.Walks.{IsStepFrom};

    ghost is_step = { IsStepFrom R.position R.Offset.number M.number_at
        S.Rules.limit S.Stack.limit S.Rules.copies_free };

    ghost can_step = { λ process. AreRightFor R.position R.Offset.number K.slot
        (size_in_bytes process.address_size) S.Rules.limit S.Stack.limit S.Rules.copies_free
        (module_list process.modules) };

    ghost keeps = { λ process. StayRightFor R.position R.Offset.number K.slot
        (size_in_bytes process.address_size) S.Rules.limit S.Stack.limit S.Rules.copies_free
        (module_list process.modules) };

    fn step(
        &self,
        cache: &mut [K],
        ctx: &mut UnwindContext<R::Offset, S>,
        at: &Start,
        registers: &[Option<u64>],
        caller: &mut [Option<u64>],
    ) -> Result<Caller, End> {
        step_from(self, cache, ctx, at, registers, caller)
    }

    ghost keeps_none = { λ process cache other alike right. right };

    ghost keeps_then = { λ process old next new first then other alike right.
        then other alike (first other alike right) };
}

/// The step from a frame, in the module whose code its address is in.
fn step_from<
    R: Reader,
    S: UnwindContextStorage<R::Offset>,
    K: RowSlot + RowRules<Offset = R::Offset>,
    M: Memory,
>(
    process: &Process<'_, R, M>,
    cache: &mut [K],
    ctx: &mut UnwindContext<R::Offset, S>,
    at: &Start,
    registers: &[Option<u64>],
    caller: &mut [Option<u64>],
) -> Result<Caller, End>
    requires room { length caller.old ≤ 0x10000 }
    requires right { AreRightFor R.position R.Offset.number K.slot
        (size_in_bytes process.now.address_size) S.Rules.limit S.Stack.limit S.Rules.copies_free
        (module_list process.now.modules) cache.old }
    ensures step { IsStepFrom R.position R.Offset.number M.number_at
        S.Rules.limit S.Stack.limit S.Rules.copies_free process.now
        (record { at = at.now; registers = registers.now; caller = caller.old })
        result caller.new }
    ensures room { result ≡ Err End.NoRoom → ⊥ }
    ensures kept { StayRightFor R.position R.Offset.number K.slot
        (size_in_bytes process.now.address_size) S.Rules.limit S.Stack.limit S.Rules.copies_free
        (module_list process.now.modules) cache.old cache.new }
{
    let address = row_address(at.pc, at.is_interrupted);
    match process.modules.module_of(address) {
        None => Err(End::NoModule),
        Some(loaded) => {
            let frame = Frame {
                registers,
                memory: process.memory,
                address_size: process.address_size,
            };
            let abi = &process.abi;
            let step = step_in_kept(loaded, cache, ctx, address, abi, &frame, caller);
            checked(at, step)
        }
    }
}
