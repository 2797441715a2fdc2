//! The frames of a stack, from the innermost one out, by any steps (DWARF 5 section 6.4.4).
ghost use Rattle.std.specs.Prelude.{◌≡◌, ◌≤◌, drop, length, take, true, Err, List, None};
ghost use Rattle.cfi_step.specs.Walks.{IsWalkBy, caller_pc, checked, resumed, rises_above};
ghost use Rattle.cfi_step.specs.Walks.{written};

use crate::step::Caller;
use crate::steps::{Steps, WalkFrame};
use cfi_expression::FrameError;

/// Where a frame is.
#[derive(Clone, Copy)]
pub struct Start {
    /// The pc.
    pub pc: u64,
    /// Whether the frame was interrupted at the pc, as the innermost one.
    pub is_interrupted: bool,
    /// The canonical frame address of the frame that it called; `None` for the innermost one.
    pub callee_cfa: Option<u64>,
}

/// A frame of a stack.
#[derive(Clone, Copy, Debug, PartialEq, Eq)]
pub struct StackFrame {
    /// The pc: where the frame goes on, or was interrupted.
    pub pc: u64,
    /// Whether it was interrupted there.
    pub is_interrupted: bool,
    /// The canonical frame address; `None` if the walk ends here without it.
    pub cfa: Option<u64>,
}

/// Why a walk has no more frames.
#[derive(Clone, Copy, Debug, PartialEq, Eq)]
pub enum End {
    /// The last frame is the outermost one: its return address is undefined, or it is 0, which no
    /// call returns to, and was not interrupted.
    Outermost,
    /// The last frame's pc is in the code of no module.
    NoModule,
    /// The step from the last frame failed.
    Failed(FrameError),
    /// The canonical frame address of the last frame is not above that of the frame before it, and
    /// it is not the outermost one. So a corrupt stack gives no loop.
    NotRising,
    /// There is no room for another frame.
    NoRoom,
}

impl WalkFrame for StackFrame {
    ghost use Rattle.cfi_step.specs.Walks.{written};

    ghost written = { written };

    fn of(at: &Start, step: Result<Caller, End>) -> StackFrame {
        written(at, step)
    }
}

/// The frame as it is written, by its step.
pub fn written(at: &Start, step: Result<Caller, End>) -> StackFrame
    ensures { result ≡ written at.now step }
{
    StackFrame {
        pc: at.pc,
        is_interrupted: at.is_interrupted,
        cfa: match step {
            Ok(caller) => Some(caller.cfa),
            Err(_end) => None,
        },
    }
}

/// How many frames were written, and why there are no more.
#[derive(Clone, Copy, Debug, PartialEq, Eq)]
pub struct Walk {
    /// How many frames were written.
    pub count: usize,
    /// Why there are no more.
    pub end: End,
}

/// Writes the frames of a stack as `unwind`, by any steps, with any cache, in any form.
///
/// What the steps may have kept in the cache does not hinder the next step.
pub fn write_frames<K, C, P: Steps<K, C>, F: WalkFrame>(
    steps: &P,
    cache: &mut [K],
    ctx: &mut C,
    pc: u64,
    registers: &mut [Option<u64>],
    caller: &mut [Option<u64>],
    frames: &mut [F],
) -> Walk
    requires room { length registers.old ≤ 0x10000 }
    requires same_room { length caller.old ≡ length registers.old }
    requires can { (rows : List K) → length rows ≡ length cache.old →
        P.keeps steps.now cache.old rows → P.can_step steps.now rows }
    ensures walk { IsWalkBy F.written (P.is_step steps.now)
        (record {
          at = record { pc = pc; is_interrupted = true; callee_cfa = None };
          registers = registers.old;
          caller = caller.old;
        })
        (take result.count frames.new) result.end registers.new caller.new }
    ensures rest { drop result.count frames.new ≡ drop result.count frames.old }
    ensures count { result.count ≤ length frames.new }
    ensures full { result.end ≡ End.NoRoom → result.count ≡ length frames.new }
    ensures kept { P.keeps steps.now cache.old cache.new }
{
    let mut at = Start {
        pc,
        is_interrupted: true,
        callee_cfa: None,
    };
    for index in 0..frames.len() {
        let step = steps.step(cache, ctx, &at, registers, caller);
        frames[index] = F::of(&at, step);
        match resumed(step) {
            Ok(next) => {
                at = next;
                registers.copy_from_slice(caller);
            }
            Err(end) => {
                return Walk {
                    count: index + 1,
                    end,
                };
            }
        }
    }
    Walk {
        count: frames.len(),
        end: End::NoRoom,
    }
}

/// Where the caller's frame is, or why there is none.
pub fn resumed(step: Result<Caller, End>) -> Result<Start, End>
    ensures { result ≡ resumed step }
{
    let caller = step?;
    match caller_pc(&caller) {
        Some(pc) => Ok(Start {
            pc,
            is_interrupted: caller.is_interrupted,
            callee_cfa: Some(caller.cfa),
        }),
        None => Err(End::Outermost),
    }
}

/// The step, or why the walk ends there.
pub fn checked(at: &Start, step: Result<Caller, FrameError>) -> Result<Caller, End>
    ensures checked { result ≡ checked at.now step }
    ensures room { result ≡ Err End.NoRoom → ⊥ }
{
    match step {
        Ok(caller) => {
            if caller_pc(&caller).is_none() || rises(at, caller.cfa) {
                Ok(caller)
            } else {
                Err(End::NotRising)
            }
        }
        Err(error) => Err(End::Failed(error)),
    }
}

/// Where the caller goes on; `None` where the frame is the outermost one. No call returns to the
/// address 0.
fn caller_pc(caller: &Caller) -> Option<u64>
    ensures { result ≡ caller_pc caller.now }
{
    if caller.is_interrupted {
        return caller.pc;
    }
    match caller.pc {
        Some(0) => None,
        pc => pc,
    }
}

/// Whether the CFA is above that of the frame that was called. After a signal it need not be: the
/// handler may have a stack of its own.
fn rises(at: &Start, cfa: u64) -> bool
    ensures { result ≡ rises_above at.now.callee_cfa at.now.is_interrupted cfa }
{
    match at.callee_cfa {
        None => true,
        Some(callee) => at.is_interrupted || callee < cfa,
    }
}
