//! What a walk is made of: steps from a frame to its caller's, and the frames that it writes.
ghost use Rattle.std.specs.Prelude.{◌≡◌, ◌≤◌, ℕ, length, List, Option, Result, Err};
ghost use Rattle.cfi_step.specs.declared.step.Caller.{Caller};
ghost use Rattle.cfi_step.specs.declared.walk.End.{End};
ghost use Rattle.cfi_step.specs.declared.walk.End.TheVariants.{NoRoom};
ghost use Rattle.cfi_step.specs.declared.walk.Start.{Start};
ghost use Rattle.cfi_step.specs.Walks.{State};

use crate::step::Caller;
use crate::walk::{End, Start};

/// The steps of a walk, from a frame to its caller's, with a cache of rows in slots `K` and a
/// context `C`.
pub trait Steps<K, C> {
    /// What a step returns, and leaves in the room for the caller's registers.
    ghost is_step: { Self → State → Result Caller End → List (Option ℕ) → Type 0 };

    /// Whether a step may be made with a cache.
    ghost can_step: { Self → List K → Type 0 };

    /// Which rows steps may have kept.
    ghost keeps: { Self → List K → List K → Type 0 };

    /// The step from a frame, or why the walk ends there: not for want of room.
    fn step(
        &self,
        cache: &mut [K],
        ctx: &mut C,
        at: &Start,
        registers: &[Option<u64>],
        caller: &mut [Option<u64>],
    ) -> Result<Caller, End>
        requires room { length caller.old ≤ 0x10000 }
        requires can { can_step self.now cache.old }
        ensures step { is_step self.now
            (record { at = at.now; registers = registers.now; caller = caller.old })
            result caller.new }
        ensures room { result ≡ Err NoRoom → ⊥ }
        ensures kept { keeps self.now cache.old cache.new };

    /// They may have kept none.
    ghost keeps_none: { (s : Self) (cache : List K) → keeps s cache cache };

    /// One step may follow another.
    ghost keeps_then: { (s : Self) (old next new : List K) →
        keeps s old next → keeps s next new → keeps s old new };
}

/// A frame as a walk writes it.
pub trait WalkFrame: Copy {
    /// The frame, by where it is and its step.
    ghost written: { Start → Result Caller End → Self };

    /// The frame as it is written.
    fn of(at: &Start, step: Result<Caller, End>) -> Self
        ensures { result ≡ written at.now step };
}
