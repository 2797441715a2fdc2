//! A fixed storage with little room.
use arrayvec::ArrayVec;
use gimli_cfi::{ReaderOffset, Register, RegisterRule, UnwindContextStorage, UnwindTableRow};

/// Room for three rules in a row and for two rows, inside the context.
pub struct Small;

impl<T: ReaderOffset> UnwindContextStorage<T> for Small {
    type Rules = ArrayVec<(Register, RegisterRule<T>), 3>;

    type Stack = ArrayVec<UnwindTableRow<T, Self::Rules>, 2>;

    ghost use Rattle.std.proofs.Common.{lit≤};

    ghost has_room = { lit≤ tt };
}
