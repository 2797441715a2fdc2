//! A storage of the caller's own.
use arrayvec::ArrayVec;
use gimli_cfi::{
    BaseAddresses, EhFrame, Error, Reader, ReaderOffset, Register, RegisterRule, UnwindContext,
    UnwindContextStorage, UnwindTableRow, row_by_scan,
};
use std::alloc::Global;

/// Room for twenty rules in a row and for two rows, inside the context.
pub struct Small;

impl<T: ReaderOffset> UnwindContextStorage<T> for Small {
    type Rules = ArrayVec<(Register, RegisterRule<T>), 20>;

    type Stack = ArrayVec<UnwindTableRow<T, Self::Rules>, 2>;

    ghost use Rattle.std.proofs.Common.{lit≤};

    ghost has_room = { lit≤ tt };
}

/// The end of the row of an address, in the small storage.
pub fn end_in_small<R: Reader<Offset = usize>>(
    alloc: Global,
    frame: &EhFrame<R>,
    bases: &BaseAddresses,
    address: u64,
) -> Result<u64, Error> {
    let mut ctx = UnwindContext::<usize, Small>::new_in(alloc)?;
    Ok(row_by_scan(frame, bases, &mut ctx, address)?.end_address())
}
