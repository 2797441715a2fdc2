//! A `get_cie` whose results change from call to call.
use crate::comparison::expect;
use crate::in_turn::{R7_8, R7_16, RETURN_ADDRESS, Row, row_of};
use gimli_cfi::{
    BaseAddresses, DebugFrame, DebugFrameOffset, Error, Reader, UnwindContext,
    UnwindContextStorage, UnwindSection,
};
use std::process::Abort;

/// A row, and how often the closure was called for it.
type Asked = (Result<Row, Error>, u32);

/// By a closure that returns the CIE at 0 for its first call, or refuses it, and the one at 20 for
/// those after it.
fn by_changing_cies<R: Reader<Offset = usize>, S: UnwindContextStorage<usize>>(
    section: &DebugFrame<R>,
    context: &mut UnwindContext<usize, S>,
    address: u64,
    refuses: bool,
) -> Asked {
    let bases = BaseAddresses::default();
    let mut asked = 0u32;
    let found = section.unwind_info_for_address(&bases, context, address, |from, bases, _offset| {
        asked = asked.saturating_add(1);
        if asked > 1 {
            return from.cie_from_offset(bases, DebugFrameOffset(20));
        }
        if refuses {
            return Err(Error::UnknownAugmentation);
        }
        from.cie_from_offset(bases, DebugFrameOffset(0))
    });
    match found {
        Ok(row) => (Ok(row_of(row)), asked),
        Err(refusal) => (Err(refusal), asked),
    }
}

/// Addresses, whether the first call is refused, and what is found in `TWO_CIES`.
const CASES: [(u64, bool, Asked); 4] = [
    (
        0x1000,
        false,
        (Ok(((0x1000, 0x1020), R7_8, 0, [RETURN_ADDRESS, None])), 1),
    ),
    (
        0x2000,
        false,
        (Ok(((0x2000, 0x2020), R7_16, 0, [RETURN_ADDRESS, None])), 2),
    ),
    (0x1000, true, (Err(Error::UnknownAugmentation), 1)),
    (0x2000, true, (Err(Error::UnknownAugmentation), 1)),
];

/// Checks those rows.
pub(crate) fn cies_that_change<R: Reader<Offset = usize>, S: UnwindContextStorage<usize>>(
    rt: &impl Abort,
    two_cies: R,
    context: &mut UnwindContext<usize, S>,
) {
    let section = DebugFrame::from(two_cies);
    for (address, refuses, asked) in &CASES {
        let found = by_changing_cies(&section, context, *address, *refuses);
        expect(rt, *address, &found, asked);
    }
}
