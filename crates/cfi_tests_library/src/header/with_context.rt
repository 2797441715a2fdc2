//! The checks that take a context, which is made here once for all of them: what makes one takes
//! longer to prove than most of them.
use crate::changing_cies::cies_that_change;
use crate::header::asked::{
    CUT, FDES, INDIRECT, Readers, TO_THE_CIE, cut, each_call_asks_once_an_fde,
};
use crate::header::counted::what_each_call_reads;
use crate::header::long::what_long_tables_read;
use crate::header::searches::{HEADER, SECTION, rows_passed_at_once};
use crate::own_section::{TWO_CIES, a_scan_reads_a_cie_once};
use crate::rows::{Slice, slice};
use gimli_cfi::{Reader, StoreOnHeap, UnwindContext, UnwindContextStorage};
use std::process::Abort;
use std::test::Fail;

/// The checks with a context of one storage, of these readers and of two CIEs.
fn check_context<R: Reader<Offset = usize>, S: UnwindContextStorage<usize>>(
    rt: &impl Abort,
    readers: &Readers<R>,
    two_cies: R,
    context: &mut UnwindContext<usize, S>,
) {
    rows_passed_at_once(rt, readers[1]);
    each_call_asks_once_an_fde(rt, readers, context);
    what_each_call_reads(rt, readers[0], readers[1], context);
    a_scan_reads_a_cie_once(rt, two_cies, context);
    cies_that_change(rt, two_cies, context);
}

/// The same with a fresh context.
fn check_fresh<R: Reader<Offset = usize>, S: UnwindContextStorage<usize>>(
    rt: &(impl Abort + AllocGlobal),
    readers: &Readers<R>,
    two_cies: R,
) -> Result<(), Fail> {
    let mut context: UnwindContext<usize, S> = UnwindContext::new_in(rt.alloc())?;
    check_context(rt, readers, two_cies, &mut context);
    what_long_tables_read(rt, &mut context)
}

#[test]
fn scans_and_tables(rt: HostRuntime) -> Result<(), Fail> {
    let fdes = slice(&FDES);
    let readers = [
        slice(&SECTION),
        slice(&HEADER),
        slice(&CUT),
        slice(&TO_THE_CIE),
        slice(&INDIRECT),
        fdes,
        cut(fdes, 68),
        cut(fdes, 66),
    ];
    check_fresh::<Slice, StoreOnHeap>(&rt, &readers, slice(&TWO_CIES))
}
