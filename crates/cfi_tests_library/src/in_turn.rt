//! The rows of an FDE one after the other, also after errors; and that a context can be used again
//! after them.
use crate::comparison::expect;
use crate::rows::{Range, Slice, slice};
use arrayvec::ArrayVec;
use cfi_guide::hexadecimal::{THREE_ROWS, bytes_of};
use gimli_cfi::{
    ArrayLike, BaseAddresses, CfaRule, DebugFrame, EndianSlice, Error, LittleEndian, RA_SIGN_STATE,
    Reader, ReaderOffset, ReaderOffsetId, Register, RegisterRule, StoreOnHeap, UnwindContext,
    UnwindContextStorage, UnwindExpression, UnwindTable, UnwindTableRow, Vendor, row_by_scan,
    scan_for_fde,
};
use std::process::Abort;
use std::test::Fail;

/// A storage with room for one rule and one row.
struct StoreOne;

impl<T: ReaderOffset> UnwindContextStorage<T> for StoreOne {
    type Rules = ArrayVec<(Register, RegisterRule<T>), 1>;

    type Stack = ArrayVec<UnwindTableRow<T, Self::Rules>, 1>;

    ghost use Rattle.std.proofs.Common.{lit≤};

    ghost has_room = { lit≤ tt };
}

/// A register that has a rule.
type Rule = Option<(Register, RegisterRule<usize>)>;

/// The addresses of a row, its CFA, the size of arguments, and its first two rules.
pub(crate) type Row = (Range, CfaRule<usize>, u64, [Rule; 2]);

pub(crate) fn row_of<A: ArrayLike<Item = (Register, RegisterRule<usize>)>>(
    row: &UnwindTableRow<usize, A>,
) -> Row {
    let mut rules = row.registers();
    (
        (row.start_address(), row.end_address()),
        *row.cfa(),
        row.saved_args_size(),
        [rules.next().copied(), rules.next().copied()],
    )
}

/// What a call of `next_row` returns.
type Step = Result<Option<Row>, Error>;

/// What the first five calls for an FDE return; or the error of its CIE.
type Steps = Result<[Step; 5], Error>;

fn step<R: Reader<Offset = usize>, S: UnwindContextStorage<usize>>(
    table: &mut UnwindTable<'_, '_, R, S>,
) -> Step {
    match table.next_row()? {
        Some(row) => Ok(Some(row_of(row))),
        None => Ok(None),
    }
}

fn steps<R: Reader<Offset = usize>, S: UnwindContextStorage<usize>>(
    section: &DebugFrame<R>,
    context: &mut UnwindContext<usize, S>,
    address: u64,
) -> Steps {
    let bases = BaseAddresses::default();
    let fde = scan_for_fde(section, &bases, address)?;
    let mut table = UnwindTable::new(section, &bases, context, &fde)?;
    let mut found = [Ok(None); 5];
    for place in found.iter_mut() {
        *place = step(&mut table);
    }
    Ok(found)
}

/// A section, an address of its FDE, and the rows of the FDE.
type Case = (&'static str, u64, Steps);

pub(crate) const R7_8: CfaRule<usize> = CfaRule::RegisterAndOffset {
    register: Register(7),
    offset: 8,
};

pub(crate) const R7_16: CfaRule<usize> = CfaRule::RegisterAndOffset {
    register: Register(7),
    offset: 16,
};

const R7_32: CfaRule<usize> = CfaRule::RegisterAndOffset {
    register: Register(7),
    offset: 32,
};

const R7_48: CfaRule<usize> = CfaRule::RegisterAndOffset {
    register: Register(7),
    offset: 48,
};

const R0_0: CfaRule<usize> = CfaRule::RegisterAndOffset {
    register: Register(0),
    offset: 0,
};

const EXPRESSION: CfaRule<usize> = CfaRule::Expression(UnwindExpression {
    offset: 48,
    length: 1,
});

const SAVED_FRAME_POINTER: Rule = Some((Register(6), RegisterRule::Offset(-16)));

pub(crate) const RETURN_ADDRESS: Rule = Some((Register(16), RegisterRule::Offset(-8)));

const SIGNED: Rule = Some((RA_SIGN_STATE, RegisterRule::Constant(1)));

const UNSIGNED: Rule = Some((RA_SIGN_STATE, RegisterRule::Constant(0)));

const CASES: [Case; 17] = [
    (
        "10000000 ffffffff 04000800 017810 0c0708 9001 \
 19000000 00000000 0010000000000000 2000000000000000 0a 0e20 42 0b",
        0x1000,
        Ok([
            Ok(Some(((0x1000, 0x1002), R7_32, 0, [RETURN_ADDRESS, None]))),
            Ok(Some(((0x1002, 0x1020), R7_8, 0, [RETURN_ADDRESS, None]))),
            Ok(None),
            Ok(None),
            Ok(None),
        ]),
    ),
    (
        "11000000 ffffffff 04000800 017810 0c0708 9001 41 \
 14000000 00000000 0010000000000000 2000000000000000",
        0x1000,
        Ok([
            Ok(Some(((0x1000, 0x1020), R7_8, 0, [RETURN_ADDRESS, None]))),
            Ok(None),
            Ok(None),
            Ok(None),
            Ok(None),
        ]),
    ),
    (
        "12000000 ffffffff 04000800 017810 0c0708 9001 8602 \
 17000000 00000000 0010000000000000 2000000000000000 0a0a0a",
        0x1000,
        Ok([
            Err(Error::StackFull),
            Ok(Some((
                (0x1000, 0x1020),
                R7_8,
                0,
                [SAVED_FRAME_POINTER, RETURN_ADDRESS],
            ))),
            Ok(None),
            Ok(None),
            Ok(None),
        ]),
    ),
    (
        "10000000 ffffffff 04000800 017810 0c0708 9001 \
 18000000 00000000 0010000000000000 2000000000000000 0a0a0a0a",
        0x1000,
        Ok([
            Err(Error::StackFull),
            Ok(Some(((0x1000, 0x1020), R7_8, 0, [RETURN_ADDRESS, None]))),
            Ok(None),
            Ok(None),
            Ok(None),
        ]),
    ),
    (
        "15000000 ffffffff 04000800 017810 0c0708 9001 8602 0a0a0a \
 14000000 00000000 0010000000000000 2000000000000000",
        0x1000,
        Err(Error::StackFull),
    ),
    (
        "11000000 ffffffff 04000800 017810 0c0708 0a 9001 \
 17000000 00000000 0010000000000000 2000000000000000 0b 41 d0",
        0x1000,
        Ok([
            Ok(Some(((0x1000, 0x1001), R7_8, 0, [None, None]))),
            Ok(Some(((0x1001, 0x1020), R7_8, 0, [RETURN_ADDRESS, None]))),
            Ok(None),
            Ok(None),
            Ok(None),
        ]),
    ),
    (
        "10000000 ffffffff 04000800 017810 0c0708 9001 \
 16000000 00000000 0010000000000000 2000000000000000 41 02",
        0x1000,
        Ok([
            Ok(Some(((0x1000, 0x1001), R7_8, 0, [RETURN_ADDRESS, None]))),
            Err(Error::UnexpectedEof(ReaderOffsetId(46))),
            Ok(Some(((0x1001, 0x1020), R7_8, 0, [RETURN_ADDRESS, None]))),
            Ok(None),
            Ok(None),
        ]),
    ),
    (
        "0b000000 ffffffff 04000800 017810 \
 1a000000 00000000 0010000000000000 2000000000000000 2d 41 0a 2d 41 0b",
        0x1000,
        Ok([
            Ok(Some(((0x1000, 0x1001), R0_0, 0, [SIGNED, None]))),
            Ok(Some(((0x1001, 0x1002), R0_0, 0, [UNSIGNED, None]))),
            Ok(Some(((0x1002, 0x1020), R0_0, 0, [SIGNED, None]))),
            Ok(None),
            Ok(None),
        ]),
    ),
    (
        "19000000 ffffffff 04000800 80808080808080808001 7810 0c0708 9001 \
 15000000 00000000 0010000000000000 2000000000000000 42",
        0x1000,
        Ok([
            Ok(Some(((0x1000, 0x1000), R7_8, 0, [RETURN_ADDRESS, None]))),
            Ok(Some(((0x1000, 0x1020), R7_8, 0, [RETURN_ADDRESS, None]))),
            Ok(None),
            Ok(None),
            Ok(None),
        ]),
    ),
    (
        "10000000 ffffffff 04000400 017810 0c0708 9001 \
 0d000000 00000000 feffffff 01000000 6a",
        0xfffffffe,
        Ok([
            Err(Error::AddressOverflow),
            Ok(Some(((0xfffffffe, 0xffffffff), R7_8, 0, [RETURN_ADDRESS, None]))),
            Ok(None),
            Ok(None),
            Ok(None),
        ]),
    ),
    (
        "10000000 ffffffff 04000800 017810 0c0708 9001 \
 1d000000 00000000 0010000000000000 2000000000000000 01 0010000000000000",
        0x1000,
        Ok([
            Ok(Some(((0x1000, 0x1000), R7_8, 0, [RETURN_ADDRESS, None]))),
            Ok(Some(((0x1000, 0x1020), R7_8, 0, [RETURN_ADDRESS, None]))),
            Ok(None),
            Ok(None),
            Ok(None),
        ]),
    ),
    (
        "10000000 ffffffff 04000800 017810 0c0708 9001 \
 1b000000 00000000 0010000000000000 2000000000000000 8602 0f0130 0d06",
        0x1000,
        Ok([
            Err(Error::CfiInstructionInInvalidContext),
            Ok(Some((
                (0x1000, 0x1020),
                EXPRESSION,
                0,
                [SAVED_FRAME_POINTER, RETURN_ADDRESS],
            ))),
            Ok(None),
            Ok(None),
            Ok(None),
        ]),
    ),
    (
        "10000000 ffffffff 04000800 017810 0c0708 9001 \
 1b000000 00000000 0010000000000000 2000000000000000 2e10 0a 2e20 41 0b",
        0x1000,
        Ok([
            Ok(Some(((0x1000, 0x1001), R7_8, 32, [RETURN_ADDRESS, None]))),
            Ok(Some(((0x1001, 0x1020), R7_8, 16, [RETURN_ADDRESS, None]))),
            Ok(None),
            Ok(None),
            Ok(None),
        ]),
    ),
    (
        "10000000 ffffffff 04000800 017810 0c0708 9001 \
 1f000000 00000000 0010000000000000 2000000000000000 0a 0e20 0a 0e30 41 0b 42 0b 43",
        0x1000,
        Ok([
            Ok(Some(((0x1000, 0x1001), R7_48, 0, [RETURN_ADDRESS, None]))),
            Ok(Some(((0x1001, 0x1003), R7_32, 0, [RETURN_ADDRESS, None]))),
            Ok(Some(((0x1003, 0x1006), R7_8, 0, [RETURN_ADDRESS, None]))),
            Ok(Some(((0x1006, 0x1020), R7_8, 0, [RETURN_ADDRESS, None]))),
            Ok(None),
        ]),
    ),
    (
        "10000000 ffffffff 04000800 017810 0c0708 9001 \
 17000000 00000000 0010000000000000 2000000000000000 0b 0e10",
        0x1000,
        Ok([
            Err(Error::PopWithEmptyStack),
            Ok(Some(((0x1000, 0x1020), R7_16, 0, [RETURN_ADDRESS, None]))),
            Ok(None),
            Ok(None),
            Ok(None),
        ]),
    ),
    (
        "0b000000 ffffffff 04000800 017810 \
 1e000000 00000000 0010000000000000 2000000000000000 2d 2d 41 0a 2d 2d 2d 42 0b 2d",
        0x1000,
        Ok([
            Ok(Some(((0x1000, 0x1001), R0_0, 0, [UNSIGNED, None]))),
            Ok(Some(((0x1001, 0x1003), R0_0, 0, [SIGNED, None]))),
            Ok(Some(((0x1003, 0x1020), R0_0, 0, [SIGNED, None]))),
            Ok(None),
            Ok(None),
        ]),
    ),
    (
        "0c000000 ffffffff 04000800 017810 2d \
 17000000 00000000 0010000000000000 2000000000000000 2d 41 e2",
        0x1000,
        Ok([
            Ok(Some(((0x1000, 0x1001), R0_0, 0, [UNSIGNED, None]))),
            Ok(Some(((0x1001, 0x1020), R0_0, 0, [SIGNED, None]))),
            Ok(None),
            Ok(None),
            Ok(None),
        ]),
    ),
];

/// Room for one rule: the second one is refused.
const ONE_RULE: [Case; 1] = [(
    "0e000000 ffffffff 04000800 017810 0c0708 \
 1a000000 00000000 0010000000000000 2000000000000000 8602 8603 8701",
    0x1000,
    Ok([
        Err(Error::TooManyRegisterRules),
        Ok(Some((
            (0x1000, 0x1020),
            R7_8,
            0,
            [Some((Register(6), RegisterRule::Offset(-24))), None],
        ))),
        Ok(None),
        Ok(None),
        Ok(None),
    ]),
)];

/// The rows of the FDE of `THREE_ROWS` for two addresses.
type After = [(u64, Result<Row, Error>); 2];

const FIRST: Result<Row, Error> = Ok(((0x1000, 0x1001), R7_8, 0, [RETURN_ADDRESS, None]));

const ON_HEAP: After = [
    (0x1000, FIRST),
    (
        0x1002,
        Ok((
            (0x1001, 0x1004),
            R7_16,
            0,
            [SAVED_FRAME_POINTER, RETURN_ADDRESS],
        )),
    ),
];

const OF_ONE: After = [(0x1000, FIRST), (0x1001, Err(Error::TooManyRegisterRules))];

fn row_by<R: Reader<Offset = usize>, S: UnwindContextStorage<usize>>(
    reader: R,
    context: &mut UnwindContext<usize, S>,
    address: u64,
) -> Result<Row, Error> {
    let section = DebugFrame::from(reader);
    match row_by_scan(&section, &BaseAddresses::default(), context, address) {
        Ok(row) => Ok(row_of(row)),
        Err(refusal) => Err(refusal),
    }
}

/// Checks the two rows.
fn check_after<R: Reader<Offset = usize>, S: UnwindContextStorage<usize>>(
    rt: &impl Abort,
    three_rows: R,
    context: &mut UnwindContext<usize, S>,
    after: &After,
    case: &str,
) {
    for (address, row) in after {
        expect(rt, case, &row_by(three_rows, context, *address), row);
    }
}

fn steps_in<R: Reader<Offset = usize>, S: UnwindContextStorage<usize>>(
    reader: R,
    context: &mut UnwindContext<usize, S>,
    address: u64,
) -> Steps {
    let mut section = DebugFrame::from(reader);
    section.set_vendor(Vendor::AArch64);
    steps(&section, context, address)
}

/// Checks the rows of each FDE, and the two rows with the context after it.
fn check_cases<S: UnwindContextStorage<usize>>(
    rt: &(impl Abort + AllocGlobal),
    context: &mut UnwindContext<usize, S>,
    cases: &[Case],
    after: &After,
) -> Result<(), Fail> {
    check_after(rt, slice(&THREE_ROWS), context, after, "a fresh context");
    for (text, address, rows) in cases {
        let bytes = bytes_of(rt.alloc(), text)?;
        let reader = EndianSlice::new(bytes.as_slice(), LittleEndian);
        expect(rt, *text, &steps_in(reader, context, *address), rows);
        check_after(rt, slice(&THREE_ROWS), context, after, text);
    }
    Ok(())
}

fn check_storage<S: UnwindContextStorage<usize>>(
    rt: &(impl Abort + AllocGlobal),
    cases: &[Case],
    after: &After,
) -> Result<(), Fail> {
    let mut context: UnwindContext<usize, S> = UnwindContext::new_in(rt.alloc())?;
    check_cases(rt, &mut context, cases, after)
}

#[test]
fn rows_in_turn_and_contexts_used_again(rt: HostRuntime) -> Result<(), Fail> {
    check_storage::<StoreOnHeap>(&rt, &CASES, &ON_HEAP)?;
    check_storage::<StoreOne>(&rt, &ONE_RULE, &OF_ONE)
}
