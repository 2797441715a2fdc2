//! Allocations of an unwind that fail in turn, by lists of the tests' own.
ghost use Rattle.std.proofs.Common.{sym, ◌∙◌};
ghost use Rattle.std.specs.Vec as vec;
ghost use Rattle.std.specs.Prelude.{◌≡◌, None, false};
ghost use Rattle.gimli_cfi.specs.Words.{refill-same};

use crate::comparison::expect;
use crate::rows::{Range, range_of};
use cfi_guide::hexadecimal::{THREE_ROWS, bytes_of};
use gimli_cfi::{
    ArrayLike, BaseAddresses, CopyList, DebugFrame, EndianSlice, Error, LittleEndian, Reader,
    ReaderOffset, Refused, Register, RegisterRule, UnwindContext, UnwindContextStorage,
    UnwindTableRow, Vendor, Why, row_by_scan,
};
use std::alloc::{AllocFailed, Global};
use std::cell::Cell;
use std::process::Abort;
use std::test::Fail;

/// An item that may tell the list that takes it which of its next growths fails; 0 is none of them.
trait Tells {
    fn told(&self) -> Option<u32>;
}

/// What a rule tells.
fn told_by<T: ReaderOffset>(rule: RegisterRule<T>) -> Option<u32> {
    match rule {
        RegisterRule::ValOffset(growth) => u32::try_from(growth).ok(),
        _ => None,
    }
}

/// The rules of the registers 65533 and 65535 tell.
impl<T: ReaderOffset> Tells for (Register, RegisterRule<T>) {
    fn told(&self) -> Option<u32> {
        match self.0 {
            Register(65533) => told_by(self.1),
            Register(65535) => told_by(self.1),
            _ => None,
        }
    }
}

/// In a row the rule of the register 65534 tells.
impl<T: ReaderOffset, A: ArrayLike<Item = (Register, RegisterRule<T>)>> Tells
    for UnwindTableRow<T, A> {
    fn told(&self) -> Option<u32> {
        told_by(self.register(Register(65534))?)
    }
}

/// A list without a limit, one of whose growths fails. Each new item is a growth, and so is a copy.
#[derive(Drop)]
struct Refusing<I> {
    kept: Vec<I>,
    /// Which of the next growths fails.
    refused: Cell<u32>,
}

impl<I> Refusing<I> {
    /// Whether the next growth fails.
    fn refuses(&self) -> bool {
        let refused = self.refused.get();
        self.refused.set(refused.saturating_sub(1));
        refused == 1
    }
}

impl<I: Tells> Refusing<I> {
    /// Whether the growth by an item fails, which that of an item that tells does not.
    fn refuses_item(&self, item: &I) -> bool {
        match item.told() {
            Some(growth) => {
                self.refused.set(growth);
                false
            }
            None => self.refuses(),
        }
    }
}

fn no_memory<I>(item: I) -> Refused<I>
    ensures { result ≡ record { why = Why.Memory; item = item } }
{
    Refused {
        why: Why::Memory,
        item,
    }
}

impl<I: Tells + Drop> ArrayLike for Refusing<I> {
    type Item = I;

    ghost items = { λ list. list.kept.items };

    ghost limit = { None };

    ghost with_items = { λ list written.
        record { kept = vec.with_items list.kept written; refused = list.refused } };

    fn limit() -> Option<usize> {
        None
    }

    fn make(alloc: Global) -> Result<Self, Error> {
        Ok(Refusing {
            kept: Vec::new(alloc),
            refused: Cell::new(0),
        })
    }

    fn as_slice(&self) -> &[I] {
        self.kept.as_slice()
    }

    fn as_mut_slice(&mut self) -> &mut [I] {
        self.kept.as_mut_slice()
    }

    fn clear(&mut self) {
        self.kept.clear();
    }

    fn try_push(&mut self, item: I) -> Result<(), Refused<I>> {
        if self.refuses_item(&item) {
            return Err(no_memory(item));
        }
        match self.kept.push(item) {
            Ok(()) => Ok(()),
            Err(AllocFailed { value }) => Err(no_memory(value)),
        }
    }

    fn try_insert(&mut self, index: usize, item: I) -> Result<(), Refused<I>> {
        if self.refuses_item(&item) {
            return Err(no_memory(item));
        }
        match self.kept.insert(index, item) {
            Ok(()) => Ok(()),
            Err(AllocFailed { value }) => Err(no_memory(value)),
        }
    }

    fn pop(&mut self) -> Option<I> {
        self.kept.pop()
    }

    fn swap_remove(&mut self, index: usize) -> I {
        self.kept.swap_remove(index)
    }

    ghost items_of_with_items = { λ list written same.
        refill-same _ list.kept.items written (list.kept.ok.0 ∙ sym same) };
}

impl<I: Tells + Copy> CopyList for Refusing<I> {
    ghost copies_free = { false };

    fn copies_free() -> bool {
        false
    }

    fn copy(&self) -> Result<Self, Error> {
        if self.refuses() {
            return Err(Error::OutOfMemory);
        }
        Ok(Refusing {
            kept: CopyList::copy(&self.kept)?,
            refused: Cell::new(self.refused.get()),
        })
    }
}

/// The storage of such lists.
struct StoreRefusing;

impl<T: ReaderOffset> UnwindContextStorage<T> for StoreRefusing {
    type Rules = Refusing<(Register, RegisterRule<T>)>;

    type Stack = Refusing<UnwindTableRow<T, Self::Rules>>;

    ghost has_room = { tt };
}

/// A section whose instructions tell the lists of rules and of rows which of their growths fails.
///
/// They take back what its rules were told, tell the list of rows by a row that they remember and
/// restore, and then tell the list of rules.
const TELLING: [u8; 56] = [
    0x0b, 0, 0, 0, 0xff, 0xff, 0xff, 0xff, 4, 0, 8, 0, 1, 1, 0x10, 0x25, 0, 0, 0, 0, 0, 0, 0, 0,
    0x10, 0, 0, 0, 0, 0, 0, 0x20, 0, 0, 0, 0, 0, 0, 0, 0x14, 0xfd, 0xff, 3, 0, 0x14, 0xfe, 0xff, 3,
    0, 0x0a, 0x0b, 0x14, 0xff, 0xff, 3, 0,
];

fn set(bytes: &mut [u8], at: usize, told: u8) {
    if let Some(byte) = bytes.get_mut(at) {
        *byte = told;
    }
}

fn telling(of_rules: u8, of_rows: u8) -> [u8; 56] {
    let mut bytes = TELLING;
    set(&mut bytes, 48, of_rows);
    set(&mut bytes, 55, of_rules);
    bytes
}

fn row_of<R: Reader<Offset = usize>, S: UnwindContextStorage<usize>>(
    reader: R,
    context: &mut UnwindContext<usize, S>,
    address: u64,
) -> Result<Range, Error> {
    let mut section = DebugFrame::from(reader);
    section.set_vendor(Vendor::AArch64);
    range_of(row_by_scan(&section, &BaseAddresses::default(), context, address))
}

/// The addresses of a row of a section.
fn row_in<S: UnwindContextStorage<usize>>(
    bytes: &[u8],
    context: &mut UnwindContext<usize, S>,
    address: u64,
) -> Result<Range, Error> {
    row_of(EndianSlice::new(bytes, LittleEndian), context, address)
}

/// Tells the lists of a context which of their growths fails in the next unwind.
fn tell<S: UnwindContextStorage<usize>>(
    context: &mut UnwindContext<usize, S>,
    of_rules: u8,
    of_rows: u8,
) -> Result<Range, Error> {
    row_in(&telling(of_rules, of_rows), context, 0x1000)
}

/// Sections with remembered states, in a CIE, in an FDE and in both, and one whose CIE moves; the
/// address of the last row.
const SECTIONS: [(&str, u64); 8] = [
    (
        "10000000 ffffffff 04000800 017810 0c0708 9001 \
        19000000 00000000 0010000000000000 2000000000000000 0a 0e20 42 0b",
        0x1002,
    ),
    (
        "11000000 ffffffff 04000800 017810 0c0708 9001 41 \
        14000000 00000000 0010000000000000 2000000000000000",
        0x1000,
    ),
    (
        "12000000 ffffffff 04000800 017810 0c0708 9001 8602 \
        17000000 00000000 0010000000000000 2000000000000000 0a0a0a",
        0x1000,
    ),
    (
        "10000000 ffffffff 04000800 017810 0c0708 9001 \
        18000000 00000000 0010000000000000 2000000000000000 0a0a0a0a",
        0x1000,
    ),
    (
        "15000000 ffffffff 04000800 017810 0c0708 9001 8602 0a0a0a \
        14000000 00000000 0010000000000000 2000000000000000",
        0x1000,
    ),
    (
        "11000000 ffffffff 04000800 017810 0c0708 0a 9001 \
        17000000 00000000 0010000000000000 2000000000000000 0b 41 d0",
        0x1001,
    ),
    (
        "0b000000 ffffffff 04000800 017810 \
        1a000000 00000000 0010000000000000 2000000000000000 2d 41 0a 2d 41 0b",
        0x1002,
    ),
    (
        "10000000 ffffffff 04000800 017810 0c0708 9001 \
        1b000000 00000000 0010000000000000 2000000000000000 2e10 0a 2e20 41 0b",
        0x1001,
    ),
];

/// The section of a text, the address of a row, and the addresses of that row.
#[derive(Clone, Copy)]
struct Unwind<'a> {
    text: &'a str,
    bytes: &'a [u8],
    address: u64,
    row: Result<Range, Error>,
    /// The second of the three rows, as it is for a context to which nothing was refused.
    second: Result<Range, Error>,
}

/// One more than the last of the growths that fail in turn.
const GROWTHS: u8 = 20;

/// Whether an unwind with a fresh context reaches the growth of the rules or of the rows that
/// fails, after which the context can be used again.
fn meets<S: UnwindContextStorage<usize>>(
    rt: &impl Abort,
    of: &Unwind<'_>,
    context: &mut UnwindContext<usize, S>,
    of_rules: u8,
    of_rows: u8,
) -> Result<bool, Error> {
    let _told = tell(context, of_rules, of_rows)?;
    let answer = row_in(of.bytes, context, of.address);
    if answer == of.row {
        return Ok(false);
    }
    let again = row_in(&THREE_ROWS, context, 0x1002);
    expect(
        rt,
        of.text,
        &(answer, again),
        &(Err(Error::OutOfMemory), of.second),
    );
    Ok(true)
}

/// The same with a fresh context.
fn meets_afresh<S: UnwindContextStorage<usize>>(
    rt: &(impl Abort + AllocGlobal),
    of: &Unwind<'_>,
    of_rules: u8,
    of_rows: u8,
) -> Result<bool, Error> {
    let mut context: UnwindContext<usize, S> = UnwindContext::new_in(rt.alloc())?;
    meets(rt, of, &mut context, of_rules, of_rows)
}

/// How many growths of the rules or of the rows an unwind makes, or `GROWTHS` if that is not known.
fn growths_met<S: UnwindContextStorage<usize>>(
    rt: &(impl Abort + AllocGlobal),
    of: &Unwind<'_>,
    refuses_rows: bool,
) -> Result<u8, Error> {
    for growth in 1..GROWTHS {
        let (of_rules, of_rows) = if refuses_rows {
            (0, growth)
        } else {
            (growth, 0)
        };
        if !meets_afresh::<S>(rt, of, of_rules, of_rows)? {
            return Ok(growth.saturating_sub(1));
        }
    }
    Ok(GROWTHS)
}

/// Checks that a section has a row, and that the numbers of its growths are known.
fn check_counts(rt: &impl Abort, of: &Unwind<'_>, of_rules: u8, of_rows: u8) {
    let known = (
        of.row.is_ok(),
        0 < of_rules && of_rules < GROWTHS,
        of_rows < GROWTHS,
    );
    expect(rt, of.text, &known, &(true, true, true));
}

/// Checks an unwind in which each of its growths fails in turn; returns whether one of them was of
/// rows.
fn check_growths<S: UnwindContextStorage<usize>>(
    rt: &(impl Abort + AllocGlobal),
    of: &Unwind<'_>,
) -> Result<bool, Error> {
    let of_rules = growths_met::<S>(rt, of, false)?;
    let of_rows = growths_met::<S>(rt, of, true)?;
    check_counts(rt, of, of_rules, of_rows);
    Ok(of_rows > 0)
}

/// Checks such an unwind for the section of a text, with a context to which nothing is refused.
fn check_section<S: UnwindContextStorage<usize>>(
    rt: &(impl Abort + AllocGlobal),
    context: &mut UnwindContext<usize, S>,
    text: &str,
    address: u64,
) -> Result<bool, Fail> {
    let bytes = bytes_of(rt.alloc(), text)?;
    let of = Unwind {
        text,
        bytes: bytes.as_slice(),
        address,
        row: row_in(bytes.as_slice(), context, address),
        second: row_in(&THREE_ROWS, context, 0x1002),
    };
    Ok(check_growths::<S>(rt, &of)?)
}

/// The same for each of the sections; returns whether a growth was of rows.
fn check_sections<S: UnwindContextStorage<usize>>(
    rt: &(impl Abort + AllocGlobal),
    context: &mut UnwindContext<usize, S>,
) -> Result<bool, Fail> {
    let mut grew_rows = false;
    for (text, address) in &SECTIONS {
        // A row that the stack once allocated is used again, so not every section grows it.
        grew_rows |= check_section(rt, context, text, *address)?;
    }
    Ok(grew_rows)
}

/// The same with a fresh context; some of the growths are of rows.
fn check_afresh<S: UnwindContextStorage<usize>>(
    rt: &(impl Abort + AllocGlobal),
) -> Result<(), Fail> {
    let mut context: UnwindContext<usize, S> = UnwindContext::new_in(rt.alloc())?;
    let grew_rows = check_sections(rt, &mut context)?;
    expect(rt, "growths of rows", &grew_rows, &true);
    Ok(())
}

#[test]
fn each_growth_fails_in_turn(rt: HostRuntime) -> Result<(), Fail> {
    check_afresh::<StoreRefusing>(&rt)
}
