//! The rows of addresses, as C gets them.
ghost use Rattle.std.specs.Prelude.{◌≡◌, ◌+◌, ◌≤◌, None, Some, length, true};
ghost use Rattle.cfi_read_core.specs.Addresses.{IsAddressSize};
ghost use Rattle.cfi_read_core.specs.ReaderCalls.{map_ok};
ghost use Rattle.cfi_c.specs.AddressRows.{IsAnswerForC, IsFaithfulHeader, IsScannedForC};
ghost use Rattle.cfi_c.specs.AddressRows.{IsSizedAnswer, is_live};
ghost use Rattle.cfi_c.specs.ManyAddresses.{AreAnswered, IsCount};
ghost use Rattle.cfi_c.specs.PassedSections.{header_in, lent};
ghost use Rattle.cfi_c.specs.WrittenRows.{SameAround};

use crate::context::{CfiContext, Context};
use crate::refusal::NO_CONTEXT;
use crate::section::{CfiBases, header_in, is_sized, source_of};
use crate::written::{CfiRow, CfiRule, write_answer};
use gimli_cfi::{Error, StoreOnHeap, UnwindContextStorage, UnwindTableRow};
use std::alloc::Global;
use std::mem;

/// A section in which rows are asked for.
#[derive(Clone, Copy)]
struct AskedSection<'a> {
    /// Its bytes.
    section: &'a [u8],
    /// Those of its header, where rows are found by that.
    header: Option<&'a [u8]>,
    /// The bases of their pointers.
    bases: &'a CfiBases,
}

type FoundRow = UnwindTableRow<usize, <StoreOnHeap as UnwindContextStorage<usize>>::Rules>;

/// Writes the row of the address, found by a scan of the section, and the rules of the registers
/// from 0 up, as many as fit in `rules`.
///
/// Returns the status, which is also in `row`: 0, or the number of the error, with what it carries
/// in `row.refused`; that of `UnsupportedAddressSize` where the size is not 1, 2, 4 or 8; and
/// `NO_CONTEXT` where there is no context. Does not allocate.
#[unsafe(no_mangle)]
pub extern "C" fn cfi_row_by_scan<'a>(
    alloc: Global,
    context: &mut CfiContext,
    section: &'a [u8],
    bases: &'a CfiBases,
    address: u64,
    row: &mut CfiRow,
    rules: &mut [CfiRule],
) -> i32
    ensures answered { IsAnswerForC context.old.live bases.now section.now None address
        row.new rules.new 0 (length rules.new) }
    ensures status { result ≡ row.new.status }
    ensures kept { context.new.live ≡ context.old.live }
{
    let asked = AskedSection {
        section,
        header: None,
        bases,
    };
    answer_one(alloc, context, &asked, address, row, rules)
}

/// Does the same for `.eh_frame` with a header, by the header's table; by a scan of the section
/// where the header has no rows.
#[unsafe(no_mangle)]
pub extern "C" fn cfi_row_by_table<'a>(
    alloc: Global,
    context: &mut CfiContext,
    section: &'a [u8],
    header: &'a [u8],
    bases: &'a CfiBases,
    address: u64,
    row: &mut CfiRow,
    rules: &mut [CfiRule],
) -> i32
    ensures answered { IsAnswerForC context.old.live bases.now section.now (Some header.now) address
        row.new rules.new 0 (length rules.new) }
    ensures faithful { IsFaithfulHeader bases.now section.now header.now →
        IsAddressSize bases.now.address_size → context.old.live ≡ true →
        IsScannedForC bases.now section.now address row.new rules.new 0 (length rules.new) }
    ensures status { result ≡ row.new.status }
    ensures kept { context.new.live ≡ context.old.live }
{
    let asked = AskedSection {
        section,
        header: Some(header),
        bases,
    };
    answer_one(alloc, context, &asked, address, row, rules)
}

/// Writes the rows of many addresses, each as `cfi_row_by_table` does, or as `cfi_row_by_scan` does
/// where the header is empty: `rows[i]`, and in `rules` the `per_row` from `i * per_row` on, are
/// those of `addresses[i]`.
///
/// Returns how many rows it has written: as many as there are addresses, rows, and rules for each
/// row. Writes nothing after them. Does not allocate.
#[unsafe(no_mangle)]
pub extern "C" fn cfi_rows<'a>(
    alloc: Global,
    context: &mut CfiContext,
    section: &'a [u8],
    header: &'a [u8],
    bases: &'a CfiBases,
    addresses: &[u64],
    rows: &mut [CfiRow],
    rules: &mut [CfiRule],
    per_row: usize,
) -> usize
    ensures count { IsCount (length addresses.now) (length rows.old) (length rules.old) per_row
        result }
    ensures answered { AreAnswered context.old.live bases.now section.now
        (header_in header.now) addresses.now per_row result
        rows.old rows.new rules.old rules.new }
    ensures kept { context.new.live ≡ context.old.live }
{
    let mut held = mem::replace(context, CfiContext::of(alloc, None)).into_box();
    let asked = AskedSection {
        section,
        header: header_in(header),
        bases,
    };
    let count = answer_each(&mut held, &asked, addresses, rows, rules, per_row);
    *context = CfiContext::of(alloc, held);
    count
}

/// Writes the row of one address, and as many rules as fit. Returns its status.
fn answer_one(
    alloc: Global,
    context: &mut CfiContext,
    asked: &AskedSection<'_>,
    address: u64,
    row: &mut CfiRow,
    rules: &mut [CfiRule],
) -> i32
    ensures answered { IsAnswerForC context.old.live asked.now.bases.now asked.now.section.now
        (lent asked.now.header) address row.new rules.new 0 (length rules.new) }
    ensures status { result ≡ row.new.status }
    ensures kept { context.new.live ≡ context.old.live }
{
    let mut held = mem::replace(context, CfiContext::of(alloc, None)).into_box();
    let count = rules.len();
    answer(&mut held, asked, address, row, rules, 0, count);
    *context = CfiContext::of(alloc, held);
    row.status
}

/// Writes the rows of as many addresses as there is room for, and returns how many.
fn answer_each(
    held: &mut Option<Box<Context>>,
    asked: &AskedSection<'_>,
    addresses: &[u64],
    rows: &mut [CfiRow],
    rules: &mut [CfiRule],
    per_row: usize,
) -> usize
    ensures count { IsCount (length addresses.now) (length rows.old) (length rules.old) per_row
        result }
    ensures answered { AreAnswered (is_live held.old) asked.now.bases.now asked.now.section.now
        (lent asked.now.header) addresses.now per_row result
        rows.old rows.new rules.old rules.new }
    ensures kept { is_live held.new ≡ is_live held.old }
{
    let mut first = 0;
    for i in 0..addresses.len() {
        if i == rows.len() || rules.len() - first < per_row {
            return i;
        }
        let mut row = rows[i];
        answer(held, asked, addresses[i], &mut row, rules, first, per_row);
        rows[i] = row;
        first += per_row;
    }
    addresses.len()
}

/// Writes the row of one address, with the context that is held.
fn answer(
    held: &mut Option<Box<Context>>,
    asked: &AskedSection<'_>,
    address: u64,
    row: &mut CfiRow,
    rules: &mut [CfiRule],
    first: usize,
    count: usize,
)
    requires { first + count ≤ length rules.old }
    ensures answered { IsAnswerForC (is_live held.old) asked.now.bases.now asked.now.section.now
        (lent asked.now.header) address row.new rules.new first count }
    ensures around { SameAround first count rules.old rules.new }
    ensures kept { is_live held.new ≡ is_live held.old }
{
    match held {
        Some(context) => {
            let found = find_row(context.as_mut(), asked, address);
            write_answer(found, row, rules, first, count);
        }
        None => {
            row.refused = 0;
            row.status = NO_CONTEXT;
        }
    }
}

/// Finds the row of the address, by the header's table where there is a header, else by a scan.
/// Returns `Error::UnsupportedAddressSize` where the size is not 1, 2, 4 or 8.
fn find_row<'ctx>(
    context: &'ctx mut Context,
    asked: &AskedSection<'_>,
    address: u64,
) -> Result<&'ctx FoundRow, Error>
    ensures { IsSizedAnswer asked.now.bases.now asked.now.section.now (lent asked.now.header)
        address (map_ok (λ row. row.now) result) }
{
    let size = asked.bases.address_size;
    if !is_sized(size) {
        return Err(Error::UnsupportedAddressSize(size));
    }
    source_of(asked.section, asked.header, asked.bases).row(context, address)
}
