//! A cache of packed rows.
ghost use Rattle.std.specs.Prelude.{◌≡◌, ◌*◌, IfOk, IfSome, length};
ghost use Rattle.std.specs.List.{Contains};
ghost use Rattle.cfi_step.specs.KeptSlots.{Keeps};
ghost use Rattle.cfi_step.specs.PackedRows.{AreVacant, HoldsRow, IsPackedOf, rows_in};

use crate::function::Function;
use crate::packed_rows::PackedRow;
use crate::slots::SPREAD;
use gimli_cfi::{ArrayLike, Error, Register, RegisterRule, UnwindTableRow};
use std::alloc::Global;

/// How many rows a set has. An address of a file has its place in one of two sets.
const WAYS: usize = 4;

/// Rows by their files and addresses, four in each set, with what their FDEs say of their
/// functions. A row takes 64 bytes, and is kept in one of two sets.
#[derive(Drop)]
pub struct RowCache {
    rows: Vec<PackedRow>,
    next: usize,
}

impl RowCache {
    ghost use Rattle.std.specs.Prelude.{◌≡◌, ◌*◌, IfOk, IfSome, length};
    ghost use Rattle.std.specs.List.{Contains};
    ghost use Rattle.cfi_step.specs.KeptSlots.{Keeps};
    ghost use Rattle.cfi_step.specs.PackedRows.{AreVacant, HoldsRow, IsPackedOf, rows_in};

    /// A cache for four rows in each of so many sets, without one. Fails with `OutOfMemory` if they
    /// cannot be allocated.
    pub fn new(alloc: Global, sets: usize) -> gimli_cfi::Result<RowCache>
        ensures empty { IfOk result (λ cache. AreVacant (rows_in cache)) }
        ensures room { IfOk result (λ cache. length (rows_in cache) ≡ sets * 4) }
    {
        let Some(count) = sets.checked_mul(WAYS) else {
            return Err(Error::OutOfMemory);
        };
        let Ok(mut rows) = Vec::with_capacity(alloc, count) else {
            return Err(Error::OutOfMemory);
        };
        for _ in 0..count {
            if rows.push(PackedRow::new()).is_err() {
                return Err(Error::OutOfMemory);
            }
        }
        Ok(RowCache { rows, next: 0 })
    }

    /// Forgets all rows. Does not allocate.
    pub fn clear(&mut self)
        ensures { AreVacant (rows_in self.new) }
    {
        forget_each(self.rows.as_mut_slice());
    }

    /// The row of the address of the file, if it is held.
    #[inline(always)]
    pub fn held(&self, file: u64, address: u64) -> Option<&PackedRow>
        ensures { IfSome result (λ row.
            HoldsRow file address row.now × Contains (rows_in self.now) row.now) }
    {
        row_in(self.rows.as_slice(), file, address)
    }

    /// Whether the row of the address of the file couldn't be packed when it was found last, as far
    /// as that is remembered.
    pub fn is_refused(&self, file: u64, address: u64) -> bool {
        is_refused_in(self.rows.as_slice(), file, address)
    }

    /// Holds the row of the address of the file in place of another, if it has few rules and small
    /// numbers; else the other is forgotten.
    pub fn keep<A: ArrayLike<Item = (Register, RegisterRule<usize>)>>(
        &mut self,
        file: u64,
        address: u64,
        row: &UnwindTableRow<usize, A>,
        function: &Function,
    )
        ensures { Keeps HoldsRow file address (IsPackedOf row.now.parts function.now)
            (rows_in self.old) (rows_in self.new) }
    {
        let turn = self.next;
        self.next = self.next.wrapping_add(1);
        keep_in(self.rows.as_mut_slice(), turn, file, address, row, function);
    }
}

/// Forgets each row.
fn forget_each(rows: &mut [PackedRow])
    ensures { AreVacant rows.new }
{
    for row in rows {
        row.clear();
    }
}

/// The row of the address of the file, if it is in one of its sets.
#[inline(always)]
fn row_in(rows: &[PackedRow], file: u64, address: u64) -> Option<&PackedRow>
    ensures { IfSome result (λ row. HoldsRow file address row.now × Contains rows.now row.now) }
{
    let spread = spread_of(file, address);
    match row_in_set(rows, first_set(spread, rows.len()), file, address) {
        Some(row) => Some(row),
        None => row_in_set(rows, second_set(spread, rows.len()), file, address),
    }
}

/// The row of the address of the file, if it is in the set that begins at this index.
#[inline(always)]
fn row_in_set(rows: &[PackedRow], first: usize, file: u64, address: u64) -> Option<&PackedRow>
    ensures { IfSome result (λ row. HoldsRow file address row.now × Contains rows.now row.now) }
{
    for way in 0..WAYS {
        let index = first.wrapping_add(way);
        if index < rows.len() && rows[index].is_of(file, address) {
            return Some(&rows[index]);
        }
    }
    None
}

/// Whether a row of the sets was refused for the address of the file.
fn is_refused_in(rows: &[PackedRow], file: u64, address: u64) -> bool {
    let spread = spread_of(file, address);
    is_refused_in_set(rows, first_set(spread, rows.len()), file, address)
        || is_refused_in_set(rows, second_set(spread, rows.len()), file, address)
}

/// Whether a row of the set was refused for the address of the file.
fn is_refused_in_set(rows: &[PackedRow], first: usize, file: u64, address: u64) -> bool {
    for way in 0..WAYS {
        let index = first.wrapping_add(way);
        if index < rows.len() && rows[index].is_refused(file, address) {
            return true;
        }
    }
    false
}

/// Keeps the row in one of its sets: in a place without a row, or in the place of the one whose
/// turn it is.
fn keep_in<A: ArrayLike<Item = (Register, RegisterRule<usize>)>>(
    rows: &mut [PackedRow],
    turn: usize,
    file: u64,
    address: u64,
    row: &UnwindTableRow<usize, A>,
    function: &Function,
)
    ensures { Keeps HoldsRow file address (IsPackedOf row.now.parts function.now)
        rows.old rows.new }
{
    let index = place_of(rows, spread_of(file, address), turn);
    if index < rows.len() {
        rows[index].keep(file, address, row, function);
    }
}

/// A place without a row in the two sets, if there is one; else the place whose turn it is.
fn place_of(rows: &[PackedRow], spread: u64, turn: usize) -> usize {
    let first = first_set(spread, rows.len());
    let second = second_set(spread, rows.len());
    for way in 0..WAYS {
        if is_free(rows, first.wrapping_add(way)) {
            return first.wrapping_add(way);
        }
    }
    for way in 0..WAYS {
        if is_free(rows, second.wrapping_add(way)) {
            return second.wrapping_add(way);
        }
    }
    let set = if turn % (2 * WAYS) < WAYS {
        first
    } else {
        second
    };
    set.wrapping_add(turn % WAYS)
}

/// Whether there is no row in the place.
fn is_free(rows: &[PackedRow], index: usize) -> bool {
    index < rows.len() && !rows[index].is_kept()
}

/// The file and the address, mixed.
#[inline(always)]
fn spread_of(file: u64, address: u64) -> u64 {
    address.wrapping_add(file).wrapping_mul(SPREAD)
}

/// Where the first of the two sets begins among so many rows. Each row holds its file and address,
/// so any would do.
#[inline(always)]
fn first_set(spread: u64, count: usize) -> usize {
    set_by(spread >> 32, count)
}

/// Where the second of them begins.
#[inline(always)]
fn second_set(spread: u64, count: usize) -> usize {
    set_by(spread.wrapping_mul(SPREAD) >> 32, count)
}

/// Where a set begins, by a number of 32 bits.
#[inline(always)]
fn set_by(number: u64, count: usize) -> usize {
    let sets = (count / WAYS) as u64;
    ((number.wrapping_mul(sets) >> 32) as usize).wrapping_mul(WAYS)
}
