//! Compiled tables are made, asked for rows, and freed.
ghost use Rattle.std.specs.Prelude.{◌≡◌, None, IfOk, length};
ghost use Rattle.std.specs.Option.{option_map};
ghost use Rattle.cfi_read_core.specs.Addresses.{IsAddressSize};
ghost use Rattle.cfi_read_core.specs.ReaderCalls.{map_ok};
ghost use Rattle.cfi_compiled.specs.CompiledRows.{parts_kept, parts_lent};
ghost use Rattle.cfi_c.specs.AddressRows.{IsAnsweredForC};
ghost use Rattle.cfi_c.specs.PassedSections.{lent};
ghost use Rattle.cfi_c.specs.WrittenRows.{IsRules, rule_at};
ghost use Rattle.cfi_c.specs.TableRows.{IsTableMade, IsTableOf, IsTableRow, table_in, unplaced};

use crate::refusal::{NO_TABLE, number_of};
use crate::section::{CfiBases, is_sized, source_of};
use crate::table::CfiTable;
use crate::written::{CfiRow, CfiRule, cfa_row, rule_of};
use cfi_compiled::{CompiledRow, CompiledTable};
use gimli_cfi::{CallFrameSection, Error, Register, RegisterRule};
use std::alloc::Global;
use std::mem;

/// Makes the compiled table of a section, and frees the one that was there. It has for every
/// address what `cfi_row_by_scan` writes for the section, but a row's two addresses.
///
/// Returns 0; the number of `OutOfMemory` where memory was refused; or that of
/// `UnsupportedAddressSize` where the size is not 1, 2, 4 or 8. After an error the table that was
/// there stays. An error in the section is not returned here, but for the addresses that it is for.
#[unsafe(no_mangle)]
pub extern "C" fn cfi_table_new(
    alloc: Global,
    table: &mut CfiTable,
    section: &[u8],
    bases: &CfiBases,
) -> i32
    ensures { IsTableMade bases.now section.now (table_in table.old) result (table_in table.new) }
{
    if !is_sized(bases.address_size) {
        return number_of(Error::UnsupportedAddressSize(bases.address_size));
    }
    let Ok(made) = compile(alloc, section, bases) else {
        return number_of(Error::OutOfMemory);
    };
    let Ok(held) = Box::new(alloc, made) else {
        return number_of(Error::OutOfMemory);
    };
    *table = CfiTable::of(alloc, Some(held));
    0
}

/// Writes what the row of the address says, without its two addresses, and the rules of the
/// registers from 0 up, as many as fit in `rules`.
///
/// Returns the status, which is also in `row`: 0, or the number of the error, with what it carries
/// in `row.refused`; and `NO_TABLE` where there is no table. `row.start` and `row.end` are 0. Does
/// not allocate, and reads nothing of the section.
#[unsafe(no_mangle)]
pub extern "C" fn cfi_table_row(
    alloc: Global,
    table: &mut CfiTable,
    address: u64,
    row: &mut CfiRow,
    rules: &mut [CfiRule],
) -> i32
    ensures answered { IsTableRow (table_in table.old) address row.new rules.new }
    ensures status { result ≡ row.new.status }
    ensures kept { table_in table.new ≡ table_in table.old }
{
    let held = mem::replace(table, CfiTable::of(alloc, None)).into_box();
    answer(lent(&held), address, row, rules);
    *table = CfiTable::of(alloc, held);
    row.status
}

/// Frees the table, where there is one.
#[unsafe(no_mangle)]
pub extern "C" fn cfi_table_free(alloc: Global, table: &mut CfiTable)
    ensures { table_in table.new ≡ None }
{
    *table = CfiTable::of(alloc, None);
}

/// Makes the compiled table of the section. Fails where memory is refused.
fn compile(alloc: Global, section: &[u8], bases: &CfiBases) -> Result<CompiledTable, Error>
    requires { IsAddressSize bases.now.address_size }
    ensures { IfOk result (IsTableOf bases.now section.now) }
{
    let source = source_of(section, None, bases);
    match source.section() {
        CallFrameSection::DebugFrame(frame) => CompiledTable::new(alloc, &frame, &source.bases),
        CallFrameSection::EhFrame(frame) => CompiledTable::new(alloc, &frame, &source.bases),
    }
}

/// Lends the table that is held.
fn lent(held: &Option<Box<CompiledTable>>) -> Option<&CompiledTable>
    ensures { lent result ≡ option_map (λ table. table.value) held.now }
{
    match held {
        Some(table) => Some(table.as_ref()),
        None => None,
    }
}

/// Writes the row of the address by the table, where there is one.
fn answer(table: Option<&CompiledTable>, address: u64, row: &mut CfiRow, rules: &mut [CfiRule])
    ensures { IsTableRow (lent table.entry) address row.new rules.new }
{
    match table {
        Some(table) => write_row(table.row(address), row, rules),
        None => {
            row.refused = 0;
            row.status = NO_TABLE;
        }
    }
}

/// Writes what a row says, and as many rules as fit; or the number of the error, with what it
/// carries.
fn write_row(found: Result<CompiledRow<'_>, Error>, row: &mut CfiRow, rules: &mut [CfiRule])
    ensures { IsAnsweredForC (map_ok unplaced (parts_lent found.entry))
        row.new rules.new 0 (length rules.new) }
{
    match found {
        Ok(found) => {
            *row = cfa_row(0, 0, found.saved_args_size(), *found.cfa());
            write_rules(found, rules);
        }
        Err(error) => {
            row.refused = error.value();
            row.status = number_of(error);
        }
    }
}

/// Writes the rules of the registers from 0 up.
fn write_rules(found: CompiledRow<'_>, rules: &mut [CfiRule])
    ensures { IsRules (unplaced (parts_kept found.entry)) rules.new 0 (length rules.new) }
{
    for k in 0..rules.len() {
        rules[k] = rule_of(found_rule(found, k));
    }
}

/// Returns the rule of register `k`; `None` also where there is no such register.
fn found_rule(found: CompiledRow<'_>, k: usize) -> Option<RegisterRule<usize>>
    ensures { result ≡ rule_at (unplaced (parts_kept found.entry)) k }
{
    if k <= 0xffff {
        found.register(Register(k as u16))
    } else {
        None
    }
}
