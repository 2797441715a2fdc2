//! Whether the table of a header lists the FDEs of its section faithfully.
ghost use Rattle.std.specs.Prelude.{◌≡◌, ◌≢◌, ◌+◌, ◌≤◌, ℕ, IfOk, IfErr, Ok, Some, true, false};
ghost use Rattle.cfi_read_core.specs.ReaderCalls.{map_ok};
ghost use Rattle.cfi_parts.specs.declared.pointer.Pointer.TheVariants.{Direct};
ghost use Rattle.cfi_entry.specs.Entries.{end_of_entry};
ghost use Rattle.cfi_unwind.specs.FdeViews.{fde_view};
ghost use Rattle.cfi_unwind.specs.Scan.{read_fde};
ghost use Rattle.cfi_unwind.specs.WalkViews.{cie_or_fde_view, partial_bases};
ghost use Rattle.cfi_unwind.specs.WalkViews.{partial_section, partial_view};
ghost use Rattle.gimli_cfi.specs.BoundaryRows.{AreRising};
ghost use Rattle.gimli_cfi.specs.EhFrameHdr.{value_size};
ghost use Rattle.gimli_cfi.specs.HeaderViews.{listing_view, section_view, table_section_view};
ghost use Rattle.gimli_cfi.specs.HeaderViews.{table_starts, table_targets, table_view};
ghost use Rattle.gimli_cfi.specs.TableCheck.{AreListed, HasRow, IsReason, IsReasonOfFde};
ghost use Rattle.gimli_cfi.specs.TableCheck.{IsReasonOfFdes, IsReasonOfStarts, IsRefusalIn};
ghost use Rattle.gimli_cfi.specs.TableCheck.{ListsFaithfully};
ghost use Rattle.gimli_cfi.specs.TableCheck.{most_starts, starts_for_fde, starts_for_fdes};

use crate::hdr::row_fields::{searchable_size, target_of_row};
use crate::hdr::starts::{StartSource, search_starts};
use crate::hdr::table::EhHdrTable;
use crate::hdr::unfaithful::Unfaithful;
use cfi_parts::pointer::{BaseAddresses, Pointer};
use cfi_read_core::{Error, Reader, ReaderOffset};
use cfi_unwind::cie_cache::CieCache;
use cfi_unwind::entry::{CieOrFde, FrameDescriptionEntry};
use cfi_unwind::unwind_section::{EhFrame, UnwindSection};

/// Checks whether the table lists the FDEs of the section faithfully, by a source of the starts of
/// its rows, as `TableStarts` is.
///
/// It does if the header's pointer to `.eh_frame` is direct and the encoding of the table can be
/// searched; if the rows start at the first addresses of the FDEs, rising, each with its FDE as
/// target and each FDE with a row; if no FDE contains the first address of another; and if every
/// entry of the section can be read. Then a search in the rows returns for every address what a
/// scan of the section returns. Otherwise the error is a reason why the table doesn't.
///
/// The bases of the header are those in `BaseAddresses::eh_frame_hdr`, those of the section's
/// entries in `BaseAddresses::eh_frame`. Each start is read once in order, then each FDE is
/// searched for: of `n` rows at most `n + (n + 1) * (b + 2)` starts are read, `b` being the least
/// number with `n <= 2^b`. It does not allocate (LSB Core, "The .eh_frame_hdr section").
pub fn check_table<R: Reader, St: StartSource>(
    table: &EhHdrTable<'_, R>,
    starts: &mut St,
    frame: &EhFrame<R>,
    bases: &BaseAddresses,
) -> Result<(), Unfaithful>
    requires { St.answer starts.old ≡ table_starts R.position table.now bases.now }
    ensures faithful { IfOk result (λ done.
        ListsFaithfully (listing_view R.position table.now frame.now bases.now)) }
    ensures reason { IfErr result
        (IsReason (listing_view R.position table.now frame.now bases.now)) }
    ensures unfaithful { IfErr result (λ reason.
        ListsFaithfully (listing_view R.position table.now frame.now bases.now) → ⊥) }
    ensures calls { St.calls starts.new
        ≤ St.calls starts.old + most_starts (table_view R.position table.now).count }
    ensures same { St.answer starts.new ≡ St.answer starts.old }
{
    let eh_frame = table.hdr.eh_frame_ptr.direct().map_err(Unfaithful::Header)?;
    let size = searchable_size(table.hdr.table_enc).map_err(Unfaithful::Header)?;
    check_starts(starts, table.hdr.fde_count)?;
    check_fdes(table, starts, frame, bases, size, eh_frame)
}

/// The start of a row, or the reason why it can't be had.
#[inline(always)]
fn start_at<St: StartSource>(starts: &mut St, row: u64) -> Result<u64, Unfaithful>
    ensures given { IfOk result (λ start. St.answer starts.old row ≡ Ok start) }
    ensures refused { IfErr result (IsRefusalIn (St.answer starts.old row) row) }
    ensures calls { St.calls starts.new ≡ St.calls starts.old + 1 }
    ensures same { St.answer starts.new ≡ St.answer starts.old }
{
    starts
        .start(row)
        .map_err(|refusal| Unfaithful::Row { row, refusal })
}

/// The target of a row, or the reason why it can't be had.
#[inline(always)]
fn target_at<R: Reader>(
    table: &EhHdrTable<'_, R>,
    bases: &BaseAddresses,
    size: u64,
    row: u64,
) -> Result<Pointer, Unfaithful>
    requires { value_size (table_view R.position table.now).encoding ≡ Some size }
    ensures given { IfOk result (λ target.
        table_targets R.position table.now bases.now row ≡ Ok target) }
    ensures refused { IfErr result
        (IsRefusalIn (table_targets R.position table.now bases.now row) row) }
{
    target_of_row(table.hdr, bases, size, row).map_err(|refusal| Unfaithful::Row { row, refusal })
}

/// Checks that each row has a start, above that of the row before it.
#[inline(always)]
fn check_starts<St: StartSource>(starts: &mut St, count: u64) -> Result<(), Unfaithful>
    requires { 1 ≤ count }
    ensures rising { IfOk result (λ done. AreRising (St.answer starts.old) count) }
    ensures reason { IfErr result (IsReasonOfStarts (St.answer starts.old) count) }
    ensures calls { St.calls starts.new ≤ St.calls starts.old + count }
    ensures same { St.answer starts.new ≡ St.answer starts.old }
{
    let mut before = start_at(starts, 0)?;
    let mut row = 1;
    while row < count {
        let start = start_at(starts, row)?;
        if start <= before {
            return Err(Unfaithful::Order { row, before, start });
        }
        before = start;
        row += 1;
    }
    Ok(())
}

/// Checks that each FDE has a row of its own, and each row an FDE.
#[inline(always)]
fn check_fdes<R: Reader, St: StartSource>(
    table: &EhHdrTable<'_, R>,
    starts: &mut St,
    frame: &EhFrame<R>,
    bases: &BaseAddresses,
    size: u64,
    eh_frame: u64,
) -> Result<(), Unfaithful>
    requires answers { St.answer starts.old ≡ table_starts R.position table.now bases.now }
    requires size { value_size (table_view R.position table.now).encoding ≡ Some size }
    requires rising { AreRising (St.answer starts.old) (table_view R.position table.now).count }
    ensures listed { let listing = listing_view R.position table.now frame.now bases.now in
        IfOk result (λ done. AreListed listing.header listing.table eh_frame listing.section) }
    ensures reason { let listing = listing_view R.position table.now frame.now bases.now in
        IfErr result (IsReasonOfFdes listing.header listing.table eh_frame listing.section) }
    ensures calls { let count = (table_view R.position table.now).count in
        St.calls starts.new ≤ St.calls starts.old + starts_for_fdes count }
    ensures same { St.answer starts.new ≡ St.answer starts.old }
{
    let rows = table.hdr.fde_count;
    let mut left = rows;
    let mut end = 0;
    let mut cies: CieCache<R> = CieCache::new();
    let mut entries = frame.entries(bases);
    loop {
        let entry = match entries.next() {
            Ok(Some(entry)) => entry,
            Ok(None) => break,
            // It begins where the previous entry ends.
            Err(refusal) => return Err(Unfaithful::Entry {
                offset: end,
                refusal,
            }),
        };
        end = end_of_entry(&entry);
        if let CieOrFde::Fde(partial) = entry {
            let fde = match cies.fde(&partial) {
                Ok(fde) => fde,
                Err(refusal) => {
                    let offset = partial.offset().into_u64();
                    return Err(Unfaithful::Fde { offset, refusal });
                }
            };
            check_fde(table, starts, bases, size, eh_frame, &fde)?;
            // Each earlier FDE has a row of its own, so this one's row was left.
            left -= 1;
        }
    }
    if left == 0 {
        Ok(())
    } else {
        let fdes = rows - left;
        Err(Unfaithful::Count { rows, fdes })
    }
}

/// The offset in its section at which the entry ends.
#[inline(always)]
fn end_of_entry<R: Reader>(entry: &CieOrFde<'_, EhFrame<R>, R>) -> u64
    requires { end_of_entry (cie_or_fde_view R.position R.Offset.number entry.now)
        ≤ R.Offset.GREATEST }
    ensures { result ≡ end_of_entry (cie_or_fde_view R.position R.Offset.number entry.now) }
{
    // The end is an offset, so that the sums are of 64 bits.
    let _greatest = R::Offset::GREATEST;
    match entry {
        CieOrFde::Cie(cie) => {
            let size = u64::from(cie.encoding().format.initial_length_size());
            cie.offset().into_u64() + size + cie.entry_len().into_u64()
        }
        CieOrFde::Fde(partial) => {
            let size = u64::from(partial.format().initial_length_size());
            partial.offset().into_u64() + size + partial.entry_len().into_u64()
        }
    }
}

/// Checks that the FDE has a row, and doesn't contain the start of the row after it.
#[inline(always)]
fn check_fde<R: Reader, St: StartSource>(
    table: &EhHdrTable<'_, R>,
    starts: &mut St,
    bases: &BaseAddresses,
    size: u64,
    eh_frame: u64,
    fde: &FrameDescriptionEntry<R>,
) -> Result<(), Unfaithful>
    requires answers { St.answer starts.old ≡ table_starts R.position table.now bases.now }
    requires size { value_size (table_view R.position table.now).encoding ≡ Some size }
    requires rising { AreRising (St.answer starts.old) (table_view R.position table.now).count }
    ensures row { let header = table_section_view R.position table.now bases.now in
        IfOk result (λ done. HasRow header (table_view R.position table.now) eh_frame
        (fde_view R.position R.Offset.number fde.now)) }
    ensures reason { let header = table_section_view R.position table.now bases.now in
        IfErr result (IsReasonOfFde header (table_view R.position table.now) eh_frame
        (fde_view R.position R.Offset.number fde.now)) }
    ensures calls { St.calls starts.new
        ≤ St.calls starts.old + starts_for_fde (table_view R.position table.now).count }
    ensures same { St.answer starts.new ≡ St.answer starts.old }
{
    let offset = fde.offset().into_u64();
    let address = fde.initial_address();
    let row = match search_starts(starts, table.hdr.fde_count, address) {
        Ok(row) => row,
        // Each start was read before, so none fails here.
        Err(_) => return Err(Unfaithful::NoRow { offset, address }),
    };
    let start = start_at(starts, row)?;
    if start != address {
        return Err(Unfaithful::NoRow { offset, address });
    }
    let target = target_at(table, bases, size, row)?;
    if !is_at(target, eh_frame, offset) {
        return Err(Unfaithful::NoRow { offset, address });
    }
    let after = row + 1;
    if after < table.hdr.fde_count {
        let next = start_at(starts, after)?;
        let end = fde.end_address();
        if next < end {
            return Err(Unfaithful::Overlap { offset, end, next });
        }
    }
    Ok(())
}

/// Whether the pointer is direct, to this offset above the base.
#[inline(always)]
fn is_at(target: Pointer, base: u64, offset: u64) -> bool
    ensures yes { result ≡ true → target ≡ Direct (base + offset) }
    ensures no { result ≡ false → target ≢ Direct (base + offset) }
{
    match target {
        Pointer::Direct(address) => base <= address && address - base == offset,
        Pointer::Indirect(_) => false,
    }
}
