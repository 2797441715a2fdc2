//! What a check of a header says.
ghost use Rattle.cfi_read_core.specs.Addresses.{IsAddressSize};
ghost use Rattle.gimli_cfi.specs.CheckVerdicts.{IsVerdict};
ghost use Rattle.gimli_cfi.specs.EhFrameHdr.{header_section};
ghost use Rattle.gimli_cfi.specs.HeaderViews.{section_view};

use crate::hdr::faithful_table::FaithfulTable;
use crate::hdr::header::EhFrameHdr;
use crate::hdr::unfaithful::Unfaithful;
use cfi_parts::pointer::BaseAddresses;
use cfi_read_core::{Error, Reader};
use cfi_unwind::unwind_section::EhFrame;

/// What the check of a header's table against its section says (LSB Core, "The .eh_frame_hdr
/// section").
#[derive(Clone, Copy)]
pub enum Verdict {
    /// The table lists the FDEs of the section faithfully, in so many rows.
    Faithful(u64),
    /// It doesn't, for this reason.
    Unfaithful(Unfaithful),
    /// The header has no rows, so there is no table to check.
    NoTable,
    /// Reading the header failed with this error, before its rows.
    Refused(Error),
}

/// Checks the table of the header against the section. Does not allocate.
pub(crate) fn check_by_header<R: Reader>(
    header: &EhFrameHdr<R>,
    address_size: u8,
    frame: &EhFrame<R>,
    bases: &BaseAddresses,
) -> Verdict
    requires { IsAddressSize address_size }
    ensures { IsVerdict (section_view R.position frame.now bases.now)
        (header_section (R.position header.now.0) address_size bases.now.eh_frame_hdr) result }
{
    let header = match header.parse(bases, address_size) {
        Ok(header) => header,
        Err(refusal) => return Verdict::Refused(refusal),
    };
    let Some(table) = header.table() else {
        return Verdict::NoTable;
    };
    let (rows, _) = table.iter(bases).size_hint();
    match FaithfulTable::new(&table, frame, bases) {
        Ok(_) => Verdict::Faithful(rows as u64),
        Err(reason) => Verdict::Unfaithful(reason),
    }
}
