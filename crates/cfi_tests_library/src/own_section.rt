//! A section of the tests' own, which replaces a provided call of `UnwindSection`.
ghost use Rattle.std.specs.Prelude.{◌≡◌, ◌==◌};
ghost use Rattle.gimli_cfi.specs.Words.{cie_id, has_sizes, id_width, width_of, zero_length_ends};

use crate::comparison::expect;
use crate::header::asked::{Asked, start_of};
use crate::rows::range_of;
use gimli_cfi::{
    _UnwindSectionPrivate, BaseAddresses, CieOffsetEncoding, CommonInformationEntry, DebugFrame,
    Error, Format, Reader, UnwindContext, UnwindContextStorage, UnwindSection, Vendor, row_by_scan,
};
use std::cell::Cell;
use std::process::Abort;

/// Two CIEs at 0 and 20, whose CFAs are r7+8 and r7+16; FDEs of the first for 0x1000 and 0x2000.
pub(crate) const TWO_CIES: [u8; 88] = [
    0x10, 0, 0, 0, 0xff, 0xff, 0xff, 0xff, 4, 0, 8, 0, 1, 0x78, 0x10, 0x0c, 7, 8, 0x90, 1, 0x10, 0,
    0, 0, 0xff, 0xff, 0xff, 0xff, 4, 0, 8, 0, 1, 0x78, 0x10, 0x0c, 7, 0x10, 0x90, 1, 0x14, 0, 0, 0,
    0, 0, 0, 0, 0, 0x10, 0, 0, 0, 0, 0, 0, 0x20, 0, 0, 0, 0, 0, 0, 0, 0x14, 0, 0, 0, 0, 0, 0, 0, 0,
    0x20, 0, 0, 0, 0, 0, 0, 0x20, 0, 0, 0, 0, 0, 0, 0,
];

/// A section that counts the CIEs that are read by their offsets.
#[derive(Clone, Copy, Debug)]
struct CountedCies<'a, S> {
    inner: S,
    cies: &'a Cell<u32>,
}

impl<R: Reader, S: _UnwindSectionPrivate<R>> _UnwindSectionPrivate<R> for CountedCies<'_, S> {
    ghost view = { λ s. S.view s.inner };

    ghost KIND = { S.KIND };

    fn section(&self) -> &R {
        self.inner.section()
    }

    fn has_zero_terminator() -> bool
        ensures { result ≡ zero_length_ends S.KIND }
    {
        S::has_zero_terminator()
    }

    fn is_cie(format: Format, id: u64) -> bool
        ensures { result ≡ (id == cie_id S.KIND format) }
    {
        S::is_cie(format, id)
    }

    fn cie_offset_encoding(format: Format) -> CieOffsetEncoding
        ensures { width_of result ≡ id_width S.KIND format }
    {
        S::cie_offset_encoding(format)
    }

    fn resolve_cie_offset(&self, base: R::Offset, offset: R::Offset) -> Option<R::Offset> {
        self.inner.resolve_cie_offset(base, offset)
    }

    fn has_address_and_segment_sizes(version: u8) -> bool
        ensures { result ≡ has_sizes S.KIND version }
    {
        S::has_address_and_segment_sizes(version)
    }

    fn address_size(&self) -> u8 {
        self.inner.address_size()
    }

    fn vendor(&self) -> Vendor {
        self.inner.vendor()
    }

    ghost kind = { λ s. S.kind s.inner };

    ghost sized = { λ s. S.sized s.inner };

    ghost sound = { λ s. S.sound s.inner };

    ghost greatest = { λ s. S.greatest s.inner };
}

impl<R: Reader, S: UnwindSection<R>> UnwindSection<R> for CountedCies<'_, S> {
    type Offset = S::Offset;

    fn cie_from_offset(
        &self,
        bases: &BaseAddresses,
        offset: S::Offset,
    ) -> Result<CommonInformationEntry<R>, Error> {
        self.cies.set(self.cies.get().saturating_add(1));
        self.inner.cie_from_offset(bases, offset)
    }
}

/// The first address of the row for an address by a scan, and how many CIEs were read by their
/// offsets.
fn by_scan<R: Reader, C: UnwindContextStorage<R::Offset>>(
    inner: DebugFrame<R>,
    context: &mut UnwindContext<R::Offset, C>,
    address: u64,
) -> Asked {
    let cies = Cell::new(0u32);
    let section = CountedCies { inner, cies: &cies };
    let bases = BaseAddresses::default();
    let row = range_of(row_by_scan(&section, &bases, context, address));
    (start_of(row), cies.get())
}

/// Addresses, their rows, and that a CIE is read once for the FDEs in a row that point to it.
const ROWS: [(u64, Asked); 3] = [
    (0x1000, (Ok(0x1000), 1)),
    (0x2000, (Ok(0x2000), 1)),
    (0x3000, (Err(Error::NoUnwindInfoForAddress), 1)),
];

/// Checks those rows.
pub(crate) fn a_scan_reads_a_cie_once<R: Reader, C: UnwindContextStorage<R::Offset>>(
    rt: &impl Abort,
    two_cies: R,
    context: &mut UnwindContext<R::Offset, C>,
) {
    for (address, counted) in &ROWS {
        let found = by_scan(DebugFrame::from(two_cies), context, *address);
        expect(rt, *address, &found, counted);
    }
}
