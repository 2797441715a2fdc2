//! A call frame section with what a program knows of it, and what it is asked for.
ghost use Rattle.std.specs.Prelude.{◌≡◌, ⊤, IfOk, option_map};
ghost use Rattle.cfi_read_core.specs.AddressSizes.{size_in_bytes};
ghost use Rattle.cfi_read_core.specs.ByteOrder.{is_big};
ghost use Rattle.cfi_read_core.specs.CallFrameSections.{DebugFrame as debug_frame};
ghost use Rattle.cfi_read_core.specs.CallFrameSections.{EhFrame as eh_frame};
ghost use Rattle.cfi_read_core.specs.ReaderCalls.{map_ok};
ghost use Rattle.cfi_read_core.specs.SliceReaders.{slice_position};
ghost use Rattle.cfi_state.specs.Row.{RowContains};
ghost use Rattle.cfi_state.specs.RowExpressions.{HasExpressionsIn};
ghost use Rattle.cfi_entry.specs.Sections.{position_of, section_of};
ghost use Rattle.cfi_unwind.specs.AddressRow.{IsRowByScan};

use crate::by_scan::row_by_scan;
use crate::hdr::verdict::check_by_header;
use crate::hdr::{EhFrameHdr, Verdict, row_by_header};
use cfi_parts::pointer::BaseAddresses;
use cfi_read_core::address::AddressSize;
use cfi_read_core::{EndianSlice, Result, RunTimeEndian, Vendor};
use cfi_state::storage::UnwindContextStorage;
use cfi_state::table::context::UnwindContext;
use cfi_state::table::row::UnwindTableRow;
use cfi_unwind::unwind_section::{DebugFrame, EhFrame};
use std::alloc::AllocError;

/// Which of the two call frame sections a section is.
#[derive(Clone, Copy, Debug, PartialEq, Eq)]
pub enum SectionKind {
    /// `.debug_frame` (DWARF 5 section 6.4.1).
    DebugFrame,
    /// `.eh_frame` (LSB Core, "The .eh_frame section").
    EhFrame,
}

/// A call frame section of either kind.
pub enum CallFrameSection<'input> {
    /// `.debug_frame`.
    DebugFrame(DebugFrame<EndianSlice<'input, RunTimeEndian>>),
    /// `.eh_frame`.
    EhFrame(EhFrame<EndianSlice<'input, RunTimeEndian>>),
}

impl Clone for CallFrameSection<'_> {
    ghost is_clone = { λ x y. y ≡ x };

    ghost is_infallible = { λ _. ⊤ };

    #[inline(always)]
    fn clone(&self) -> std::result::Result<Self, AllocError> {
        Ok(*self)
    }
}

impl Copy for CallFrameSection<'_> {}

/// A call frame section whose kind is known only when the program runs, with all that the caller
/// says of it: its bytes, how they are read, the bases of its pointers, and its header.
///
/// # Example
///
/// ```
/// let source = SectionSource {
///     kind: SectionKind::EhFrame,
///     endian: RunTimeEndian::Little,
///     address_size: AddressSize::new(8),
///     vendor: Vendor::Default,
///     bases: BaseAddresses::default().set_eh_frame_hdr(0x2000).set_eh_frame(0x2040),
///     bytes: eh_frame,
///     header: Some(eh_frame_hdr),
/// };
/// let row = source.row(&mut context, pc)?;
/// ```
pub struct SectionSource<'input> {
    /// Which section it is.
    pub kind: SectionKind,
    /// The byte order of the section and its header.
    pub endian: RunTimeEndian,
    /// The size of an address, where a CIE gives none, and in the header.
    pub address_size: AddressSize,
    /// The vendor whose opcodes are read.
    pub vendor: Vendor,
    /// The bases of the pointers in the section's entries, and of those in its header.
    pub bases: BaseAddresses,
    /// The bytes of the section.
    pub bytes: &'input [u8],
    /// The bytes of `.eh_frame_hdr`, if there is one. Only `.eh_frame` has a header: beside
    /// `.debug_frame` these bytes are not read.
    pub header: Option<&'input [u8]>,
}

impl Clone for SectionSource<'_> {
    ghost is_clone = { λ x y. y ≡ x };

    ghost is_infallible = { λ _. ⊤ };

    #[inline(always)]
    fn clone(&self) -> std::result::Result<Self, AllocError> {
        Ok(*self)
    }
}

impl Copy for SectionSource<'_> {}

impl<'input> SectionSource<'input> {
    ghost use Rattle.gimli_cfi.specs.CheckVerdicts.{IsVerdictOf};
    ghost use Rattle.gimli_cfi.specs.HeaderViews.{section_view, unparsed_view};
    ghost use Rattle.gimli_cfi.specs.SectionSources.{IsGivenRow, given_as, given_header};
    ghost use Rattle.gimli_cfi.specs.SectionSources.{given_section, section_made, source_view};
    ghost use Rattle.cfi_entry.specs.SectionViews.{debug_frame_view};

    /// Returns the section, as the kind that it is. The bytes are borrowed, not copied.
    pub fn section(&self) -> CallFrameSection<'input>
        ensures { section_of (section_made result) self.now.bases
            ≡ given_section (source_view self.now) }
    {
        match self.kind {
            SectionKind::DebugFrame => CallFrameSection::DebugFrame(self.debug_frame()),
            SectionKind::EhFrame => CallFrameSection::EhFrame(self.eh_frame()),
        }
    }

    /// Returns the section as `.debug_frame`, whichever it is.
    fn debug_frame(&self) -> DebugFrame<EndianSlice<'input, RunTimeEndian>>
        ensures { section_of (debug_frame_view (slice_position is_big) result) self.now.bases
            ≡ given_as debug_frame (source_view self.now) }
    {
        let mut frame = DebugFrame::new(self.bytes, self.endian);
        frame.set_address_size(self.address_size.bytes());
        frame.set_vendor(self.vendor);
        frame
    }

    /// Returns the section as `.eh_frame`, whichever it is. The bytes are borrowed, not copied.
    pub fn eh_frame(&self) -> EhFrame<EndianSlice<'input, RunTimeEndian>>
        ensures { section_view (slice_position is_big) result self.now.bases
            ≡ given_as eh_frame (source_view self.now) }
    {
        let mut frame = EhFrame::new(self.bytes, self.endian);
        frame.set_address_size(self.address_size.bytes());
        frame.set_vendor(self.vendor);
        frame
    }

    /// Returns the header of `.eh_frame`, if it has one; `None` for `.debug_frame`. The bytes are
    /// borrowed, not copied.
    pub fn header(&self) -> Option<EhFrameHdr<EndianSlice<'input, RunTimeEndian>>>
        ensures { option_map (λ header. unparsed_view (slice_position is_big) header
            (size_in_bytes self.now.address_size) self.now.bases) result
            ≡ given_header (source_view self.now) }
    {
        match self.kind {
            SectionKind::DebugFrame => None,
            SectionKind::EhFrame => {
                let header = self.header?;
                Some(EhFrameHdr::new(header, self.endian))
            }
        }
    }

    /// Checks the table of the section's header against the section, as `check_table`. Returns
    /// `None` where there is no header. Does not allocate.
    pub fn check(&self) -> Option<Verdict>
        ensures { IsVerdictOf (source_view self.now) result }
    {
        let header = self.header()?;
        let size = self.address_size.bytes();
        Some(check_by_header(&header, size, &self.eh_frame(), &self.bases))
    }

    /// Returns the unwind row of the address, borrowed from the context: by the table of the
    /// header where there is one, and else by a scan of the section.
    ///
    /// Fails, and allocates, as the functions `row_by_header` and `row_by_scan`.
    pub fn row<'ctx, S: UnwindContextStorage<usize>>(
        &self,
        ctx: &'ctx mut UnwindContext<usize, S>,
        address: u64,
    ) -> Result<&'ctx UnwindTableRow<usize, S::Rules>>
        ensures row { IsGivenRow S.Rules.limit S.Stack.limit S.Rules.copies_free
            (source_view self.now) address (map_ok (λ row. row.now) result) }
        ensures contains { IfOk result (λ row. RowContains address row.now) }
        ensures expressions { IfOk result (λ row. HasExpressionsIn (λ n. n)
            (position_of (given_section (source_view self.now))) row.now.parts) }
    {
        let Some(header) = self.header() else {
            return self.row_by_scan(ctx, address);
        };
        let size = self.address_size.bytes();
        row_by_header(&header, size, &self.eh_frame(), &self.bases, ctx, address)
    }

    /// Returns the unwind row of the address by a scan of the section, borrowed from the context.
    ///
    /// Fails, and allocates, as the function `row_by_scan`.
    pub fn row_by_scan<'ctx, S: UnwindContextStorage<usize>>(
        &self,
        ctx: &'ctx mut UnwindContext<usize, S>,
        address: u64,
    ) -> Result<&'ctx UnwindTableRow<usize, S::Rules>>
        ensures row { IsRowByScan S.Rules.limit S.Stack.limit S.Rules.copies_free
            (given_section (source_view self.now)) address (map_ok (λ row. row.now) result) }
        ensures contains { IfOk result (λ row. RowContains address row.now) }
        ensures expressions { IfOk result (λ row. HasExpressionsIn (λ n. n)
            (position_of (given_section (source_view self.now))) row.now.parts) }
    {
        match self.section() {
            CallFrameSection::DebugFrame(frame) => row_by_scan(&frame, &self.bases, ctx, address),
            CallFrameSection::EhFrame(frame) => row_by_scan(&frame, &self.bases, ctx, address),
        }
    }
}
