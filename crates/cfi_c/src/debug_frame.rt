//! Modules whose section is `.debug_frame`: the FDE of an address is found by a scan.
ghost use Rattle.std.specs.Prelude.{◌≡◌, ◌≤◌, OnErr, length, true};
ghost use Rattle.cfi_read_core.specs.Addresses.{IsAddressSize};
ghost use Rattle.cfi_read_core.specs.ByteOrder.{is_big};
ghost use Rattle.cfi_read_core.specs.SliceReaders.{slice_over, slice_position};
ghost use Rattle.cfi_entry.specs.SectionViews.{debug_frame_view};
ghost use Rattle.cfi_entry.specs.Sections.{DebugFrame as debug_frame_kind, section_of};
ghost use Rattle.cfi_expression.specs.Frames.{frame_view};
ghost use Rattle.cfi_step.specs.PackedRows.{rows_in};
ghost use Rattle.cfi_c.specs.CachedSteps.{StaysCachedFor};
ghost use Rattle.cfi_c.specs.PassedSections.{section_as};
ghost use Rattle.cfi_c.specs.PassedModules.{is_debug_frame, sized};
ghost use Rattle.cfi_c.specs.ModuleSteps.{IsFunctionStep};

use crate::context::Context;
use crate::module::{CfiModule, is_debug_frame};
use crate::section::{bases_of, endian_of, vendor_of};
use cfi_step::{
    Abi, Frame, FunctionStep, Memory, PlacedSection, RowCache, function_step, keep_found,
};
use gimli_cfi::{BaseAddresses, DebugFrame, EndianSlice, RunTimeEndian, scan_for_fde};

/// `.debug_frame` of a module, with the bases of its pointers.
#[derive(Drop)]
struct Scanned<'a> {
    frame: DebugFrame<EndianSlice<'a, RunTimeEndian>>,
    bases: BaseAddresses,
}

/// The section, whose addresses have this size where a CIE gives none.
fn scanned_of<'a>(module: &CfiModule<'a>, size: u8) -> Scanned<'a>
    requires { IsAddressSize size }
    ensures bytes { (debug_frame_view (slice_position is_big) result.frame).position
        ≡ slice_over module.now.section.now module.now.bases.big_endian }
    ensures section { section_of (debug_frame_view (slice_position is_big) result.frame)
        result.bases
        ≡ section_as debug_frame_kind (sized size module.now.bases) module.now.section.now }
{
    let bases = &module.bases;
    let mut frame = DebugFrame::new(module.section, endian_of(bases));
    frame.set_address_size(size);
    frame.set_vendor(vendor_of(bases));
    Scanned {
        frame,
        bases: bases_of(bases),
    }
}

/// The caller of a frame of the module's code, by its address, with what the FDE says of the
/// function, as `step_in_function`.
///
/// Apart, so that other steps take no more of the stack for it.
#[inline(never)]
pub fn step_in_debug_frame<M: Memory>(
    module: &CfiModule<'_>,
    context: &mut Context,
    address: u64,
    abi: &Abi,
    frame: &Frame<'_, M>,
    caller: &mut [Option<u64>],
) -> FunctionStep
    requires kind { is_debug_frame module.now ≡ true }
    requires room { length caller.old ≤ 0x10000 }
    ensures step { IsFunctionStep (frame_view M.number_at frame.now) abi.now module.now address
        result caller.new }
    ensures unwritten { OnErr result.caller (caller.new ≡ caller.old) }
{
    let scanned = scanned_of(module, frame.address_size.bytes());
    let placed = PlacedSection {
        section: &scanned.frame,
        bases: &scanned.bases,
    };
    let found = scan_for_fde(placed.section, placed.bases, address);
    function_step(found, &placed, context, address, abi, frame, caller)
}

/// Keeps the row that the module has for the address, as `keep_row`. Apart, as the step.
#[inline(never)]
pub fn keep_in_debug_frame(
    module: &CfiModule<'_>,
    rows: &mut RowCache,
    file: u64,
    context: &mut Context,
    size: u8,
    address: u64,
)
    requires size { IsAddressSize size }
    requires kind { is_debug_frame module.now ≡ true }
    ensures { StaysCachedFor size file module.now (rows_in rows.old) (rows_in rows.new) }
{
    let scanned = scanned_of(module, size);
    let placed = PlacedSection {
        section: &scanned.frame,
        bases: &scanned.bases,
    };
    let found = scan_for_fde(placed.section, placed.bases, address);
    keep_found(found, &placed, rows, file, context, address);
}
