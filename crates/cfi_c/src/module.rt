//! The modules that C passes.
ghost use Rattle.std.specs.Prelude.{◌≡◌, ◌<◌, true, None, IfSome, length, position};
ghost use Rattle.std.specs.Option.{option_map};
ghost use Rattle.cfi_read_core.specs.Addresses.{IsAddressSize};
ghost use Rattle.cfi_read_core.specs.ByteOrder.{is_big};
ghost use Rattle.cfi_read_core.specs.SliceReaders.{slice_over, slice_position};
ghost use Rattle.cfi_entry.specs.SectionViews.{eh_frame_view};
ghost use Rattle.gimli_cfi.specs.HeaderViews.{header_reader, section_view, unparsed_view};
ghost use Rattle.cfi_step.specs.CodeRanges.{are_sorted};
ghost use Rattle.cfi_c.specs.PassedSections.{eh_frame_of, header_in, passed_header};
ghost use Rattle.cfi_c.specs.PassedModules.{code_end, code_start, has_code, is_debug_frame};
ghost use Rattle.cfi_c.specs.PassedModules.{passed_module_at, sized};

use crate::section::{CfiBases, bases_of, endian_of, vendor_of};
use cfi_step::code_ranges::{code_at, has_code};
use cfi_step::{HasCode, LoadedModule};
use gimli_cfi::{EhFrame, EhFrameHdr, EndianSlice, RunTimeEndian};

/// A module as it is loaded.
#[repr(C)]
#[derive(Drop)]
pub struct CfiModule<'a> {
    /// The first address of its code, and the first after it.
    pub start: u64,
    pub end: u64,
    /// `.eh_frame`; or `.debug_frame`, if the bases say so and there is no header.
    pub section: &'a [u8],
    /// `.eh_frame_hdr`; empty if there is none.
    pub header: &'a [u8],
    /// Where the two are loaded. The address size is that of the stack.
    pub bases: CfiBases,
}

impl HasCode for CfiModule<'_> {
    ghost use Rattle.cfi_c.specs.PassedModules.{code_end, code_start};

    ghost start = { code_start };

    ghost end = { code_end };

    fn start(&self) -> u64 {
        self.start
    }

    fn end(&self) -> u64 {
        self.end
    }
}

/// Whether the module's section is `.debug_frame`: it says so, and has no header.
pub fn is_debug_frame(module: &CfiModule<'_>) -> bool
    ensures { result ≡ is_debug_frame module.now }
{
    module.bases.debug_frame && module.header.is_empty()
}

/// The first module whose code the address is in: by halving, if the modules are in order.
pub fn module_at<'m, 'a>(
    modules: &'m [CfiModule<'a>],
    are_in_order: bool,
    address: u64,
) -> Option<&'m CfiModule<'a>>
    requires { are_in_order ≡ true → are_sorted code_start code_end 0 modules.now ≡ true }
    ensures { option_map (λ loaded. loaded.now) result ≡ passed_module_at modules.now address }
{
    if are_in_order {
        return code_at(modules, address);
    }
    match module_index(modules, address) {
        Some(index) => Some(&modules[index]),
        None => None,
    }
}

/// How many modules are before it.
fn module_index(modules: &[CfiModule<'_>], address: u64) -> Option<usize>
    ensures index { result ≡ position (λ loaded. has_code loaded address) modules.now }
    ensures bound { IfSome result (λ index. index < length modules.now) }
{
    modules.iter().position(|module| has_code(module, address))
}

/// The module with its sections, whose addresses have this size. They are given at the addresses of
/// the process, so there is no bias.
pub fn loaded_of<'a>(
    module: &CfiModule<'a>,
    size: u8,
) -> LoadedModule<'a, EndianSlice<'a, RunTimeEndian>>
    requires { IsAddressSize size }
    ensures bytes { (eh_frame_view (slice_position is_big) result.frame).position
        ≡ slice_over module.now.section.now module.now.bases.big_endian }
    ensures section { section_view (slice_position is_big) result.frame result.bases
        ≡ eh_frame_of (sized size module.now.bases) module.now.section.now }
    ensures header { option_map
        (λ header. unparsed_view (slice_position is_big) header size result.bases) result.header
        ≡ option_map (passed_header (sized size module.now.bases))
        (header_in module.now.header.now) }
    ensures compiled { result.compiled ≡ None }
    ensures debug { result.debug ≡ None }
    ensures bias { result.bias ≡ 0 }
{
    let bases = &module.bases;
    let mut frame = EhFrame::new(module.section, endian_of(bases));
    frame.set_address_size(size);
    frame.set_vendor(vendor_of(bases));
    LoadedModule {
        start: module.start,
        end: module.end,
        bias: 0,
        file: 0,
        frame,
        header: header_of(module),
        bases: bases_of(bases),
        compiled: None,
        debug: None,
    }
}

/// The header of the module, if there is one.
fn header_of<'a>(module: &CfiModule<'a>) -> Option<EhFrameHdr<EndianSlice<'a, RunTimeEndian>>>
    ensures { option_map (λ header. slice_position is_big (header_reader header)) result
        ≡ option_map (λ bytes. slice_over bytes module.now.bases.big_endian)
        (header_in module.now.header.now) }
{
    if module.header.is_empty() {
        None
    } else {
        Some(EhFrameHdr::new(module.header, endian_of(&module.bases)))
    }
}
