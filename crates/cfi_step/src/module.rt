//! A loaded module, and the FDE of an address of its code.
ghost use Rattle.std.specs.Prelude.{◌≡◌, IfOk};
ghost use Rattle.cfi_read_core.specs.Addresses.{IsAddressSize};
ghost use Rattle.cfi_read_core.specs.ReaderCalls.{map_ok};
ghost use Rattle.cfi_entry.specs.Fdes.{Covers};
ghost use Rattle.cfi_entry.specs.SectionViews.{eh_frame_view};
ghost use Rattle.cfi_unwind.specs.FdeViews.{HasCieOf, IsFdeOf, fde_view};
ghost use Rattle.cfi_step.specs.Modules.{IsFoundIn, address_in_file, has_code};

use crate::code_ranges::{HasCode, has_code};
use cfi_compiled::CompiledTable;
use gimli_cfi::{
    BaseAddresses, DebugFrame, EhFrame, EhFrameHdr, FrameDescriptionEntry, Reader, fde_by_header,
    scan_for_fde,
};

/// `.debug_frame` of a module, with its compiled table.
#[derive(Clone, Copy, Debug)]
pub struct DebugTable<'a, R> {
    /// `.debug_frame`, which has the bytes of the expressions in rows.
    pub frame: &'a DebugFrame<R>,
    /// The compiled table of it, at the addresses that the file has.
    pub compiled: &'a CompiledTable,
}

/// A module as it is loaded: its code, and its call frames.
///
/// The code is at the addresses of the process. The sections are at those that the file has, so
/// that all processes share what is made of them, wherever each has loaded the file. A module whose
/// sections are given at the addresses of the process has a bias of 0.
#[derive(Clone, Copy, Debug)]
pub struct LoadedModule<'a, R> {
    /// The first address of its code.
    pub start: u64,
    /// The first address after its code.
    pub end: u64,
    /// How far the file is moved: an address of the file plus the bias, modulo 2^64, is that of the
    /// process.
    pub bias: u64,
    /// A number that the modules of one file share. Only a cache of rows goes by it
    /// (`unwind_cached`).
    pub file: usize,
    /// `.eh_frame`.
    pub frame: EhFrame<R>,
    /// `.eh_frame_hdr`, if there is one.
    pub header: Option<EhFrameHdr<R>>,
    /// Where the sections are in the file's addresses.
    pub bases: BaseAddresses,
    /// The compiled table of the file's `.eh_frame`, if there is one. Then the header isn't asked.
    pub compiled: Option<&'a CompiledTable>,
    /// `.debug_frame`, if it is asked where `.eh_frame` has no FDE for an address.
    pub debug: Option<DebugTable<'a, R>>,
}

impl<R> LoadedModule<'_, R> {
    /// Whether the address is in the module's code.
    pub fn has_code(&self, address: u64) -> bool
        ensures { result ≡ has_code self.now address }
    {
        has_code(self, address)
    }

    /// The address that the file has for an address of the process: it is less by the bias, modulo
    /// 2^64.
    pub fn address_in_file(&self, address: u64) -> u64
        ensures { result ≡ address_in_file self.now.bias address }
    {
        address.wrapping_sub(self.bias)
    }
}

impl<R> HasCode for LoadedModule<'_, R> {
    ghost use Rattle.cfi_step.specs.Modules.{code_end, code_start};

    ghost start = { code_start };

    ghost end = { code_end };

    #[inline(always)]
    fn start(&self) -> u64 {
        self.start
    }

    #[inline(always)]
    fn end(&self) -> u64 {
        self.end
    }
}

/// The FDE of a module for an address of its file (`address_in_file`), by the table of its header;
/// by a scan of its section if it has no header, or one without a table. The address size is 1, 2,
/// 4 or 8. A compiled table has no FDEs, so it isn't asked, nor is that of `.debug_frame`.
///
/// The FDE contains the address. Fails as `EhFrameHdr::parse` and `EhHdrTable::fde_for_address`, or
/// as `scan_for_fde`. Does not allocate.
pub fn fde_in_module<R: Reader>(
    loaded: &LoadedModule<'_, R>,
    address_size: u8,
    address: u64,
) -> gimli_cfi::Result<FrameDescriptionEntry<R>>
    requires { IsAddressSize address_size }
    ensures found { IsFoundIn R.position address_size loaded.now address
        (map_ok (fde_view R.position R.Offset.number) result) }
    ensures part { IfOk result
        (IsFdeOf R.position (eh_frame_view R.position loaded.now.frame).position) }
    ensures cie_part { IfOk result
        (HasCieOf R.position (eh_frame_view R.position loaded.now.frame).position) }
    ensures contains { IfOk result (λ fde.
        Covers (fde_view R.position R.Offset.number fde) address) }
{
    match &loaded.header {
        Some(header) => {
            fde_by_header(header, address_size, &loaded.frame, &loaded.bases, address)
        }
        None => scan_for_fde(&loaded.frame, &loaded.bases, address),
    }
}
