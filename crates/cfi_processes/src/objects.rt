//! Files of a profile as modules: their call frames, where a process has mapped them.
ghost use Rattle.std.specs.Prelude.{◌≡◌, ⊤, option_map};
ghost use Rattle.cfi_entry.specs.Sections.{DebugFrame as debug_frame_kind};
ghost use Rattle.gimli_cfi.specs.SectionSources.{given_as, source_view};
ghost use Rattle.cfi_elf.specs.ElfFiles.{file_view};
ghost use Rattle.cfi_elf.specs.Images.{image_view};
ghost use Rattle.cfi_object.specs.CallFrames.{eh_frame_of};
ghost use Rattle.cfi_processes.specs.Modules.{debug_view};
ghost use Rattle.cfi_processes.specs.Objects.{bias_by, code_addresses, debug_by};
ghost use Rattle.cfi_mapped.specs.FileBuilds.{there};
ghost use Rattle.cfi_processes.specs.Objects.{debug_for, debug_in, debug_section};

use cfi_compiled::CompiledTable;
use cfi_elf::{ElfFile, Image};
use cfi_mapped::mappings::MappedCode;
use cfi_object::{debug_frame, eh_frame, given_section};
use cfi_step::{DebugTable, LoadedModule};
use gimli_cfi::{
    BaseAddresses, DebugFrame, EhFrame, EhFrameHdr, EndianSlice, Error, RunTimeEndian, SectionKind,
    SectionSource,
};
use std::alloc::{AllocError, Global};

/// `.debug_frame`, with the bases of its pointers.
pub struct DebugSection<'file> {
    frame: DebugFrame<EndianSlice<'file, RunTimeEndian>>,
    bases: BaseAddresses,
}

impl Clone for DebugSection<'_> {
    ghost is_clone = { λ x y. y ≡ x };

    ghost is_infallible = { λ _. ⊤ };

    fn clone(&self) -> std::result::Result<Self, AllocError> {
        Ok(*self)
    }
}

impl Copy for DebugSection<'_> {}

/// A file of a profile: its segments and its call frames. The bytes are borrowed, not copied.
pub struct Object<'file> {
    file: ElfFile<'file>,
    /// `.eh_frame`.
    frame: EhFrame<EndianSlice<'file, RunTimeEndian>>,
    /// `.eh_frame_hdr`, if there is one.
    header: Option<EhFrameHdr<EndianSlice<'file, RunTimeEndian>>>,
    /// Where both are in the file's addresses.
    bases: BaseAddresses,
    /// `.debug_frame` of the file or of its debug file, if there is one.
    debug: Option<DebugSection<'file>>,
}

impl Clone for Object<'_> {
    ghost is_clone = { λ x y. y ≡ x };

    ghost is_infallible = { λ _. ⊤ };

    fn clone(&self) -> std::result::Result<Self, AllocError> {
        Ok(*self)
    }
}

impl Copy for Object<'_> {}

impl<'file> Object<'file> {
    ghost use Rattle.std.specs.Prelude.{Some, IfErr, IfOk, IfSome, option_map};
    ghost use Rattle.cfi_compiled.specs.CompiledTables.{IsCompiled};
    ghost use Rattle.cfi_elf.specs.ElfFiles.{file_view};
    ghost use Rattle.cfi_elf.specs.Images.{image_view};
    ghost use Rattle.cfi_processes.specs.Modules.{loaded_module, loaded_module_view};
    ghost use Rattle.cfi_processes.specs.Objects.{HasFramesOf, IsDebugTable, bias_of, is_compiled};
    ghost use Rattle.cfi_processes.specs.Objects.{object_module, object_in, object_view};
    ghost use Rattle.cfi_processes.specs.Objects.{object_with};
    ghost use Rattle.cfi_processes.specs.Objects.{with_either};
    ghost use Rattle.gimli_cfi.specs.SectionSources.{source_view};
    ghost use Rattle.gimli_cfi.specs.Words.{OutOfMemory};

    /// The file of which these parts were read, and of its debug file those of `debug`. `.eh_frame`
    /// is the file's; `.debug_frame` is the file's, or where it has no bytes of one the debug
    /// file's. Returns `None` where it is no ELF file, and where it has neither section or its
    /// headers can't be read (`cfi_elf::ElfFile::of_image`, `cfi_object::{eh_frame, debug_frame}`).
    /// A compressed `.debug_frame` isn't read. Does not allocate.
    pub fn of(image: Image<'file>, debug: Option<Image<'file>>) -> Option<Object<'file>>
        ensures { option_map object_view result ≡ object_in (image_view image.entry)
            (option_map image_view debug.entry) }
    {
        let Ok(file) = ElfFile::of_image(image) else {
            return None;
        };
        Self::with_either(file, eh_frame_in(&file), debug_for(&file, debug))
    }

    /// The file, if it has either section.
    fn with_either(
        file: ElfFile<'file>,
        frames: Option<SectionSource<'file>>,
        debug: Option<SectionSource<'file>>,
    ) -> Option<Object<'file>>
        ensures { option_map object_view result ≡ with_either (file_view file.entry)
            (option_map source_view frames.entry) (option_map source_view debug.entry) }
    {
        match frames {
            Some(frames) => Some(Self::with_frames(file, frames, debug)),
            None => match debug {
                Some(debug) => {
                    let frames = given_section(&file, SectionKind::EhFrame, &[]);
                    Some(Self::with_frames(file, frames, Some(debug)))
                }
                None => None,
            },
        }
    }

    /// The file with these sections.
    fn with_frames(
        file: ElfFile<'file>,
        frames: SectionSource<'file>,
        debug: Option<SectionSource<'file>>,
    ) -> Object<'file>
        ensures { object_view result ≡ object_with (file_view file.entry)
            (source_view frames.entry) (option_map source_view debug.entry) }
    {
        Object {
            file,
            frame: frames.eh_frame(),
            header: frames.header(),
            bases: frames.bases,
            debug: debug_made(debug),
        }
    }

    /// How far the file's code is moved where it is mapped: an address of the file plus the bias,
    /// modulo 2^64, is that in the process. Returns `None` where no executable segment has the
    /// bytes that are mapped, and where the program headers can't be read.
    ///
    /// The byte at `mapped.start` is the one at `mapped.offset` in the file, so it has the address
    /// `ElfFile::address_of_offset` there (System V ABI chapter 5, "Program Loading"). Does not
    /// allocate.
    pub fn bias(&self, mapped: &MappedCode) -> Option<u64>
        ensures { result ≡ bias_of (object_view self.now) mapped.now }
    {
        bias_in(&self.file, mapped)
    }

    /// Whether the file has a compiled table: where it has no header, so that each row that isn't
    /// kept would be found by a scan of the section. Does not allocate.
    pub fn has_table(&self) -> bool
        ensures { result ≡ is_compiled (object_view self.now) }
    {
        self.header.is_none()
    }

    /// Returns the compiled table of the file's `.eh_frame`, at the addresses that the file has.
    /// Fails with `OutOfMemory`, only where memory is refused.
    pub fn compile(&self, alloc: Global) -> Result<CompiledTable, Error>
        ensures table { IfOk result (IsCompiled (Some 192) (Some 4)
            (object_view self.now).section) }
        ensures err { IfErr result (λ error. error ≡ OutOfMemory) }
    {
        CompiledTable::new(alloc, &self.frame, &self.bases)
    }

    /// Returns the compiled table of `.debug_frame`, at the addresses that the file has; `None`
    /// where there is no such section. Fails with `OutOfMemory`, only where memory is refused.
    pub fn compile_debug(&self, alloc: Global) -> Result<Option<CompiledTable>, Error>
        ensures table { IfOk result (IsDebugTable (object_view self.now).debug) }
        ensures err { IfErr result (λ error. error ≡ OutOfMemory) }
    {
        match &self.debug {
            Some(debug) => Ok(Some(CompiledTable::new(alloc, &debug.frame, &debug.bases)?)),
            None => Ok(None),
        }
    }

    /// The module that the file is where it is mapped, with the file's number among those of the
    /// profile and these compiled tables of it: its code is that between the two addresses, and its
    /// sections are at the addresses of the file. Returns `None` where there is no bias. Does not
    /// allocate.
    pub fn module<'a>(
        &'a self,
        number: usize,
        table: Option<&'a CompiledTable>,
        debug: Option<&'a CompiledTable>,
        mapped: &MappedCode,
    ) -> Option<LoadedModule<'a, EndianSlice<'file, RunTimeEndian>>>
        ensures module { option_map loaded_module_view result
            ≡ object_module number (object_view self.now)
            (record {
              table = option_map (λ table. table.now) table.entry;
              debug = option_map (λ table. table.now) debug.entry;
            }) mapped.now }
        ensures frames { IfSome result (HasFramesOf number self.now) }
    {
        let bias = self.bias(mapped)?;
        let debug = debug_by(&self.debug, debug);
        Some(self.module_with(bias, number, table, debug, mapped))
    }

    /// The module, with this bias.
    fn module_with<'a>(
        &self,
        bias: u64,
        number: usize,
        table: Option<&'a CompiledTable>,
        debug: Option<DebugTable<'a, EndianSlice<'file, RunTimeEndian>>>,
        mapped: &MappedCode,
    ) -> LoadedModule<'a, EndianSlice<'file, RunTimeEndian>>
        ensures module { loaded_module_view result
            ≡ loaded_module number (object_view self.now).section
            (object_view self.now).header (option_map (λ table. table.now) table.entry)
            (option_map debug_view debug.entry) mapped.now bias }
        ensures frames { HasFramesOf number self.now result }
    {
        LoadedModule {
            start: mapped.start,
            end: mapped.end,
            bias,
            file: number,
            frame: self.frame,
            header: self.header,
            bases: self.bases,
            compiled: table,
            debug,
        }
    }
}

/// `.eh_frame` of a file, if it can be read.
fn eh_frame_in<'file>(file: &ElfFile<'file>) -> Option<SectionSource<'file>>
    ensures { option_map source_view result ≡ there (eh_frame_of (file_view file.now)) }
{
    match eh_frame(file) {
        Ok(frames) => frames,
        Err(_) => None,
    }
}

/// `.debug_frame` of a file, if it can be read and has bytes.
fn debug_in<'file>(file: &ElfFile<'file>) -> Option<SectionSource<'file>>
    ensures { option_map source_view result ≡ debug_in (file_view file.now) }
{
    match debug_frame(file) {
        Ok(Some(frames)) => {
            if frames.bytes.is_empty() {
                None
            } else {
                Some(frames)
            }
        }
        _ => None,
    }
}

/// `.debug_frame` of a file, or else of its debug file.
fn debug_for<'file>(
    file: &ElfFile<'file>,
    debug: Option<Image<'file>>,
) -> Option<SectionSource<'file>>
    ensures { option_map source_view result ≡ debug_for (file_view file.now)
        (option_map image_view debug.entry) }
{
    if let Some(frames) = debug_in(file) {
        return Some(frames);
    }
    let debug_file = ElfFile::of_image(debug?).ok()?;
    debug_in(&debug_file)
}

/// The section as `.debug_frame`, if there is one.
fn debug_made<'file>(source: Option<SectionSource<'file>>) -> Option<DebugSection<'file>>
    ensures { option_map debug_section result
        ≡ option_map (given_as debug_frame_kind) (option_map source_view source.entry) }
{
    match source {
        Some(source) => Some(debug_section(&source)),
        None => None,
    }
}

/// The section as `.debug_frame`.
fn debug_section<'file>(source: &SectionSource<'file>) -> DebugSection<'file>
    ensures { debug_section result ≡ given_as debug_frame_kind (source_view source.now) }
{
    let mut frame = DebugFrame::new(source.bytes, source.endian);
    frame.set_address_size(source.address_size.bytes());
    frame.set_vendor(source.vendor);
    DebugSection {
        frame,
        bases: source.bases,
    }
}

/// `.debug_frame` with its compiled table, if both are there.
fn debug_by<'a, 'file>(
    debug: &'a Option<DebugSection<'file>>,
    table: Option<&'a CompiledTable>,
) -> Option<DebugTable<'a, EndianSlice<'file, RunTimeEndian>>>
    ensures { option_map debug_view result ≡ debug_by (option_map debug_section debug.now)
        (option_map (λ table. table.now) table.entry) }
{
    match debug {
        Some(debug) => Some(DebugTable {
            frame: &debug.frame,
            compiled: table?,
        }),
        None => None,
    }
}

/// How far a file's code is moved where it is mapped (`Object::bias`). Does not allocate.
pub fn bias_in(file: &ElfFile<'_>, mapped: &MappedCode) -> Option<u64>
    ensures { result ≡ bias_by (code_addresses (file_view file.now)) mapped.now }
{
    match file.address_of_offset(mapped.offset) {
        Ok(Some(address)) => Some(mapped.start.wrapping_sub(address)),
        _ => None,
    }
}
