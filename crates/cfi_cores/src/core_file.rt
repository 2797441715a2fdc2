//! A core file.
ghost use Rattle.std.specs.Prelude.{◌≡◌, [], IfOk, map, option_map};
ghost use Rattle.cfi_read_core.specs.ReaderCalls.{map_ok};
ghost use Rattle.cfi_elf.specs.ElfFiles.{file_view};
ghost use Rattle.cfi_elf.specs.Options.{or_this};
ghost use Rattle.cfi_elf.specs.SegmentLists.{segments_left};
ghost use Rattle.cfi_cores.specs.CoreSegments.{AreByAddress};
ghost use Rattle.cfi_cores.specs.CoreFiles.{IsCore, IsSortedCore, core_elf, core_headers};
ghost use Rattle.cfi_cores.specs.CoreFiles.{core_view, core_with, machine_of, with_vdso};
ghost use Rattle.cfi_cores.specs.CoreThreads.{thread_view};
ghost use Rattle.cfi_cores.specs.Faults.{with_fault};
ghost use Rattle.cfi_cores.specs.MappedFiles.{mappings_view, mapping_view};

use crate::contents::read_contents;
use crate::error::CoreError;
use crate::fault::{Fault, fault_by};
use crate::mapped_files::CoreMapping;
use crate::segments::{CoreSegment, loaded_segments};
use crate::thread::CoreThread;
use crate::vdso::vdso_by;
use cfi_elf::constants::{EM_AARCH64, EM_X86_64};
use cfi_elf::{Class, ElfFile, Segments};
use cfi_processes::SampleMachine;
use cfi_read_core::Endianity;
use std::alloc::{AllocError, Global};

/// What a core file has. Its bytes are borrowed, not copied.
#[derive(Drop)]
pub struct Core<'run> {
    /// The machine (`e_machine`).
    pub machine: SampleMachine,
    /// The name of the process (`pr_fname`), if the notes have it.
    pub name: Option<&'run [u8]>,
    /// The threads, in the order of the notes.
    pub threads: Vec<CoreThread<'run>>,
    /// The files that were mapped, in the order of the first note that tells of them; then the
    /// vdso, if the auxiliary vector says where it was mapped (`vdso_name`).
    pub mapped: Vec<CoreMapping<'run>>,
    /// The segments that were loaded, by rising addresses. Each has the bytes that the file has of
    /// it: none where the memory was not dumped, or the file is cut.
    pub segments: Vec<CoreSegment<'run>>,
    /// What ended the reading of the notes, if anything did. What was read before is there.
    pub error: Option<CoreError>,
}

/// Reads the core file that these bytes are: of x86-64 or AArch64, of 64 bits, with the least
/// significant byte first.
///
/// Fails with `Elf`, for a file that is no core file or whose program headers can't be read, with
/// `UnknownMachine`, and with `OutOfMemory`. An error in the notes is in the core: `NoteCut`,
/// `ThreadCut` or `FilesCut`. Allocates the lists (core(5)).
pub fn read_core<'run>(alloc: Global, bytes: &'run [u8]) -> Result<Core<'run>, CoreError>
    ensures core { IsCore bytes.now result }
    ensures in_order { IfOk result (λ core. AreByAddress core.segments.items) }
{
    let file = core_elf(bytes)?;
    let machine = machine_of(&file)?;
    let headers = segments_of_elf(&file)?;
    match core_with(alloc, machine, bytes, headers) {
        Ok(core) => Ok(core),
        Err(_) => Err(CoreError::OutOfMemory),
    }
}

/// What the notes and the segments of these headers have. Fails where memory is refused.
fn core_with<'run>(
    alloc: Global,
    machine: SampleMachine,
    bytes: &'run [u8],
    headers: Segments<'run>,
) -> Result<Core<'run>, AllocError>
    ensures core { IfOk result (λ core. IsSortedCore
        (core_with machine bytes.now (segments_left headers.entry)) (core_view core)) }
    ensures in_order { IfOk result (λ core. AreByAddress core.segments.items) }
{
    let contents = read_contents(alloc, machine, bytes, headers)?;
    let mut segments = loaded_segments(alloc, bytes, headers)?;
    let vdso = vdso_by(segments.as_slice(), contents.vector);
    segments.sort_by_key(|segment| segment.start)?;
    Ok(Core {
        machine,
        name: contents.name,
        threads: with_fault(contents.threads, fault_by(contents.siginfo)),
        mapped: with_vdso(or_none(alloc, contents.mapped), vdso)?,
        segments,
        error: contents.error,
    })
}

/// The threads, of which the first one has this fault.
pub(crate) fn with_fault<'run>(
    threads: Vec<CoreThread<'run>>,
    fault: Option<Fault>,
) -> Vec<CoreThread<'run>>
    ensures { map thread_view result.items
        ≡ with_fault fault (map thread_view threads.entry.items) }
{
    let mut threads = threads;
    if !threads.is_empty() {
        threads[0].fault = fault;
    }
    threads
}

/// The list, or an empty one where there is none.
pub(crate) fn or_none<'run>(
    alloc: Global,
    list: Option<Vec<CoreMapping<'run>>>,
) -> Vec<CoreMapping<'run>>
    ensures { mappings_view result ≡ or_this [] (option_map mappings_view list.entry) }
{
    match list {
        Some(list) => list,
        None => Vec::new(alloc),
    }
}

/// The list, and the vdso behind it if it was mapped. Fails where memory is refused.
pub(crate) fn with_vdso<'run>(
    list: Vec<CoreMapping<'run>>,
    vdso: Option<CoreMapping<'run>>,
) -> Result<Vec<CoreMapping<'run>>, AllocError>
    ensures { IfOk result (λ whole. mappings_view whole
        ≡ with_vdso (mappings_view list.entry) (option_map mapping_view vdso.entry)) }
{
    let mut list = list;
    if let Some(vdso) = vdso {
        list.push(vdso)?;
    }
    Ok(list)
}

/// The file, by its header.
pub(crate) fn core_elf(bytes: &[u8]) -> Result<ElfFile<'_>, CoreError>
    ensures { map_ok file_view result ≡ core_elf bytes.now }
{
    match ElfFile::parse_core(bytes) {
        Ok(file) => Ok(file),
        Err(error) => Err(CoreError::Elf(error)),
    }
}

/// The program headers.
pub(crate) fn segments_of_elf<'run>(file: &ElfFile<'run>) -> Result<Segments<'run>, CoreError>
    ensures { map_ok segments_left result ≡ core_headers (file_view file.now) }
{
    match file.segments() {
        Ok(headers) => Ok(headers),
        Err(error) => Err(CoreError::Elf(error)),
    }
}

/// The machine, if its registers are known here.
pub(crate) fn machine_of(file: &ElfFile<'_>) -> Result<SampleMachine, CoreError>
    ensures { result ≡ machine_of (file_view file.now) }
{
    let e_machine = file.header().kind.e_machine;
    if file.class() == Class::Elf32 || file.endian().is_big_endian() {
        return Err(CoreError::UnknownMachine(e_machine));
    }
    match e_machine {
        EM_X86_64 => Ok(SampleMachine::X86_64),
        EM_AARCH64 => Ok(SampleMachine::AArch64),
        _ => Err(CoreError::UnknownMachine(e_machine)),
    }
}
