//! What the headers and the notes of a core file say, by the parts that were read of it.
ghost use Rattle.std.specs.Prelude.{◌≡◌, ℕ, List, IfOk, IfSome, length};
ghost use Rattle.cfi_elf.specs.Images.{IsImageOf, image_view};
ghost use Rattle.cfi_elf.specs.SegmentLists.{segments_left};
ghost use Rattle.cfi_cores.specs.Contents.{contents_view, contents_of_headers};
ghost use Rattle.cfi_cores.specs.CoreHeads.{HasHeads, HasHeadsOf, loaded_headers};

use crate::contents::Contents;
use crate::core_file::{core_elf, machine_of, or_none, segments_of_elf, with_fault, with_vdso};
use crate::core_notes::read_noted;
use crate::error::CoreError;
use crate::fault::fault_by;
use crate::mapped_files::CoreMapping;
use crate::thread::CoreThread;
use crate::vdso::vdso_of;
use cfi_elf::constants::PT_LOAD;
use cfi_elf::{Image, ProgramHeader, Segments};
use cfi_processes::SampleMachine;
use std::alloc::{AllocError, Global};

/// The bytes of the longest header of an ELF file.
pub(crate) const HEADER_SIZE: usize = 64;

/// Where there are more program headers, section 0 has their number.
const PN_XNUM: u16 = 0xffff;

/// What the headers and the notes of a core file say.
#[derive(Drop)]
pub(crate) struct CoreHeads<'run> {
    pub(crate) machine: SampleMachine,
    pub(crate) name: Option<&'run [u8]>,
    pub(crate) threads: Vec<CoreThread<'run>>,
    pub(crate) error: Option<CoreError>,
    /// What is mapped, with the vdso.
    pub(crate) mapped: Vec<CoreMapping<'run>>,
    /// The headers of the segments that are loaded, by rising addresses.
    pub(crate) places: Vec<ProgramHeader>,
}

/// What the headers and the notes of a core file say, by the beginning of the file and the notes
/// that were read. `None` where something is lacking, or can't be read. Fails where memory is
/// refused.
pub(crate) fn core_heads<'run>(
    alloc: Global,
    image: Image<'run>,
) -> Result<Option<CoreHeads<'run>>, AllocError>
    ensures { (bytes : List ℕ) → IsImageOf (image_view image.entry) bytes
        → IfOk result (λ found. IfSome found (HasHeadsOf bytes)) }
{
    let first = image.first;
    if first.len() < HEADER_SIZE {
        return Ok(None);
    }
    let Ok(file) = core_elf(first) else {
        return Ok(None);
    };
    if file.header().sizes.e_phnum == PN_XNUM {
        return Ok(None);
    }
    let Ok(machine) = machine_of(&file) else {
        return Ok(None);
    };
    let Ok(headers) = segments_of_elf(&file) else {
        return Ok(None);
    };
    let Some(contents) = read_noted(alloc, machine, image, headers)? else {
        return Ok(None);
    };
    match heads_by(alloc, machine, image, headers, contents) {
        Ok(heads) => Ok(Some(heads)),
        Err(error) => Err(error),
    }
}

/// What these headers say, and their notes, which say this. Fails where memory is refused.
fn heads_by<'run>(
    alloc: Global,
    machine: SampleMachine,
    image: Image<'run>,
    headers: Segments<'run>,
    contents: Contents<'run>,
) -> Result<CoreHeads<'run>, AllocError>
    ensures { (bytes : List ℕ) → length bytes ≡ image.entry.length
        → contents_view contents.entry
        ≡ contents_of_headers machine bytes (segments_left headers.entry)
        → IfOk result (HasHeads machine bytes (segments_left headers.entry)) }
{
    let vdso = vdso_of(image.length, headers, contents.vector);
    let files = or_none(alloc, contents.mapped);
    let mut places = loaded_headers(alloc, headers)?;
    places.sort_by_key(|place| place.p_vaddr)?;
    Ok(CoreHeads {
        machine,
        name: contents.name,
        threads: with_fault(contents.threads, fault_by(contents.siginfo)),
        error: contents.error,
        mapped: with_vdso(files, vdso)?,
        places,
    })
}

/// The headers of the segments that are loaded, in their order. Fails where memory is refused.
fn loaded_headers(alloc: Global, headers: Segments<'_>) -> Result<Vec<ProgramHeader>, AllocError>
    ensures { IfOk result (λ list. list.items ≡ loaded_headers (segments_left headers.entry)) }
{
    let mut list = Vec::new(alloc);
    for header in headers {
        if header.p_type == PT_LOAD {
            list.push(header)?;
        }
    }
    Ok(list)
}
