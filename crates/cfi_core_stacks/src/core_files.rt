//! The files that are opened for a core file.
ghost use Rattle.std.specs.Prelude.{◌≡◌, List, IfOk, IfSome, OnOk, map, option_map, true};
ghost use Rattle.cfi_cores.specs.CoreSegments.{segment_view};
ghost use Rattle.cfi_cores.specs.CoreFiles.{core_view};
ghost use Rattle.cfi_cores.specs.MappedFiles.{mapping_view};
ghost use Rattle.cfi_mapped.specs.CodeParts.{is_whole};
ghost use Rattle.cfi_mapped.specs.OpenedFiles.{AreOpenedAs, Opened, are_whole};
ghost use Rattle.cfi_mapped.specs.Wanted.{wanted_view};
ghost use Rattle.cfi_core_stacks.specs.CoreCode.{AreOpenedFor, IsVdsoAs, core_code_file};
ghost use Rattle.cfi_core_stacks.specs.CoreCode.{core_code_files, is_code, is_file_of_code};
ghost use Rattle.cfi_core_stacks.specs.CoreCode.{vdso_file};
ghost use Rattle.cfi_core_stacks.specs.CoreCode.{with_vdso_file};

use cfi_cores::builds::{build_of, image_of};
use cfi_cores::vdso::vdso_name;
use cfi_cores::{Core, CoreMapping, CoreSegment};
use cfi_mapped::Opener;
use cfi_mapped::code_parts::CodeParts;
use cfi_mapped::file_list::FileList;
use cfi_mapped::opened_file::OpenedFile;
use cfi_mapped::read_files::read_files;
use cfi_mapped::wanted::WantedFile;
use std::alloc::{AllocError, Global};

/// The files that are mapped as code, each once, in the order of the mappings, with the builds that
/// the core has of them (`cfi_cores::builds::build_of`). Fails where memory is refused.
pub fn code_files<'run>(
    alloc: Global,
    segments: &[CoreSegment<'run>],
    mapped: &[CoreMapping<'run>],
) -> Result<Vec<WantedFile<'run>>, AllocError>
    ensures { IfOk result (λ files. map wanted_view files.items
        ≡ core_code_files (map segment_view segments.now) (map mapping_view mapped.now)) }
{
    let mut files = FileList::new(alloc);
    for mapping in mapped {
        files.push(code_file(segments, mapped, mapping))?;
    }
    Ok(files.into_list())
}

/// The file that is mapped, if it is mapped as code.
fn code_file<'run>(
    segments: &[CoreSegment<'run>],
    mapped: &[CoreMapping<'run>],
    mapping: &CoreMapping<'run>,
) -> Option<WantedFile<'run>>
    ensures { option_map wanted_view result ≡ core_code_file (map segment_view segments.now)
        (map mapping_view mapped.now) (mapping_view mapping.now) }
{
    if is_file_of_code(segments, mapping) {
        Some(WantedFile {
            name: mapping.name,
            build_id: build_of(segments, mapped, mapping.name),
            process: None,
        })
    } else {
        None
    }
}

/// Whether code of a file may be mapped: the vdso isn't one.
fn is_file_of_code(segments: &[CoreSegment<'_>], mapping: &CoreMapping<'_>) -> bool
    ensures { result ≡ is_file_of_code (map segment_view segments.now) (mapping_view mapping.now) }
{
    is_code(segments, mapping) && mapping.name != b"[vdso]".as_slice()
}

/// Whether code may be mapped: no segment of the core begins there that isn't executable.
pub(crate) fn is_code(segments: &[CoreSegment<'_>], mapping: &CoreMapping<'_>) -> bool
    ensures { result ≡ is_code (map segment_view segments.now) (mapping_view mapping.now) }
{
    segments.iter().all(|segment| segment.is_executable || segment.start != mapping.start)
}

/// Opens the files that are mapped as code, reads what is needed of them or all of each, and puts
/// the vdso after them (`read_files`, `push_vdso`). Fails where memory is refused.
pub(crate) fn opened_files<'run, O: Opener>(
    alloc: Global,
    whole: bool,
    opener: &O,
    core: &Core<'run>,
) -> Result<Vec<OpenedFile<'run>>, AllocError>
    ensures opened { IfOk result (λ opened. (all : List Opened)
        × AreOpenedFor (O.may_open opener.now) O.File.remaining (core_view core.now) all
        × AreOpenedAs opened.items all) }
    ensures whole { IfOk result (λ opened. whole ≡ true → are_whole opened.items ≡ true) }
{
    let wanted = code_files(alloc, core.segments.as_slice(), core.mapped.as_slice())?;
    let mut opened = read_files(alloc, whole, opener, wanted.as_slice())?;
    push_vdso(alloc, core, &mut opened)?;
    Ok(opened)
}

/// Puts the vdso after the files that were opened, with the bytes that the core has of it, if it
/// has any. Fails where memory is refused.
pub fn push_vdso<'run>(
    alloc: Global,
    core: &Core<'run>,
    opened: &mut Vec<OpenedFile<'run>>,
) -> Result<(), AllocError>
    ensures opened { OnOk result ((all : List Opened) → AreOpenedAs opened.old.items all
        → AreOpenedAs opened.new.items (with_vdso_file (core_view core.now) all)) }
    ensures whole { OnOk result (are_whole opened.old.items ≡ true
        → are_whole opened.new.items ≡ true) }
{
    match vdso_file(alloc, core)? {
        Some(file) => {
            opened.push(file)?;
            Ok(())
        }
        None => Ok(()),
    }
}

/// The vdso as a file that was opened, if the core has it. Fails where memory is refused.
fn vdso_file<'run>(alloc: Global, core: &Core<'run>) -> Result<Option<OpenedFile<'run>>, AllocError>
    ensures vdso { IfOk result (λ file. IsVdsoAs file (vdso_file (core_view core.now))) }
    ensures whole { IfOk result (λ file. IfSome file (λ one. is_whole one.code ≡ true)) }
{
    let name = vdso_name();
    let segments = core.segments.as_slice();
    let mapped = core.mapped.as_slice();
    let Some(image) = image_of(segments, mapped, name) else {
        return Ok(None);
    };
    Ok(Some(OpenedFile {
        name,
        build_id: build_of(segments, mapped, name),
        code: Some(CodeParts::whole(alloc, image.to_vec(alloc)?)),
        debug: None,
        process: None,
        map_name: None,
    }))
}
