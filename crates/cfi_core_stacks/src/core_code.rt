//! What is mapped as code in the process of a core.
ghost use Rattle.std.specs.Prelude.{◌≡◌, List, IfOk, map, true};
ghost use Rattle.cfi_cores.specs.CoreSegments.{AreByAddress, segment_view};
ghost use Rattle.cfi_cores.specs.CoreFiles.{core_view};
ghost use Rattle.cfi_cores.specs.MappedFiles.{mapping_view};
ghost use Rattle.cfi_processes.specs.FileModules.{AreModulesOfFiles};
ghost use Rattle.cfi_processes.specs.KnownFiles.{known_view};
ghost use Rattle.cfi_processes.specs.ProcessModules.{modules_in};
ghost use Rattle.cfi_processes.specs.Modules.{loaded_module_view};
ghost use Rattle.cfi_mapped.specs.OpenedFiles.{AreOpenedAs, Opened, are_whole};
ghost use Rattle.cfi_core_stacks.specs.CoreWindows.{AreKnownWindows};
ghost use Rattle.cfi_core_stacks.specs.CoreCode.{core_mapped_code, core_mappings};

use crate::core_files::is_code;
use crate::core_windows::known_windows;
use cfi_cores::{Core, CoreMapping, CoreSegment};
use cfi_mapped::mappings::{MappedCode, Mappings};
use cfi_mapped::opened_file::OpenedFile;
use cfi_processes::process_code::ProcessCode;
use cfi_processes::process_modules::FileModule;
use cfi_processes::profile_files::ProfileFile;
use std::alloc::{AllocError, Global};

/// What is mapped as code in the process of a core, the modules of that, and what the files have of
/// its memory.
#[derive(Drop)]
pub struct CoreCode<'a, 'run> {
    /// What is mapped as code.
    pub mappings: Mappings,
    /// The modules of that.
    pub modules: Vec<FileModule<'a, 'run>>,
    /// What the files have of the memory, in the order of addresses.
    pub windows: Vec<CoreSegment<'run>>,
}

/// What is mapped as code, and its modules, and what the files have of the memory if the core was
/// read whole: a walk that lacks nothing in the stack is the one over all of the memory. Fails
/// where memory is refused.
pub fn core_code<'a, 'run>(
    alloc: Global,
    is_whole: bool,
    core: &Core<'_>,
    opened: &'run [OpenedFile<'_>],
    files: &'a [ProfileFile<'run>],
) -> Result<CoreCode<'a, 'run>, AllocError>
    requires { is_whole ≡ true → are_whole opened.now ≡ true }
    ensures mappings { IfOk result (λ code. code.mappings ≡ core_mappings
        (map known_view files.now) (core_view core.now).segments (core_view core.now).mapped) }
    ensures modules { IfOk result (λ code. map loaded_module_view code.modules.items
        ≡ modules_in (map known_view files.now) code.mappings) }
    ensures files { IfOk result (λ code. AreModulesOfFiles files.now code.modules.items) }
    ensures windows { (all : List Opened) → AreOpenedAs opened.now all
        → IfOk result (λ code. AreKnownWindows is_whole all (core_view core.now).mapped
        (map segment_view code.windows.items)) }
    ensures in_order { IfOk result (λ code. AreByAddress code.windows.items) }
{
    let mapped = core.mapped.as_slice();
    let mappings = mapped_code(alloc, core.segments.as_slice(), mapped, files)?;
    let modules = modules_of(alloc, mappings.as_slice(), files)?;
    let windows = known_windows(alloc, is_whole, mapped, opened)?;
    Ok(CoreCode {
        mappings,
        modules,
        windows,
    })
}

/// What is mapped as code. Fails where memory is refused.
fn mapped_code(
    alloc: Global,
    segments: &[CoreSegment<'_>],
    mapped: &[CoreMapping<'_>],
    files: &[ProfileFile<'_>],
) -> Result<Mappings, AllocError>
    ensures { IfOk result (λ mappings. mappings ≡ core_mappings (map known_view files.now)
        (map segment_view segments.now) (map mapping_view mapped.now)) }
{
    let mut mappings = Mappings::new(alloc);
    for mapping in mapped {
        if is_code(segments, mapping) {
            mappings.map(alloc, mapped_in(files, mapping))?;
        }
    }
    Ok(mappings)
}

/// What is mapped, with the number of its file.
fn mapped_in(files: &[ProfileFile<'_>], mapping: &CoreMapping<'_>) -> MappedCode
    ensures { result ≡ core_mapped_code (map known_view files.now) (mapping_view mapping.now) }
{
    MappedCode {
        start: mapping.start,
        end: mapping.end,
        offset: mapping.offset,
        object: files
            .iter()
            .position(|file| file.name.bytes() == mapping.name),
    }
}

/// The modules of what is mapped. Fails where memory is refused.
fn modules_of<'a, 'run>(
    alloc: Global,
    mappings: &[MappedCode],
    files: &'a [ProfileFile<'run>],
) -> Result<Vec<FileModule<'a, 'run>>, AllocError>
    ensures modules { IfOk result (λ modules. map loaded_module_view modules.items
        ≡ modules_in (map known_view files.now) mappings.now) }
    ensures files { IfOk result (λ modules. AreModulesOfFiles files.now modules.items) }
{
    let mut modules = Vec::new(alloc);
    let code = ProcessCode { mappings, files };
    code.push_modules(&mut modules)?;
    Ok(modules)
}
