//! The stacks of the threads of a core file, one after the other.
ghost use Rattle.std.specs.Prelude.{◌≡◌, ℕ, Option, map};
ghost use Rattle.cfi_cores.specs.CoreFiles.{core_view};
ghost use Rattle.cfi_cores.specs.CoreThreads.{thread_view};
ghost use Rattle.cfi_processes.specs.Rooms.{IsRoomFor, KeepsNoRows};
ghost use Rattle.cfi_mapped.specs.Mappings.{AreMappedInOrder};
ghost use Rattle.cfi_mapped.specs.ThreadNames.{name_bytes};
ghost use Rattle.cfi_processes.specs.FileModules.{AreModulesOfFiles};
ghost use Rattle.cfi_processes.specs.KnownFiles.{known_view};
ghost use Rattle.cfi_processes.specs.Modules.{loaded_module_view};
ghost use Rattle.cfi_processes.specs.ProcessModules.{modules_in};
ghost use Rattle.cfi_processes.specs.Rooms.{HasRoom};
ghost use Rattle.cfi_core_stacks.specs.CoreCode.{core_mappings};
ghost use Rattle.cfi_core_stacks.specs.CoreOutputs.{AreThreadsPrinted, PrintsFound, WritesFound};
ghost use Rattle.cfi_core_stacks.specs.KnownCores.{IsMemoryOf, has_parts};
ghost use Rattle.cfi_core_stacks.specs.ThreadOutputs.{IsThreadText};

use crate::asked_threads::is_asked_for;
use crate::core_code::CoreCode;
use crate::core_errors::write_end;
use crate::core_process::CoreProcess;
use crate::core_text::print_found;
use crate::known_memory::{KnownMemory, walk_known};
use crate::listing::ThreadListing;
use cfi_cores::{Core, CoreThread};
use cfi_frames::names::shown_name;
use cfi_processes::process_code::ProcessCode;
use cfi_processes::profile_files::ProfileFile;
use cfi_processes::room::Room;
use std::alloc::Global;
use std::io;
use std::io::Write;

/// Prints the stacks of the threads that are asked for, and then the error that ended the notes,
/// and returns the status; `None` where a stack lacks something in the parts of the memory that are
/// known.
pub(crate) fn print_threads<W: Write>(
    alloc: Global,
    listing: ThreadListing,
    core: &Core<'_>,
    files: &[ProfileFile<'_>],
    code: &CoreCode<'_, '_>,
    memory: &KnownMemory<'_>,
    room: Room,
    output: &mut W,
) -> io::Result<Option<u8>>
    requires mappings { code.now.mappings ≡ core_mappings (map known_view files.now)
        (core_view core.now).segments (core_view core.now).mapped }
    requires modules { map loaded_module_view code.now.modules.items
        ≡ modules_in (map known_view files.now) code.now.mappings }
    requires files { AreModulesOfFiles files.now code.now.modules.items }
    requires rows { KeepsNoRows room }
    requires frames { HasRoom room.frames.items }
    ensures { (all : ℕ → ℕ → Option ℕ) → IsMemoryOf memory.now all
        → PrintsFound (λ line. AreThreadsPrinted listing (map known_view files.now) all
        (core_view core.now) line) (W.contents output.old) (W.contents output.new)
        (has_parts memory.now) result }
{
    let mut room = room;
    let modules = code.modules.as_slice();
    let name = shown_name(core.name);
    let process = CoreProcess {
        machine: core.machine,
        code: ProcessCode {
            mappings: code.mappings.as_slice(),
            files,
        },
        modules,
        name,
    };
    let threads = core.threads.as_slice();
    for thread in threads {
        if !is_asked_for(listing, thread) {
            continue;
        }
        let found = print_thread(alloc, listing, &process, memory, thread, &mut room, output)?;
        if !found {
            return Ok(None);
        }
    }
    let status = write_end(output, listing.format, core.error)?;
    Ok(Some(status))
}

/// Prints the stack of a thread, and returns whether it was found: where parts of the memory are
/// known and it lacks something in them, nothing is printed. Fails as `print_found`.
fn print_thread<W: Write>(
    alloc: Global,
    listing: ThreadListing,
    process: &CoreProcess<'_, '_, '_>,
    memory: &KnownMemory<'_>,
    thread: &CoreThread<'_>,
    room: &mut Room,
    output: &mut W,
) -> io::Result<bool>
    requires order { AreMappedInOrder 0 process.now.code.mappings.now }
    requires modules { map loaded_module_view process.now.modules.now
        ≡ modules_in (map known_view process.now.code.files.now) process.now.code.mappings.now }
    requires files { AreModulesOfFiles process.now.code.files.now process.now.modules.now }
    requires cached { IsRoomFor process.now.code.files.now room.old }
    ensures printed { (all : ℕ → ℕ → Option ℕ) → IsMemoryOf memory.now all
        → WritesFound (λ text. IsThreadText listing process.now.machine
        (map known_view process.now.code.files.now) process.now.code.mappings.now all
        (name_bytes process.now.name) (thread_view thread.now) text)
        (W.contents output.old) (W.contents output.new) (has_parts memory.now) result }
    ensures cached { IsRoomFor process.now.code.files.now room.new }
{
    let Some(found) = walk_known(room, process, memory, thread) else {
        return Ok(false);
    };
    let frames = room.frames.as_slice();
    print_found(alloc, listing, process, thread, found, frames, output)?;
    Ok(true)
}
