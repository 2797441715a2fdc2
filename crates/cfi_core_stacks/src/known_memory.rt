//! The memory of the process of a core file, as far as it is known.
ghost use Rattle.std.specs.Prelude.{◌≡◌, ◌≤◌, ℕ, IfOk, IfSome, List, None, Option, length, map};
ghost use Rattle.std.specs.Prelude.{true};
ghost use Rattle.std.specs.Option.{is_some};
ghost use Rattle.cfi_cores.specs.CoreFiles.{Core as Whole};
ghost use Rattle.cfi_cores.specs.CoreSegments.{AreByAddress, CoreSegment as Lent, segment_view};
ghost use Rattle.cfi_cores.specs.CoreThreads.{thread_view};
ghost use Rattle.cfi_processes.specs.Rooms.{IsRoomFor};
ghost use Rattle.cfi_mapped.specs.Mappings.{AreMappedInOrder};
ghost use Rattle.cfi_processes.specs.FileModules.{AreModulesOfFiles};
ghost use Rattle.cfi_processes.specs.KnownFiles.{known_view};
ghost use Rattle.cfi_processes.specs.Modules.{loaded_module_view};
ghost use Rattle.cfi_processes.specs.ProcessModules.{modules_in};
ghost use Rattle.cfi_core_stacks.specs.CoreOutputs.{core_memory};
ghost use Rattle.cfi_core_stacks.specs.KnownCores.{IsKnownOf, IsMemoryOf, IsPartOf, has_parts};
ghost use Rattle.cfi_core_stacks.specs.KnownCores.{is_whole};
ghost use Rattle.cfi_core_stacks.specs.ThreadWalks.{IsThreadWalked};

use crate::core_process::CoreProcess;
use crate::known_core::{KnownCore, StackParts};
use crate::lacking::walk_lacks;
use crate::thread_walk::walk_thread;
use cfi_cores::{CoreMemory, CoreSegment, CoreThread, stack_at};
use cfi_expression::Window;
use cfi_processes::room::Room;
use cfi_processes::sample_stack::NoFrames;
use cfi_step::Walk;
use gimli_cfi::{EndianSlice, RunTimeEndian};

/// All of the memory, or the parts of it that have the stacks.
#[derive(Drop)]
pub(crate) enum KnownMemory<'m> {
    Whole(CoreMemory<'m>),
    Parts(&'m StackParts<'m>),
}

/// What is known of the memory. The windows are what the files have of it, if the core was read
/// whole.
pub(crate) fn memory_of<'m>(
    known: &'m KnownCore<'_, '_>,
    windows: &'m [CoreSegment<'_>],
) -> KnownMemory<'m>
    requires core { is_whole known.now ≡ true → AreByAddress known.now.core.now.segments.items }
    requires windows { AreByAddress windows.now }
    ensures memory { (whole : Whole) → IsKnownOf known.now whole → (lent : List Lent)
        → (is_whole known.now ≡ true → map segment_view windows.now ≡ lent)
        → IsMemoryOf result (core_memory whole lent) }
    ensures parts { has_parts result ≡ is_some known.now.parts }
{
    match &known.parts {
        None => KnownMemory::Whole(CoreMemory::new(known.core.segments.as_slice(), windows)),
        Some(parts) => KnownMemory::Parts(parts),
    }
}

/// Walks the stack of a thread (`thread_walk::walk_thread`); `None` where parts of the memory lack
/// something that may be in the rest of it.
pub(crate) fn walk_known(
    room: &mut Room,
    process: &CoreProcess<'_, '_, '_>,
    memory: &KnownMemory<'_>,
    thread: &CoreThread<'_>,
) -> Option<Result<Walk, NoFrames>>
    requires order { AreMappedInOrder 0 process.now.code.mappings.now }
    requires modules { map loaded_module_view process.now.modules.now
        ≡ modules_in (map known_view process.now.code.files.now) process.now.code.mappings.now }
    requires files { AreModulesOfFiles process.now.code.files.now process.now.modules.now }
    requires cached { IsRoomFor process.now.code.files.now room.old }
    ensures walked { (all : ℕ → ℕ → Option ℕ) → IsMemoryOf memory.now all
        → IfSome result (λ found. IsThreadWalked process.now.machine
        (map known_view process.now.code.files.now) process.now.code.mappings.now all
        (thread_view thread.now) found room.new.frames.items) }
    ensures count { IfSome result (λ found. IfOk found (λ walk. walk.count
        ≤ length room.new.frames.items)) }
    ensures lacks { result ≡ None → has_parts memory.now ≡ true }
    ensures cached { IsRoomFor process.now.code.files.now room.new }
{
    match memory {
        KnownMemory::Whole(memory) => {
            let code = &process.code;
            let modules = process.modules;
            Some(walk_thread(room, process.machine, code, modules, memory, thread))
        }
        KnownMemory::Parts(parts) => walk_parts(room, process, parts, thread),
    }
}

/// The same by the bytes of the stack that were read.
fn walk_parts(
    room: &mut Room,
    process: &CoreProcess<'_, '_, '_>,
    parts: &StackParts<'_>,
    thread: &CoreThread<'_>,
) -> Option<Result<Walk, NoFrames>>
    requires order { AreMappedInOrder 0 process.now.code.mappings.now }
    requires modules { map loaded_module_view process.now.modules.now
        ≡ modules_in (map known_view process.now.code.files.now) process.now.code.mappings.now }
    requires files { AreModulesOfFiles process.now.code.files.now process.now.modules.now }
    requires cached { IsRoomFor process.now.code.files.now room.old }
    ensures walked { (all : ℕ → ℕ → Option ℕ) → IsPartOf parts.now all
        → IfSome result (λ found. IsThreadWalked process.now.machine
        (map known_view process.now.code.files.now) process.now.code.mappings.now all
        (thread_view thread.now) found room.new.frames.items) }
    ensures count { IfSome result (λ found. IfOk found (λ walk. walk.count
        ≤ length room.new.frames.items)) }
    ensures cached { IsRoomFor process.now.code.files.now room.new }
{
    let number = process.machine.abi().stack_pointer.0 as usize;
    let pointer = thread.register(process.machine, number)?;
    let stack = stack_at(parts.image, parts.places, pointer)?;
    let memory = Window {
        base: stack.start,
        bytes: EndianSlice::new(stack.bytes, RunTimeEndian::Little),
    };
    let found = walk_thread(
        room,
        process.machine,
        &process.code,
        process.modules,
        &memory,
        thread,
    );
    if walk_lacks(process.machine, found) {
        None
    } else {
        Some(found)
    }
}
