//! The walk of a thread's stack.
ghost use Rattle.std.specs.Prelude.{◌≡◌, ◌≤◌, IfOk, length, map};
ghost use Rattle.cfi_cores.specs.CoreThreads.{thread_view};
ghost use Rattle.cfi_processes.specs.FileModules.{AreModulesOfFiles};
ghost use Rattle.cfi_processes.specs.KnownFiles.{known_view};
ghost use Rattle.cfi_processes.specs.ProcessModules.{modules_in};
ghost use Rattle.cfi_mapped.specs.Mappings.{AreMappedInOrder};
ghost use Rattle.cfi_processes.specs.Modules.{loaded_module_view};
ghost use Rattle.cfi_processes.specs.Rooms.{IsRoomFor};
ghost use Rattle.cfi_core_stacks.specs.ThreadWalks.{IsThreadWalked};

use crate::thread_frames::unwind_thread;
use cfi_cores::CoreThread;
use cfi_expression::Memory;
use cfi_processes::process_code::ProcessCode;
use cfi_processes::process_modules::FileModule;
use cfi_processes::registers::SampleMachine;
use cfi_processes::room::Room;
use cfi_processes::sample_stack::NoFrames;
use cfi_step::{Modules, Walk};

/// As many registers as the machine with most of them has.
const REGISTERS: usize = 33;

/// Walks the stack of a thread of a core file by the memory of its process. The frames are then
/// those of the room.
///
/// The modules are those of what is mapped. The rows that the room keeps are those of the files.
/// Fails with the reason why there are no frames. Does not allocate.
pub(crate) fn walk_thread<M: Memory>(
    room: &mut Room,
    machine: SampleMachine,
    code: &ProcessCode<'_, '_, '_>,
    modules: &[FileModule<'_, '_>],
    memory: &M,
    thread: &CoreThread<'_>,
) -> Result<Walk, NoFrames>
    requires order { AreMappedInOrder 0 code.now.mappings.now }
    requires modules { map loaded_module_view modules.now
        ≡ modules_in (map known_view code.now.files.now) code.now.mappings.now }
    requires files { AreModulesOfFiles code.now.files.now modules.now }
    requires cached { IsRoomFor code.now.files.now room.old }
    ensures walked { IsThreadWalked machine (map known_view code.now.files.now)
        code.now.mappings.now (M.number_at memory.now) (thread_view thread.now) result
        room.new.frames.items }
    ensures count { IfOk result (λ walk. walk.count ≤ length room.new.frames.items) }
    ensures cached { IsRoomFor code.now.files.now room.new }
{
    let Ok(modules) = Modules::new(modules) else {
        unreachable!()
    };
    let count = machine.register_count();
    let mut registers = [None; REGISTERS];
    let mut caller = [None; REGISTERS];
    let frames = room.frames.as_mut_slice();
    unwind_thread(
        modules,
        machine,
        thread,
        memory,
        room.cache.as_mut_slice(),
        &mut room.context,
        &mut registers[..count],
        &mut caller[..count],
        frames,
    )
}
