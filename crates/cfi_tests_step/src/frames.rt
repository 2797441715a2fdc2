//! Stacks that are walked, with registers and memory made by hand.
ghost use Rattle.std.specs.Prelude.{◌≡◌, None};
ghost use Rattle.cfi_step.specs.CachedRows.{AreNumbered};
ghost use Rattle.cfi_step.specs.ModuleLists.{module_list};

use crate::comparison::expect;
use cfi_compiled::CompiledTable;
use cfi_expression::{AddressSize, FrameError, Memory, Window};
use cfi_guide::hexadecimal::bytes_of;
use cfi_step::{
    Abi, CachedRow, End, LoadedModule, Modules, Process, StackFrame, Walk, clear_rows, unwind,
    unwind_cached,
};
use gimli_cfi::{
    BaseAddresses, EhFrame, EndianSlice, Error, LittleEndian, Reader, Register, UnwindContext,
    Vendor,
};
use std::alloc::Global;
use std::test::Fail;

/// Two CIEs (CFA r7+8, r16 saved at CFA-8), of which the second is of signal trampolines; and FDEs:
/// 0x1000 pushes r6; 0x2000 is the outermost frame; 0x3000 is its own caller; 0x4000 signs its
/// return address; 0x5000 is a signal trampoline; 0x2100 is an outermost frame whose CFA is r7.
pub const SECTION: &str = "10000000 00000000 01 00 01 78 10 0c0708 9001 0000 \
     1c000000 18000000 0010000000000000 2000000000000000 410e108602 000000 \
     18000000 38000000 0020000000000000 1000000000000000 0710 0000 \
     1c000000 54000000 0030000000000000 1000000000000000 0c0600 0810 000000 \
     18000000 74000000 0040000000000000 1000000000000000 2d 000000 \
     14000000 00000000 01 7a5300 01 78 10 00 0c0708 9001 000000 \
     18000000 1c000000 0050000000000000 1000000000000000 00 000000 \
     1c000000 c4000000 0021000000000000 1000000000000000 0c0700 0710 000000";

const NOTHING: StackFrame = StackFrame {
    pc: 0,
    is_interrupted: false,
    cfa: None,
};

/// A frame's pc, whether it was interrupted, and its CFA.
type Shown = (u64, bool, Option<u64>);

fn shown(frame: &StackFrame) -> Shown {
    (frame.pc, frame.is_interrupted, frame.cfa)
}

/// The registers of a frame: r6, the stack pointer r7, and r16 for the return address.
type Registers = (Option<u64>, Option<u64>, Option<u64>);

fn three(registers: &[Option<u64>; 17]) -> Registers {
    (registers[6], registers[7], registers[16])
}

/// Where the file is loaded, the innermost frame's pc, the room for frames, the memory from 0x7000
/// on; and what is written, with the registers that are left: those of the last frame, and those of
/// its caller.
type Case = (
    u64,
    u64,
    usize,
    &'static str,
    [Shown; 2],
    usize,
    End,
    [Registers; 2],
);

const CASES: [Case; 10] = [
    (
        0,
        0x1001,
        2,
        "6600000000000000 0821000000000000",
        [(0x1001, true, Some(0x7010)), (0x2108, false, Some(0x7010))],
        2,
        End::Outermost,
        [
            (Some(0x66), Some(0x7010), Some(0x2108)),
            (Some(0x66), Some(0x7010), None),
        ],
    ),
    (
        0,
        0x1001,
        2,
        "6600000000000000 0820000000000000",
        [(0x1001, true, Some(0x7010)), (0x2008, false, Some(0x7018))],
        2,
        End::Outermost,
        [
            (Some(0x66), Some(0x7010), Some(0x2008)),
            (Some(0x66), Some(0x7018), None),
        ],
    ),
    (
        0,
        0x1001,
        1,
        "6600000000000000 0820000000000000",
        [(0x1001, true, Some(0x7010)), (0, false, None)],
        1,
        End::NoRoom,
        [(Some(0x66), Some(0x7010), Some(0x2008)); 2],
    ),
    (
        0,
        0x1001,
        2,
        "6600000000000000 0890000000000000",
        [(0x1001, true, Some(0x7010)), (0x9008, false, None)],
        2,
        End::NoModule,
        [(Some(0x66), Some(0x7010), Some(0x9008)); 2],
    ),
    (
        0,
        0x1001,
        2,
        "6600000000000000",
        [(0x1001, true, None), (0, false, None)],
        1,
        End::Failed(FrameError::UnreadableMemory(0x7008)),
        [
            (Some(0x7100), Some(0x7000), Some(0x1001)),
            (None, None, None),
        ],
    ),
    (
        0,
        0x1500,
        2,
        "",
        [(0x1500, true, None), (0, false, None)],
        1,
        End::Failed(FrameError::NoRow(Error::NoUnwindInfoForAddress)),
        [
            (Some(0x7100), Some(0x7000), Some(0x1500)),
            (None, None, None),
        ],
    ),
    (
        0,
        0x3004,
        2,
        "",
        [(0x3004, true, Some(0x7100)), (0x3004, false, None)],
        2,
        End::NotRising,
        [(Some(0x7100), Some(0x7100), Some(0x3004)); 2],
    ),
    (
        0,
        0x4001,
        2,
        "082000000000aa00",
        [(0x4001, true, Some(0x7008)), (0x2008, false, Some(0x7010))],
        2,
        End::Outermost,
        [
            (Some(0x7100), Some(0x7008), Some(0xaa_0000_0000_2008)),
            (Some(0x7100), Some(0x7010), None),
        ],
    ),
    (
        0,
        0x5001,
        2,
        "0020000000000000",
        [(0x5001, true, Some(0x7008)), (0x2000, true, Some(0x7010))],
        2,
        End::Outermost,
        [
            (Some(0x7100), Some(0x7008), Some(0x2000)),
            (Some(0x7100), Some(0x7010), None),
        ],
    ),
    (
        0x4000_0000,
        0x4000_1001,
        2,
        "6600000000000000 0820004000000000",
        [
            (0x4000_1001, true, Some(0x7010)),
            (0x4000_2008, false, Some(0x7018)),
        ],
        2,
        End::Outermost,
        [
            (Some(0x66), Some(0x7010), Some(0x4000_2008)),
            (Some(0x66), Some(0x7018), None),
        ],
    ),
];

/// How the rows of a module are found.
#[derive(Clone, Copy, Debug, PartialEq, Eq)]
enum Way {
    /// By a scan of its section.
    Scan,
    /// In a cache, where a first walk has kept those of such a scan.
    Cache,
    /// By a compiled table.
    Table,
}

/// Walks from a pc, in one module that is loaded at a bias. The registers are as in `walked_in`.
fn walked(
    alloc: Global,
    way: Way,
    bias: u64,
    pc: u64,
    memory: &[u8],
    frames: &mut [StackFrame],
) -> Result<(Walk, [Registers; 2]), Fail> {
    let bytes = bytes_of(alloc, SECTION)?;
    let section = section_of(bytes.as_slice());
    let bases = BaseAddresses::default();
    let table = CompiledTable::new(alloc, &section, &bases)?;
    let mut module = module_at(bias, 0, section, bases);
    if way == Way::Table {
        module.compiled = Some(&table);
    }
    walked_in(alloc, &[module], way == Way::Cache, pc, memory, frames)
}

/// `.eh_frame` of AArch64, so that a return address may be signed.
pub fn section_of(bytes: &[u8]) -> EhFrame<EndianSlice<'_, LittleEndian>> {
    let mut section = EhFrame::new(bytes, LittleEndian);
    section.set_vendor(Vendor::AArch64);
    section
}

/// A module whose file has its code from 0x1000 up to 0x6000, without a compiled table.
pub fn module_at<'a>(
    bias: u64,
    file: usize,
    frame: EhFrame<EndianSlice<'a, LittleEndian>>,
    bases: BaseAddresses,
) -> LoadedModule<'a, EndianSlice<'a, LittleEndian>>
    ensures file { result.file ≡ file }
    ensures frame { result.frame ≡ frame.entry }
    ensures header { result.header ≡ None }
    ensures bases { result.bases ≡ bases }
{
    LoadedModule {
        start: bias.wrapping_add(0x1000),
        end: bias.wrapping_add(0x6000),
        bias,
        file,
        frame,
        header: None,
        bases,
        compiled: None,
        debug: None,
    }
}

/// Walks from a pc: r6 is 0x7100, r7 the stack pointer 0x7000, and r16 the pc; the memory is that
/// from 0x7000 on. With a cache, it is the second walk.
fn walked_in(
    alloc: Global,
    modules: &[LoadedModule<'_, EndianSlice<'_, LittleEndian>>],
    is_cached: bool,
    pc: u64,
    memory: &[u8],
    frames: &mut [StackFrame],
) -> Result<(Walk, [Registers; 2]), Fail>
    requires { AreNumbered modules.now }
{
    let memory = Window {
        base: 0x7000,
        bytes: EndianSlice::new(memory, LittleEndian),
    };
    let process = Process {
        modules: Modules::new(modules)?,
        memory: &memory,
        address_size: AddressSize::new(8),
        abi: Abi {
            stack_pointer: Register(7),
            signature_mask: 0xffff_0000_0000_0000,
            max_iterations: 100,
        },
    };
    let mut registers = [None; 17];
    registers[6] = Some(0x7100);
    registers[7] = Some(0x7000);
    registers[16] = Some(pc);
    let mut caller = [None; 17];
    let mut ctx = UnwindContext::<usize>::new(alloc)?;
    let ctx = &mut ctx;
    let walk = if is_cached {
        walked_again(&process, ctx, pc, &mut registers, &mut caller, frames)
    } else {
        unwind(&process, ctx, pc, &mut registers, &mut caller, frames)
    };
    Ok((walk, [three(&registers), three(&caller)]))
}

/// Walks twice with one cache of rows, and returns what the second walk does.
fn walked_again<R: Reader<Offset = usize>, M: Memory>(
    process: &Process<'_, R, M>,
    ctx: &mut UnwindContext<usize>,
    pc: u64,
    registers: &mut [Option<u64>; 17],
    caller: &mut [Option<u64>; 17],
    frames: &mut [StackFrame],
) -> Walk
    requires { AreNumbered (module_list process.now.modules) }
{
    let mut rows = [CachedRow::new(), CachedRow::new(), CachedRow::new()];
    clear_rows(&mut rows);
    let mut first = *registers;
    let mut found = *caller;
    unwind_cached(process, &mut rows, ctx, pc, &mut first, &mut found, frames);
    unwind_cached(process, &mut rows, ctx, pc, registers, caller, frames)
}

/// The frames, the count and the end, and the registers that are left.
type Walked = (Walk, [Shown; 2], [Registers; 2]);

/// What a walk of a case does.
fn walked_case(alloc: Global, way: Way, case: &Case) -> Result<Walked, Fail> {
    let (bias, pc, room, text, ..) = case;
    let memory = bytes_of(alloc, text)?;
    let mut frames = [NOTHING, NOTHING];
    let room = &mut frames[..(*room).min(2)];
    let (walk, left) = walked(alloc, way, *bias, *pc, memory.as_slice(), room)?;
    Ok((walk, [shown(&frames[0]), shown(&frames[1])], left))
}

/// By a scan of the section, by rows that a first walk kept, and by its compiled table.
#[test]
fn walks(rt: HostRuntime) -> Result<(), Fail> {
    for way in [Way::Scan, Way::Cache, Way::Table] {
        for case in &CASES {
            let (_, pc, _, _, written, count, end, left) = case;
            let (count, end) = (*count, *end);
            let found = walked_case(rt.alloc(), way, case)?;
            expect(&rt, *pc, &found, &(Walk { count, end }, *written, *left));
        }
    }
    Ok(())
}
