//! The room in which stacks are walked, one after the other.
ghost use Rattle.std.specs.Prelude.{IfOk};
ghost use Rattle.cfi_step.specs.CachedRows.{AreEmpty};

use cfi_step::{CachedRow, StackFrame};
use gimli_cfi::{Error, UnwindContext};
use std::alloc::{AllocError, Global};

/// How many frames a stack may have. perf copies 65,528 bytes of a stack at most, and most frames
/// have 16 bytes at least.
const FRAMES: usize = 4096;

/// How many rows are kept. In most recorded profiles of x86-64 programs the rows of 80 to 100 of
/// 100 frames are held by half as many slots that are emptied when the process changes.
const ROWS: usize = 4096;

const NO_FRAME: StackFrame = StackFrame {
    pc: 0,
    is_interrupted: false,
    cfa: None,
};

/// What the stacks of all samples, or of all threads, are unwound in.
#[derive(Drop)]
pub struct Room {
    /// What the rows that aren't kept are evaluated in.
    pub context: UnwindContext<usize>,
    /// The frames of the stack that was walked last.
    pub frames: Vec<StackFrame>,
    /// The rows that are kept, of the files in whichever process they were found.
    pub cache: Vec<CachedRow>,
}

impl Room {
    ghost use Rattle.std.specs.Prelude.{◌≡◌, IfErr, IfOk};
    ghost use Rattle.cfi_processes.specs.Rooms.{HasRoom, KeepsNoRows};

    /// Room for `FRAMES` frames and `ROWS` rows; none is kept. Fails with `OutOfMemory` where
    /// memory is refused.
    pub fn new(alloc: Global) -> Result<Room, Error>
        ensures rows { IfOk result KeepsNoRows }
        ensures frames { IfOk result (λ room. HasRoom room.frames.items) }
        ensures err { IfErr result (λ error. error ≡ Error.OutOfMemory) }
    {
        let context = UnwindContext::<usize>::new(alloc)?;
        let Ok(cache) = empty_rows(alloc) else {
            return Err(Error::OutOfMemory);
        };
        match vec![in alloc; NO_FRAME; FRAMES] {
            Ok(frames) => Ok(Room {
                context,
                frames,
                cache,
            }),
            Err(_) => Err(Error::OutOfMemory),
        }
    }
}

/// A cache of rows without a row.
fn empty_rows(alloc: Global) -> Result<Vec<CachedRow>, AllocError>
    ensures { IfOk result (λ rows. AreEmpty rows.items) }
{
    let mut rows = Vec::with_capacity(alloc, ROWS)?;
    for _ in 0..ROWS {
        rows.push(CachedRow::new())?;
    }
    Ok(rows)
}
