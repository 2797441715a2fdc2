//! What stands around the records of a profile.
ghost use Rattle.std.specs.Prelude.{◌≡◌, ◌≤◌, IfOk};
ghost use Rattle.cfi_object.specs.FileInputs.{IsLength};
ghost use Rattle.cfi_stacks.specs.ProfileIndexes.{IsReadAround};

use cfi_object::input::FileInput;
use cfi_perf::records_section;
use cfi_text::reading::InputError;
use std::alloc::Global;

/// How many bytes the header of a profile has.
const HEADER_SIZE: u64 = 104;

/// The bytes before the records of a profile and those after them, of so many in all.
#[derive(Drop)]
pub(crate) struct Around {
    pub(crate) before: Vec<u8>,
    pub(crate) behind: Vec<u8>,
    pub(crate) length: u64,
}

/// Reads what stands before the records of a profile, and what stands after them, by its header; of
/// another file the first bytes.
///
/// Fails with `Unreadable` where its length can't be told or a read fails, and with `OutOfMemory`.
/// Allocates for the bytes.
pub(crate) fn read_around<I: FileInput>(alloc: Global, input: &mut I) -> Result<Around, InputError>
    ensures read { IfOk result (λ around. IsReadAround (I.bytes input.old) around.before.items
        around.behind.items around.length) }
    ensures same { I.bytes input.new ≡ I.bytes input.old }
{
    let length = input.length(alloc)?;
    let first = input.read_part(alloc, 0, length.min(HEADER_SIZE))?;
    match records_section(first.as_slice()) {
        Some((start, end)) => read_sides(alloc, start, end.min(length), length, input),
        None => Ok(Around {
            before: first,
            behind: Vec::new(alloc),
            length,
        }),
    }
}

/// Reads what stands before the records, which begin and end there, and what stands after them.
/// Where they would begin after their end, nothing is left out.
fn read_sides<I: FileInput>(
    alloc: Global,
    start: u64,
    end: u64,
    length: u64,
    input: &mut I,
) -> Result<Around, InputError>
    requires length { IsLength (I.bytes input.old) length }
    requires end { end ≤ length }
    ensures read { IfOk result (λ around. IsReadAround (I.bytes input.old) around.before.items
        around.behind.items around.length) }
    ensures same { I.bytes input.new ≡ I.bytes input.old }
{
    let before = input.read_part(alloc, 0, start.min(end))?;
    let behind = input.read_part(alloc, end, length - end)?;
    Ok(Around {
        before,
        behind,
        length,
    })
}
