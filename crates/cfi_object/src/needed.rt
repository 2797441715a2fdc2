//! What is needed of a file, and the reading of the parts that have it.
ghost use Rattle.std.specs.Prelude.{◌≡◌, IfErr, IfNone, IfOk, IfSome};
ghost use Rattle.cfi_elf.specs.ElfFiles.{file_view};
ghost use Rattle.cfi_elf.specs.Images.{image_view};
ghost use Rattle.cfi_object.specs.FileParts.{image_of};
ghost use Rattle.cfi_object.specs.NeededParts.{AreAsked, AreEnough, AreLacking, HasAll, HasBuild};
ghost use Rattle.cfi_object.specs.NeededParts.{HasFrames, HasPlt, HasSymbols, IsEnoughOf, IsOther};
ghost use Rattle.cfi_object.specs.NeededParts.{Lacks, LacksBuild, LacksFrames, LacksOne, LacksPlt};
ghost use Rattle.cfi_object.specs.NeededParts.{LacksSymbols};

use crate::call_frames::{debug_frame, eh_frame};
use crate::file_parts::FileParts;
use crate::input::FileInput;
use cfi_elf::{ElfError, ElfFile, Image};
use cfi_text::reading::InputError;
use std::alloc::Global;

/// How many bytes are read at first: mostly they have the header, the program headers and the note
/// of the build.
const FIRST_SIZE: u64 = 4096;

/// How many parts are read before the whole file is: some twenty are asked for at most.
const MOST_PARTS: usize = 32;

/// What is needed of a file beside its call frames.
#[derive(Clone, Copy)]
pub struct Needed {
    /// The symbols, for the names and addresses of functions.
    pub symbols: bool,
    /// The procedure linkage table, with what says where its entries go.
    pub plt: bool,
    /// The identification of its build, and the link to its debug file.
    pub build: bool,
}

/// Reads the parts of a file that are needed for its sections of call frames, and for what
/// else is needed.
///
/// The first is the beginning of the file. Then each missing part is read; the whole file where a
/// part has bytes that were read, or there are too many. Fails with `Unreadable` where the length
/// can't be told or a read fails, and with `OutOfMemory`. Allocates for the parts.
pub fn read_parts<I: FileInput>(
    alloc: Global,
    needed: Needed,
    input: &mut I,
) -> Result<FileParts, InputError>
    ensures read { IfOk result (λ parts. IsEnoughOf (I.bytes input.old) needed (image_of parts)) }
    ensures asked { IfOk result (λ parts. AreAsked needed (image_of parts)) }
    ensures same { I.bytes input.new ≡ I.bytes input.old }
{
    let mut parts = FileParts::begin(alloc, FIRST_SIZE, input)?;
    for _ in 0..MOST_PARTS {
        match unread(parts.image(), needed) {
            Some((offset, size)) => parts = parts.with_part(alloc, offset, size, input)?,
            None => return Ok(parts),
        }
    }
    drop(parts);
    FileParts::read_whole(alloc, input)
}

/// Returns the offset and the size of a part that is needed and was not read, if there is one.
fn unread(image: Image<'_>, needed: Needed) -> Option<(u64, u64)>
    ensures none { IfNone result (AreEnough needed (image_view image.entry)) }
    ensures some { IfSome result (AreLacking needed (image_view image.entry)) }
{
    match ElfFile::of_image(image) {
        Ok(file) => unread_in(&file, needed),
        Err(error) => place_in(error),
    }
}

/// Returns the same for a file whose header was read.
fn unread_in(file: &ElfFile<'_>, needed: Needed) -> Option<(u64, u64)>
    ensures none { IfNone result (HasAll needed (file_view file.now)) }
    ensures some { IfSome result (LacksOne needed (file_view file.now)) }
{
    // Each is a search by name, so the next is asked only where this one lacks nothing.
    if let Some(place) = unread_build(file, needed.build) {
        return Some(place);
    }
    if let Some(place) = unread_frames(file) {
        return Some(place);
    }
    if let Some(place) = unread_symbols(file, needed.symbols) {
        return Some(place);
    }
    unread_plt(file, needed.plt)
}

/// Returns the same for the note of the build and the link to the debug file.
fn unread_build(file: &ElfFile<'_>, build: bool) -> Option<(u64, u64)>
    ensures none { IfNone result (HasBuild build (file_view file.now)) }
    ensures some { IfSome result (LacksBuild build (file_view file.now)) }
{
    if !build {
        return None;
    }
    if let Some(place) = lack_of(file.build_id()) {
        return Some(place);
    }
    lack_of(file.debug_link())
}

/// Returns the same for the two sections of call frames and what belongs to them.
fn unread_frames(file: &ElfFile<'_>) -> Option<(u64, u64)>
    ensures none { IfNone result (HasFrames (file_view file.now)) }
    ensures some { IfSome result (LacksFrames (file_view file.now)) }
{
    if let Some(place) = lack_of(eh_frame(file)) {
        return Some(place);
    }
    lack_of(debug_frame(file))
}

/// Returns the same for the symbols.
fn unread_symbols(file: &ElfFile<'_>, symbols: bool) -> Option<(u64, u64)>
    ensures none { IfNone result (HasSymbols symbols (file_view file.now)) }
    ensures some { IfSome result (LacksSymbols symbols (file_view file.now)) }
{
    if !symbols {
        return None;
    }
    lack_of(file.symbols_read())
}

/// Returns the same for the procedure linkage table.
fn unread_plt(file: &ElfFile<'_>, plt: bool) -> Option<(u64, u64)>
    ensures none { IfNone result (HasPlt plt (file_view file.now)) }
    ensures some { IfSome result (LacksPlt plt (file_view file.now)) }
{
    if !plt {
        return None;
    }
    lack_of(file.plt_read())
}

/// Returns what was not read, where that is why a call failed.
fn lack_of<T: Copy>(returned: Result<T, ElfError>) -> Option<(u64, u64)>
    ensures none { IfNone result (IfErr returned IsOther) }
    ensures some { IfSome result (Lacks returned) }
{
    match returned {
        Ok(_) => None,
        Err(error) => place_in(error),
    }
}

/// Returns what an error says was not read.
fn place_in(error: ElfError) -> Option<(u64, u64)>
    ensures none { IfNone result (IsOther error) }
    ensures some { IfSome result (λ place. error ≡ ElfError.NotRead place.0 place.1) }
{
    match error {
        ElfError::NotRead { offset, size } => Some((offset, size)),
        _ => None,
    }
}
