//! The stacks of a core file.
ghost use Rattle.std.specs.Prelude.{◌≡◌, ◌⊎◌, ℕ, Bool, IfOk, List, false, map, true};
ghost use Rattle.std.specs.List.Sorted.{IsNonDecreasingBy};
ghost use Rattle.std.specs.Option.{is_some};
ghost use Rattle.cfi_cores.specs.CoreFiles.{Core as Whole, core_view};
ghost use Rattle.cfi_cores.specs.CoreSegments.{AreByAddress};
ghost use Rattle.cfi_cores.specs.PartialCores.{IsPartial, head_in, with_all};
ghost use Rattle.cfi_elf.specs.Images.{IsImageOf, image_view};
ghost use Rattle.cfi_elf.specs.declared.program_header.ProgramHeader.{ProgramHeader as Header};
ghost use Rattle.cfi_object.specs.FileParts.{AreOfInput, image_of};
ghost use Rattle.cfi_text.specs.Readings.{AreLeft};
ghost use Rattle.cfi_text.specs.WriterOutput.{PrintsSome, Writes};
ghost use Rattle.cfi_frames.specs.Outputs.{no_memory};
ghost use Rattle.cfi_core_stacks.specs.AskedThreads.{lacks_thread};
ghost use Rattle.cfi_core_stacks.specs.CoreOutputs.{IsCoreOutput, IsCoreOwed, IsOfCore};
ghost use Rattle.cfi_core_stacks.specs.CoreOutputs.{PrintsCoreOwed, PrintsFound};
ghost use Rattle.cfi_core_stacks.specs.KnownCores.{IsKnownOf, is_whole};

use crate::asked_threads::lacks_thread;
use crate::core_code::core_code;
use crate::core_errors::write_core_refusal;
use crate::core_files::opened_files;
use crate::core_threads::print_threads;
use crate::known_core::{KnownCore, StackParts};
use crate::known_memory::memory_of;
use crate::listing::ThreadListing;
use crate::quiet_opener::QuietOpener;
use cfi_cores::{Core, PartialCore, partial_core, read_core, read_core_parts};
use cfi_elf::{Image, ProgramHeader};
use cfi_mapped::Opener;
use cfi_object::{FileInput, FileParts, read_whole};
use cfi_processes::profile_files::profile_files;
use cfi_processes::room::Room;
use cfi_text::input_refusals::write_input_refusal;
use cfi_text::lines::write_text;
use cfi_text::refusals::{write_reason, write_refusal_in};
use gimli_cfi::Error;
use std::alloc::Global;
use std::io;
use std::io::Write;

/// Reads the core file, and prints the stack of each thread, in the order of its notes, or only
/// that of the thread that the listing names.
///
/// For each there is a line with the thread, the signal that it got and the name of the process, a
/// line for each frame, where there is a reason for which the last frame isn't the outermost one a
/// line with it, and an empty line. The line of a frame has its address in the process, its place
/// in a file, the function and the file; if it is `raw`, it has no function, and none is looked up.
/// With `Format::Json` there is a line for each thread instead, an object with the same, and what
/// is printed below in place of stacks is the member `error` of one (`write_reason`). The files of
/// code are opened by the names that the core file has for them, and where it has the build of one,
/// only a file of that build is taken (`cfi_mapped::read_files::read_files`); what it doesn't
/// have of their memory is read in them. The vdso is read in the core file.
///
/// Of the core file only the parts are read that are needed (`cfi_cores::read_core_parts`): the
/// headers and notes, the first pages of files, and each stack from its pointer on; of each file of
/// code its headers, its build, its call frames and its symbols. Where a stack lacks something in
/// these, the core file and the files of code are read again, and whole.
///
/// Status 0: all threads are printed. Status 1: the core file, or the rest of its notes, can't be
/// read, which prints `refused` and the name of the error; no note is of the thread that is asked
/// for, which prints `no thread`; or memory is refused, which prints `refused OutOfMemory`.
/// Status 2: the input can't be read, which prints `wrong input`. Fails where the output can't be
/// written, and with the kind `OutOfMemory` where memory is refused for a thread's frames or their
/// text: then a beginning has been written.
///
/// Allocates for the input, the files, what is mapped and the text of a thread. Unwinding doesn't
/// allocate.
pub fn print_core<O: Opener, I: FileInput, W: Write>(
    alloc: Global,
    listing: ThreadListing,
    opener: &O,
    input: &mut I,
    output: &mut W,
) -> io::Result<u8>
    ensures { (bytes : List ℕ) × AreLeft (I.bytes input.old) bytes
        × PrintsSome (λ line. IsCoreOwed listing (O.may_open opener.now) O.File.remaining
        bytes line)
        (W.contents output.old) (W.contents output.new) result }
{
    match read_core_parts(alloc, input) {
        Ok(parts) => print_parts(alloc, listing, opener, &parts, input, output),
        Err(error) => write_input_refusal(output, listing.format, error),
    }
}

/// Prints the stacks by the parts that were read, or, where these don't have all headers and notes,
/// by the whole file.
fn print_parts<O: Opener, I: FileInput, W: Write>(
    alloc: Global,
    listing: ThreadListing,
    opener: &O,
    parts: &FileParts,
    input: &mut I,
    output: &mut W,
) -> io::Result<u8>
    requires { AreOfInput (I.bytes input.old) (image_of parts.now) }
    ensures { PrintsCoreOwed listing (O.may_open opener.now) O.File.remaining (I.bytes input.old)
        (W.contents output.old) (W.contents output.new) result }
{
    let image = parts.image();
    match partial_core(alloc, image) {
        Ok(Some(partial)) => print_partial(alloc, listing, opener, image, &partial, input, output),
        Ok(None) => print_whole(alloc, listing, opener, input, output),
        Err(_) => write_refusal_in(output, listing.format, Error::OutOfMemory),
    }
}

/// Prints the stacks by these parts, or, where a stack lacks something in them, by the whole file,
/// and all of the files of code, of which nothing is said again.
fn print_partial<O: Opener, I: FileInput, W: Write>(
    alloc: Global,
    listing: ThreadListing,
    opener: &O,
    image: Image<'_>,
    partial: &PartialCore<'_>,
    input: &mut I,
    output: &mut W,
) -> io::Result<u8>
    requires parts { AreOfInput (I.bytes input.old) (image_view image) }
    requires partial { (bytes : List ℕ) → IsImageOf (image_view image) bytes
        → IsPartial bytes partial.now }
    ensures { PrintsCoreOwed listing (O.may_open opener.now) O.File.remaining (I.bytes input.old)
        (W.contents output.old) (W.contents output.new) result }
{
    let places = partial.places.as_slice();
    let known = known_by_parts(&partial.core, image, places);
    // What one stack lacks is found after others were.
    let mut text = Vec::new(alloc);
    match print_known(alloc, listing, opener, &known, &mut text) {
        Ok(Some(status)) => write_gathered(output, text.as_slice(), status),
        Ok(None) => print_whole(alloc, listing, &QuietOpener { opener }, input, output),
        Err(_) => write_refusal_in(output, listing.format, Error::OutOfMemory),
    }
}

/// The core that these parts have. The headers come in the order of their addresses.
fn known_by_parts<'c, 'run>(
    core: &'c Core<'run>,
    image: Image<'c>,
    places: &'c [ProgramHeader],
) -> KnownCore<'c, 'run>
    requires { IsNonDecreasingBy (λ (h : Header). h.p_vaddr) places.now }
    ensures known { (bytes : List ℕ) → IsImageOf (image_view image.entry) bytes
        → (core_view core.now).segments
        ≡ map (head_in bytes (core_view core.now).mapped) places.now
        → IsKnownOf result (with_all bytes (core_view core.now) places.now) }
    ensures parts { is_whole result ≡ false }
{
    KnownCore {
        core,
        parts: Some(StackParts { image, places }),
    }
}

/// Writes what was gathered, and returns this status.
fn write_gathered<W: Write>(output: &mut W, text: &[u8], status: u8) -> io::Result<u8>
    ensures written { Writes (W.contents output.old) (W.contents output.new) result text.now }
    ensures status { IfOk result (λ returned. returned ≡ status) }
{
    write_text(output, text)?;
    Ok(status)
}

/// Reads the core file whole, and prints the stacks.
fn print_whole<O: Opener, I: FileInput, W: Write>(
    alloc: Global,
    listing: ThreadListing,
    opener: &O,
    input: &mut I,
    output: &mut W,
) -> io::Result<u8>
    ensures { PrintsCoreOwed listing (O.may_open opener.now) O.File.remaining (I.bytes input.old)
        (W.contents output.old) (W.contents output.new) result }
{
    match read_whole(alloc, input) {
        Ok(bytes) => print_bytes(alloc, listing, opener, bytes.as_slice(), output),
        Err(error) => write_input_refusal(output, listing.format, error),
    }
}

/// Prints the stacks of the core file that these bytes are.
fn print_bytes<O: Opener, W: Write>(
    alloc: Global,
    listing: ThreadListing,
    opener: &O,
    bytes: &[u8],
    output: &mut W,
) -> io::Result<u8>
    ensures { PrintsSome (λ line. IsCoreOutput listing (O.may_open opener.now) O.File.remaining
        bytes.now line)
        (W.contents output.old) (W.contents output.new) result }
{
    match read_core(alloc, bytes) {
        Ok(core) => print_read(alloc, listing, opener, &core, output),
        Err(error) => write_core_refusal(output, listing.format, error),
    }
}

/// Prints the stacks of a core that was read whole.
fn print_read<O: Opener, W: Write>(
    alloc: Global,
    listing: ThreadListing,
    opener: &O,
    core: &Core<'_>,
    output: &mut W,
) -> io::Result<u8>
    requires { AreByAddress core.now.segments.items }
    ensures { PrintsSome (λ line. IsOfCore listing (O.may_open opener.now) O.File.remaining
        (core_view core.now) line ⊎ (line ≡ no_memory listing.format))
        (W.contents output.old) (W.contents output.new) result }
{
    let known = KnownCore { core, parts: None };
    let status = print_known(alloc, listing, opener, &known, output)?;
    // A stack of a whole file lacks nothing.
    Ok(status.unwrap_or(0))
}

/// Prints the stacks of the threads of a core, and returns the status; `None` where a stack lacks
/// something in the parts that were read. Fails as `print_core`.
fn print_known<O: Opener, W: Write>(
    alloc: Global,
    listing: ThreadListing,
    opener: &O,
    known: &KnownCore<'_, '_>,
    output: &mut W,
) -> io::Result<Option<u8>>
    requires { is_whole known.now ≡ true → AreByAddress known.now.core.now.segments.items }
    ensures { (whole : Whole) → IsKnownOf known.now whole
        → PrintsFound (λ line. IsOfCore listing (O.may_open opener.now) O.File.remaining whole line
        ⊎ (line ≡ no_memory listing.format)) (W.contents output.old) (W.contents output.new)
        (is_some known.now.parts) result }
{
    if lacks_thread(listing, known.core) {
        let status = write_reason(output, listing.format, "no thread", 1)?;
        return Ok(Some(status));
    }
    print_by_files(alloc, listing, opener, known, output)
}

/// The same, where the thread that is asked for may be there: opens the files of the core, and
/// prints the stacks by them.
fn print_by_files<O: Opener, W: Write>(
    alloc: Global,
    listing: ThreadListing,
    opener: &O,
    known: &KnownCore<'_, '_>,
    output: &mut W,
) -> io::Result<Option<u8>>
    requires core { is_whole known.now ≡ true → AreByAddress known.now.core.now.segments.items }
    requires threads { lacks_thread listing (core_view known.now.core.now) ≡ false }
    ensures { (whole : Whole) → IsKnownOf known.now whole
        → PrintsFound (λ line. IsOfCore listing (O.may_open opener.now) O.File.remaining whole line
        ⊎ (line ≡ no_memory listing.format)) (W.contents output.old) (W.contents output.new)
        (is_some known.now.parts) result }
{
    let core = known.core;
    let is_whole = known.parts.is_none();
    let Ok(opened) = opened_files(alloc, is_whole, opener, core) else {
        return print_refused(listing, output);
    };
    let opened = opened.as_slice();
    let Ok(files) = profile_files(alloc, !listing.raw, opened) else {
        return print_refused(listing, output);
    };
    let files = files.as_slice();
    let Ok(code) = core_code(alloc, is_whole, core, opened, files) else {
        return print_refused(listing, output);
    };
    let memory = memory_of(known, code.windows.as_slice());
    match Room::new(alloc) {
        Ok(room) => print_threads(alloc, listing, core, files, &code, &memory, room, output),
        Err(_) => print_refused(listing, output),
    }
}

/// Prints that memory was refused, and returns the status 1.
fn print_refused<W: Write>(listing: ThreadListing, output: &mut W) -> io::Result<Option<u8>>
    ensures { (may_lack : Bool) → PrintsFound (λ line. line ≡ no_memory listing.format)
        (W.contents output.old) (W.contents output.new) may_lack result }
{
    let status = write_refusal_in(output, listing.format, Error::OutOfMemory)?;
    Ok(Some(status))
}
