//! The files of a profile, as they are opened and read.
ghost use Rattle.std.specs.Prelude.{◌≡◌, ℕ, List, Option, Some, IfOk, map, option_map, ◌||◌};
ghost use Rattle.std.specs.Prelude.{string_bytes, true};
ghost use Rattle.cfi_mapped.specs.CodeMaps.{map_name};
ghost use Rattle.cfi_mapped.specs.CodeParts.{ArePartsOf, ArePartsOfBytes, is_whole};
ghost use Rattle.cfi_mapped.specs.FileReads.{AreOpened, IsBuild, IsBuildOf};
ghost use Rattle.cfi_mapped.specs.OpenedFiles.{AreOpenedAs};
ghost use Rattle.cfi_mapped.specs.FileReads.{IsByLink, IsContents, IsDebug, IsDebugFor};
ghost use Rattle.cfi_mapped.specs.FileReads.{IsFileFound, IsLinkedAmong, IsLinkedIn};
ghost use Rattle.cfi_mapped.specs.FileReads.{IsLinkedReading, IsReadIfOpened, IsAllLeft};
ghost use Rattle.cfi_mapped.specs.OpenedFiles.{IsOpenedAs};
ghost use Rattle.cfi_mapped.specs.FileReads.{IsTold, if_built, if_readable};
ghost use Rattle.cfi_mapped.specs.OpenedFiles.{Opened, are_whole};
ghost use Rattle.cfi_mapped.specs.FileReads.{names_a_file};
ghost use Rattle.cfi_mapped.specs.OpenedFiles.{opened_as};
ghost use Rattle.cfi_mapped.specs.Notices.{AreMissingSaid, is_missing, missing};
ghost use Rattle.cfi_mapped.specs.Wanted.{copy_of, is_text, wanted_view};
ghost use Rattle.cfi_elf.specs.DebugLinks.{link_view};

use crate::code_map::map_name;
use crate::code_parts::CodeParts;
use crate::file_builds::{has_build, id_in, is_linked, link_in};
use crate::kernel_symbols::is_kernel_name;
use crate::opened_file::OpenedFile;
use crate::opener::Opener;
use crate::wanted::{LinkFolder, WantedFile, is_text};
use cfi_elf::DebugLink;
use cfi_object::{FileInput, read_whole};
use cfi_text::reading::{InputError, read_all};
use std::alloc::{AllocError, Global};
use std::io::Read;

/// Where the debug file of a link is looked for, in this order.
const LINK_FOLDERS: [LinkFolder; 3] = [LinkFolder::Beside, LinkFolder::Below, LinkFolder::Central];

/// Opens the files, and reads the parts of them that are needed, or all of them if asked for. Of a
/// build that is known only a file of it is taken: the one at the path, or else the copy that the
/// recorder kept; where there is none of it, the opener says so. Also reads the debug file of each
/// file that says of which build it is, or else that to which the file's link leads. Fails where
/// memory is refused.
pub fn read_files<'run, O: Opener>(
    alloc: Global,
    whole: bool,
    opener: &O,
    files: &[WantedFile<'run>],
) -> Result<Vec<OpenedFile<'run>>, AllocError>
    ensures opened { IfOk result (λ opened. (all : List Opened)
        × AreOpened (O.may_open opener.now) O.File.remaining (map wanted_view files.now) all
        × AreOpenedAs opened.items all) }
    ensures whole { IfOk result (λ opened. whole ≡ true → are_whole opened.items ≡ true) }
    ensures said { IfOk result (λ opened. AreMissingSaid (O.has_said opener.now) opened.items) }
{
    let mut opened = Vec::new(alloc);
    for file in files {
        opened.push(read_file(alloc, whole, opener, file)?)?;
    }
    Ok(opened)
}

/// Opens and reads a file.
fn read_file<'run, O: Opener>(
    alloc: Global,
    whole: bool,
    opener: &O,
    file: &WantedFile<'run>,
) -> Result<OpenedFile<'run>, AllocError>
    ensures opened { IfOk result (λ one. (bytes debug : Option (List ℕ))
        × IsContents (O.may_open opener.now) O.File.remaining (wanted_view file.now) bytes
        × IsDebugFor (O.may_open opener.now) O.File.remaining (wanted_view file.now) bytes debug
        × IsOpenedAs one (opened_as (wanted_view file.now) bytes debug)) }
    ensures whole { IfOk result (λ one. whole ≡ true → is_whole one.code ≡ true) }
    ensures said { IfOk result (λ one. is_missing one.name.now one.build_id one.code ≡ true
        → O.has_said opener.now (missing one.name.now)) }
{
    let code = read_contents(alloc, reads_all(whole, file), opener, file)?;
    let debug = read_debug(alloc, opener, file, &code)?;
    let map_name = map_name_of(alloc, file.process)?;
    Ok(OpenedFile {
        name: file.name,
        build_id: file.build_id,
        code,
        debug,
        process: file.process,
        map_name,
    })
}

/// Whether all of a file is read: where that is asked for, and of a text that the kernel or a
/// process tells.
fn reads_all(whole: bool, file: &WantedFile<'_>) -> bool
    ensures { result ≡ (whole || is_text file.now.name.now file.now.process) }
{
    whole || is_text(file.name, file.process)
}

/// The path of the file in which a process tells the functions of code that it made.
fn map_name_of(alloc: Global, process: Option<u32>) -> Result<Option<String>, AllocError>
    ensures { IfOk result (λ name. option_map string_bytes name ≡ option_map map_name process) }
{
    match process {
        Some(process) => Ok(Some(map_name(alloc, process)?)),
        None => Ok(None),
    }
}

/// Reads the debug file of a file of which these parts were read; none of a text.
fn read_debug<O: Opener>(
    alloc: Global,
    opener: &O,
    file: &WantedFile<'_>,
    code: &Option<CodeParts>,
) -> Result<Option<CodeParts>, AllocError>
    ensures { (bytes : Option (List ℕ)) → ArePartsOfBytes code.now bytes
        → IfOk result (ArePartsOf (IsDebugFor (O.may_open opener.now) O.File.remaining
        (wanted_view file.now) bytes)) }
{
    if is_text(file.name, file.process) {
        return Ok(None);
    }
    let Some(code) = code else {
        return Ok(None);
    };
    let build = id_in(code.image());
    match read_debug_of(alloc, opener, build)? {
        Some(debug) => Ok(Some(debug)),
        None => read_by_link(alloc, opener, file.name, build, link_in(code.image())),
    }
}

/// Reads the debug file to which the link of a file of this name and this build leads.
fn read_by_link<O: Opener>(
    alloc: Global,
    opener: &O,
    name: &[u8],
    build: Option<&[u8]>,
    link: Option<DebugLink<'_>>,
) -> Result<Option<CodeParts>, AllocError>
    ensures { IfOk result (ArePartsOf (IsByLink (O.may_open opener.now) O.File.remaining name.now
        (option_map (λ build. build.now) build.entry) (option_map link_view link.entry))) }
{
    let Some(link) = link else {
        return Ok(None);
    };
    read_linked_among(alloc, opener, name, build, &link, &LINK_FOLDERS)
}

/// Reads the debug file in the first of the folders in which the link leads to one.
fn read_linked_among<O: Opener>(
    alloc: Global,
    opener: &O,
    name: &[u8],
    build: Option<&[u8]>,
    link: &DebugLink<'_>,
    folders: &[LinkFolder],
) -> Result<Option<CodeParts>, AllocError>
    ensures { IfOk result (ArePartsOf (IsLinkedAmong (O.may_open opener.now) O.File.remaining
        name.now (link_view link.now) (option_map (λ build. build.now) build.entry)
        folders.now)) }
{
    for folder in folders {
        if let Some(debug) = read_linked(alloc, opener, name, build, link, *folder)? {
            return Ok(Some(debug));
        }
    }
    Ok(None)
}

/// Reads the debug file in one folder, if the link leads to it.
fn read_linked<O: Opener>(
    alloc: Global,
    opener: &O,
    name: &[u8],
    build: Option<&[u8]>,
    link: &DebugLink<'_>,
    folder: LinkFolder,
) -> Result<Option<CodeParts>, AllocError>
    ensures { IfOk result (ArePartsOf (IsLinkedIn (O.may_open opener.now) O.File.remaining name.now
        (link_view link.now) (option_map (λ build. build.now) build.entry) folder)) }
{
    match opener.open_linked(folder, name, link.name) {
        Some(mut file) => read_if_linked(alloc, link, build, &mut file),
        None => Ok(None),
    }
}

/// Reads all bytes of a file, if the link of a file of this build leads to them: its checksum is
/// that of all. `None` where it can't be read, or it doesn't.
fn read_if_linked<I: FileInput>(
    alloc: Global,
    link: &DebugLink<'_>,
    build: Option<&[u8]>,
    file: &mut I,
) -> Result<Option<CodeParts>, AllocError>
    ensures { IfOk result (ArePartsOf (IsLinkedReading (I.bytes file.old) (link_view link.now)
        (option_map (λ build. build.now) build.entry))) }
{
    let Some(bytes) = if_readable(read_whole(alloc, file))? else {
        return Ok(None);
    };
    if is_linked(link, build, bytes.as_slice()) {
        Ok(Some(CodeParts::whole(alloc, bytes)))
    } else {
        Ok(None)
    }
}

/// Reads the debug file of the file of a build, if it is of the build.
fn read_debug_of<O: Opener>(
    alloc: Global,
    opener: &O,
    build: Option<&[u8]>,
) -> Result<Option<CodeParts>, AllocError>
    ensures { IfOk result (ArePartsOf (IsDebug (O.may_open opener.now) O.File.remaining
        (option_map (λ build. build.now) build.entry))) }
{
    match build {
        Some(build) => read_build::<O>(alloc, false, build, opener.open_debug(build)),
        None => Ok(None),
    }
}

/// Opens and reads what is needed of a file, or all of it.
fn read_contents<O: Opener>(
    alloc: Global,
    whole: bool,
    opener: &O,
    file: &WantedFile<'_>,
) -> Result<Option<CodeParts>, AllocError>
    ensures contents { IfOk result (ArePartsOf (IsContents (O.may_open opener.now) O.File.remaining
        (wanted_view file.now))) }
    ensures whole { IfOk result (λ code. whole ≡ true → is_whole code ≡ true) }
    ensures said { IfOk result (λ code. is_missing file.now.name.now file.now.build_id code ≡ true
        → O.has_said opener.now (missing file.now.name.now)) }
{
    if !is_file_name(file.name) {
        return read_told(alloc, opener, is_kernel_name(file.name), file.process);
    }
    match file.build_id {
        Some(build) => read_found(alloc, whole, opener, file.name, build),
        None => read_opened::<O>(alloc, whole, opener.open(file.name)),
    }
}

/// Reads what the kernel tells of its symbols, or a process of code that it made.
fn read_told<O: Opener>(
    alloc: Global,
    opener: &O,
    is_kernel: bool,
    process: Option<u32>,
) -> Result<Option<CodeParts>, AllocError>
    ensures contents { IfOk result (ArePartsOf (IsTold (O.may_open opener.now) O.File.remaining
        is_kernel process)) }
    ensures whole { IfOk result (λ code. is_whole code ≡ true) }
{
    if is_kernel {
        return read_text(alloc, opener.open_kernel_symbols());
    }
    match process {
        Some(process) => read_text(alloc, opener.open_code_map(process)),
        None => Ok(None),
    }
}

/// Reads the file at the path, or else the copy of the build, if it is of the build.
fn read_found<O: Opener>(
    alloc: Global,
    whole: bool,
    opener: &O,
    name: &[u8],
    build: &[u8],
) -> Result<Option<CodeParts>, AllocError>
    ensures contents { IfOk result (ArePartsOf (IsFileFound (O.may_open opener.now) O.File.remaining
        name.now (Some build.now))) }
    ensures whole { IfOk result (λ code. whole ≡ true → is_whole code ≡ true) }
    ensures said { IfOk result (λ code.
        code ≡ None → O.has_said opener.now (missing name.now)) }
{
    let found = read_build::<O>(alloc, whole, build, opener.find(name))?;
    match found {
        Some(code) => Ok(Some(code)),
        None => read_copy(alloc, whole, opener, name, build),
    }
}

/// Reads the copy of the build, and says so where there is none.
fn read_copy<O: Opener>(
    alloc: Global,
    whole: bool,
    opener: &O,
    name: &[u8],
    build: &[u8],
) -> Result<Option<CodeParts>, AllocError>
    ensures contents { IfOk result (ArePartsOf (IsBuild (O.may_open opener.now) O.File.remaining
        build.now (copy_of build.now))) }
    ensures whole { IfOk result (λ code. whole ≡ true → is_whole code ≡ true) }
    ensures said { IfOk result (λ code.
        code ≡ None → O.has_said opener.now (missing name.now)) }
{
    match read_build::<O>(alloc, whole, build, opener.open_copy(build))? {
        Some(code) => Ok(Some(code)),
        None => {
            opener.tell_missing(name);
            Ok(None)
        }
    }
}

/// Reads a file that was opened, if it is of the build.
fn read_build<O: Opener>(
    alloc: Global,
    whole: bool,
    build: &[u8],
    opened: Option<O::File>,
) -> Result<Option<CodeParts>, AllocError>
    ensures contents { IfOk result (ArePartsOf (IsBuildOf O.File.remaining build.now opened)) }
    ensures whole { IfOk result (λ code. whole ≡ true → is_whole code ≡ true) }
{
    let code = read_opened::<O>(alloc, whole, opened)?;
    Ok(if_built(build, code))
}

/// The file, if it is of the build.
fn if_built(build: &[u8], code: Option<CodeParts>) -> Option<CodeParts>
    ensures built { (bytes : Option (List ℕ)) → ArePartsOfBytes code bytes
        → ArePartsOfBytes result (if_built build.now bytes) }
    ensures whole { is_whole code ≡ true → is_whole result ≡ true }
{
    match code {
        Some(code) => {
            if has_build(build, code.image()) {
                Some(code)
            } else {
                None
            }
        }
        None => None,
    }
}

/// Reads a file that was opened, if it was.
fn read_opened<O: Opener>(
    alloc: Global,
    whole: bool,
    opened: Option<O::File>,
) -> Result<Option<CodeParts>, AllocError>
    ensures contents { IfOk result (ArePartsOf (IsReadIfOpened O.File.remaining opened)) }
    ensures whole { IfOk result (λ code. whole ≡ true → is_whole code ≡ true) }
{
    match opened {
        Some(mut file) => read_input(alloc, whole, &mut file),
        None => Ok(None),
    }
}

/// Reads a text that was opened to its end, if it was. The system makes such texts up as they are
/// read, so they have no length before.
fn read_text<R: Read + Drop>(
    alloc: Global,
    opened: Option<R>,
) -> Result<Option<CodeParts>, AllocError>
    ensures contents { IfOk result (ArePartsOf (IsReadIfOpened R.remaining opened)) }
    ensures whole { IfOk result (λ code. is_whole code ≡ true) }
{
    match opened {
        Some(mut text) => read_to_end(alloc, &mut text),
        None => Ok(None),
    }
}

/// Reads a text to its end; `None` where it can't be read.
fn read_to_end<R: Read>(alloc: Global, text: &mut R) -> Result<Option<CodeParts>, AllocError>
    ensures contents { IfOk result (ArePartsOf (IsAllLeft (R.remaining text.old))) }
    ensures whole { IfOk result (λ code. is_whole code ≡ true) }
{
    match if_readable(read_all(alloc, text))? {
        Some(bytes) => Ok(Some(CodeParts::whole(alloc, bytes))),
        None => Ok(None),
    }
}

/// Reads what is needed of a file, or all of it; `None` where it can't be read.
fn read_input<I: FileInput>(
    alloc: Global,
    whole: bool,
    file: &mut I,
) -> Result<Option<CodeParts>, AllocError>
    ensures contents { IfOk result (ArePartsOf (IsAllLeft (I.bytes file.old))) }
    ensures whole { IfOk result (λ code. whole ≡ true → is_whole code ≡ true) }
{
    if_readable(CodeParts::read(alloc, whole, file))
}

/// What was read; `None` where it can't be. Fails where memory was refused.
fn if_readable<T>(read: Result<T, InputError>) -> Result<Option<T>, AllocError>
    ensures { result ≡ if_readable read }
{
    match read {
        Ok(read) => Ok(Some(read)),
        Err(InputError::OutOfMemory) => Err(AllocError),
        Err(_) => Ok(None),
    }
}

/// Whether a mapping with this name is of a file: the kernel and perf name other memory by `[vdso]`
/// and the like, or by paths where there is no file.
fn is_file_name(name: &[u8]) -> bool
    ensures { result ≡ names_a_file name.now }
{
    name.starts_with(b"/")
        && !name.starts_with(b"//")
        && !name.starts_with(b"/dev/")
        && !name.starts_with(b"/memfd:")
        && !name.starts_with(b"/SYSV")
        && !name.starts_with(b"/anon_hugepage")
}
