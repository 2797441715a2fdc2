//! The files of a profile, with their functions and their code.
ghost use Rattle.std.specs.Prelude.{◌≡◌, List, IfOk, map, option_map, string_bytes};
ghost use Rattle.cfi_perf.specs.Events.{mapping_record_view};
ghost use Rattle.cfi_processes.specs.FileFunctions.{functions_view};
ghost use Rattle.cfi_mapped.specs.CodeMapViews.{code_map_view};
ghost use Rattle.cfi_mapped.specs.CodeParts.{beginning_in};
ghost use Rattle.cfi_mapped.specs.KernelNames.{kernel_view};
ghost use Rattle.cfi_processes.specs.KnownFiles.{code_view, known_view};
ghost use Rattle.cfi_processes.specs.Objects.{object_in};
ghost use Rattle.cfi_processes.specs.ProfileFiles.{AreProfileFilesOf, IsCodeOf, IsFileOf};
ghost use Rattle.cfi_mapped.specs.OpenedFiles.{AreOpenedAs};
ghost use Rattle.cfi_mapped.specs.OpenedFiles.{IsOpenedAs, Opened};
ghost use Rattle.cfi_processes.specs.ProfileFiles.{code_map_by, code_map_of, functions_if};
ghost use Rattle.cfi_processes.specs.ProfileFiles.{kernel_text, kernel_text_of, object_if};
ghost use Rattle.cfi_processes.specs.Replays.{is_mapping_of};
ghost use Rattle.cfi_elf.specs.Images.{image_view};

use crate::file_code::FileCode;
use crate::file_functions::FileFunctions;
use crate::objects::Object;
use cfi_elf::Image;
use cfi_elf::bytes::bytes_from;
use cfi_mapped::code_map::CodeMap;
use cfi_mapped::kernel_names::KernelNames;
use cfi_mapped::kernel_symbols::{KERNEL_IMAGE, is_kernel_name};
use cfi_mapped::names::Name;
use cfi_mapped::opened_file::OpenedFile;
use cfi_mapped::wanted::{same_id, same_process};
use cfi_mapped::wanted_files::process_of;
use cfi_perf::Mapping;
use std::alloc::{AllocError, Global};

/// A file of a profile: its name, and its functions and its code if it could be read.
#[derive(Drop)]
pub struct ProfileFile<'run> {
    /// The name, as the mappings have it.
    pub name: Name<'run>,
    /// The identification of its build, if it is known.
    pub build_id: Option<&'run [u8]>,
    /// Its functions; `None` where it can't be opened or read, or is no ELF file.
    pub functions: Option<FileFunctions<'run>>,
    /// Its code; `None` where it can't be opened or read, is no ELF file, or has no call frames.
    pub code: Option<FileCode<'run>>,
    /// The symbols of the kernel that runs, if it is the kernel itself, and they can be read.
    pub kernel: Option<KernelNames<'run>>,
    /// The process whose memory it is, where it is no file's.
    pub process: Option<u32>,
    /// The functions of code that this process made, if they can be read.
    pub code_map: Option<CodeMap<'run>>,
}

impl ProfileFile<'_> {
    /// Returns whether this is the file that is mapped: it has its name, its build if that is
    /// known, and where it is memory its process. Does not allocate.
    pub fn is_of(&self, mapping: &Mapping<'_>) -> bool
        ensures { result ≡ is_mapping_of (mapping_record_view mapping.now) (known_view self.now) }
    {
        self.name.bytes() == mapping.name
            && same_id(self.build_id, mapping.build_id)
            && same_process(self.process, process_of(mapping))
    }
}

/// The files that were opened, with their functions if these are to be named. Fails where memory is
/// refused.
pub fn profile_files<'opened>(
    alloc: Global,
    named: bool,
    opened: &'opened [OpenedFile<'_>],
) -> Result<Vec<ProfileFile<'opened>>, AllocError>
    ensures { (all : List Opened) → AreOpenedAs opened.now all
        → IfOk result (λ files. AreProfileFilesOf named all (map known_view files.items)) }
{
    let mut files = Vec::new(alloc);
    for file in opened {
        files.push(profile_file(alloc, named, file)?)?;
    }
    Ok(files)
}

/// A file that was opened.
fn profile_file<'opened>(
    alloc: Global,
    named: bool,
    opened: &'opened OpenedFile<'_>,
) -> Result<ProfileFile<'opened>, AllocError>
    ensures { (one : Opened) → IsOpenedAs opened.now one
        → IfOk result (λ file. IsFileOf named one (known_view file)) }
{
    let image = opened.image();
    let debug = opened.debug_image();
    let functions = functions_if(alloc, named, image, debug)?;
    let code = code_if(alloc, image, debug)?;
    let kernel = kernel_of(alloc, opened)?;
    let code_map = map_of(alloc, opened)?;
    Ok(ProfileFile {
        name: Name::new(opened.name),
        build_id: opened.build_id,
        functions,
        code,
        kernel,
        process: opened.process,
        code_map,
    })
}

/// The functions of code that a process made, if this is its memory.
fn map_of<'opened>(
    alloc: Global,
    opened: &'opened OpenedFile<'_>,
) -> Result<Option<CodeMap<'opened>>, AllocError>
    ensures { IfOk result (λ found. option_map code_map_view found ≡ code_map_of
        (beginning_in opened.now.code) (option_map string_bytes opened.now.map_name)) }
{
    match &opened.map_name {
        Some(name) => map_by(alloc, opened.first(), name.as_bytes()),
        None => Ok(None),
    }
}

/// The functions that are told in a text with this path, if it could be read.
fn map_by<'opened>(
    alloc: Global,
    text: Option<&'opened [u8]>,
    name: &'opened [u8],
) -> Result<Option<CodeMap<'opened>>, AllocError>
    ensures { IfOk result (λ found. option_map code_map_view found
        ≡ code_map_by (option_map (λ text. text.now) text.entry) name.entry.now) }
{
    match text {
        Some(text) => Ok(Some(CodeMap::of(alloc, name, text)?)),
        None => Ok(None),
    }
}

/// The symbols of the kernel, if the file is the kernel itself.
fn kernel_of<'opened>(
    alloc: Global,
    opened: &'opened OpenedFile<'_>,
) -> Result<Option<KernelNames<'opened>>, AllocError>
    ensures { IfOk result (λ names. option_map kernel_view names
        ≡ kernel_text_of opened.now.name.now (beginning_in opened.now.code)) }
{
    if !is_kernel_name(opened.name) {
        return Ok(None);
    }
    match opened.first() {
        Some(text) => Ok(Some(names_in(alloc, opened.name, text)?)),
        None => Ok(None),
    }
}

/// The symbols of a text, with that after which the kernel's mapping is named.
fn names_in<'opened>(
    alloc: Global,
    name: &'opened [u8],
    text: &'opened [u8],
) -> Result<KernelNames<'opened>, AllocError>
    ensures { IfOk result (λ names. kernel_view names
        ≡ kernel_text name.entry.now text.entry.now) }
{
    KernelNames::of(alloc, text, bytes_from(name, KERNEL_IMAGE.len() as u64))
}

/// The functions of a file of which these parts were read, if they are asked for and there is one.
fn functions_if<'opened>(
    alloc: Global,
    named: bool,
    image: Option<Image<'opened>>,
    debug: Option<Image<'opened>>,
) -> Result<Option<FileFunctions<'opened>>, AllocError>
    ensures { IfOk result (λ functions. option_map functions_view functions
        ≡ functions_if named (option_map image_view image.entry)
        (option_map image_view debug.entry)) }
{
    if !named {
        return Ok(None);
    }
    match image {
        Some(image) => FileFunctions::of(alloc, image, debug),
        None => Ok(None),
    }
}

/// The code of the file, if there is one.
fn code_if<'run>(
    alloc: Global,
    image: Option<Image<'run>>,
    debug: Option<Image<'run>>,
) -> Result<Option<FileCode<'run>>, AllocError>
    ensures { IfOk result (λ code. IsCodeOf (object_if (option_map image_view image.entry)
        (option_map image_view debug.entry)) (option_map code_view code)) }
{
    match image {
        Some(image) => code_of(alloc, image, debug),
        None => Ok(None),
    }
}

/// The code of the file of which these parts were read, and of its debug file those of `debug`.
fn code_of<'run>(
    alloc: Global,
    image: Image<'run>,
    debug: Option<Image<'run>>,
) -> Result<Option<FileCode<'run>>, AllocError>
    ensures { IfOk result (λ code. IsCodeOf
        (object_in (image_view image.entry) (option_map image_view debug.entry))
        (option_map code_view code)) }
{
    match Object::of(image, debug) {
        Some(object) => Ok(Some(FileCode::of(alloc, object)?)),
        None => Ok(None),
    }
}
