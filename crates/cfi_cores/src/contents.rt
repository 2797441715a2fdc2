//! What the notes of a core file say.
ghost use Rattle.std.specs.Prelude.{◌≡◌, IfOk, OnOk, option_map};
ghost use Rattle.cfi_elf.specs.Notes.{note_view};
ghost use Rattle.cfi_elf.specs.SegmentLists.{segments_left};
ghost use Rattle.cfi_cores.specs.Contents.{contents_view, ended_by, files_found, then_contents};
ghost use Rattle.cfi_cores.specs.Contents.{contents_of_files, contents_of_header};
ghost use Rattle.cfi_cores.specs.Contents.{contents_of_headers, contents_of_name};
ghost use Rattle.cfi_cores.specs.Contents.{contents_of_note, contents_of_part};
ghost use Rattle.cfi_cores.specs.Contents.{contents_of_segment, contents_of_siginfo};
ghost use Rattle.cfi_cores.specs.Contents.{contents_of_thread, contents_of_vector, no_contents};
ghost use Rattle.cfi_cores.specs.Contents.{thread_found};

use crate::error::CoreError;
use crate::mapped_files::{CoreMapping, files_in};
use crate::process_name::process_name;
use crate::segments::segment_bytes;
use crate::thread::{CoreThread, thread_in};
use cfi_elf::constants::PT_NOTE;
use cfi_elf::{Note, Notes, ProgramHeader, Segments};
use cfi_processes::SampleMachine;
use cfi_read_core::RunTimeEndian;
use std::alloc::{AllocError, Global};

const NT_PRSTATUS: u32 = 1;

const NT_PRPSINFO: u32 = 3;

const NT_AUXV: u32 = 6;

const NT_SIGINFO: u32 = 0x5349_4749;

const NT_FILE: u32 = 0x4649_4c45;

/// What notes say, up to the error that ended them, if one did.
#[derive(Drop)]
pub(crate) struct Contents<'run> {
    /// The threads, in the order of the notes.
    pub(crate) threads: Vec<CoreThread<'run>>,
    /// The files that were mapped, by the first note that tells of them.
    pub(crate) mapped: Option<Vec<CoreMapping<'run>>>,
    /// The auxiliary vector, by the first note that has one.
    pub(crate) vector: Option<&'run [u8]>,
    /// What the kernel says of the signal, by the first note that tells of one.
    pub(crate) siginfo: Option<&'run [u8]>,
    /// The name of the process, by the first note that has it.
    pub(crate) name: Option<&'run [u8]>,
    pub(crate) error: Option<CoreError>,
}

/// What the notes of a core file say: those of its segments of type `PT_NOTE`, in the order of
/// their headers. Fails where memory is refused.
pub(crate) fn read_contents<'run>(
    alloc: Global,
    machine: SampleMachine,
    bytes: &'run [u8],
    headers: Segments<'run>,
) -> Result<Contents<'run>, AllocError>
    ensures { IfOk result (λ contents. contents_view contents
        ≡ contents_of_headers machine bytes.now (segments_left headers.entry)) }
{
    let mut contents = Contents::new(alloc);
    for header in headers {
        contents.read_header(alloc, machine, bytes, &header)?;
    }
    Ok(contents)
}

impl<'run> Contents<'run> {
    /// Nothing yet.
    pub(crate) fn new(alloc: Global) -> Self
        ensures { contents_view result ≡ no_contents }
    {
        Contents {
            threads: Vec::new(alloc),
            mapped: None,
            vector: None,
            siginfo: None,
            name: None,
            error: None,
        }
    }

    /// Reads the notes of a segment too, if it has notes.
    fn read_header(
        &mut self,
        alloc: Global,
        machine: SampleMachine,
        bytes: &'run [u8],
        header: &ProgramHeader,
    ) -> Result<(), AllocError>
        ensures { OnOk result (contents_view self.new
            ≡ then_contents (contents_view self.old)
            (contents_of_header machine bytes.now header.now)) }
    {
        if header.p_type == PT_NOTE {
            self.read_part(
                alloc,
                machine,
                segment_bytes(bytes, header),
                header.p_filesz,
            )?;
        }
        Ok(())
    }

    /// Reads the notes too that a file has of a segment of this size. Where the file ends before
    /// the segment does, notes are cut, even if the last one it has is whole.
    pub(crate) fn read_part(
        &mut self,
        alloc: Global,
        machine: SampleMachine,
        bytes: &'run [u8],
        size: u64,
    ) -> Result<(), AllocError>
        ensures { OnOk result (contents_view self.new
            ≡ then_contents (contents_view self.old) (contents_of_part machine size bytes.now)) }
    {
        self.read_segment(alloc, machine, bytes)?;
        if (bytes.len() as u64) < size {
            self.end(CoreError::NoteCut);
        }
        Ok(())
    }

    /// Reads these notes too.
    fn read_segment(
        &mut self,
        alloc: Global,
        machine: SampleMachine,
        bytes: &'run [u8],
    ) -> Result<(), AllocError>
        ensures { OnOk result (contents_view self.new
            ≡ then_contents (contents_view self.old) (contents_of_segment machine bytes.now)) }
    {
        for note in Notes::new(bytes, RunTimeEndian::Little) {
            match note {
                Ok(note) => self.read_note(alloc, machine, &note)?,
                Err(_) => self.end(CoreError::NoteCut),
            }
        }
        Ok(())
    }

    /// Reads this note too.
    fn read_note(
        &mut self,
        alloc: Global,
        machine: SampleMachine,
        note: &Note<'run>,
    ) -> Result<(), AllocError>
        ensures { OnOk result (contents_view self.new
            ≡ then_contents (contents_view self.old)
            (contents_of_note machine (note_view note.now))) }
    {
        if self.error.is_some() || note.name != b"CORE".as_slice() {
            return Ok(());
        }
        match note.kind {
            NT_PRSTATUS => self.push_thread(thread_in(machine, note.desc))?,
            NT_PRPSINFO => self.keep_name(process_name(note.desc)),
            NT_AUXV => self.keep_vector(note.desc),
            NT_SIGINFO => self.keep_siginfo(note.desc),
            NT_FILE => self.map_files(files_in(alloc, note.desc)?),
            _ => {}
        }
        Ok(())
    }

    /// Takes the thread of a note too, or the error that it has too few bytes.
    fn push_thread(&mut self, thread: Option<CoreThread<'run>>) -> Result<(), AllocError>
        ensures { OnOk result (contents_view self.new
            ≡ then_contents (contents_view self.old)
            (contents_of_thread (thread_found thread.entry))) }
    {
        match thread {
            Some(thread) => {
                if self.error.is_none() {
                    self.threads.push(thread)?;
                }
            }
            None => self.end(CoreError::ThreadCut),
        }
        Ok(())
    }

    /// Takes the files of a note too, or the error that it has too few bytes.
    fn map_files(&mut self, files: Option<Vec<CoreMapping<'run>>>)
        ensures { contents_view self.new
            ≡ then_contents (contents_view self.old) (contents_of_files (files_found files.entry)) }
    {
        match files {
            Some(files) => {
                if self.error.is_none() && self.mapped.is_none() {
                    self.mapped = Some(files);
                }
            }
            None => self.end(CoreError::FilesCut),
        }
    }

    /// Takes the auxiliary vector of a note too.
    fn keep_vector(&mut self, vector: &'run [u8])
        ensures { contents_view self.new
            ≡ then_contents (contents_view self.old) (contents_of_vector vector.entry.now) }
    {
        if self.error.is_none() && self.vector.is_none() {
            self.vector = Some(vector);
        }
    }

    /// Takes what a note says of a signal too.
    fn keep_siginfo(&mut self, siginfo: &'run [u8])
        ensures { contents_view self.new
            ≡ then_contents (contents_view self.old) (contents_of_siginfo siginfo.entry.now) }
    {
        if self.error.is_none() && self.siginfo.is_none() {
            self.siginfo = Some(siginfo);
        }
    }

    /// Takes the name that a note has for the process too, if it has one.
    fn keep_name(&mut self, name: Option<&'run [u8]>)
        ensures { contents_view self.new ≡ then_contents (contents_view self.old)
            (contents_of_name (option_map (λ name. name.now) name.entry)) }
    {
        if self.error.is_none() && self.name.is_none() {
            self.name = name;
        }
    }

    /// Ends what is read with this error, if no other has ended it before.
    fn end(&mut self, error: CoreError)
        ensures { contents_view self.new
            ≡ then_contents (contents_view self.old) (ended_by error) }
    {
        if self.error.is_none() {
            self.error = Some(error);
        }
    }
}
