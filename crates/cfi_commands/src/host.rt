//! The system of a runtime: what its process has of the machine that it runs on.
ghost use Rattle.std.specs.Prelude.{⊤, None, refl};

use crate::arguments::{before_mark, marked_words};
use crate::host_file::HostFile;
use crate::short_flags::is_check;
use crate::system::{Kind, System};
use crate::words::UsageError;
use cfi_text::escapes::shown_name;
use clap::Error;
use std::alloc::{AllocError, AllocGlobal, Global};
use std::fmt::Display;
use std::fs::File;
use std::io::Read;
use std::rt::{Env, Files};
use std::{env, fs, io, str};

/// The error of Linux for a directory where a file is wanted.
const EISDIR: i32 = 21;

/// How many bytes of the names in a folder are read at once.
const NAMES: usize = 16_384;

/// What is said of a text that isn't two times.
const NO_TIMES: &str = "no times: FROM,UNTIL are seconds with at most nine decimals, or empty";

/// The system of a runtime. std says nothing of the words of a process, nor of which file is opened
/// at a path.
#[derive(Drop)]
pub struct Host<'rt, P> {
    rt: &'rt P,
    has_reader: bool,
}

impl<'rt, P> Host<'rt, P> {
    /// Returns the system of a runtime. `has_reader` says whether someone reads standard error as
    /// it is written: it is a terminal, and the output goes elsewhere.
    pub fn new(rt: &'rt P, has_reader: bool) -> Host<'rt, P> {
        Host { rt, has_reader }
    }
}

impl<P: Eprint + AllocGlobal> Host<'_, P> {
    /// Warns on standard error of the file or text with this name.
    fn warn<D: Display + Drop>(&self, name: &[u8], sentence: D) {
        let shown = shown_name(self.rt.alloc(), name);
        let name = text_of(&shown);
        // There is no other place to say that standard error can't be written.
        let _ = eprintln!(self.rt; "cfi: {name}: {sentence}");
    }
}

/// Returns the text of a name as it is printed; what stands for it where memory was refused.
fn text_of(shown: &Result<Vec<u8>, AllocError>) -> &str {
    match shown {
        Ok(text) => str::from_utf8(text.as_slice()).unwrap_or("a file"),
        Err(_) => "a file",
    }
}

impl<P: Env + Files + Print + Eprint + AllocGlobal> System for Host<'_, P> {
    type File = HostFile<P::File>;

    ghost may_open = { λ _ _ _ _. ⊤ };

    ghost may_be = { λ _ _ _ _. ⊤ };

    ghost may_list = { λ _ _ _. ⊤ };

    fn alloc(&self) -> Global {
        self.rt.alloc()
    }

    fn words(&self) -> Result<Option<Vec<String>>, AllocError> {
        match env::args(self.rt) {
            Ok(words) => Ok(Some(words.collect(self.rt.alloc())?)),
            Err(error) if error.kind() == io::ErrorKind::InvalidData => self.words_of_check(),
            Err(_) => Err(AllocError),
        }
    }

    fn open(&self, path: &str) -> Option<HostFile<P::File>> {
        if let Some(name) = before_mark(path) {
            self.clear_progress();
            let _ = eprintln!(self.rt; "cfi: {name}: the name isn't UTF-8, so it can't be opened");
            return None;
        }
        match open_file(self.rt, path) {
            Ok(file) => Some(HostFile::new(file)),
            Err(error) => {
                self.clear_progress();
                self.warn(path.as_bytes(), error);
                None
            }
        }
    }

    fn open_regular(&self, path: &str) -> Option<HostFile<P::File>> {
        // Opening a pipe would wait for another process.
        match fs::metadata(self.rt, path) {
            Ok(metadata) if metadata.is_file() => self.open(path),
            Ok(_) => None,
            Err(error) => {
                self.warn(path.as_bytes(), error);
                None
            }
        }
    }

    fn find_regular(&self, path: &str) -> Option<HostFile<P::File>> {
        match fs::metadata(self.rt, path) {
            Ok(metadata) if metadata.is_file() => {
                let file = File::open(self.rt, path).ok()?;
                Some(HostFile::new(file))
            }
            _ => None,
        }
    }

    fn kind(&self, path: &str, follows: bool) -> Kind {
        let metadata = if follows {
            fs::metadata(self.rt, path)
        } else {
            fs::symlink_metadata(self.rt, path)
        };
        match metadata {
            Ok(metadata) if metadata.is_dir() => Kind::Folder,
            Ok(metadata) if metadata.is_file() => Kind::File,
            Ok(_) => Kind::Other,
            // Opening it as a file then tells why.
            Err(_) => Kind::File,
        }
    }

    fn list(&self, folder: &str) -> Option<Vec<u8>> {
        match read_names(self.rt, folder) {
            Ok(names) => Some(names),
            Err(error) => {
                self.warn(folder.as_bytes(), error);
                None
            }
        }
    }

    fn home(&self) -> Option<String> {
        env::var(self.rt, "HOME").ok()
    }

    fn warn_usage(&self, error: UsageError) {
        let rt = self.rt;
        let _ = match error {
            UsageError::NoCommand => eprintln!(rt; "cfi: no command"),
            UsageError::NoFiles => eprintln!(rt; "cfi: check: no FILE, and no --files0-from"),
            UsageError::TwoNamings => {
                eprintln!(rt; "cfi: check: FILE can't be combined with --files0-from")
            }
            UsageError::NoTimes(text) => return self.warn(text.as_bytes(), NO_TIMES),
            UsageError::NoWidth(text) => {
                eprintln!(rt; "cfi: {text}: no width: pixels with at most nine decimals")
            }
        };
    }

    fn warn_unread(&self, list: &str) {
        self.warn(list.as_bytes(), "the list can't be read");
    }

    fn warn_empty_name(&self, list: &str) {
        self.warn(list.as_bytes(), "a name is empty");
    }

    fn warn_no_text(&self, name: &[u8]) {
        self.warn(name, "the name isn't UTF-8, so it can't be opened");
    }

    fn warn_missing(&self, name: &[u8]) {
        self.warn(name, "no file of the build that ran is here");
    }

    fn warn_without_stacks(&self, path: &str) {
        self.warn(
            path.as_bytes(),
            "recorded without copies of stacks; frames are perf's call chains: \
             record with --call-graph dwarf for unwound stacks",
        );
    }

    fn warn_lost(&self, path: &str, records: u64, samples: u64) {
        if records != 0 {
            self.warn(path.as_bytes(), format_args!("lost {records} records"));
        }
        if samples != 0 {
            self.warn(path.as_bytes(), format_args!("lost {samples} samples"));
        }
    }

    fn print_error(&self, error: &Error) -> io::Result<()> {
        error.print(self.rt)
    }

    fn warn_unwritten(&self, error: &io::Error) {
        // Who closes a pipe has read what was wanted.
        if error.kind() != io::ErrorKind::BrokenPipe {
            self.clear_progress();
            let _ = eprintln!(self.rt; "cfi: standard output: {error}");
        }
    }

    fn show_progress(&self, number: usize, files: usize, file: &str) {
        if self.has_reader {
            let shown = shown_name(self.rt.alloc(), file.as_bytes());
            let file = text_of(&shown);
            // A run goes on where its progress can't be shown.
            let _ = eprint!(self.rt; "\r\x1b[K{number} of {files} {file}");
        }
    }

    fn clear_progress(&self) {
        if self.has_reader {
            let _ = eprint!(self.rt; "\r\x1b[K");
        }
    }

    ghost opens = { λ _ _. (None, tt) };

    ghost same_bytes = { λ _. refl };
}

impl<P: Env + Eprint + AllocGlobal> Host<'_, P> {
    /// Returns the words of the process, some of which aren't UTF-8, for the command `check` alone:
    /// those are files that can't be opened. For other commands says so on standard error.
    fn words_of_check(&self) -> Result<Option<Vec<String>>, AllocError> {
        let words = marked_words(self.rt)?;
        if is_check(words.as_slice()) {
            return Ok(Some(words));
        }
        let _ = eprintln!(self.rt; "cfi: an argument isn't UTF-8");
        Ok(None)
    }
}

/// Opens the file at a path. Fails as `File::open`, and for a directory with its error (`EISDIR`).
fn open_file<P: Files>(rt: &P, path: &str) -> io::Result<P::File> {
    // Linux opens a directory too, and then refuses each read.
    match fs::metadata(rt, path) {
        Ok(metadata) if metadata.is_dir() => Err(io::Error::from_raw_os_error(EISDIR)),
        _ => File::open(rt, path),
    }
}

/// Reads the names in the folder at a path, each ended by a zero byte.
fn read_names<P: Files + AllocGlobal>(rt: &P, folder: &str) -> io::Result<Vec<u8>> {
    // With a slash behind it a link to a folder is followed.
    let path = format!(in rt.alloc(); "{folder}/")?;
    let mut dir = rt.open_dir(path.as_str())?;
    let mut names = Vec::new(rt.alloc());
    // A read fails where it has no room for a name and what the system has beside it.
    let mut chunk = [0u8; NAMES];
    for _ in 0..u64::MAX {
        let length = dir.read(&mut chunk)?;
        if length == 0 {
            break;
        }
        names.extend_from_slice(&chunk[..length])?;
    }
    Ok(names)
}
