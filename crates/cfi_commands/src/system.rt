//! What a run has of the system: its words, the files that they name, and standard error.
ghost use Rattle.std.specs.Prelude.{◌≡◌, ℕ, Bool, List, Option, option_map};
ghost use Rattle.cfi_commands.specs.Disks.{FileKind, of_any_kind, regular};

use crate::words::UsageError;
use cfi_object::FileInput;
use clap::Error;
use std::alloc::{AllocError, Global};
use std::io;
use std::io::Read;

/// What is at a path.
#[derive(Clone, Copy, Debug)]
pub enum Kind {
    /// A regular file, or nothing that can be told.
    File,
    /// A folder.
    Folder,
    /// A link, a pipe, a device or a socket.
    Other,
}

/// What a run has of the system. Whatever it gives, `run` prints what is right for it.
pub trait System {
    ghost use Rattle.cfi_commands.specs.declared.system.Kind.{Kind};

    /// An open file. Of an ELF file what is needed is read; a file of folded stacks is read from
    /// its beginning to its end.
    type File: FileInput + Read + Drop;

    /// What a path may be opened to, where files of any kind are opened or regular ones alone;
    /// none where it can't be opened.
    ghost may_open: { Self → FileKind → List ℕ → Option Self.File → Type 0 };

    /// What may be at a path, where a link that it names is followed or where it isn't.
    ghost may_be: { Self → Bool → List ℕ → Kind → Type 0 };

    /// The names that the folder at a path may be listed with, each ended by a zero byte, in any
    /// order; none where it can't be read.
    ghost may_list: { Self → List ℕ → Option (List ℕ) → Type 0 };

    /// The memory of the run.
    fn alloc(&self) -> Global;

    /// Returns the words of the process, of which the first is its name; `None` where one of them
    /// isn't UTF-8, which is said on standard error. Of the command `check` a word that isn't UTF-8
    /// is a text that no file has for a name. Fails where memory is refused.
    fn words(&self) -> Result<Option<Vec<String>>, AllocError>;

    /// Opens the file at a path, a pipe or a device too. Where it can't be opened, or is a
    /// directory, the reason is printed on standard error, as `cfi: FILE: SENTENCE`, and there is
    /// none.
    fn open(&self, path: &str) -> Option<Self::File>
        ensures { may_open self.now of_any_kind path.now result };

    /// Opens the file at a path, if it is a regular one. Where it can't be opened, the reason is
    /// printed on standard error, as `open` does.
    fn open_regular(&self, path: &str) -> Option<Self::File>
        ensures { may_open self.now regular path.now result };

    /// Opens the file at a path, if it is a regular one. Prints nothing.
    fn find_regular(&self, path: &str) -> Option<Self::File>
        ensures { may_open self.now regular path.now result };

    /// Returns what is at a path, where a link that it names is followed or where it isn't.
    fn kind(&self, path: &str, follows: bool) -> Kind
        ensures { may_be self.now follows path.now result };

    /// Returns the names in the folder at a path, each ended by a zero byte, in any order. Where it
    /// can't be read, the reason is printed on standard error, as `open` does, and there are none.
    fn list(&self, folder: &str) -> Option<Vec<u8>>
        ensures { may_list self.now folder.now (option_map (λ list. list.items) result) };

    /// Returns the home folder of the user, below which `perf record` keeps copies of files. `None`
    /// where it isn't known, or memory is refused.
    fn home(&self) -> Option<String>;

    /// Says on standard error what is wrong with the words, as `cfi: TEXT: SENTENCE` where a text
    /// is.
    fn warn_usage(&self, error: UsageError);

    /// Says on standard error that the list at this path can't be read, as `cfi: LIST: SENTENCE`.
    fn warn_unread(&self, list: &str);

    /// Says on standard error that a name in the list at this path is empty, as
    /// `cfi: LIST: SENTENCE`.
    fn warn_empty_name(&self, list: &str);

    /// Says on standard error that the name of a file isn't UTF-8, as `cfi: FILE: SENTENCE`.
    fn warn_no_text(&self, name: &[u8]);

    /// Says on standard error that for the file with this name none of the build that ran was
    /// found, as `cfi: FILE: SENTENCE`.
    fn warn_missing(&self, name: &[u8]);

    /// Says on standard error that the profile at this path was recorded without copies of stacks,
    /// as `cfi: FILE: SENTENCE`.
    fn warn_without_stacks(&self, path: &str);

    /// Says on standard error how many records and how many samples of the profile at this path
    /// were lost, as `cfi: FILE: lost NUMBER records` and `cfi: FILE: lost NUMBER samples`. A
    /// number that is 0 isn't printed.
    fn warn_lost(&self, path: &str, records: u64, samples: u64);

    /// Prints clap's text: help on standard output and a mistake on standard error. Fails where it
    /// can't be written.
    fn print_error(&self, error: &Error) -> io::Result<()>;

    /// Says on standard error that standard output can't be written, as
    /// `cfi: standard output: SENTENCE`; nothing where a pipe was closed by its reader.
    fn warn_unwritten(&self, error: &io::Error);

    /// Says on standard error which of several files is checked, where there is one to read it.
    fn show_progress(&self, number: usize, files: usize, file: &str);

    /// Takes away what `show_progress` has said.
    fn clear_progress(&self);

    /// Whatever the path, there is something that it may be opened to.
    ghost opens: { (system : Self) (path : List ℕ)
        → (opened : Option Self.File) × may_open system of_any_kind path opened };

    /// Of each file, and at any time, the bytes that it has left as a reader are those that it has
    /// by parts. Of a file whose reads move on neither may be known.
    ghost same_bytes: { (file : Self.File) → Self.File.remaining file ≡ Self.File.bytes file };
}
