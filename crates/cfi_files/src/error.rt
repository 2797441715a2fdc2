//! Why something of a file isn't printed.
ghost use Rattle.std.specs.Prelude.{◌≡◌};
ghost use Rattle.cfi_files.specs.FileErrors.{elf_advice, said_of, status_of};
ghost use Rattle.cfi_files.specs.declared.error.FileError.TheVariants.{Elf, Input};
ghost use Rattle.cfi_text.specs.Texts.{Puts};
ghost use Rattle.cfi_text.specs.declared.reading.InputError.TheVariants.{OutOfMemory};

use cfi_elf::ElfError;
use cfi_text::error_words::{ErrorWords, advice_on};
use cfi_text::reading::InputError;
use cfi_text::style::Format;
use cfi_text::text::Text;
use gimli_cfi::Error;
use std::alloc::{AllocError, Global};
use std::io;
use std::io::Write;

/// Why a file, a section or a row isn't printed.
#[derive(Clone, Copy)]
pub enum FileError {
    /// The input can't be read, or memory is refused.
    Input(InputError),
    /// The file, or a section of it, can't be read.
    Elf(ElfError),
    /// The sections have no row for the address.
    Row(Error),
    /// The file has no section of call frames.
    NoCallFrames,
    /// A word names no address.
    NoAddress,
}

impl FileError {
    /// Returns the status of a run that ends so: 2 where the input can't be read, else 1.
    pub fn status(self) -> u8
        ensures { result ≡ status_of self }
    {
        match self {
            FileError::Input(InputError::OutOfMemory) => 1,
            FileError::Input(_) => 2,
            FileError::Elf(_) => 1,
            FileError::Row(_) => 1,
            FileError::NoCallFrames => 1,
            FileError::NoAddress => 1,
        }
    }

    /// Appends what is said of the error in a line of text.
    pub(crate) fn put_words(self, text: &mut Text)
        ensures { Puts (said_of self) text.old text.new }
    {
        match self {
            FileError::Input(InputError::OutOfMemory) => text.put(b"refused OutOfMemory"),
            FileError::Input(_) => text.put(b"wrong input"),
            FileError::Elf(error) => text.refusal_words(error.name(), error, elf_advice(error)),
            FileError::Row(error) => text.refusal_words(error.name(), error, advice_on(error)),
            FileError::NoCallFrames => text.put(b"no call frames"),
            FileError::NoAddress => text.put(b"no address"),
        }
    }

    /// Appends the end of a line that says why there is no answer; in JSON the end of an object
    /// that has begun.
    pub(crate) fn put_end(self, text: &mut Text, format: Format) {
        match (format, self) {
            (Format::Text, _) => {
                self.put_words(text);
                text.put(b"\n");
            }
            (Format::Json, FileError::Input(InputError::OutOfMemory)) => {
                text.reason(format, "OutOfMemory");
            }
            (Format::Json, FileError::Input(_)) => text.reason(format, "wrong input"),
            (Format::Json, FileError::Elf(error)) => {
                text.refusal(format, error.name(), error, elf_advice(error));
            }
            (Format::Json, FileError::Row(error)) => {
                text.refusal(format, error.name(), error, advice_on(error));
            }
            (Format::Json, FileError::NoCallFrames) => text.reason(format, "no call frames"),
            (Format::Json, FileError::NoAddress) => text.reason(format, "no address"),
        }
    }

    /// Prints the line that says why there is no answer, after what there is of a text, and returns
    /// the status.
    pub(crate) fn print<W: Write>(
        self,
        text: &mut Text,
        format: Format,
        output: &mut W,
    ) -> io::Result<u8> {
        text.begin_object(format);
        self.put_end(text, format);
        text.write_to(output)?;
        Ok(self.status())
    }
}

/// Prints the line that says why there is no answer, and returns the status.
pub(crate) fn print_error<W: Write>(
    alloc: Global,
    error: FileError,
    format: Format,
    output: &mut W,
) -> io::Result<u8> {
    let mut text = Text::new(alloc);
    error.print(&mut text, format, output)
}

/// Returns what to do about an error of a file, after its sentence.
fn elf_advice(error: ElfError) -> &'static str
    ensures { result.now ≡ elf_advice error }
{
    match error {
        ElfError::Compressed => "; objcopy --decompress-debug-sections decompresses it",
        ElfError::Core => "; cfi stack reads core files",
        _ => "",
    }
}

impl From<InputError> for FileError {
    ghost from_gives = { λ error given. given ≡ Input error };

    fn from(error: InputError) -> FileError {
        FileError::Input(error)
    }
}

impl From<ElfError> for FileError {
    ghost from_gives = { λ error given. given ≡ Elf error };

    fn from(error: ElfError) -> FileError {
        FileError::Elf(error)
    }
}

impl From<AllocError> for FileError {
    ghost from_gives = { λ error given. given ≡ Input OutOfMemory };

    fn from(_error: AllocError) -> FileError {
        FileError::Input(InputError::OutOfMemory)
    }
}
