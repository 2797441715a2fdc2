//! Why a core file can't be read.
ghost use Rattle.std.specs.Prelude.{◌≡◌, Some};
ghost use Rattle.cfi_cores.specs.ErrorNames.{name_of_core};
ghost use Rattle.cfi_cores.specs.ErrorTexts.{text_of_core};

use cfi_elf::ElfError;
use std::fmt;

/// Why a core file, or a part of it, can't be read. `Display` writes one sentence, with the value
/// that the error carries if any.
#[derive(Clone, Copy, Debug, PartialEq, Eq)]
pub enum CoreError {
    /// The file is no core file, or its program headers can't be read.
    Elf(ElfError),
    /// It is of another machine than x86-64 or AArch64, of 32 bits, or has the most significant
    /// byte first. Carries `e_machine`.
    UnknownMachine(u16),
    /// Notes go on with bytes that are no whole note, or the file ends before their segment does.
    NoteCut,
    /// What a note says of a thread (`NT_PRSTATUS`) has too few bytes for its registers.
    ThreadCut,
    /// What a note says of mapped files (`NT_FILE`) ends before its entries or its names do.
    FilesCut,
    /// Memory is refused.
    OutOfMemory,
}

impl fmt::Display for CoreError {
    ghost output = { λ error. Some (text_of_core error) };

    fn fmt<W: fmt::Write>(&self, f: &mut fmt::Formatter<W>) -> fmt::Result {
        match self {
            CoreError::Elf(error) => write!(f, "{error}"),
            CoreError::UnknownMachine(number) => write!(f, "unknown machine {number}"),
            CoreError::NoteCut => f.write_str("a note is cut"),
            CoreError::ThreadCut => f.write_str("the registers of a thread are cut"),
            CoreError::FilesCut => f.write_str("the list of mapped files is cut"),
            CoreError::OutOfMemory => f.write_str("memory is refused"),
        }
    }
}

impl std::error::Error for CoreError {}

impl CoreError {
    /// The name of the variant; of `Elf` that of the error it carries.
    pub fn name(&self) -> &'static str
        ensures { result.now ≡ name_of_core self.now }
    {
        match self {
            CoreError::Elf(error) => error.name(),
            CoreError::UnknownMachine(_) => "UnknownMachine",
            CoreError::NoteCut => "NoteCut",
            CoreError::ThreadCut => "ThreadCut",
            CoreError::FilesCut => "FilesCut",
            CoreError::OutOfMemory => "OutOfMemory",
        }
    }
}
