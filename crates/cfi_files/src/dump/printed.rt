//! What may be printed of a section.

ghost use Rattle.std.specs.Prelude.{◌≡◌};
ghost use Rattle.cfi_files.specs.DumpProgramOutput.{printed_format};

use cfi_elf::FunctionNames;
use cfi_text::style::Format;

/// The FDEs whose rows are printed, and the names of their functions.
#[derive(Clone, Copy)]
pub struct AskedRows<'names> {
    /// Where addresses are given, the FDEs that contain one of them; else all.
    pub addresses: Option<&'names [u64]>,
    /// The names, by the first address of an FDE.
    pub functions: &'names FunctionNames<'names>,
    /// The form of the lines.
    pub format: Format,
}

/// What is printed of the section.
#[derive(Clone, Copy)]
pub enum Printed<'names> {
    /// Each entry and its instructions, and after those of each FDE its rows, as lines of text;
    /// with the names of the functions, by the first addresses of FDEs.
    Entries(&'names FunctionNames<'names>),
    /// For each FDE a line with its addresses and the name of the function that begins there, and
    /// its rows.
    Rows(AskedRows<'names>),
}

impl Printed<'_> {
    /// Returns the form of the lines.
    pub fn format(self) -> Format
        ensures { result ≡ printed_format self.entry }
    {
        match self {
            Printed::Rows(asked) => asked.format,
            Printed::Entries(_) => Format::Text,
        }
    }
}
