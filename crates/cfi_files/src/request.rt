//! What can be asked for of a file, and what of the file it takes.
ghost use Rattle.std.specs.Prelude.{◌≡◌};
ghost use Rattle.std.specs.List.{list_any};
ghost use Rattle.cfi_object.specs.Targets.{names_entry};
ghost use Rattle.cfi_text.specs.WordTexts.{texts};
ghost use Rattle.cfi_files.specs.Requests.{format_for, needed_for, needs_plt, needs_symbols};

use cfi_object::Needed;
use cfi_object::target::names_entry;
use cfi_text::style::Format;

/// What is asked for of a file.
#[derive(Clone, Copy)]
pub struct Request<'words> {
    /// What is printed of it.
    pub printed: Printed<'words>,
    /// Whether registers have numbers, and not the names that the psABI of the machine gives them.
    pub raw: bool,
}

/// What is printed of a file, by the words that ask for it.
#[derive(Clone, Copy)]
pub enum Printed<'words> {
    /// The row of each address that the words name, a line for each in the format.
    Row(&'words [&'words str], Format),
    /// The rows of each FDE, after a line with the name of its function; where there is a word, of
    /// those that contain the address that it names. The lines are in the format.
    Rows(Option<&'words str>, Format),
    /// Each entry, that of an FDE with the name of its function and before its rows, as lines of
    /// text.
    Dump,
    /// The rows for all addresses, by a compiled table, as lines of text.
    Table,
}

impl Printed<'_> {
    /// Returns the form of the lines.
    pub fn format(self) -> Format
        ensures { result ≡ format_for self.entry }
    {
        match self {
            Printed::Row(_, format) => format,
            Printed::Rows(_, format) => format,
            Printed::Dump => Format::Text,
            Printed::Table => Format::Text,
        }
    }

    /// Returns whether the symbols of the file are needed: rows and entries have the names of
    /// functions, and words name symbols.
    pub fn needs_symbols(self) -> bool
        ensures { result ≡ needs_symbols self.entry }
    {
        match self {
            Printed::Row(_, _) => true,
            Printed::Rows(_, _) => true,
            Printed::Dump => true,
            Printed::Table => false,
        }
    }

    /// Returns whether the procedure linkage table of the file is needed: words name entries of it.
    pub fn needs_plt(self) -> bool
        ensures { result ≡ needs_plt self.entry }
    {
        match self {
            Printed::Row(words, _) => any_names_entry(words),
            Printed::Rows(Some(word), _) => names_entry(word),
            Printed::Rows(None, _) => false,
            Printed::Dump => false,
            Printed::Table => false,
        }
    }

    /// Returns what is needed of the file beside its call frames.
    pub fn needed(self) -> Needed
        ensures { result ≡ needed_for self.entry }
    {
        Needed {
            symbols: self.needs_symbols(),
            plt: self.needs_plt(),
            build: false,
        }
    }
}

/// Whether one of the words names entries of the procedure linkage table.
fn any_names_entry(words: &[&str]) -> bool
    ensures { result ≡ list_any names_entry (texts words.now) }
{
    for word in words {
        if names_entry(word) {
            return true;
        }
    }
    false
}
