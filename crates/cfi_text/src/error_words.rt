//! What errors of call frames say, as the programs print it.
ghost use Rattle.std.specs.Prelude.{◌≡◌, Some};
ghost use Rattle.cfi_text.specs.ErrorWords.{advice_on, error_words, unsupported_opcode};
ghost use Rattle.cfi_text.specs.ErrorWords.{parting};

use crate::style::Format;
use cfi_read_core::{DwCfa, Error};
use std::fmt;
use std::fmt::{Display, Formatter};

/// An error as a line has it: its name, in a sentence what it says, and what to do where there is
/// something to do. In JSON the name and the rest are two members.
#[derive(Clone, Copy)]
pub struct ErrorWords {
    pub format: Format,
    pub error: Error,
}

impl Display for ErrorWords {
    ghost output = { λ words. Some (error_words words.format words.error) };

    fn fmt<W: fmt::Write>(&self, f: &mut Formatter<W>) -> fmt::Result {
        let name = self.error.name();
        let parting = parting(self.format);
        let error = self.error;
        let advice = advice_on(error);
        write!(f, "{name}{parting}{error}{advice}")
    }
}

/// Returns what stands between the name of an error and the sentence.
pub fn parting(format: Format) -> &'static str
    ensures { result.now ≡ parting format }
{
    match format {
        Format::Text => ": ",
        Format::Json => "\",\"reason\":\"",
    }
}

/// Returns what to do about an error, after its sentence.
pub fn advice_on(error: Error) -> &'static str
    ensures { result.now ≡ advice_on error }
{
    match error {
        Error::UnknownCallFrameInstruction(opcode) => unsupported_opcode(opcode),
        Error::TextRelativePointerButTextBaseIsUndefined => "; cfi_rows takes one by text=N",
        Error::DataRelativePointerButDataBaseIsUndefined => "; cfi_rows takes one by data=N",
        Error::StackFull => "; cfi_rows has room by store=vec",
        Error::TooManyRegisterRules => "; cfi_rows has room by store=vec",
        _ => "",
    }
}

/// Returns that an opcode of one machine alone isn't supported, if it is one.
fn unsupported_opcode(opcode: DwCfa) -> &'static str
    ensures { result.now ≡ unsupported_opcode opcode.0 }
{
    if opcode.0 == 0x2d {
        "; DW_CFA_GNU_window_save of SPARC isn't supported"
    } else if opcode.0 == 0x1d {
        "; DW_CFA_MIPS_advance_loc8 isn't supported"
    } else {
        ""
    }
}
