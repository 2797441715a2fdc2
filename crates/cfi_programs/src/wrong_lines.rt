//! The lines that say that the words or the input are wrong.
ghost use Rattle.cfi_programs.specs.WrongLines.{wrong_hexadecimal, wrong_input, wrong_words};
ghost use Rattle.cfi_text.specs.WriterOutput.{Prints};

use cfi_text::lines::write_text;
use std::io;
use std::io::Write;

/// Prints that the words are wrong, and returns the status 2.
pub fn write_wrong_words<W: Write>(output: &mut W) -> io::Result<u8>
    ensures { Prints wrong_words (W.contents output.old) (W.contents output.new) result }
{
    write_text(output, b"wrong words\n")?;
    Ok(2)
}

/// Prints that the input is not hexadecimal, and returns the status 2.
pub fn write_wrong_hexadecimal<W: Write>(output: &mut W) -> io::Result<u8>
    ensures { Prints wrong_hexadecimal (W.contents output.old) (W.contents output.new) result }
{
    write_text(output, b"wrong hexadecimal\n")?;
    Ok(2)
}

/// Prints that the input can't be read, and returns the status 2.
pub fn write_wrong_input<W: Write>(output: &mut W) -> io::Result<u8>
    ensures { Prints wrong_input (W.contents output.old) (W.contents output.new) result }
{
    write_text(output, b"wrong input\n")?;
    Ok(2)
}
