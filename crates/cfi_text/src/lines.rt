//! Writes the parts of a line.
ghost use Rattle.std.specs.Prelude.{◌++◌, IfSome};
ghost use Rattle.cfi_text.specs.WriterOutput.{Writes};

use arrayvec::ArrayString;
use std::fmt::{Display, Write as _};
use std::io;
use std::io::{ErrorKind, Write};

/// More bytes than the longest part of a line that is written at once: an address and what an error
/// says.
const PART: usize = 192;

/// Writes the text. Where the writer fails, a beginning of the text has been written. Retries
/// interrupted writes.
pub fn write_text<W: Write>(output: &mut W, text: &[u8]) -> io::Result<()>
    ensures { Writes (W.contents output.old) (W.contents output.new) result text.now }
{
    let mut rest = text;
    for _ in 0..u64::MAX {
        if rest.is_empty() {
            return Ok(());
        }
        match output.write(rest) {
            Ok(0) => return Err(io::Error::from(ErrorKind::WriteZero)),
            Ok(n) => rest = &rest[n..],
            Err(e) => {
                if e.kind() != ErrorKind::Interrupted {
                    return Err(e);
                }
            }
        }
    }
    Err(io::Error::from(ErrorKind::Interrupted))
}

/// Writes what `part` displays, of at most 192 bytes. Does not allocate.
pub fn write_part<W: Write, D: Display + Drop>(output: &mut W, part: D) -> io::Result<()>
    ensures { IfSome (D.output part)
        (Writes (W.contents output.old) (W.contents output.new) result) }
{
    let mut text = ArrayString::<PART>::new();
    write!(text, "{part}")?;
    write_text(output, text.as_bytes())
}

/// Writes the text between the two others.
pub fn write_between<W: Write>(
    output: &mut W,
    before: &[u8],
    text: &[u8],
    after: &[u8],
) -> io::Result<()>
    ensures { Writes (W.contents output.old) (W.contents output.new) result
        (before.now ++ (text.now ++ after.now)) }
{
    write_text(output, before)?;
    write_text(output, text)?;
    write_text(output, after)
}
