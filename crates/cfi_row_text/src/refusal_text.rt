//! The lines that say why there is no row.
ghost use Rattle.std.specs.Prelude.{◌++◌};
ghost use Rattle.cfi_text.specs.ErrorWords.{error_words};
ghost use Rattle.cfi_text.specs.Refusals.{refusal_end, refusal_line, refusal_told};
ghost use Rattle.cfi_text.specs.Texts.{Puts};

use cfi_text::error_words::ErrorWords;
use cfi_text::style::Format;
use cfi_text::text::Text;
use gimli_cfi::Error;

/// Puts `refused` and the name of the error, as a line of text.
pub fn put_refusal(text: &mut Text, error: Error)
    ensures { Puts (refusal_line error).text text.old text.new }
{
    text.put(b"refused ");
    text.put(error.name().as_bytes());
    text.put(b"\n");
}

/// Puts the line of an error, with its name and what it says.
pub fn put_refusal_told(text: &mut Text, format: Format, error: Error)
    ensures { Puts (refusal_told format error).text text.old text.new }
{
    match format {
        Format::Text => put_error_words(text, b"refused ", format, error, b"\n"),
        Format::Json => put_error_words(text, b"{\"error\":\"", format, error, b"\"}\n"),
    }
}

/// Puts the same after what was asked for: in text as a line, in JSON as the end of an object that
/// has begun.
pub fn put_refusal_end(text: &mut Text, format: Format, error: Error)
    ensures { Puts (refusal_end format error).text text.old text.new }
{
    match format {
        Format::Text => put_error_words(text, b"refused ", format, error, b"\n"),
        Format::Json => put_error_words(text, b"\"error\":\"", format, error, b"\"}\n"),
    }
}

/// Puts, between two texts, the name of the error and what it says.
fn put_error_words(text: &mut Text, before: &[u8], format: Format, error: Error, after: &[u8])
    ensures { Puts (before.now ++ (error_words format error ++ after.now)) text.old text.new }
{
    text.put(before);
    text.show(ErrorWords { format, error });
    text.put(after);
}
