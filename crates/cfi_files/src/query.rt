//! What was asked for a row, before the answer.
ghost use Rattle.cfi_files.specs.Queries.{address_member, query_members};
ghost use Rattle.cfi_text.specs.Texts.{Puts};

use cfi_object::number_in;
use cfi_row_text::style::Style;
use cfi_text::escapes::Escaping;
use cfi_text::style::Format;
use cfi_text::text::Text;

/// A word that names addresses, and how its lines are printed.
#[derive(Clone, Copy)]
pub(crate) struct Query<'word> {
    /// The form of the lines.
    pub(crate) style: Style,
    /// Whether there are several lines, which then begin with their words.
    pub(crate) has_several: bool,
    /// The word.
    pub(crate) word: &'word str,
}

/// Appends the word and the address that it names: in text where there are several lines, with a
/// colon; in JSON always, as the first members of an object.
pub(crate) fn put_query(text: &mut Text, query: Query<'_>, address: Option<u64>) {
    match query.style.format {
        Format::Text => {
            if query.has_several {
                put_word(text, query.word, address);
            }
        }
        Format::Json => put_members(text, query.word, address),
    }
}

/// Appends the word, the address that it names unless it is a number itself, and a colon.
fn put_word(text: &mut Text, word: &str, address: Option<u64>) {
    text.name(word.as_bytes());
    if let (None, Some(address)) = (number_in(word), address) {
        text.put(b" ");
        text.address(address);
    }
    text.put(b": ");
}

/// Appends the beginning of an object of JSON, with the word and the address that it names.
fn put_members(text: &mut Text, word: &str, address: Option<u64>)
    ensures { Puts (query_members word.now address) text.old text.new }
{
    text.put(b"{\"asked\":\"");
    text.escaped(Escaping::Json, word.as_bytes());
    put_address_member(text, address);
}

/// Appends the end of a string, and the address where there is one.
fn put_address_member(text: &mut Text, address: Option<u64>)
    ensures { Puts (address_member address) text.old text.new }
{
    match address {
        None => text.put(b"\","),
        Some(address) => {
            text.put(b"\",\"address\":\"");
            text.address(address);
            text.put(b"\",");
        }
    }
}
