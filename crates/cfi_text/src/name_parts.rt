//! Names of functions, files and threads, as they are printed: UTF-8 as it is, but for control
//! characters, which are escaped as `\x1b`, as is each byte that isn't UTF-8. So no name moves a
//! terminal's cursor or breaks a line.
ghost use Rattle.std.specs.Prelude.{◌≡◌, ◌<◌, Some, false, length};
ghost use Rattle.std.specs.Fmt.{digit_glyph};
ghost use Rattle.std.specs.List.{list_all};
ghost use Rattle.cfi_text.specs.Names.{byte_escape, first_part, is_control};
ghost use Rattle.cfi_text.specs.Names.{is_printable_ascii, kind_of, name_part_view, scalar};

use bstr::{decode_lossy, decode_utf8};

/// What a part of a name is.
#[derive(Clone, Copy, Debug, PartialEq, Eq)]
pub enum Kind {
    /// A character that is shown as it is.
    Shown,
    /// A control character: U+0000 to U+001F, or U+007F to U+009F.
    Control,
    /// Bytes with which no character of UTF-8 begins.
    Stray,
}

/// A character of a name, or bytes that are none.
#[derive(Clone, Copy, Debug)]
pub struct Part<'name> {
    /// What it is.
    pub kind: Kind,
    /// Its bytes, of which there is at least one.
    pub bytes: &'name [u8],
}

/// Returns what the bytes of a name, or what is left of them, begin with. Does not allocate.
pub fn first_part(bytes: &[u8]) -> Part<'_>
    requires { 0 < length bytes.now }
    ensures { name_part_view result ≡ first_part bytes.now }
{
    let (character, length) = decode_utf8(bytes);
    Part {
        kind: kind_of(character),
        bytes: &bytes[..length],
    }
}

/// Returns whether a character is a control character, or is shown as it is.
fn kind_of(character: Option<char>) -> Kind
    ensures { result ≡ kind_of character }
{
    match character {
        None => Kind::Stray,
        Some(character) => kind_of_character(character as u32),
    }
}

/// Returns whether the character with this number is a control character.
fn kind_of_character(number: u32) -> Kind
    ensures { result ≡ kind_of (Some number) }
{
    if is_control(number) {
        Kind::Control
    } else {
        Kind::Shown
    }
}

/// Returns the number of the character of UTF-8 that these bytes are.
pub fn scalar(character: &[u8]) -> u32
    ensures { result ≡ scalar character.now }
{
    decode_lossy(character).0 as u32
}

/// Returns whether this is the number of a control character.
fn is_control(number: u32) -> bool
    ensures { result ≡ is_control number }
{
    number < 0x20 || 0x7f <= number && number <= 0x9f
}

/// Returns whether each byte of a name is printable ASCII. Such a name is shown as it is.
pub fn is_plain(name: &[u8]) -> bool
    ensures { result ≡ list_all is_printable_ascii name.now }
{
    let mut is_plain = true;
    for byte in name {
        is_plain = is_plain & (0x20 <= *byte && *byte < 0x7f);
    }
    is_plain
}

/// Returns what stands for a byte in a text, as `\x1b`.
pub fn byte_escape(byte: u8) -> [u8; 4]
    ensures { result ≡ byte_escape byte }
{
    [b'\\', b'x', digit(byte / 16), digit(byte % 16)]
}

/// The lower-case hexadecimal digits, by their values.
const DIGITS: [u8; 16] = *b"0123456789abcdef";

/// Returns the lower-case hexadecimal digit of the value.
#[inline(always)]
pub fn digit(value: u8) -> u8
    requires { value < 16 }
    ensures { result ≡ digit_glyph false value }
{
    DIGITS[value as usize]
}
