//! What stands for a name, by where it is printed.
ghost use Rattle.std.specs.Prelude.{◌≡◌, ◌∷◌, [], IfOk, flat_map};
ghost use Rattle.cfi_text.specs.Escapes.{drawn, entity, escaped, escaped_part, harmless};
ghost use Rattle.cfi_text.specs.Escapes.{is_outside_xml, shown_byte, with_bytes};
ghost use Rattle.cfi_text.specs.JsonTexts.{json_escape, json_escaped, json_number};
ghost use Rattle.cfi_text.specs.JsonTexts.{json_part, number_escape};
ghost use Rattle.cfi_text.specs.JsonTexts.{replacement};
ghost use Rattle.cfi_text.specs.Names.{byte_escape, name_part_view, shown, shown_part};
ghost use Rattle.cfi_text.specs.Texts.{Puts};

use crate::name_parts::{Kind, Part, byte_escape, digit, first_part, is_plain, scalar};
use crate::text::Text;
use std::alloc::{AllocError, Global};

/// Where a name is printed.
#[derive(Clone, Copy, Debug, PartialEq, Eq)]
pub enum Escaping {
    /// In a line of text.
    Text,
    /// Within a string of JSON.
    Json,
    /// Within a folded stack: with colons for semicolons, and this byte for spaces.
    Folded(u8),
    /// Within the text or an attribute of XML.
    Xml,
    /// Nowhere yet: a text of folded stacks, with `SEPARATOR` for its semicolons.
    Plain,
}

/// What stands between the functions of a stack under `Escaping::Plain`: NUL, which comes before
/// every other byte, and is escaped in names.
pub const SEPARATOR: u8 = 0;

/// The numbers below this one are the same for every reader of JSON.
const EXACT: u64 = 1 << 53;

impl Text {
    /// Appends what stands for a name: at once where each byte is printable ASCII, and so it
    /// mostly is.
    pub fn name(&mut self, name: &[u8])
        ensures { Puts (shown name.now) self.old self.new }
    {
        if is_plain(name) {
            self.put(name);
        } else {
            self.escaped(Escaping::Text, name);
        }
    }

    /// Appends what stands for a name, part by part.
    pub fn escaped(&mut self, escaping: Escaping, name: &[u8])
        ensures { Puts (escaped escaping name.now) self.old self.new }
    {
        let mut left = name;
        while !left.is_empty() {
            let part = first_part(left);
            self.part(escaping, part);
            left = &left[part.bytes.len()..];
        }
    }

    /// Appends the characters of a string of JSON, which are UTF-8.
    pub fn json_escaped(&mut self, text: &[u8])
        ensures { Puts (json_escaped text.now) self.old self.new }
    {
        self.with_bytes(Escaping::Json, text);
    }

    /// Appends what stands for a part of a name.
    fn part(&mut self, escaping: Escaping, part: Part<'_>)
        ensures { Puts (escaped_part escaping (name_part_view part.entry)) self.old self.new }
    {
        match escaping {
            Escaping::Text => self.shown(part),
            Escaping::Json => self.json_part(part),
            Escaping::Folded(_) => self.with_kind(escaping, part),
            Escaping::Xml => self.drawn(escaping, part),
            Escaping::Plain => self.plain(part),
        }
    }

    /// Appends the number in JSON: from 2^53 on, above which readers may round, as a string (RFC
    /// 8259, section 6).
    pub fn json_number(&mut self, number: u64)
        ensures { Puts (json_number number) self.old self.new }
    {
        if number < EXACT {
            self.number(number);
        } else {
            self.put(b"\"");
            self.number(number);
            self.put(b"\"");
        }
    }

    /// Appends a part in a line of text.
    fn shown(&mut self, part: Part<'_>)
        ensures { Puts (shown_part (name_part_view part.entry)) self.old self.new }
    {
        match part.kind {
            Kind::Shown => self.put(part.bytes),
            Kind::Control | Kind::Stray => self.escapes(part.bytes),
        }
    }

    /// Appends a part within a string of JSON (RFC 8259, section 7).
    fn json_part(&mut self, part: Part<'_>)
        ensures { Puts (json_part (name_part_view part.entry)) self.old self.new }
    {
        match part.kind {
            Kind::Shown => self.with_bytes(Escaping::Json, part.bytes),
            Kind::Control => self.number_escape(scalar(part.bytes)),
            Kind::Stray => self.replacements(part.bytes),
        }
    }

    /// Appends a part of a text of folded stacks.
    fn plain(&mut self, part: Part<'_>)
        ensures { Puts (escaped_part Escaping.Plain (name_part_view part.entry))
            self.old self.new }
    {
        if scalar(part.bytes) == 0x0a {
            self.put(b"\n");
        } else {
            self.drawn(Escaping::Plain, part);
        }
    }

    /// Appends a part, but for the two characters that an XML document doesn't have.
    fn drawn(&mut self, escaping: Escaping, part: Part<'_>)
        ensures { Puts (drawn escaping (name_part_view part.entry)) self.old self.new }
    {
        if is_outside_xml(scalar(part.bytes)) {
            self.escapes(part.bytes);
        } else {
            self.with_kind(escaping, part);
        }
    }

    /// Appends a part: the bytes of a character that is shown, and the others as `\x1b`.
    fn with_kind(&mut self, escaping: Escaping, part: Part<'_>)
        ensures { Puts (with_bytes escaping part.entry.kind part.entry.bytes.now)
            self.old self.new }
    {
        match part.kind {
            Kind::Shown => self.with_bytes(escaping, part.bytes),
            Kind::Control | Kind::Stray => self.escapes(part.bytes),
        }
    }

    /// Appends the bytes of characters that are shown.
    fn with_bytes(&mut self, escaping: Escaping, bytes: &[u8])
        ensures { Puts (flat_map (shown_byte escaping) bytes.now) self.old self.new }
    {
        for byte in bytes {
            self.shown_byte(escaping, *byte);
        }
    }

    /// Appends a byte of a character that is shown.
    fn shown_byte(&mut self, escaping: Escaping, byte: u8)
        ensures { Puts (shown_byte escaping byte) self.old self.new }
    {
        match escaping {
            Escaping::Text => self.put(&[byte]),
            Escaping::Json => self.json_escape(byte),
            Escaping::Folded(space) => self.put(&[harmless(space, byte)]),
            Escaping::Xml => self.entity(byte),
            Escaping::Plain => self.put(&[separated(byte)]),
        }
    }

    /// Appends bytes that aren't shown, as `\x1b`.
    fn escapes(&mut self, bytes: &[u8])
        ensures { Puts (flat_map byte_escape bytes.now) self.old self.new }
    {
        for byte in bytes {
            self.put(&byte_escape(*byte));
        }
    }

    /// Appends U+FFFD for each byte within a string of JSON.
    fn replacements(&mut self, bytes: &[u8])
        ensures { Puts (flat_map replacement bytes.now) self.old self.new }
    {
        for _ in bytes {
            self.put(b"\\ufffd");
        }
    }

    /// Appends what stands for the byte within a string of JSON.
    fn json_escape(&mut self, byte: u8)
        ensures { Puts (json_escape byte) self.old self.new }
    {
        if byte == b'"' {
            self.put(b"\\\"");
        } else if byte == b'\\' {
            self.put(b"\\\\");
        } else if byte < 0x20 {
            let (high, low) = (digit(byte / 16), digit(byte % 16));
            self.put(&[b'\\', b'u', b'0', b'0', high, low]);
        } else {
            self.put(&[byte]);
        }
    }

    /// Appends the escape of the character with this number within a string of JSON.
    fn number_escape(&mut self, number: u32)
        ensures { Puts (number_escape number) self.old self.new }
    {
        let first = digit((number / 0x1000 % 16) as u8);
        let second = digit((number / 0x100 % 16) as u8);
        let third = digit((number / 16 % 16) as u8);
        let fourth = digit((number % 16) as u8);
        self.put(&[b'\\', b'u', first, second, third, fourth]);
    }

    /// Appends the byte, or its entity of XML.
    fn entity(&mut self, byte: u8)
        ensures { Puts (entity byte) self.old self.new }
    {
        match byte {
            b'&' => self.put(b"&amp;"),
            b'<' => self.put(b"&lt;"),
            b'>' => self.put(b"&gt;"),
            b'"' => self.put(b"&quot;"),
            _ => self.put(&[byte]),
        }
    }
}

/// Returns the name as it is printed in a text. Fails where memory is refused. Allocates for it.
pub fn shown_name(alloc: Global, name: &[u8]) -> Result<Vec<u8>, AllocError>
    ensures { IfOk result (λ text. text.items ≡ shown name.now) }
{
    let mut text = Text::new(alloc);
    text.name(name);
    text.into_bytes()
}

/// Returns whether this is the number of a character that an XML document doesn't have.
fn is_outside_xml(number: u32) -> bool
    ensures { result ≡ is_outside_xml number }
{
    number == 0xfffe || number == 0xffff
}

/// Returns what stands for a byte within a folded stack, where this one stands for a space.
fn harmless(space: u8, byte: u8) -> u8
    ensures { result ≡ harmless space byte }
{
    match byte {
        b';' => b':',
        b' ' => space,
        _ => byte,
    }
}

/// Returns what stands for a byte in a text of folded stacks.
fn separated(byte: u8) -> u8
    ensures { result ∷ [] ≡ shown_byte Escaping.Plain byte }
{
    match byte {
        b';' => SEPARATOR,
        _ => byte,
    }
}
