//! A text that is put together part by part, and then written or returned.
ghost use Rattle.std.specs.Prelude.{◌≡◌, [], IfOk, IfSome, OnOk, true};
ghost use Rattle.cfi_text.specs.Texts.{IsWhole, Puts, contents};
ghost use Rattle.cfi_text.specs.WriterOutput.{Writes};

use crate::lines::write_text;
use itoa::{Buffer, Integer};
use std::alloc::{AllocError, Global};
use std::fmt::{Display, Write as _};
use std::io::{ErrorKind, Write};
use std::{fmt, io};

/// A text that is put together part by part. It remembers if memory for a part was refused, and
/// then it is neither written nor returned. So what writes into it has no errors to pass on.
#[derive(Drop)]
pub struct Text {
    bytes: Vec<u8>,
    is_short: bool,
}

impl Text {
    /// Returns an empty text. Does not allocate.
    pub fn new(alloc: Global) -> Text
        ensures whole { IsWhole result }
        ensures empty { contents result ≡ [] }
    {
        Text {
            bytes: Vec::new(alloc),
            is_short: false,
        }
    }

    /// Appends the bytes. Asks for no memory once it was refused.
    #[inline]
    pub fn put(&mut self, bytes: &[u8])
        ensures { Puts bytes.now self.old self.new }
    {
        if self.is_short || self.bytes.extend_from_slice(bytes).is_err() {
            self.is_short = true;
        }
    }

    /// Appends a number in decimal.
    pub fn number<I: Integer>(&mut self, number: I)
        ensures { Puts (I.text number) self.old self.new }
    {
        let mut buffer = Buffer::new();
        self.put(buffer.format(number).as_bytes());
    }

    /// Appends the bytes after as many spaces as make them so wide.
    pub fn right(&mut self, width: usize, bytes: &[u8]) {
        for _ in bytes.len()..width {
            self.put(b" ");
        }
        self.put(bytes);
    }

    /// Appends the bytes, and as many spaces as make them so wide.
    pub fn left(&mut self, width: usize, bytes: &[u8]) {
        self.put(bytes);
        for _ in bytes.len()..width {
            self.put(b" ");
        }
    }

    /// Appends what a value displays. Slower than the others: for a line here and there.
    pub fn show<D: Display + Drop>(&mut self, value: D)
        ensures { IfSome (D.output value) (λ shown. Puts shown self.old self.new) }
    {
        match write!(self, "{value}") {
            Ok(()) => {}
            Err(_) => self.is_short = true,
        }
    }

    /// Returns the bytes as far as there was memory for them.
    pub fn as_bytes(&self) -> &[u8]
        ensures { result.now ≡ contents self.now }
    {
        self.bytes.as_slice()
    }

    /// Empties the text. It is whole, whatever was left out of it before.
    pub fn clear(&mut self)
        ensures whole { IsWhole self.new }
        ensures empty { contents self.new ≡ [] }
    {
        self.bytes.clear();
        self.is_short = false;
    }

    /// Writes the text and empties it. Fails with the kind `OutOfMemory`, and then writes nothing,
    /// where memory for a part of the text was refused, and as `write_text`.
    pub fn write_to<W: Write>(&mut self, output: &mut W) -> io::Result<()>
        ensures written { Writes (W.contents output.old) (W.contents output.new) result
            (contents self.old) }
        ensures whole { OnOk result (IsWhole self.old) }
        ensures empty { OnOk result (contents self.new ≡ []) }
        ensures ready { OnOk result (IsWhole self.new) }
        ensures unwritten { self.old.is_short ≡ true →
            W.contents output.new ≡ W.contents output.old }
    {
        if self.is_short {
            return Err(io::Error::from(ErrorKind::OutOfMemory));
        }
        write_text(output, self.bytes.as_slice())?;
        self.bytes.clear();
        Ok(())
    }

    /// Returns the bytes. Fails where memory for a part of the text was refused.
    pub fn into_bytes(self) -> Result<Vec<u8>, AllocError>
        ensures whole { OnOk result (IsWhole self) }
        ensures bytes { IfOk result (λ bytes. bytes.items ≡ contents self) }
    {
        if self.is_short {
            return Err(AllocError);
        }
        Ok(self.bytes)
    }
}

impl fmt::Write for Text {
    ghost write_str_gives = { λ old text new. Puts text old new };

    fn write_str(&mut self, text: &str) -> fmt::Result {
        self.put(text.as_bytes());
        Ok(())
    }
}
