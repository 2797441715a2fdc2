//! What lines say of errors: why there is no answer.
ghost use Rattle.std.specs.Prelude.{◌++◌, IfSome, codes};
ghost use Rattle.cfi_text.specs.ErrorLines.{json_reason, json_refusal, refusal_words};
ghost use Rattle.cfi_text.specs.Texts.{Puts};

use crate::style::Format;
use crate::text::Text;
use std::fmt::Display;

impl Text {
    /// Appends what begins an object of JSON; nothing in text.
    pub fn begin_object(&mut self, format: Format) {
        match format {
            Format::Text => {}
            Format::Json => self.put(b"{"),
        }
    }

    /// Appends the end of a line that says why there is no answer; in JSON the end of an object
    /// that has begun.
    pub fn reason(&mut self, format: Format, reason: &str) {
        match format {
            Format::Text => {
                self.put(reason.as_bytes());
                self.put(b"\n");
            }
            Format::Json => self.json_reason(reason),
        }
    }

    /// Appends the end of a line that says that something was refused: the name of the error, in a
    /// sentence what it says, and what to do about it. In JSON it is the end of an object that has
    /// begun.
    pub fn refusal<D: Display + Drop>(
        &mut self,
        format: Format,
        name: &str,
        sentence: D,
        advice: &str,
    ) {
        match format {
            Format::Text => {
                self.refusal_words(name, sentence, advice);
                self.put(b"\n");
            }
            Format::Json => self.json_refusal(name, sentence, advice),
        }
    }

    /// Appends that something was refused: the name of the error, in a sentence what it says, and
    /// what to do about it.
    pub fn refusal_words<D: Display + Drop>(&mut self, name: &str, sentence: D, advice: &str)
        ensures { IfSome (D.output sentence) (λ said.
            Puts (refusal_words name.now said advice.now) self.old self.new) }
    {
        self.put(b"refused ");
        self.put(name.as_bytes());
        self.put(b": ");
        self.show(sentence);
        self.put(advice.as_bytes());
    }

    /// Appends the end of an object of JSON that says why there is no answer.
    fn json_reason(&mut self, reason: &str)
        ensures { Puts (json_reason reason.now) self.old self.new }
    {
        self.put(b"\"error\":\"");
        self.put(reason.as_bytes());
        self.put(b"\"}\n");
    }

    /// Appends the end of an object of JSON: the name of the error, and in a sentence what it says
    /// and what to do about it.
    fn json_refusal<D: Display + Drop>(&mut self, name: &str, sentence: D, advice: &str)
        ensures { IfSome (D.output sentence) (λ said.
            Puts (json_refusal name.now said advice.now) self.old self.new) }
    {
        self.put(b"\"error\":\"");
        self.put(name.as_bytes());
        self.put(b"\",\"reason\":\"");
        self.show(sentence);
        self.put(advice.as_bytes());
        self.put(b"\"}\n");
    }
}
