//! The words of the process, of which some may be no text.
use std::alloc::{AllocError, AllocGlobal, Global};
use std::env::FillError;
use std::rt::Env;
use std::str;

/// As many bytes as a word of Linux has at most (`MAX_ARG_STRLEN`, execve(2)).
const LONGEST: usize = 131_072;

/// What ends the text for a word that isn't UTF-8. No word of a process and no path has it.
const MARK: char = '\0';

/// Returns the words of the process, each that isn't UTF-8 as a text like it that ends with a mark.
/// Fails where memory is refused, or a word is longer than Linux lets it be.
pub fn marked_words<P: Env + AllocGlobal>(rt: &P) -> Result<Vec<String>, AllocError> {
    let mut room = vec![in rt.alloc(); 0u8; LONGEST]?;
    let mut words = Vec::new(rt.alloc());
    for i in 0..usize::MAX {
        match rt.arg(i, room.as_mut_slice()) {
            Ok(length) => {
                let word = room.as_slice().get(..length).unwrap_or(b"");
                words.push(marked(rt.alloc(), word)?)?;
            }
            Err(FillError::NotPresent) => return Ok(words),
            Err(FillError::TooLong) => return Err(AllocError),
        }
    }
    Err(AllocError)
}

/// Returns the bytes as a text, which ends with a mark where they aren't UTF-8.
fn marked(alloc: Global, word: &[u8]) -> Result<String, AllocError> {
    match str::from_utf8(word) {
        Ok(text) => String::from_str(alloc, text),
        Err(_) => {
            let mut text = String::from_utf8_lossy(alloc, word)?;
            text.push(MARK)?;
            Ok(text)
        }
    }
}

/// Returns the text before the mark, where there is one.
pub fn before_mark(text: &str) -> Option<&str> {
    text.strip_suffix(MARK)
}
