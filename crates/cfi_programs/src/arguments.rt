//! The words of a process after its program's name.
ghost use Rattle.std.specs.Prelude.{◌≡◌, IfOk, map, string_bytes};
ghost use Rattle.cfi_text.specs.WordTexts.{texts};

use std::alloc::{AllocError, Global};
use std::rt::Env;
use std::{env, io};

/// Returns the words after the program's name. An error where they can't be read, or memory is
/// refused.
pub fn words_after_name(rt: &(impl Env + AllocGlobal)) -> io::Result<Vec<String>> {
    let words = env::args(rt)?.skip(1).collect(rt.alloc())?;
    Ok(words)
}

/// Returns the words as texts, in their order.
pub fn texts_of(alloc: Global, words: &[String]) -> Result<Vec<&str>, AllocError>
    ensures { IfOk result (λ list. texts list.items ≡ map string_bytes words.now) }
{
    words.iter().map(|word| word.as_str()).collect(alloc)
}
