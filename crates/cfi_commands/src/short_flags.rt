//! Flags of one letter, which clap is passed by their names.
use std::alloc::{AllocError, Global};

/// Returns the words, with `--recursive` in the place of each `-r` of the command `check` that
/// stands before `--`. clap takes neither for a value there. The first word is the program's name.
pub fn short_flags<'w>(alloc: Global, words: &'w [String]) -> Result<Vec<&'w str>, AllocError> {
    let mut all = Vec::new(alloc);
    let mut is_before = is_check(words);
    for word in words {
        let text = word.as_str();
        is_before = is_before && text != "--";
        let is_flag = is_before && text == "-r";
        all.push(if is_flag { "--recursive" } else { text })?;
    }
    Ok(all)
}

/// Returns whether the words are those of the command `check`.
pub fn is_check(words: &[String]) -> bool {
    match words.get(1) {
        Some(command) => command.as_str() == "check",
        None => false,
    }
}
