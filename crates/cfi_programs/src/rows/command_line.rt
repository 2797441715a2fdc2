//! The words of the command line of `cfi_rows`.
ghost use Rattle.std.specs.Prelude.{◌≡◌};
ghost use Rattle.cfi_text.specs.WordTexts.{texts};
ghost use Rattle.cfi_programs.specs.RowsCommandLine.{first_four_words, option_word, option_words};
ghost use Rattle.cfi_programs.specs.RowsCommandLine.{request_of, set_storage};

use crate::numbers::number_in;
use crate::words;
use crate::words::SectionWords;

/// Where an unwind keeps its rows.
#[derive(Clone, Copy)]
pub enum Storage {
    /// Room for a fixed number of rules and rows.
    OnHeap,
    /// Room that grows.
    Growing,
}

/// What the words ask for.
#[derive(Clone, Copy)]
pub struct Request {
    /// What they say of the section.
    pub words: SectionWords,
    /// The address whose row is asked for.
    pub address: u64,
    /// Where the unwind keeps its rows.
    pub storage: Storage,
}

/// Returns what the words after the program's name ask for; `None` where they are wrong.
pub fn parse(words: &[&str]) -> Option<Request>
    ensures { result ≡ request_of (texts words.now) }
{
    let [kind, order, size, address, options @ ..] = words else {
        return None;
    };
    with_options(first_four_words(kind, order, size, address)?, options)
}

/// Returns what the first four words ask for; `None` where one is wrong.
fn first_four_words(kind: &str, order: &str, size: &str, address: &str) -> Option<Request>
    ensures { result ≡ first_four_words kind.now order.now size.now address.now }
{
    Some(Request {
        words: words::first_words(kind, order, size)?,
        address: number_in(address)?,
        storage: Storage::OnHeap,
    })
}

/// Returns the request with what the words after the address ask for; `None` where one is wrong or
/// asks for what an earlier one asked for.
fn with_options(request: Request, options: &[&str]) -> Option<Request>
    ensures { result ≡ option_words (texts options.now) request }
{
    let mut request = request;
    for word in options {
        request = with_option(request, word)?;
    }
    Some(request)
}

/// Returns the request with what a word after the address asks for; `None` where the word is wrong
/// or asks for what an earlier one asked for.
fn with_option(request: Request, word: &str) -> Option<Request>
    ensures { result ≡ option_word word.now request }
{
    if word == "store=vec" {
        return with_storage(request);
    }
    let words = words::with_option(request.words, word)?;
    Some(Request { words, ..request })
}

/// Returns the request with a storage that grows; `None` where it has that already.
fn with_storage(request: Request) -> Option<Request>
    ensures { result ≡ set_storage request request.storage }
{
    match request.storage {
        Storage::OnHeap => Some(Request {
            storage: Storage::Growing,
            ..request
        }),
        Storage::Growing => None,
    }
}
