//! A text of folded stacks as it is drawn, with separators between the names of functions.
ghost use Rattle.std.specs.Prelude.{◌≡◌, IfOk};
ghost use Rattle.cfi_flame.specs.PlainTexts.{plain};

use cfi_text::escapes::Escaping;
use cfi_text::text::Text;
use std::alloc::{AllocError, Global};

/// Returns the text with separators for semicolons, and otherwise as it is drawn, but for line
/// feeds. Allocates for it.
pub fn plain_text(alloc: Global, text: &[u8]) -> Result<Vec<u8>, AllocError>
    ensures { IfOk result (λ plainer. plainer.items ≡ plain text.now) }
{
    let mut plainer = Text::new(alloc);
    plainer.escaped(Escaping::Plain, text);
    plainer.into_bytes()
}
