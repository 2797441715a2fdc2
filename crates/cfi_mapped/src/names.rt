//! Names of files and functions.
ghost use Rattle.std.specs.Prelude.{◌≡◌};
ghost use Rattle.std.specs.List.{list_all};
ghost use Rattle.cfi_text.specs.Names.{is_printable_ascii};

use cfi_text::name_parts::is_plain;

/// A name, and whether each of its bytes is printable ASCII, which is looked at once.
#[derive(Clone, Copy, Debug)]
pub struct Name<'run> {
    /// The bytes of the name.
    pub bytes: &'run [u8],
    /// Whether each of them is printable ASCII.
    pub is_plain: bool,
    ghost checked: { is_plain ≡ list_all is_printable_ascii bytes.now },
}

impl<'run> Name<'run> {
    /// The name of these bytes, each of which is looked at. Does not allocate.
    pub fn new(bytes: &'run [u8]) -> Name<'run>
        ensures { result.bytes ≡ bytes.entry }
    {
        Name {
            bytes,
            is_plain: is_plain(bytes),
        }
    }

    /// The bytes of the name.
    #[inline(always)]
    pub fn bytes(&self) -> &'run [u8]
        ensures { result ≡ self.now.bytes }
    {
        self.bytes
    }
}
