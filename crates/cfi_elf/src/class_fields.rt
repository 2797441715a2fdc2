//! Fields whose offset or width in a record is another one in files of 64 bits.
ghost use Rattle.std.specs.Prelude.{◌≡◌, ◌+◌, ◌<◌, ◌≤◌, length};
ghost use Rattle.std.specs.Int.{w32, w64};
ghost use Rattle.cfi_elf.specs.Fields.{number_at};
ghost use Rattle.cfi_elf.specs.Layouts.{by_class};

use crate::bytes::Record;
use crate::file_header::Class;

/// The offset of a field in a file of this class.
#[inline(always)]
pub(crate) fn by_class(class: Class, offset_32: usize, offset_64: usize) -> usize
    ensures { result ≡ by_class class offset_32 offset_64 }
{
    match class {
        Class::Elf32 => offset_32,
        Class::Elf64 => offset_64,
    }
}

impl Record<'_> {
    /// The number in a field of four bytes in a file of 32 bits, and of eight in one of 64.
    #[inline(always)]
    pub(crate) fn widened(&self, class: Class, offset_32: usize, offset_64: usize) -> u64
        requires { by_class class (offset_32 + 4) (offset_64 + 8) ≤ length self.now.bytes.now }
        ensures value { result ≡ number_at self.now.big_endian self.now.bytes.now
            (by_class class offset_32 offset_64) (by_class class w32 w64) }
        ensures bound { result < by_class class 0x100000000 0x10000000000000000 }
    {
        match class {
            Class::Elf32 => u64::from(self.word(offset_32)),
            Class::Elf64 => self.xword(offset_64),
        }
    }
}
