//! Files of code, of which those parts are read that are needed.
ghost use Rattle.std.specs.Prelude.{◌≡◌, true};
ghost use Rattle.cfi_object.specs.FileParts.{image_of};
ghost use Rattle.cfi_mapped.specs.Enough.{are_enough};

use cfi_elf::Image;
use cfi_object::{FileInput, FileParts, Needed, read_parts};
use cfi_text::reading::InputError;
use std::alloc::Global;

/// A file of code: its parts that are needed for its call frames, its functions, its build and the
/// link to its debug file.
#[derive(Drop)]
pub struct CodeParts {
    parts: FileParts,
    ghost enough: { are_enough (image_of parts) ≡ true },
}

impl CodeParts {
    ghost use Rattle.std.specs.Prelude.{◌≡◌, Some, IfOk, true, false};
    ghost use Rattle.cfi_elf.specs.Images.{image_view, whole};
    ghost use Rattle.cfi_object.specs.FileParts.{AreOfInput, IsAllOf};
    ghost use Rattle.cfi_object.specs.NeededParts.{AreAsked};
    ghost use Rattle.cfi_mapped.specs.CodeParts.{is_whole, parts_of};
    ghost use Rattle.cfi_mapped.specs.Enough.{needed_of_code};

    /// The file of these bytes. Does not allocate.
    pub fn whole(alloc: Global, bytes: Vec<u8>) -> CodeParts
        ensures { parts_of result ≡ whole bytes.items }
    {
        CodeParts {
            parts: FileParts::whole(alloc, bytes),
        }
    }

    /// Reads the parts of a file that are needed and no others, or all of it if asked for. Fails
    /// with `Unreadable` where its length can't be told or a read fails, and with `OutOfMemory`.
    /// Allocates for the parts.
    pub fn read<I: FileInput>(
        alloc: Global,
        whole: bool,
        input: &mut I,
    ) -> Result<CodeParts, InputError>
        ensures read { IfOk result (λ code. AreOfInput (I.bytes input.old) (parts_of code)) }
        ensures whole { IfOk result (λ code. whole ≡ true → is_whole (Some code) ≡ true) }
        ensures asked { IfOk result (λ code. whole ≡ false
            → AreAsked needed_of_code (parts_of code)) }
    {
        if whole {
            return Self::read_whole(alloc, input);
        }
        let needed = Needed {
            symbols: true,
            plt: false,
            build: true,
        };
        let parts = read_parts(alloc, needed, input)?;
        Ok(CodeParts { parts })
    }

    /// Reads all bytes of a file.
    fn read_whole<I: FileInput>(alloc: Global, input: &mut I) -> Result<CodeParts, InputError>
        ensures { IfOk result (λ code. IsAllOf (I.bytes input.old) (parts_of code)) }
    {
        let parts = FileParts::read_whole(alloc, input)?;
        Ok(CodeParts { parts })
    }

    /// Returns the file, as far as it was read. Does not allocate.
    pub fn image(&self) -> Image<'_>
        ensures { image_view result ≡ parts_of self.now }
    {
        self.parts.image()
    }
}
