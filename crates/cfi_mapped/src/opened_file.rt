//! A file of a profile, as it was opened.
ghost use Rattle.std.specs.Prelude.{◌≡◌, true};
ghost use Rattle.cfi_mapped.specs.CodeParts.{is_told};

use crate::code_parts::CodeParts;
use crate::wanted::is_text;
use cfi_elf::Image;

/// A file of a profile, as it was opened.
#[derive(Drop)]
pub struct OpenedFile<'run> {
    /// The name, as the mappings have it.
    pub name: &'run [u8],
    /// The identification of its build, if it is known.
    pub build_id: Option<&'run [u8]>,
    /// Its parts that are needed; `None` where it can't be opened or read, or the name is none of a
    /// file; where the build is known, also where no file of it was found. Of the kernel, all that
    /// it tells of its symbols; of memory of a process, all that that tells of its code.
    pub code: Option<CodeParts>,
    /// The parts of its debug file; `None` where it can't be opened or read, is of another build,
    /// or hasn't the checksum of the link that leads to it.
    pub debug: Option<CodeParts>,
    /// The process whose memory it is, where it is no file's.
    pub process: Option<u32>,
    /// The path of the file in which that process tells the functions of code that it made.
    pub map_name: Option<String>,
    ghost told: { is_told name.now map_name code ≡ true },
}

impl OpenedFile<'_> {
    ghost use Rattle.std.specs.Prelude.{◌≡◌, option_map};
    ghost use Rattle.cfi_elf.specs.Images.{image_view};
    ghost use Rattle.cfi_mapped.specs.CodeParts.{beginning_in, image_in};
    ghost use Rattle.cfi_mapped.specs.Wanted.{as_code};

    /// Returns the file of code, as far as it was read; `None` of a text that the kernel or a
    /// process tells, also if it is an ELF file. Does not allocate.
    pub fn image(&self) -> Option<Image<'_>>
        ensures { option_map image_view result
            ≡ image_in (as_code self.now.name.now self.now.process self.now.code) }
    {
        if is_text(self.name, self.process) {
            return None;
        }
        match &self.code {
            Some(code) => Some(code.image()),
            None => None,
        }
    }

    /// Returns its debug file, as far as it was read. Does not allocate.
    pub fn debug_image(&self) -> Option<Image<'_>>
        ensures { option_map image_view result ≡ image_in self.now.debug }
    {
        match &self.debug {
            Some(debug) => Some(debug.image()),
            None => None,
        }
    }

    /// Returns the bytes that were read from the beginning on: all of a text that the kernel or a
    /// process tells, and of a file that was read whole; of another file only its first part.
    /// `None` where `code` is. Does not allocate.
    pub fn first(&self) -> Option<&[u8]>
        ensures { option_map (λ bytes. bytes.now) result ≡ beginning_in self.now.code }
    {
        match &self.code {
            Some(code) => Some(code.image().first),
            None => None,
        }
    }
}
