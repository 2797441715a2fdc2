//! The bytes and the address of a section, by its header (System V ABI chapter 4, "Sections").
ghost use Rattle.std.specs.Prelude.{◌≡◌};
ghost use Rattle.cfi_read_core.specs.ReaderCalls.{map_ok};
ghost use Rattle.cfi_elf.specs.ElfFiles.{file_view};
ghost use Rattle.cfi_elf.specs.SectionContents.{address_of, contents};

use crate::constants::{SHF_COMPRESSED, SHT_NOBITS};
use crate::elf_file::ElfFile;
use crate::error::ElfError;
use crate::section_header::SectionHeader;

impl<'input> ElfFile<'input> {
    /// The address of a section, if the file has its bytes.
    #[tactic(auto, unfolding(crate::specs::SectionContents::address_of))]
    pub(crate) fn address_of(&self, header: &SectionHeader) -> Result<u64, ElfError>
        ensures { result ≡ address_of (file_view self.now) header.now }
    {
        if header.sh_type == SHT_NOBITS {
            return Ok(header.sh_addr);
        }
        if header.sh_flags & SHF_COMPRESSED != 0 {
            return Err(ElfError::Compressed);
        }
        if self.image.has(header.sh_offset, header.sh_size) {
            Ok(header.sh_addr)
        } else {
            Err(ElfError::SectionOutOfBounds)
        }
    }

    /// The bytes of a section.
    #[tactic(auto, unfolding(crate::specs::SectionContents::contents))]
    pub(crate) fn contents(&self, header: &SectionHeader) -> Result<&'input [u8], ElfError>
        ensures { map_ok (λ bytes. bytes.now) result
            ≡ contents (file_view self.now) header.now }
    {
        if header.sh_type == SHT_NOBITS {
            return Ok(&[]);
        }
        if header.sh_flags & SHF_COMPRESSED != 0 {
            return Err(ElfError::Compressed);
        }
        let error = ElfError::SectionOutOfBounds;
        self.image.bytes_at(header.sh_offset, header.sh_size, error)
    }
}
