//! The sections that the procedure linkage table of a file is found by (System V ABI chapter 5,
//! "Procedure Linkage Table", "Global Offset Table").
ghost use Rattle.std.specs.Prelude.{◌≡◌, Err, IfErr, OnOk};
ghost use Rattle.cfi_read_core.specs.ReaderCalls.{map_ok};
ghost use Rattle.cfi_elf.specs.ElfFiles.{file_view};
ghost use Rattle.cfi_elf.specs.Images.{IsNotRead, IsRead};
ghost use Rattle.cfi_elf.specs.PltSections.{plt_parts_view, plt_parts, section_or_empty};
ghost use Rattle.cfi_elf.specs.PltSections.{got_relocations, got_relocations_view};
ghost use Rattle.cfi_elf.specs.PltSections.{plt_sections, plt_sections_view};
ghost use Rattle.cfi_elf.specs.Sections.{section_view};

use crate::elf_file::ElfFile;
use crate::error::ElfError;
use crate::sections::Section;

/// The sections that say where the address of a symbol is stored: the bytes of `.dynsym`, of
/// `.dynstr`, and of the relocations in `.rela.plt` and in `.rela.dyn`.
#[derive(Clone, Copy)]
pub(crate) struct GotRelocations<'input> {
    pub(crate) dynsym: &'input [u8],
    pub(crate) dynstr: &'input [u8],
    pub(crate) rela_plt: &'input [u8],
    pub(crate) rela_dyn: &'input [u8],
}

/// The sections of entries: `.plt`, `.plt.sec` and `.plt.got`.
#[derive(Clone, Copy)]
pub(crate) struct PltSections<'input> {
    pub(crate) plt: Section<'input>,
    pub(crate) plt_sec: Section<'input>,
    pub(crate) plt_got: Section<'input>,
}

/// What is needed of a file for the entries of its procedure linkage table.
#[derive(Clone, Copy)]
pub(crate) struct PltParts<'input> {
    pub(crate) got: GotRelocations<'input>,
    pub(crate) plt: PltSections<'input>,
}

impl<'input> ElfFile<'input> {
    /// Whether all was read that `plt_addresses` needs of the file.
    ///
    /// Fails with `NotRead` where section headers or one of the sections have not been read, and
    /// with nothing else. Does not allocate.
    pub fn plt_read(&self) -> Result<(), ElfError>
        ensures ok { OnOk result (IsRead (plt_parts (file_view self.now))) }
        ensures err { IfErr result (λ e. plt_parts (file_view self.now) ≡ Err e) }
        ensures unread { IfErr result (λ e. IsNotRead e) }
    {
        match self.plt_parts() {
            Err(ElfError::NotRead { offset, size }) => Err(ElfError::NotRead { offset, size }),
            _ => Ok(()),
        }
    }

    /// The sections that are needed.
    #[tactic(auto, unfolding(crate::specs::PltSections::plt_parts))]
    pub(crate) fn plt_parts(&self) -> Result<PltParts<'input>, ElfError>
        ensures { map_ok plt_parts_view result ≡ plt_parts (file_view self.now) }
    {
        let got = self.got_relocations()?;
        let plt = self.plt_sections()?;
        Ok(PltParts { got, plt })
    }

    /// Those that say where addresses are stored.
    #[tactic(auto, unfolding(crate::specs::PltSections::got_relocations))]
    fn got_relocations(&self) -> Result<GotRelocations<'input>, ElfError>
        ensures { map_ok got_relocations_view result ≡ got_relocations (file_view self.now) }
    {
        let dynsym = self.section_or_empty(b".dynsym")?;
        let dynstr = self.section_or_empty(b".dynstr")?;
        let rela_plt = self.section_or_empty(b".rela.plt")?;
        let rela_dyn = self.section_or_empty(b".rela.dyn")?;
        Ok(GotRelocations {
            dynsym: dynsym.bytes,
            dynstr: dynstr.bytes,
            rela_plt: rela_plt.bytes,
            rela_dyn: rela_dyn.bytes,
        })
    }

    /// Those of entries.
    #[tactic(auto, unfolding(crate::specs::PltSections::plt_sections))]
    fn plt_sections(&self) -> Result<PltSections<'input>, ElfError>
        ensures { map_ok plt_sections_view result ≡ plt_sections (file_view self.now) }
    {
        let plt = self.section_or_empty(b".plt")?;
        let plt_sec = self.section_or_empty(b".plt.sec")?;
        let plt_got = self.section_or_empty(b".plt.got")?;
        Ok(PltSections {
            plt,
            plt_sec,
            plt_got,
        })
    }

    /// The section of this name, or one without bytes where there is none.
    #[tactic(auto, unfolding(crate::specs::PltSections::section_or_empty))]
    fn section_or_empty(&self, name: &[u8]) -> Result<Section<'input>, ElfError>
        ensures { map_ok section_view result ≡ section_or_empty (file_view self.now) name.now }
    {
        match self.section(name)? {
            Some(section) => Ok(section),
            None => Ok(Section {
                address: 0,
                bytes: &[],
            }),
        }
    }
}
