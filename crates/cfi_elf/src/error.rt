//! Why a file can't be read.
ghost use Rattle.std.specs.Prelude.{◌≡◌, Some};
ghost use Rattle.cfi_elf.specs.ErrorNames.{name_of_elf};
ghost use Rattle.cfi_elf.specs.ErrorTexts.{number_of_elf, sentence_of_elf, text_of_elf};

use std::fmt;

/// Why an ELF file, or a part of it, can't be read. `Display` writes one sentence, with the value
/// that the error carries if it carries one; those of `NotRead` are in its fields alone.
#[derive(Clone, Copy, Debug, PartialEq, Eq)]
pub enum ElfError {
    /// The file doesn't begin with the four bytes of `EI_MAG0` to `EI_MAG3`.
    NotElf,
    /// The file ends before its header does.
    HeaderCut,
    /// `EI_CLASS` is neither `ELFCLASS32` nor `ELFCLASS64`. Carries the byte.
    UnknownClass(u8),
    /// `EI_DATA` is neither `ELFDATA2LSB` nor `ELFDATA2MSB`. Carries the byte.
    UnknownDataEncoding(u8),
    /// `EI_VERSION` or `e_version` is not `EV_CURRENT`. Carries the version.
    UnknownVersion(u32),
    /// A relocatable file (`ET_REL`): its sections have no addresses yet.
    Relocatable,
    /// A core file (`ET_CORE`).
    Core,
    /// Not a core file. Carries `e_type`.
    NotCore(u16),
    /// `e_shentsize` is not the size of a section header. Carries `e_shentsize`.
    SectionEntrySize(u16),
    /// The section header table goes past the end of the file.
    SectionTableOutOfBounds,
    /// The index of the section name string table is not that of a section header. Carries it.
    NoNameSection(u32),
    /// A section goes past the end of the file.
    SectionOutOfBounds,
    /// A section is compressed (`SHF_COMPRESSED`, or a name that begins with `.zdebug`).
    Compressed,
    /// A name begins past the end of its string table.
    NameOutOfBounds,
    /// A name isn't terminated in its string table.
    NameNotTerminated,
    /// `e_phentsize` is not the size of a program header. Carries `e_phentsize`.
    ProgramEntrySize(u16),
    /// The program header table goes past the end of the file.
    ProgramTableOutOfBounds,
    /// The file's bytes of a segment go past the end of the file.
    SegmentOutOfBounds,
    /// Notes go on with bytes that are no whole note.
    NoteCut,
    /// Not a relocatable file. Carries `e_type`.
    NotRelocatable(u16),
    /// A relocation of a type that the machine's table doesn't have. Carries the type.
    UnknownRelocation(u32),
    /// The place of a relocation is not in its section.
    RelocationOutOfBounds,
    /// A relocation has the index of no symbol. Carries the index.
    NoRelocationSymbol(u32),
    /// A symbol has the index of its section elsewhere (`SHN_XINDEX`).
    ExtendedSectionIndex,
    /// Bytes are needed that no part of the image has. Carries where in the file they begin, and
    /// how many they are.
    NotRead { offset: u64, size: u64 },
    /// Memory for a list is refused.
    OutOfMemory,
}

impl fmt::Display for ElfError {
    ghost output = { λ error. Some (text_of_elf error) };

    fn fmt<W: fmt::Write>(&self, f: &mut fmt::Formatter<W>) -> fmt::Result {
        let sentence = self.sentence();
        match self.number() {
            Some(number) => write!(f, "{sentence}{number}"),
            None => f.write_str(sentence),
        }
    }
}

impl std::error::Error for ElfError {}

impl ElfError {
    /// The name of the variant.
    pub fn name(&self) -> &'static str
        ensures { result.now ≡ name_of_elf self.now }
    {
        match self {
            ElfError::NotElf => "NotElf",
            ElfError::HeaderCut => "HeaderCut",
            ElfError::UnknownClass(_) => "UnknownClass",
            ElfError::UnknownDataEncoding(_) => "UnknownDataEncoding",
            ElfError::UnknownVersion(_) => "UnknownVersion",
            ElfError::Relocatable => "Relocatable",
            ElfError::Core => "Core",
            ElfError::NotCore(_) => "NotCore",
            ElfError::SectionEntrySize(_) => "SectionEntrySize",
            ElfError::SectionTableOutOfBounds => "SectionTableOutOfBounds",
            ElfError::NoNameSection(_) => "NoNameSection",
            ElfError::SectionOutOfBounds => "SectionOutOfBounds",
            ElfError::Compressed => "Compressed",
            ElfError::NameOutOfBounds => "NameOutOfBounds",
            ElfError::NameNotTerminated => "NameNotTerminated",
            ElfError::ProgramEntrySize(_) => "ProgramEntrySize",
            ElfError::ProgramTableOutOfBounds => "ProgramTableOutOfBounds",
            ElfError::SegmentOutOfBounds => "SegmentOutOfBounds",
            ElfError::NoteCut => "NoteCut",
            ElfError::NotRelocatable(_) => "NotRelocatable",
            ElfError::UnknownRelocation(_) => "UnknownRelocation",
            ElfError::RelocationOutOfBounds => "RelocationOutOfBounds",
            ElfError::NoRelocationSymbol(_) => "NoRelocationSymbol",
            ElfError::ExtendedSectionIndex => "ExtendedSectionIndex",
            ElfError::NotRead { .. } => "NotRead",
            ElfError::OutOfMemory => "OutOfMemory",
        }
    }

    /// The value that the error carries, if any.
    fn number(&self) -> Option<u32>
        ensures { result ≡ number_of_elf self.now }
    {
        match *self {
            ElfError::UnknownClass(byte) | ElfError::UnknownDataEncoding(byte) => Some(u32::from(
                byte,
            )),
            ElfError::NotCore(half)
            | ElfError::NotRelocatable(half)
            | ElfError::SectionEntrySize(half)
            | ElfError::ProgramEntrySize(half) => Some(u32::from(half)),
            ElfError::UnknownVersion(number)
            | ElfError::NoNameSection(number)
            | ElfError::UnknownRelocation(number)
            | ElfError::NoRelocationSymbol(number) => Some(number),
            _ => None,
        }
    }

    /// The sentence, up to the value if there is one.
    fn sentence(&self) -> &'static str
        ensures { result.now ≡ sentence_of_elf self.now }
    {
        match self {
            ElfError::NotElf => "not an ELF file",
            ElfError::HeaderCut => "the file ends in its header",
            ElfError::UnknownClass(_) => "unknown class ",
            ElfError::UnknownDataEncoding(_) => "unknown data encoding ",
            ElfError::UnknownVersion(_) => "unknown version ",
            ElfError::Relocatable => "a relocatable file has no addresses",
            ElfError::Core => "a core file has no sections",
            ElfError::NotCore(_) => "not a core file, but of type ",
            ElfError::SectionEntrySize(_) => "section headers of size ",
            ElfError::SectionTableOutOfBounds =>
                "the section header table goes past the file's end",
            ElfError::NoNameSection(_) => "there is no section header for names at index ",
            ElfError::SectionOutOfBounds => "a section goes past the file's end",
            ElfError::Compressed => "the section is compressed",
            ElfError::NameOutOfBounds => "a name is not in its string table",
            ElfError::NameNotTerminated => "a name is not terminated",
            ElfError::ProgramEntrySize(_) => "program headers of size ",
            ElfError::ProgramTableOutOfBounds =>
                "the program header table goes past the file's end",
            ElfError::SegmentOutOfBounds => "a segment goes past the file's end",
            ElfError::NoteCut => "a note is cut",
            ElfError::NotRelocatable(_) => "not a relocatable file, but of type ",
            ElfError::UnknownRelocation(_) => "unknown relocation type ",
            ElfError::RelocationOutOfBounds => "a relocation goes past the section's end",
            ElfError::NoRelocationSymbol(_) => "a relocation has no symbol at index ",
            ElfError::ExtendedSectionIndex => "the section of a symbol has an extended index",
            ElfError::NotRead { .. } => "bytes of the file have not been read",
            ElfError::OutOfMemory => "memory is refused",
        }
    }
}
