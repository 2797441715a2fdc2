//! An ELF file, by its header.
ghost use Rattle.std.specs.Prelude.{◌≡◌};
ghost use Rattle.cfi_read_core.specs.ReaderCalls.{map_ok};
ghost use Rattle.cfi_elf.specs.ElfFiles.{address_size_of, any_file, class_of_file, core_file};
ghost use Rattle.cfi_elf.specs.ElfFiles.{elf_file, elf_file_of, file_by, file_view, header_bytes};
ghost use Rattle.cfi_elf.specs.ElfFiles.{is_big_file, object_file, only_core, only_relocatable};
ghost use Rattle.cfi_elf.specs.ElfFiles.{vendor_of, with_addresses};
ghost use Rattle.cfi_elf.specs.Images.{image_view};

use crate::bytes::Record;
use crate::constants::{EM_AARCH64, ET_CORE, ET_REL, EV_CURRENT};
use crate::error::ElfError;
use crate::file_header::{
    Class, FileHeader, Identification, file_header_size, parse_file_header, read_identification,
};
use crate::image::Image;
use cfi_read_core::{Endianity, RunTimeEndian, Vendor};

/// The bytes of the header of a 64-bit file.
const LONGEST_HEADER: u64 = 64;

/// A file in the ELF format, of 32 or 64 bits, in either byte order: a program or library
/// (`parse`), a relocatable file (`parse_relocatable`) or a core file (`parse_core`). The bytes are
/// borrowed, not copied. Where only parts of the file were read (`of_image`), each call that needs
/// other bytes fails with `NotRead`, and otherwise returns what it returns for the whole file.
#[derive(Clone, Copy, Debug)]
pub struct ElfFile<'input> {
    pub(crate) image: Image<'input>,
    pub(crate) identification: Identification,
    pub(crate) header: FileHeader,
}

impl<'input> ElfFile<'input> {
    /// Reads the header of the file that these bytes are. What the header points to is read by the
    /// calls that need it.
    ///
    /// Fails with `NotElf`, `HeaderCut`, `UnknownClass`, `UnknownDataEncoding` or `UnknownVersion`,
    /// and with `Relocatable` or `Core` for a file of such a type. Does not allocate (System V ABI
    /// chapter 4, "ELF Header").
    pub fn parse(bytes: &'input [u8]) -> Result<ElfFile<'input>, ElfError>
        ensures { map_ok file_view result ≡ elf_file bytes.now }
    {
        ElfFile::of_image(Image::whole(bytes))
    }

    /// Reads the header of a file of which parts were read. Of the file it needs the first 64
    /// bytes, or all where it has fewer.
    ///
    /// Fails as `parse`, and with `NotRead`. Does not allocate.
    #[tactic(auto, unfolding(crate::specs::ElfFiles::elf_file_of))]
    pub fn of_image(image: Image<'input>) -> Result<ElfFile<'input>, ElfError>
        ensures { map_ok file_view result ≡ elf_file_of (image_view image.entry) }
    {
        let bytes = header_bytes(&image)?;
        file_by(image, bytes)
    }

    /// Reads the header of the core file that these bytes are.
    ///
    /// Fails as `parse`, but with `NotCore` for a file of any other type. Does not allocate.
    #[tactic(auto, unfolding(crate::specs::ElfFiles::core_file))]
    pub fn parse_core(bytes: &'input [u8]) -> Result<ElfFile<'input>, ElfError>
        ensures { map_ok file_view result ≡ core_file bytes.now }
    {
        let image = Image::whole(bytes);
        let header = header_bytes(&image)?;
        let file = any_file(image, header)?;
        only_core(file)
    }

    /// Reads the header of the relocatable file that these bytes are. Its sections have no
    /// addresses until `relocate` gives them some.
    ///
    /// Fails as `parse`, but with `NotRelocatable` for a file of any other type. Does not allocate.
    #[tactic(auto, unfolding(crate::specs::ElfFiles::object_file))]
    pub fn parse_relocatable(bytes: &'input [u8]) -> Result<ElfFile<'input>, ElfError>
        ensures { map_ok file_view result ≡ object_file bytes.now }
    {
        let image = Image::whole(bytes);
        let header = header_bytes(&image)?;
        let file = any_file(image, header)?;
        only_relocatable(file)
    }

    /// What was read of the file.
    #[inline(always)]
    pub fn image(&self) -> Image<'input>
        ensures { image_view result ≡ (file_view self.now).image }
    {
        self.image
    }

    /// Whether the file has 32-bit or 64-bit objects (`EI_CLASS`).
    #[inline(always)]
    pub fn class(&self) -> Class
        ensures { result ≡ class_of_file (file_view self.now) }
    {
        self.identification.class
    }

    /// The byte order (`EI_DATA`).
    #[inline(always)]
    pub fn endian(&self) -> RunTimeEndian
        ensures { result ≡ (file_view self.now).identification.«data» }
    {
        self.identification.data
    }

    /// The header after `e_ident`.
    #[inline(always)]
    pub fn header(&self) -> FileHeader
        ensures { result ≡ (file_view self.now).header }
    {
        self.header
    }

    /// The size of an address in bytes: 4 or 8, by the class.
    #[inline(always)]
    pub fn address_size(&self) -> u8
        ensures { result ≡ address_size_of (class_of_file (file_view self.now)) }
    {
        match self.identification.class {
            Class::Elf32 => 4,
            Class::Elf64 => 8,
        }
    }

    /// The vendor whose call frame opcodes the machine's files use: `AArch64` where `e_machine` is
    /// `EM_AARCH64`, or else `Default`.
    #[inline(always)]
    pub fn vendor(&self) -> Vendor
        ensures { result ≡ vendor_of (file_view self.now).header.kind.e_machine }
    {
        if self.header.kind.e_machine == EM_AARCH64 {
            Vendor::AArch64
        } else {
            Vendor::Default
        }
    }

    /// These bytes of the file, as a record.
    #[inline(always)]
    pub(crate) fn fields(&self, bytes: &'input [u8]) -> Record<'input>
        ensures bytes { result.bytes.now ≡ bytes.now }
        ensures order { result.big_endian ≡ is_big_file (file_view self.now) }
    {
        Record {
            bytes,
            big_endian: self.identification.data.is_big_endian(),
        }
    }
}

/// The bytes that the header is read of: the longest one has 64.
#[tactic(auto, unfolding(crate::specs::ElfFiles::header_bytes))]
fn header_bytes<'input>(image: &Image<'input>) -> Result<&'input [u8], ElfError>
    ensures { map_ok (λ bytes. bytes.now) result ≡ header_bytes (image_view image.now) }
{
    image.bytes_at(0, image.length.min(LONGEST_HEADER), ElfError::HeaderCut)
}

/// The program or library of an image, by the bytes of its header.
#[tactic(auto, unfolding(crate::specs::ElfFiles::file_by))]
fn file_by<'input>(image: Image<'input>, bytes: &[u8]) -> Result<ElfFile<'input>, ElfError>
    ensures { map_ok file_view result ≡ file_by (image_view image.entry) bytes.now }
{
    let file = any_file(image, bytes)?;
    with_addresses(file)
}

/// The file of an image, by the bytes of its header, whatever its type and version.
#[tactic(auto, unfolding(crate::specs::ElfFiles::any_file))]
fn any_file<'input>(image: Image<'input>, bytes: &[u8]) -> Result<ElfFile<'input>, ElfError>
    ensures { map_ok file_view result ≡ any_file (image_view image.entry) bytes.now }
{
    let identification = read_identification(bytes)?;
    if bytes.len() < file_header_size(identification.class) {
        return Err(ElfError::HeaderCut);
    }
    let fields = Record {
        bytes,
        big_endian: identification.data.is_big_endian(),
    };
    let header = parse_file_header(identification.class, fields);
    Ok(ElfFile {
        image,
        identification,
        header,
    })
}

/// The file, if its header is of the known version and it is a core file.
fn only_core(file: ElfFile<'_>) -> Result<ElfFile<'_>, ElfError>
    ensures { map_ok file_view result ≡ only_core (file_view file.entry) }
{
    if file.header.kind.e_version != EV_CURRENT {
        return Err(ElfError::UnknownVersion(file.header.kind.e_version));
    }
    if file.header.kind.e_type != ET_CORE {
        return Err(ElfError::NotCore(file.header.kind.e_type));
    }
    Ok(file)
}

/// The file, if its header is of the known version and it is relocatable.
fn only_relocatable(file: ElfFile<'_>) -> Result<ElfFile<'_>, ElfError>
    ensures { map_ok file_view result ≡ only_relocatable (file_view file.entry) }
{
    if file.header.kind.e_version != EV_CURRENT {
        return Err(ElfError::UnknownVersion(file.header.kind.e_version));
    }
    if file.header.kind.e_type != ET_REL {
        return Err(ElfError::NotRelocatable(file.header.kind.e_type));
    }
    Ok(file)
}

/// The file, if its header is of the known version and its sections have addresses.
fn with_addresses(file: ElfFile<'_>) -> Result<ElfFile<'_>, ElfError>
    ensures { map_ok file_view result ≡ with_addresses (file_view file.entry) }
{
    if file.header.kind.e_version != EV_CURRENT {
        return Err(ElfError::UnknownVersion(file.header.kind.e_version));
    }
    match file.header.kind.e_type {
        ET_REL => Err(ElfError::Relocatable),
        ET_CORE => Err(ElfError::Core),
        _ => Ok(file),
    }
}
