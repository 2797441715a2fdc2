//! The words of the command line that say what a section is and which addresses it has.
ghost use Rattle.std.specs.Prelude.{◌≡◌, option_map};
ghost use Rattle.cfi_programs.specs.Numbers.{number};
ghost use Rattle.cfi_programs.specs.Words.{first_words, kind_named, order_named, size_named};
ghost use Rattle.cfi_programs.specs.Words.{once_given, section_word, set_data_base, set_header};
ghost use Rattle.cfi_programs.specs.Words.{set_section, set_text, set_vendor};
ghost use Rattle.cfi_programs.specs.SectionOfWords.{bases_of, given_by, header_of_words};
ghost use Rattle.gimli_cfi.specs.SectionSources.{source_view};

use crate::numbers::{after_prefix, number_in};
use gimli_cfi::{
    AddressSize, BaseAddresses, RunTimeEndian, SectionBaseAddresses, SectionKind, SectionSource,
    Vendor,
};

/// What the words say of the section.
#[derive(Clone, Copy)]
pub struct SectionWords {
    /// The section that the input holds.
    pub kind: SectionKind,
    /// Its byte order.
    pub endian: RunTimeEndian,
    /// The size of an address.
    pub address_size: AddressSize,
    /// The address of the section.
    pub section: Option<u64>,
    /// The base of text.
    pub text: Option<u64>,
    /// The base of data.
    pub data_base: Option<u64>,
    /// The vendor whose opcodes are read.
    pub vendor: Vendor,
    /// The address of the header of `.eh_frame`, where the input has one after its first line.
    pub header: Option<u64>,
}

impl SectionWords {
    /// Returns the section that these bytes are, with its header where the words have the address
    /// of one. The bytes are borrowed, not copied.
    pub fn source<'input>(
        &self,
        section: &'input [u8],
        header: &'input [u8],
    ) -> SectionSource<'input>
        ensures { source_view result ≡ given_by self.now section.now header.now }
    {
        SectionSource {
            kind: self.kind,
            endian: self.endian,
            address_size: self.address_size,
            vendor: self.vendor,
            bases: self.bases(),
            bytes: section,
            header: self.header_of(header),
        }
    }

    /// Returns the bases of the section and of its header. In the header, data is relative to the
    /// header itself.
    fn bases(&self) -> BaseAddresses
        ensures { result ≡ bases_of self.now }
    {
        BaseAddresses {
            eh_frame_hdr: SectionBaseAddresses {
                section: self.header,
                text: self.text,
                data_base: self.header,
            },
            eh_frame: SectionBaseAddresses {
                section: self.section,
                text: self.text,
                data_base: self.data_base,
            },
        }
    }

    /// Returns the header of these bytes, where the words have its address.
    fn header_of<'input>(&self, header: &'input [u8]) -> Option<&'input [u8]>
        ensures { option_map (λ bytes. bytes.now) result ≡ header_of_words self.now header.now }
    {
        match self.header {
            Some(_) => Some(header),
            None => None,
        }
    }
}

/// Returns what the first three words say: `debug_frame` or `eh_frame`, `le` or `be`, and 1, 2, 4
/// or 8; `None` where one is wrong.
pub fn first_words(kind: &str, order: &str, size: &str) -> Option<SectionWords>
    ensures { result ≡ first_words kind.now order.now size.now }
{
    Some(SectionWords {
        kind: kind_named(kind)?,
        endian: order_named(order)?,
        address_size: size_named(size)?,
        section: None,
        text: None,
        data_base: None,
        vendor: Vendor::Default,
        header: None,
    })
}

/// Returns the kind of section that a word names; `None` for other words.
fn kind_named(word: &str) -> Option<SectionKind>
    ensures { result ≡ kind_named word.now }
{
    if word == "debug_frame" {
        Some(SectionKind::DebugFrame)
    } else if word == "eh_frame" {
        Some(SectionKind::EhFrame)
    } else {
        None
    }
}

/// Returns the byte order that a word names; `None` for other words.
fn order_named(word: &str) -> Option<RunTimeEndian>
    ensures { result ≡ order_named word.now }
{
    if word == "le" {
        Some(RunTimeEndian::Little)
    } else if word == "be" {
        Some(RunTimeEndian::Big)
    } else {
        None
    }
}

/// Returns the address size that a word names; `None` for other words.
fn size_named(word: &str) -> Option<AddressSize>
    ensures { result ≡ size_named word.now }
{
    if word == "1" {
        Some(AddressSize::new(1))
    } else if word == "2" {
        Some(AddressSize::new(2))
    } else if word == "4" {
        Some(AddressSize::new(4))
    } else if word == "8" {
        Some(AddressSize::new(8))
    } else {
        None
    }
}

/// Returns what the words say with one more: `vendor=aarch64`, or `section=`, `text=`, `data=` or
/// `header=` and a number. `None` where the word is another, where the number is wrong, or where it
/// asks for what an earlier one asked for; and for `header=` of `.debug_frame`, which has none.
pub fn with_option(words: SectionWords, word: &str) -> Option<SectionWords>
    ensures { result ≡ section_word word.now words }
{
    if word == "vendor=aarch64" {
        return with_vendor(words);
    }
    if let Some(digits) = after_prefix(word, "section=") {
        return with_section(words, digits);
    }
    if let Some(digits) = after_prefix(word, "text=") {
        return with_text(words, digits);
    }
    if let Some(digits) = after_prefix(word, "data=") {
        return with_data_base(words, digits);
    }
    if let Some(digits) = after_prefix(word, "header=") {
        return with_header(words, digits);
    }
    None
}

/// Returns the words with AArch64 as the vendor; `None` where it was given before.
fn with_vendor(words: SectionWords) -> Option<SectionWords>
    ensures { result ≡ set_vendor words words.vendor }
{
    match words.vendor {
        Vendor::Default => Some(SectionWords {
            vendor: Vendor::AArch64,
            ..words
        }),
        Vendor::AArch64 => None,
    }
}

/// Returns the words with the address of the section; `None` where the number is wrong, or one was
/// given before.
fn with_section(words: SectionWords, digits: &str) -> Option<SectionWords>
    ensures { result ≡ set_section words digits.now }
{
    let section = once(words.section, digits)?;
    Some(SectionWords {
        section: Some(section),
        ..words
    })
}

/// Returns the words with the address of the text; `None` where the number is wrong, or one was
/// given before.
fn with_text(words: SectionWords, digits: &str) -> Option<SectionWords>
    ensures { result ≡ set_text words digits.now }
{
    let text = once(words.text, digits)?;
    Some(SectionWords {
        text: Some(text),
        ..words
    })
}

/// Returns the words with the address of the data; `None` where the number is wrong, or one was
/// given before.
fn with_data_base(words: SectionWords, digits: &str) -> Option<SectionWords>
    ensures { result ≡ set_data_base words digits.now }
{
    let data_base = once(words.data_base, digits)?;
    Some(SectionWords {
        data_base: Some(data_base),
        ..words
    })
}

/// Returns the words with the address of the header; `None` for `.debug_frame`, where the number is
/// wrong, and where one was given before.
fn with_header(words: SectionWords, digits: &str) -> Option<SectionWords>
    ensures { result ≡ set_header words digits.now words.kind }
{
    match words.kind {
        SectionKind::DebugFrame => None,
        SectionKind::EhFrame => {
            let header = once(words.header, digits)?;
            Some(SectionWords {
                header: Some(header),
                ..words
            })
        }
    }
}

/// Parses the number of a word; `None` where one was given before.
fn once(before: Option<u64>, digits: &str) -> Option<u64>
    ensures { result ≡ once_given before (number digits.now) }
{
    match before {
        None => number_in(digits),
        Some(_) => None,
    }
}
