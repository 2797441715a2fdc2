//! Common information entries (DWARF 5 section 6.4.1; LSB Core, "The Common Information Entry
//! Format").
ghost use Rattle.std.specs.Prelude.{◌≡◌, IfOk, is_some, ⊤};
ghost use Rattle.std.specs.Option.{option_map};
ghost use Rattle.cfi_read_core.specs.Addresses.{IsAddressSize};
ghost use Rattle.cfi_read_core.specs.AddressSizes.{size_in_bytes};
ghost use Rattle.cfi_read_core.specs.ReaderCalls.{ReadsBy, ReadsValue, map_ok};
ghost use Rattle.cfi_parts.specs.InstructionIterators.{instruction_reader};
ghost use Rattle.cfi_parts.specs.InstructionReaders.{ReadsIn, instructions_left};
ghost use Rattle.cfi_parts.specs.Pointers.{pointer_to};
ghost use Rattle.cfi_entry.specs.Augmentations.{address_encoding_of, has_b_key, is_trampoline};
ghost use Rattle.cfi_entry.specs.Augmentations.{lsda_encoding_of, personality_of};
ghost use Rattle.cfi_entry.specs.Sections.{section_of};
ghost use Rattle.cfi_entry.specs.Cies.{cie_of, return_register, sizes};
ghost use Rattle.cfi_entry.specs.EntryInstructions.{cie_instructions};
ghost use Rattle.cfi_entry.specs.Entries.{cie_at};
ghost use Rattle.cfi_entry.specs.EntryViews.{IsCieOf, IsPrefixOf, augmentation_view, cie_view};
ghost use Rattle.cfi_entry.specs.EntryViews.{position_in, prefix_view, section_in};

use crate::augmentation::{Augmentation, read_augmentation};
use crate::in_section::{InSection, instructions_in};
use crate::prefix::{EntryPrefix, prefix_at};
use cfi_parts::instruction::CallFrameInstructionIter;
use cfi_parts::pointer::{BaseAddresses, Pointer};
use cfi_read_core::address::AddressSize;
use cfi_read_core::reader::read_register;
use cfi_read_core::section_properties::_UnwindSectionPrivate;
use cfi_read_core::{DwEhPe, Encoding, Error, Format, Reader, ReaderOffset, Register, Result};
use std::alloc::AllocError;

/// A common information entry, generic over its reader and the reader's offsets.
#[derive(Copy, Debug, PartialEq, Eq)]
pub struct CieFields<R, O> {
    // In an order with little padding, since a CIE is copied into each of its FDEs.
    pub(crate) version: u8,
    pub(crate) address_size: AddressSize,
    pub(crate) return_address_register: Register,
    pub(crate) format: Format,
    pub(crate) offset: O,
    pub(crate) length: O,
    pub(crate) code_alignment_factor: u64,
    pub(crate) data_alignment_factor: i64,
    pub(crate) initial_instructions: R,
    pub(crate) augmentation: Augmentation,
}

impl<R: Copy, O: Copy> Clone for CieFields<R, O> {
    ghost is_clone = { λ x y. y ≡ x };

    ghost is_infallible = { λ _. ⊤ };

    #[inline(always)]
    fn clone(&self) -> std::result::Result<Self, AllocError> {
        Ok(*self)
    }
}

/// A common information entry: what the frame description entries that point to it share.
pub type CommonInformationEntry<R> = CieFields<R, <R as Reader>::Offset>;

/// Reads the size of an address where an entry of this version gives one; else it is the section's.
///
/// Fails with `UnsupportedAddressSize`, and with `UnsupportedSegmentSize` where segment selectors
/// have a size.
#[inline(always)]
fn read_sizes<R: Reader, S: _UnwindSectionPrivate<R>>(
    at: &InSection<'_, S>,
    version: u8,
    input: &mut R,
) -> Result<AddressSize>
    ensures { ReadsBy R.position size_in_bytes (sizes (section_in S.view at.now) version)
        input.old result input.new }
{
    if !S::has_address_and_segment_sizes(version) {
        return Ok(AddressSize::new(at.section.address_size()));
    }
    let address_size = input.read_address_size()?;
    let segment_size = input.read_u8()?;
    if segment_size != 0 {
        return Err(Error::UnsupportedSegmentSize(segment_size));
    }
    Ok(AddressSize::new(address_size))
}

/// Reads the number of the register that holds the return address.
#[inline(always)]
fn read_return_register<R: Reader>(version: u8, input: &mut R) -> Result<Register>
    ensures { ReadsValue R.position (return_register version) input.old result input.new }
{
    if version == 1 {
        Ok(Register(u16::from(input.read_u8()?)))
    } else {
        read_register(input)
    }
}

/// Reads the CIE whose prefix was read.
///
/// Fails with `UnknownVersion` for another version than 1, 3 and 4, with `UnsupportedSegmentSize`
/// where segment selectors have a size, and with the error of the first field that can't be read.
#[tactic(auto, unfolding(crate::specs::Cies::cie_fields))]
#[inline(always)]
pub fn read_cie<R: Reader, S: _UnwindSectionPrivate<R> + Copy>(
    at: &InSection<'_, S>,
    found: &EntryPrefix<R, R::Offset>,
) -> Result<CommonInformationEntry<R>>
    requires { IsPrefixOf R.position (position_in S.view at.now) found.now }
    ensures read { map_ok (cie_view R.position R.Offset.number) result
        ≡ cie_of (section_in S.view at.now) (prefix_view R.position R.Offset.number found.now) }
    ensures part { IfOk result (IsCieOf R.position (position_in S.view at.now)) }
{
    let mut input = found.rest;
    let version = input.read_u8()?;
    if version != 1 && version != 3 && version != 4 {
        return Err(Error::UnknownVersion(u64::from(version)));
    }
    let text = input.read_null_terminated_slice()?;
    let address_size = read_sizes(at, version, &mut input)?;
    let code_alignment_factor = input.read_uleb128()?;
    let data_alignment_factor = input.read_sleb128()?;
    let return_address_register = read_return_register(version, &mut input)?;
    // A copy is passed, so that the caller's own can stay in registers: most entries are FDEs.
    let copy = InSection {
        section: at.section,
        bases: at.bases,
    };
    let augmentation = read_augmentation(&copy, address_size, text, &mut input)?;
    Ok(CieFields {
        offset: found.offset,
        length: found.length,
        format: found.format,
        version,
        augmentation,
        address_size,
        code_alignment_factor,
        data_alignment_factor,
        return_address_register,
        initial_instructions: input,
    })
}

/// Reads the CIE at an offset of the section.
///
/// Fails as `prefix_at`, with `NotCieId` where the id there is not a CIE's, and as `read_cie`.
#[tactic(auto, unfolding(crate::specs::Entries::cie_at))]
#[inline(always)]
pub fn cie_at<R: Reader, S: _UnwindSectionPrivate<R> + Copy>(
    at: &InSection<'_, S>,
    offset: R::Offset,
) -> Result<CommonInformationEntry<R>>
    ensures read { map_ok (cie_view R.position R.Offset.number) result
        ≡ cie_at (section_in S.view at.now) (R.Offset.number offset) }
    ensures part { IfOk result (IsCieOf R.position (position_in S.view at.now)) }
{
    let found = prefix_at(at, offset)?;
    if S::is_cie(found.format, found.id) {
        read_cie(at, &found)
    } else {
        Err(Error::NotCieId(offset.into_u64()))
    }
}

/// Returns the size of an address as a type, which needs no check that it is 1, 2, 4 or 8.
#[inline(always)]
pub fn address_size_of<R: Reader>(cie: &CommonInformationEntry<R>) -> AddressSize
    ensures { size_in_bytes result ≡ (cie_view R.position R.Offset.number cie.now).address_size }
{
    cie.address_size
}

/// Returns the pointer of this value, which is indirect where the encoding says so.
#[inline(always)]
fn pointer_of(encoding: DwEhPe, value: u64) -> Pointer
    ensures { result ≡ pointer_to encoding.0 value }
{
    if encoding.is_indirect() {
        Pointer::Indirect(value)
    } else {
        Pointer::Direct(value)
    }
}

impl<R: Reader> CommonInformationEntry<R> {
    /// Returns the offset in the section at which the entry begins.
    #[inline(always)]
    pub fn offset(&self) -> R::Offset
        ensures { R.Offset.number result ≡ (cie_view R.position R.Offset.number self.now).offset }
    {
        self.offset
    }

    /// Returns the format, the version and the size of an address.
    #[inline(always)]
    pub fn encoding(&self) -> Encoding
        ensures format { result.format ≡ (cie_view R.position R.Offset.number self.now).format }
        ensures version { result.version ≡ (cie_view R.position R.Offset.number self.now).version }
        ensures size { result.address_size
            ≡ (cie_view R.position R.Offset.number self.now).address_size }
    {
        Encoding {
            format: self.format,
            version: u16::from(self.version),
            address_size: self.address_size.bytes(),
        }
    }

    /// Returns the size of an address in bytes: 1, 2, 4 or 8.
    #[inline(always)]
    pub fn address_size(&self) -> u8
        ensures value { result ≡ (cie_view R.position R.Offset.number self.now).address_size }
        ensures sized { IsAddressSize result }
    {
        self.address_size.bytes()
    }

    /// Returns the value of the entry's length field.
    #[inline(always)]
    pub fn entry_len(&self) -> R::Offset
        ensures { R.Offset.number result ≡ (cie_view R.position R.Offset.number self.now).length }
    {
        self.length
    }

    /// Returns the version: 1, 3 or 4.
    #[inline(always)]
    pub fn version(&self) -> u8
        ensures { result ≡ (cie_view R.position R.Offset.number self.now).version }
    {
        self.version
    }

    /// Returns what the augmentation means, or `None` where its text is empty.
    #[inline(always)]
    pub fn augmentation(&self) -> Option<&Augmentation>
        ensures { option_map (λ a. augmentation_view a.now) result
            ≡ (cie_view R.position R.Offset.number self.now).augmentation }
    {
        if self.augmentation.has_letters {
            Some(&self.augmentation)
        } else {
            None
        }
    }

    /// Returns whether the FDEs have a pointer to language-specific data.
    #[inline(always)]
    pub fn has_lsda(&self) -> bool
        ensures { result
            ≡ is_some (lsda_encoding_of
            (cie_view R.position R.Offset.number self.now).augmentation) }
    {
        self.lsda_encoding().is_some()
    }

    /// Returns the encoding of the FDEs' pointers to language-specific data.
    #[inline(always)]
    pub fn lsda_encoding(&self) -> Option<DwEhPe>
        ensures { option_map (λ e. e.0) result
            ≡ lsda_encoding_of (cie_view R.position R.Offset.number self.now).augmentation }
    {
        self.augmentation()?.lsda_encoding
    }

    /// Returns the pointer to the personality routine, with its encoding.
    #[inline(always)]
    pub fn personality_with_encoding(&self) -> Option<(DwEhPe, Pointer)>
        ensures { option_map (λ p. (p.0.0, p.1)) result
            ≡ personality_of (cie_view R.position R.Offset.number self.now).augmentation }
    {
        let known = self.augmentation()?;
        let encoding = known.personality_encoding?;
        Some((encoding, pointer_of(encoding, known.personality)))
    }

    /// Returns the pointer to the personality routine.
    #[inline(always)]
    pub fn personality(&self) -> Option<Pointer>
        ensures { result
            ≡ option_map (λ p. p.1) (personality_of
            (cie_view R.position R.Offset.number self.now).augmentation) }
    {
        let (_, personality) = self.personality_with_encoding()?;
        Some(personality)
    }

    /// Returns the encoding of the FDEs' addresses, or `None` where they are plain.
    #[inline(always)]
    pub fn fde_address_encoding(&self) -> Option<DwEhPe>
        ensures { option_map (λ e. e.0) result
            ≡ address_encoding_of (cie_view R.position R.Offset.number self.now).augmentation }
    {
        self.augmentation()?.fde_address_encoding
    }

    /// Returns whether the FDEs are signal trampolines.
    #[inline(always)]
    pub fn is_signal_trampoline(&self) -> bool
        ensures { result
            ≡ is_trampoline (cie_view R.position R.Offset.number self.now).augmentation }
    {
        self.augmentation.has_letters && self.augmentation.is_signal_trampoline
    }

    /// Returns whether the return address is signed with the B key ("DWARF for the Arm 64-bit
    /// Architecture").
    #[inline(always)]
    pub fn uses_b_key(&self) -> bool
        ensures { result ≡ has_b_key (cie_view R.position R.Offset.number self.now).augmentation }
    {
        self.augmentation.has_letters && self.augmentation.uses_b_key
    }

    /// Returns the code alignment factor, by which the deltas of advances are multiplied.
    #[inline(always)]
    pub fn code_alignment_factor(&self) -> u64
        ensures { result ≡ (cie_view R.position R.Offset.number self.now).code_alignment_factor }
    {
        self.code_alignment_factor
    }

    /// Returns the data alignment factor, by which the offsets of rules are multiplied.
    #[inline(always)]
    pub fn data_alignment_factor(&self) -> i64
        ensures { result ≡ (cie_view R.position R.Offset.number self.now).data_alignment_factor }
    {
        self.data_alignment_factor
    }

    /// Returns the register that holds the return address.
    #[inline(always)]
    pub fn return_address_register(&self) -> Register
        ensures { result ≡ (cie_view R.position R.Offset.number self.now).return_address_register }
    {
        self.return_address_register
    }

    /// Iterates over the initial instructions, with which the program of each of the CIE's FDEs
    /// begins. None is read yet.
    ///
    /// The CIE must be of this section; the bases are those of the section's entries. Expressions
    /// are in the section.
    #[inline(always)]
    pub fn instructions<'a, Section: _UnwindSectionPrivate<R>>(
        &self,
        section: &'a Section,
        bases: &'a BaseAddresses,
    ) -> CallFrameInstructionIter<'a, R>
        requires { IsCieOf R.position (Section.view section.now).position self.now }
        ensures left { instructions_left (instruction_reader R.position result)
            ≡ cie_instructions (section_of (Section.view section.now) bases.now)
            (cie_view R.position R.Offset.number self.now) }
        ensures within { ReadsIn (Section.view section.now).position
            (instruction_reader R.position result) }
    {
        instructions_in(
            section,
            bases,
            self.initial_instructions,
            None,
            self.address_size,
        )
    }
}
