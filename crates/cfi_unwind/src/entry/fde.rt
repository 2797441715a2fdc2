//! Frame description entries (DWARF 5 section 6.4.1; LSB Core, "The Frame Description Entry
//! Format").
ghost use Rattle.std.specs.Prelude.{◌≡◌, IfOk, ⊤};
ghost use Rattle.std.specs.Option.{option_map};
ghost use Rattle.cfi_read_core.specs.ReaderCalls.{map_ok};
ghost use Rattle.cfi_entry.specs.Augmentations.{is_trampoline, personality_of};
ghost use Rattle.cfi_entry.specs.Fdes.{covers, end_of, fde_after};
ghost use Rattle.cfi_entry.specs.EntryViews.{IsPrefixOf, cie_view, position_in, prefix_view};
ghost use Rattle.cfi_entry.specs.EntryViews.{section_in};
ghost use Rattle.cfi_unwind.specs.FdeViews.{IsFdeOf, fde_cie, fde_view};

use cfi_entry::cie::{CieFields, CommonInformationEntry, address_size_of};
use cfi_entry::fde_reads::{read_addresses, read_lsda};
use cfi_entry::in_section::InSection;
use cfi_entry::prefix::EntryPrefix;
use cfi_parts::pointer::Pointer;
use cfi_read_core::section_properties::_UnwindSectionPrivate;
use cfi_read_core::{Reader, ReaderAddress, Result};
use std::alloc::AllocError;

/// A frame description entry, generic over its reader and the reader's offsets.
#[derive(Copy, Debug, PartialEq, Eq)]
pub struct FdeFields<R, O> {
    pub(crate) cie: CieFields<R, O>,
    pub(crate) offset: O,
    pub(crate) length: O,
    pub(crate) initial_address: u64,
    pub(crate) address_range: u64,
    pub(crate) lsda: Option<Pointer>,
    pub(crate) instructions: R,
}

impl<R: Copy, O: Copy> Clone for FdeFields<R, O> {
    ghost is_clone = { λ x y. y ≡ x };

    ghost is_infallible = { λ _. ⊤ };

    #[inline(always)]
    fn clone(&self) -> std::result::Result<Self, AllocError> {
        Ok(*self)
    }
}

/// A frame description entry: the instructions for a range of addresses.
pub type FrameDescriptionEntry<R> = FdeFields<R, <R as Reader>::Offset>;

/// Reads the FDE whose prefix was read, with its CIE.
///
/// Fails as `read_addresses`, and then as `read_lsda`.
#[tactic(auto, unfolding(cfi_entry::specs::Fdes::fde_fields))]
#[inline(always)]
pub(crate) fn read_fde<R: Reader, S: _UnwindSectionPrivate<R>>(
    at: &InSection<'_, S>,
    found: &EntryPrefix<R, R::Offset>,
    cie: &CommonInformationEntry<R>,
) -> Result<FrameDescriptionEntry<R>>
    requires { IsPrefixOf R.position (position_in S.view at.now) found.now }
    ensures read { map_ok (fde_view R.position R.Offset.number) result
        ≡ fde_after (section_in S.view at.now) (prefix_view R.position R.Offset.number found.now)
        (cie_view R.position R.Offset.number cie.now) }
    ensures part { IfOk result (IsFdeOf R.position (position_in S.view at.now)) }
    ensures cie { IfOk result (λ fde. fde_cie fde ≡ cie.now) }
{
    let mut input = found.rest;
    let encoding = cie.fde_address_encoding();
    let address_size = address_size_of(cie);
    let (initial_address, address_range) = read_addresses(at, address_size, encoding, &mut input)?;
    let lsda = read_lsda(at, cie, initial_address, &mut input)?;
    Ok(FdeFields {
        offset: found.offset,
        length: found.length,
        cie: *cie,
        initial_address,
        address_range,
        lsda,
        instructions: input,
    })
}

impl<R: Reader> FrameDescriptionEntry<R> {
    /// Returns the offset in the section at which the entry begins.
    #[inline(always)]
    pub fn offset(&self) -> R::Offset
        ensures { R.Offset.number result ≡ (fde_view R.position R.Offset.number self.now).offset }
    {
        self.offset
    }

    /// Returns the entry's CIE.
    #[inline(always)]
    pub fn cie(&self) -> &CommonInformationEntry<R>
        ensures { result.now ≡ fde_cie self.now }
    {
        &self.cie
    }

    /// Returns the value of the entry's length field.
    #[inline(always)]
    pub fn entry_len(&self) -> R::Offset
        ensures { R.Offset.number result ≡ (fde_view R.position R.Offset.number self.now).length }
    {
        self.length
    }

    /// Returns the first address of the entry.
    #[inline(always)]
    pub fn initial_address(&self) -> u64
        ensures { result ≡ (fde_view R.position R.Offset.number self.now).initial }
    {
        self.initial_address
    }

    /// Returns how many addresses the entry says it has.
    #[inline(always)]
    pub fn len(&self) -> u64
        ensures { result ≡ (fde_view R.position R.Offset.number self.now).range }
    {
        self.address_range
    }

    /// Returns the pointer to the language-specific data. A pointer of value 0 is still `Some`.
    #[inline(always)]
    pub fn lsda(&self) -> Option<Pointer>
        ensures { result ≡ (fde_view R.position R.Offset.number self.now).lsda }
    {
        self.lsda
    }

    /// Returns whether the entry is a signal trampoline, as its CIE says.
    #[inline(always)]
    pub fn is_signal_trampoline(&self) -> bool
        ensures { result
            ≡ is_trampoline (fde_view R.position R.Offset.number self.now).cie.augmentation }
    {
        self.cie().is_signal_trampoline()
    }

    /// Returns the pointer to the personality routine, which the CIE has.
    #[inline(always)]
    pub fn personality(&self) -> Option<Pointer>
        ensures { result ≡ option_map (λ p. p.1) (personality_of
            (fde_view R.position R.Offset.number self.now).cie.augmentation) }
    {
        self.cie().personality()
    }

    /// Returns the first address after the entry's addresses. The end wraps at the size of an
    /// address, which is that of the CIE.
    #[inline(always)]
    pub fn end_address(&self) -> u64
        ensures { result ≡ end_of (fde_view R.position R.Offset.number self.now) }
    {
        self.initial_address
            .wrapping_add_sized(self.address_range, self.cie.address_size())
    }

    /// Returns whether the address is in the entry. An entry whose end wraps to its initial address
    /// or below has none.
    #[inline(always)]
    pub fn contains(&self, address: u64) -> bool
        ensures { result ≡ covers (fde_view R.position R.Offset.number self.now) address }
    {
        self.initial_address <= address && address < self.end_address()
    }
}
