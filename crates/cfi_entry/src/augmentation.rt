//! Augmentation strings and the data that they announce (LSB Core, "Augmentation String Format").
ghost use Rattle.std.specs.Prelude.{◌≤◌};
ghost use Rattle.cfi_read_core.specs.ReaderCalls.{ReadsBy, bytes_left};
ghost use Rattle.cfi_read_core.specs.CallFrameSections.{IsOf};
ghost use Rattle.cfi_entry.specs.Augmentations.{augmentation, letter, letters, letters_with_data};
ghost use Rattle.cfi_entry.specs.EntryViews.{augmentation_if_any, augmentation_view};
ghost use Rattle.cfi_entry.specs.EntryViews.{letter_context, position_in};

use crate::in_section::{InSection, pointers_in};
use cfi_parts::pointer::{parse_encoded_pointer, parse_pointer_encoding};
use cfi_read_core::address::AddressSize;
use cfi_read_core::reader::read_offset;
use cfi_read_core::section_properties::_UnwindSectionPrivate;
use cfi_read_core::{DwEhPe, Error, Reader, Result};

/// What an augmentation string and its data mean. Of a repeated letter the last counts.
#[derive(Clone, Copy, Debug, Default, PartialEq, Eq)]
pub struct Augmentation {
    // Flat, and with the small fields together, since a CIE is copied into each of its FDEs.
    // An entry whose string has no letter has no augmentation.
    pub(crate) has_letters: bool,
    pub(crate) has_augmentation_data: bool,
    pub(crate) is_signal_trampoline: bool,
    pub(crate) uses_b_key: bool,
    pub(crate) lsda_encoding: Option<DwEhPe>,
    pub(crate) fde_address_encoding: Option<DwEhPe>,
    pub(crate) personality_encoding: Option<DwEhPe>,
    // The value of the pointer, which is indirect where its encoding says so.
    pub(crate) personality: u64,
}

/// Reads what one letter means from the augmentation data, and adds it to what is known.
#[tactic(auto, unfolding(crate::specs::Augmentations::letter))]
#[inline(always)]
fn read_letter<R: Reader, S: _UnwindSectionPrivate<R>>(
    at: &InSection<'_, S>,
    address_size: AddressSize,
    byte: u8,
    known: &mut Augmentation,
    input: &mut R,
) -> Result<()>
    requires { (position_in S.view at.now).place ≤ (R.position input.old).place }
    ensures { ReadsBy R.position (λ _. augmentation_view known.new)
        (letter (letter_context S.view at.now address_size) byte (augmentation_view known.old))
        input.old result input.new }
{
    match byte {
        b'S' => known.is_signal_trampoline = true,
        b'B' => known.uses_b_key = true,
        _ if !known.has_augmentation_data => return Err(Error::UnknownAugmentation),
        b'L' => known.lsda_encoding = Some(parse_pointer_encoding(input)?),
        b'P' => {
            let encoding = parse_pointer_encoding(input)?;
            let parameters = pointers_in(&at.section, at.bases, None, address_size);
            let personality = parse_encoded_pointer(encoding, &parameters, input)?;
            known.personality = personality.pointer();
            known.personality_encoding = Some(encoding);
        }
        b'R' => known.fde_address_encoding = Some(parse_pointer_encoding(input)?),
        _ => return Err(Error::UnknownAugmentation),
    }
    Ok(())
}

/// Reads what the letters of a text mean from the augmentation data, and adds it to what is known.
#[inline(always)]
fn read_letters<R: Reader, S: _UnwindSectionPrivate<R>>(
    at: &InSection<'_, S>,
    address_size: AddressSize,
    text: R,
    known: &mut Augmentation,
    input: &mut R,
) -> Result<()>
    requires { (position_in S.view at.now).place ≤ (R.position input.old).place }
    ensures { ReadsBy R.position (λ _. augmentation_view known.new)
        (letters (letter_context S.view at.now address_size) (bytes_left (R.position text))
        (augmentation_view known.old))
        input.old result input.new }
{
    let mut text = text;
    while let Ok(byte) = text.read_u8() {
        read_letter(at, address_size, byte, known, input)?;
    }
    Ok(())
}

/// Reads the augmentation data, by the letters after the `z` that announces it. What the letters
/// leave of the data is skipped.
#[tactic(auto, unfolding(crate::specs::Augmentations::letters_with_data))]
#[inline(always)]
fn read_letters_with_data<R: Reader, S: _UnwindSectionPrivate<R>>(
    at: &InSection<'_, S>,
    address_size: AddressSize,
    letters: R,
    input: &mut R,
) -> Result<Augmentation>
    requires { IsOf (R.position input.old) (position_in S.view at.now) }
    ensures { ReadsBy R.position augmentation_if_any
        (letters_with_data (letter_context S.view at.now address_size)
        (bytes_left (R.position letters)))
        input.old result input.new }
{
    let length = read_offset(input)?;
    let mut data = input.split(length)?;
    let mut known = Augmentation::default();
    known.has_augmentation_data = true;
    read_letters(at, address_size, letters, &mut known, &mut data)?;
    known.has_letters = true;
    Ok(known)
}

/// Reads what an augmentation string means, and the data that it announces. An empty string is no
/// augmentation: the returned one has no letters.
///
/// Fails with `UnknownAugmentation` for an unknown letter, or one that needs data where no `z`
/// announces any, and with the error of the first part of the data that can't be read.
// Not inlined: with it the functions around would get so large that their hints are dropped.
#[inline(never)]
pub fn read_augmentation<R: Reader, S: _UnwindSectionPrivate<R>>(
    at: &InSection<'_, S>,
    address_size: AddressSize,
    text: R,
    input: &mut R,
) -> Result<Augmentation>
    requires { IsOf (R.position input.old) (position_in S.view at.now) }
    ensures { ReadsBy R.position augmentation_if_any
        (augmentation (letter_context S.view at.now address_size) (bytes_left (R.position text)))
        input.old result input.new }
{
    let mut letters = text;
    let Ok(first) = letters.read_u8() else {
        return Ok(Augmentation::default());
    };
    if first == b'z' {
        return read_letters_with_data(at, address_size, letters, input);
    }
    let mut known = Augmentation::default();
    read_letters(at, address_size, text, &mut known, input)?;
    known.has_letters = true;
    Ok(known)
}
