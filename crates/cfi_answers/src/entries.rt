//! The entries of a section.
ghost use Rattle.std.specs.Prelude.{IfOk};
ghost use Rattle.cfi_read_core.specs.CallFrameSections.{IsOf};

use crate::answers::Answers;
use gimli_cfi::{
    BaseAddresses, CieOrFde, FrameDescriptionEntry, PartialFrameDescriptionEntry, Reader,
    ReaderOffset, Result, UnwindSection,
};

/// Each entry, and each FDE with its CIE. After an error the entries are asked once more.
pub fn put_entries<R: Reader, S: UnwindSection<R>>(
    section: &S,
    bases: &BaseAddresses,
    answers: &mut Answers<'_>,
) {
    let mut entries = section.entries(bases);
    for _ in 0..u64::MAX {
        match entries.next() {
            Ok(None) => break,
            Ok(Some(entry)) => put_entry(entry, answers),
            Err(error) => answers.put_error(error),
        }
    }
    answers.put_end();
}

fn put_entry<R: Reader, S: UnwindSection<R>>(entry: CieOrFde<'_, S, R>, answers: &mut Answers<'_>) {
    match entry {
        CieOrFde::Cie(cie) => answers.put_cie(&cie),
        CieOrFde::Fde(partial) => {
            put_partial(&partial, answers);
            put_fde(&partial, answers);
        }
    }
}

fn put_partial<R: Reader, S: UnwindSection<R>>(
    partial: &PartialFrameDescriptionEntry<'_, S, R>,
    answers: &mut Answers<'_>,
) {
    let offset = partial.offset().into_u64();
    answers.put_partial(offset, partial.entry_len().into_u64());
}

fn put_fde<R: Reader, S: UnwindSection<R>>(
    partial: &PartialFrameDescriptionEntry<'_, S, R>,
    answers: &mut Answers<'_>,
) {
    match whole(partial) {
        Ok(fde) => answers.put_fde(&fde),
        Err(error) => answers.put_error(error),
    }
}

/// The whole FDE, with its CIE in the section.
pub fn whole<R: Reader, S: UnwindSection<R>>(
    partial: &PartialFrameDescriptionEntry<'_, S, R>,
) -> Result<FrameDescriptionEntry<R>>
    ensures part { IfOk result (λ fde.
        IsOf (R.position fde.instructions) (S.view partial.now.section).position) }
    ensures cie_part { IfOk result (λ fde.
        IsOf (R.position fde.cie.initial_instructions) (S.view partial.now.section).position) }
{
    let reader = partial.offset();
    partial.parse(|from: &S, bases: &BaseAddresses, offset: S::Offset| {
        let _reader = reader;
        from.cie_from_offset(bases, offset)
    })
}
