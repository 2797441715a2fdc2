//! The entries of a section in order, their instructions, and the rows of each FDE.
ghost use Rattle.std.specs.Prelude.{◌≡◌, IfOk, Ok};
ghost use Rattle.cfi_read_core.specs.ReaderCalls.{map_ok};
ghost use Rattle.cfi_entry.specs.EntryViews.{IsCieOf};
ghost use Rattle.cfi_entry.specs.Sections.{section_of};
ghost use Rattle.cfi_unwind.specs.CachedCie.{IsCacheOf};
ghost use Rattle.cfi_unwind.specs.FdeViews.{HasCieOf, IsFdeOf, fde_view};
ghost use Rattle.cfi_unwind.specs.WalkViews.{IsEntryOf, IsPartialOf, partial_view};
ghost use Rattle.cfi_unwind.specs.Scan.{read_fde};
ghost use Rattle.cfi_files.specs.Sending.{Grows};

use crate::dump::advances::address_after;
use crate::dump::entry_line::{put_cie, put_fde, put_partial_fde};
use crate::dump::fde_rows::write_rows;
use crate::dump::instruction_words::put_instruction;
use crate::dump::lines::{write_if_full, write_refused};
use crate::dump::walk::Walk;
use cfi_elf::FunctionNames;
use cfi_entry::cie::address_size_of;
use cfi_entry::in_section::InSection;
use cfi_row_text::refusal_text::put_refusal_told;
use cfi_row_text::style::Style;
use cfi_text::register_names::RegisterNames;
use cfi_text::style::Format;
use cfi_text::text::Text;
use gimli_cfi::{
    _UnwindSectionPrivate, BaseAddresses, CallFrameInstructionIter, CieCache, CieOrFde,
    CommonInformationEntry, FrameDescriptionEntry, PartialFrameDescriptionEntry, Reader, Result,
    UnwindSection,
};
use std::io;
use std::io::Write;

/// Adds for each entry in order its line, those of its instructions, and after those of an FDE its
/// rows.
///
/// An error has a line of its own: in place of an entry or an instruction that can't be read, after
/// which there are no more; after the line of an FDE that can't be read whole; where the
/// instructions of an FDE's CIE fail; and among the rows, which then continue as `next_row` does.
pub(crate) fn write_entries<R: Reader<Offset = usize>, S: UnwindSection<R>, W: Write>(
    output: &mut W,
    walk: &mut Walk,
    names: RegisterNames,
    functions: &FunctionNames<'_>,
    at: &InSection<'_, S>,
) -> io::Result<()>
    ensures { Grows (W.contents output.old) (W.contents output.new) }
{
    let mut cies: CieCache<R> = CieCache::new();
    for entry in at.section.entries(at.bases) {
        write_entry(output, walk, &mut cies, names, functions, at, entry)?;
    }
    Ok(())
}

/// Adds the lines of an entry, or of the error in its place.
fn write_entry<R: Reader<Offset = usize>, S: UnwindSection<R>, W: Write>(
    output: &mut W,
    walk: &mut Walk,
    cies: &mut CieCache<R>,
    names: RegisterNames,
    functions: &FunctionNames<'_>,
    at: &InSection<'_, S>,
    entry: Result<CieOrFde<'_, S, R>>,
) -> io::Result<()>
    requires entry { IfOk entry (IsEntryOf S.view R.position at.now.section at.now.bases.now) }
    requires cies { IsCacheOf R.position (λ n. n) (S.view at.now.section) at.now.bases.now
        cies.old }
    ensures written { Grows (W.contents output.old) (W.contents output.new) }
    ensures cies { IsCacheOf R.position (λ n. n) (S.view at.now.section) at.now.bases.now
        cies.new }
{
    match entry {
        Ok(CieOrFde::Cie(cie)) => write_cie(output, &mut walk.text, names, at, &cie),
        Ok(CieOrFde::Fde(partial)) => {
            write_partial_fde(output, walk, cies, names, functions, at, &partial)
        }
        Err(error) => write_refused(output, &mut walk.text, Format::Text, error),
    }
}

/// Adds the line of a CIE and those of its initial instructions.
fn write_cie<R: Reader<Offset = usize>, S: UnwindSection<R>, W: Write>(
    output: &mut W,
    text: &mut Text,
    names: RegisterNames,
    at: &InSection<'_, S>,
    cie: &CommonInformationEntry<R>,
) -> io::Result<()>
    requires { IsCieOf R.position (S.view at.now.section).position cie.now }
    ensures { Grows (W.contents output.old) (W.contents output.new) }
{
    put_cie(text, names, cie);
    let instructions = cie.instructions(&at.section, at.bases);
    write_instructions(output, text, names, &at.section, cie, None, instructions)
}

/// Adds the lines of the FDE, of its instructions and of its rows; or, where it can't be read
/// whole, what is known of it and why.
fn write_partial_fde<R: Reader<Offset = usize>, S: UnwindSection<R>, W: Write>(
    output: &mut W,
    walk: &mut Walk,
    cies: &mut CieCache<R>,
    names: RegisterNames,
    functions: &FunctionNames<'_>,
    at: &InSection<'_, S>,
    partial: &PartialFrameDescriptionEntry<'_, S, R>,
) -> io::Result<()>
    requires of { IsPartialOf at.now.section at.now.bases.now partial.now }
    requires cies { IsCacheOf R.position (λ n. n) (S.view at.now.section) at.now.bases.now
        cies.old }
    ensures written { Grows (W.contents output.old) (W.contents output.new) }
    ensures cies { IsCacheOf R.position (λ n. n) (S.view at.now.section) at.now.bases.now
        cies.new }
{
    match whole(cies, &at.section, at.bases, partial) {
        Ok(fde) => write_fde(output, walk, names, functions, at, &fde),
        Err(error) => {
            put_partial_fde(&mut walk.text, partial.offset(), partial.entry_len());
            write_refused(output, &mut walk.text, Format::Text, error)
        }
    }
}

/// Adds the line of an FDE, those of its instructions and those of its rows.
fn write_fde<R: Reader<Offset = usize>, S: UnwindSection<R>, W: Write>(
    output: &mut W,
    walk: &mut Walk,
    names: RegisterNames,
    functions: &FunctionNames<'_>,
    at: &InSection<'_, S>,
    fde: &FrameDescriptionEntry<R>,
) -> io::Result<()>
    requires own { IsFdeOf R.position (S.view at.now.section).position fde.now }
    requires cie { HasCieOf R.position (S.view at.now.section).position fde.now }
    ensures { Grows (W.contents output.old) (W.contents output.new) }
{
    put_fde(&mut walk.text, functions, fde);
    let start = Some(fde.initial_address());
    let instructions = fde.instructions(&at.section, at.bases);
    write_instructions(
        output,
        &mut walk.text,
        names,
        &at.section,
        fde.cie(),
        start,
        instructions,
    )?;
    let format = Format::Text;
    write_rows(output, walk, Style { names, format }, at, fde)
}

/// Adds a line for each instruction that is left of an entry with this CIE, from an address on; and
/// after the last one the line of the error with which they end, if there is one. The section has
/// the expressions.
fn write_instructions<R: Reader<Offset = usize>, S: UnwindSection<R>, W: Write>(
    output: &mut W,
    text: &mut Text,
    names: RegisterNames,
    section: &S,
    cie: &CommonInformationEntry<R>,
    start: Option<u64>,
    instructions: CallFrameInstructionIter<'_, R>,
) -> io::Result<()>
    ensures { Grows (W.contents output.old) (W.contents output.new) }
{
    let factor = cie.code_alignment_factor();
    let size = address_size_of(cie);
    let mut at = start;
    for instruction in instructions {
        match instruction {
            Ok(instruction) => {
                at = address_after(factor, size, at, instruction);
                text.put(b"  ");
                put_instruction(text, names, section, at, instruction);
                text.put(b"\n");
            }
            Err(error) => put_refusal_told(text, Format::Text, error),
        }
        write_if_full(output, text)?;
    }
    Ok(())
}

/// Returns the whole FDE, with its CIE in the section. FDEs in a row mostly point to one CIE, which
/// is then read once.
pub(crate) fn whole<R: Reader, S: UnwindSection<R>>(
    cies: &mut CieCache<R>,
    section: &S,
    bases: &BaseAddresses,
    partial: &PartialFrameDescriptionEntry<'_, S, R>,
) -> Result<FrameDescriptionEntry<R>>
    requires of { IsPartialOf section.now bases.now partial.now }
    requires cies { IsCacheOf R.position R.Offset.number (S.view section.now) bases.now cies.old }
    ensures read { map_ok (fde_view R.position R.Offset.number) result
        ≡ read_fde (section_of (S.view section.now) bases.now)
        (partial_view R.position R.Offset.number partial.now) }
    ensures part { IfOk result (IsFdeOf R.position (S.view section.now).position) }
    ensures cie_part { IfOk result (HasCieOf R.position (S.view section.now).position) }
    ensures cies { IsCacheOf R.position R.Offset.number (S.view section.now) bases.now cies.new }
{
    let cie = cies.get(section, bases, partial.cie_offset())?;
    partial.parse(
        |_from: &S, _bases: &BaseAddresses, _offset: S::Offset|
            ensures { result ≡ Ok cie }
        { Ok(cie) },
    )
}
