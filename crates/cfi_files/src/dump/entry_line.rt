//! The lines of entries.

use cfi_elf::FunctionNames;
use cfi_text::register_names::RegisterNames;
use cfi_text::text::Text;
use gimli_cfi::{CommonInformationEntry, DwEhPe, FrameDescriptionEntry, Pointer, Reader};

/// Appends the line of a CIE: its fields, and what its augmentation means.
pub(crate) fn put_cie<R: Reader<Offset = usize>>(
    text: &mut Text,
    names: RegisterNames,
    cie: &CommonInformationEntry<R>,
) {
    text.put(b"cie ");
    text.address(cie.offset() as u64);
    text.put(b" length=");
    text.number(cie.entry_len());
    text.put(b" version=");
    text.number(cie.version());
    text.put(b" size=");
    text.number(cie.address_size());
    text.put(b" code=");
    text.number(cie.code_alignment_factor());
    text.put(b" data=");
    text.number(cie.data_alignment_factor());
    text.put(b" return=");
    text.show(names.name(cie.return_address_register().0));
    put_augmentation(text, cie);
    text.put(b"\n");
}

/// Appends what the augmentation of a CIE means.
fn put_augmentation<R: Reader<Offset = usize>>(text: &mut Text, cie: &CommonInformationEntry<R>) {
    if let Some(encoding) = cie.fde_address_encoding() {
        text.put(b" addresses=");
        put_encoding(text, encoding);
    }
    if let Some(encoding) = cie.lsda_encoding() {
        text.put(b" lsda=");
        put_encoding(text, encoding);
    }
    if let Some((encoding, pointer)) = cie.personality_with_encoding() {
        text.put(b" personality=");
        put_encoding(text, encoding);
        text.put(b":");
        put_pointer(text, pointer);
    }
    if cie.is_signal_trampoline() {
        text.put(b" signal");
    }
    if cie.uses_b_key() {
        text.put(b" bkey");
    }
}

/// Appends how pointers are encoded.
fn put_encoding(text: &mut Text, encoding: DwEhPe) {
    text.address(u64::from(encoding.0));
}

/// Appends the address of a pointer; after a `*`, the place of the address.
fn put_pointer(text: &mut Text, pointer: Pointer) {
    match pointer {
        Pointer::Direct(address) => text.address(address),
        Pointer::Indirect(address) => {
            text.put(b"*");
            text.address(address);
        }
    }
}

/// Appends the line of an FDE: its fields, its addresses from the first up to the end, its LSDA,
/// and the name of the function that begins at the first address.
pub(crate) fn put_fde<R: Reader<Offset = usize>>(
    text: &mut Text,
    functions: &FunctionNames<'_>,
    fde: &FrameDescriptionEntry<R>,
) {
    put_fde_head(text, fde.offset(), fde.entry_len());
    text.put(b" cie=");
    text.address(fde.cie().offset() as u64);
    text.put(b" ");
    text.address(fde.initial_address());
    text.put(b" ");
    text.address(fde.end_address());
    if let Some(pointer) = fde.lsda() {
        text.put(b" lsda=");
        put_pointer(text, pointer);
    }
    if let Some(name) = functions.name_at(fde.initial_address()) {
        text.put(b" ");
        text.name(name);
    }
    text.put(b"\n");
}

/// Appends the line of an FDE of which no more could be read.
pub(crate) fn put_partial_fde(text: &mut Text, offset: usize, length: usize) {
    put_fde_head(text, offset, length);
    text.put(b"\n");
}

/// Appends the offset and the length of an FDE.
fn put_fde_head(text: &mut Text, offset: usize, length: usize) {
    text.put(b"fde ");
    text.address(offset as u64);
    text.put(b" length=");
    text.number(length);
}
