//! Notes (System V ABI chapter 5, "Note Section").
ghost use Rattle.std.specs.Prelude.{◌≡◌, ◌≤◌, ⊤, length, option_map};
ghost use Rattle.cfi_read_core.specs.ByteOrder.{is_big};
ghost use Rattle.cfi_read_core.specs.ReaderCalls.{map_ok};
ghost use Rattle.cfi_elf.specs.Notes.{IsNextNote, first_note, first_view, note_header, note_view};
ghost use Rattle.cfi_elf.specs.Notes.{notes_left, notes_of, padded};

use crate::bytes::{Record, bytes_from, first_bytes, until_zero};
use crate::error::ElfError;
use cfi_read_core::{Endianity, RunTimeEndian};
use std::alloc::AllocError;

/// The bytes of a note's header.
const NOTE_HEADER_SIZE: usize = 12;

/// A note: whose it is, what it is, and what it says.
#[derive(Copy, Debug)]
pub struct Note<'input> {
    /// The name of its owner, without the zero at its end.
    pub name: &'input [u8],
    /// What it is, by its owner (`n_type`).
    pub kind: u32,
    /// What it says.
    pub desc: &'input [u8],
}

impl Clone for Note<'_> {
    ghost is_clone = { λ x y. y ≡ x };

    ghost is_infallible = { λ _. ⊤ };

    #[inline(always)]
    fn clone(&self) -> Result<Self, AllocError> {
        Ok(*self)
    }
}

/// An iterator over notes, in their order. After an error or the end it returns nothing more.
#[derive(Copy, Debug)]
pub struct Notes<'input> {
    bytes: &'input [u8],
    big_endian: bool,
}

impl Clone for Notes<'_> {
    ghost is_clone = { λ x y. y ≡ x };

    ghost is_infallible = { λ _. ⊤ };

    #[inline(always)]
    fn clone(&self) -> Result<Self, AllocError> {
        Ok(*self)
    }
}

impl<'input> Notes<'input> {
    /// The notes that these bytes are, as those of a segment of type `PT_NOTE`. Their names and
    /// what they say are padded to a multiple of four bytes; after the last note the padding may
    /// be missing.
    pub fn new(bytes: &'input [u8], endian: RunTimeEndian) -> Self
        ensures { notes_left result ≡ notes_of (is_big endian) bytes.now }
    {
        Notes {
            bytes,
            big_endian: endian.is_big_endian(),
        }
    }

    /// Returns the next note, or `None` at the end.
    ///
    /// Fails with `NoteCut` where what is left is no whole note; after that it returns `None`. Does
    /// not allocate.
    pub fn next(&mut self) -> Result<Option<Note<'input>>, ElfError>
        ensures { IsNextNote (map_ok (option_map note_view) result)
            (notes_left self.old) (notes_left self.new) }
    {
        if self.bytes.is_empty() {
            return Ok(None);
        }
        match first_note(self.bytes, self.big_endian) {
            Some(found) => {
                self.bytes = found.others;
                Ok(Some(found.note))
            }
            None => {
                self.bytes = &[];
                Err(ElfError::NoteCut)
            }
        }
    }
}

impl<'input> Iterator for Notes<'input> {
    ghost use Rattle.std.specs.Iterator.{YieldsFirstBy, item_count};
    ghost use Rattle.cfi_elf.specs.Notes.{note_items};

    type Item = Result<Note<'input>, ElfError>;

    ghost next_gives = { YieldsFirstBy (map_ok note_view) (λ walk. note_items (notes_left walk)) };

    ghost remaining = { item_count (λ walk. note_items (notes_left walk)) };

    #[inline(always)]
    fn next(&mut self) -> Option<Result<Note<'input>, ElfError>> {
        Notes::next(self).transpose()
    }
}

/// A note's header.
#[derive(Clone, Copy, Debug)]
struct NoteHeader {
    n_namesz: u32,
    n_descsz: u32,
    n_type: u32,
}

/// The first note, and the bytes that follow.
#[derive(Clone, Copy, Debug)]
struct First<'input> {
    note: Note<'input>,
    others: &'input [u8],
}

/// Reads the first note of these bytes. Returns `None` where they have no whole one.
#[tactic(auto, unfolding(crate::specs::Notes::first_note))]
fn first_note(bytes: &[u8], big_endian: bool) -> Option<First<'_>>
    ensures { option_map first_view result ≡ first_note big_endian bytes.now }
{
    if bytes.len() < NOTE_HEADER_SIZE {
        return None;
    }
    let header = note_header(Record { bytes, big_endian });
    let names = bytes_from(bytes, 12);
    let name = first_bytes(names, header.n_namesz)?;
    let descs = bytes_from(names, padded(header.n_namesz));
    let desc = first_bytes(descs, header.n_descsz)?;
    Some(First {
        note: Note {
            name: until_zero(name),
            kind: header.n_type,
            desc,
        },
        others: bytes_from(descs, padded(header.n_descsz)),
    })
}

/// The header that these bytes begin with.
fn note_header(fields: Record<'_>) -> NoteHeader
    requires { 12 ≤ length fields.bytes.now }
    ensures { result ≡ note_header fields.entry.big_endian fields.entry.bytes.now }
{
    NoteHeader {
        n_namesz: fields.word(0),
        n_descsz: fields.word(4),
        n_type: fields.word(8),
    }
}

/// How many bytes there are with those that pad them to a multiple of four.
fn padded(size: u32) -> u64
    ensures { result ≡ padded size }
{
    (u64::from(size) + 3) / 4 * 4
}
