//! The identification of a file's build, which a note has (GNU ld's manual, "--build-id").
ghost use Rattle.std.specs.Prelude.{◌≡◌, option_map};
ghost use Rattle.cfi_read_core.specs.ReaderCalls.{map_ok};
ghost use Rattle.cfi_elf.specs.ElfFiles.{file_view};
ghost use Rattle.cfi_elf.specs.BuildIds.{build_id, build_id_among, build_id_in, build_id_of};
ghost use Rattle.cfi_elf.specs.BuildIds.{is_build_id};
ghost use Rattle.cfi_elf.specs.Notes.{note_view};
ghost use Rattle.cfi_elf.specs.SegmentLists.{segments_left};

use crate::constants::{NT_GNU_BUILD_ID, PT_NOTE};
use crate::elf_file::ElfFile;
use crate::error::ElfError;
use crate::notes::{Note, Notes};
use crate::program_header::ProgramHeader;
use crate::segment_list::Segments;

impl<'input> ElfFile<'input> {
    /// The identification of the file's build: what the first note of the name `GNU` and the type
    /// `NT_GNU_BUILD_ID` says, in the segments of type `PT_NOTE` in the order of their headers.
    /// Returns `None` where there is none. Of a segment whose notes are cut, those count that are
    /// whole.
    ///
    /// Fails with `ProgramEntrySize` or `ProgramTableOutOfBounds` for the program headers, with
    /// `SectionTableOutOfBounds` if their number is in section 0 and that goes past the file's end,
    /// and with `SegmentOutOfBounds`. Does not allocate.
    #[tactic(auto, unfolding(crate::specs::BuildIds::build_id))]
    pub fn build_id(&self) -> Result<Option<&'input [u8]>, ElfError>
        ensures { map_ok (option_map (λ id. id.now)) result ≡ build_id (file_view self.now) }
    {
        let headers = self.segments()?;
        self.build_id_among(headers)
    }

    /// The same of the segments of these headers.
    fn build_id_among(&self, headers: Segments<'input>) -> Result<Option<&'input [u8]>, ElfError>
        ensures { map_ok (option_map (λ id. id.now)) result
            ≡ build_id_among (file_view self.now) (segments_left headers.entry) }
    {
        for header in headers {
            if let Some(id) = self.build_id_of(&header)? {
                return Ok(Some(id));
            }
        }
        Ok(None)
    }

    /// The same of one segment.
    #[tactic(auto, unfolding(crate::specs::BuildIds::build_id_of))]
    fn build_id_of(&self, header: &ProgramHeader) -> Result<Option<&'input [u8]>, ElfError>
        ensures { map_ok (option_map (λ id. id.now)) result
            ≡ build_id_of (file_view self.now) header.now }
    {
        if header.p_type != PT_NOTE {
            return Ok(None);
        }
        let bytes = self.segment_bytes(header)?;
        Ok(build_id_in(Notes::new(bytes, self.endian())))
    }
}

/// What the first of the notes says that has an identification of the file's build.
fn build_id_in(notes: Notes<'_>) -> Option<&[u8]>
    ensures { option_map (λ id. id.now) result
        ≡ build_id_in notes.entry.big_endian notes.entry.bytes.now }
{
    for note in notes {
        match note {
            Ok(note) => {
                if is_build_id(&note) {
                    return Some(note.desc);
                }
            }
            Err(_) => return None,
        }
    }
    None
}

/// Whether the note has an identification of the file's build.
fn is_build_id(note: &Note<'_>) -> bool
    ensures { result ≡ is_build_id (note_view note.now) }
{
    note.kind == NT_GNU_BUILD_ID && note.name == b"GNU".as_slice()
}
