//! The files that were mapped, as a note of the type `NT_FILE` has them.
ghost use Rattle.std.specs.Prelude.{◌≡◌, ◌≤◌, ⊤, IfOk, length, option_map};
ghost use Rattle.cfi_elf.specs.Fields.{entries};
ghost use Rattle.cfi_cores.specs.MappedFiles.{file_table, files_in, mappings_view, mapping_by};
ghost use Rattle.cfi_cores.specs.MappedFiles.{mapping_view, mappings, file_table_view};

use cfi_elf::bytes::{Record, before_zero, bytes_from, entry, part, size_of};
use std::alloc::{AllocError, Global};

/// The bytes of an entry: the first address, the first address behind the last, and the offset in
/// the file in pages.
const ENTRY_SIZE: u64 = 24;

/// A part of a file that was mapped.
#[derive(Copy, Debug)]
pub struct CoreMapping<'run> {
    /// The first address.
    pub start: u64,
    /// The first address after it.
    pub end: u64,
    /// The place in the file of the byte at `start`, in bytes, counted modulo 2^64.
    pub offset: u64,
    /// The name of the file.
    pub name: &'run [u8],
}

impl Clone for CoreMapping<'_> {
    ghost is_clone = { λ x y. y ≡ x };

    ghost is_infallible = { λ _. ⊤ };

    #[inline(always)]
    fn clone(&self) -> Result<Self, AllocError> {
        Ok(*self)
    }
}

/// What an `NT_FILE` has: the bytes of a page, the entries, and the names.
#[derive(Clone, Copy)]
struct FileTable<'run> {
    page_size: u64,
    entries: &'run [u8],
    names: &'run [u8],
}

/// The files of which these bytes tell, in their order; `None` where the bytes end before the
/// entries or the names do. Fails where memory is refused.
#[tactic(auto, unfolding(crate::specs::MappedFiles::files_in))]
pub(crate) fn files_in<'run>(
    alloc: Global,
    desc: &'run [u8],
) -> Result<Option<Vec<CoreMapping<'run>>>, AllocError>
    ensures { IfOk result (λ found. option_map mappings_view found ≡ files_in desc.now) }
{
    let Some(table) = file_table(desc) else {
        return Ok(None);
    };
    mappings(alloc, table)
}

/// The entries and the names.
#[tactic(auto, unfolding(crate::specs::MappedFiles::file_table))]
fn file_table(desc: &[u8]) -> Option<FileTable<'_>>
    ensures { option_map file_table_view result ≡ file_table desc.now }
{
    if desc.len() < 16 {
        return None;
    }
    let fields = Record {
        bytes: desc,
        big_endian: false,
    };
    let size = size_of(fields.xword(0), ENTRY_SIZE, desc.len() as u64)?;
    let entries = part(desc, 16, size)?;
    Some(FileTable {
        page_size: fields.xword(8),
        entries,
        names: bytes_from(bytes_from(desc, 16), size),
    })
}

/// The mappings of the entries, whose names follow one another, each with a zero at its end.
fn mappings<'run>(
    alloc: Global,
    table: FileTable<'run>,
) -> Result<Option<Vec<CoreMapping<'run>>>, AllocError>
    ensures { IfOk result (λ found. option_map mappings_view found
        ≡ mappings table.entry.page_size (entries 24 table.entry.entries.now)
        table.entry.names.now) }
{
    let mut list = Vec::new(alloc);
    let mut names = table.names;
    for index in 0..table.entries.len() {
        let Some(fields) = entry(table.entries, ENTRY_SIZE, index) else {
            return Ok(Some(list));
        };
        let Some(name) = before_zero(names) else {
            return Ok(None);
        };
        list.push(mapping_by(table.page_size, fields, name))?;
        names = bytes_from(names, name.len() as u64 + 1);
    }
    Ok(Some(list))
}

/// The mapping of an entry, whose file has this name.
fn mapping_by<'run>(page_size: u64, fields: &[u8], name: &'run [u8]) -> CoreMapping<'run>
    requires { 24 ≤ length fields.now }
    ensures { mapping_view result ≡ mapping_by page_size fields.now name.now }
{
    let fields = Record {
        bytes: fields,
        big_endian: false,
    };
    CoreMapping {
        start: fields.xword(0),
        end: fields.xword(8),
        offset: fields.xword(16).wrapping_mul(page_size),
        name,
    }
}
