//! The header of a profile (`perf.data-file-format.txt`).
ghost use Rattle.std.specs.Prelude.{◌≡◌};
ghost use Rattle.cfi_read_core.specs.ReaderCalls.{ReadsValue};
ghost use Rattle.cfi_perf.specs.FileHeaders.{byte_order, feature_bits, file_header, file_section};
ghost use Rattle.cfi_perf.specs.FileHeaders.{header_fields, in_one_file};

use crate::bytes::bytes_from;
use crate::error::PerfError;
use cfi_read_core::{EndianSlice, Reader, Result, RunTimeEndian};

/// The size of the header of a file.
pub(crate) const FILE_HEADER_SIZE: u64 = 104;

/// The size of the header of a pipe.
pub(crate) const PIPE_HEADER_SIZE: u64 = 16;

/// The feature bit of a profile in several files of a folder.
const HEADER_DIR_FORMAT: u64 = 1 << 24;

/// A part of the file.
#[derive(Clone, Copy, Debug, PartialEq, Eq)]
pub(crate) struct FileSection {
    pub(crate) offset: u64,
    pub(crate) size: u64,
}

/// The header after its magic number and its size.
#[derive(Clone, Copy, Debug, PartialEq, Eq)]
pub(crate) struct FileHeader {
    /// The size of an event.
    pub(crate) attr_size: u64,
    /// Where the events are.
    pub(crate) attrs: FileSection,
    /// Where the records are.
    pub(crate) records: FileSection,
    /// Which sections stand after the records.
    pub(crate) features: u64,
}

/// Returns the byte order of the file that these bytes are. Fails with `NotPerf`.
pub(crate) fn byte_order(bytes: &[u8]) -> std::result::Result<RunTimeEndian, PerfError>
    ensures { result ≡ byte_order bytes.now }
{
    if bytes.starts_with(b"PERFILE2") {
        Ok(RunTimeEndian::Little)
    } else if bytes.starts_with(b"2ELIFREP") {
        Ok(RunTimeEndian::Big)
    } else {
        Err(PerfError::NotPerf)
    }
}

/// Returns what the header says. Fails with `HeaderCut`, `HeaderSize` or `Directory`.
#[tactic(auto, unfolding(crate::specs::FileHeaders::file_header))]
pub(crate) fn file_header(
    endian: RunTimeEndian,
    bytes: &[u8],
) -> std::result::Result<FileHeader, PerfError>
    ensures { result ≡ file_header endian bytes.now }
{
    let mut sizes = EndianSlice::new(bytes_from(bytes, 8), endian);
    let Ok(size) = sizes.read_u64() else {
        return Err(PerfError::HeaderCut);
    };
    if size != FILE_HEADER_SIZE {
        return Err(PerfError::HeaderSize(size));
    }
    let mut fields = EndianSlice::new(bytes_from(bytes, 16), endian);
    match read_header_fields(&mut fields) {
        Ok(header) => of_one_file(header),
        Err(_) => Err(PerfError::HeaderCut),
    }
}

/// Returns the header, if the samples are in its file. Fails with `Directory`.
fn of_one_file(header: FileHeader) -> std::result::Result<FileHeader, PerfError>
    ensures { result ≡ in_one_file header }
{
    if header.features & HEADER_DIR_FORMAT == 0 {
        Ok(header)
    } else {
        Err(PerfError::Directory)
    }
}

/// Reads the fields that come after the size of the header.
#[tactic(auto, unfolding(crate::specs::FileHeaders::header_fields))]
fn read_header_fields<R: Reader>(input: &mut R) -> Result<FileHeader>
    ensures { ReadsValue R.position header_fields input.old result input.new }
{
    let attr_size = input.read_u64()?;
    let attrs = read_file_section(input)?;
    let records = read_file_section(input)?;
    let _event_types = read_file_section(input)?;
    let features = read_feature_bits(input)?;
    Ok(FileHeader {
        attr_size,
        attrs,
        records,
        features,
    })
}

/// Reads where a part of the file is.
#[tactic(auto, unfolding(crate::specs::FileHeaders::file_section))]
pub(crate) fn read_file_section<R: Reader>(input: &mut R) -> Result<FileSection>
    ensures { ReadsValue R.position file_section input.old result input.new }
{
    let offset = input.read_u64()?;
    let size = input.read_u64()?;
    Ok(FileSection { offset, size })
}

/// Reads the feature bits, and returns the first 64 of them.
#[tactic(auto, unfolding(crate::specs::FileHeaders::feature_bits))]
fn read_feature_bits<R: Reader>(input: &mut R) -> Result<u64>
    ensures { ReadsValue R.position feature_bits input.old result input.new }
{
    let features = input.read_u64()?;
    let _from_64 = input.read_u64()?;
    let _from_128 = input.read_u64()?;
    let _from_192 = input.read_u64()?;
    Ok(features)
}
