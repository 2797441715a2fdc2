//! Why a profile can't be read.
ghost use Rattle.std.specs.Prelude.{◌≡◌, Some};
ghost use Rattle.cfi_perf.specs.ErrorNames.{name_of_perf};
ghost use Rattle.cfi_perf.specs.ErrorTexts.{number_of_perf, sentence_of_perf, text_of_perf};

use std::fmt;

/// Why a profile, or a record of it, can't be read. `Display` writes one sentence, with the value
/// that the error carries if any.
#[derive(Clone, Copy, Debug, PartialEq, Eq)]
pub enum PerfError {
    /// The file doesn't begin with `PERFILE2`, in either byte order.
    NotPerf,
    /// Of a profile that was written to a pipe: the attributes of an event can't be read, or stand
    /// after another record.
    PipeMode,
    /// The file ends before its header does.
    HeaderCut,
    /// The header is neither that of a file nor that of a pipe. Carries its size.
    HeaderSize(u64),
    /// The samples are in other files of the folder (`HEADER_DIR_FORMAT`), as
    /// `perf record --threads` writes them.
    Directory,
    /// An event's attributes have too few bytes to say which registers its samples have, as before
    /// Linux 3.7. Carries `attr_size`.
    AttributeSize(u64),
    /// The events go past the end of the file.
    AttributesOutOfBounds,
    /// The profile has no events.
    NoEvents,
    /// The events differ in what their samples have in them.
    MixedEvents,
    /// The file ends before the records do.
    DataOutOfBounds,
    /// A section after the records goes past the end of the file.
    FeatureOutOfBounds,
    /// A record is smaller than its header. Carries its size.
    RecordSize(u16),
    /// A record goes past the end of the records, or its fields go past its end.
    RecordCut,
    /// Records are compressed (`PERF_RECORD_COMPRESSED`, `PERF_RECORD_COMPRESSED2`).
    Compressed,
}

impl fmt::Display for PerfError {
    ghost output = { λ error. Some (text_of_perf error) };

    fn fmt<W: fmt::Write>(&self, f: &mut fmt::Formatter<W>) -> fmt::Result {
        let sentence = self.sentence();
        match self.number() {
            Some(number) => write!(f, "{sentence}{number}"),
            None => f.write_str(sentence),
        }
    }
}

impl std::error::Error for PerfError {}

impl PerfError {
    /// The name of the variant.
    pub fn name(&self) -> &'static str
        ensures { result.now ≡ name_of_perf self.now }
    {
        match self {
            PerfError::NotPerf => "NotPerf",
            PerfError::PipeMode => "PipeMode",
            PerfError::HeaderCut => "HeaderCut",
            PerfError::HeaderSize(_) => "HeaderSize",
            PerfError::Directory => "Directory",
            PerfError::AttributeSize(_) => "AttributeSize",
            PerfError::AttributesOutOfBounds => "AttributesOutOfBounds",
            PerfError::NoEvents => "NoEvents",
            PerfError::MixedEvents => "MixedEvents",
            PerfError::DataOutOfBounds => "DataOutOfBounds",
            PerfError::FeatureOutOfBounds => "FeatureOutOfBounds",
            PerfError::RecordSize(_) => "RecordSize",
            PerfError::RecordCut => "RecordCut",
            PerfError::Compressed => "Compressed",
        }
    }

    /// The value that the error carries, if any.
    fn number(&self) -> Option<u64>
        ensures { result ≡ number_of_perf self.now }
    {
        match *self {
            PerfError::HeaderSize(size) | PerfError::AttributeSize(size) => Some(size),
            PerfError::RecordSize(size) => Some(u64::from(size)),
            _ => None,
        }
    }

    /// The sentence, up to the value if there is one.
    fn sentence(&self) -> &'static str
        ensures { result.now ≡ sentence_of_perf self.now }
    {
        match self {
            PerfError::NotPerf => "not a profile of perf record",
            PerfError::PipeMode => "a pipe whose events don't stand first",
            PerfError::HeaderCut => "the profile ends in its header",
            PerfError::HeaderSize(_) => "a header of size ",
            PerfError::Directory => "the samples are in other files of the folder",
            PerfError::AttributeSize(_) => "events of size ",
            PerfError::AttributesOutOfBounds => "the events go past the file's end",
            PerfError::NoEvents => "the profile has no events",
            PerfError::MixedEvents => "the events' samples have different fields",
            PerfError::DataOutOfBounds => "the file ends before the records do",
            PerfError::FeatureOutOfBounds => "a feature goes past the file's end",
            PerfError::RecordSize(_) => "a record of size ",
            PerfError::RecordCut => "a record ends in its fields",
            PerfError::Compressed => "the records are compressed",
        }
    }
}
