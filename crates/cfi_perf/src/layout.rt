//! What the samples of an event have in them (perf_event_open(2), `sample_type`).
ghost use Rattle.std.specs.Prelude.{◌≡◌};
ghost use Rattle.cfi_perf.specs.Layouts.{both_identified, has, has_any, same_layout};

pub(crate) const PERF_SAMPLE_IP: u64 = 1 << 0;

pub(crate) const PERF_SAMPLE_TID: u64 = 1 << 1;

pub(crate) const PERF_SAMPLE_TIME: u64 = 1 << 2;

pub(crate) const PERF_SAMPLE_ADDR: u64 = 1 << 3;

pub(crate) const PERF_SAMPLE_READ: u64 = 1 << 4;

pub(crate) const PERF_SAMPLE_CALLCHAIN: u64 = 1 << 5;

pub(crate) const PERF_SAMPLE_ID: u64 = 1 << 6;

pub(crate) const PERF_SAMPLE_CPU: u64 = 1 << 7;

pub(crate) const PERF_SAMPLE_PERIOD: u64 = 1 << 8;

pub(crate) const PERF_SAMPLE_STREAM_ID: u64 = 1 << 9;

pub(crate) const PERF_SAMPLE_RAW: u64 = 1 << 10;

pub(crate) const PERF_SAMPLE_BRANCH_STACK: u64 = 1 << 11;

pub(crate) const PERF_SAMPLE_REGS_USER: u64 = 1 << 12;

pub(crate) const PERF_SAMPLE_STACK_USER: u64 = 1 << 13;

pub(crate) const PERF_SAMPLE_IDENTIFIER: u64 = 1 << 16;

/// What the samples and the other records of an event have in them.
#[derive(Clone, Copy, Debug, PartialEq, Eq)]
pub struct EventLayout {
    /// The fields of a sample (`PERF_SAMPLE_IP` and others).
    pub sample_type: u64,
    /// How many events a sample stands for that doesn't say so itself; a frequency where the kernel
    /// chooses how many (`freq`), which samples then say.
    pub sample_period: u64,
    /// The parts of a count (`PERF_FORMAT_ID` and others).
    pub read_format: u64,
    /// Whether records other than samples end with their thread and time too.
    pub sample_id_all: bool,
    /// Which branches a sample has (`PERF_SAMPLE_BRANCH_HW_INDEX` and others).
    pub branch_sample_type: u64,
    /// Which registers a sample has, by the bits of their numbers.
    pub sample_regs_user: u64,
}

impl EventLayout {
    /// Whether the samples have this (`PERF_SAMPLE_IP` and others).
    #[inline(always)]
    pub(crate) fn has(&self, bits: u64) -> bool
        ensures { result ≡ has bits self.now }
    {
        has_any(bits, self.sample_type)
    }

    /// Returns whether samples by both layouts have the same fields.
    pub(crate) fn is_same(&self, other: &EventLayout) -> bool
        ensures { result ≡ same_layout self.now other.now }
    {
        self.sample_type == other.sample_type
            && self.read_format == other.read_format
            && self.sample_id_all == other.sample_id_all
            && self.branch_sample_type == other.branch_sample_type
            && self.sample_regs_user == other.sample_regs_user
    }

    /// Returns whether records of both layouts say at a place that doesn't depend on the layout
    /// which of them they have.
    pub(crate) fn are_identified(&self, other: &EventLayout) -> bool
        ensures { result ≡ both_identified self.now other.now }
    {
        self.has(PERF_SAMPLE_IDENTIFIER)
            && other.has(PERF_SAMPLE_IDENTIFIER)
            && self.sample_id_all == other.sample_id_all
    }
}

/// Whether one of these bits is set.
#[inline(always)]
pub(crate) fn has_any(bits: u64, number: u64) -> bool
    ensures { result ≡ has_any bits number }
{
    number & bits != 0
}
