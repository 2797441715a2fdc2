//! A sample as it was taken.
use cfi_mapped::Name;
use cfi_perf::Sample;
use cfi_processes::process_code::ProcessCode;

/// A sample, with what was known of its process and its thread when it was taken.
#[derive(Drop)]
pub struct TakenSample<'a, 'files, 'run> {
    /// What is mapped as code of the kernel (`KERNEL`).
    pub kernel: ProcessCode<'a, 'files, 'run>,
    /// What is mapped in the process.
    pub code: ProcessCode<'a, 'files, 'run>,
    /// The name of the thread, if one is known.
    pub name: Option<Name<'a>>,
    /// In nanoseconds.
    pub time: u64,
    pub sample: Sample<'a>,
}
