//! What a record says (perf_event_open(2), "MMAP layout").
ghost use Rattle.std.specs.Prelude.{◌≡◌, ⊤};

use crate::sample::Sample;
use std::alloc::AllocError;

/// A record of a profile.
#[derive(Copy, Debug)]
pub struct Record<'input> {
    /// When it was made, in nanoseconds of the profile's clock; 0 where it doesn't say.
    pub time: u64,
    /// What it says.
    pub event: Event<'input>,
}

/// What a record says.
#[derive(Copy, Debug)]
pub enum Event<'input> {
    /// A file was mapped into memory (`PERF_RECORD_MMAP`, `PERF_RECORD_MMAP2`).
    Mapping(Mapping<'input>),
    /// A thread has a new name, and perhaps runs another program (`PERF_RECORD_COMM`).
    Program(Program<'input>),
    /// A process or thread was made (`PERF_RECORD_FORK`).
    Fork(Fork),
    /// A sample (`PERF_RECORD_SAMPLE`).
    Sample(Sample<'input>),
    /// Records were lost (`PERF_RECORD_LOST`), or samples (`PERF_RECORD_LOST_SAMPLES`).
    Lost(Lost),
    /// Another record.
    Other,
}

/// A file that was mapped into the memory of a process.
#[derive(Copy, Debug)]
pub struct Mapping<'input> {
    /// The process.
    pub pid: u32,
    /// The address of the first byte.
    pub address: u64,
    /// The number of bytes.
    pub length: u64,
    /// The place in the file of the first byte.
    pub offset: u64,
    /// Whether it holds code: `PROT_EXEC` of `PERF_RECORD_MMAP2`; for `PERF_RECORD_MMAP`, that it
    /// isn't a mapping of data (`PERF_RECORD_MISC_MMAP_DATA`).
    pub is_executable: bool,
    /// The file's name, without the zero at its end.
    pub name: &'input [u8],
    /// The identification of the file's build (`NT_GNU_BUILD_ID`): the record's own, or else that
    /// of the profile's table for the name (`HEADER_BUILD_ID`). `None` where the profile has none.
    pub build_id: Option<&'input [u8]>,
}

/// The new name of a thread.
#[derive(Copy, Debug)]
pub struct Program<'input> {
    /// The process.
    pub pid: u32,
    /// The thread.
    pub tid: u32,
    /// The name, without the zero at its end.
    pub name: &'input [u8],
    /// Whether the process runs another program now, by `execve` (`PERF_RECORD_MISC_COMM_EXEC`).
    pub is_exec: bool,
}

/// A process or thread that was made.
#[derive(Clone, Copy, Debug, PartialEq, Eq)]
pub struct Fork {
    /// The process of the new thread. A new thread of an old process has its parent's.
    pub pid: u32,
    /// The process that made it.
    pub parent: u32,
    /// The new thread.
    pub tid: u32,
    /// The thread that made it.
    pub parent_tid: u32,
}

/// What was lost, because it was written faster than perf read it.
#[derive(Clone, Copy, Debug, PartialEq, Eq)]
pub struct Lost {
    /// How many records.
    pub records: u64,
    /// How many samples.
    pub samples: u64,
}

impl Clone for Record<'_> {
    ghost is_clone = { λ x y. y ≡ x };

    ghost is_infallible = { λ _. ⊤ };

    #[inline(always)]
    fn clone(&self) -> std::result::Result<Self, AllocError> {
        Ok(*self)
    }
}

impl Clone for Event<'_> {
    ghost is_clone = { λ x y. y ≡ x };

    ghost is_infallible = { λ _. ⊤ };

    #[inline(always)]
    fn clone(&self) -> std::result::Result<Self, AllocError> {
        Ok(*self)
    }
}

impl Clone for Mapping<'_> {
    ghost is_clone = { λ x y. y ≡ x };

    ghost is_infallible = { λ _. ⊤ };

    #[inline(always)]
    fn clone(&self) -> std::result::Result<Self, AllocError> {
        Ok(*self)
    }
}

impl Clone for Program<'_> {
    ghost is_clone = { λ x y. y ≡ x };

    ghost is_infallible = { λ _. ⊤ };

    #[inline(always)]
    fn clone(&self) -> std::result::Result<Self, AllocError> {
        Ok(*self)
    }
}
