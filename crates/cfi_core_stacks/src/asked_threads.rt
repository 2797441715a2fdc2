//! Which threads of a core file are printed.
ghost use Rattle.std.specs.Prelude.{◌≡◌, map};
ghost use Rattle.std.specs.List.{list_any};
ghost use Rattle.cfi_cores.specs.CoreFiles.{core_view};
ghost use Rattle.cfi_cores.specs.CoreThreads.{thread_view};
ghost use Rattle.cfi_core_stacks.specs.AskedThreads.{is_asked_thread, lacks_any, lacks_thread};

use crate::listing::ThreadListing;
use cfi_cores::{Core, CoreThread};

/// Whether a thread is asked for that no note is of, all of which were read.
pub(crate) fn lacks_thread(listing: ThreadListing, core: &Core<'_>) -> bool
    ensures { result ≡ lacks_thread listing (core_view core.now) }
{
    match listing.thread {
        None => false,
        Some(_) => lacks_any(listing, core),
    }
}

/// Whether all notes were read, and none is of a thread that is printed.
fn lacks_any(listing: ThreadListing, core: &Core<'_>) -> bool
    ensures { result ≡ lacks_any listing (core_view core.now) }
{
    match core.error {
        None => !has_asked_for(listing, core.threads.as_slice()),
        Some(_) => false,
    }
}

/// Whether one of the threads is printed.
fn has_asked_for(listing: ThreadListing, threads: &[CoreThread<'_>]) -> bool
    ensures { result ≡ list_any (is_asked_thread listing) (map thread_view threads.now) }
{
    threads.iter().any(|thread| is_asked_for(listing, thread))
}

/// Whether a thread is one that is printed.
pub(crate) fn is_asked_for(listing: ThreadListing, thread: &CoreThread<'_>) -> bool
    ensures { result ≡ is_asked_thread listing (thread_view thread.now) }
{
    match listing.thread {
        None => true,
        Some(tid) => u64::from(thread.tid) == tid,
    }
}
