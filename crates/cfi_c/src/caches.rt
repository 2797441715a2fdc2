//! Caches of rows are made, emptied and freed.
ghost use Rattle.std.specs.Prelude.{◌≡◌, []};
ghost use Rattle.std.specs.Option.{option_map};
ghost use Rattle.cfi_step.specs.PackedRows.{AreVacant};
ghost use Rattle.cfi_c.specs.CachedSteps.{IsCacheMade, cache_rows, held_rows};

use crate::cache::CfiCache;
use crate::refusal::number_of;
use cfi_step::RowCache;
use gimli_cfi::Error;
use std::alloc::Global;
use std::mem;

/// Makes a cache for four rows in each of so many sets, without one, and frees the cache that was
/// there. Returns 0; or the number of `OutOfMemory` where memory was refused, and then writes
/// nothing.
#[unsafe(no_mangle)]
pub extern "C" fn cfi_cache_new(alloc: Global, sets: usize, cache: &mut CfiCache) -> i32
    ensures { IsCacheMade sets (cache_rows cache.old) result (cache_rows cache.new) }
{
    let Ok(made) = RowCache::new(alloc, sets) else {
        return number_of(Error::OutOfMemory);
    };
    let Ok(held) = Box::new(alloc, made) else {
        return number_of(Error::OutOfMemory);
    };
    *cache = CfiCache::of(alloc, Some(held));
    0
}

/// Frees the cache, where there is one.
#[unsafe(no_mangle)]
pub extern "C" fn cfi_cache_free(alloc: Global, cache: &mut CfiCache)
    ensures { cache_rows cache.new ≡ [] }
{
    *cache = CfiCache::of(alloc, None);
}

/// Forgets all rows of the cache. Does not allocate.
#[unsafe(no_mangle)]
pub extern "C" fn cfi_cache_clear(alloc: Global, cache: &mut CfiCache)
    ensures { AreVacant (cache_rows cache.new) }
{
    let mut held = mem::replace(cache, CfiCache::of(alloc, None)).into_box();
    clear_held(&mut held);
    *cache = CfiCache::of(alloc, held);
}

/// Forgets all rows of the cache that is held.
fn clear_held(held: &mut Option<Box<RowCache>>)
    ensures { AreVacant (held_rows (option_map (λ cache. cache.value) held.new)) }
{
    match held {
        Some(rows) => rows.as_mut().clear(),
        None => {}
    }
}
