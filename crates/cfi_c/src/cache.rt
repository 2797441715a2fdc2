//! A cache of rows that C holds.
ghost use Rattle.std.specs.Prelude.{◌≡◌};
ghost use Rattle.std.specs.Option.{option_map};
ghost use Rattle.cfi_c.specs.AddressRows.{is_live};

use crate::held_cache::HeldCache;
use crate::unboxed::Unboxed;
use cfi_step::RowCache;
use std::alloc::Global;

/// A cache of rows, or none: all zero.
#[repr(C)]
pub struct CfiCache {
    held: HeldCache,
    pub live: bool,
    ghost ok: { is_live held.cache ≡ live },
}

impl CfiCache {
    /// Makes the value that C holds of a cache, or of none.
    pub fn of(alloc: Global, held: Option<Box<RowCache>>) -> CfiCache
        ensures { result.held.cache ≡ option_map (λ cache. cache.value) held }
    {
        match held {
            Some(cache) => CfiCache {
                held: HeldCache::seal(Unboxed::of(cache)),
                live: true,
            },
            None => CfiCache {
                held: HeldCache::none(alloc),
                live: false,
            },
        }
    }

    /// Returns the cache, where there is one.
    pub fn into_box(self) -> Option<Box<RowCache>>
        ensures { option_map (λ cache. cache.value) result ≡ self.held.cache }
    {
        let CfiCache { held, live } = self;
        if live {
            return Some(held.unseal().into_box());
        }
        drop(held);
        None
    }
}

impl Drop for CfiCache {
    fn drop(self) {
        drop(self.into_box());
    }
}
