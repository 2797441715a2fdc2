//! A cache of rows by its address, as C holds it.
ghost use Rattle.std.specs.Prelude.{◌≡◌, Option, Some, None, true};
ghost use Rattle.cfi_step.specs.declared.row_cache.RowCache.{RowCache};
ghost use Rattle.cfi_c.specs.AddressRows.{is_live};
ghost use Rattle.cfi_c.specs.HeldCaches.{owned_cache};

use crate::unboxed::Unboxed;
use cfi_step::RowCache;
use std::alloc::Global;
use std::marker::Model;

/// The address of a cache, which it owns where there is one. Dropping it frees nothing, so
/// `CfiCache` unseals a cache first.
#[repr(C)]
#[derive(Drop)]
pub struct HeldCache {
    at: *mut u8,
    alloc: Global,
    pub ghost cache: { Option RowCache },
}

impl Model for HeldCache {
    ghost also_owns = { λ held. owned_cache held.cache held.alloc held.at };
}

impl HeldCache {
    /// Returns the value of no cache.
    pub fn none(alloc: Global) -> HeldCache
        ensures { result.cache ≡ None }
    {
        HeldCache {
            at: std::ptr::null_mut(),
            alloc,
        }
    }

    /// Forgets the type of the cache.
    pub fn seal(cache: Unboxed<RowCache, Global>) -> HeldCache
        ensures { result.cache ≡ Some cache.value }
    {
        let Unboxed { at, alloc } = cache;
        HeldCache {
            at: at as *mut u8,
            alloc,
        }
    }

    /// Restores the type of the cache.
    pub fn unseal(self) -> Unboxed<RowCache, Global>
        requires { is_live self.cache ≡ true }
        ensures { Some result.value ≡ self.cache }
    {
        let HeldCache { at, alloc } = self;
        Unboxed {
            at: at as *mut RowCache,
            alloc,
        }
    }
}
