//! A context that C holds.
ghost use Rattle.std.specs.Prelude.{◌≡◌, ◌⊎◌, false, pos, true};
ghost use Rattle.cfi_c.specs.AddressRows.{is_live};
ghost use Rattle.cfi_c.specs.Refusals.{error_status};

use crate::held_context::HeldContext;
use crate::refusal::number_of;
use crate::unboxed::Unboxed;
use gimli_cfi::{Error, StoreOnHeap, UnwindContext};
use std::alloc::Global;

/// What an unwind needs besides the bytes. Making one allocates; using it does not.
pub type Context = UnwindContext<usize, StoreOnHeap>;

/// A context, or none: all zero.
#[repr(C)]
pub struct CfiContext {
    held: HeldContext,
    pub live: bool,
    ghost ok: { held.live ≡ live },
}

impl CfiContext {
    /// Makes the value that C holds of a context, or of none.
    pub fn of(alloc: Global, held: Option<Box<Context>>) -> CfiContext
        ensures { result.live ≡ is_live held }
    {
        match held {
            Some(context) => CfiContext {
                held: HeldContext::seal(Unboxed::of(context)),
                live: true,
            },
            None => CfiContext {
                held: HeldContext::none(alloc),
                live: false,
            },
        }
    }

    /// Returns the context, where there is one.
    pub fn into_box(self) -> Option<Box<Context>>
        ensures { is_live result ≡ self.live }
    {
        let CfiContext { held, live } = self;
        if live {
            return Some(held.unseal().into_box());
        }
        drop(held);
        None
    }
}

impl Drop for CfiContext {
    fn drop(self) {
        drop(self.into_box());
    }
}

/// Makes a context, and frees the one that was there. Returns 0; or the number of `OutOfMemory`
/// where the allocation fails, and then writes nothing.
#[unsafe(no_mangle)]
pub extern "C" fn cfi_context_new(alloc: Global, context: &mut CfiContext) -> i32
    ensures { ((result ≡ pos 0) × (context.new.live ≡ true))
        ⊎ ((result ≡ error_status Error.OutOfMemory) × (context.new.live ≡ context.old.live)) }
{
    let Ok(made) = Context::new(alloc) else {
        return number_of(Error::OutOfMemory);
    };
    let Ok(held) = Box::new(alloc, made) else {
        return number_of(Error::OutOfMemory);
    };
    *context = CfiContext::of(alloc, Some(held));
    0
}

/// Frees the context, where there is one.
#[unsafe(no_mangle)]
pub extern "C" fn cfi_context_free(alloc: Global, context: &mut CfiContext)
    ensures { context.new.live ≡ false }
{
    *context = CfiContext::of(alloc, None);
}
