//! A context by its address, as C holds it.
ghost use Rattle.std.specs.Prelude.{◌≡◌, Bool, true, false};
ghost use Rattle.cfi_c.specs.HeldContexts.{owned_context};

use crate::context::Context;
use crate::unboxed::Unboxed;
use std::alloc::Global;
use std::marker::Model;

/// The address of a context, which it owns where it is live. Dropping it frees nothing, so
/// `CfiContext` unseals a live one first.
#[repr(C)]
#[derive(Drop)]
pub struct HeldContext {
    at: *mut u8,
    alloc: Global,
    pub ghost live: { Bool },
}

impl Model for HeldContext {
    ghost also_owns = { λ held. owned_context held.live held.alloc held.at };
}

impl HeldContext {
    /// Returns the value of no context.
    pub fn none(alloc: Global) -> HeldContext
        ensures { result.live ≡ false }
    {
        HeldContext {
            at: std::ptr::null_mut(),
            alloc,
        }
    }

    /// Forgets the type of the context.
    pub fn seal(context: Unboxed<Context, Global>) -> HeldContext
        ensures { result.live ≡ true }
    {
        let Unboxed { at, alloc } = context;
        HeldContext {
            at: at as *mut u8,
            alloc,
        }
    }

    /// Restores the type of the context.
    pub fn unseal(self) -> Unboxed<Context, Global>
        requires { self.live ≡ true }
    {
        let HeldContext { at, alloc } = self;
        Unboxed {
            at: at as *mut Context,
            alloc,
        }
    }
}
