//! A list with a limit that has room for all its items from the start.
ghost use Rattle.std.specs.Prelude.{◌≡◌, ◌≤◌, ℕ, List, length};
ghost use Rattle.std.specs.Vec.{vec_capacity, vec_len};
ghost use Rattle.std.specs.Vec as vec;
ghost use Rattle.std.proofs.Common.{sym, ◌∙◌};
ghost use Rattle.cfi_read_core.specs.Refill.{refill-same};

use crate::array_like::{ArrayLike, Refused, refused_full, refused_growth};
use crate::{Error, Result};
use std::alloc::Global;

/// A list of `N` items at most, in one piece of memory that it takes when it is made. The items are
/// not made with it, so its memory is touched only as far as it is used.
#[derive(Debug, Drop)]
pub struct Reserved<T, const N: usize> {
    list: Vec<T>,
    ghost room: { (vec_len list ≤ N) × (N ≤ vec_capacity list) },
}

impl<T: Drop, const N: usize> ArrayLike for Reserved<T, N> {
    ghost use Rattle.std.specs.Prelude.{Some};

    type Item = T;

    ghost items = { λ reserved. reserved.list.items };

    ghost limit = { Some N };

    ghost with_items = { λ reserved written. record {
      list = vec.with_items reserved.list written;
      room = reserved.room;
    } };

    #[inline(always)]
    fn limit() -> Option<usize> {
        Some(N)
    }

    fn make(alloc: Global) -> Result<Self> {
        match Vec::with_capacity(alloc, N) {
            Ok(list) => Ok(Reserved { list }),
            Err(_) => Err(Error::OutOfMemory),
        }
    }

    #[inline(always)]
    fn as_slice(&self) -> &[T] {
        self.list.as_slice()
    }

    #[inline(always)]
    fn as_mut_slice(&mut self) -> &mut [T] {
        self.list.as_mut_slice()
    }

    #[inline(always)]
    fn clear(&mut self) {
        self.list.clear();
    }

    #[inline(always)]
    fn try_push(&mut self, item: T) -> std::result::Result<(), Refused<T>> {
        if self.list.len() == N {
            return Err(refused_full(item));
        }
        self.list.push(item).map_err(|e| refused_growth(e))
    }

    #[inline(always)]
    fn try_insert(&mut self, index: usize, item: T) -> std::result::Result<(), Refused<T>> {
        if self.list.len() == N {
            return Err(refused_full(item));
        }
        self.list.insert(index, item).map_err(|e| refused_growth(e))
    }

    #[inline(always)]
    fn pop(&mut self) -> Option<T> {
        self.list.pop()
    }

    #[inline(always)]
    fn swap_remove(&mut self, index: usize) -> T {
        self.list.swap_remove(index)
    }

    ghost items_of_with_items = { λ reserved written same.
        refill-same _ reserved.list.items written (reserved.list.ok.0 ∙ sym same) };
}
