//! Lists with an optional limit: arrays, boxed arrays and vectors.
ghost use Rattle.std.specs.Prelude.{◌≡◌, ℕ, ◌+◌, ◌<◌, ◌≤◌, ◌↔◌, List, [], ◌∷◌, ◌++◌, length, take};
ghost use Rattle.std.specs.Prelude.{insert, remove, Option, Some, None, Bool, true, false, IsNone};
ghost use Rattle.std.specs.Prelude.{IsSome, IsOk, IfOk, IfErr, IfSome, IfNone, OnOk, OnErr};
ghost use Rattle.std.specs.Prelude.{IsErrAnd, slice_get, slice_set};
ghost use Rattle.std.specs.List.{swap_remove, refill};
ghost use Rattle.std.specs.Borrow.{sem, Lends, Array};
ghost use Rattle.std.specs.Box.{with_value};
ghost use Rattle.std.specs.Vec as vec;
ghost use Rattle.arrayvec.specs.ArrayVec as array_vec;
ghost use Rattle.std.proofs.Common.{sym, ◌∙◌};
ghost use Rattle.cfi_read_core.specs.ListLimits.{IsAtLimit, IsWithinLimit};
ghost use Rattle.cfi_read_core.specs.Refill.{refill-same};

use crate::{Error, Result};
use arrayvec::ArrayVec;
use std::alloc::{AllocFailed, Global};

/// The list is full.
#[derive(Clone, Copy, Debug, PartialEq, Eq)]
pub struct CapacityFull;

/// Why an item was not added.
#[derive(Clone, Copy, Debug, PartialEq, Eq)]
pub enum Why {
    /// The list has reached its limit.
    Full(CapacityFull),
    /// The list has no limit, and its memory could not grow.
    Memory,
}

/// An item that was not added, and why. The item and the list are unchanged.
#[derive(Debug, Drop)]
pub struct Refused<T> {
    /// Why the item was not added.
    pub why: Why,
    /// The item.
    pub item: T,
}

/// A list with an optional limit.
pub trait ArrayLike: Sized + Drop {
    /// What the list holds.
    type Item: Drop;

    /// The items, in order.
    ghost items: { Self → List Self.Item };

    /// The greatest number of items in a list of this type; none if only memory limits it.
    ghost limit: { Option ℕ };

    /// A list after a write to its items as a slice, which keeps their number.
    ghost with_items: { Self → List Self.Item → Self };

    /// The greatest number of items in a list of this type, or `None` if only memory limits it.
    fn limit() -> Option<usize>
        ensures { result ≡ limit };

    /// Makes an empty list. Returns `Error::OutOfMemory` if its memory cannot be allocated.
    fn make(alloc: Global) -> Result<Self>
        ensures ok { IfOk result (λ list. items list ≡ []) }
        ensures err { IfErr result (λ error. error ≡ Error.OutOfMemory) };

    /// The items.
    fn as_slice(&self) -> &[Self::Item]
        ensures value { result.now ≡ items self.now }
        ensures within { IsWithinLimit limit (items self.now) };

    /// The items, as a slice that can be written.
    fn as_mut_slice(&mut self) -> &mut [Self::Item]
        ensures* writes_back { sem 𝓛
            (Lends Self.row (Array Self.Item.row 0) self.entry result (with_items self.old)) }
        ensures value { result.now ≡ items self.old };

    /// Removes all items. Does not allocate.
    fn clear(&mut self)
        ensures { items self.new ≡ [] };

    /// Appends `item`. Returns the item with `Why::Full` if the list has reached its limit, and
    /// with `Why::Memory` if it has no limit and its memory could not grow. The list is then
    /// unchanged.
    fn try_push(&mut self, item: Self::Item) -> std::result::Result<(), Refused<Self::Item>>
        ensures ok { OnOk result (items self.new ≡ items self.old ++ item ∷ []) }
        ensures err { OnErr result (items self.new ≡ items self.old) }
        ensures item_returned { IfErr result (λ refused. refused.item ≡ item) }
        ensures full { IsErrAnd result (λ refused. refused.why ≡ Why.Full (record {}))
            ↔ IsAtLimit limit (items self.old) }
        ensures memory { IfErr result (λ refused. refused.why ≡ Why.Memory → IsNone limit) };

    /// Inserts `item` at `index`, which is at most the length, and shifts the later items up. Fails
    /// as `try_push` does.
    fn try_insert(
        &mut self,
        index: usize,
        item: Self::Item,
    ) -> std::result::Result<(), Refused<Self::Item>>
        requires { index ≤ length (items self.old) }
        ensures ok { OnOk result (items self.new ≡ insert (items self.old) index item) }
        ensures err { OnErr result (items self.new ≡ items self.old) }
        ensures item_returned { IfErr result (λ refused. refused.item ≡ item) }
        ensures full { IsErrAnd result (λ refused. refused.why ≡ Why.Full (record {}))
            ↔ IsAtLimit limit (items self.old) }
        ensures memory { IfErr result (λ refused. refused.why ≡ Why.Memory → IsNone limit) };

    /// Removes the last item and returns it, or returns `None` if the list is empty.
    fn pop(&mut self) -> Option<Self::Item>
        ensures some { IfSome result (λ item. items self.old ≡ items self.new ++ item ∷ []) }
        ensures none { IfNone result ((items self.old ≡ []) × (items self.new ≡ [])) };

    /// Removes the item at `index`, which is below the length, and returns it. The last item takes
    /// its place.
    fn swap_remove(&mut self, index: usize) -> Self::Item
        requires { index < length (items self.old) }
        ensures value { slice_get (items self.old) index ≡ Some result }
        ensures items { items self.new ≡ swap_remove (items self.old) index result };

    /// After a write of as many items as there are, the list has the items that were written.
    ghost items_of_with_items: { (list : Self) (written : List Self.Item) →
        length written ≡ length (items list) → items (with_items list written) ≡ written };
}

/// A list that can be copied.
pub trait CopyList: ArrayLike {
    /// Whether copies never fail.
    ghost copies_free: { Bool };

    /// Whether copies never fail, since they do not allocate.
    fn copies_free() -> bool
        ensures { result ≡ copies_free };

    /// A list with the same items. Returns `Error::OutOfMemory` only if copies allocate.
    fn copy(&self) -> Result<Self>
        ensures ok { IfOk result (λ list. Self.items list ≡ Self.items self.now) }
        ensures err { IfErr result (λ error. (error ≡ Error.OutOfMemory) × (copies_free ≡ false)) };
}

impl<T: Default + Drop, const N: usize> ArrayLike for ArrayVec<T, N> {
    type Item = T;

    ghost items = { λ list. list.items };

    ghost limit = { Some N };

    ghost with_items = { array_vec.with_items };

    #[inline(always)]
    fn limit() -> Option<usize> {
        Some(N)
    }

    fn make(_alloc: Global) -> Result<Self> {
        Ok(ArrayVec::new())
    }

    #[inline(always)]
    fn as_slice(&self) -> &[T] {
        self.as_slice()
    }

    #[inline(always)]
    fn as_mut_slice(&mut self) -> &mut [T] {
        self.as_mut_slice()
    }

    #[inline(always)]
    fn clear(&mut self) {
        self.clear();
    }

    #[inline(always)]
    fn try_push(&mut self, item: T) -> std::result::Result<(), Refused<T>> {
        self.try_push(item).map_err(|e| refused_full(e.element()))
    }

    #[inline(always)]
    fn try_insert(&mut self, index: usize, item: T) -> std::result::Result<(), Refused<T>> {
        ArrayLike::try_push(self, item)?;
        last_to(self.as_mut_slice(), index);
        Ok(())
    }

    #[inline(always)]
    fn pop(&mut self) -> Option<T> {
        self.pop()
    }

    #[inline(always)]
    fn swap_remove(&mut self, index: usize) -> T {
        self.swap_remove(index)
    }

    ghost items_of_with_items = { λ list written same.
        refill-same _ list.items written (sym same) };
}

impl<T: Copy + Default, const N: usize> CopyList for ArrayVec<T, N> {
    ghost copies_free = { true };

    #[inline(always)]
    fn copies_free() -> bool {
        true
    }

    fn copy(&self) -> Result<Self> {
        Ok(copy_of(self))
    }
}

/// An array with the same items.
fn copy_of<T: Copy + Default, const N: usize>(list: &ArrayVec<T, N>) -> ArrayVec<T, N>
    ensures { result.items ≡ list.now.items }
{
    let mut copy = ArrayVec::new();
    let _fits = copy.try_extend_from_slice(list.as_slice());
    copy
}

impl<T: Default + Drop, const N: usize> ArrayLike for Box<ArrayVec<T, N>> {
    type Item = T;

    ghost items = { λ list. list.value.items };

    ghost limit = { Some N };

    ghost with_items = { λ list written.
        with_value list (array_vec.with_items list.value written) };

    #[inline(always)]
    fn limit() -> Option<usize> {
        Some(N)
    }

    fn make(alloc: Global) -> Result<Self> {
        boxed(alloc, ArrayVec::new())
    }

    #[inline(always)]
    fn as_slice(&self) -> &[T] {
        self.as_ref().as_slice()
    }

    #[inline(always)]
    fn as_mut_slice(&mut self) -> &mut [T] {
        self.as_mut().as_mut_slice()
    }

    #[inline(always)]
    fn clear(&mut self) {
        self.as_mut().clear();
    }

    #[inline(always)]
    fn try_push(&mut self, item: T) -> std::result::Result<(), Refused<T>> {
        ArrayVec::try_push(self.as_mut(), item).map_err(|e| refused_full(e.element()))
    }

    #[inline(always)]
    fn try_insert(&mut self, index: usize, item: T) -> std::result::Result<(), Refused<T>> {
        ArrayVec::try_insert(self.as_mut(), index, item).map_err(|e| refused_full(e.element()))
    }

    #[inline(always)]
    fn pop(&mut self) -> Option<T> {
        ArrayVec::pop(self.as_mut())
    }

    #[inline(always)]
    fn swap_remove(&mut self, index: usize) -> T {
        ArrayVec::swap_remove(self.as_mut(), index)
    }

    ghost items_of_with_items = { λ list written same.
        refill-same _ list.value.items written (sym same) };
}

impl<T: Copy + Default, const N: usize> CopyList for Box<ArrayVec<T, N>> {
    ghost copies_free = { false };

    #[inline(always)]
    fn copies_free() -> bool {
        false
    }

    fn copy(&self) -> Result<Self> {
        boxed(*Box::allocator(self), copy_of(self.as_ref()))
    }
}

impl<T: Drop> ArrayLike for Vec<T> {
    type Item = T;

    ghost items = { λ list. list.items };

    ghost limit = { None };

    ghost with_items = { vec.with_items };

    #[inline(always)]
    fn limit() -> Option<usize> {
        None
    }

    fn make(alloc: Global) -> Result<Self> {
        Ok(Vec::new(alloc))
    }

    #[inline(always)]
    fn as_slice(&self) -> &[T] {
        self.as_slice()
    }

    #[inline(always)]
    fn as_mut_slice(&mut self) -> &mut [T] {
        self.as_mut_slice()
    }

    #[inline(always)]
    fn clear(&mut self) {
        self.clear();
    }

    #[inline(always)]
    fn try_push(&mut self, item: T) -> std::result::Result<(), Refused<T>> {
        self.push(item).map_err(|e| refused_growth(e))
    }

    #[inline(always)]
    fn try_insert(&mut self, index: usize, item: T) -> std::result::Result<(), Refused<T>> {
        self.insert(index, item).map_err(|e| refused_growth(e))
    }

    #[inline(always)]
    fn pop(&mut self) -> Option<T> {
        self.pop()
    }

    #[inline(always)]
    fn swap_remove(&mut self, index: usize) -> T {
        self.swap_remove(index)
    }

    ghost items_of_with_items = { λ list written same.
        refill-same _ list.items written (list.ok.0 ∙ sym same) };
}

impl<T: Copy> CopyList for Vec<T> {
    ghost copies_free = { false };

    #[inline(always)]
    fn copies_free() -> bool {
        false
    }

    fn copy(&self) -> Result<Self> {
        let mut copy = Vec::new(*self.allocator());
        copy.extend_from_slice(self.as_slice())
            .map_err(|_| Error::OutOfMemory)?;
        Ok(copy)
    }
}

/// Replaces the item at `index`, which is below the length.
#[inline(always)]
pub fn write_at<A: ArrayLike>(list: &mut A, index: usize, item: A::Item)
    requires { index < length (A.items list.old) }
    ensures { A.items list.new ≡ slice_set (A.items list.old) index item }
{
    let slice = list.as_mut_slice();
    slice[index] = item;
}

/// Removes the item at `index`, which is below the length, and shifts the later items down.
#[inline(always)]
pub fn remove_at<A: ArrayLike>(list: &mut A, index: usize)
where
    A::Item: Copy,
    requires { index < length (A.items list.old) }
    ensures { A.items list.new ≡ remove (A.items list.old) index }
{
    let items = list.as_mut_slice();
    items.copy_within(index + 1.., index);
    let _item = list.pop();
}

/// Removes the items from index `count` on.
#[inline(always)]
pub fn shorten<A: ArrayLike>(list: &mut A, count: usize)
    ensures { A.items list.new ≡ take count (A.items list.old) }
{
    while count < list.as_slice().len() {
        let _last = list.pop();
    }
}

/// Replaces the items of the list with the first ones of `items`, which has at least as many.
#[inline(always)]
pub fn write_over<A: ArrayLike>(list: &mut A, items: &[A::Item])
where
    A::Item: Copy,
    requires { length (A.items list.old) ≤ length items.now }
    ensures { A.items list.new ≡ take (length (A.items list.old)) items.now }
{
    let written = list.as_mut_slice();
    let count = written.len();
    written.copy_from_slice(&items[..count]);
}

/// Moves the last item to `index`, and shifts the items from there on up.
#[inline(always)]
fn last_to<T>(items: &mut [T], index: usize)
    requires { index < length items.old }
    ensures { (front : List T) (last : T) →
        items.old ≡ front ++ last ∷ [] → items.new ≡ insert front index last }
{
    let mut place = items.len() - 1;
    while index < place {
        items.swap(place - 1, place);
        place -= 1;
    }
}

/// The value on the heap. Returns `Error::OutOfMemory` if its memory cannot be allocated.
#[inline(always)]
fn boxed<T: Drop>(alloc: Global, value: T) -> Result<Box<T>>
    ensures ok { IfOk result (λ boxed. boxed.value ≡ value) }
    ensures err { IfErr result (λ error. error ≡ Error.OutOfMemory) }
{
    match Box::new(alloc, value) {
        Ok(boxed) => Ok(boxed),
        Err(_) => Err(Error::OutOfMemory),
    }
}

/// The item that a vector did not take, since its memory could not grow.
#[inline(always)]
pub(crate) fn refused_growth<T>(e: AllocFailed<T>) -> Refused<T>
    ensures { result ≡ record { why = Why.Memory; item = e.value } }
{
    let AllocFailed { value } = e;
    Refused {
        why: Why::Memory,
        item: value,
    }
}

/// The item that a full array did not take.
#[inline(always)]
pub(crate) fn refused_full<T>(item: T) -> Refused<T>
    ensures { result ≡ record { why = Why.Full (record {}); item = item } }
{
    Refused {
        why: Why::Full(CapacityFull),
        item,
    }
}
