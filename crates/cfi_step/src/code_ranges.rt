//! Items that have code at a range of addresses: whether they are in order, and the one of an
//! address.
ghost use Rattle.std.specs.Prelude.{◌≡◌, ℕ, true, IfNone, IfSome, OnSome};
ghost use Rattle.std.specs.Option.{option_map};
ghost use Rattle.cfi_step.specs.CodeRanges.{AreEndedBy, IsInOneAtMost, IsOutOfOrder, are_sorted};
ghost use Rattle.cfi_step.specs.CodeRanges.{begins_from, first_with_code, has_code};

/// What has code at the addresses from a first one up to an end.
pub trait HasCode {
    /// The first address of its code.
    ghost start: { Self → ℕ };

    /// The first address after its code.
    ghost end: { Self → ℕ };

    /// The first address of its code.
    fn start(&self) -> u64
        ensures { result ≡ start self.now };

    /// The first address after its code.
    fn end(&self) -> u64
        ensures { result ≡ end self.now };
}

/// Whether the address is in the code.
pub fn has_code<A: HasCode>(item: &A, address: u64) -> bool
    ensures { result ≡ has_code A.start A.end item.now address }
{
    item.start() <= address && address < item.end()
}

/// How many items are before the first whose code begins before the one before it ends, or ends
/// before it begins; `None` if they are in order. Goes through all of them once.
pub fn out_of_order<A: HasCode>(list: &[A]) -> Option<usize>
    ensures sorted { IfNone result (are_sorted A.start A.end 0 list.now ≡ true) }
    ensures unsorted { OnSome result (are_sorted A.start A.end 0 list.now ≡ true → ⊥) }
    ensures out_of_order { IfSome result (IsOutOfOrder A.start A.end list.now) }
{
    let mut end = 0;
    for index in 0..list.len() {
        let item = &list[index];
        if !begins_from(item, end) {
            return Some(index);
        }
        end = item.end();
    }
    None
}

/// Whether the code begins at or after an address, and does not end before it begins.
fn begins_from<A: HasCode>(item: &A, low: u64) -> bool
    ensures { result ≡ begins_from A.start A.end low item.now }
{
    low <= item.start() && item.start() <= item.end()
}

/// The item whose code the address is in, of items in order: there is at most one. Found by
/// halving.
pub fn code_at<A: HasCode>(list: &[A], address: u64) -> Option<&A>
    requires { are_sorted A.start A.end 0 list.now ≡ true }
    ensures item { option_map (λ item. item.now) result
        ≡ first_with_code A.start A.end list.now address }
    ensures only { IsInOneAtMost A.start A.end list.now address }
{
    let index = ended_by(list, address);
    if index == list.len() {
        return None;
    }
    let item = &list[index];
    if item.start() <= address {
        Some(item)
    } else {
        None
    }
}

/// How many items, of those in order, end at or before the address.
fn ended_by<A: HasCode>(list: &[A], address: u64) -> usize
    requires { are_sorted A.start A.end 0 list.now ≡ true }
    ensures { AreEndedBy A.end list.now address result }
{
    list.partition_point(|item| item.end() <= address)
}
