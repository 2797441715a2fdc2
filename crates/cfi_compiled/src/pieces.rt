//! Pieces of address space, each of which belongs to one of numbered things.
ghost use Rattle.std.specs.Prelude.{◌≡◌, ◌≤◌, ◌<◌, ◌⊎◌, ℕ, IfOk, IsTrue, map};
ghost use Rattle.std.specs.List.{All};
ghost use Rattle.std.specs.Option.{option_or};
ghost use Rattle.cfi_unwind.specs.FdeViews.{fde_view};
ghost use Rattle.cfi_compiled.specs.Pieces.{Ascend, owner, spans_from};

use cfi_read_core::Reader;
use cfi_unwind::entry::FrameDescriptionEntry;
use std::alloc::{AllocError, Global};

/// A piece of address space.
#[derive(Clone, Copy)]
pub(crate) struct Piece {
    /// The first address.
    pub(crate) from: u64,
    /// The first address after it.
    pub(crate) to: u64,
    /// Whose it is.
    pub(crate) of: usize,
}

/// The greater of two numbers.
pub(crate) fn greater(a: u64, b: u64) -> u64
    ensures first { a ≤ result }
    ensures second { b ≤ result }
    ensures either { (result ≡ a) ⊎ (result ≡ b) }
    ensures least { (k : ℕ) → k < result → (k < a) ⊎ (k < b) }
{
    if a < b { b } else { a }
}

/// Lays pieces over others: an address of both belongs to what is above.
pub(crate) fn overlay(
    alloc: Global,
    above: &[Piece],
    below: &[Piece],
) -> Result<Vec<Piece>, AllocError>
    requires above { Ascend 0 above.now }
    requires below { Ascend 0 below.now }
    ensures ascend { IfOk result (λ laid. Ascend 0 laid.items) }
    ensures owner { IfOk result (λ laid. (a : ℕ) →
        owner a laid.items ≡ option_or (owner a above.now) (owner a below.now)) }
{
    let mut laid = Vec::new(alloc);
    let mut i = 0;
    let mut j = 0;
    let mut end = 0;
    loop {
        if i == above.len() {
            if j == below.len() {
                return Ok(laid);
            }
            let last = below[j];
            let from = greater(last.from, end);
            if from < last.to {
                laid.push(Piece {
                    from,
                    to: last.to,
                    of: last.of,
                })?;
                end = last.to;
                j += 1;
                continue;
            }
            j += 1;
            continue;
        }
        let x = above[i];
        if j == below.len() {
            laid.push(x)?;
            end = x.to;
            i += 1;
            continue;
        }
        let y = below[j];
        let start = greater(y.from, end);
        if x.from <= start {
            laid.push(x)?;
            end = x.to;
            i += 1;
            continue;
        }
        if y.to <= start {
            j += 1;
            continue;
        }
        if y.to <= x.from {
            laid.push(Piece {
                from: start,
                to: y.to,
                of: y.of,
            })?;
            end = y.to;
            j += 1;
            continue;
        }
        laid.push(Piece {
            from: start,
            to: x.from,
            of: y.of,
        })?;
        laid.push(x)?;
        end = x.to;
        i += 1;
    }
}

/// The addresses of each FDE, with its number.
pub(crate) fn spans_of<R: Reader<Offset = usize>>(
    alloc: Global,
    fdes: &[FrameDescriptionEntry<R>],
) -> Result<Vec<Piece>, AllocError>
    ensures { IfOk result (λ spans.
        spans.items ≡ spans_from 0 (map (fde_view R.position (λ n. n)) fdes.now)) }
{
    let mut spans = Vec::new(alloc);
    let mut of = 0;
    for fde in fdes {
        spans.push(Piece {
            from: fde.initial_address(),
            to: fde.end_address(),
            of,
        })?;
        of += 1;
    }
    Ok(spans)
}

/// Whether each piece has an address and begins at or above the end of the one before it.
fn is_ascending(spans: &[Piece]) -> bool
    ensures { IsTrue result → Ascend 0 spans.now }
{
    let mut end = 0;
    for span in spans {
        if span.from < end || span.to <= span.from {
            return false;
        }
        end = span.to;
    }
    true
}

/// Pieces that ascend: each address belongs to the first of the spans that has it. Spans that
/// ascend already, as those of most sections, are gone through once.
pub(crate) fn resolve(alloc: Global, spans: &[Piece]) -> Result<Vec<Piece>, AllocError>
    requires { All (λ span. span.from < span.to) spans.now }
    ensures ascend { IfOk result (λ pieces. Ascend 0 pieces.items) }
    ensures owner { IfOk result (λ pieces. (a : ℕ) →
        owner a pieces.items ≡ owner a spans.now) }
{
    if spans.len() <= 1 || is_ascending(spans) {
        let pieces = Vec::from_slice(alloc, spans)?;
        return Ok(pieces);
    }
    let (left, right) = spans.split_at(spans.len() / 2);
    let above = resolve(alloc, left)?;
    let below = resolve(alloc, right)?;
    let laid = overlay(alloc, above.as_slice(), below.as_slice())?;
    Ok(laid)
}
