// The binary heap over a placed list: a variable that may be better than the one above it rises, and one that may be
// worse than those below it sinks.
ghost use Rattle.std.specs.Prelude.{◌≡◌, ◌<◌, ◌≤◌, ◌/◌, ◌^◌, IsTrue, map, false, IfSome, IfNone, length};
ghost use Rattle.decide_order.specs.Heap.{rank, IsHeapFrom, RisesAt, SinksAt, IsBetterChild, NoBetterChild, IsReordered};

use crate::placed::PlacedList;
use lits::MAX_VAR;

/// Divides each score by 2^bits downwards.
pub fn scale_each(scores: &mut [u64], bits: u32)
    requires { bits < 64 }
    ensures { scores.new ≡ map (λ s. s / 2 ^ bits) scores.old }
{
    for score in scores {
        *score >>= bits;
    }
}

/// Whether the first variable is better than the second: it has a greater score, or the same and is less.
#[tactic(auto, using(crate::proofs::Ranks::rank_more, crate::proofs::Ranks::rank_tie, crate::proofs::Ranks::rank_less, crate::proofs::Ranks::rank_tied))]
pub fn is_better(scores: &[u64], first: u32, second: u32) -> bool
    requires first_positive { 0 < first }
    requires first_scored { first ≤ length scores.now }
    requires second_positive { 0 < second }
    requires second_scored { second ≤ length scores.now }
    ensures better { IsTrue result → rank scores.now second < rank scores.now first }
    ensures no_better { result ≡ false → rank scores.now first ≤ rank scores.now second }
{
    let high = scores[(first - 1) as usize];
    let low = scores[(second - 1) as usize];
    if high == low {
        return first < second;
    }
    low < high
}

/// Lets the variable at a place rise.
pub fn rise(scores: &[u64], placed: &mut PlacedList, start: usize)
    requires sized { length scores.now ≡ placed.old.reserved }
    requires within { start < length placed.old.items }
    requires rises { RisesAt scores.now placed.old.items start }
    ensures heap { IsHeapFrom scores.now placed.new.items 0 }
    ensures reordered { IsReordered placed.old placed.new }
{
    let mut at = start;
    while at > 0 {
        let above = (at - 1) / 2;
        if !is_better(scores, placed.at(at), placed.at(above)) {
            return;
        }
        placed.swap(above, at);
        at = above;
    }
}

/// The child that is better than the variable at the place, and the best of its children, where there is one.
pub fn better_child(scores: &[u64], placed: &PlacedList, at: usize) -> Option<usize>
    requires sized { length scores.now ≡ placed.now.reserved }
    requires within { at ≤ length placed.now.items }
    ensures some { IfSome result (λ child. IsBetterChild scores.now placed.now.items at child) }
    ensures none { IfNone result (NoBetterChild scores.now placed.now.items at) }
{
    let len = placed.len();
    let left = 2 * at + 1;
    let right = left + 1;
    if left >= len {
        return None;
    }
    let mut child = left;
    if right < len && is_better(scores, placed.at(right), placed.at(left)) {
        child = right;
    }
    if is_better(scores, placed.at(child), placed.at(at)) {
        Some(child)
    } else {
        None
    }
}

/// Lets the variable at a place sink, where the places from a start on are a heap but for it.
pub fn sink(scores: &[u64], placed: &mut PlacedList, start: usize, place: usize)
    requires sized { length scores.now ≡ placed.old.reserved }
    requires within { place ≤ length placed.old.items }
    requires behind { start ≤ place }
    requires sinks { SinksAt scores.now placed.old.items start place }
    ensures heap { IsHeapFrom scores.now placed.new.items start }
    ensures reordered { IsReordered placed.old placed.new }
{
    let mut at = place;
    while let Some(child) = better_child(scores, placed, at) {
        placed.swap(at, child);
        at = child;
    }
}

/// Makes a heap of a list in any order: each place that has children sinks, the last one first (R. W. Floyd, 1964).
pub fn heapify(scores: &[u64], placed: &mut PlacedList)
    requires sized { length scores.now ≡ placed.old.reserved }
    ensures heap { IsHeapFrom scores.now placed.new.items 0 }
    ensures reordered { IsReordered placed.old placed.new }
{
    let mut start = placed.len() / 2;
    while start > 0 {
        start -= 1;
        sink(scores, placed, start, start);
    }
}
