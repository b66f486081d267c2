//! The heap of the variables that wait: the first one leaves, one comes, one gets a higher score.
ghost use Rattle.std.specs.Prelude.{◌≡◌, ◌+◌, ◌-◌, ◌<◌, ◌≤◌, ◌^◌, ℕ, true, false, length, slice_set, slice_index, slice_index_or};
ghost use Rattle.activity_order.specs.Scores.{score_sum, rank};
ghost use Rattle.activity_order.specs.Heaps.{IsHeap, waits_of};

use crate::exchange::exchange;
use crate::score::sum;
use crate::sift::{sift_down, sift_up};

/// The first of those that wait, which waits no longer.
pub(crate) fn take_top(scores: &[u64], heap: &mut [u32], places: &mut [u32], size: u32) -> u32
    requires order { IsHeap scores.now heap.old places.old size }
    requires some { 0 < size }
    requires numbered { length places.old < 2 ^ 32 }
    ensures long { length heap.new ≡ length heap.old }
    ensures wide { length places.new ≡ length places.old }
    ensures order { IsHeap scores.now heap.new places.new (size - 1) }
    ensures waits { waits_of places.new (size - 1) ≡ slice_set (waits_of places.old size) result false }
    ensures within { result < length places.old }
    ensures waited { slice_index_or (waits_of places.old size) result false ≡ true }
    ensures first { (place : ℕ) → slice_index_or (waits_of places.old size) place false ≡ true → rank scores.now place ≤ rank scores.now result }
{
    let top = heap[0];
    exchange(heap, places, 0, size as usize - 1);
    sift_down(scores, heap, places, size as usize - 1);
    top
}

/// One that doesn't wait waits from now on.
pub(crate) fn put_in(scores: &[u64], heap: &mut [u32], places: &mut [u32], size: u32, place: u32)
    requires order { IsHeap scores.now heap.old places.old size }
    requires place { place < length places.old }
    requires away { size ≤ slice_index places.old place }
    requires numbered { length places.old < 2 ^ 32 }
    ensures long { length heap.new ≡ length heap.old }
    ensures wide { length places.new ≡ length places.old }
    ensures order { IsHeap scores.now heap.new places.new (size + 1) }
    ensures waits { waits_of places.new (size + 1) ≡ slice_set (waits_of places.old size) place true }
{
    let last = size as usize;
    let at = places[place as usize] as usize;
    exchange(heap, places, at, last);
    sift_up(scores, heap, places, last, last + 1);
}

/// A score is greater by a step.
pub(crate) fn raise_at(
    scores: &mut [u64],
    heap: &mut [u32],
    places: &mut [u32],
    size: u32,
    place: u32,
    step: u64,
)
    requires order { IsHeap scores.old heap.old places.old size }
    requires place { place < length places.old }
    requires numbered { length places.old < 2 ^ 32 }
    ensures long { length heap.new ≡ length heap.old }
    ensures wide { length places.new ≡ length places.old }
    ensures scores { scores.new ≡ slice_set scores.old place (score_sum (slice_index scores.old place) step) }
    ensures order { IsHeap scores.new heap.new places.new size }
    ensures waits { waits_of places.new size ≡ waits_of places.old size }
{
    let score = sum(scores[place as usize], step);
    scores[place as usize] = score;
    let at = places[place as usize];
    if at < size {
        sift_up(scores, heap, places, at as usize, size as usize);
    }
}
