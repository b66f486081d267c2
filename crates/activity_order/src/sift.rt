//! How a heap is put in order again, after what stands at one place has got another rank.
ghost use Rattle.std.specs.Prelude.{◌≡◌, ◌<◌, ◌≤◌, ◌+◌, ◌*◌, ◌^◌, ◌↔◌, ℕ, IsTrue, length, slice_index};
ghost use Rattle.activity_order.specs.Scores.{rank};
ghost use Rattle.activity_order.specs.Heaps.{IsPlaced, IsChild, IsOrderedBut, IsOrderedBelow, IsHeap, rank_at, waits_of};

use crate::exchange::exchange;

/// Goes up from a place, as long as what stands there ranks above what it stands below. The first `size` places are in
/// order but for that one.
pub(crate) fn sift_up(
    scores: &[u64],
    heap: &mut [u32],
    places: &mut [u32],
    start: usize,
    size: usize,
)
    requires scored { length scores.now ≡ length places.old }
    requires start { start < size }
    requires size { size ≤ length heap.old }
    requires numbered { length places.old < 2 ^ 32 }
    requires placed { IsPlaced heap.old places.old }
    requires ordered { IsOrderedBut (rank_at scores.now heap.old) size start }
    ensures long { length heap.new ≡ length heap.old }
    ensures wide { length places.new ≡ length places.old }
    ensures order { IsHeap scores.now heap.new places.new size }
    ensures waits { waits_of places.new size ≡ waits_of places.old size }
{
    let mut place = start;
    'climbing: while place > 0 {
        let parent = parent_of(place);
        if !is_before(scores, heap[place], heap[parent]) {
            return;
        }
        exchange(heap, places, place, parent);
        place = parent;
    }
}

/// Goes down from the top, as long as something below ranks above what stands there. The first `size` places are in order
/// but for the top.
pub(crate) fn sift_down(scores: &[u64], heap: &mut [u32], places: &mut [u32], size: usize)
    requires scored { length scores.now ≡ length places.old }
    requires size { size ≤ length heap.old }
    requires numbered { length places.old < 2 ^ 32 }
    requires placed { IsPlaced heap.old places.old }
    requires ordered { IsOrderedBelow (rank_at scores.now heap.old) size 0 }
    ensures long { length heap.new ≡ length heap.old }
    ensures wide { length places.new ≡ length places.old }
    ensures order { IsHeap scores.now heap.new places.new size }
    ensures waits { waits_of places.new size ≡ waits_of places.old size }
{
    let mut place = 0;
    'sinking: while place < size / 2 {
        let child = greater_child(scores, heap, place, size);
        if !is_before(scores, heap[child], heap[place]) {
            return;
        }
        exchange(heap, places, place, child);
        place = child;
    }
}

/// The place above.
fn parent_of(place: usize) -> usize
    requires { 0 < place }
    ensures child { IsChild result place }
    ensures above { result < place }
{
    (place - 1) / 2
}

/// The place below at which the one of higher rank stands.
fn greater_child(scores: &[u64], heap: &[u32], place: usize, size: usize) -> usize
    requires some { 2 * place + 1 < size }
    requires size { size ≤ length heap.now }
    requires within { (k : ℕ) → k < length heap.now → slice_index heap.now k < length scores.now }
    requires numbered { length scores.now < 2 ^ 32 }
    requires few { length heap.now < 2 ^ 32 }
    ensures child { IsChild place result }
    ensures within { result < size }
    ensures greater { (other : ℕ) → IsChild place other → other < size → rank_at scores.now heap.now other ≤ rank_at scores.now heap.now result }
{
    let one = 2 * place + 1;
    let other = one + 1;
    if other < size && is_before(scores, heap[other], heap[one]) {
        return other;
    }
    one
}

/// Whether the one variable ranks above the other, each given by its place.
fn is_before(scores: &[u64], one: u32, other: u32) -> bool
    requires one { one < length scores.now }
    requires other { other < length scores.now }
    requires numbered { length scores.now < 2 ^ 32 }
    ensures { IsTrue result ↔ rank scores.now other < rank scores.now one }
{
    let high = scores[one as usize];
    let low = scores[other as usize];
    high > low || (high == low && one < other)
}
