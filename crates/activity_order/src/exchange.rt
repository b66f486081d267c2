//! Two places of the heap exchange what stands there.
ghost use Rattle.std.specs.Prelude.{◌≡◌, ◌<◌, ◌≤◌, ◌^◌, ℕ, length, slice_set, slice_index};
ghost use Rattle.activity_order.specs.Heaps.{IsPlaced, waits_of};

/// What stands at the one place stands at the other from then on.
pub(crate) fn exchange(heap: &mut [u32], places: &mut [u32], one: usize, other: usize)
    requires placed { IsPlaced heap.old places.old }
    requires one { one < length heap.old }
    requires other { other < length heap.old }
    requires numbered { length places.old < 2 ^ 32 }
    ensures heap { heap.new ≡ slice_set (slice_set heap.old one (slice_index heap.old other)) other (slice_index heap.old one) }
    ensures long { length heap.new ≡ length heap.old }
    ensures wide { length places.new ≡ length places.old }
    ensures placed { IsPlaced heap.new places.new }
    ensures inside { (size : ℕ) → one < size → other < size → waits_of places.new size ≡ waits_of places.old size }
    ensures outside { (size : ℕ) → size ≤ one → size ≤ other → waits_of places.new size ≡ waits_of places.old size }
{
    let first = heap[one];
    let second = heap[other];
    heap[one] = second;
    heap[other] = first;
    places[first as usize] = other as u32;
    places[second as usize] = one as u32;
}
