//! The place of an item in a rising list.
ghost use Rattle.std.specs.Prelude.{◌≡◌, ◌<◌, length, slice_index, nat_eq, true, false, IsNone, OnSome, IfSome};
ghost use Rattle.std.specs.List.{list_any};
ghost use Rattle.clause_encoder.specs.TrainStore.{IsRising};

/// The place of the item in a rising list, if it is there; logarithmic in the list.
pub(crate) fn place_in(items: &[u32], item: u32) -> Option<usize>
    requires { IsRising items.now }
    ensures none { IsNone result → list_any (nat_eq item) items.now ≡ false }
    ensures some { OnSome result (list_any (nat_eq item) items.now ≡ true) }
    ensures place { IfSome result (λ place. (place < length items.now) × (slice_index items.now place ≡ item)) }
{
    let mut low = 0;
    let mut high = items.len();
    while low < high {
        let middle = low + (high - low) / 2;
        if items[middle] < item {
            low = middle + 1;
        } else {
            high = middle;
        }
    }
    if low == items.len() {
        return None;
    }
    if items[low] == item { Some(low) } else { None }
}
