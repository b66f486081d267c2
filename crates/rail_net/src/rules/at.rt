//! Rules that are tested with the place of an item in its list.

ghost use Rattle.std.specs.Prelude.{◌≡◌, ◌<◌, ◌^◌, ◌↔◌, ℕ, List, IsTrue, MatchOption, Some, length, slice_get};
ghost use Rattle.vss_lists.specs.Breaks.{BreaksFirstAt, HoldsOfEach};

/// A rule that each item of one list keeps or breaks, at its own place.
pub(crate) trait RuleAt<T> {
    ghost items: { Self → List T };

    ghost holds: { Self → ℕ → T → Type 0 };

    fn holds_at(&self, place: u32, item: &T) -> bool
        requires { slice_get (items self.now) place ≡ Some item.now }
        ensures { IsTrue result ↔ holds self.now place item.now };
}

/// The first place at which the rule is broken. Linear in the items up to there.
pub(crate) fn first_break_at<T, R: RuleAt<T>>(rule: &R, items: &[T]) -> Option<u32>
    requires few { length items.now < 2 ^ 32 }
    requires its { items.now ≡ R.items rule.now }
    ensures { MatchOption result (HoldsOfEach (R.holds rule.now) items.now) (BreaksFirstAt (R.holds rule.now) items.now) }
{
    for place in 0..items.len() {
        if !rule.holds_at(place as u32, &items[place]) {
            return Some(place as u32);
        }
    }
    None
}
