//! Rules of the items of a list, and the first item that breaks one.

ghost use Rattle.std.specs.Prelude.{ℕ, ◌^◌, ◌<◌, ◌↔◌, length, IsTrue, MatchOption};
ghost use Rattle.vss_lists.specs.Breaks.{HoldsOfEach, BreaksFirstAt};

/// A rule that each item of a list keeps or breaks, at its place, counted from 0.
pub trait Rule<T> {
    /// Whether the rule holds of the item at the place.
    ghost holds: { Self → ℕ → T → Type 0 };

    /// Tests the item at its place.
    fn holds(&self, place: u32, item: &T) -> bool
        ensures { IsTrue result ↔ holds self.now place item.now };
}

/// The first place at which the rule is broken; linear in the items up to there.
pub fn first_break<T, R: Rule<T>>(rule: &R, items: &[T]) -> Option<u32>
    requires { length items.now < 2 ^ 32 }
    ensures { MatchOption result (HoldsOfEach (R.holds rule.now) items.now) (BreaksFirstAt (R.holds rule.now) items.now) }
{
    for place in 0..items.len() {
        if !rule.holds(place as u32, &items[place]) {
            return Some(place as u32);
        }
    }
    None
}
