//! What is known by numbers that rise.

ghost use Rattle.std.specs.Prelude.{◌≡◌, ◌↔◌, ℕ, IsTrue};
ghost use Rattle.cell_net.specs.Borders.{IsAboveLast};

use crate::ids::{CandidateId, NodeId};

/// What is known by a number.
pub(super) trait Numbered {
    ghost number: { Self → ℕ };

    fn number(&self) -> u32
        ensures { result ≡ number self.now };
}

impl Numbered for CandidateId {
    ghost number = { λ c. c.0 };

    fn number(&self) -> u32 {
        self.0
    }
}

impl Numbered for NodeId {
    ghost number = { λ n. n.0 };

    fn number(&self) -> u32 {
        self.0
    }
}

/// Whether the number of what stands before the place, if anything, is below that of this item.
pub(super) fn is_above_last<T: Numbered>(items: &[T], place: u32, this: &T) -> bool
    ensures { IsTrue result ↔ IsAboveLast T.number items.now place this.now }
{
    match place.checked_sub(1) {
        Some(before) => match items.get(before as usize) {
            Some(item) => item.number() < this.number(),
            None => true,
        },
        None => true,
    }
}
