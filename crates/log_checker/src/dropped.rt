//! Which clauses were dropped.

ghost use Rattle.std.specs.Prelude.{◌≡◌, ◌<◌, ◌&&◌, ◌||◌, ℕ, not, nat_eq, IfOk, false, length};

use std::alloc::{AllocError, Global};

/// Which clauses were dropped: a flag for each, by its place. The first `own` places are those of the formula's clauses.
#[derive(Debug, Drop)]
pub(crate) struct Dropped {
    pub(crate) own: usize,
    pub(crate) flags: Vec<bool>,
}

#[tactic(auto, using(crate::proofs::DroppedLemmas::dropped_laws))]
impl Dropped {
    ghost use Rattle.log_checker.specs.Stored.{is_dropped};

    /// Of the formula's `own` clauses none was dropped. Takes a byte for each.
    pub(crate) fn new(alloc: Global, own: usize) -> Result<Dropped, AllocError>
        ensures own { IfOk result (λ dropped. dropped.own ≡ own) }
        ensures size { IfOk result (λ dropped. length dropped.flags.items ≡ own) }
        ensures none { IfOk result (λ dropped. (place : ℕ) → is_dropped dropped place ≡ false) }
    {
        Ok(Dropped {
            own,
            flags: vec![in alloc; false; own]?,
        })
    }

    pub(crate) fn contains(&self, place: usize) -> bool
        requires { place < length self.now.flags.items }
        ensures { result ≡ is_dropped self.now place }
    {
        self.flags[place]
    }

    pub(crate) fn insert(&mut self, place: usize)
        requires { place < length self.old.flags.items }
        ensures own { self.new.own ≡ self.old.own }
        ensures size { length self.new.flags.items ≡ length self.old.flags.items }
        ensures inserted { (other : ℕ) → is_dropped self.new other ≡ (is_dropped self.old other || nat_eq other place) }
    {
        self.flags[place] = true;
    }

    pub(crate) fn remove(&mut self, place: usize)
        requires { place < length self.old.flags.items }
        ensures own { self.new.own ≡ self.old.own }
        ensures size { length self.new.flags.items ≡ length self.old.flags.items }
        ensures removed { (other : ℕ) → is_dropped self.new other ≡ (is_dropped self.old other && not (nat_eq other place)) }
    {
        self.flags[place] = false;
    }
}
