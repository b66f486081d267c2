//! Clauses of fewer than two literals, which nothing watches: their literals are made true at level 0.
ghost use Rattle.std.specs.Prelude.{◌≡◌, ◌<◌, Some, List, IfSome, IfNone, length, Any, true, false};
ghost use Rattle.sat_core.specs.declared.literal.Lit.{Lit};
ghost use Rattle.sat_core.specs.Derivation.{numbered_from};
ghost use Rattle.sat_core.specs.Hints.{clause_of, is_known};
ghost use Rattle.search_trail.specs.Trails.{up_to, Grows};
ghost use Rattle.conflict_learn.specs.Learning.{IsConflict};
ghost use Rattle.watch_store.specs.Fits.{FitsTrail, AreShortTrue};

use conflict_learn::Clauses;
use sat_core::{ClauseId, Lit};
use search_trail::{Trail, Truth};
use watch_store::WatchStore;

/// Makes the literal of a short clause true, at level 0. Whether the clause is false there.
pub(crate) fn seat(store: &WatchStore, trail: &mut Trail, id: ClauseId, lits: &[Lit]) -> bool
    requires fits { FitsTrail store.now trail.old }
    requires bottom { trail.old.present ≡ 0 }
    requires stands { clause_of store.now.live id ≡ Some lits.now }
    ensures fits { FitsTrail store.now trail.new }
    ensures grows { Grows trail.old trail.new }
    ensures clash { result ≡ true → IsConflict store.now.live trail.new id }
    ensures seated { result ≡ false → length lits.now < 2 → Any (λ lit. is_known (up_to 0 trail.new.entries) lit ≡ true) lits.now }
{
    if lits.len() == 0 {
        return true;
    }
    if lits.len() > 1 {
        return false;
    }
    let lit = lits[0];
    match trail.value(lit) {
        Truth::Yes => false,
        Truth::No => true,
        Truth::Open => {
            trail.assign(lit, id);
            false
        }
    }
}

/// Seats the short ones of the clauses numbered from 1 to `count`, up to one that is false.
pub(crate) fn seat_all(store: &WatchStore, trail: &mut Trail, count: u32) -> Option<ClauseId>
    requires fits { FitsTrail store.now trail.old }
    requires bottom { trail.old.present ≡ 0 }
    requires all { (clauses : List (List Lit)) × (store.now.live ≡ numbered_from 1 clauses) × (length clauses ≡ count) }
    ensures fits { FitsTrail store.now trail.new }
    ensures grows { Grows trail.old trail.new }
    ensures clash { IfSome result (IsConflict store.now.live trail.new) }
    ensures short { IfNone result (AreShortTrue store.now.live trail.new) }
{
    'clauses: for number in 1..=count {
        let id = ClauseId(number);
        match store.lits(id) {
            Some(lits) => {
                if seat(store, trail, id, lits) {
                    return Some(id);
                }
            }
            None => {}
        }
    }
    None
}
