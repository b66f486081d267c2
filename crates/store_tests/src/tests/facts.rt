//! What has to hold of a store and a trail before a call: each is tested, and stops the test where it doesn't hold.
ghost use Rattle.std.specs.Prelude.{◌≡◌, ◌≢◌, ◌≤◌, None, length};
ghost use Rattle.sat_core.specs.Clauses.{IsOver, IsClause};
ghost use Rattle.sat_core.specs.Fresh.{IsOpen};
ghost use Rattle.sat_core.specs.Hints.{clause_of};
ghost use Rattle.search_trail.specs.Trails.{IsTrail, known_of};

use conflict_learn::Clauses;
use sat_core::{ClauseId, Lit, is_clause};
use search_trail::Trail;
use std::process::Abort;
use watch_store::WatchStore;

/// The literal is of one of the trail's variables.
pub(super) fn is_over(rt: &impl Abort, trail: &Trail, lit: Lit)
    ensures { IsOver trail.now.vars lit }
{
    assert!(rt; 1 <= lit.var.0);
    assert!(rt; lit.var.0 <= trail.vars());
}

/// Neither the literal nor its negation is true.
pub(super) fn is_open(rt: &impl Abort, trail: &Trail, lit: Lit)
    ensures over { IsOver trail.now.vars lit }
    ensures open { IsOpen (known_of trail.now.entries) lit }
{
    is_over(rt, trail, lit);
    assert!(rt; !trail.is_true(lit));
    assert!(rt; !trail.is_true(lit.negated()));
}

/// All literals of the trail are read.
pub(super) fn is_read(rt: &impl Abort, trail: &Trail)
    ensures { length trail.now.entries ≤ trail.now.read }
{
    assert!(rt; trail.len() <= trail.read());
}

/// The trail has reached the level.
pub(super) fn has_level(rt: &impl Abort, trail: &Trail, level: u32)
    ensures { level ≤ trail.now.present }
{
    assert!(rt; level <= trail.now());
}

/// The laws of trails, for proofs alone.
pub(super) fn is_trail(trail: &Trail)
    ensures { IsTrail trail.now }
{
    let _len = trail.len();
}

/// Nothing is true.
pub(super) fn is_empty(rt: &impl Abort, trail: &Trail)
    ensures { length trail.now.entries ≡ 0 }
{
    assert!(rt; trail.len() == 0);
}

/// The literals are a clause of two at least.
pub(super) fn is_watchable(rt: &impl Abort, trail: &Trail, lits: &[Lit])
    ensures clause { IsClause trail.now.vars lits.now }
    ensures many { 2 ≤ length lits.now }
{
    assert!(rt; is_clause(trail.vars(), lits));
    assert!(rt; 2 <= lits.len());
}

/// No live clause has the number.
pub(super) fn is_free(rt: &impl Abort, store: &WatchStore, id: ClauseId)
    ensures { clause_of store.now.live id ≡ None }
{
    match store.lits(id) {
        None => {}
        Some(_) => assert!(rt; false),
    }
}

/// A live clause has the number.
pub(super) fn is_live(rt: &impl Abort, store: &WatchStore, id: ClauseId)
    ensures { clause_of store.now.live id ≢ None }
{
    match store.lits(id) {
        Some(_) => {}
        None => assert!(rt; false),
    }
}
