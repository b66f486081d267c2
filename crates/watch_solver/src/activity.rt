//! Which variables become more active behind a conflict: those that were met in learning from it, each once.
ghost use Rattle.std.specs.Prelude.{◌≡◌, All, length};
ghost use Rattle.sat_core.specs.Clauses.{IsClause, IsOver};

use activity_order::ActivityOrder;
use conflict_learn::Clauses;
use sat_core::{ClauseId, Lit};
use watch_store::WatchStore;

/// Bumps each variable of the clauses that led to the conflict, and lets all earlier bumps count less; notes in `met` that
/// these clauses were met. `number` is the
/// number of the clause that was learned, which no earlier stamp has. Linear in their literals, and each bump takes a time
/// logarithmic in the variables.
pub(crate) fn bump_met(
    order: &mut ActivityOrder,
    stamps: &mut [u32],
    met: &mut [u32],
    store: &WatchStore,
    hints: &[ClauseId],
    number: u32,
)
    requires over { All (λ clause. IsClause order.old.vars clause.lits) store.now.live }
    requires stamps { length stamps.old ≡ order.old.vars }
    ensures stamps { length stamps.new ≡ length stamps.old }
    ensures vars { order.new.vars ≡ order.old.vars }
    ensures waits { order.new.waits ≡ order.old.waits }
{
    'hints: for hint in hints {
        let at = hint.0 as usize;
        if at < met.len() {
            met[at] = number;
        }
        match store.lits(*hint) {
            Some(lits) => bump_all(order, stamps, lits, number),
            None => {}
        }
    }
    order.decay();
}

/// Bumps the variables of a clause that have no stamp of that number yet.
fn bump_all(order: &mut ActivityOrder, stamps: &mut [u32], lits: &[Lit], number: u32)
    requires over { All (IsOver order.old.vars) lits.now }
    requires stamps { length stamps.old ≡ order.old.vars }
    ensures stamps { length stamps.new ≡ length stamps.old }
    ensures vars { order.new.vars ≡ order.old.vars }
    ensures waits { order.new.waits ≡ order.old.waits }
{
    'lits: for lit in lits {
        let place = lit.var.0 as usize - 1;
        if stamps[place] != number {
            stamps[place] = number;
            order.bump(lit.var);
        }
    }
}
