//! Passes over all clauses, until one meets no unit.
ghost use Rattle.std.specs.Prelude.{◌≡◌, All, length, MatchOption};
ghost use Rattle.sat_core.specs.Fresh.{IsAtRest};
ghost use Rattle.search_trail.specs.Trails.{known_of, Grows};
ghost use Rattle.plain_solver.specs.Plain.{IsPlain, IsFalseClause};

use crate::reading::{Reading, read_clause};
use sat_core::{ClauseId, Formula};
use search_trail::Trail;

/// Makes true what the clauses force. Gives a false clause, or none where nothing follows from any clause at once. Each
/// pass is linear in the literals, and each but the last makes a literal true.
pub(crate) fn propagate(formula: &Formula, trail: &mut Trail) -> Option<ClauseId>
    requires { IsPlain formula.now.clauses trail.old }
    ensures plain { IsPlain formula.now.clauses trail.new }
    ensures grows { Grows trail.old trail.new }
    ensures result { MatchOption result (All (IsAtRest (known_of trail.new.entries)) formula.now.clauses) (IsFalseClause formula.now.clauses trail.new) }
{
    let mut count = trail.len();
    'passes: loop {
        match pass(formula, trail) {
            Some(id) => return Some(id),
            None => {}
        }
        let now = trail.len();
        if now == count {
            return None;
        }
        count = now;
    }
}

/// One pass: it makes each unit that it meets true and goes on, up to a false clause.
fn pass(formula: &Formula, trail: &mut Trail) -> Option<ClauseId>
    requires { IsPlain formula.now.clauses trail.old }
    ensures plain { IsPlain formula.now.clauses trail.new }
    ensures grows { Grows trail.old trail.new }
    ensures result { MatchOption result (length trail.new.entries ≡ length trail.old.entries → All (IsAtRest (known_of trail.new.entries)) formula.now.clauses) (IsFalseClause formula.now.clauses trail.new) }
{
    'clauses: for place in 0..formula.len() {
        let id = ClauseId(place + 1);
        match read_clause(trail, formula.clause(id)) {
            Reading::AtRest => {}
            Reading::Unit(lit) => trail.assign(lit, id),
            Reading::Conflict => return Some(id),
        }
    }
    None
}
