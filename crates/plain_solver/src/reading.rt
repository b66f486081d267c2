//! What one clause tells under the trail.
ghost use Rattle.sat_core.specs.Clauses.{IsClause};
ghost use Rattle.search_trail.specs.Trails.{known_of};
ghost use Rattle.plain_solver.specs.Plain.{ReadingTells};

use sat_core::Lit;
use search_trail::{Trail, Truth};

/// What a clause tells.
#[derive(Clone, Copy, Debug)]
pub(crate) enum Reading {
    /// A literal is true, or two are open.
    AtRest,
    /// This literal is open, and the others are false.
    Unit(Lit),
    /// All literals are false.
    Conflict,
}

/// Reads a clause, up to a true literal or a second open one.
pub(crate) fn read_clause(trail: &Trail, lits: &[Lit]) -> Reading
    requires { IsClause trail.now.vars lits.now }
    ensures { ReadingTells (known_of trail.now.entries) lits.now result }
{
    let mut free = None;
    for lit in lits {
        match trail.value(*lit) {
            Truth::Yes => return Reading::AtRest,
            Truth::No => {}
            Truth::Open => {
                if free.is_some() {
                    return Reading::AtRest;
                }
                free = Some(*lit);
            }
        }
    }
    match free {
        None => Reading::Conflict,
        Some(lit) => Reading::Unit(lit),
    }
}
