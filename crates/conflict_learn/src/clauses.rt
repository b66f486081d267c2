//! What learning asks of a store of clauses.
ghost use Rattle.std.specs.Prelude.{◌≡◌, MatchOption, Some, None, List};
ghost use Rattle.sat_core.specs.Hints.{NumberedClause, clause_of};

use sat_core::{ClauseId, Lit};

/// Live clauses by their numbers.
pub trait Clauses {
    // the live clauses
    ghost live: { Self → List NumberedClause };

    /// The literals of the live clause with that number; none exactly where there is no such clause.
    fn lits(&self, id: ClauseId) -> Option<&[Lit]>
        ensures { MatchOption result (clause_of (live self.now) id ≡ None) (λ lits. clause_of (live self.now) id ≡ Some lits.now) };
}
