//! The clauses of a formula as live clauses.
use crate::clauses::Clauses;
use sat_core::{ClauseId, Formula, Lit};

impl Clauses for Formula {
    ghost use Rattle.sat_core.specs.Derivation.{numbered_from};

    ghost live = { λ f. numbered_from 1 f.clauses };

    fn lits(&self, id: ClauseId) -> Option<&[Lit]> {
        if id.0 < 1 {
            return None;
        }
        if self.len() < id.0 {
            return None;
        }
        Some(self.clause(id))
    }
}
