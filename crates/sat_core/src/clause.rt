//! The test of what makes literals a clause.

ghost use Rattle.std.specs.Prelude.{◌≢◌, ◌↔◌, IsTrue, All};
ghost use Rattle.sat_core.specs.Clauses.{IsOver, IsClause};

use crate::literal::Lit;

/// Whether the literals are a clause over the variables 1 to `vars`: each is of one of these variables, and no
/// variable stands twice. Quadratic in the literals.
pub fn is_clause(vars: u32, lits: &[Lit]) -> bool
    ensures { IsTrue result ↔ IsClause vars lits.now }
{
    for place in 0..lits.len() {
        if !goes_with(vars, &lits[..place], lits[place]) {
            return false;
        }
    }
    true
}

/// Whether the literal may stand behind these in a clause.
fn goes_with(vars: u32, lits: &[Lit], lit: Lit) -> bool
    ensures { IsTrue result ↔ (IsOver vars lit × All (λ other. other.var.0 ≢ lit.var.0) lits.now) }
{
    1 <= lit.var.0 && lit.var.0 <= vars && lits.iter().all(|other| other.var.0 != lit.var.0)
}
