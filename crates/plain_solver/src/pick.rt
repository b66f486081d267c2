//! The next decision.
ghost use Rattle.std.specs.Prelude.{◌≡◌, ◌+◌, ◌-◌, ◌^◌, ◌<◌, MatchOption};
ghost use Rattle.sat_core.specs.Clauses.{IsOver};
ghost use Rattle.sat_core.specs.Fresh.{IsOpen};
ghost use Rattle.search_trail.specs.Trails.{known_of};
ghost use Rattle.trail_values.specs.Full.{IsFull};

use sat_core::{Lit, Var};
use search_trail::{Trail, Truth};

/// The first open variable, false; none where every variable is assigned. Linear in the variables.
pub(crate) fn open_literal(trail: &Trail) -> Option<Lit>
    ensures value { MatchOption result (IsFull trail.now.vars (known_of trail.now.entries)) (λ lit. IsOver trail.now.vars lit × IsOpen (known_of trail.now.entries) lit) }
{
    'variables: for place in 0..trail.vars() {
        let lit = literal(place, false);
        match trail.value(lit) {
            Truth::Open => return Some(lit),
            Truth::Yes => {}
            Truth::No => {}
        }
    }
    None
}

/// The literal of the variable with that place, counted from 0.
fn literal(place: u32, positive: bool) -> Lit
    requires { place < 2 ^ 32 - 1 }
    ensures variable { result.var.0 ≡ place + 1 }
    ensures sign { result.positive ≡ positive }
{
    Lit {
        var: Var(place + 1),
        positive,
    }
}
