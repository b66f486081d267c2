//! Which variables are true on a trail.
ghost use Rattle.std.specs.Prelude.{◌≡◌, ◌+◌, ◌-◌, ◌^◌, ◌<◌, true, length};
ghost use Rattle.search_trail.specs.Trails.{known_of};
ghost use Rattle.trail_values.specs.Full.{AreTruths};

use sat_core::{Lit, Valuation, Var};
use search_trail::Trail;

/// Writes down which variables are true. Linear in the variables; takes no memory.
pub fn show(trail: &Trail, valuation: &mut Valuation)
    requires long { length valuation.old.values ≡ trail.now.vars }
    ensures long { length valuation.new.values ≡ trail.now.vars }
    ensures truths { AreTruths trail.now.vars (known_of trail.now.entries) valuation.new.values }
{
    'variables: for place in 0..trail.vars() {
        let value = trail.is_true(affirmed(place));
        valuation.values.set(place as usize, value);
    }
}

/// The variable with that place, counted from 0, true.
fn affirmed(place: u32) -> Lit
    requires { place < 2 ^ 32 - 1 }
    ensures variable { result.var.0 ≡ place + 1 }
    ensures sign { result.positive ≡ true }
{
    Lit {
        var: Var(place + 1),
        positive: true,
    }
}
