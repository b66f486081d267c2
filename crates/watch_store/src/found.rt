//! What a visit of one clause finds.
ghost use Rattle.std.specs.Prelude.{◌≡◌, ◌≢◌, All, Contains, MatchOption, false};
ghost use Rattle.sat_core.specs.Clauses.{negated, IsOver};
ghost use Rattle.sat_core.specs.Hints.{is_known};
ghost use Rattle.search_trail.specs.Trails.{known_of};
ghost use Rattle.watch_store.specs.Walking.{OthersFalse, VisitTells};

use sat_core::Lit;
use search_trail::Trail;

/// What is to be done with a node whose watched literal became false.
#[derive(Clone, Copy, Debug)]
pub enum Visit {
    /// This literal isn't false and is to be watched in its place.
    Moved(Lit),
    /// The other watched literal is the only one that isn't false.
    Forced,
    /// All literals are false.
    Conflict,
}

/// What a clause with a false watched literal tells, by its other watched literal, which isn't true.
pub(crate) fn read_clause(trail: &Trail, lits: &[Lit], partner: Lit) -> Visit
    requires in_range { All (IsOver trail.now.vars) lits.now }
    requires partner { IsOver trail.now.vars partner }
    requires not_true { is_known (known_of trail.now.entries) partner ≡ false }
    ensures { VisitTells (known_of trail.now.entries) lits.now partner result }
{
    match replacement(trail, lits, partner) {
        Some(lit) => Visit::Moved(lit),
        None => {
            if trail.is_true(partner.negated()) {
                Visit::Conflict
            } else {
                Visit::Forced
            }
        }
    }
}

/// A literal that isn't false, besides the other watched one: the first one of the front, or else the last one of the rest.
/// So a long clause whose watches are lost one after the other is not read from one end to the other for each of them.
pub(crate) fn replacement(trail: &Trail, lits: &[Lit], partner: Lit) -> Option<Lit>
    requires { All (IsOver trail.now.vars) lits.now }
    ensures { MatchOption result (OthersFalse (known_of trail.now.entries) lits.now partner) (λ lit. Contains lits.now lit × (lit ≢ partner) × (is_known (known_of trail.now.entries) (negated lit) ≡ false)) }
{
    let (front, rest) = lits.split_at(lits.len().min(FRONT));
    match first_other(trail, front, partner) {
        Some(lit) => Some(lit),
        None => last_other(trail, rest, partner),
    }
}

/// As many literals are the front.
const FRONT: usize = 8;

/// The first of these literals that isn't false, besides the other watched one.
fn first_other(trail: &Trail, lits: &[Lit], partner: Lit) -> Option<Lit>
    requires { All (IsOver trail.now.vars) lits.now }
    ensures { MatchOption result (OthersFalse (known_of trail.now.entries) lits.now partner) (λ lit. Contains lits.now lit × (lit ≢ partner) × (is_known (known_of trail.now.entries) (negated lit) ≡ false)) }
{
    for lit in lits {
        if *lit != partner && !trail.is_true(lit.negated()) {
            return Some(*lit);
        }
    }
    None
}

/// The last of these literals that isn't false, besides the other watched one.
fn last_other(trail: &Trail, lits: &[Lit], partner: Lit) -> Option<Lit>
    requires { All (IsOver trail.now.vars) lits.now }
    ensures { MatchOption result (OthersFalse (known_of trail.now.entries) lits.now partner) (λ lit. Contains lits.now lit × (lit ≢ partner) × (is_known (known_of trail.now.entries) (negated lit) ≡ false)) }
{
    'from_end: for place in (0..lits.len()).rev() {
        let lit = lits[place];
        if lit != partner && !trail.is_true(lit.negated()) {
            return Some(lit);
        }
    }
    None
}
