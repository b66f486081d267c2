//! Which two literals a new clause watches.
ghost use Rattle.std.specs.Prelude.{◌≡◌, ◌≢◌, ◌⊎◌, ◌+◌, ◌<◌, All, Any, Contains, MatchOption, false, true, ◌-◌, ◌^◌, ◌≤◌, length};
ghost use Rattle.sat_core.specs.Clauses.{negated, IsOver, IsClause};
ghost use Rattle.sat_core.specs.Hints.{is_known};
ghost use Rattle.search_trail.specs.Trails.{AreFalse, known_of};
ghost use Rattle.watch_store.specs.Fits.{HasTwoNotFalse, IsUnitNow, IsChosen, IsPair};

use crate::found::replacement;
use sat_core::{Lit, Var};
use search_trail::Trail;

/// What a new clause watches on this trail over the variables 1 to `vars`: two of its literals, or idle ones where it has
/// fewer.
pub(crate) fn pair_for(trail: &Trail, lits: &[Lit], vars: u32) -> (Lit, Lit)
    requires same { vars ≡ trail.now.vars }
    requires numbered { vars < 2 ^ 32 - 1 }
    requires clause { IsClause vars lits.now }
    requires watchable { 2 ≤ length lits.now → HasTwoNotFalse (known_of trail.now.entries) lits.now ⊎ IsUnitNow trail.now lits.now }
    ensures pair { IsPair vars lits.now result.0 result.1 }
    ensures chosen { 2 ≤ length lits.now → IsChosen trail.now lits.now result.0 result.1 }
    ensures idle { length lits.now < 2 → (vars < result.0.var.0) × (vars < result.1.var.0) }
{
    if lits.len() < 2 {
        return idle(vars);
    }
    choose(trail, lits)
}

/// Two literals that aren't false; or the open one and a false one of the present level. At most three passes over the
/// literals.
fn choose(trail: &Trail, lits: &[Lit]) -> (Lit, Lit)
    requires in_range { All (IsOver trail.now.vars) lits.now }
    requires watchable { HasTwoNotFalse (known_of trail.now.entries) lits.now ⊎ IsUnitNow trail.now lits.now }
    ensures { IsChosen trail.now lits.now result.0 result.1 }
{
    let first = match not_false(trail, lits) {
        Some(lit) => lit,
        None => unreachable!(),
    };
    let second = match replacement(trail, lits, first) {
        Some(lit) => lit,
        None => latest(trail, lits),
    };
    (first, second)
}

/// The first literal that isn't false.
fn not_false(trail: &Trail, lits: &[Lit]) -> Option<Lit>
    requires { All (IsOver trail.now.vars) lits.now }
    ensures { MatchOption result (AreFalse (known_of trail.now.entries) lits.now) (λ lit. Contains lits.now lit × (is_known (known_of trail.now.entries) (negated lit) ≡ false)) }
{
    for lit in lits {
        if !trail.is_true(lit.negated()) {
            return Some(*lit);
        }
    }
    None
}

/// The first literal that is false at the present level, where there is one.
fn latest(trail: &Trail, lits: &[Lit]) -> Lit
    requires in_range { All (IsOver trail.now.vars) lits.now }
    requires some { Any (λ other. Any (λ e. (e.lit ≡ negated other) × (e.level ≡ trail.now.present)) trail.now.entries) lits.now }
    ensures stands { Contains lits.now result }
    ensures latest { Any (λ e. (e.lit ≡ negated result) × (e.level ≡ trail.now.present)) trail.now.entries }
{
    for lit in lits {
        if is_latest(trail, *lit) {
            return *lit;
        }
    }
    unreachable!()
}

/// Whether the literal is false at the present level.
fn is_latest(trail: &Trail, lit: Lit) -> bool
    requires { IsOver trail.now.vars lit }
    ensures yes { result ≡ true → Any (λ e. (e.lit ≡ negated lit) × (e.level ≡ trail.now.present)) trail.now.entries }
    ensures no { result ≡ false → All (λ e. e.lit ≡ negated lit → e.level ≢ trail.now.present) trail.now.entries }
{
    if trail.is_true(lit.negated()) {
        return trail.level(lit.var) == trail.now();
    }
    false
}

/// What a clause of fewer than two literals watches: a variable above all others, one with each sign.
pub(crate) fn idle(vars: u32) -> (Lit, Lit)
    requires { vars < 2 ^ 32 - 1 }
    ensures { (result.0.var.0 ≡ vars + 1) × (result.1.var.0 ≡ vars + 1) × (result.0 ≢ result.1) }
{
    let var = Var(vars + 1);
    (
        Lit {
            var,
            positive: false,
        },
        Lit {
            var,
            positive: true,
        },
    )
}
