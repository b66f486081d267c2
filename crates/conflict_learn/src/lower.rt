//! The marked literals below the present level, in the order of the trail: each stays, or is implied by the others.
ghost use Rattle.std.specs.Prelude.{◌≡◌, ℕ, ◌+◌, ◌-◌, ◌<◌, ◌≤◌, All, Some, IfOk, IfSome, OnOk, length, true, false, slice_index_or};
ghost use Rattle.sat_core.specs.Clauses.{IsClause, IsOver};
ghost use Rattle.std.specs.List.Sorted.{IsNonDecreasing};
ghost use Rattle.search_trail.specs.Reasons.{AreReasons};
ghost use Rattle.search_trail.specs.Trails.{IsTrail};
ghost use Rattle.conflict_learn.specs.Working.{IsMarked, IsWorkingOn, IsPlaceToResolve, IsListed, IsTouchedAt, AreAllMarked, IsImplied};

use crate::clauses::Clauses;
use crate::learning::Work;
use crate::marks::Marks;
use sat_core::{ClauseId, Lit, Var};
use search_trail::Trail;
use std::alloc::AllocError;

/// Settles the marked literals below a place, of which none is of the present level. They are few: only their places are
/// sorted. `places` is room to work in, and has enough for every variable.
pub(crate) fn settle_lower<C: Clauses>(
    trail: &Trail,
    clauses: &C,
    marks: &Marks,
    places: &mut Vec<u32>,
    work: &mut Work,
    place: u32,
) -> Result<(), AllocError>
    requires laws { IsTrail trail.now }
    requires over { All (λ clause. IsClause trail.now.vars clause.lits) (C.live clauses.now) }
    requires reasons { AreReasons (C.live clauses.now) trail.now.entries }
    requires within { place ≤ length trail.now.entries }
    requires none { work.old.unresolved ≡ 0 }
    requires working { IsWorkingOn (C.live clauses.now) trail.now place marks.now work.old }
    ensures working { OnOk result (IsWorkingOn (C.live clauses.now) trail.now 0 marks.now work.new) }
{
    places.clear();
    collect(trail, marks.touched(), place, places)?;
    places.sort_unstable();
    settle_all(trail, clauses, marks, places.as_slice(), work, place)
}

/// The places of these variables that are below an end.
fn collect(
    trail: &Trail,
    touched: &[Var],
    end: u32,
    places: &mut Vec<u32>,
) -> Result<(), AllocError>
    requires laws { IsTrail trail.now }
    requires in_range { All (λ v. (1 ≤ v.0) × (v.0 ≤ trail.now.vars)) touched.now }
    ensures all { OnOk result ((k : ℕ) → k < end → k < length trail.now.entries → IsTouchedAt trail.now.entries touched.now (length touched.now) k → IsListed places.new.items k) }
{
    for var in touched {
        note(trail.place(*var), end, places)?;
    }
    Ok(())
}

/// Adds a place that is below an end.
fn note(place: Option<u32>, end: u32, places: &mut Vec<u32>) -> Result<(), AllocError>
    ensures kept { OnOk result ((k : ℕ) → IsListed places.old.items k → IsListed places.new.items k) }
    ensures noted { OnOk result ((k : ℕ) → k < end → place ≡ Some k → IsListed places.new.items k) }
{
    match place {
        Some(below) if below < end => {
            places.push(below)?;
            Ok(())
        }
        _ => Ok(()),
    }
}

/// Settles the literals at these places, which rise, from the last one down; the others below the place aren't marked.
fn settle_all<C: Clauses>(
    trail: &Trail,
    clauses: &C,
    marks: &Marks,
    places: &[u32],
    work: &mut Work,
    place: u32,
) -> Result<(), AllocError>
    requires laws { IsTrail trail.now }
    requires over { All (λ clause. IsClause trail.now.vars clause.lits) (C.live clauses.now) }
    requires reasons { AreReasons (C.live clauses.now) trail.now.entries }
    requires within { place ≤ length trail.now.entries }
    requires rising { IsNonDecreasing places.now }
    requires listed { (k : ℕ) → k < place → IsMarked trail.now.entries marks.now k → IsListed places.now k }
    requires none { work.old.unresolved ≡ 0 }
    requires working { IsWorkingOn (C.live clauses.now) trail.now place marks.now work.old }
    ensures working { OnOk result (IsWorkingOn (C.live clauses.now) trail.now 0 marks.now work.new) }
{
    let mut below = place;
    let mut left = places.len();
    'places: while left > 0 {
        left -= 1;
        below = settle_at(trail, clauses, marks, work, places[left], below)?;
    }
    Ok(())
}

/// Settles the literal at a place below another, where it is marked; none between the two is. Tells below which place
/// the trail is still to be settled.
fn settle_at<C: Clauses>(
    trail: &Trail,
    clauses: &C,
    marks: &Marks,
    work: &mut Work,
    next: u32,
    below: u32,
) -> Result<u32, AllocError>
    requires laws { IsTrail trail.now }
    requires over { All (λ clause. IsClause trail.now.vars clause.lits) (C.live clauses.now) }
    requires reasons { AreReasons (C.live clauses.now) trail.now.entries }
    requires within { below ≤ length trail.now.entries }
    requires passed { (k : ℕ) → next < k → k < below → ¬ IsMarked trail.now.entries marks.now k }
    requires none { work.old.unresolved ≡ 0 }
    requires working { IsWorkingOn (C.live clauses.now) trail.now below marks.now work.old }
    ensures lower { IfOk result (λ now. now ≤ below) }
    ensures none { IfOk result (λ now. work.new.unresolved ≡ 0) }
    ensures settled { IfOk result (λ now. (k : ℕ) → k < now → IsMarked trail.now.entries marks.now k → k < next) }
    ensures working { IfOk result (λ now. IsWorkingOn (C.live clauses.now) trail.now now marks.now work.new) }
{
    if below <= next {
        return Ok(below);
    }
    let lit = trail.at(next);
    if marks.is_marked(lit.var) {
        settle_low(trail, clauses, marks, work, lit, next)?;
        return Ok(next);
    }
    Ok(below)
}

/// Leaves a marked literal out where the clause's other literals imply it, or keeps its negation.
fn settle_low<C: Clauses>(
    trail: &Trail,
    clauses: &C,
    marks: &Marks,
    work: &mut Work,
    lit: Lit,
    place: u32,
) -> Result<(), AllocError>
    requires place { IsPlaceToResolve (C.live clauses.now) trail.now place lit }
    requires marked { slice_index_or marks.now (lit.var.0 - 1) false ≡ true }
    requires none { work.old.unresolved ≡ 0 }
    requires working { IsWorkingOn (C.live clauses.now) trail.now (place + 1) marks.now work.old }
    ensures none { OnOk result (work.new.unresolved ≡ 0) }
    ensures working { OnOk result (IsWorkingOn (C.live clauses.now) trail.now place marks.now work.new) }
{
    match implied(trail, clauses, marks, lit) {
        Some(id) => leave_out(trail, clauses, marks, work, lit, place, id),
        None => keep_low(trail, clauses, marks, work, lit, place),
    }
}

/// Leaves a marked literal out, with its reason as a hint.
fn leave_out<C: Clauses>(
    trail: &Trail,
    clauses: &C,
    marks: &Marks,
    work: &mut Work,
    lit: Lit,
    place: u32,
    id: ClauseId,
) -> Result<(), AllocError>
    requires place { IsPlaceToResolve (C.live clauses.now) trail.now place lit }
    requires marked { slice_index_or marks.now (lit.var.0 - 1) false ≡ true }
    requires reason { All (λ e. e.lit.var.0 ≡ lit.var.0 → e.reason ≡ Some id) trail.now.entries }
    requires implied { IsImplied (C.live clauses.now) marks.now id }
    requires none { work.old.unresolved ≡ 0 }
    requires working { IsWorkingOn (C.live clauses.now) trail.now (place + 1) marks.now work.old }
    ensures none { OnOk result (work.new.unresolved ≡ 0) }
    ensures working { OnOk result (IsWorkingOn (C.live clauses.now) trail.now place marks.now work.new) }
{
    work.hints.push(id)?;
    Ok(())
}

/// The negation of a marked literal stays in the learned clause.
fn keep_low<C: Clauses>(
    trail: &Trail,
    clauses: &C,
    marks: &Marks,
    work: &mut Work,
    lit: Lit,
    place: u32,
) -> Result<(), AllocError>
    requires place { IsPlaceToResolve (C.live clauses.now) trail.now place lit }
    requires marked { slice_index_or marks.now (lit.var.0 - 1) false ≡ true }
    requires none { work.old.unresolved ≡ 0 }
    requires working { IsWorkingOn (C.live clauses.now) trail.now (place + 1) marks.now work.old }
    ensures none { OnOk result (work.new.unresolved ≡ 0) }
    ensures working { OnOk result (IsWorkingOn (C.live clauses.now) trail.now place marks.now work.new) }
{
    let level = trail.level(lit.var);
    work.lits.push(lit.negated())?;
    work.level = work.level.max(level);
    Ok(())
}

/// The reason of a literal, where all its variables are marked.
fn implied<C: Clauses>(trail: &Trail, clauses: &C, marks: &Marks, lit: Lit) -> Option<ClauseId>
    requires over { All (λ clause. IsClause (length marks.now) clause.lits) (C.live clauses.now) }
    requires in_range { (1 ≤ lit.var.0) × (lit.var.0 ≤ trail.now.vars) }
    ensures reason { IfSome result (λ id. All (λ e. e.lit.var.0 ≡ lit.var.0 → e.reason ≡ Some id) trail.now.entries) }
    ensures marked { IfSome result (IsImplied (C.live clauses.now) marks.now) }
{
    match trail.reason(lit.var) {
        None => None,
        Some(id) => {
            if adds_nothing(clauses, marks, id) {
                Some(id)
            } else {
                None
            }
        }
    }
}

/// Whether a clause is live and all its variables are marked.
fn adds_nothing<C: Clauses>(clauses: &C, marks: &Marks, id: ClauseId) -> bool
    requires { All (λ clause. IsClause (length marks.now) clause.lits) (C.live clauses.now) }
    ensures { result ≡ true → IsImplied (C.live clauses.now) marks.now id }
{
    match clauses.lits(id) {
        None => false,
        Some(lits) => are_marked(marks, lits),
    }
}

/// Whether the variables of all these literals are marked.
fn are_marked(marks: &Marks, lits: &[Lit]) -> bool
    requires { All (IsOver (length marks.now)) lits.now }
    ensures { result ≡ true → AreAllMarked marks.now lits.now }
{
    for lit in lits {
        if !marks.is_marked(lit.var) {
            return false;
        }
    }
    true
}
