//! From the conflict down the trail of the present level to the first unique implication point.
ghost use Rattle.std.specs.Prelude.{◌≡◌, ℕ, ◌+◌, ◌-◌, All, IfOk, OnOk, length, reverse, true, false, Some, None, slice_index_or};
ghost use Rattle.sat_core.specs.Clauses.{IsClause};
ghost use Rattle.sat_core.specs.declared.literal.ClauseId.{ClauseId};
ghost use Rattle.search_trail.specs.Reasons.{AreReasons};
ghost use Rattle.conflict_learn.specs.Learning.{IsConflict, IsLearnedFrom};
ghost use Rattle.conflict_learn.specs.Working.{IsWorkingOn, IsKeptBack, IsResolved, IsOnTrail, IsPlaceToResolve};

use crate::clauses::Clauses;
use crate::learned::Learned;
use crate::lower::settle_lower;
use crate::marking::mark_all;
use crate::marks::Marks;
use sat_core::{ClauseId, Lit};
use search_trail::Trail;
use smallvec::SmallVec;
use std::alloc::{AllocError, Global};

/// What is learned so far, while the trail is read from its end.
#[derive(Drop)]
pub(crate) struct Work {
    // how many marked literals of the present level are still to come
    pub(crate) unresolved: u32,
    pub(crate) level: u32,
    pub(crate) lits: SmallVec<Lit, 16>,
    // the last one first
    pub(crate) hints: SmallVec<ClauseId, 16>,
}

/// Learns from a false clause, with marks of which none is set at first. `places` is room to work in.
pub(crate) fn descend<C: Clauses>(
    alloc: Global,
    trail: &Trail,
    clauses: &C,
    conflict: ClauseId,
    marks: &mut Marks,
    places: &mut Vec<u32>,
) -> Result<Learned, AllocError>
    requires long { length marks.old ≡ trail.now.vars }
    requires clear { (n : ℕ) → slice_index_or marks.old n false ≡ false }
    requires over { All (λ clause. IsClause trail.now.vars clause.lits) (C.live clauses.now) }
    requires reasons { AreReasons (C.live clauses.now) trail.now.entries }
    requires conflict { IsConflict (C.live clauses.now) trail.now conflict }
    ensures long { length marks.new ≡ length marks.old }
    ensures learned { IfOk result (λ learned. IsLearnedFrom (C.live clauses.now) trail.now learned.lits.items learned.hints.items learned.level) }
{
    let mut work = start(alloc, trail, clauses, conflict, marks)?;
    let mut place = trail.len();
    'places: while work.unresolved > 0 {
        place -= 1;
        let lit = trail.at(place);
        if marks.is_marked(lit.var) {
            settle(trail, clauses, marks, &mut work, lit, place)?;
        }
    }
    settle_lower(trail, clauses, marks, places, &mut work, place)?;
    Ok(finish(work))
}

/// The conflict's literals are marked.
fn start<C: Clauses>(
    alloc: Global,
    trail: &Trail,
    clauses: &C,
    conflict: ClauseId,
    marks: &mut Marks,
) -> Result<Work, AllocError>
    requires long { length marks.old ≡ trail.now.vars }
    requires clear { (n : ℕ) → slice_index_or marks.old n false ≡ false }
    requires over { All (λ clause. IsClause trail.now.vars clause.lits) (C.live clauses.now) }
    requires conflict { IsConflict (C.live clauses.now) trail.now conflict }
    ensures long { length marks.new ≡ length marks.old }
    ensures working { IfOk result (λ work. IsWorkingOn (C.live clauses.now) trail.now (length trail.now.entries) marks.new work) }
{
    let lits = match clauses.lits(conflict) {
        Some(lits) => lits,
        None => unreachable!(),
    };
    // for the proof alone
    let _len = trail.len();
    let mut hints = SmallVec::new(alloc);
    hints.push(conflict)?;
    let unresolved = mark_all(trail, marks, lits);
    Ok(Work {
        unresolved,
        level: 0,
        lits: SmallVec::new(alloc),
        hints,
    })
}

/// Resolves a marked literal or keeps its negation.
fn settle<C: Clauses>(
    trail: &Trail,
    clauses: &C,
    marks: &mut Marks,
    work: &mut Work,
    lit: Lit,
    place: u32,
) -> Result<(), AllocError>
    requires place { IsPlaceToResolve (C.live clauses.now) trail.now place lit }
    requires marked { slice_index_or marks.old (lit.var.0 - 1) false ≡ true }
    requires working { IsWorkingOn (C.live clauses.now) trail.now (place + 1) marks.old work.old }
    ensures long { length marks.new ≡ length marks.old }
    ensures working { OnOk result (IsWorkingOn (C.live clauses.now) trail.now place marks.new work.new) }
{
    match resolving(trail, lit, work.unresolved) {
        Some(id) => resolve(trail, clauses, marks, work, lit, place, id),
        None => keep(trail, clauses, marks, work, lit, place),
    }
}

/// The reason of a marked literal of the present level, where it is to be resolved: always at level 0, and above it while
/// other marked ones are left.
fn resolving(trail: &Trail, lit: Lit, unresolved: u32) -> Option<ClauseId>
    requires assigned { IsOnTrail trail.now lit }
    ensures kept { result ≡ None → All (λ e. e.lit.var.0 ≡ lit.var.0 → IsKeptBack trail.now.present unresolved e) trail.now.entries }
    ensures resolved { (id : ClauseId) → result ≡ Some id → All (λ e. e.lit.var.0 ≡ lit.var.0 → IsResolved trail.now.present unresolved id e) trail.now.entries }
{
    let level = trail.level(lit.var);
    let reason = trail.reason(lit.var);
    if level == trail.now() && (level == 0 || unresolved > 1) {
        return reason;
    }
    None
}

/// A marked literal is resolved: the other literals of its reason are marked in its place.
fn resolve<C: Clauses>(
    trail: &Trail,
    clauses: &C,
    marks: &mut Marks,
    work: &mut Work,
    lit: Lit,
    place: u32,
    id: ClauseId,
) -> Result<(), AllocError>
    requires place { IsPlaceToResolve (C.live clauses.now) trail.now place lit }
    requires marked { slice_index_or marks.old (lit.var.0 - 1) false ≡ true }
    requires resolved { All (λ e. e.lit.var.0 ≡ lit.var.0 → IsResolved trail.now.present work.old.unresolved id e) trail.now.entries }
    requires working { IsWorkingOn (C.live clauses.now) trail.now (place + 1) marks.old work.old }
    ensures long { length marks.new ≡ length marks.old }
    ensures working { OnOk result (IsWorkingOn (C.live clauses.now) trail.now place marks.new work.new) }
{
    let lits = match clauses.lits(id) {
        Some(lits) => lits,
        None => unreachable!(),
    };
    work.hints.push(id)?;
    let less = u32::from(trail.level(lit.var) == trail.now());
    let found = mark_all(trail, marks, lits);
    work.unresolved = work.unresolved - less + found;
    Ok(())
}

/// The negation of a marked literal stays in the learned clause.
fn keep<C: Clauses>(
    trail: &Trail,
    clauses: &C,
    marks: &Marks,
    work: &mut Work,
    lit: Lit,
    place: u32,
) -> Result<(), AllocError>
    requires place { IsPlaceToResolve (C.live clauses.now) trail.now place lit }
    requires marked { slice_index_or marks.now (lit.var.0 - 1) false ≡ true }
    requires kept { All (λ e. e.lit.var.0 ≡ lit.var.0 → IsKeptBack trail.now.present work.old.unresolved e) trail.now.entries }
    requires working { IsWorkingOn (C.live clauses.now) trail.now (place + 1) marks.now work.old }
    ensures working { OnOk result (IsWorkingOn (C.live clauses.now) trail.now place marks.now work.new) }
{
    let level = trail.level(lit.var);
    work.lits.push(lit.negated())?;
    if level == trail.now() {
        work.unresolved -= 1;
    } else {
        work.level = work.level.max(level);
    }
    Ok(())
}

/// The learned clause, with its hints in the order of the trail and the conflict last.
fn finish(mut work: Work) -> Learned
    ensures lits { result.lits.items ≡ work.lits.items }
    ensures hints { result.hints.items ≡ reverse work.hints.items }
    ensures level { result.level ≡ work.level }
{
    work.hints.as_mut_slice().reverse();
    let Work {
        lits,
        hints,
        level,
        ..
    } = work;
    Learned { lits, hints, level }
}
