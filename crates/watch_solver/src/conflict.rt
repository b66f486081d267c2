//! A conflict: one clause is learned, logged and added, and the trail goes back.
ghost use Rattle.std.specs.Prelude.{◌≡◌, ◌≢◌, ℕ, ◌^◌, ◌-◌, ◌<◌, [], false, IfOk, OnOk, OnErr};
ghost use Rattle.sat_core.specs.declared.literal.ClauseId.{ClauseId};
ghost use Rattle.conflict_learn.specs.Learning.{IsConflict, IsLearnedFrom};
ghost use Rattle.watch_solver.specs.Running.{IsWatchState, IsLearnedStep, watch_solving};

use crate::activity::bump_met;
use crate::state::State;
use activity_order::go_back;
use conflict_learn::{Learned, learn_with};
use sat_core::{ClauseId, Lit};
use std::alloc::{AllocError, Global};
use vss_lists::Items;

/// Learns from a false clause. After want of memory the solver is seen as before.
pub(crate) fn conflict(state: &mut State, id: ClauseId) -> Result<(), AllocError>
    requires state { IsWatchState state.old }
    requires open { state.old.refuted ≡ false }
    requires conflict { IsConflict state.old.store.live state.old.trail id }
    requires numbered { state.old.last < 2 ^ 32 - 1 }
    ensures vars { state.new.trail.vars ≡ state.old.trail.vars }
    ensures state { OnOk result (IsWatchState state.new) }
    ensures met { OnOk result (IsLearnedStep state.old state.new) }
    ensures err { OnErr result (watch_solving state.new false ≡ watch_solving state.old false) }
{
    let learned = learn_with(
        &mut state.space,
        state.alloc,
        &state.trail,
        &state.store,
        id,
    )?;
    let lits = copied(state.alloc, learned.lits.as_slice())?;
    let hints = copied(state.alloc, learned.hints.as_slice())?;
    if learned.lits.is_empty() {
        return refute(state, lits, hints);
    }
    keep(state, lits, hints, learned.level)
}

/// The empty clause is logged: the search is over.
fn refute(state: &mut State, lits: Items<Lit>, hints: Items<ClauseId>) -> Result<(), AllocError>
    requires state { IsWatchState state.old }
    requires open { state.old.refuted ≡ false }
    requires empty { lits ≡ [] }
    requires learned { (level : ℕ) × IsLearnedFrom state.old.store.live state.old.trail lits hints level }
    requires numbered { state.old.last < 2 ^ 32 - 1 }
    ensures vars { state.new.trail.vars ≡ state.old.trail.vars }
    ensures state { OnOk result (IsWatchState state.new) }
    ensures met { OnOk result (IsLearnedStep state.old state.new) }
    ensures err { OnErr result (watch_solving state.new false ≡ watch_solving state.old false) }
{
    state.history.add(ClauseId(state.last + 1), lits, hints)?;
    state.last += 1;
    state.refuted = true;
    Ok(())
}

/// A learned clause that isn't empty is added, and forces its first literal at the level to which the trail goes back.
fn keep(
    state: &mut State,
    lits: Items<Lit>,
    hints: Items<ClauseId>,
    level: u32,
) -> Result<(), AllocError>
    requires state { IsWatchState state.old }
    requires open { state.old.refuted ≡ false }
    requires some { lits ≢ [] }
    requires learned { IsLearnedFrom state.old.store.live state.old.trail lits hints level }
    requires numbered { state.old.last < 2 ^ 32 - 1 }
    ensures vars { state.new.trail.vars ≡ state.old.trail.vars }
    ensures state { OnOk result (IsWatchState state.new) }
    ensures met { OnOk result (IsLearnedStep state.old state.new) }
    ensures err { OnErr result (watch_solving state.new false ≡ watch_solving state.old false) }
{
    let id = ClauseId(state.last + 1);
    state.met.push(id.0)?;
    bump_met(
        &mut state.order,
        state.stamps.as_mut_slice(),
        state.met.as_mut_slice(),
        &state.store,
        hints.as_slice(),
        state.last + 1,
    );
    go_back(&mut state.order, &mut state.trail, level);
    state.store.add(id, lits.as_slice(), &state.trail)?;
    state.trail.assign(lits.as_slice()[0], id);
    state.history.add(id, lits, hints)?;
    state.last += 1;
    Ok(())
}

/// A copy of a list.
fn copied<T: Copy>(alloc: Global, items: &[T]) -> Result<Items<T>, AllocError>
    ensures { IfOk result (λ copy. copy ≡ items.now) }
{
    let mut copy = Vec::new(alloc);
    copy.extend_from_slice(items)?;
    Ok(Items::from_vec(copy))
}
