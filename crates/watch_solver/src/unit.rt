//! A unit that is given between two searches.
ghost use Rattle.std.specs.Prelude.{◌≡◌, ◌≢◌, ◌^◌, ◌-◌, ◌<◌, ◌++◌, ◌∷◌, [], true, false, Some, None, OnOk, OnErr};
ghost use Rattle.sat_core.specs.Clauses.{IsOver};
ghost use Rattle.sat_core.specs.Search.{gives};
ghost use Rattle.solver_face.specs.Solving.{IsSound};
ghost use Rattle.watch_solver.specs.Running.{IsWatchState, watch_solving, first_clauses};

use crate::seating::seat;
use crate::state::State;
use activity_order::go_back;
use sat_core::{ClauseId, Lit};
use std::alloc::AllocError;

/// One more clause of one literal; the trail goes back to level 0.
pub(crate) fn give(state: &mut State, lit: Lit) -> Result<(), AllocError>
    requires state { IsWatchState state.old }
    requires over { IsOver state.old.store.vars lit }
    requires numbered { state.old.last < 2 ^ 32 - 1 }
    ensures state { OnOk result (IsWatchState state.new) }
    ensures sound { IsSound (watch_solving state.new false) }
    ensures vars { state.new.store.vars ≡ state.old.store.vars }
    ensures formula { first_clauses state.new.given state.new.store.live ≡ first_clauses state.old.given state.old.store.live }
    ensures found { (watch_solving state.new false).found ≡ (watch_solving state.old false).found }
    ensures ok { OnOk result (state.new.history ≡ state.old.history ++ gives lit ∷ []) }
    ensures err { OnErr result (state.new.history ≡ state.old.history) }
{
    if state.refuted {
        state.history.give(lit)?;
        state.last += 1;
        return Ok(());
    }
    give_live(state, lit)
}

/// The same, while nothing is refuted. Linear in the literals of the trail that go.
fn give_live(state: &mut State, lit: Lit) -> Result<(), AllocError>
    requires state { IsWatchState state.old }
    requires open { state.old.refuted ≡ false }
    requires over { IsOver state.old.store.vars lit }
    requires numbered { state.old.last < 2 ^ 32 - 1 }
    ensures state { OnOk result (IsWatchState state.new) }
    ensures sound { IsSound (watch_solving state.new false) }
    ensures vars { state.new.store.vars ≡ state.old.store.vars }
    ensures formula { first_clauses state.new.given state.new.store.live ≡ first_clauses state.old.given state.old.store.live }
    ensures found { (watch_solving state.new false).found ≡ (watch_solving state.old false).found }
    ensures ok { OnOk result (state.new.history ≡ state.old.history ++ gives lit ∷ []) }
    ensures err { OnErr result (state.new.history ≡ state.old.history) }
{
    let id = ClauseId(state.last + 1);
    let lits = [lit];
    state.met.push(0)?;
    go_back(&mut state.order, &mut state.trail, 0);
    state.store.add(id, lits.as_slice(), &state.trail)?;
    state.history.give(lit)?;
    state.last += 1;
    let clash = seat(&state.store, &mut state.trail, id, lits.as_slice());
    state.clash = first_clash(state.clash, clash, id);
    Ok(())
}

/// The clash that was met first.
fn first_clash(before: Option<ClauseId>, clash: bool, id: ClauseId) -> Option<ClauseId>
    ensures stays { before ≢ None → result ≡ before }
    ensures none { before ≡ None → clash ≡ false → result ≡ None }
    ensures new { before ≡ None → clash ≡ true → result ≡ Some id }
{
    match before {
        Some(other) => Some(other),
        None => { if clash { Some(id) } else { None } }
    }
}
