//! Learned clauses that are dropped, so that propagation has fewer to look at.
ghost use Rattle.std.specs.Prelude.{◌≡◌, ◌⊎◌, ℕ, IsTrue, OnOk, OnErr, false};
ghost use Rattle.sat_core.specs.Search.{IsDropPlace};
ghost use Rattle.solver_face.specs.Solving.{search_now};
ghost use Rattle.watch_store.specs.Fits.{FitsTrail};
ghost use Rattle.watch_solver.specs.Running.{IsWatchState, watch_solving};
ghost use Rattle.watch_solver.specs.Dropping.{AreToGo, without_ids, IsDropStep};

use crate::drop_choice::chosen;
use crate::state::State;
use sat_core::ClauseId;
use search_trail::Trail;
use std::alloc::AllocError;
use vss_lists::Items;
use watch_store::WatchStore;

/// Where so many conflicts were met, drops the chosen ones of the learned clauses, and uses their room again. Linear in the
/// literals of the live clauses, in the numbers and in the variables.
pub(crate) fn drop_learned(state: &mut State) -> Result<(), AllocError>
    requires state { IsWatchState state.old }
    requires open { state.old.refuted ≡ false }
    requires just { IsTrue (search_now (watch_solving state.old false)).just_added }
    ensures trail { state.new.trail ≡ state.old.trail }
    ensures state { OnOk result (IsWatchState state.new) }
    ensures step { OnOk result (IsDropStep state.old state.new) }
    ensures err { OnErr result (watch_solving state.new false ≡ watch_solving state.old false) }
{
    if state.drop_at == 0 {
        return Ok(());
    }
    if state.history.adds() != state.drop_at {
        return Ok(());
    }
    if state.clash.is_some() {
        return Ok(());
    }
    let ids = chosen(state)?;
    state.drop_at = next_drop(state.drop_at);
    if ids.len() == 0 {
        return Ok(());
    }
    let_go(&mut state.store, &state.trail, ids.as_slice());
    state.history.drop_clauses(Items::from_vec(ids))?;
    Ok(())
}

/// The number of conflicts at which clauses are dropped next: 2,000, then 4,000 more, and so on, doubling; 0 where it would
/// be too great.
fn next_drop(place: u32) -> u32
    requires { IsDropPlace place }
    ensures { (result ≡ 0) ⊎ IsDropPlace result }
{
    if place > (u32::MAX - 2000) / 2 {
        return 0;
    }
    2 * place + 2000
}

/// The clauses with these numbers are live no longer, and their room is used again. Where there is no memory for that the
/// store keeps the room that it has, and the search goes on.
fn let_go(store: &mut WatchStore, trail: &Trail, ids: &[ClauseId])
    requires fits { FitsTrail store.old trail.now }
    requires go { (given : ℕ) × AreToGo store.old.live trail.now.entries given ids.now }
    ensures vars { store.new.vars ≡ store.old.vars }
    ensures live { store.new.live ≡ without_ids ids.now store.old.live }
    ensures fits { FitsTrail store.new trail.now }
{
    discard_all(store, trail, ids);
    match store.compact() {
        Ok(()) => {}
        Err(AllocError) => {}
    }
}

/// The clauses with these numbers are live no longer.
fn discard_all(store: &mut WatchStore, trail: &Trail, ids: &[ClauseId])
    requires fits { FitsTrail store.old trail.now }
    requires go { (given : ℕ) × AreToGo store.old.live trail.now.entries given ids.now }
    ensures vars { store.new.vars ≡ store.old.vars }
    ensures live { store.new.live ≡ without_ids ids.now store.old.live }
    ensures fits { FitsTrail store.new trail.now }
{
    'ids: for id in ids {
        store.discard(*id);
    }
}
