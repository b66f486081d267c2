//! Which learned clauses are dropped: at least half of those that may go, the ones that were met the longest time ago.
ghost use Rattle.std.specs.Prelude.{◌≡◌, ◌≢◌, ◌≤◌, All, Contains, IfOk, Some, true, false, length};
ghost use Rattle.sat_core.specs.Clauses.{IsOver};
ghost use Rattle.watch_store.specs.Fits.{FitsTrail};
ghost use Rattle.watch_solver.specs.Running.{IsWatchState};
ghost use Rattle.watch_solver.specs.Dropping.{MayGo, AreToGo};

use crate::state::State;
use conflict_learn::Clauses;
use sat_core::{ClauseId, Lit};
use search_trail::Trail;
use std::alloc::AllocError;
use watch_store::WatchStore;

/// The numbers of the clauses to drop, rising.
pub(crate) fn chosen(state: &State) -> Result<Vec<ClauseId>, AllocError>
    requires state { IsWatchState state.now }
    requires open { state.now.refuted ≡ false }
    ensures { IfOk result (λ ids. AreToGo state.now.store.live state.now.trail.entries state.now.given ids.items) }
{
    let meetings = meetings_of(state)?;
    let cut = cut_of(meetings.as_slice(), state.last);
    let mut ids = Vec::new(state.alloc);
    'numbers: for number in state.given..state.last {
        let id = ClauseId(number + 1);
        if may_go(&state.store, &state.trail, id) {
            if last_met(state, id) <= cut {
                ids.push(id)?;
            }
        }
    }
    Ok(ids)
}

/// When those that may go were met last.
fn meetings_of(state: &State) -> Result<Vec<u32>, AllocError>
    requires state { IsWatchState state.now }
    requires open { state.now.refuted ≡ false }
{
    let mut meetings = Vec::new(state.alloc);
    'numbers: for number in state.given..state.last {
        let id = ClauseId(number + 1);
        if may_go(&state.store, &state.trail, id) {
            meetings.push(last_met(state, id))?;
        }
    }
    Ok(meetings)
}

/// The number of the clause in whose learning this one was met last.
fn last_met(state: &State, id: ClauseId) -> u32 {
    match state.met.get(id.0 as usize) {
        Some(number) => *number,
        None => 0,
    }
}

/// The least number up to which at least half of these are.
fn cut_of(meetings: &[u32], last: u32) -> u32 {
    let mut low = 0;
    let mut high = last;
    'halves: while low < high {
        let middle = low + (high - low) / 2;
        let few = count_upto(meetings, middle);
        if few >= meetings.len() - few {
            high = middle;
        } else {
            low = middle + 1;
        }
    }
    low
}

/// How many are at most this.
fn count_upto(meetings: &[u32], cut: u32) -> usize
    ensures { result ≤ length meetings.now }
{
    let mut count = 0;
    'meetings: for met in meetings {
        if *met <= cut {
            count += 1;
        }
    }
    count
}

/// Whether the clause is live, has three or more literals, and is no reason.
fn may_go(store: &WatchStore, trail: &Trail, id: ClauseId) -> bool
    requires fits { FitsTrail store.now trail.now }
    ensures { result ≡ true → MayGo store.now.live trail.now.entries id }
{
    match store.lits(id) {
        Some(lits) => {
            if lits.len() < 3 {
                return false;
            }
            if is_reason(trail, lits, id) {
                return false;
            }
            true
        }
        None => false,
    }
}

/// Whether the clause is the reason of one of these literals.
fn is_reason(trail: &Trail, lits: &[Lit], id: ClauseId) -> bool
    requires { All (IsOver trail.now.vars) lits.now }
    ensures { result ≡ false → All (λ e. Contains lits.now e.lit → e.reason ≢ Some id) trail.now.entries }
{
    'lits: for lit in lits {
        match trail.reason(lit.var) {
            Some(other) => {
                if other.0 == id.0 {
                    return true;
                }
            }
            None => {}
        }
    }
    false
}
