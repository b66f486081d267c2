//! The search: rounds of propagation, each ended by a conflict, a decision or an answer.
ghost use Rattle.std.specs.Prelude.{◌≡◌, ◌+◌, ◌^◌, ◌<◌, ◌≤◌, ℕ, true, false, None, Ok, length, IfOk, IfSome, IfNone, OnOk};
ghost use Rattle.sat_core.specs.Fresh.{IsClosed};
ghost use Rattle.sat_core.specs.Search.{log_of};
ghost use Rattle.search_trail.specs.Trails.{known_of};
ghost use Rattle.conflict_learn.specs.Learning.{IsConflict};
ghost use Rattle.solver_face.specs.Solving.{Searched, IsAnswer, EndsInAdd};
ghost use Rattle.watch_solver.specs.Running.{IsWatchState, IsSeenAlike, watch_solving, still_to_do};

use crate::conflict::conflict;
use crate::dropping::drop_learned;
use crate::state::State;
use activity_order::{decide_next, go_back};
use sat_core::ClauseId;
use solver_face::{Answer, Budget};
use std::alloc::AllocError;
use std::sync::ledger::Ledger;
use trail_values::show;
use vss_steps::Steps;

/// Searches until there is an answer. Each round takes one of the budget or makes an open variable true or false.
pub(crate) fn search<L: Ledger>(
    state: &mut State,
    budget: &mut Budget,
    steps: &mut Steps<L>,
) -> Result<Answer, AllocError>
    requires state { IsWatchState state.old }
    requires budget { 0 < budget.old }
    requires numbered { state.old.last + budget.old < 2 ^ 32 }
    ensures state { OnOk result (IsWatchState state.new) }
    ensures searched { Searched (watch_solving state.old false) (watch_solving state.new false) budget.old budget.new }
    ensures answer { IfOk result (IsAnswer (watch_solving state.new false) budget.new) }
    ensures stays_refuted { state.old.refuted ≡ true → result ≡ Ok Answer.Unsat }
{
    if state.refuted {
        return Ok(Answer::Unsat);
    }
    'rounds: loop {
        match round(state, budget, steps)? {
            Some(answer) => return Ok(answer),
            None => {}
        }
    }
}

/// One round: an answer, or none where the search goes on.
fn round<L: Ledger>(
    state: &mut State,
    budget: &mut Budget,
    steps: &mut Steps<L>,
) -> Result<Option<Answer>, AllocError>
    requires state { IsWatchState state.old }
    requires open { state.old.refuted ≡ false }
    requires budget { 0 < budget.old }
    requires numbered { state.old.last + budget.old < 2 ^ 32 }
    ensures state { OnOk result (IsWatchState state.new) }
    ensures searched { Searched (watch_solving state.old false) (watch_solving state.new false) budget.old budget.new }
    ensures goes_on { IfOk result (λ answer. answer ≡ None → (state.new.refuted ≡ false) × (0 < budget.new) × (still_to_do state.new budget.new < still_to_do state.old budget.old)) }
    ensures answer { IfOk result (λ answer. IfSome answer (IsAnswer (watch_solving state.new false) budget.new)) }
{
    match next_conflict(state, steps) {
        Some(id) => meet(state, budget, id),
        None => Ok(settle(state)),
    }
}

/// A false clause, or none where nothing follows from any clause at once.
fn next_conflict<L: Ledger>(state: &mut State, steps: &mut Steps<L>) -> Option<ClauseId>
    requires state { IsWatchState state.old }
    requires open { state.old.refuted ≡ false }
    ensures state { IsWatchState state.new }
    ensures alike { IsSeenAlike state.old state.new }
    ensures vars { state.new.trail.vars ≡ state.old.trail.vars }
    ensures grows { length state.old.trail.entries ≤ length state.new.trail.entries }
    ensures conflict { IfSome result (IsConflict state.new.store.live state.new.trail) }
    ensures read { IfNone result (state.new.trail.read ≡ length state.new.trail.entries) }
    ensures closed { IfNone result (IsClosed (known_of state.new.trail.entries) state.new.store.live) }
    ensures no_clash { IfNone result (state.new.clash ≡ None) }
{
    match state.clash {
        Some(id) => Some(id),
        None => state.store.propagate(&mut state.trail, steps),
    }
}

/// A conflict, which spends one of the budget: an answer, or none where the search goes on.
fn meet(state: &mut State, budget: &mut Budget, id: ClauseId) -> Result<Option<Answer>, AllocError>
    requires state { IsWatchState state.old }
    requires open { state.old.refuted ≡ false }
    requires conflict { IsConflict state.old.store.live state.old.trail id }
    requires budget { 0 < budget.old }
    requires numbered { state.old.last + budget.old < 2 ^ 32 }
    ensures state { OnOk result (IsWatchState state.new) }
    ensures vars { state.new.trail.vars ≡ state.old.trail.vars }
    ensures searched { Searched (watch_solving state.old false) (watch_solving state.new false) budget.old budget.new }
    ensures spent { IfOk result (λ answer. budget.new + 1 ≡ budget.old) }
    ensures goes_on { IfOk result (λ answer. answer ≡ None → (state.new.refuted ≡ false) × (0 < budget.new)) }
    ensures answer { IfOk result (λ answer. IfSome answer (IsAnswer (watch_solving state.new false) budget.new)) }
{
    conflict(state, id)?;
    budget.spend();
    match ended(state, budget) {
        Some(answer) => Ok(Some(answer)),
        None => {
            drop_learned(state)?;
            Ok(None)
        }
    }
}

/// Whether the search ends behind a conflict; else it restarts where a restart is due.
fn ended(state: &mut State, budget: &Budget) -> Option<Answer>
    requires state { IsWatchState state.old }
    requires add_last { EndsInAdd (log_of state.old.history) }
    ensures state { IsWatchState state.new }
    ensures alike { IsSeenAlike state.old state.new }
    ensures vars { state.new.trail.vars ≡ state.old.trail.vars }
    ensures goes_on { result ≡ None → (state.new.refuted ≡ false) × (0 < budget.now) }
    ensures answer { IfSome result (IsAnswer (watch_solving state.new false) budget.now) }
{
    if state.refuted {
        return Some(Answer::Unsat);
    }
    if budget.left() == 0 {
        return Some(Answer::Spent);
    }
    if state.pace.count() {
        go_back(&mut state.order, &mut state.trail, 0);
    }
    None
}

/// Where nothing follows from any clause at once: decides an open variable false, or shows the valuation.
fn settle(state: &mut State) -> Option<Answer>
    requires state { IsWatchState state.old }
    requires open { state.old.refuted ≡ false }
    requires no_clash { state.old.clash ≡ None }
    requires read { state.old.trail.read ≡ length state.old.trail.entries }
    requires closed { IsClosed (known_of state.old.trail.entries) state.old.store.live }
    ensures state { IsWatchState state.new }
    ensures alike { IsSeenAlike state.old state.new }
    ensures vars { state.new.trail.vars ≡ state.old.trail.vars }
    ensures goes_on { result ≡ None → length state.new.trail.entries ≡ length state.old.trail.entries + 1 }
    ensures answer { (left : ℕ) → 0 < left → IfSome result (IsAnswer (watch_solving state.new false) left) }
{
    match decide_next(&mut state.order, &mut state.trail) {
        Some(_) => None,
        None => {
            show(&state.trail, &mut state.valuation);
            state.found = true;
            Some(Answer::Sat)
        }
    }
}
