//! The search: rounds of propagation, each ended by a conflict, a decision or an answer.
ghost use Rattle.std.specs.Prelude.{◌≡◌, ℕ, ◌+◌, ◌^◌, ◌<◌, true, false, All, None, Ok, length, IfOk, IfSome};
ghost use Rattle.sat_core.specs.Fresh.{IsAtRest};
ghost use Rattle.search_trail.specs.Trails.{known_of};
ghost use Rattle.solver_face.specs.Solving.{Searched, IsAnswer, EndsInAdd};
ghost use Rattle.derivation_log.specs.Steps.{derived_steps};
ghost use Rattle.plain_solver.specs.Plain.{IsFalseClause};
ghost use Rattle.plain_solver.specs.States.{IsState, solving_of, AreSame, GoesOn};

use crate::conflict::conflict;
use crate::passes::propagate;
use crate::pick::open_literal;
use crate::state::State;
use sat_core::ClauseId;
use solver_face::{Answer, Budget};
use std::alloc::AllocError;
use trail_values::show;

/// Searches until there is an answer. Each round takes one of the budget or makes an open variable true or false.
pub(crate) fn search(state: &mut State, budget: &mut Budget) -> Result<Answer, AllocError>
    requires state { IsState state.old }
    requires budget { 0 < budget.old }
    requires numbered { length state.old.clauses.clauses + budget.old < 2 ^ 32 }
    ensures state { IsState state.new }
    ensures searched { Searched (solving_of state.old false) (solving_of state.new false) budget.old budget.new }
    ensures answer { IfOk result (IsAnswer (solving_of state.new false) budget.new) }
    ensures stays_refuted { state.old.refuted ≡ true → result ≡ Ok Answer.Unsat }
{
    if state.refuted {
        return Ok(Answer::Unsat);
    }
    'rounds: loop {
        match round(state, budget)? {
            Some(answer) => return Ok(answer),
            None => {}
        }
    }
}

/// One round: an answer, or none where the search goes on.
fn round(state: &mut State, budget: &mut Budget) -> Result<Option<Answer>, AllocError>
    requires state { IsState state.old }
    requires open { state.old.refuted ≡ false }
    requires budget { 0 < budget.old }
    requires numbered { length state.old.clauses.clauses + budget.old < 2 ^ 32 }
    ensures state { IsState state.new }
    ensures searched { Searched (solving_of state.old false) (solving_of state.new false) budget.old budget.new }
    ensures goes_on { IfOk result (λ answer. answer ≡ None → GoesOn state.old state.new budget.old budget.new) }
    ensures answer { IfOk result (λ answer. IfSome answer (IsAnswer (solving_of state.new false) budget.new)) }
{
    match propagate(&state.clauses, &mut state.trail) {
        Some(id) => meet(state, budget, id),
        None => Ok(settle(state)),
    }
}

/// A conflict, which spends one of the budget: an answer, or none where the search goes on.
fn meet(state: &mut State, budget: &mut Budget, id: ClauseId) -> Result<Option<Answer>, AllocError>
    requires state { IsState state.old }
    requires open { state.old.refuted ≡ false }
    requires conflict { IsFalseClause state.old.clauses.clauses state.old.trail id }
    requires budget { 0 < budget.old }
    requires numbered { length state.old.clauses.clauses + budget.old < 2 ^ 32 }
    ensures state { IsState state.new }
    ensures vars { state.new.trail.vars ≡ state.old.trail.vars }
    ensures searched { Searched (solving_of state.old false) (solving_of state.new false) budget.old budget.new }
    ensures spent { IfOk result (λ answer. budget.new + 1 ≡ budget.old) }
    ensures goes_on { IfOk result (λ answer. answer ≡ None → (state.new.refuted ≡ false) × (0 < budget.new)) }
    ensures answer { IfOk result (λ answer. IfSome answer (IsAnswer (solving_of state.new false) budget.new)) }
{
    conflict(state, id)?;
    budget.spend();
    Ok(ended(state, budget))
}

/// Whether the search ends behind a conflict.
fn ended(state: &State, budget: &Budget) -> Option<Answer>
    requires state { IsState state.now }
    requires add_last { EndsInAdd (derived_steps state.now.log.steps) }
    ensures goes_on { result ≡ None → (state.now.refuted ≡ false) × (0 < budget.now) }
    ensures answer { IfSome result (IsAnswer (solving_of state.now false) budget.now) }
{
    if state.refuted {
        return Some(Answer::Unsat);
    }
    if budget.left() == 0 {
        return Some(Answer::Spent);
    }
    None
}

/// Where nothing follows from any clause at once: decides an open variable false, or shows the valuation.
fn settle(state: &mut State) -> Option<Answer>
    requires state { IsState state.old }
    requires at_rest { All (IsAtRest (known_of state.old.trail.entries)) state.old.clauses.clauses }
    ensures state { IsState state.new }
    ensures same { AreSame state.old state.new }
    ensures vars { state.new.trail.vars ≡ state.old.trail.vars }
    ensures goes_on { result ≡ None → length state.new.trail.entries ≡ length state.old.trail.entries + 1 }
    ensures answer { (left : ℕ) → 0 < left → IfSome result (IsAnswer (solving_of state.new false) left) }
{
    match open_literal(&state.trail) {
        Some(lit) => {
            state.trail.decide(lit);
            None
        }
        None => {
            show(&state.trail, &mut state.valuation);
            state.found = true;
            Some(Answer::Sat)
        }
    }
}
