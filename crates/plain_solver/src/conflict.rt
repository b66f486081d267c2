//! A conflict: one clause is learned, logged and added, and the trail goes back.
ghost use Rattle.std.specs.Prelude.{◌≡◌, ◌^◌, ◌-◌, ◌+◌, ◌<◌, false, length, IfOk, OnOk, OnErr};
ghost use Rattle.derivation_log.specs.Steps.{derived};
ghost use Rattle.sat_core.specs.Derivation.{adds};
ghost use Rattle.plain_solver.specs.Plain.{IsFalseClause};
ghost use Rattle.plain_solver.specs.States.{IsState, solving_of, IsConflictMet};

use crate::state::State;
use conflict_learn::{Learned, learn_with};
use derivation_log::Step;
use sat_core::ClauseId;
use std::alloc::{AllocError, Global};
use vss_lists::Items;

/// Learns from a false clause: its step is added to the log, the clause to the clauses, and the trail goes back to the
/// level that was learned. All memory is taken before anything changes.
pub(crate) fn conflict(state: &mut State, id: ClauseId) -> Result<(), AllocError>
    requires state { IsState state.old }
    requires open { state.old.refuted ≡ false }
    requires conflict { IsFalseClause state.old.clauses.clauses state.old.trail id }
    requires numbered { length state.old.clauses.clauses < 2 ^ 32 - 1 }
    ensures state { IsState state.new }
    ensures met { OnOk result (IsConflictMet state.old state.new) }
    ensures err { OnErr result (solving_of state.new false ≡ solving_of state.old false) }
{
    let alloc = state.clauses.allocator();
    let learned = learn_with(&mut state.space, alloc, &state.trail, &state.clauses, id)?;
    let lits = learned.lits.as_slice();
    let step = step_of(alloc, ClauseId(state.clauses.len() + 1), &learned)?;
    state.clauses.reserve(1, lits.len())?;
    state.history.reserve(1)?;
    state.log.steps.push(step)?;
    match state.clauses.push(lits) {
        Ok(()) => {}
        Err(_) => unreachable!(),
    }
    state.history.push_reserved(None);
    state.trail.back_to(learned.level);
    state.refuted = lits.is_empty();
    Ok(())
}

/// The step that adds what was learned.
fn step_of(alloc: Global, id: ClauseId, learned: &Learned) -> Result<Step, AllocError>
    ensures { IfOk result (λ step. derived step ≡ adds id learned.now.lits.items learned.now.hints.items) }
{
    let mut lits = Vec::new(alloc);
    lits.extend_from_slice(learned.lits.as_slice())?;
    let mut hints = Vec::new(alloc);
    hints.extend_from_slice(learned.hints.as_slice())?;
    Ok(Step::Add {
        id,
        lits: Items::from_vec(lits),
        hints: Items::from_vec(hints),
    })
}
