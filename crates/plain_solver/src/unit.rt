//! A unit that is given between two searches.
ghost use Rattle.std.specs.Prelude.{◌≡◌, ◌^◌, ◌-◌, ◌<◌, ◌++◌, ◌∷◌, [], false, length, OnOk, OnErr};
ghost use Rattle.sat_core.specs.Clauses.{IsOver};
ghost use Rattle.sat_core.specs.Search.{gives};
ghost use Rattle.plain_solver.specs.States.{IsState, solving_of, events_of, clauses_given};

use crate::state::State;
use sat_core::Lit;
use std::alloc::AllocError;

/// One more clause of one literal; the trail goes back to level 0. Memory is taken before anything changes.
pub(crate) fn give(state: &mut State, lit: Lit) -> Result<(), AllocError>
    requires state { IsState state.old }
    requires over { IsOver state.old.clauses.vars lit }
    requires numbered { length state.old.clauses.clauses < 2 ^ 32 - 1 }
    ensures state { IsState state.new }
    ensures vars { state.new.clauses.vars ≡ state.old.clauses.vars }
    ensures formula { clauses_given state.new ≡ clauses_given state.old }
    ensures found { (solving_of state.new false).found ≡ (solving_of state.old false).found }
    ensures ok { OnOk result (events_of state.new ≡ events_of state.old ++ gives lit ∷ []) }
    ensures err { OnErr result (events_of state.new ≡ events_of state.old) }
{
    state.history.reserve(1)?;
    state.clauses.push_fixed([lit])?;
    state.history.push_reserved(Some(lit));
    state.trail.back_to(0);
    Ok(())
}
