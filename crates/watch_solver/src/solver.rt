//! The watch solver as a `Solver`.
ghost use Rattle.std.specs.Prelude.{◌≡◌, false};
ghost use Rattle.derivation_log.specs.Steps.{derived_steps};
ghost use Rattle.sat_core.specs.Search.{log_of};
ghost use Rattle.solver_face.specs.Solving.{IsRefuted, search_now};

use crate::begin::begin;
use crate::search::search;
use crate::state::State;
use crate::unit::give;
use derivation_log::Log;
use sat_core::{Formula, Lit, Valuation};
use solver_face::{Answer, Budget, Solver};
use std::alloc::AllocError;
use std::marker::Model;
use std::sync::ledger::Ledger;
use vss_steps::Steps;
use watch_store::WatchStore;

/// A solver that looks at a clause only where a literal that it watches became false. Open variables are decided false,
/// the most active one first; it restarts in the rhythm of the luby sequence.
#[derive(Drop)]
pub struct WatchSolver {
    state: State,
    starved: bool,
}

impl Model for WatchSolver {
    ghost use Rattle.std.specs.Prelude.{◌≡◌, false};
    ghost use Rattle.solver_face.specs.Solving.{Solving, IsSound};
    ghost use Rattle.watch_solver.specs.Running.{IsWatchState, watch_solving};

    ghost Value = { Solving };

    ghost view = { λ s. watch_solving s.state s.starved };

    ghost invariant = { λ s. IsSound (watch_solving s.state false) × (s.starved ≡ false → IsWatchState s.state) };
}

impl WatchSolver {
    /// The live clauses: as long as nothing is refuted and there was memory, those of the formula, the units and the
    /// clauses that the log adds, without those that it drops.
    pub fn store(&self) -> &WatchStore
        ensures live { self.now.starved ≡ false → ¬ IsRefuted self.now → result.now.live ≡ (search_now self.now).database.live }
    {
        &self.state.store
    }

    /// How often the search went back to its first level.
    pub fn restarts(&self) -> u32 {
        self.state.pace.restarts
    }
}

impl Solver for WatchSolver {
    ghost solving = { λ s. s };

    fn new(formula: Formula) -> Result<Self, AllocError> {
        let state = begin(formula)?;
        Ok(WatchSolver {
            state,
            starved: false,
        })
    }

    fn add_unit(&mut self, lit: Lit) -> Result<(), AllocError> {
        if self.starved {
            return Err(AllocError);
        }
        let given = give(&mut self.state, lit);
        self.starved = given.is_err();
        given
    }

    fn solve<L: Ledger>(
        &mut self,
        budget: &mut Budget,
        steps: &mut Steps<L>,
    ) -> Result<Answer, AllocError> {
        if self.starved {
            return Err(AllocError);
        }
        let answer = search(&mut self.state, budget, steps);
        self.starved = answer.is_err();
        answer
    }

    fn valuation(&self) -> &Valuation {
        &self.state.valuation
    }

    fn log(&self) -> &Log {
        self.state.history.log()
    }

    fn conflicts(&self) -> u32 {
        self.state.history.adds()
    }

    fn into_log(self) -> Log {
        let WatchSolver { state, starved: _ } = self;
        log_alone(state)
    }
}

/// The log, without the rest of the state.
fn log_alone(state: State) -> Log
    ensures { derived_steps result.steps ≡ log_of state.history }
{
    let State {
        alloc: _,
        store: _,
        given: _,
        last: _,
        history,
        trail: _,
        space: _,
        order: _,
        stamps: _,
        met: _,
        pace: _,
        drop_at: _,
        valuation: _,
        found: _,
        refuted: _,
        clash: _,
    } = state;
    history.into_log()
}
