//! The plain solver as a `Solver`.
ghost use Rattle.std.specs.Prelude.{◌≡◌};

use crate::search::search;
use crate::state::{State, begin};
use crate::unit::give;
use derivation_log::Log;
use sat_core::{Formula, Lit, Valuation};
use solver_face::{Answer, Budget, Solver};
use std::alloc::AllocError;
use std::marker::Model;
use std::sync::ledger::Ledger;
use vss_steps::Steps;

/// A solver that looks at every clause in each pass. It drops nothing.
#[derive(Drop)]
pub struct PlainSolver {
    state: State,
    starved: bool,
}

impl Model for PlainSolver {
    ghost use Rattle.solver_face.specs.Solving.{Solving};
    ghost use Rattle.plain_solver.specs.States.{IsState, solving_of};

    ghost Value = { Solving };

    ghost view = { λ s. solving_of s.state s.starved };

    ghost invariant = { λ s. IsState s.state };
}

impl Solver for PlainSolver {
    ghost solving = { λ s. s };

    fn new(formula: Formula) -> Result<Self, AllocError> {
        let state = begin(formula)?;
        Ok(PlainSolver {
            state,
            starved: false,
        })
    }

    fn add_unit(&mut self, lit: Lit) -> Result<(), AllocError> {
        if self.starved {
            return Err(AllocError);
        }
        let given = give(&mut self.state, lit);
        self.starved = given.is_err();
        given
    }

    fn solve<L: Ledger>(
        &mut self,
        budget: &mut Budget,
        _steps: &mut Steps<L>,
    ) -> Result<Answer, AllocError> {
        if self.starved {
            return Err(AllocError);
        }
        let answer = search(&mut self.state, budget);
        self.starved = answer.is_err();
        answer
    }

    fn valuation(&self) -> &Valuation {
        &self.state.valuation
    }

    fn log(&self) -> &Log {
        &self.state.log
    }

    fn conflicts(&self) -> u32 {
        self.state.log.steps.len() as u32
    }

    fn into_log(self) -> Log {
        let PlainSolver { state, starved: _ } = self;
        log_alone(state)
    }
}

/// The log, without the rest of the state.
fn log_alone(state: State) -> Log
    ensures { result ≡ state.log }
{
    let State {
        clauses: _,
        given: _,
        history: _,
        log,
        trail: _,
        space: _,
        valuation: _,
        found: _,
        refuted: _,
    } = state;
    log
}
