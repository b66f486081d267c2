//! The plain solver as solvers that have no memory in some cases.

use derivation_log::Log;
use plain_solver::PlainSolver;
use sat_core::{ClauseId, Formula, Lit, Valuation};
use solver_face::{Answer, Budget, Solver};
use std::alloc::AllocError;
use std::sync::ledger::Ledger;
use vss_steps::Steps;

/// Has no memory for a formula whose last clause has one literal, as the unit of a bound.
#[derive(Drop)]
pub(super) struct NoUnitSolver {
    inner: PlainSolver,
}

impl Solver for NoUnitSolver {
    ghost solving = { λ s. s.inner };

    fn new(formula: Formula) -> Result<Self, AllocError> {
        let count = formula.len();
        if count > 0 && formula.clause(ClauseId(count)).len() == 1 {
            return Err(AllocError);
        }
        Ok(NoUnitSolver {
            inner: PlainSolver::new(formula)?,
        })
    }

    fn add_unit(&mut self, lit: Lit) -> Result<(), AllocError> {
        self.inner.add_unit(lit)
    }

    fn solve<L: Ledger>(
        &mut self,
        budget: &mut Budget,
        steps: &mut Steps<L>,
    ) -> Result<Answer, AllocError> {
        self.inner.solve(budget, steps)
    }

    fn valuation(&self) -> &Valuation {
        self.inner.valuation()
    }

    fn log(&self) -> &Log {
        self.inner.log()
    }

    fn conflicts(&self) -> u32 {
        self.inner.conflicts()
    }

    fn into_log(self) -> Log {
        let NoUnitSolver { inner } = self;
        inner.into_log()
    }
}

/// Has no memory for any formula.
#[derive(Drop)]
pub(super) struct StarvedSolver {
    inner: PlainSolver,
}

impl Solver for StarvedSolver {
    ghost solving = { λ s. s.inner };

    fn new(_formula: Formula) -> Result<Self, AllocError> {
        Err(AllocError)
    }

    fn add_unit(&mut self, lit: Lit) -> Result<(), AllocError> {
        self.inner.add_unit(lit)
    }

    fn solve<L: Ledger>(
        &mut self,
        budget: &mut Budget,
        steps: &mut Steps<L>,
    ) -> Result<Answer, AllocError> {
        self.inner.solve(budget, steps)
    }

    fn valuation(&self) -> &Valuation {
        self.inner.valuation()
    }

    fn log(&self) -> &Log {
        self.inner.log()
    }

    fn conflicts(&self) -> u32 {
        self.inner.conflicts()
    }

    fn into_log(self) -> Log {
        let StarvedSolver { inner } = self;
        inner.into_log()
    }
}
