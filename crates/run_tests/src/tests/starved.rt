//! A solver that finds no memory from the start: that a call searches by the solver that it is given.

use super::asking::{shelf_of, words_of};
use crate::texts::{LINE, XY};
use derivation_log::Log;
use plain_solver::PlainSolver;
use sat_core::{Formula, Lit, Valuation};
use solver_face::{Answer, Budget, Solver};
use std::alloc::AllocError;
use std::sync::ledger::Ledger;
use std::test::Fail;
use vss_io::MemSink;
use vss_run::run;
use vss_steps::Steps;

/// The plain solver, which can't be made.
#[derive(Drop)]
struct Starved {
    inner: PlainSolver,
}

impl Solver for Starved {
    ghost solving = { λ s. s.inner };

    fn new(_formula: Formula) -> Result<Self, AllocError> {
        Err(AllocError)
    }

    fn add_unit(&mut self, lit: Lit) -> Result<(), AllocError> {
        self.inner.add_unit(lit)
    }

    fn solve<L: Ledger>(
        &mut self,
        budget: &mut Budget,
        steps: &mut Steps<L>,
    ) -> Result<Answer, AllocError> {
        self.inner.solve(budget, steps)
    }

    fn valuation(&self) -> &Valuation {
        self.inner.valuation()
    }

    fn log(&self) -> &Log {
        self.inner.log()
    }

    fn conflicts(&self) -> u32 {
        self.inner.conflicts()
    }

    fn into_log(self) -> Log {
        let Starved { inner } = self;
        inner.into_log()
    }
}

static SEARCHES: [&str; 4] = [
    "verify net times",
    "generate net times",
    "optimise net times",
    "trial 1 1",
];

#[test]
fn a_search_is_made_by_the_solver_that_is_named(rt: HostRuntime) -> Result<(), Fail> {
    for words in &SEARCHES {
        let mut shelf = shelf_of(rt.alloc(), LINE, XY, "")?;
        let asked = words_of(rt.alloc(), words)?;
        let mut out = MemSink::new(rt.alloc(), 1000, Vec::new(rt.alloc()))?;
        let ended = run::<Starved, _, _>(rt.alloc(), asked.as_slice(), &mut shelf, &mut out);
        assert_eq!(rt; ended.number(), 7, "at {words}");
        assert!(rt; out.written().is_empty(), "at {words}");
    }
    Ok(())
}
