//! A store and a trail that fit, and what a test does with them.
ghost use Rattle.std.specs.Prelude.{◌≡◌};

use super::facts::{
    has_level, is_empty, is_free, is_live, is_open, is_over, is_read, is_trail, is_watchable,
};
use conflict_learn::Clauses;
use sat_core::{ClauseId, Formula, Lit, is_clause};
use search_trail::{Trail, Truth};
use std::alloc::Global;
use std::marker::Model;
use std::process::Abort;
use std::sync::ledger::{Blank, Ledger};
use std::test::Fail;
use vss_steps::Steps;
use watch_store::WatchStore;

#[derive(Drop)]
pub(super) struct Scene<L: Ledger> {
    store: WatchStore,
    trail: Trail,
    steps: Steps<L>,
}

impl<L: Ledger> Model for Scene<L> {
    ghost use Rattle.search_trail.specs.Trails.{TrailParts};
    ghost use Rattle.watch_store.specs.Fits.{FitsTrail};

    ghost Value = { TrailParts };

    ghost view = { λ s. s.trail };

    ghost invariant = { λ s. FitsTrail s.store s.trail };
}

impl<L: Ledger> Scene<L> {
    /// The clauses are numbered from 1, and nothing is true.
    pub(super) fn new(
        rt: &impl Abort,
        alloc: Global,
        vars: u32,
        rows: &[Vec<Lit>],
        blank: Blank,
    ) -> Result<Scene<L>, Fail>
        requires name { blank.name ≡ L.name }
        requires parts { blank.parts ≡ L.parts }
        requires one { blank.parts ≡ 1 }
    {
        let formula = formula_of(rt, alloc, vars, rows)?;
        let trail = Trail::new(alloc, formula.vars())?;
        // for the proof alone
        let _len = trail.len();
        let store = WatchStore::new(formula)?;
        Ok(Scene {
            store,
            trail,
            steps: Steps::new(blank),
        })
    }

    /// Decides that the open literal is true, and propagates in one call: a false clause, or none.
    pub(super) fn decide(&mut self, rt: &impl Abort, lit: Lit) -> Option<ClauseId> {
        is_read(rt, &self.trail);
        is_open(rt, &self.trail, lit);
        self.trail.decide(lit);
        self.store.propagate(&mut self.trail, &mut self.steps)
    }

    /// Goes back to that level.
    pub(super) fn go_back(&mut self, rt: &impl Abort, level: u32) {
        has_level(rt, &self.trail, level);
        self.trail.back_to(level);
        is_trail(&self.trail);
    }

    /// One more clause, of two literals at least, while nothing is true.
    pub(super) fn add(&mut self, rt: &impl Abort, number: u32, lits: &[Lit]) -> Result<(), Fail> {
        let id = ClauseId(number);
        is_empty(rt, &self.trail);
        is_watchable(rt, &self.trail, lits);
        is_free(rt, &self.store, id);
        self.store.add(id, lits, &self.trail)?;
        Ok(())
    }

    /// One clause less, while nothing is true.
    pub(super) fn discard(&mut self, rt: &impl Abort, number: u32) {
        let id = ClauseId(number);
        is_empty(rt, &self.trail);
        is_live(rt, &self.store, id);
        self.store.discard(id);
    }

    /// Makes room.
    pub(super) fn compact(&mut self) -> Result<(), Fail> {
        self.store.compact()?;
        Ok(())
    }

    /// The literals of the live clause with that number.
    pub(super) fn lits(&self, number: u32) -> Option<&[Lit]> {
        self.store.lits(ClauseId(number))
    }

    /// Whether the literal is true, false or open.
    pub(super) fn value(&self, rt: &impl Abort, lit: Lit) -> Truth {
        is_over(rt, &self.trail, lit);
        self.trail.value(lit)
    }

    /// The number of the clause that forced the literal's variable.
    pub(super) fn reason(&self, rt: &impl Abort, lit: Lit) -> Option<u32> {
        is_over(rt, &self.trail, lit);
        self.trail.reason(lit.var).map(|id| id.0)
    }

    /// How many literals are true.
    pub(super) fn len(&self) -> u32 {
        self.trail.len()
    }
}

/// The formula of the rows; fewer than a thousand.
fn formula_of(
    rt: &impl Abort,
    alloc: Global,
    vars: u32,
    rows: &[Vec<Lit>],
) -> Result<Formula, Fail> {
    let mut formula = Formula::new(alloc, vars);
    for row in rows {
        assert!(rt; is_clause(formula.vars(), row.as_slice()));
        assert!(rt; formula.len() < 1000);
        formula.push(row.as_slice())?;
    }
    Ok(formula)
}
