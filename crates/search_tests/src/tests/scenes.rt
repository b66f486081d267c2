//! What a test does with a solver, whichever it is.
ghost use Rattle.std.specs.Prelude.{◌≡◌, ◌<◌};

use super::formulas::{Clauses, formula_of, literal};
use derivation_log::Step;
use log_checker::{LogVerdict, check_log};
use solver_face::{Answer, Budget, Solver};
use std::alloc::Global;
use std::process::Abort;
use std::sync::ledger::{Blank, Ledger};
use std::test::Fail;
use vss_steps::Steps;

/// One call of `solve`: its budget, its answer, and how much of the budget is left, where that is told.
#[derive(Clone, Copy)]
pub(super) struct Call {
    pub(super) budget: u32,
    pub(super) answer: Answer,
    pub(super) left: Option<u32>,
}

/// Calls `solve` again and again on one solver. The conflicts are what the calls spent.
pub(super) fn calls<S: Solver, L: Ledger>(
    rt: &impl Abort,
    alloc: Global,
    clauses: &Clauses,
    rows: &[Call],
    blank: Blank,
) -> Result<(), Fail>
    requires name { blank.name ≡ L.name }
    requires parts { blank.parts ≡ L.parts }
    requires one { blank.parts ≡ 1 }
{
    let mut steps = Steps::<L>::new(blank);
    let start = formula_of(rt, alloc, clauses)?;
    assert!(rt; start.len() < 100_000);
    assert!(rt; rows.len() < 100);
    let mut solver = S::new(start)?;
    let mut spent = 0u32;
    for row in rows {
        assert!(rt; 0 < row.budget);
        assert!(rt; row.budget < 100_000);
        let mut budget = Budget::new(row.budget);
        let answer = solver.solve(&mut budget, &mut steps)?;
        assert_eq!(rt; answer, row.answer);
        match row.left {
            Some(left) => assert_eq!(rt; budget.left(), left),
            None => {}
        }
        spent = spent.wrapping_add(row.budget.wrapping_sub(budget.left()));
        assert_eq!(rt; solver.conflicts(), spent);
    }
    Ok(())
}

/// Solves once, and tests what the answer shows: the valuation on the formula, or the log by the checker.
pub(super) fn decides<S: Solver, L: Ledger>(
    rt: &impl Abort,
    alloc: Global,
    clauses: &Clauses,
    wanted: Answer,
    blank: Blank,
) -> Result<(), Fail>
    requires name { blank.name ≡ L.name }
    requires parts { blank.parts ≡ L.parts }
    requires one { blank.parts ≡ 1 }
{
    let mut steps = Steps::<L>::new(blank);
    let start = formula_of(rt, alloc, clauses)?;
    assert!(rt; start.len() < 100_000);
    let mut solver = S::new(start)?;
    let mut budget = Budget::new(10_000);
    let answer = solver.solve(&mut budget, &mut steps)?;
    assert_eq!(rt; answer, wanted);
    let again = formula_of(rt, alloc, clauses)?;
    match answer {
        Answer::Sat => {
            let valuation = solver.valuation();
            assert!(rt; valuation.values.len() == again.vars() as usize);
            assert!(rt; again.satisfied_by(valuation));
        }
        _ => {
            let log = solver.log();
            assert!(rt; log.steps.len() < 100_000);
            assert_eq!(rt; check_log(again, log)?, LogVerdict::Refutes);
        }
    }
    Ok(())
}

/// Gives one unit after the other, and solves behind each.
pub(super) fn units<S: Solver, L: Ledger>(
    rt: &impl Abort,
    alloc: Global,
    clauses: &Clauses,
    rows: &[(i32, Answer)],
    blank: Blank,
) -> Result<(), Fail>
    requires name { blank.name ≡ L.name }
    requires parts { blank.parts ≡ L.parts }
    requires one { blank.parts ≡ 1 }
{
    let mut steps = Steps::<L>::new(blank);
    let start = formula_of(rt, alloc, clauses)?;
    assert!(rt; start.len() < 100_000);
    assert!(rt; rows.len() < 100);
    let vars = start.vars();
    let mut solver = S::new(start)?;
    for (number, wanted) in rows {
        let lit = literal(*number);
        assert!(rt; 1 <= lit.var.0);
        assert!(rt; lit.var.0 <= vars);
        solver.add_unit(lit)?;
        let mut budget = Budget::new(1000);
        let answer = solver.solve(&mut budget, &mut steps)?;
        assert_eq!(rt; answer, *wanted, "behind {number}");
    }
    Ok(())
}

/// The values that the first `solve` finds.
pub(super) fn values<S: Solver, L: Ledger>(
    rt: &impl Abort,
    alloc: Global,
    clauses: &Clauses,
    wanted: &[bool],
    blank: Blank,
) -> Result<(), Fail>
    requires name { blank.name ≡ L.name }
    requires parts { blank.parts ≡ L.parts }
    requires one { blank.parts ≡ 1 }
{
    let mut steps = Steps::<L>::new(blank);
    let start = formula_of(rt, alloc, clauses)?;
    assert!(rt; start.len() < 100_000);
    let mut solver = S::new(start)?;
    let mut budget = Budget::new(10);
    match solver.solve(&mut budget, &mut steps)? {
        Answer::Sat => {
            assert_eq!(rt; solver.valuation().values.as_slice(), wanted);
            Ok(())
        }
        _ => {
            assert!(rt; false);
            Ok(())
        }
    }
}

/// How many literals the first clause has that a search with budget 1 adds.
pub(super) fn first_clause<S: Solver, L: Ledger>(
    rt: &impl Abort,
    alloc: Global,
    clauses: &Clauses,
    wanted: usize,
    blank: Blank,
) -> Result<(), Fail>
    requires name { blank.name ≡ L.name }
    requires parts { blank.parts ≡ L.parts }
    requires one { blank.parts ≡ 1 }
{
    let mut steps = Steps::<L>::new(blank);
    let start = formula_of(rt, alloc, clauses)?;
    assert!(rt; start.len() < 100_000);
    let mut solver = S::new(start)?;
    let mut budget = Budget::new(1);
    assert_eq!(rt; solver.solve(&mut budget, &mut steps)?, Answer::Spent);
    let log = solver.into_log();
    assert_eq!(rt; log.steps.len(), 1);
    match log.steps.get(0) {
        Some(Step::Add { lits, .. }) => assert_eq!(rt; lits.len(), wanted),
        _ => assert!(rt; false),
    }
    Ok(())
}
