//! What the watch solver alone does: restarts, and drops of learned clauses, each at its place.
ghost use Rattle.std.specs.Prelude.{◌≡◌, ◌<◌};

use super::drops::drops_enough;
use super::formulas::{formula_of, pigeons};
use log_checker::{LogVerdict, check_log};
use solver_face::{Answer, Budget, Solver};
use std::alloc::Global;
use std::marker::Brand;
use std::process::Abort;
use std::sync::ledger::{Blank, Ledger};
use std::test::Fail;
use vss_steps::Steps;
use watch_solver::WatchSolver;

static LUBY: [u32; 63] = [
    1, 1, 2, 1, 1, 2, 4, 1, 1, 2, 1, 1, 2, 4, 8, 1, 1, 2, 1, 1, 2, 4, 1, 1, 2, 1, 1, 2, 4, 8, 16,
    1, 1, 2, 1, 1, 2, 4, 1, 1, 2, 1, 1, 2, 4, 8, 1, 1, 2, 1, 1, 2, 4, 1, 1, 2, 1, 1, 2, 4, 8, 16,
    32,
];

/// How many restarts are due behind so many conflicts, of which the last one ended the call.
fn due(conflicts: u32) -> u32 {
    let mut left = conflicts.saturating_sub(1);
    let mut count = 0u32;
    for item in &LUBY {
        let step = item.wrapping_mul(64);
        if left < step {
            return count;
        }
        left = left.wrapping_sub(step);
        count = count.wrapping_add(1);
    }
    count
}

/// Searches with that budget for so many pigeons in one hole fewer, and looks at restarts, drops and the log.
fn searches<L: Ledger>(
    rt: &impl Abort,
    alloc: Global,
    count: u32,
    limit: u32,
    blank: Blank,
) -> Result<(), Fail>
    requires name { blank.name ≡ L.name }
    requires parts { blank.parts ≡ L.parts }
    requires one { blank.parts ≡ 1 }
    requires limit { (0 < limit) × (limit < 1000000) }
{
    let mut steps = Steps::<L>::new(blank);
    let clauses = pigeons(alloc, count, count.saturating_sub(1))?;
    let start = formula_of(rt, alloc, &clauses)?;
    assert!(rt; start.len() < 100_000);
    let vars = start.vars() as usize;
    let mut solver = WatchSolver::new(start)?;
    let mut budget = Budget::new(limit);
    let answer = solver.solve(&mut budget, &mut steps)?;
    assert_eq!(rt; solver.restarts(), due(solver.conflicts()));
    let log = solver.into_log();
    drops_enough(rt, &log, vars)?;
    assert!(rt; log.steps.len() < 2_000_000);
    let again = formula_of(rt, alloc, &clauses)?;
    let verdict = check_log(again, &log)?;
    match answer {
        Answer::Unsat => assert_eq!(rt; verdict, LogVerdict::Refutes),
        Answer::Spent => assert_eq!(rt; verdict, LogVerdict::NoEmptyClause),
        Answer::Sat => assert!(rt; false),
    }
    Ok(())
}

#[test]
fn seven_pigeons_restart_the_search(rt: HostRuntime) -> Result<(), Fail> {
    searches::<Brand>(&rt, rt.alloc(), 7, 200_000, Blank::new(1))
}

#[test]
fn eight_pigeons_drop_clauses(rt: HostRuntime) -> Result<(), Fail> {
    searches::<Brand>(&rt, rt.alloc(), 8, 6100, Blank::new(1))
}
