//! What `check` answers of logs that don't refute the formula of their bound.
ghost use Rattle.std.specs.Prelude.{◌≡◌};

use super::rows::{TWO, instance_of};
use derivation_log::{Bound, Log, Refutation};
use log_checker::LogVerdict;
use plain_solver::PlainSolver;
use solver_face::Solver;
use std::alloc::Global;
use std::marker::Brand;
use std::process::Abort;
use std::sync::ledger::{Blank, Ledger};
use std::test::Fail;
use task_driver::{check, generate};
use vss_lists::Items;
use vss_report::Outcome;
use vss_steps::Steps;

#[test]
fn a_log_without_a_step_refutes_nothing(rt: HostRuntime) -> Result<(), Fail> {
    let inst = instance_of(&rt, rt.alloc(), TWO)?;
    for bound in [Bound::Given, Bound::AtMost(0), Bound::AtMost(7)] {
        let log = Log {
            steps: Items::new(rt.alloc()),
        };
        assert!(&rt; log.steps.len() < 100);
        let verdict = check(rt.alloc(), &inst, &Refutation { bound, log })?;
        assert_eq!(&rt; verdict, LogVerdict::NoEmptyClause);
    }
    Ok(())
}

#[test]
fn a_log_refutes_its_own_bound_alone(rt: HostRuntime) -> Result<(), Fail> {
    for (bound, refutes) in [
        (Bound::AtMost(0), true),
        (Bound::AtMost(1), false),
        (Bound::AtMost(3), false),
        (Bound::Given, false),
    ] {
        refutes_so::<PlainSolver, Brand>(&rt, rt.alloc(), bound, refutes, Blank::new(1))?;
    }
    Ok(())
}

/// The log of a search for a layout without a border, under that bound, refutes or doesn't.
fn refutes_so<S: Solver, L: Ledger>(
    rt: &impl Abort,
    alloc: Global,
    bound: Bound,
    refutes: bool,
    blank: Blank,
) -> Result<(), Fail>
    requires name { blank.name ≡ L.name }
    requires parts { blank.parts ≡ L.parts }
    requires one { blank.parts ≡ 1 }
{
    let mut steps = Steps::<L>::new(blank);
    let inst = instance_of(rt, alloc, TWO)?;
    match generate::<S, L>(alloc, &inst, 0, 1000, &mut steps)? {
        Outcome::Impossible(refutation) => {
            let Refutation { bound: _, log } = refutation;
            assert!(rt; log.steps.len() < 100_000);
            let verdict = check(alloc, &inst, &Refutation { bound, log })?;
            assert!(rt; (verdict == LogVerdict::Refutes) == refutes);
            Ok(())
        }
        Outcome::Done(_) => fails(rt),
        Outcome::Spent { .. } => fails(rt),
    }
}

fn fails(rt: &impl Abort) -> Result<(), Fail> {
    assert!(rt; false);
    Ok(())
}
