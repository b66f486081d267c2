//! What the tasks answer on rows of cells: designs that the judge takes, and refutations that the checker takes.
ghost use Rattle.std.specs.Prelude.{◌≡◌};

use super::endings::{Ask, End, ends_as, fails};
use super::rows::{Row, TWO, instance_of};
use super::solvers::{NoUnitSolver, StarvedSolver};
use clause_encoder::EncodeRefusal;
use derivation_log::Bound;
use plain_solver::PlainSolver;
use solver_face::Solver;
use std::alloc::Global;
use std::marker::Brand;
use std::process::Abort;
use std::sync::ledger::{Blank, Ledger};
use std::test::Fail;
use task_driver::{generate, optimise, verify};
use vss_steps::Steps;
use watch_solver::WatchSolver;

/// A row of cells, a question, a budget and the end of its search.
#[derive(Clone, Copy)]
struct Case {
    row: Row,
    ask: Ask,
    budget: u32,
    end: End,
}

const ALONE: Row = Row {
    cells: 4,
    kept: &[],
    trains: &[(0, 6)],
};

const TWO_KEPT: Row = Row {
    cells: 4,
    kept: &[0, 2],
    trains: &[(0, 4), (2, 8)],
};

const THREE: Row = Row {
    cells: 6,
    kept: &[],
    trains: &[(0, 7), (2, 9), (4, 11)],
};

// There is no run: the goal is too far.
const LATE: Row = Row {
    cells: 4,
    kept: &[],
    trains: &[(0, 1)],
};

static CASES: [Case; 16] = [
    Case {
        row: ALONE,
        ask: Ask::Kept,
        budget: 1000,
        end: End::Done(0, None),
    },
    Case {
        row: ALONE,
        ask: Ask::AtMost(0),
        budget: 1000,
        end: End::Done(0, None),
    },
    Case {
        row: ALONE,
        ask: Ask::Fewest,
        budget: 1000,
        end: End::Done(0, Some(None)),
    },
    Case {
        row: TWO,
        ask: Ask::Kept,
        budget: 1000,
        end: End::Impossible(Bound::Given),
    },
    Case {
        row: TWO,
        ask: Ask::AtMost(0),
        budget: 1000,
        end: End::Impossible(Bound::AtMost(0)),
    },
    Case {
        row: TWO,
        ask: Ask::AtMost(1),
        budget: 1000,
        end: End::Done(1, None),
    },
    Case {
        row: TWO,
        ask: Ask::Fewest,
        budget: 1000,
        end: End::Done(1, Some(Some(0))),
    },
    Case {
        row: TWO_KEPT,
        ask: Ask::Kept,
        budget: 1000,
        end: End::Done(2, None),
    },
    Case {
        row: TWO_KEPT,
        ask: Ask::AtMost(1),
        budget: 1000,
        end: End::Impossible(Bound::AtMost(1)),
    },
    Case {
        row: TWO_KEPT,
        ask: Ask::Fewest,
        budget: 1000,
        end: End::Done(2, Some(None)),
    },
    Case {
        row: THREE,
        ask: Ask::Fewest,
        budget: 1000,
        end: End::Done(2, Some(Some(1))),
    },
    Case {
        row: THREE,
        ask: Ask::AtMost(1),
        budget: 1000,
        end: End::Impossible(Bound::AtMost(1)),
    },
    Case {
        row: THREE,
        ask: Ask::Fewest,
        budget: 1,
        end: End::Spent(None),
    },
    Case {
        row: LATE,
        ask: Ask::Kept,
        budget: 1000,
        end: End::Impossible(Bound::Given),
    },
    Case {
        row: LATE,
        ask: Ask::AtMost(7),
        budget: 1000,
        end: End::Impossible(Bound::AtMost(3)),
    },
    Case {
        row: LATE,
        ask: Ask::Fewest,
        budget: 1000,
        end: End::Impossible(Bound::AtMost(3)),
    },
];

#[test]
fn tasks_end_as_wanted(rt: HostRuntime) -> Result<(), Fail> {
    for case in CASES.iter() {
        let inst = instance_of(&rt, rt.alloc(), case.row)?;
        ends_as::<PlainSolver, Brand>(
            &rt,
            rt.alloc(),
            &inst,
            case.ask,
            case.budget,
            case.end,
            Blank::new(1),
        )?;
        ends_as::<WatchSolver, Brand>(
            &rt,
            rt.alloc(),
            &inst,
            case.ask,
            case.budget,
            case.end,
            Blank::new(1),
        )?;
    }
    Ok(())
}

#[test]
fn one_solver_serves_all_bounds(rt: HostRuntime) -> Result<(), Fail> {
    let inst = instance_of(&rt, rt.alloc(), TWO)?;
    ends_as::<NoUnitSolver, Brand>(
        &rt,
        rt.alloc(),
        &inst,
        Ask::Fewest,
        1000,
        End::Done(1, Some(Some(0))),
        Blank::new(1),
    )
}

#[test]
fn want_of_memory_is_told(rt: HostRuntime) -> Result<(), Fail> {
    for ask in [Ask::Kept, Ask::AtMost(1), Ask::Fewest] {
        is_starved::<StarvedSolver, Brand>(&rt, rt.alloc(), ask, Blank::new(1))?;
    }
    Ok(())
}

fn is_starved<S: Solver, L: Ledger>(
    rt: &impl Abort,
    alloc: Global,
    ask: Ask,
    blank: Blank,
) -> Result<(), Fail>
    requires name { blank.name ≡ L.name }
    requires parts { blank.parts ≡ L.parts }
    requires one { blank.parts ≡ 1 }
{
    let mut steps = Steps::<L>::new(blank);
    let inst = instance_of(rt, alloc, TWO)?;
    let end = match ask {
        Ask::Kept => verify::<S, L>(alloc, &inst, 1000, &mut steps),
        Ask::AtMost(most) => generate::<S, L>(alloc, &inst, most, 1000, &mut steps),
        Ask::Fewest => optimise::<S, L>(alloc, &inst, 1000, &mut steps),
    };
    match end {
        Ok(_) => fails(rt),
        Err(refusal) => {
            assert!(rt; refusal == EncodeRefusal::Memory);
            Ok(())
        }
    }
}
