//! The rows on the watch solver.
use super::formulas::{clauses_of, has_model, pigeons, random_clauses};
use super::scenes::{Call, calls, decides, first_clause, units, values};
use solver_face::Answer;
use std::marker::Brand;
use std::sync::ledger::Blank;
use std::test::Fail;
use watch_solver::WatchSolver;

static SQUARE: [&[i32]; 4] = [&[1, 2], &[1, -2], &[-1, 2], &[-1, -2]];

#[test]
fn a_square_is_refuted_by_two_conflicts(rt: HostRuntime) -> Result<(), Fail> {
    let square = clauses_of(rt.alloc(), 2, &SQUARE)?;
    first_clause::<WatchSolver, Brand>(&rt, rt.alloc(), &square, 1, Blank::new(1))?;
    let rows = [
        Call {
            budget: 1,
            answer: Answer::Spent,
            left: Some(0),
        },
        Call {
            budget: 7,
            answer: Answer::Unsat,
            left: Some(6),
        },
        Call {
            budget: 3,
            answer: Answer::Unsat,
            left: Some(3),
        },
    ];
    calls::<WatchSolver, Brand>(&rt, rt.alloc(), &square, &rows, Blank::new(1))?;
    let whole = [Call {
        budget: 2,
        answer: Answer::Unsat,
        left: Some(0),
    }];
    calls::<WatchSolver, Brand>(&rt, rt.alloc(), &square, &whole, Blank::new(1))
}

#[test]
fn an_empty_clause_is_refuted_at_once(rt: HostRuntime) -> Result<(), Fail> {
    let empty = clauses_of(rt.alloc(), 3, &[&[]])?;
    let rows = [Call {
        budget: 1,
        answer: Answer::Unsat,
        left: Some(0),
    }];
    calls::<WatchSolver, Brand>(&rt, rt.alloc(), &empty, &rows, Blank::new(1))
}

#[test]
fn open_variables_are_decided_false(rt: HostRuntime) -> Result<(), Fail> {
    let nothing = clauses_of(rt.alloc(), 3, &[])?;
    values::<WatchSolver, Brand>(
        &rt,
        rt.alloc(),
        &nothing,
        &[false, false, false],
        Blank::new(1),
    )
}

#[test]
fn pigeons_need_as_many_holes(rt: HostRuntime) -> Result<(), Fail> {
    let tight = pigeons(rt.alloc(), 4, 3)?;
    decides::<WatchSolver, Brand>(&rt, rt.alloc(), &tight, Answer::Unsat, Blank::new(1))?;
    let fitting = pigeons(rt.alloc(), 3, 3)?;
    decides::<WatchSolver, Brand>(&rt, rt.alloc(), &fitting, Answer::Sat, Blank::new(1))
}

#[test]
fn agrees_with_the_truth_table(rt: HostRuntime) -> Result<(), Fail> {
    let mut seed = 7;
    for _ in 0..200 {
        let random = random_clauses(rt.alloc(), &mut seed)?;
        let wanted = if has_model(&random) {
            Answer::Sat
        } else {
            Answer::Unsat
        };
        decides::<WatchSolver, Brand>(&rt, rt.alloc(), &random, wanted, Blank::new(1))?;
    }
    Ok(())
}

#[test]
fn units_narrow_until_nothing_is_left(rt: HostRuntime) -> Result<(), Fail> {
    let one_of_four = clauses_of(rt.alloc(), 4, &[&[1, 2, 3, 4], &[-1, 2], &[-3, 4]])?;
    let rows = [(-2, Answer::Sat), (1, Answer::Unsat), (3, Answer::Unsat)];
    units::<WatchSolver, Brand>(&rt, rt.alloc(), &one_of_four, &rows, Blank::new(1))?;
    let rows = [
        (-1, Answer::Sat),
        (-4, Answer::Sat),
        (3, Answer::Unsat),
        (-3, Answer::Unsat),
    ];
    units::<WatchSolver, Brand>(&rt, rt.alloc(), &one_of_four, &rows, Blank::new(1))
}
