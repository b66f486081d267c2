//! What no clause says of the checker: that memory suffices, with verdicts compared.

use crate::{Checker, LogVerdict, StepFault, check_log};
use derivation_log::{Log, Step};
use sat_core::{ClauseId, Formula, Lit, Var, is_clause};
use std::alloc::{AllocError, Global};
use std::process::Abort;
use std::test::Fail;
use vss_lists::Items;

// A section of four cells with three candidates for borders: separation of cells, an entry that can't be met (clause
// 7), and a counter of borders.
static EXAMPLE: [&[i32]; 27] = [
    &[-4, 1],
    &[-5, 1, 2],
    &[-6, 1, 2, 3],
    &[-7, 2],
    &[-8, 2, 3],
    &[-9, 3],
    &[],
    &[-1, 19],
    &[-19, 1],
    &[-19, 20],
    &[-2, 20],
    &[-20, 19, 2],
    &[-2, -19, 21],
    &[-21, 2],
    &[-21, 19],
    &[-20, 22],
    &[-3, 22],
    &[-22, 20, 3],
    &[-21, 23],
    &[-3, -20, 23],
    &[-23, 21, 3],
    &[-23, 21, 20],
    &[-3, -21, 24],
    &[-24, 3],
    &[-24, 21],
    &[-23, 22],
    &[-24, 23],
];

/// A step of a log, in a table.
pub(crate) enum Line {
    Add(u32, &'static [i32], &'static [u32]),
    Drop(&'static [u32]),
}

/// The literals of these numbers, negative where the literal is.
fn lits_of(alloc: Global, numbers: &[i32]) -> Result<Vec<Lit>, AllocError> {
    numbers
        .iter()
        .map(|number| Lit {
            var: Var(number.unsigned_abs()),
            positive: *number > 0,
        })
        .collect(alloc)
}

fn ids_of(alloc: Global, numbers: &[u32]) -> Result<Items<ClauseId>, AllocError> {
    let ids: Vec<ClauseId> = numbers
        .iter()
        .map(|number| ClauseId(*number))
        .collect(alloc)?;
    Ok(Items::from_vec(ids))
}

/// The step that adds a clause.
pub(crate) fn add(alloc: Global, id: u32, lits: &[i32], hints: &[u32]) -> Result<Step, AllocError> {
    Ok(Step::Add {
        id: ClauseId(id),
        lits: Items::from_vec(lits_of(alloc, lits)?),
        hints: ids_of(alloc, hints)?,
    })
}

/// The step that drops clauses.
pub(crate) fn drop_step(alloc: Global, ids: &[u32]) -> Result<Step, AllocError> {
    Ok(Step::Drop {
        ids: ids_of(alloc, ids)?,
    })
}

fn step_of(alloc: Global, line: &Line) -> Result<Step, AllocError> {
    match line {
        Line::Add(id, lits, hints) => add(alloc, *id, lits, hints),
        Line::Drop(ids) => drop_step(alloc, ids),
    }
}

/// The formula of these clauses.
pub(crate) fn formula_of(
    rt: &impl Abort,
    alloc: Global,
    vars: u32,
    clauses: &[&[i32]],
) -> Result<Formula, Fail> {
    let mut formula = Formula::new(alloc, vars);
    for numbers in clauses {
        let lits = lits_of(alloc, numbers)?;
        assert!(rt; is_clause(formula.vars(), lits.as_slice()));
        assert!(rt; formula.len() < 1_000_000);
        formula.push(lits.as_slice())?;
    }
    Ok(formula)
}

/// What `check_log` answers on the log of these steps.
pub(crate) fn verdict_on(
    rt: &impl Abort,
    formula: Formula,
    steps: Items<Step>,
) -> Result<LogVerdict, Fail> {
    assert!(rt; steps.len() < 1_000_000);
    Ok(check_log(formula, &Log { steps })?)
}

/// The steps of these lines.
pub(crate) fn steps_of(alloc: Global, lines: &[Line]) -> Result<Items<Step>, Fail> {
    let mut steps = Items::new(alloc);
    for line in lines {
        steps.push(step_of(alloc, line)?)?;
    }
    Ok(steps)
}

fn example(rt: &impl Abort, alloc: Global) -> Result<Formula, Fail> {
    formula_of(rt, alloc, 24, &EXAMPLE)
}

fn verdict_on_example(rt: &impl Abort, alloc: Global, lines: &[Line]) -> Result<LogVerdict, Fail> {
    verdict_on(rt, example(rt, alloc)?, steps_of(alloc, lines)?)
}

// Logs, and the first step that isn't accepted with its fault.
static FAULTS: [(&[Line], u32, StepFault); 12] = [
    (&[Line::Add(27, &[], &[7])], 0, StepFault::IdOrder),
    (&[Line::Add(28, &[25], &[7])], 0, StepFault::UnknownVariable),
    (&[Line::Add(28, &[5, -5], &[7])], 0, StepFault::Twofold),
    (&[Line::Add(28, &[], &[40])], 0, StepFault::UnknownClause),
    (&[Line::Add(28, &[], &[28])], 0, StepFault::UnknownClause),
    (&[Line::Add(28, &[], &[6])], 0, StepFault::HintNotUnit),
    (&[Line::Add(28, &[], &[])], 0, StepFault::NoConflict),
    (
        &[Line::Add(28, &[], &[7, 7])],
        0,
        StepFault::HintsAfterConflict,
    ),
    (&[Line::Drop(&[7, 7])], 0, StepFault::UnknownClause),
    (
        &[Line::Drop(&[7]), Line::Add(28, &[], &[7])],
        1,
        StepFault::UnknownClause,
    ),
    (
        &[
            Line::Add(40, &[1], &[7]),
            Line::Drop(&[40]),
            Line::Add(60, &[1], &[40]),
        ],
        2,
        StepFault::UnknownClause,
    ),
    // a literal that an earlier step made known is unassigned again
    (
        &[Line::Add(28, &[-1, 19], &[8]), Line::Add(29, &[19], &[8])],
        1,
        StepFault::NoConflict,
    ),
];

#[test]
fn tells_the_first_fault_of_each_log(rt: HostRuntime) -> Result<(), Fail> {
    for (lines, index, fault) in FAULTS {
        assert_eq!(rt;
            verdict_on_example(&rt, rt.alloc(), lines)?,
            LogVerdict::Bad { index, fault }
        );
    }
    Ok(())
}

// Logs whose steps are accepted, and whether they refute.
static VERDICTS: [(&[Line], LogVerdict); 5] = [
    (&[], LogVerdict::NoEmptyClause),
    (&[Line::Add(28, &[], &[7])], LogVerdict::Refutes),
    (&[Line::Add(28, &[5], &[7])], LogVerdict::NoEmptyClause),
    (
        &[Line::Add(28, &[], &[7]), Line::Add(29, &[1], &[7])],
        LogVerdict::NoEmptyClause,
    ),
    // numbers with gaps, which are found by search
    (
        &[
            Line::Add(40, &[1], &[7]),
            Line::Add(60, &[-1], &[7]),
            Line::Add(61, &[], &[40, 60]),
        ],
        LogVerdict::Refutes,
    ),
];

#[test]
fn refutes_by_the_empty_clause_at_the_end_alone(rt: HostRuntime) -> Result<(), Fail> {
    for (lines, verdict) in VERDICTS {
        assert_eq!(rt; verdict_on_example(&rt, rt.alloc(), lines)?, verdict);
    }
    Ok(())
}

#[test]
fn a_drop_that_fails_at_its_end_drops_nothing(rt: HostRuntime) -> Result<(), Fail> {
    let mut checker = Checker::new(example(&rt, rt.alloc())?)?;
    let refused = step_of(rt.alloc(), &Line::Drop(&[7, 40]))?;
    assert_eq!(rt; checker.take(&refused), Err(StepFault::UnknownClause));
    let taken = step_of(rt.alloc(), &Line::Add(28, &[], &[7]))?;
    assert_eq!(rt; checker.take(&taken), Ok(()));
    Ok(())
}

#[test]
fn refutes_by_a_long_log(rt: HostRuntime) -> Result<(), Fail> {
    let mut steps = Items::new(rt.alloc());
    for id in 28..100_028 {
        steps.push(add(rt.alloc(), id, &[1], &[7])?)?;
    }
    steps.push(add(rt.alloc(), 100_028, &[], &[7])?)?;
    assert_eq!(rt;
        verdict_on(&rt, example(&rt, rt.alloc())?, steps)?,
        LogVerdict::Refutes
    );
    Ok(())
}
