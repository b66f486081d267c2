//! Refutations whose sizes tell: a real one, and one of steps with many literals, hints and numbers.

use crate::tests::{Line, add, drop_step, formula_of, steps_of, verdict_on};
use crate::{LogVerdict, StepFault};
use derivation_log::Step;
use sat_core::{Formula, Lit, Var, is_clause};
use std::alloc::Global;
use std::process::Abort;
use std::test::Fail;
use vss_lists::Items;

// Four pigeons sit in three holes, each hole with at most one: variable 3 (i - 1) + j says that pigeon i sits in hole j.
static PIGEONS: [&[i32]; 22] = [
    &[1, 2, 3],
    &[4, 5, 6],
    &[7, 8, 9],
    &[10, 11, 12],
    &[-1, -4],
    &[-1, -7],
    &[-1, -10],
    &[-4, -7],
    &[-4, -10],
    &[-7, -10],
    &[-2, -5],
    &[-2, -8],
    &[-2, -11],
    &[-5, -8],
    &[-5, -11],
    &[-8, -11],
    &[-3, -6],
    &[-3, -9],
    &[-3, -12],
    &[-6, -9],
    &[-6, -12],
    &[-9, -12],
];

// Each two holes of the first two pigeons leave one for the others; so the first pigeon sits nowhere.
static REFUTATION: [Line; 11] = [
    Line::Add(23, &[-1, -5], &[6, 7, 14, 3, 15, 4, 22]),
    Line::Add(24, &[-1, -6], &[6, 7, 20, 3, 16, 4, 21]),
    Line::Add(25, &[-2, -4], &[8, 9, 12, 3, 13, 4, 22]),
    Line::Add(26, &[-2, -6], &[12, 13, 20, 3, 10, 4, 21]),
    Line::Add(27, &[-3, -4], &[8, 9, 18, 3, 16, 4, 19]),
    Line::Add(28, &[-3, -5], &[14, 15, 18, 3, 10, 4, 19]),
    Line::Add(29, &[-1], &[5, 23, 2, 24]),
    Line::Add(30, &[-2], &[11, 25, 2, 26]),
    Line::Add(31, &[-3], &[17, 27, 2, 28]),
    Line::Drop(&[23, 24, 25, 26, 27, 28, 2]),
    Line::Add(32, &[], &[29, 30, 1, 31]),
];

#[test]
fn refutes_four_pigeons_in_three_holes(rt: HostRuntime) -> Result<(), Fail> {
    // how many lines, and the verdict on them
    let table = [(11, LogVerdict::Refutes), (10, LogVerdict::NoEmptyClause)];
    for (lines, verdict) in table {
        let formula = formula_of(&rt, rt.alloc(), 12, &PIGEONS)?;
        let steps = steps_of(rt.alloc(), &REFUTATION[..lines])?;
        assert_eq!(rt; verdict_on(&rt, formula, steps)?, verdict);
    }
    let formula = formula_of(&rt, rt.alloc(), 12, &PIGEONS)?;
    let mut steps = steps_of(rt.alloc(), &REFUTATION[..10])?;
    steps.push(add(rt.alloc(), 32, &[-1], &[5, 23, 2, 24])?)?;
    assert_eq!(rt;
        verdict_on(&rt, formula, steps)?,
        LogVerdict::Bad {
            index: 10,
            fault: StepFault::UnknownClause
        }
    );
    Ok(())
}

const LENGTH: u32 = 500;

// The first variable is true, and with each the next; the last one is false.
fn chain(rt: &impl Abort, alloc: Global) -> Result<Formula, Fail> {
    let mut formula = Formula::new(alloc, LENGTH);
    push(rt, &mut formula, &[lit(1, true)])?;
    for var in 1..LENGTH {
        push(rt, &mut formula, &[lit(var, false), lit(var + 1, true)])?;
    }
    push(rt, &mut formula, &[lit(LENGTH, false)])?;
    Ok(formula)
}

fn lit(var: u32, positive: bool) -> Lit {
    Lit {
        var: Var(var),
        positive,
    }
}

fn push(rt: &impl Abort, formula: &mut Formula, lits: &[Lit]) -> Result<(), Fail> {
    assert!(rt; is_clause(formula.vars(), lits));
    assert!(rt; formula.len() < 1_000_000);
    formula.push(lits)?;
    Ok(())
}

// A clause of all variables, the empty clause by a hint for each clause of the chain, the drop of all these, and the
// empty clause again.
fn long_steps(alloc: Global) -> Result<Items<Step>, Fail> {
    let all: Vec<i32> = (1..501).collect(alloc)?;
    let clauses: Vec<u32> = (1..LENGTH + 2).collect(alloc)?;
    let mut steps = Items::new(alloc);
    steps.push(add(alloc, LENGTH + 2, all.as_slice(), &[1])?)?;
    steps.push(add(alloc, LENGTH + 3, &[], clauses.as_slice())?)?;
    steps.push(drop_step(alloc, clauses.as_slice())?)?;
    steps.push(add(alloc, LENGTH + 4, &[], &[LENGTH + 3])?)?;
    Ok(steps)
}

#[test]
fn checks_steps_of_many_literals_hints_and_numbers(rt: HostRuntime) -> Result<(), Fail> {
    let formula = chain(&rt, rt.alloc())?;
    assert_eq!(rt;
        verdict_on(&rt, formula, long_steps(rt.alloc())?)?,
        LogVerdict::Refutes
    );
    let without_one: Vec<u32> = (1..LENGTH + 2)
        .filter(|hint| *hint != LENGTH / 2)
        .collect(rt.alloc())?;
    let mut steps = Items::new(rt.alloc());
    steps.push(add(rt.alloc(), LENGTH + 2, &[], without_one.as_slice())?)?;
    assert_eq!(rt;
        verdict_on(&rt, chain(&rt, rt.alloc())?, steps)?,
        LogVerdict::Bad {
            index: 0,
            fault: StepFault::HintNotUnit
        }
    );
    Ok(())
}
