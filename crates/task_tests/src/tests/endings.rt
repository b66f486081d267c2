//! How a task is to end: with a design that the judge takes, with a refutation that the checker takes, or with its budget spent.
ghost use Rattle.std.specs.Prelude.{◌≡◌, ◌<◌, ◌↔◌, All, IsTrue, length};

use cell_net::{Instance, Layout, Plan};
use derivation_log::{Bound, Refutation};
use log_checker::LogVerdict;
use plan_checker::{Verdict, judge};
use solver_face::Solver;
use std::alloc::Global;
use std::process::Abort;
use std::sync::ledger::{Blank, Ledger};
use std::test::Fail;
use task_driver::{check, generate, optimise, verify};
use vss_report::{Design, Outcome, Smaller};
use vss_steps::Steps;

/// What is asked.
#[derive(Clone, Copy)]
pub(super) enum Ask {
    Kept,
    AtMost(u32),
    Fewest,
}

/// How a task is to end.
#[derive(Clone, Copy)]
pub(super) enum End {
    /// With a design of so many borders, and what is said of smaller ones: not asked, none, or the refutation of that bound.
    Done(u32, Option<Option<u32>>),
    /// With the refutation of that bound.
    Impossible(Bound),
    /// With the budget spent, and a best design of so many borders, if there is one.
    Spent(Option<u32>),
}

/// The search ends so, its design is lawful, and its refutation is one.
pub(super) fn ends_as<S: Solver, L: Ledger>(
    rt: &impl Abort,
    alloc: Global,
    inst: &Instance,
    ask: Ask,
    budget: u32,
    end: End,
    blank: Blank,
) -> Result<(), Fail>
    requires name { blank.name ≡ L.name }
    requires parts { blank.parts ≡ L.parts }
    requires one { blank.parts ≡ 1 }
{
    let mut steps = Steps::<L>::new(blank);
    let outcome = asked::<S, L>(rt, alloc, inst, ask, budget, &mut steps)?;
    match &outcome {
        Outcome::Done(design) => is_done(rt, alloc, inst, design, end),
        Outcome::Impossible(refutation) => is_impossible(rt, alloc, inst, refutation, end),
        Outcome::Spent { conflicts, best } => {
            assert!(rt; *conflicts == budget);
            is_spent(rt, alloc, inst, best, end)
        }
    }
}

fn is_done(
    rt: &impl Abort,
    alloc: Global,
    inst: &Instance,
    design: &Design,
    end: End,
) -> Result<(), Fail> {
    match end {
        End::Done(count, smaller) => {
            assert_eq!(rt; design.layout.borders().len(), count as usize);
            is_lawful(rt, alloc, inst, &design.layout, &design.plan)?;
            is_smaller(rt, alloc, inst, &design.smaller, smaller)
        }
        _ => fails(rt),
    }
}

fn is_impossible(
    rt: &impl Abort,
    alloc: Global,
    inst: &Instance,
    refutation: &Refutation,
    end: End,
) -> Result<(), Fail> {
    match end {
        End::Impossible(bound) => refutes(rt, alloc, inst, refutation, bound),
        _ => fails(rt),
    }
}

fn is_spent(
    rt: &impl Abort,
    alloc: Global,
    inst: &Instance,
    best: &Option<(Layout, Plan)>,
    end: End,
) -> Result<(), Fail> {
    match end {
        End::Spent(count) => is_best(rt, alloc, inst, best, count),
        _ => fails(rt),
    }
}

fn asked<S: Solver, L: Ledger>(
    rt: &impl Abort,
    alloc: Global,
    inst: &Instance,
    ask: Ask,
    budget: u32,
    steps: &mut Steps<L>,
) -> Result<Outcome, Fail> {
    assert!(rt; 0 < budget);
    assert!(rt; budget < 100_000);
    match ask {
        Ask::Kept => Ok(verify::<S, L>(alloc, inst, budget, steps)?),
        Ask::AtMost(most) => Ok(generate::<S, L>(alloc, inst, most, budget, steps)?),
        Ask::Fewest => Ok(optimise::<S, L>(alloc, inst, budget, steps)?),
    }
}

/// The judge takes the plan under the layout.
fn is_lawful(
    rt: &impl Abort,
    alloc: Global,
    inst: &Instance,
    layout: &Layout,
    plan: &Plan,
) -> Result<(), Fail> {
    let mut borders = Vec::new(alloc);
    borders.extend_from_slice(layout.borders())?;
    assert!(rt; borders.len() < 100);
    let same = Layout::new(inst, borders)?;
    assert!(rt; plan.runs.len() == inst.train_count() as usize);
    assert!(rt; are_short(plan));
    let verdict = judge(alloc, inst, &same, plan)?;
    assert!(rt; verdict == Verdict::Lawful);
    Ok(())
}

fn are_short(plan: &Plan) -> bool
    ensures { IsTrue result ↔ All (λ r. length r.sweeps < 100) plan.now.runs }
{
    plan.runs
        .as_slice()
        .iter()
        .all(|run| run.sweeps.len() < 100)
}

/// What is said of smaller layouts is what was wanted.
fn is_smaller(
    rt: &impl Abort,
    alloc: Global,
    inst: &Instance,
    smaller: &Smaller,
    wanted: Option<Option<u32>>,
) -> Result<(), Fail> {
    match smaller {
        Smaller::NotAsked => assert!(rt; wanted.is_none()),
        Smaller::Nothing => assert!(rt; wanted == Some(None)),
        Smaller::Refuted(refutation) => match wanted {
            Some(Some(most)) => refutes(rt, alloc, inst, refutation, Bound::AtMost(most))?,
            _ => assert!(rt; false),
        },
    }
    Ok(())
}

/// The refutation is one of that bound.
fn refutes(
    rt: &impl Abort,
    alloc: Global,
    inst: &Instance,
    refutation: &Refutation,
    bound: Bound,
) -> Result<(), Fail> {
    assert_eq!(rt; refutation.bound, bound);
    assert!(rt; refutation.log.steps.len() < 100_000);
    let verdict = check(alloc, inst, refutation)?;
    assert_eq!(rt; verdict, LogVerdict::Refutes);
    Ok(())
}

fn is_best(
    rt: &impl Abort,
    alloc: Global,
    inst: &Instance,
    best: &Option<(Layout, Plan)>,
    wanted: Option<u32>,
) -> Result<(), Fail> {
    match best {
        None => assert!(rt; wanted.is_none()),
        Some((layout, plan)) => {
            let count = layout.borders().len();
            assert!(rt; count < 1000);
            assert!(rt; wanted == Some(count as u32));
            is_lawful(rt, alloc, inst, layout, plan)?;
        }
    }
    Ok(())
}

pub(super) fn fails(rt: &impl Abort) -> Result<(), Fail> {
    assert!(rt; false);
    Ok(())
}
