//! The layout with the fewest borders, by one solver over all bounds.
ghost use Rattle.std.specs.Prelude.{◌≡◌, ◌<◌, ◌≤◌, ◌+◌, ◌-◌, ◌^◌, ℕ, IfOk, length};
ghost use Rattle.derivation_log.specs.declared.step.Bound.TheVariants.{AtMost};
ghost use Rattle.solver_face.specs.Solving.{IsRefuted};
ghost use Rattle.task_driver.specs.BoundUnits.{bounds_in};
ghost use Rattle.task_driver.specs.Questions.{of_fewest, Formulas};
ghost use Rattle.task_driver.specs.TaskEnds.{IsSearchEnd, IsOutcomeOf};
ghost use Rattle.task_driver.specs.Encodings.{IsBoundEncoding};
ghost use Rattle.task_driver.specs.Underway.{IsSearching, last_number};

use crate::formulas::encode_bound;
use crate::units::{BoundUnit, give, marks_of};
use cell_net::{Instance, Layout, Plan};
use clause_encoder::{EncodeRefusal, Encoded, VarMap};
use derivation_log::{Bound, Refutation};
use log_rebase::rebase;
use plan_decoder::{decode, free_formulas_say};
use sat_core::Formula;
use solver_face::{Answer, Budget, Solver};
use std::alloc::{AllocError, Global};
use std::sync::ledger::Ledger;
use vss_report::{Design, Outcome, Smaller};
use vss_steps::Steps;

/// The layout with a lawful plan that has the fewest borders. A refusal of size comes before the search.
pub fn optimise<S: Solver, L: Ledger>(
    alloc: Global,
    inst: &Instance,
    budget: u32,
    steps: &mut Steps<L>,
) -> Result<Outcome, EncodeRefusal>
    requires { (1 ≤ budget) × (budget ≤ 1000000000) }
    ensures { IsSearchEnd inst.now of_fewest budget result }
{
    let encoded = encode_bound(alloc, inst, Bound::AtMost(inst.candidate_count()))?;
    let Encoded { formula, map } = encoded;
    match search_fewest::<S, L>(alloc, inst, formula, &map, budget, steps) {
        Ok(outcome) => Ok(outcome),
        Err(_) => Err(EncodeRefusal::Memory),
    }
}

/// The same in the formula of any number of borders. One solver is given the unit of one border fewer after each design.
fn search_fewest<S: Solver, L: Ledger>(
    alloc: Global,
    inst: &Instance,
    formula: Formula,
    map: &VarMap,
    budget: u32,
    steps: &mut Steps<L>,
) -> Result<Outcome, AllocError>
    requires budget { (1 ≤ budget) × (budget ≤ 1000000000) }
    requires encoded { IsBoundEncoding inst.now (AtMost (length inst.now.candidates)) formula map.now }
    ensures { IfOk result (IsOutcomeOf inst.now of_fewest budget) }
{
    // for the proof alone: the rules of instances
    let _parts = inst.parts();
    free_formulas_say();
    let kept = inst.kept().len();
    let clauses = formula.len();
    let mut solver = S::new(formula)?;
    let mut left = Budget::new(budget);
    let mut units = Vec::new(alloc);
    let mut best: Option<(Layout, Plan)> = None;
    let mut most = inst.candidate_count();
    'bounds: loop {
        match solver.solve(&mut left, steps)? {
            Answer::Spent => {
                return Ok(Outcome::Spent {
                    conflicts: budget,
                    best,
                });
            }
            Answer::Unsat => {
                return refuted::<S>(
                    alloc,
                    inst,
                    map,
                    clauses,
                    &solver,
                    units.as_slice(),
                    most,
                    best,
                );
            }
            Answer::Sat => {
                let (layout, plan) = decode(alloc, inst, map, solver.valuation())?;
                let count = layout.borders().len();
                if count == kept {
                    return Ok(Outcome::Done(Design {
                        layout,
                        plan,
                        smaller: Smaller::Nothing,
                    }));
                }
                most = count as u32 - 1;
                units.push(give::<S>(map, clauses, units.len(), most, &mut solver)?)?;
                best = Some((layout, plan));
            }
        }
    }
}

/// The last bound is refuted: the best design has the fewest borders, if there is one.
fn refuted<S: Solver>(
    alloc: Global,
    inst: &Instance,
    map: &VarMap,
    clauses: u32,
    solver: &S,
    units: &[BoundUnit],
    most: u32,
    best: Option<(Layout, Plan)>,
) -> Result<Outcome, AllocError>
    requires search { (f : Formulas) × (budget : ℕ) × (left : ℕ) × IsSearching f inst.now map.now budget (S.solving solver.now) left units.now best }
    requires clauses { clauses ≡ length (S.solving solver.now).formula }
    requires most { most ≡ last_number (length inst.now.candidates) (bounds_in units.now) }
    requires room { clauses + length units.now < 2 ^ 32 }
    requires few { clauses < 2 ^ 32 - 1 }
    requires refuted { IsRefuted (S.solving solver.now) }
    ensures { (budget : ℕ) → IfOk result (IsOutcomeOf inst.now of_fewest budget) }
{
    let marks = marks_of(alloc, map, clauses, most, units)?;
    let rebased = rebase(alloc, solver.log(), clauses, marks.as_slice())?;
    let refutation = Refutation {
        bound: Bound::AtMost(most),
        log: rebased,
    };
    match best {
        None => Ok(Outcome::Impossible(refutation)),
        Some((layout, plan)) => Ok(Outcome::Done(Design {
            layout,
            plan,
            smaller: Smaller::Refuted(refutation),
        })),
    }
}
