//! A search for a layout within one bound, by one call of a solver.
ghost use Rattle.std.specs.Prelude.{◌≤◌, IfOk};
ghost use Rattle.task_driver.specs.Questions.{Question};
ghost use Rattle.task_driver.specs.TaskEnds.{IsSearchEnd, IsOutcomeOf};
ghost use Rattle.task_driver.specs.Encodings.{AsksOnce, IsBoundEncoding};

use crate::formulas::encode_bound;
use cell_net::Instance;
use clause_encoder::{EncodeRefusal, Encoded, VarMap};
use derivation_log::{Bound, Refutation};
use plan_decoder::{decode, free_formulas_say};
use sat_core::Formula;
use solver_face::{Answer, Budget, Solver};
use std::alloc::{AllocError, Global};
use std::sync::ledger::Ledger;
use vss_report::{Design, Outcome, Smaller};
use vss_steps::Steps;

/// The answer to a question that asks about this bound alone.
pub(crate) fn search_once<S: Solver, L: Ledger>(
    alloc: Global,
    inst: &Instance,
    bound: Bound,
    budget: u32,
    steps: &mut Steps<L>,
) -> Result<Outcome, EncodeRefusal>
    requires { (1 ≤ budget) × (budget ≤ 1000000000) }
    ensures { (q : Question) → AsksOnce inst.now q bound → IsSearchEnd inst.now q budget result }
{
    let encoded = encode_bound(alloc, inst, bound)?;
    let Encoded { formula, map } = encoded;
    match search_in::<S, L>(alloc, inst, bound, formula, &map, budget, steps) {
        Ok(outcome) => Ok(outcome),
        Err(_) => Err(EncodeRefusal::Memory),
    }
}

/// The same in the formula of the bound.
fn search_in<S: Solver, L: Ledger>(
    alloc: Global,
    inst: &Instance,
    bound: Bound,
    formula: Formula,
    map: &VarMap,
    budget: u32,
    steps: &mut Steps<L>,
) -> Result<Outcome, AllocError>
    requires budget { (1 ≤ budget) × (budget ≤ 1000000000) }
    requires encoded { IsBoundEncoding inst.now bound formula map.now }
    ensures { (q : Question) → AsksOnce inst.now q bound → IfOk result (IsOutcomeOf inst.now q budget) }
{
    // for the proof alone: the rules of instances, and that the formula's clauses are clauses
    let _parts = inst.parts();
    let _vars = formula.vars();
    free_formulas_say();
    let mut solver = S::new(formula)?;
    let mut left = Budget::new(budget);
    match solver.solve(&mut left, steps)? {
        Answer::Sat => {
            let (layout, plan) = decode(alloc, inst, map, solver.valuation())?;
            Ok(Outcome::Done(Design {
                layout,
                plan,
                smaller: Smaller::NotAsked,
            }))
        }
        Answer::Unsat => Ok(Outcome::Impossible(Refutation {
            bound,
            log: solver.into_log(),
        })),
        Answer::Spent => Ok(Outcome::Spent {
            conflicts: budget,
            best: None,
        }),
    }
}
