//! What a test does: it encodes a task, lets the plain solver search, and decodes what it finds.

ghost use Rattle.std.specs.Prelude.{◌≡◌, MatchOption, IfOk};
ghost use Rattle.cell_net.specs.Plans.{IsLawful};
ghost use Rattle.decode_tests.specs.Asked.{IsValuationOf, MayBeAsked};

use cell_net::{Instance, Layout, Plan};
use clause_encoder::{Encoded, Task, encode};
use plain_solver::PlainSolver;
use plan_decoder::{decode, free_formulas_say};
use sat_core::{Formula, Valuation};
use solver_face::{Answer, Budget, Solver};
use std::alloc::Global;
use std::process::Abort;
use std::sync::ledger::{Blank, Ledger};
use std::test::Fail;
use vss_lists::Items;
use vss_steps::Steps;

/// The layout and the plan that are decoded, if the plain solver finds a valuation.
pub(super) fn found<L: Ledger>(
    rt: &impl Abort,
    alloc: Global,
    inst: &Instance,
    task: &Task,
    bound: u32,
    blank: Blank,
) -> Result<Option<(Layout, Plan)>, Fail>
    requires name { blank.name ≡ L.name }
    requires parts { blank.parts ≡ L.parts }
    requires one { blank.parts ≡ 1 }
    requires task { MayBeAsked inst.now task.now }
    ensures { IfOk result (λ found. MatchOption found (Unit {0}) (λ f. IsLawful inst.now f.0 f.1)) }
{
    let encoded = encode(alloc, inst, task, bound)?;
    let Encoded { formula, map } = encoded;
    let solution = solved::<L>(rt, alloc, formula, blank)?;
    match solution {
        Some(valuation) => {
            free_formulas_say();
            Ok(Some(decode(alloc, inst, &map, &valuation)?))
        }
        None => Ok(None),
    }
}

/// A valuation of the formula, if the plain solver finds one.
fn solved<L: Ledger>(
    rt: &impl Abort,
    alloc: Global,
    formula: Formula,
    blank: Blank,
) -> Result<Option<Valuation>, Fail>
    requires name { blank.name ≡ L.name }
    requires parts { blank.parts ≡ L.parts }
    requires one { blank.parts ≡ 1 }
    ensures { IfOk result (λ found. MatchOption found (Unit {0}) (λ v. IsValuationOf formula v.values)) }
{
    let mut steps = Steps::<L>::new(blank);
    assert!(rt; formula.len() < 100_000);
    let mut solver = PlainSolver::new(formula)?;
    let mut budget = Budget::new(100_000);
    let answer = solver.solve(&mut budget, &mut steps)?;
    match answer {
        Answer::Sat => {
            let values = Vec::from_slice(alloc, solver.valuation().values.as_slice())?;
            Ok(Some(Valuation {
                values: Items::from_vec(values),
            }))
        }
        _ => {
            assert_eq!(rt; answer, Answer::Unsat);
            Ok(None)
        }
    }
}
