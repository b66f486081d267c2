//! Whether a layout is feasible: that of the kept borders, or one of at most so many.
ghost use Rattle.std.specs.Prelude.{◌≤◌};
ghost use Rattle.task_driver.specs.Questions.{of_kept, of_at_most};
ghost use Rattle.task_driver.specs.TaskEnds.{IsSearchEnd};

use crate::once::search_once;
use cell_net::Instance;
use clause_encoder::EncodeRefusal;
use derivation_log::Bound;
use solver_face::Solver;
use std::alloc::Global;
use std::sync::ledger::Ledger;
use vss_report::Outcome;
use vss_steps::Steps;

/// Whether the layout of the kept borders alone has a lawful plan. A refusal of size comes before the search.
pub fn verify<S: Solver, L: Ledger>(
    alloc: Global,
    inst: &Instance,
    budget: u32,
    steps: &mut Steps<L>,
) -> Result<Outcome, EncodeRefusal>
    requires { (1 ≤ budget) × (budget ≤ 1000000000) }
    ensures { IsSearchEnd inst.now of_kept budget result }
{
    search_once::<S, L>(alloc, inst, Bound::Given, budget, steps)
}

/// Whether a layout of at most so many borders has a lawful plan. A refusal of size comes before the search.
pub fn generate<S: Solver, L: Ledger>(
    alloc: Global,
    inst: &Instance,
    most: u32,
    budget: u32,
    steps: &mut Steps<L>,
) -> Result<Outcome, EncodeRefusal>
    requires { (1 ≤ budget) × (budget ≤ 1000000000) }
    ensures { IsSearchEnd inst.now (of_at_most most) budget result }
{
    let bound = most.min(inst.candidate_count());
    search_once::<S, L>(alloc, inst, Bound::AtMost(bound), budget, steps)
}
