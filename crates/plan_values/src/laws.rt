//! The laws, which a call hands to its caller's proof. The calls do nothing.
ghost use Rattle.std.specs.Prelude.{ℕ, Bool, List};
ghost use Rattle.cell_net.specs.declared.ids.CandidateId.{CandidateId};
ghost use Rattle.cell_net.specs.declared.plans.Plan.{Plan};
ghost use Rattle.cell_net.specs.declared.parts.InstanceParts.{InstanceParts};
ghost use Rattle.sweep_table.specs.Tables.{Table};
ghost use Rattle.plan_values.specs.Values.{ChainItems};
ghost use Rattle.plan_values.specs.Laws.{ChainsSatisfyGiven, ChainsSatisfyFree, ValuesMean, RunsHaveChains, GivenHasChains, FreeHasChains, GivenIsExact, FreeIsExact, GivenRefutes, FreeRefutes};

use gap_clauses::separated_where_candidates_cut;
use plan_laws::{chains_are_lawful, counts_bound_layouts, valuations_tell_chains};

/// Chains of all trains, any two of them apart under a layout: their values satisfy the clauses of the task of that layout, and
/// with those of the counter the clauses of a free task of at least as many borders. Each variable has the value of its meaning,
/// and where the runs of a plan are those of chains there are such chains.
pub fn chains_satisfy()
    ensures given { (p : InstanceParts) (gaps : List (List (List (List CandidateId)))) (tables : List Table) (borders : List CandidateId) (plan : Plan) (chains : List ChainItems) → ChainsSatisfyGiven p gaps tables borders plan chains }
    ensures free { (p : InstanceParts) (gaps : List (List (List (List CandidateId)))) (tables : List Table) (borders : List CandidateId) (plan : Plan) (chains : List ChainItems) (most : ℕ) → ChainsSatisfyFree p gaps tables borders plan chains most }
    ensures meanings { (p : InstanceParts) (gaps : List (List (List (List CandidateId)))) (tables : List Table) (borders : List CandidateId) (plan : Plan) (chains : List ChainItems) (more : List Bool) → ValuesMean p gaps tables borders plan chains more }
    ensures chains { (p : InstanceParts) (tables : List Table) (borders : List CandidateId) (plan : Plan) → RunsHaveChains p tables borders plan }
{
    separated_where_candidates_cut();
    valuations_tell_chains();
}

/// The clauses of the task of a layout can be satisfied exactly where chains of all trains are, any two of them apart under it;
/// those of a free task exactly where they are under some layout of no more borders than its bound.
pub fn tasks_have_chains()
    ensures given { (p : InstanceParts) (gaps : List (List (List (List CandidateId)))) (tables : List Table) (borders : List CandidateId) → GivenHasChains p gaps tables borders }
    ensures free { (p : InstanceParts) (gaps : List (List (List (List CandidateId)))) (tables : List Table) (most : ℕ) → FreeHasChains p gaps tables most }
{
    valuations_tell_chains();
    counts_bound_layouts();
    chains_satisfy();
}

/// With the tables of the trains' sweeps, the clauses of the task of a layout can be satisfied exactly where the layout is
/// feasible; those of a free task exactly where some feasible layout has no more borders than its bound.
pub fn tasks_are_exact()
    ensures given { (p : InstanceParts) (gaps : List (List (List (List CandidateId)))) (tables : List Table) (borders : List CandidateId) → GivenIsExact p gaps tables borders }
    ensures free { (p : InstanceParts) (gaps : List (List (List (List CandidateId)))) (tables : List Table) (most : ℕ) → FreeIsExact p gaps tables most }
{
    tasks_have_chains();
    chains_are_lawful();
}

/// Where no valuation satisfies the clauses of a layout's task, the layout is not feasible; where none satisfies those of a free
/// task, no layout of so many borders is.
pub fn refuted_tasks_are_impossible()
    ensures given { (p : InstanceParts) (gaps : List (List (List (List CandidateId)))) (tables : List Table) (borders : List CandidateId) → GivenRefutes p gaps tables borders }
    ensures free { (p : InstanceParts) (gaps : List (List (List (List CandidateId)))) (tables : List Table) (most : ℕ) → FreeRefutes p gaps tables most }
{
    tasks_are_exact();
}
