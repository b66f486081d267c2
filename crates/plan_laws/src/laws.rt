//! The laws, which a call hands to its caller's proof. The calls do nothing.
ghost use Rattle.std.specs.Prelude.{ℕ, List, Bool};
ghost use Rattle.cell_net.specs.declared.ids.CandidateId.{CandidateId};
ghost use Rattle.cell_net.specs.declared.plans.Plan.{Plan};
ghost use Rattle.cell_net.specs.declared.parts.InstanceParts.{InstanceParts};
ghost use Rattle.sweep_table.specs.Tables.{Table};
ghost use Rattle.plan_laws.specs.Laws.{ChainsAreLawful, CountTells, FreeTaskTells, GivenTaskTells};

use gap_clauses::separated_where_candidates_cut;

/// A valuation that satisfies the clauses of a task, without those of its count, tells a layout and a chain of each train, any
/// two of which are apart under that layout; for the task of a layout it tells that one.
pub fn valuations_tell_chains()
    ensures free { (values : List Bool) (p : InstanceParts) (gaps : List (List (List (List CandidateId)))) (tables : List Table) → FreeTaskTells values p gaps tables }
    ensures given { (values : List Bool) (p : InstanceParts) (gaps : List (List (List (List CandidateId)))) (tables : List Table) (layout : List CandidateId) → GivenTaskTells values p gaps tables layout }
{
    separated_where_candidates_cut();
}

/// A valuation that satisfies the clauses of the counter and of a bound tells a layout of no more borders.
pub fn counts_bound_layouts()
    ensures { (values : List Bool) (p : InstanceParts) (tables : List Table) (most : ℕ) → CountTells values p tables most }
{}

/// Chains in the tables of the trains' sweeps are a lawful plan under their borders.
pub fn chains_are_lawful()
    ensures { (p : InstanceParts) (borders : List CandidateId) (tables : List Table) (plan : Plan) → ChainsAreLawful p borders tables plan }
{}
