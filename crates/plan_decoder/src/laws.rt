//! What the formula of a task says, for the proofs of callers. The calls do nothing.
ghost use Rattle.std.specs.Prelude.{ℕ, List, Bool};
ghost use Rattle.cell_net.specs.declared.ids.CandidateId.{CandidateId};
ghost use Rattle.cell_net.specs.declared.parts.InstanceParts.{InstanceParts};
ghost use Rattle.sweep_table.specs.Tables.{Table};
ghost use Rattle.plan_decoder.specs.Decoding.{FreeFormulaSays};

/// A valuation that satisfies the list of a free task satisfies its clauses without the count, and those of the count. A call
/// gives its caller's proof this law.
pub fn free_formulas_say()
    ensures { (values : List Bool) (p : InstanceParts) (gaps : List (List (List (List CandidateId)))) (tables : List Table) (most : ℕ) → FreeFormulaSays values p gaps tables most }
{}
