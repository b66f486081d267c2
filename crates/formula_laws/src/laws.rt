//! The law, which a call hands to its caller's proof.
ghost use Rattle.cell_net.specs.declared.parts.InstanceParts.{InstanceParts};
ghost use Rattle.clause_encoder.specs.declared.task.Task.{Task};
ghost use Rattle.formula_laws.specs.Laws.{ClausesAreOne, RefusalsAreOne, RefusalsExclude, TablesAreOne};

use gap_clauses::walks_are_unique;

/// The trains of an instance have one list of tables, and over it each task has one list of clauses. A task that has a formula
/// within the sizes has no refusal, and none has two. A call does nothing; it gives its caller's proof these laws.
pub fn formulas_are_one()
    ensures tables { (p : InstanceParts) → TablesAreOne p }
    ensures clauses { (p : InstanceParts) → ClausesAreOne p }
    ensures refusals { (p : InstanceParts) (task : Task) → RefusalsAreOne p task }
    ensures formula { (p : InstanceParts) (task : Task) → RefusalsExclude p task }
{
    walks_are_unique();
}
