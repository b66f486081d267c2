//! Laws of the clause list, which a call hands to its caller's proof.
ghost use Rattle.std.specs.Prelude.{◌≡◌, ◌≤◌, ◌+◌, ℕ, List, All, length};
ghost use Rattle.sat_core.specs.Clauses.{IsClause};
ghost use Rattle.cell_net.specs.Rules.{IsInstance};
ghost use Rattle.cell_net.specs.declared.ids.CandidateId.{CandidateId};
ghost use Rattle.cell_net.specs.declared.parts.InstanceParts.{InstanceParts};
ghost use Rattle.sweep_table.specs.Tables.{Table, IsTable};
ghost use Rattle.gap_clauses.specs.Gaps.{AreGaps};
ghost use Rattle.clause_list.specs.Coding.{given_task, base_task, first_of_count, network_of, trains_of};
ghost use Rattle.clause_list.specs.Differing.{VariablesDiffer};

/// The list of a given layout's task is one of clauses: no variable stands twice in one, and each is one of the task's. A call
/// does nothing; it gives its caller's proof this law.
pub fn given_tasks_are_clauses()
    ensures { (p : InstanceParts) (gaps : List (List (List (List CandidateId)))) (tables : List Table) (layout : List CandidateId) (vars : ℕ) → IsInstance p → AreGaps p gaps → length tables ≡ length p.trains → All (IsTable p) tables → first_of_count p tables ≤ vars + 1 → All (IsClause vars) (given_task p gaps tables layout) }
{}

/// The list of a free task is one of clauses, but for its counter and its bound, which say so themselves. A call does nothing;
/// it gives its caller's proof this law.
pub fn free_tasks_are_clauses()
    ensures { (p : InstanceParts) (gaps : List (List (List (List CandidateId)))) (tables : List Table) (vars : ℕ) → IsInstance p → AreGaps p gaps → length tables ≡ length p.trains → All (IsTable p) tables → first_of_count p tables ≤ vars + 1 → All (IsClause vars) (base_task p gaps tables) }
{}

/// The variables of a task differ: those of borders, of gaps and of each train stand kind by kind behind one another, from 1 to
/// the last, and each number is for one thing alone. A call does nothing; it gives its caller's proof this law.
pub fn variables_differ()
    ensures { (p : InstanceParts) (tables : List Table) (vars : ℕ) → IsInstance p → length tables ≡ length p.trains → All (IsTable p) tables → first_of_count p tables ≤ vars + 1 → VariablesDiffer vars (network_of p) (trains_of p tables) }
{}
