//! The laws that refuted formulas are unsatisfiable. A call does nothing; it gives its caller's proof the law.

ghost use Rattle.std.specs.Prelude.{ℕ, List, [], ◌∷◌, ◌++◌, map};
ghost use Rattle.sat_core.specs.declared.literal.Lit.{Lit};
ghost use Rattle.sat_core.specs.Clauses.{IsUnsatisfiable};
ghost use Rattle.sat_core.specs.Derivation.{DerivedStep, Refutes};
ghost use Rattle.sat_core.specs.Search.{Event, units_of, RefutesWithUnits};

/// A formula that a log refutes is unsatisfiable, for every formula and every log.
pub fn refutations_are_sound()
    ensures { (vars : ℕ) (clauses : List (List Lit)) (steps : List DerivedStep) → Refutes vars clauses steps → IsUnsatisfiable vars clauses }
{}

/// A formula that a search refutes with its units is unsatisfiable together with clauses of these literals alone.
pub fn refuted_searches_are_sound()
    ensures { (vars : ℕ) (formula : List (List Lit)) (events : List Event) → RefutesWithUnits vars formula events → IsUnsatisfiable vars (formula ++ map (λ lit. lit ∷ []) (units_of events)) }
{}
