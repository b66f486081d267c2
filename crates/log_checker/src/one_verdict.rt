//! The law that a log has one verdict.

ghost use Rattle.std.specs.Prelude.{◌≡◌, ℕ, List};
ghost use Rattle.sat_core.specs.declared.literal.Lit.{Lit};
ghost use Rattle.sat_core.specs.declared.step_fault.StepFault.{StepFault};
ghost use Rattle.sat_core.specs.Derivation.{DerivedStep, ClauseDatabase, IsAccepted, IsFaultOf};
ghost use Rattle.log_checker.specs.declared.verdict.LogVerdict.{LogVerdict};
ghost use Rattle.log_checker.specs.Verdicts.{IsVerdict};

/// Any two verdicts on one log of a formula are the same: a log that refutes has no other verdict, and a bad one has one
/// index and one fault. An accepted step has no fault, and no step has two. The call does nothing; it gives its caller's
/// proof these laws.
pub fn verdicts_are_one()
    ensures one_verdict { (vars : ℕ) (clauses : List (List Lit)) (steps : List DerivedStep) (one other : LogVerdict) → IsVerdict vars clauses steps one → IsVerdict vars clauses steps other → one ≡ other }
    ensures accepted { (database : ClauseDatabase) (step : DerivedStep) (fault : StepFault) → IsAccepted database step → ¬ IsFaultOf database step fault }
    ensures one_fault { (database : ClauseDatabase) (step : DerivedStep) (one other : StepFault) → IsFaultOf database step one → IsFaultOf database step other → one ≡ other }
{}
