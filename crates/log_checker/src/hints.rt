//! The test of a step's hints.

ghost use Rattle.std.specs.Prelude.{◌≡◌, All};
ghost use Rattle.sat_core.specs.declared.literal.Lit.{Lit};
ghost use Rattle.sat_core.specs.Clauses.{IsOver};
ghost use Rattle.sat_core.specs.Fresh.{IsOpen};
ghost use Rattle.sat_core.specs.Hints.{not_false, outcome_by, hints_fault};
ghost use Rattle.log_checker.specs.Readings.{outcome_told};

use crate::assignment::Assignment;
use crate::store::ClauseStore;
use sat_core::{ClauseId, Lit, StepFault};

/// What a clause tells while some literals are known.
#[derive(Clone, Copy, Debug, PartialEq, Eq)]
pub(crate) enum Reading {
    /// All its literals are false.
    Conflict,
    /// This literal is unassigned, and the others are false.
    Forced(Lit),
    NotUnit,
}

/// The first fault of the hints, where each forced literal is known from its hint on. One pass over the hints and
/// their literals.
pub(crate) fn first_fault(
    store: &ClauseStore,
    assignment: &mut Assignment,
    hints: &[ClauseId],
) -> Option<StepFault>
    requires { store.now.vars ≡ assignment.old.vars }
    ensures vars { assignment.new.vars ≡ assignment.old.vars }
    ensures fault { result ≡ hints_fault store.now.live assignment.old.lits hints.now }
{
    for (count, hint) in hints.iter().enumerate() {
        let lits = match store.lits(*hint) {
            Some(lits) => lits,
            None => return Some(StepFault::UnknownClause),
        };
        match read_clause(assignment, lits) {
            Reading::Conflict => {
                return if count + 1 == hints.len() {
                    None
                } else {
                    Some(StepFault::HintsAfterConflict)
                };
            }
            Reading::NotUnit => return Some(StepFault::HintNotUnit),
            Reading::Forced(lit) => assignment.assume(lit),
        }
    }
    Some(StepFault::NoConflict)
}

/// What the clause tells while the literals of the assignment are known.
fn read_clause(assignment: &Assignment, lits: &[Lit]) -> Reading
    requires { All (IsOver assignment.now.vars) lits.now }
    ensures outcome { outcome_told result ≡ outcome_by assignment.now.lits (not_false assignment.now.lits lits.now) }
    ensures in_range { (lit : Lit) → result ≡ Reading.Forced lit → IsOver assignment.now.vars lit }
    ensures is_open { (lit : Lit) → result ≡ Reading.Forced lit → IsOpen assignment.now.lits lit }
{
    let mut remaining = None;
    for lit in lits {
        if !assignment.is_known(lit.negated()) {
            if remaining.is_some() {
                return Reading::NotUnit;
            }
            remaining = Some(*lit);
        }
    }
    match remaining {
        None => Reading::Conflict,
        Some(lit) => {
            if assignment.is_known(lit) {
                Reading::NotUnit
            } else {
                Reading::Forced(lit)
            }
        }
    }
}
