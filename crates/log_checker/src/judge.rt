//! The tests of an added clause, in their order.

ghost use Rattle.std.specs.Prelude.{◌≡◌, ◌↔◌, [], map, All, OnOk, IfErr, IsTrue};
ghost use Rattle.sat_core.specs.Clauses.{negated, IsOver, HasNoVariableTwice};
ghost use Rattle.sat_core.specs.Derivation.{IsAcceptedAdd, IsFaultOfAdd};

use crate::assignment::Assignment;
use crate::hints::first_fault;
use crate::store::ClauseStore;
use sat_core::{ClauseId, Lit, StepFault};

/// The first fault of an added clause. The assignment is left with what the tests made known.
pub(crate) fn judge(
    store: &ClauseStore,
    assignment: &mut Assignment,
    id: ClauseId,
    lits: &[Lit],
    hints: &[ClauseId],
) -> Result<(), StepFault>
    requires same_variables { store.now.vars ≡ assignment.old.vars }
    requires nothing_known { assignment.old.lits ≡ [] }
    ensures vars { assignment.new.vars ≡ assignment.old.vars }
    ensures accepted { OnOk result (IsAcceptedAdd store.now id lits.now hints.now) }
    ensures fault { IfErr result (IsFaultOfAdd store.now id lits.now hints.now) }
{
    if id.0 <= store.last() {
        return Err(StepFault::IdOrder);
    }
    if !are_over(store.vars(), lits) {
        return Err(StepFault::UnknownVariable);
    }
    if !assume_negations(assignment, lits) {
        return Err(StepFault::Twofold);
    }
    match first_fault(store, assignment, hints) {
        None => Ok(()),
        Some(fault) => Err(fault),
    }
}

/// Whether the variables of the literals are all from 1 to `vars`.
fn are_over(vars: u32, lits: &[Lit]) -> bool
    ensures { IsTrue result ↔ All (IsOver vars) lits.now }
{
    lits.iter().all(|lit| 1 <= lit.var.0 && lit.var.0 <= vars)
}

/// Makes the negation of each literal known, unless a variable stands twice. Answers whether none does.
fn assume_negations(assignment: &mut Assignment, lits: &[Lit]) -> bool
    requires in_range { All (IsOver assignment.old.vars) lits.now }
    requires nothing_known { assignment.old.lits ≡ [] }
    ensures vars { assignment.new.vars ≡ assignment.old.vars }
    ensures exact { IsTrue result ↔ HasNoVariableTwice lits.now }
    ensures known { IsTrue result → assignment.new.lits ≡ map negated lits.now }
{
    for lit in lits {
        if assignment.has_value(*lit) {
            return false;
        }
        assignment.assume(lit.negated());
    }
    true
}
