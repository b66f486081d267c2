//! The verdict on a whole log.

ghost use Rattle.std.specs.Prelude.{◌≡◌, ◌≢◌, ◌^◌, ◌<◌, ◌↔◌, length, IfOk, IsTrue};
ghost use Rattle.sat_core.specs.Clauses.{IsUnsatisfiable};
ghost use Rattle.sat_core.specs.Derivation.{EndsInEmptyClause, Refutes};
ghost use Rattle.derivation_log.specs.Steps.{derived_steps};
ghost use Rattle.log_checker.specs.Verdicts.{IsVerdict};

use crate::checker::Checker;
use derivation_log::{Log, Step};
use sat_core::{Formula, StepFault, refutations_are_sound};
use std::alloc::AllocError;

/// What a log shows of a formula.
#[derive(Clone, Copy, Debug, PartialEq, Eq)]
pub enum LogVerdict {
    /// All steps are accepted, and the last one adds the empty clause: nothing satisfies the formula.
    Refutes,
    /// The first step that isn't accepted, counted from 0, and its fault, which is never `Memory`.
    Bad { index: u32, fault: StepFault },
    /// All steps are accepted, and the last one doesn't add the empty clause, or there is none.
    NoEmptyClause,
}

/// Whether the log refutes the formula. One pass over the log and over the clauses that its hints name.
pub fn check_log(formula: Formula, log: &Log) -> Result<LogVerdict, AllocError>
    requires { length log.now.steps < 2 ^ 32 }
    ensures verdict { IfOk result (IsVerdict formula.vars formula.clauses (derived_steps log.now.steps)) }
    ensures sound { result ≡ Ok LogVerdict.Refutes → IsUnsatisfiable formula.vars formula.clauses }
{
    refutations_are_sound();
    let steps = log.steps.as_slice();
    let mut checker = Checker::new(formula)?;
    for (index, step) in steps.iter().enumerate() {
        match checker.take(step) {
            Ok(()) => {}
            Err(fault) => return bad(index as u32, fault),
        }
    }
    if ends_in_empty_clause(steps) {
        Ok(LogVerdict::Refutes)
    } else {
        Ok(LogVerdict::NoEmptyClause)
    }
}

/// The verdict on a log whose step at that place isn't taken.
fn bad(index: u32, fault: StepFault) -> Result<LogVerdict, AllocError>
    ensures { IfOk result (λ verdict. (verdict ≡ LogVerdict.Bad index fault) × (fault ≢ StepFault.Memory)) }
{
    match fault {
        StepFault::Memory => Err(AllocError),
        _ => Ok(LogVerdict::Bad { index, fault }),
    }
}

/// Whether the last step adds the empty clause.
fn ends_in_empty_clause(steps: &[Step]) -> bool
    ensures { IsTrue result ↔ EndsInEmptyClause (derived_steps steps.now) }
{
    match steps.last() {
        Some(Step::Add { lits, .. }) => lits.is_empty(),
        _ => false,
    }
}
