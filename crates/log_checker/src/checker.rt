//! The checker: it takes the steps of a log one by one.

ghost use Rattle.std.specs.Prelude.{◌≡◌, ◌≢◌, OnOk, OnErr, IfOk, IfErr};
ghost use Rattle.sat_core.specs.Derivation.{database_of, adds, drops, IsAccepted, IsAcceptedAdd, IsAcceptedDrop, IsFaultOf, IsFaultOfAdd, IsFaultOfDrop, after};
ghost use Rattle.derivation_log.specs.Steps.{derived};

use crate::assignment::Assignment;
use crate::judge::judge;
use crate::store::ClauseStore;
use derivation_log::Step;
use sat_core::{ClauseId, Formula, Lit, StepFault};
use std::alloc::AllocError;
use std::marker::Model;

/// Judges the steps of a derivation one by one, over the clauses that are live at each.
///
/// Beside the formula it takes ten bytes a variable and one a clause of the formula from the start, and then eight bytes
/// a literal and thirteen a clause that steps added. What steps drop keeps its memory.
#[derive(Debug, Drop)]
pub struct Checker {
    store: ClauseStore,
    assignment: Assignment,
}

impl Model for Checker {
    ghost use Rattle.std.specs.Prelude.{◌≡◌, []};
    ghost use Rattle.sat_core.specs.Derivation.{ClauseDatabase};

    ghost Value = { ClauseDatabase };

    ghost view = { λ c. c.store };

    ghost invariant = { λ c. (c.assignment.vars ≡ c.store.vars) × (c.assignment.lits ≡ []) };
}

impl Checker {
    /// The clauses of the formula are live. Allocates with the formula's allocator.
    pub fn new(formula: Formula) -> Result<Checker, AllocError>
        ensures { IfOk result (λ checker. checker ≡ database_of formula.vars formula.clauses) }
    {
        let assignment = Assignment::new(formula.allocator(), formula.vars())?;
        Ok(Checker {
            store: ClauseStore::new(formula)?,
            assignment,
        })
    }

    /// Takes the next step, if it is accepted: an added clause is then live, and dropped clauses are no longer. Else
    /// answers the first test that the step fails, and is as it was; so it is after `Memory`, which comes only where an
    /// added clause is accepted and there is no room to keep it.
    ///
    /// One pass over the hints and their literals. A hint is found in constant time where the numbers of added clauses
    /// run without gaps, and else by a search. A step that fits the room at hand takes no memory.
    pub fn take(&mut self, step: &Step) -> Result<(), StepFault>
        ensures accepted { OnOk result (IsAccepted self.old (derived step.now)) }
        ensures ok { OnOk result (self.new ≡ after self.old (derived step.now)) }
        ensures fault { IfErr result (λ fault. fault ≢ StepFault.Memory → IsFaultOf self.old (derived step.now) fault) }
        ensures memory { result ≡ Err StepFault.Memory → IsAccepted self.old (derived step.now) }
        ensures err { OnErr result (self.new ≡ self.old) }
    {
        match step {
            Step::Add { id, lits, hints } => self.add(*id, lits.as_slice(), hints.as_slice()),
            Step::Drop { ids } => self.end(ids.as_slice()),
        }
    }

    /// Takes the step that adds a clause.
    fn add(&mut self, id: ClauseId, lits: &[Lit], hints: &[ClauseId]) -> Result<(), StepFault>
        ensures accepted { OnOk result (IsAcceptedAdd self.old id lits.now hints.now) }
        ensures ok { OnOk result (self.new ≡ after self.old (adds id lits.now hints.now)) }
        ensures fault { IfErr result (λ fault. fault ≢ StepFault.Memory → IsFaultOfAdd self.old id lits.now hints.now fault) }
        ensures memory { result ≡ Err StepFault.Memory → IsAcceptedAdd self.old id lits.now hints.now }
        ensures err { OnErr result (self.new ≡ self.old) }
    {
        let judged = judge(&self.store, &mut self.assignment, id, lits, hints);
        self.assignment.clear();
        match judged {
            Ok(()) => match self.store.add(id, lits) {
                Ok(()) => Ok(()),
                Err(_) => Err(StepFault::Memory),
            },
            Err(fault) => Err(fault),
        }
    }

    /// Takes the step that drops clauses, without memory.
    fn end(&mut self, ids: &[ClauseId]) -> Result<(), StepFault>
        ensures accepted { OnOk result (IsAcceptedDrop self.old ids.now) }
        ensures ok { OnOk result (self.new ≡ after self.old (drops ids.now)) }
        ensures fault { IfErr result (IsFaultOfDrop self.old ids.now) }
        ensures err { OnErr result (self.new ≡ self.old) }
    {
        self.store.end(ids)
    }
}
