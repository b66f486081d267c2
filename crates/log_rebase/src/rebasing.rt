//! The log of the formula with the last unit.
ghost use Rattle.std.specs.Prelude.{◌<◌, ◌^◌, ◌≡◌, ◌++◌, ◌+◌, ◌∷◌, [], ℕ, List, length, IfOk, OnOk};
ghost use Rattle.sat_core.specs.declared.literal.Lit.{Lit};
ghost use Rattle.sat_core.specs.Search.{Event, log_of, RefutesWithUnits};
ghost use Rattle.sat_core.specs.Derivation.{adds, Refutes, numbered_from};
ghost use Rattle.derivation_log.specs.Steps.{derived, derived_steps};
ghost use Rattle.log_rebase.specs.Rebasing.{RiseFrom, rebased, derive_marks, AreMarksOf, AreDerived, with_last};

use crate::mark::UnitMark;
use crate::renumbering::renumber_step;
use derivation_log::{Log, Step};
use sat_core::ClauseId;
use std::alloc::{AllocError, Global};
use vss_lists::Items;

/// Makes a log of a search that was given units one after another a log of the formula with the last one alone. `clauses`
/// is the number of the formula's clauses, and the units stand in the order in which they were given.
///
/// The last unit becomes the clause directly behind the formula. The others become steps at the front, and the steps of
/// the log follow, all numbers carried over. Linear in the log, up to a search among the units for each number. After want
/// of memory nothing has changed.
pub fn rebase(alloc: Global, log: &Log, clauses: u32, units: &[UnitMark]) -> Result<Log, AllocError>
    requires rise { RiseFrom clauses units.now }
    requires few { clauses + length units.now < 2 ^ 32 }
    ensures rebased { IfOk result (λ new. derived_steps new.steps ≡ rebased clauses units.now (derived_steps log.now.steps)) }
    ensures refutes { IfOk result (λ new. (vars : ℕ) (formula : List (List Lit)) (events : List Event) → length formula ≡ clauses → log_of events ≡ derived_steps log.now.steps → RefutesWithUnits vars formula events → AreMarksOf clauses events units.now → AreDerived (numbered_from 1 (with_last formula units.now)) units.now → Refutes vars (with_last formula units.now) (derived_steps new.steps)) }
{
    let mut steps = Vec::new(alloc);
    derive_units(alloc, clauses, units, &mut steps)?;
    for step in log.steps.as_slice() {
        steps.push(renumber_step(alloc, clauses, units, step)?)?;
    }
    Ok(Log {
        steps: Items::from_vec(steps),
    })
}

/// The steps that derive all units but the last.
fn derive_units(
    alloc: Global,
    clauses: u32,
    units: &[UnitMark],
    steps: &mut Vec<Step>,
) -> Result<(), AllocError>
    requires rise { RiseFrom clauses units.now }
    requires few { clauses + length units.now < 2 ^ 32 }
    ensures { OnOk result (derived_steps steps.new.items ≡ derived_steps steps.old.items ++ derive_marks (clauses + 2) units.now) }
{
    for place in 1..units.len() {
        let step = unit_step(alloc, clauses + 1 + place as u32, &units[place - 1])?;
        steps.push(step)?;
    }
    Ok(())
}

/// The step that adds a unit under a number.
fn unit_step(alloc: Global, number: u32, unit: &UnitMark) -> Result<Step, AllocError>
    ensures { IfOk result (λ step. derived step ≡ adds (record { 0 = number }) (unit.now.lit ∷ []) unit.now.hints) }
{
    let mut lits = Vec::new(alloc);
    lits.push(unit.lit)?;
    let mut hints = Vec::new(alloc);
    hints.extend_from_slice(unit.hints.as_slice())?;
    Ok(Step::Add {
        id: ClauseId(number),
        lits: Items::from_vec(lits),
        hints: Items::from_vec(hints),
    })
}
