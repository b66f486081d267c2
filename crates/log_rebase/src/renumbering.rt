//! Steps under new numbers.
ghost use Rattle.std.specs.Prelude.{◌<◌, ◌^◌, ◌+◌, ◌≡◌, map, IfOk, length};
ghost use Rattle.sat_core.specs.declared.literal.ClauseId.{ClauseId};
ghost use Rattle.derivation_log.specs.Steps.{derived};
ghost use Rattle.log_rebase.specs.Rebasing.{RiseFrom, renumbered, with_numbers, new_id};

use crate::mark::UnitMark;
use crate::number::new_number;
use derivation_log::Step;
use sat_core::ClauseId;
use std::alloc::{AllocError, Global};
use vss_lists::Items;

/// A step under the new numbers. Linear in its numbers and literals, up to a search among the units for each number.
pub(crate) fn renumber_step(
    alloc: Global,
    clauses: u32,
    units: &[UnitMark],
    step: &Step,
) -> Result<Step, AllocError>
    requires rise { RiseFrom clauses units.now }
    requires few { clauses + length units.now < 2 ^ 32 }
    ensures { IfOk result (λ new. derived new ≡ with_numbers (renumbered clauses units.now) (derived step.now)) }
{
    match step {
        Step::Add { id, lits, hints } => {
            let mut same = Vec::new(alloc);
            same.extend_from_slice(lits.as_slice())?;
            Ok(Step::Add {
                id: ClauseId(new_number(clauses, units, id.0)),
                lits: Items::from_vec(same),
                hints: renumber_all(alloc, clauses, units, hints.as_slice())?,
            })
        }
        Step::Drop { ids } => Ok(Step::Drop {
            ids: renumber_all(alloc, clauses, units, ids.as_slice())?,
        }),
    }
}

/// Numbers of clauses, each in its new form.
fn renumber_all(
    alloc: Global,
    clauses: u32,
    units: &[UnitMark],
    ids: &[ClauseId],
) -> Result<Items<ClauseId>, AllocError>
    requires rise { RiseFrom clauses units.now }
    requires few { clauses + length units.now < 2 ^ 32 }
    ensures { IfOk result (λ new. new ≡ map (new_id clauses units.now) ids.now) }
{
    let mut new = Vec::with_capacity(alloc, ids.len())?;
    for id in ids {
        new.push(ClauseId(new_number(clauses, units, id.0)))?;
    }
    Ok(Items::from_vec(new))
}
