//! A log over two units, by hand.
ghost use Rattle.std.specs.Prelude.{◌≡◌, IfOk};

use crate::mark::UnitMark;
use crate::rebasing::rebase;
use derivation_log::{Log, Step};
use sat_core::{ClauseId, Lit, Var};
use std::alloc::{AllocError, Global};
use std::test::Fail;
use vss_lists::Items;

/// The formula has 27 clauses; the units 28 and 29 were given, and then two clauses were learned. In the new log the later
/// unit is clause 28, the earlier one is derived as 29, and the hint at the later one follows it.
#[test]
fn an_earlier_unit_becomes_a_step(rt: HostRuntime) -> Result<(), Fail> {
    let units = [
        unit(rt.alloc(), 28, -24, &[27, 28])?,
        unit(rt.alloc(), 29, -23, &[28])?,
    ];
    let mut steps = Items::new(rt.alloc());
    steps.push(add(rt.alloc(), 30, &[-3, -21], &[23, 28])?)?;
    steps.push(add(rt.alloc(), 31, &[], &[7])?)?;
    let log = rebase(rt.alloc(), &Log { steps }, 27, units.as_slice())?;
    let wanted = [
        add(rt.alloc(), 29, &[-24], &[27, 28])?,
        add(rt.alloc(), 30, &[-3, -21], &[23, 29])?,
        add(rt.alloc(), 31, &[], &[7])?,
    ];
    assert_eq!(rt; log.steps.len(), wanted.len());
    for (step, other) in log.steps.as_slice().iter().zip(wanted.as_slice()) {
        assert!(rt; is_same(step, other));
    }
    Ok(())
}

fn unit(alloc: Global, id: u32, number: i32, hints: &[u32]) -> Result<UnitMark, AllocError>
    ensures { IfOk result (λ unit. unit.id.0 ≡ id) }
{
    Ok(UnitMark {
        id: ClauseId(id),
        lit: literal(number),
        hints: ids(alloc, hints)?,
    })
}

fn add(alloc: Global, id: u32, lits: &[i32], hints: &[u32]) -> Result<Step, AllocError> {
    let mut literals = Items::new(alloc);
    for number in lits {
        literals.push(literal(*number))?;
    }
    Ok(Step::Add {
        id: ClauseId(id),
        lits: literals,
        hints: ids(alloc, hints)?,
    })
}

/// A literal as a number with a sign.
fn literal(number: i32) -> Lit {
    Lit {
        var: Var(number.unsigned_abs()),
        positive: number > 0,
    }
}

fn ids(alloc: Global, numbers: &[u32]) -> Result<Items<ClauseId>, AllocError> {
    let mut ids = Items::new(alloc);
    for number in numbers {
        ids.push(ClauseId(*number))?;
    }
    Ok(ids)
}

/// Whether two steps add the same clause in the same way.
fn is_same(step: &Step, other: &Step) -> bool {
    match (step, other) {
        (
            Step::Add { id, lits, hints },
            Step::Add {
                id: number,
                lits: literals,
                hints: ids,
            },
        ) => {
            id == number
                && lits.as_slice() == literals.as_slice()
                && hints.as_slice() == ids.as_slice()
        }
        _ => false,
    }
}
