//! Numbers of clauses: what is discarded forces nothing, and its number may be used again.
ghost use Rattle.std.specs.Prelude.{◌≡◌};

use super::rows::{literal, row_of, rows_of};
use super::scene::Scene;
use search_trail::Truth;
use std::alloc::Global;
use std::marker::Brand;
use std::process::Abort;
use std::sync::ledger::{Blank, Ledger};
use std::test::Fail;

/// The second of three implications is discarded, and another clause takes its number.
fn uses_a_number_again<L: Ledger>(rt: &impl Abort, alloc: Global, blank: Blank) -> Result<(), Fail>
    requires name { blank.name ≡ L.name }
    requires parts { blank.parts ≡ L.parts }
    requires one { blank.parts ≡ 1 }
{
    let rows = rows_of(alloc, &[&[-1, 2], &[-2, 3], &[-3, 4]])?;
    let mut scene = Scene::<L>::new(rt, alloc, 4, rows.as_slice(), blank)?;
    scene.discard(rt, 2);
    assert!(rt; scene.lits(2).is_none());
    assert!(rt; scene.decide(rt, literal(1)).is_none());
    assert_eq!(rt; scene.value(rt, literal(2)), Truth::Yes);
    assert_eq!(rt; scene.value(rt, literal(3)), Truth::Open);
    scene.go_back(rt, 0);
    let again = row_of(alloc, &[4, -2, -3])?;
    scene.add(rt, 2, again.as_slice())?;
    assert_eq!(rt; scene.lits(2).ok_or("no clause")?, again.as_slice());
    assert!(rt; scene.decide(rt, literal(1)).is_none());
    assert_eq!(rt; scene.value(rt, literal(3)), Truth::Open);
    assert!(rt; scene.decide(rt, literal(-4)).is_none());
    assert_eq!(rt; scene.value(rt, literal(3)), Truth::No);
    scene.go_back(rt, 0);
    assert!(rt; scene.decide(rt, literal(3)).is_none());
    assert_eq!(rt; scene.reason(rt, literal(4)), Some(3));
    Ok(())
}

#[test]
fn a_number_that_was_discarded_is_used_again(rt: HostRuntime) -> Result<(), Fail> {
    uses_a_number_again::<Brand>(&rt, rt.alloc(), Blank::new(1))
}

/// The second clause gets a number far behind the first.
fn leaves_numbers_out<L: Ledger>(rt: &impl Abort, alloc: Global, blank: Blank) -> Result<(), Fail>
    requires name { blank.name ≡ L.name }
    requires parts { blank.parts ≡ L.parts }
    requires one { blank.parts ≡ 1 }
{
    let rows = rows_of(alloc, &[&[-1, 2]])?;
    let mut scene = Scene::<L>::new(rt, alloc, 3, rows.as_slice(), blank)?;
    let behind = row_of(alloc, &[3, -2])?;
    scene.add(rt, 9, behind.as_slice())?;
    for number in [0, 2, 8, 10] {
        assert!(rt; scene.lits(number).is_none());
    }
    assert!(rt; scene.decide(rt, literal(1)).is_none());
    assert_eq!(rt; scene.reason(rt, literal(3)), Some(9));
    Ok(())
}

#[test]
fn numbers_may_be_left_out(rt: HostRuntime) -> Result<(), Fail> {
    leaves_numbers_out::<Brand>(&rt, rt.alloc(), Blank::new(1))
}
