//! What is forced behind a decision, and by which clause.
ghost use Rattle.std.specs.Prelude.{◌≡◌};

use super::rows::{literal, rows_of};
use super::scene::Scene;
use sat_core::{ClauseId, Lit};
use search_trail::Truth;
use std::alloc::Global;
use std::marker::Brand;
use std::process::Abort;
use std::sync::ledger::{Blank, Ledger};
use std::test::Fail;

// Variable v implies v + 1, in no order.
static ROW: [&[i32]; 7] = [
    &[-5, 6],
    &[-1, 2],
    &[-3, 4],
    &[-2, 3],
    &[-4, 5],
    &[-7, 8],
    &[-6, 7],
];

// The clause that forces each variable from 2 on.
static FORCED_BY: [u32; 7] = [2, 4, 3, 5, 1, 7, 6];

/// Forwards behind the first literal of the row, and backwards behind the negation of the last.
fn propagates_a_row<L: Ledger>(rt: &impl Abort, alloc: Global, blank: Blank) -> Result<(), Fail>
    requires name { blank.name ≡ L.name }
    requires parts { blank.parts ≡ L.parts }
    requires one { blank.parts ≡ 1 }
{
    let rows = rows_of(alloc, &ROW)?;
    let mut scene = Scene::<L>::new(rt, alloc, 8, rows.as_slice(), blank)?;
    assert!(rt; scene.decide(rt, literal(1)).is_none());
    are_forced(rt, &scene, 2, Truth::Yes);
    scene.go_back(rt, 0);
    assert_eq!(rt; scene.len(), 0);
    assert!(rt; scene.decide(rt, literal(-8)).is_none());
    are_forced(rt, &scene, 1, Truth::No);
    Ok(())
}

/// Seven variables from this one on have that value, each by its clause.
fn are_forced<L: Ledger>(rt: &impl Abort, scene: &Scene<L>, first: i32, value: Truth) {
    for (number, clause) in (first..first.wrapping_add(7)).zip(FORCED_BY.iter()) {
        let lit = literal(number);
        assert_eq!(rt; scene.value(rt, lit), value);
        assert_eq!(rt; scene.reason(rt, lit), Some(*clause));
    }
}

#[test]
fn a_row_of_implications_is_propagated_in_one_call(rt: HostRuntime) -> Result<(), Fail> {
    propagates_a_row::<Brand>(&rt, rt.alloc(), Blank::new(1))
}

// Orders in which three literals of a clause of four become false, and the one that is left.
static ORDERS: [[i32; 4]; 8] = [
    [1, 2, 3, 4],
    [3, 4, 2, 1],
    [1, 3, 4, 2],
    [4, 1, 2, 3],
    [2, 1, 4, 3],
    [4, 3, 1, 2],
    [3, 1, 2, 4],
    [2, 4, 3, 1],
];

/// The last literal is forced as soon as the others are false, and not before.
fn moves_a_watch<L: Ledger>(rt: &impl Abort, alloc: Global, blank: Blank) -> Result<(), Fail>
    requires name { blank.name ≡ L.name }
    requires parts { blank.parts ≡ L.parts }
    requires one { blank.parts ≡ 1 }
{
    let rows = rows_of(alloc, &[&[1, 2, 3, 4], &[5, 6]])?;
    let mut scene = Scene::<L>::new(rt, alloc, 6, rows.as_slice(), blank)?;
    for [one, two, three, last] in ORDERS.iter() {
        let left = literal(*last);
        falsify(rt, &mut scene, *one, left);
        falsify(rt, &mut scene, *two, left);
        falsify(rt, &mut scene, *three, left);
        assert_eq!(rt; scene.value(rt, left), Truth::Yes);
        assert_eq!(rt; scene.reason(rt, left), Some(1));
        assert_eq!(rt; scene.len(), 4);
        scene.go_back(rt, 0);
    }
    Ok(())
}

/// The variable becomes false; the literal that is left is open before.
fn falsify<L: Ledger>(rt: &impl Abort, scene: &mut Scene<L>, number: i32, left: Lit) {
    assert_eq!(rt; scene.value(rt, left), Truth::Open);
    assert!(rt; scene.decide(rt, literal(number).negated()).is_none());
}

#[test]
fn a_watch_moves_and_is_found_again(rt: HostRuntime) -> Result<(), Fail> {
    moves_a_watch::<Brand>(&rt, rt.alloc(), Blank::new(1))
}

// Orders in which the literals that two clauses share become false.
static SHARED: [[i32; 3]; 6] = [
    [1, 2, 3],
    [3, 2, 1],
    [2, 3, 1],
    [1, 3, 2],
    [3, 1, 2],
    [2, 1, 3],
];

/// The third literal makes one of the clauses false, in each order.
fn finds_a_false_clause<L: Ledger>(rt: &impl Abort, alloc: Global, blank: Blank) -> Result<(), Fail>
    requires name { blank.name ≡ L.name }
    requires parts { blank.parts ≡ L.parts }
    requires one { blank.parts ≡ 1 }
{
    let rows = rows_of(alloc, &[&[1, 2, 3, 4], &[-4, 1, 2, 3]])?;
    let mut scene = Scene::<L>::new(rt, alloc, 4, rows.as_slice(), blank)?;
    for [one, two, last] in SHARED.iter() {
        assert!(rt; scene.decide(rt, literal(*one).negated()).is_none());
        assert!(rt; scene.decide(rt, literal(*two).negated()).is_none());
        let number = scene
            .decide(rt, literal(*last).negated())
            .ok_or("no clause is false")?;
        is_false(rt, &scene, number)?;
        scene.go_back(rt, 0);
    }
    Ok(())
}

#[test]
fn a_false_clause_is_found_behind_moved_watches(rt: HostRuntime) -> Result<(), Fail> {
    finds_a_false_clause::<Brand>(&rt, rt.alloc(), Blank::new(1))
}

/// The clause is live, and each of its literals is false.
fn is_false<L: Ledger>(rt: &impl Abort, scene: &Scene<L>, id: ClauseId) -> Result<(), Fail> {
    let lits = scene.lits(id.0).ok_or("no such clause")?;
    for lit in lits {
        assert_eq!(rt; scene.value(rt, *lit), Truth::No);
    }
    Ok(())
}
