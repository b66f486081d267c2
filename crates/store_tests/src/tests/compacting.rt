//! A store that was compacted leaves the same clauses, and forces the same.
ghost use Rattle.std.specs.Prelude.{◌≡◌};

use super::rows::{random, random_row};
use super::scene::Scene;
use sat_core::{Lit, Var};
use search_trail::Truth;
use std::alloc::Global;
use std::marker::Brand;
use std::process::Abort;
use std::sync::ledger::{Blank, Ledger};
use std::test::Fail;

const VARS: u32 = 20;

/// How many clauses there are at first.
const CLAUSES: u32 = 60;

/// Random clauses, of which each third was discarded, and half of these numbers used again.
fn changed<L: Ledger>(rt: &impl Abort, alloc: Global, blank: Blank) -> Result<Scene<L>, Fail>
    requires name { blank.name ≡ L.name }
    requires parts { blank.parts ≡ L.parts }
    requires one { blank.parts ≡ 1 }
{
    let mut seed = 3;
    let mut rows = Vec::new(alloc);
    for _ in 0..CLAUSES {
        rows.push(random_row(alloc, &mut seed, VARS)?)?;
    }
    let mut scene = Scene::<L>::new(rt, alloc, VARS, rows.as_slice(), blank)?;
    change(rt, alloc, &mut scene, &mut seed)?;
    Ok(scene)
}

fn change<L: Ledger>(
    rt: &impl Abort,
    alloc: Global,
    scene: &mut Scene<L>,
    seed: &mut u32,
) -> Result<(), Fail> {
    for third in 1..=CLAUSES / 3 {
        let number = third.wrapping_mul(3);
        scene.discard(rt, number);
        if third % 2 == 0 {
            let row = random_row(alloc, seed, VARS)?;
            scene.add(rt, number, row.as_slice())?;
        }
    }
    Ok(())
}

/// The literals under each number, none where no live clause has it.
fn clauses_in<L: Ledger>(alloc: Global, scene: &Scene<L>) -> Result<Vec<Vec<Lit>>, Fail> {
    let mut clauses = Vec::new(alloc);
    for number in 0..CLAUSES + 2 {
        let mut lits = Vec::new(alloc);
        match scene.lits(number) {
            Some(row) => lits.extend_from_slice(row)?,
            None => {}
        }
        clauses.push(lits)?;
    }
    Ok(clauses)
}

/// The live clauses are the same under each number, and there are 50.
fn keeps_the_clauses<L: Ledger>(rt: &impl Abort, alloc: Global, blank: Blank) -> Result<(), Fail>
    requires name { blank.name ≡ L.name }
    requires parts { blank.parts ≡ L.parts }
    requires one { blank.parts ≡ 1 }
{
    let mut scene = changed::<L>(rt, alloc, blank)?;
    let before = clauses_in(alloc, &scene)?;
    scene.compact()?;
    let behind = clauses_in(alloc, &scene)?;
    assert!(rt; before.as_slice() == behind.as_slice());
    let live = before
        .as_slice()
        .iter()
        .filter(|row| row.len() == 3)
        .count();
    assert_eq!(rt; live, 50);
    Ok(())
}

#[test]
fn compact_leaves_the_same_clauses(rt: HostRuntime) -> Result<(), Fail> {
    keeps_the_clauses::<Brand>(&rt, rt.alloc(), Blank::new(1))
}

/// What was seen behind each decision of a search.
#[derive(Drop)]
struct Trace {
    // whether a clause was false
    clashes: Vec<bool>,
    // where none was: each variable's value
    values: Vec<Truth>,
}

/// Decides literals by chance, and goes back behind a clash and where all have values.
fn trace_of<L: Ledger>(
    rt: &impl Abort,
    alloc: Global,
    compacts: bool,
    blank: Blank,
) -> Result<Trace, Fail>
    requires name { blank.name ≡ L.name }
    requires parts { blank.parts ≡ L.parts }
    requires one { blank.parts ≡ 1 }
{
    let mut scene = changed::<L>(rt, alloc, blank)?;
    let mut trace = Trace {
        clashes: Vec::new(alloc),
        values: Vec::new(alloc),
    };
    let mut seed = 5;
    for turn in 0..600 {
        if compacts && turn % 7 == 0 {
            scene.compact()?;
        }
        decide(rt, &mut scene, &mut trace, &mut seed)?;
    }
    Ok(trace)
}

fn decide<L: Ledger>(
    rt: &impl Abort,
    scene: &mut Scene<L>,
    trace: &mut Trace,
    seed: &mut u32,
) -> Result<(), Fail> {
    let lit = Lit {
        var: Var(random(seed, VARS).wrapping_add(1)),
        positive: random(seed, 2) == 0,
    };
    if scene.value(rt, lit) != Truth::Open {
        return Ok(());
    }
    let clash = scene.decide(rt, lit).is_some();
    trace.clashes.push(clash)?;
    if !clash {
        add_values(rt, scene, trace)?;
    }
    if clash || scene.len() == VARS {
        scene.go_back(rt, 0);
    }
    Ok(())
}

fn add_values<L: Ledger>(rt: &impl Abort, scene: &Scene<L>, trace: &mut Trace) -> Result<(), Fail> {
    for number in 0..VARS {
        let lit = Lit {
            var: Var(number + 1),
            positive: true,
        };
        trace.values.push(scene.value(rt, lit))?;
    }
    Ok(())
}

#[test]
fn a_compacted_store_forces_the_same(rt: HostRuntime) -> Result<(), Fail> {
    let plain = trace_of::<Brand>(&rt, rt.alloc(), false, Blank::new(1))?;
    let compacted = trace_of::<Brand>(&rt, rt.alloc(), true, Blank::new(1))?;
    assert!(&rt; plain.clashes.as_slice() == compacted.clashes.as_slice());
    assert!(&rt; plain.values.as_slice() == compacted.values.as_slice());
    let clashes = plain
        .clashes
        .as_slice()
        .iter()
        .filter(|clash| **clash)
        .count();
    assert!(&rt; clashes >= 10, "{clashes} clashes");
    Ok(())
}
