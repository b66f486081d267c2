//! Where the map of a list tells its variables.

use super::nets::{Asked, encoded};
use super::small::{STOP, WINDOW};
use cell_net::{CandidateId, TrainId};
use clause_encoder::VarMap;
use sat_core::Var;
use std::process::Abort;
use std::test::Fail;
use sweep_table::{Moves, SweepId};

const TRAIN: TrainId = TrainId(0);

// Steps, sweeps and their variables: 1 and 3 stand in the cells 0 and 1, and 4 goes from the one to the other.
static SWEEPS: [(u32, u32, u32); 6] = [
    (0, 1, 3),
    (0, 4, 4),
    (1, 3, 6),
    (2, 4, 10),
    (3, 3, 11),
    (3, 4, 12),
];

static OUTSIDE: [(u32, u32); 6] = [(0, 3), (3, 1), (1, 0), (4, 3), (0, 99), (4_000_000_000, 1)];

#[test]
fn a_map_tells_the_variables_of_a_train(rt: HostRuntime) -> Result<(), Fail> {
    let found = encoded(&rt, rt.alloc(), STOP, Asked::AtMost(1))?;
    check_sweeps(&rt, &found.map);
    check_ends(&rt, &found.map);
    check_table(&rt, &found.map);
    Ok(())
}

fn check_sweeps(rt: &impl Abort, map: &VarMap) {
    assert!(rt; map.train_count() > 0);
    for &(step, item, number) in SWEEPS.iter() {
        assert!(rt; map.in_cone(TRAIN, step, SweepId(item)));
        assert_eq!(rt; map.sweep(TRAIN, step, SweepId(item)), Var(number));
    }
    for &(step, item) in OUTSIDE.iter() {
        assert!(rt; !map.in_cone(TRAIN, step, SweepId(item)));
    }
}

fn check_ends(rt: &impl Abort, map: &VarMap) {
    assert!(rt; map.candidate_count() > 0);
    assert!(rt; map.train_count() > 0);
    assert_eq!(rt; map.border(CandidateId(0)), Var(1));
    let numbers = map.numbers(TRAIN);
    assert!(rt; numbers.start() == 0 && numbers.latest() == 0 && numbers.by() == 3);
    for step in 1..4u32 {
        assert_eq!(rt; map.ended(TRAIN, step), Var(step + 20));
    }
}

fn check_table(rt: &impl Abort, map: &VarMap) {
    assert!(rt; map.tables().len() == 1);
    assert_eq!(rt; map.table(TRAIN).len(), 6);
}

#[test]
fn a_map_tells_who_waits(rt: HostRuntime) -> Result<(), Fail> {
    let found = encoded(&rt, rt.alloc(), WINDOW, Asked::AtMost(0))?;
    check_waiting(&rt, &found.map);
    Ok(())
}

fn check_waiting(rt: &impl Abort, map: &VarMap) {
    assert_eq!(rt; map.candidate_count(), 0);
    assert!(rt; map.train_count() > 0);
    let numbers = map.numbers(TRAIN);
    assert!(rt; numbers.start() == 0 && 0 < numbers.latest());
    assert_eq!(rt; map.waits(TRAIN, 0), Var(12));
}
