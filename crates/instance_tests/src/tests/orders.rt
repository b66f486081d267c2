//! Two faults at once: the rule that stands first is told, and of one rule the lowest place.

use super::changes::Change::{
    Candidate, Candidates, Cell, Cells, Join, Kept, Station, Steps, Train, Trains,
};
use super::changes::TrainChange::{Advance, Goal, Length};
use super::changes::{Change, NO_CELLS, Row, TRACK, answer, check_rows};
use cell_net::BuildRefusal;
use cell_net::BuildRefusal::{
    BadCandidate, BadCell, BadJoin, BadKept, BadSection, BadStation, BadSteps, BadTrain,
};
use cell_net::End::{High, Low};
use std::test::Fail;

// In each row the fault that comes later in the order stands first.
static RULES: [Row; 9] = [
    (&[Cell(4, 4, 1, 20), Steps(0)], Err(BadSteps)),
    (
        &[Join((0, Low), (1, Low)), Cell(4, 4, 1, 20)],
        Err(BadCell(4)),
    ),
    (
        &[Cell(4, 5, 0, 20), Join((0, Low), (1, Low))],
        Err(BadJoin(3)),
    ),
    (&[Candidate(0), Cell(4, 5, 0, 20)], Err(BadSection(0))),
    (&[Kept(1), Candidate(0)], Err(BadCandidate(0))),
    (&[Station(&[]), Kept(0)], Err(BadKept(0))),
    (&[Train(Length(0)), Station(&[4])], Err(BadStation(0))),
    (&[Train(Length(0)), Steps(401)], Err(BadSteps)),
    // a train that is good but for the number of steps
    (&[Trains(1), Steps(0)], Err(BadSteps)),
];

#[test]
fn the_rule_that_stands_first_is_told(rt: HostRuntime) -> Result<(), Fail> {
    check_rows(&rt, rt.alloc(), &[TRACK], &RULES)
}

// A fault of each rule, the last rule first, and what is told of it while all later rules are broken too.
static FAULTS: [(Change, BuildRefusal); 8] = [
    (Train(Length(0)), BadTrain(0)),
    (Station(&[]), BadStation(0)),
    (Kept(1), BadKept(0)),
    (Candidate(0), BadCandidate(0)),
    (Cell(4, 5, 0, 20), BadSection(0)),
    (Join((0, Low), (0, Low)), BadJoin(3)),
    (Cell(4, 5, 1, 0), BadCell(5)),
    (Steps(0), BadSteps),
];

#[test]
fn of_all_rules_that_are_broken_the_first_is_told(rt: HostRuntime) -> Result<(), Fail> {
    let mut faults = Vec::new(rt.alloc());
    for (fault, want) in &FAULTS {
        faults.push(*fault)?;
        let found = answer(&rt, rt.alloc(), &[TRACK], &faults)?;
        assert_eq!(rt; found, Err(*want));
    }
    Ok(())
}

static PLACES: [Row; 10] = [
    (&[Cell(4, 5, 1, 21), Cell(4, 4, 1, 20)], Err(BadCell(4))),
    (
        &[
            Join((1, Low), (0, High)),
            Join((0, Low), (1, Low)),
            Join((4, Low), (3, High)),
        ],
        Err(BadJoin(4)),
    ),
    // two sections that fall apart, the cell of the higher one first; and one before which one has a ring
    (&[Cell(0, 5, 1, 20), Cell(4, 5, 0, 20)], Err(BadSection(0))),
    (&[Cell(0, 5, 1, 20), Cell(3, 5, 0, 20)], Err(BadSection(0))),
    (&[Cell(0, 2, 0, 20), Cell(0, 5, 1, 20)], Err(BadSection(1))),
    (&[Candidate(0), Candidate(0)], Err(BadCandidate(0))),
    (
        &[Candidate(3), Candidate(1), Candidate(4)],
        Err(BadCandidate(1)),
    ),
    (&[Candidate(1), Kept(0), Kept(1), Kept(0)], Err(BadKept(1))),
    (
        &[Station(&[0]), Station(&[]), Station(&[4])],
        Err(BadStation(1)),
    ),
    (
        &[Trains(1), Train(Advance(0)), Train(Length(0))],
        Err(BadTrain(1)),
    ),
];

#[test]
fn the_lowest_place_at_which_a_rule_is_broken_is_told(rt: HostRuntime) -> Result<(), Fail> {
    check_rows(&rt, rt.alloc(), &[TRACK], &PLACES)
}

// Too many, and a fault before the first one too many.
static BEFORE_THE_LIMIT: [Row; 3] = [
    (&[Cell(0, 0, 0, 20), Cells(1_000)], Err(BadCell(0))),
    (
        &[Cells(1_000), Candidate(0), Candidates(512)],
        Err(BadCandidate(0)),
    ),
    (
        &[Cells(4), Trains(1), Train(Goal(4)), Trains(31)],
        Err(BadTrain(1)),
    ),
];

#[test]
fn a_fault_is_told_before_the_first_item_too_many(rt: HostRuntime) -> Result<(), Fail> {
    check_rows(&rt, rt.alloc(), &[NO_CELLS], &BEFORE_THE_LIMIT)
}
