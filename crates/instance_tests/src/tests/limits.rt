//! Each rule of instances at its limits: nothing else is wrong with the parts.

use super::changes::Change::{
    Candidate, Candidates, Cell, Cells, Join, Kept, Nodes, Sections, Station, Steps, Train, Trains,
};
use super::changes::TrainChange::{Advance, Entry, Goal, Length, Stops, Times, Window};
use super::changes::{Change, NO_CELLS, Row, TRACK, check_rows};
use cell_net::BuildRefusal::{
    BadCandidate, BadCell, BadJoin, BadKept, BadSection, BadStation, BadSteps, BadTrain,
};
use cell_net::End::{High, Low};
use cell_net::limits;
use std::test::Fail;

static STEPS: [Row; 6] = [
    (&[], Ok(())),
    (&[Steps(0)], Err(BadSteps)),
    (&[Steps(1)], Ok(())),
    (&[Steps(400)], Ok(())),
    (&[Steps(401)], Err(BadSteps)),
    (&[Steps(u32::MAX)], Err(BadSteps)),
];

#[test]
fn steps_are_1_to_400(rt: HostRuntime) -> Result<(), Fail> {
    check_rows(&rt, rt.alloc(), &[TRACK], &STEPS)
}

static CELLS: [Row; 13] = [
    (&[Cell(4, 5, 1, 20)], Ok(())),
    (&[Cell(4, 5, 1, 21)], Err(BadCell(4))),
    (&[Cell(4, 5, 1, 1)], Ok(())),
    (&[Cell(4, 5, 1, 0)], Err(BadCell(4))),
    // past the last node
    (&[Cell(6, 4, 1, 20)], Err(BadCell(4))),
    (&[Cell(4, 6, 1, 20)], Err(BadCell(4))),
    (&[Nodes(7), Cell(4, 6, 1, 20)], Ok(())),
    // past the last section
    (&[Cell(4, 5, 2, 20)], Ok(())),
    (&[Cell(4, 5, 3, 20)], Err(BadCell(4))),
    // between one node
    (&[Cell(4, 4, 1, 20)], Err(BadCell(4))),
    (&[Cell(5, 5, 2, 20)], Err(BadCell(4))),
    // the numbers alone are too low
    (&[Nodes(4)], Err(BadCell(3))),
    (&[Sections(1)], Err(BadCell(2))),
];

#[test]
fn cells_are_between_two_nodes_in_a_section(rt: HostRuntime) -> Result<(), Fail> {
    check_rows(&rt, rt.alloc(), &[TRACK], &CELLS)
}

static JOINS: [Row; 9] = [
    // one that is there, once more and turned
    (&[Join((0, High), (1, Low))], Ok(())),
    (&[Join((1, Low), (0, High))], Ok(())),
    // past the last cell
    (&[Join((4, Low), (3, High))], Err(BadJoin(3))),
    (&[Join((3, High), (4, Low))], Err(BadJoin(3))),
    // of an end with itself
    (&[Join((0, High), (0, High))], Err(BadJoin(3))),
    // over two nodes
    (&[Join((0, Low), (0, High))], Err(BadJoin(3))),
    (&[Join((0, High), (1, High))], Err(BadJoin(3))),
    (&[Join((0, Low), (1, Low))], Err(BadJoin(3))),
    (&[Join((0, Low), (3, High))], Err(BadJoin(3))),
];

#[test]
fn joins_are_of_two_ends_at_one_node(rt: HostRuntime) -> Result<(), Fail> {
    check_rows(&rt, rt.alloc(), &[TRACK], &JOINS)
}

static SECTIONS: [Row; 12] = [
    // a section of one cell, a leg, and an empty section
    (&[Cell(4, 5, 2, 20)], Ok(())),
    (&[Cell(1, 5, 0, 20)], Ok(())),
    (&[Sections(4)], Ok(())),
    // falls apart: without a link, or with one by another section
    (&[Cell(4, 5, 0, 20)], Err(BadSection(0))),
    (&[Cell(0, 1, 2, 20), Cell(2, 3, 2, 20)], Err(BadSection(2))),
    // a ring, of three nodes and of two
    (&[Cell(0, 2, 0, 20)], Ok(())),
    (&[Cell(4, 5, 2, 20), Cell(5, 4, 2, 20)], Ok(())),
    // several rings, which share nodes
    (&[Cell(0, 2, 0, 20), Cell(0, 2, 0, 20)], Ok(())),
    (&[Cell(2, 3, 1, 20), Cell(3, 4, 1, 20)], Ok(())),
    // two rings that share no node, and a ring beside a cell
    (
        &[
            Cell(0, 1, 2, 20),
            Cell(1, 0, 2, 20),
            Cell(3, 4, 2, 20),
            Cell(4, 3, 2, 20),
        ],
        Err(BadSection(2)),
    ),
    (&[Cell(0, 1, 0, 20), Cell(4, 5, 0, 20)], Err(BadSection(0))),
    // a ring of cells of three sections
    (&[Cell(4, 0, 2, 20)], Ok(())),
];

#[test]
fn sections_are_connected_and_may_close_rings(rt: HostRuntime) -> Result<(), Fail> {
    check_rows(&rt, rt.alloc(), &[TRACK], &SECTIONS)
}

static CANDIDATES: [Row; 11] = [
    (&[Candidate(1), Candidate(3)], Ok(())),
    (&[Candidate(3)], Ok(())),
    // not rising, and the same once more
    (&[Candidate(3), Candidate(1)], Err(BadCandidate(1))),
    (&[Candidate(1), Candidate(1)], Err(BadCandidate(1))),
    // past the last node
    (&[Candidate(1), Candidate(6)], Err(BadCandidate(1))),
    // the node of no cell end, and of one
    (&[Candidate(5)], Err(BadCandidate(0))),
    (&[Candidate(0)], Err(BadCandidate(0))),
    (&[Candidate(1), Candidate(4)], Err(BadCandidate(1))),
    // of three cell ends, in one section and in two
    (&[Cell(1, 5, 0, 20), Candidate(1)], Err(BadCandidate(0))),
    (&[Cell(1, 5, 2, 20), Candidate(1)], Err(BadCandidate(0))),
    // of two cells in two sections
    (&[Candidate(1), Candidate(2)], Err(BadCandidate(1))),
];

#[test]
fn candidates_rise_and_part_two_cells_of_a_section(rt: HostRuntime) -> Result<(), Fail> {
    check_rows(&rt, rt.alloc(), &[TRACK], &CANDIDATES)
}

const TWO_CANDIDATES: &[Change] = &[Candidate(1), Candidate(3)];

static KEPT: [Row; 8] = [
    (&[Kept(0)], Ok(())),
    (&[Kept(1)], Ok(())),
    (&[Kept(0), Kept(1)], Ok(())),
    // past the last candidate
    (&[Kept(2)], Err(BadKept(0))),
    (&[Kept(0), Kept(2)], Err(BadKept(1))),
    (&[Kept(u32::MAX)], Err(BadKept(0))),
    // not rising, and the same once more
    (&[Kept(1), Kept(0)], Err(BadKept(1))),
    (&[Kept(0), Kept(0)], Err(BadKept(1))),
];

static KEPT_OF_NONE: [Row; 1] = [(&[Kept(0)], Err(BadKept(0)))];

#[test]
fn kept_candidates_rise_and_are_candidates(rt: HostRuntime) -> Result<(), Fail> {
    check_rows(&rt, rt.alloc(), &[TRACK, TWO_CANDIDATES], &KEPT)?;
    check_rows(&rt, rt.alloc(), &[TRACK], &KEPT_OF_NONE)
}

static STATIONS: [Row; 7] = [
    (&[Station(&[3])], Ok(())),
    (&[Station(&[0, 3])], Ok(())),
    (&[Station(&[1, 1]), Station(&[1])], Ok(())),
    // without a cell
    (&[Station(&[])], Err(BadStation(0))),
    (&[Station(&[0]), Station(&[])], Err(BadStation(1))),
    // past the last cell
    (&[Station(&[4])], Err(BadStation(0))),
    (&[Station(&[0, 4, 1])], Err(BadStation(0))),
];

#[test]
fn stations_have_cells(rt: HostRuntime) -> Result<(), Fail> {
    check_rows(&rt, rt.alloc(), &[TRACK], &STATIONS)
}

static TRAINS: [Row; 24] = [
    (&[Train(Length(0))], Err(BadTrain(0))),
    (&[Train(Length(1))], Ok(())),
    (&[Train(Length(64))], Ok(())),
    (&[Train(Length(65))], Err(BadTrain(0))),
    (&[Train(Advance(0))], Err(BadTrain(0))),
    (&[Train(Advance(1))], Ok(())),
    (&[Train(Advance(20))], Ok(())),
    (&[Train(Advance(21))], Err(BadTrain(0))),
    // past the last cell
    (&[Train(Entry(3))], Ok(())),
    (&[Train(Entry(4))], Err(BadTrain(0))),
    (&[Train(Goal(0))], Ok(())),
    (&[Train(Goal(4))], Err(BadTrain(0))),
    // an entry after the last step
    (&[Train(Times(4, 5))], Ok(())),
    (&[Train(Times(5, 5))], Ok(())),
    (&[Train(Times(6, 5))], Err(BadTrain(0))),
    // a window of entry of one step, that ends before it begins, up to the last step, and past it
    (&[Train(Window(4, 4, 9))], Ok(())),
    (&[Train(Window(4, 3, 9))], Err(BadTrain(0))),
    (&[Train(Window(2, 8, 8))], Ok(())),
    (&[Train(Window(2, 9, 8))], Err(BadTrain(0))),
    (&[Train(Window(0, 9, 9))], Ok(())),
    // a last step past the horizon
    (&[Train(Times(9, 9))], Ok(())),
    (&[Train(Times(0, 10))], Err(BadTrain(0))),
    (&[Steps(11), Train(Times(0, 10))], Ok(())),
    (&[Trains(2), Train(Length(0))], Err(BadTrain(2))),
];

#[test]
fn trains_are_of_1_to_64_cells_and_in_time(rt: HostRuntime) -> Result<(), Fail> {
    check_rows(&rt, rt.alloc(), &[TRACK], &TRAINS)
}

const TWO_STATIONS: &[Change] = &[Station(&[1]), Station(&[2])];

static STOPS: [Row; 11] = [
    (&[Train(Stops(&[(0, 1, 4, 2)]))], Ok(())),
    (&[Train(Stops(&[(0, 1, 4, 3)]))], Ok(())),
    (&[Train(Stops(&[(0, 1, 4, 4)]))], Err(BadTrain(0))),
    // without a step
    (&[Train(Stops(&[(0, 1, 4, 0)]))], Err(BadTrain(0))),
    (&[Train(Stops(&[(0, 1, 4, 1)]))], Ok(())),
    // past the last station
    (&[Train(Stops(&[(1, 1, 4, 2)]))], Ok(())),
    (&[Train(Stops(&[(2, 1, 4, 2)]))], Err(BadTrain(0))),
    // a window that ends past the horizon, and one whose first step and dwell have no sum in 32 bits
    (&[Train(Stops(&[(0, 20, 22, 2)]))], Ok(())),
    (&[Train(Stops(&[(0, u32::MAX - 1, u32::MAX, 1)]))], Ok(())),
    (
        &[Train(Stops(&[(0, u32::MAX, u32::MAX, 1)]))],
        Err(BadTrain(0)),
    ),
    // the second stop
    (
        &[Train(Stops(&[(0, 1, 4, 3), (0, 1, 4, 4)]))],
        Err(BadTrain(0)),
    ),
];

#[test]
fn stops_are_at_stations_and_fit_their_windows(rt: HostRuntime) -> Result<(), Fail> {
    check_rows(&rt, rt.alloc(), &[TRACK, TWO_STATIONS], &STOPS)
}

static COUNTS: [Row; 11] = [
    (&[], Ok(())),
    (&[Nodes(0), Sections(0)], Ok(())),
    (&[Cells(limits::CELLS - 1)], Ok(())),
    (&[Cells(limits::CELLS)], Ok(())),
    (&[Cells(limits::CELLS + 1)], Err(BadCell(limits::CELLS))),
    (&[Cells(1_000), Candidates(limits::CANDIDATES - 1)], Ok(())),
    (&[Cells(1_000), Candidates(limits::CANDIDATES)], Ok(())),
    (
        &[Cells(1_000), Candidates(limits::CANDIDATES + 1)],
        Err(BadCandidate(limits::CANDIDATES)),
    ),
    (&[Cells(4), Trains(limits::TRAINS - 1)], Ok(())),
    (&[Cells(4), Trains(limits::TRAINS)], Ok(())),
    (
        &[Cells(4), Trains(limits::TRAINS + 1)],
        Err(BadTrain(limits::TRAINS)),
    ),
];

#[test]
fn there_are_at_most_1000_cells_512_candidates_and_32_trains(rt: HostRuntime) -> Result<(), Fail> {
    let told = [
        limits::CELLS,
        limits::CANDIDATES,
        limits::TRAINS,
        limits::STEPS,
        limits::LENGTH,
        limits::ADVANCE,
    ];
    assert_eq!(rt; told, [1_000, 512, 32, 400, 64, 20]);
    check_rows(&rt, rt.alloc(), &[NO_CELLS], &COUNTS)
}

/// As many nodes and sections as can be stated.
const MOST: &[Change] = &[Nodes(u32::MAX), Sections(u32::MAX)];

/// The last of so many.
const LAST: u32 = u32::MAX - 1;

static HIGHEST: [Row; 10] = [
    (&[], Ok(())),
    (&[Cell(4, LAST, 1, 20)], Ok(())),
    (&[Cell(4, u32::MAX, 1, 20)], Err(BadCell(4))),
    (&[Cell(4, 5, LAST, 20)], Ok(())),
    (&[Cell(4, 5, u32::MAX, 20)], Err(BadCell(4))),
    (
        &[Cell(0, 1, LAST, 20), Cell(2, 3, LAST, 20)],
        Err(BadSection(LAST)),
    ),
    (&[Cell(0, LAST, LAST, 20), Cell(LAST, 0, LAST, 20)], Ok(())),
    (
        &[Cell(4, LAST, 1, 20), Cell(LAST, 5, 1, 20), Candidate(LAST)],
        Ok(()),
    ),
    (&[Candidate(LAST)], Err(BadCandidate(0))),
    (&[Candidate(u32::MAX)], Err(BadCandidate(0))),
];

#[test]
fn the_highest_numbers_of_nodes_and_sections_are_answered(rt: HostRuntime) -> Result<(), Fail> {
    check_rows(&rt, rt.alloc(), &[TRACK, MOST], &HIGHEST)
}
