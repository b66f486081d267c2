//! Parts of instances as lists of changes, and what `Instance::build` answers to them.

ghost use Rattle.std.specs.Prelude.{◌<◌, ◌↔◌, All, IsTrue, length};

use cell_net::{
    BuildRefusal, CandidateId, CellEnd, CellId, CellSpec, DirCell, End, Instance, InstanceParts,
    JoinSpec, NodeId, SectionId, StationId, StopSpec, TrainSpec,
};
use std::alloc::{AllocError, Global};
use std::process::Abort;
use std::test::Fail;
use vss_lists::Items;

/// A change of parts: a number that is set, or what is appended to a list.
#[derive(Clone, Copy)]
pub(super) enum Change {
    Steps(u32),
    Nodes(u32),
    Sections(u32),
    /// A cell: its low node, its high node, its section and its limit.
    Cell(u32, u32, u32, u32),
    /// So many cells of section 0, one behind the other from node 0 on.
    Cells(u32),
    Join((u32, End), (u32, End)),
    /// A candidate, by its node.
    Candidate(u32),
    /// So many candidates, at nodes from 1 on.
    Candidates(u32),
    Kept(u32),
    Station(&'static [u32]),
    /// A good train, but for this.
    Train(TrainChange),
    /// So many good trains.
    Trains(u32),
}

#[derive(Clone, Copy)]
pub(super) enum TrainChange {
    Length(u32),
    Advance(u32),
    Entry(u32),
    Goal(u32),
    /// The step of the entry, and the last step.
    Times(u32, u32),
    /// The first and the last step of the entry, and the last step.
    Window(u32, u32, u32),
    /// Of each stop the station, the window's first step, the step behind it, and the dwell.
    Stops(&'static [(u32, u32, u32, u32)]),
}

/// The cells 0 to 3 from node 0 to node 4, the first two of section 0 and the others of section 1. Node 5
/// is of no cell, section 2 has none, and there are 10 steps.
pub(super) const TRACK: &[Change] = &[
    Change::Steps(10),
    Change::Nodes(6),
    Change::Sections(3),
    Change::Cell(0, 1, 0, 20),
    Change::Cell(1, 2, 0, 20),
    Change::Cell(2, 3, 1, 20),
    Change::Cell(3, 4, 1, 20),
    Change::Join((0, End::High), (1, End::Low)),
    Change::Join((1, End::High), (2, End::Low)),
    Change::Join((2, End::High), (3, End::Low)),
];

/// No cell, but nodes enough for more cells than there may be.
pub(super) const NO_CELLS: &[Change] = &[
    Change::Steps(10),
    Change::Nodes(1_002),
    Change::Sections(1),
];

/// Changes, and what is answered to the parts that they make.
pub(super) type Row = (&'static [Change], Result<(), BuildRefusal>);

/// Wants the answer of each row to its changes, which are made after those of the base.
pub(super) fn check_rows(
    rt: &impl Abort,
    alloc: Global,
    base: &[&[Change]],
    rows: &[Row],
) -> Result<(), Fail> {
    for place in 0..rows.len() {
        let (changes, want) = rows[place];
        let found = answer(rt, alloc, base, changes)?;
        assert_eq!(rt; found, want, "row {place}");
    }
    Ok(())
}

/// Whether what the changes make, after those of the base, is refused, and why.
pub(super) fn answer(
    rt: &impl Abort,
    alloc: Global,
    base: &[&[Change]],
    changes: &[Change],
) -> Result<Result<(), BuildRefusal>, AllocError> {
    match build(rt, alloc, base, changes)? {
        Ok(_) => Ok(Ok(())),
        Err(refusal) => Ok(Err(refusal)),
    }
}

/// Builds what the changes make, after those of the base.
pub(super) fn build(
    rt: &impl Abort,
    alloc: Global,
    base: &[&[Change]],
    changes: &[Change],
) -> Result<Result<Instance, BuildRefusal>, AllocError> {
    let mut parts = no_parts(alloc);
    for first in base {
        make_all(alloc, &mut parts, first)?;
    }
    make_all(alloc, &mut parts, changes)?;
    assert!(rt; parts.cells.len() < 10_000);
    assert!(rt; parts.joins.len() < 10_000);
    assert!(rt; parts.candidates.len() < 10_000);
    assert!(rt; parts.kept.len() < 10_000);
    assert!(rt; parts.stations.len() < 10_000);
    assert!(rt; parts.trains.len() < 10_000);
    assert!(rt; have_few_stops(parts.trains.as_slice()));
    Ok(Instance::build(alloc, parts))
}

fn have_few_stops(trains: &[TrainSpec]) -> bool
    ensures { IsTrue result ↔ All (λ t. length t.stops < 10000) trains.now }
{
    trains.iter().all(|train| train.stops.len() < 10_000)
}

fn no_parts(alloc: Global) -> InstanceParts {
    InstanceParts {
        nodes: 0,
        sections: 0,
        cells: Items::new(alloc),
        joins: Items::new(alloc),
        candidates: Items::new(alloc),
        kept: Items::new(alloc),
        stations: Items::new(alloc),
        trains: Items::new(alloc),
        steps: 0,
    }
}

fn make_all(
    alloc: Global,
    parts: &mut InstanceParts,
    changes: &[Change],
) -> Result<(), AllocError> {
    for change in changes {
        make(alloc, parts, *change)?;
    }
    Ok(())
}

fn make(alloc: Global, parts: &mut InstanceParts, change: Change) -> Result<(), AllocError> {
    match change {
        Change::Steps(steps) => parts.steps = steps,
        Change::Nodes(nodes) => parts.nodes = nodes,
        Change::Sections(sections) => parts.sections = sections,
        Change::Cell(low, high, section, limit) => {
            parts.cells.push(cell(low, high, section, limit))?
        }
        Change::Cells(count) => add_cells(parts, count)?,
        Change::Join(one, other) => parts.joins.push(join(one, other))?,
        Change::Candidate(node) => parts.candidates.push(NodeId(node))?,
        Change::Candidates(count) => add_candidates(parts, count)?,
        Change::Kept(candidate) => parts.kept.push(CandidateId(candidate))?,
        Change::Station(cells) => parts.stations.push(station(alloc, cells)?)?,
        Change::Train(change) => parts.trains.push(changed_train(alloc, change)?)?,
        Change::Trains(count) => add_trains(alloc, parts, count)?,
    }
    Ok(())
}

fn cell(low: u32, high: u32, section: u32, limit: u32) -> CellSpec {
    CellSpec {
        low: NodeId(low),
        high: NodeId(high),
        section: SectionId(section),
        limit,
    }
}

fn add_cells(parts: &mut InstanceParts, count: u32) -> Result<(), AllocError> {
    for low in 0..count {
        parts.cells.push(cell(low, low + 1, 0, 20))?;
    }
    Ok(())
}

fn join(one: (u32, End), other: (u32, End)) -> JoinSpec {
    JoinSpec {
        one: cell_end(one),
        other: cell_end(other),
    }
}

fn cell_end((cell, end): (u32, End)) -> CellEnd {
    CellEnd {
        cell: CellId(cell),
        end,
    }
}

fn add_candidates(parts: &mut InstanceParts, count: u32) -> Result<(), AllocError> {
    for before in 0..count {
        parts.candidates.push(NodeId(before + 1))?;
    }
    Ok(())
}

fn station(alloc: Global, cells: &[u32]) -> Result<Items<CellId>, AllocError> {
    let cells: Vec<CellId> = cells.iter().map(|&cell| CellId(cell)).collect(alloc)?;
    Ok(Items::from_vec(cells))
}

/// A train from cell 0 to cell 3, that enters at step 0 and may arrive up to step 9.
fn good_train(alloc: Global) -> TrainSpec {
    TrainSpec {
        length: 1,
        advance: 1,
        entry: headed_up(0),
        goal: headed_up(3),
        start: 0,
        latest: 0,
        by: 9,
        stops: Items::new(alloc),
    }
}

fn headed_up(cell: u32) -> DirCell {
    DirCell {
        cell: CellId(cell),
        end: End::High,
    }
}

fn changed_train(alloc: Global, change: TrainChange) -> Result<TrainSpec, AllocError> {
    let mut train = good_train(alloc);
    match change {
        TrainChange::Length(length) => train.length = length,
        TrainChange::Advance(advance) => train.advance = advance,
        TrainChange::Entry(cell) => train.entry = headed_up(cell),
        TrainChange::Goal(cell) => train.goal = headed_up(cell),
        TrainChange::Times(start, by) => set_window(&mut train, start, start, by),
        TrainChange::Window(start, latest, by) => set_window(&mut train, start, latest, by),
        TrainChange::Stops(stops) => train.stops = stops_of(alloc, stops)?,
    }
    Ok(train)
}

fn set_window(train: &mut TrainSpec, start: u32, latest: u32, by: u32) {
    train.start = start;
    train.latest = latest;
    train.by = by;
}

fn stops_of(alloc: Global, stops: &[(u32, u32, u32, u32)]) -> Result<Items<StopSpec>, AllocError> {
    let stops: Vec<StopSpec> = stops
        .iter()
        .map(|&(station, from, until, dwell)| StopSpec {
            station: StationId(station),
            from,
            until,
            dwell,
        })
        .collect(alloc)?;
    Ok(Items::from_vec(stops))
}

fn add_trains(alloc: Global, parts: &mut InstanceParts, count: u32) -> Result<(), AllocError> {
    for _ in 0..count {
        parts.trains.push(good_train(alloc))?;
    }
    Ok(())
}
