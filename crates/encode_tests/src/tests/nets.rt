//! Instances from short tables.

ghost use Rattle.std.specs.Prelude.{◌<◌, ◌↔◌, All, IsTrue, length};

use cell_net::{
    CandidateId, CellEnd, CellId, CellSpec, DirCell, End, Instance, InstanceParts, JoinSpec,
    Layout, NodeId, SectionId, StationId, StopSpec, TrainSpec,
};
use clause_encoder::{EncodeRefusal, Encoded, Task, encode};
use sat_core::{Lit, Var};
use std::alloc::{AllocError, Global};
use std::process::Abort;
use std::test::Fail;
use vss_lists::Items;

/// A cell and whether its high end is meant, and else its low one.
pub(super) type AtEnd = (u32, bool);

/// A train of some cells that may advance by one: where it enters, where it leaves, the first and the last step of its entry and
/// its last step, and each stop's station, first step, step behind the last, and dwell.
#[derive(Clone, Copy)]
pub(super) struct Train {
    pub length: u32,
    pub entry: AtEnd,
    pub goal: AtEnd,
    pub start: u32,
    pub latest: u32,
    pub by: u32,
    pub stops: &'static [(u32, u32, u32, u32)],
}

/// Each cell is its low node, its high node and its section; each join is of two ends; each candidate is its node.
#[derive(Clone, Copy)]
pub(super) struct Net {
    pub cells: &'static [(u32, u32, u32)],
    pub joins: &'static [(AtEnd, AtEnd)],
    pub candidates: &'static [u32],
    pub kept: &'static [u32],
    pub stations: &'static [&'static [u32]],
    pub trains: &'static [Train],
}

/// What is asked: plans under the layout of these borders, or under some layout of at most so many.
#[derive(Clone, Copy)]
pub(super) enum Asked {
    Given(&'static [u32]),
    AtMost(u32),
}

/// Four cells in a row with the three candidates between them, and a train that goes over it from the first cell to the last.
pub(super) const ROW: Net = Net {
    cells: &[(0, 1, 0), (1, 2, 0), (2, 3, 0), (3, 4, 0)],
    joins: &[
        ((0, true), (1, false)),
        ((1, true), (2, false)),
        ((2, true), (3, false)),
    ],
    candidates: &[1, 2, 3],
    kept: &[],
    stations: &[],
    trains: &[OVER],
};

/// The train of the row, which has a run of three steps.
pub(super) const OVER: Train = Train {
    length: 1,
    entry: (0, true),
    goal: (3, true),
    start: 0,
    latest: 0,
    by: 2,
    stops: &[],
};

/// The same in two steps, where it has no run.
pub(super) const SHORT_ROW: Net = Net {
    trains: &[Train { by: 1, ..OVER }],
    ..ROW
};

/// The parts of the net, with 400 steps.
pub(super) fn parts_of(alloc: Global, net: Net) -> Result<InstanceParts, AllocError> {
    Ok(InstanceParts {
        nodes: 10_000,
        sections: 4,
        cells: cells_of(alloc, net.cells)?,
        joins: joins_of(alloc, net.joins)?,
        candidates: nodes_of(alloc, net.candidates)?,
        kept: Items::from_vec(borders_of(alloc, net.kept)?),
        stations: stations_of(alloc, net.stations)?,
        trains: trains_of(alloc, net.trains)?,
        steps: 400,
    })
}

fn cells_of(alloc: Global, rows: &[(u32, u32, u32)]) -> Result<Items<CellSpec>, AllocError> {
    let mut cells = Items::new(alloc);
    for &(low, high, section) in rows {
        cells.push(cell_of(low, high, section))?;
    }
    Ok(cells)
}

/// A cell in which a train may advance by 20.
pub(super) fn cell_of(low: u32, high: u32, section: u32) -> CellSpec {
    CellSpec {
        low: NodeId(low),
        high: NodeId(high),
        section: SectionId(section),
        limit: 20,
    }
}

fn joins_of(alloc: Global, rows: &[(AtEnd, AtEnd)]) -> Result<Items<JoinSpec>, AllocError> {
    let mut joins = Items::new(alloc);
    for &(one, other) in rows {
        joins.push(join_of(one, other))?;
    }
    Ok(joins)
}

pub(super) fn join_of(one: AtEnd, other: AtEnd) -> JoinSpec {
    JoinSpec {
        one: end_of(one),
        other: end_of(other),
    }
}

fn end_of(at: AtEnd) -> CellEnd {
    let DirCell { cell, end } = directed(at);
    CellEnd { cell, end }
}

/// The cell, headed to that end.
pub(super) fn directed(at: AtEnd) -> DirCell {
    DirCell {
        cell: CellId(at.0),
        end: if at.1 { End::High } else { End::Low },
    }
}

fn nodes_of(alloc: Global, nodes: &[u32]) -> Result<Items<NodeId>, AllocError> {
    let nodes: Vec<NodeId> = nodes.iter().map(|&node| NodeId(node)).collect(alloc)?;
    Ok(Items::from_vec(nodes))
}

fn borders_of(alloc: Global, borders: &[u32]) -> Result<Vec<CandidateId>, AllocError> {
    borders
        .iter()
        .map(|&border| CandidateId(border))
        .collect(alloc)
}

fn stations_of(alloc: Global, rows: &[&[u32]]) -> Result<Items<Items<CellId>>, AllocError> {
    let mut stations = Items::new(alloc);
    for row in rows {
        let cells: Vec<CellId> = row.iter().map(|&cell| CellId(cell)).collect(alloc)?;
        stations.push(Items::from_vec(cells))?;
    }
    Ok(stations)
}

fn trains_of(alloc: Global, rows: &[Train]) -> Result<Items<TrainSpec>, AllocError> {
    let mut trains = Items::new(alloc);
    for row in rows {
        trains.push(train_of(alloc, *row)?)?;
    }
    Ok(trains)
}

pub(super) fn train_of(alloc: Global, row: Train) -> Result<TrainSpec, AllocError> {
    let mut stops = Items::new(alloc);
    for &(station, from, until, dwell) in row.stops {
        stops.push(StopSpec {
            station: StationId(station),
            from,
            until,
            dwell,
        })?;
    }
    Ok(TrainSpec {
        length: row.length,
        advance: 1,
        entry: directed(row.entry),
        goal: directed(row.goal),
        start: row.start,
        latest: row.latest,
        by: row.by,
        stops,
    })
}

/// The instance of the parts.
pub(super) fn built(
    rt: &impl Abort,
    alloc: Global,
    parts: InstanceParts,
) -> Result<Instance, Fail> {
    assert!(rt; parts.cells.len() < 2000);
    assert!(rt; parts.joins.len() < 2000);
    assert!(rt; parts.candidates.len() < 2000);
    assert!(rt; parts.kept.len() < 2000);
    assert!(rt; parts.stations.len() < 2000);
    assert!(rt; parts.trains.len() < 2000);
    assert!(rt; have_few_stops(parts.trains.as_slice()));
    Ok(Instance::build(alloc, parts)?)
}

fn have_few_stops(trains: &[TrainSpec]) -> bool
    ensures { IsTrue result ↔ All (λ t. length t.stops < 2000) trains.now }
{
    trains.iter().all(|train| train.stops.len() < 2000)
}

/// The instance of the net.
pub(super) fn instance_of(rt: &impl Abort, alloc: Global, net: Net) -> Result<Instance, Fail> {
    built(rt, alloc, parts_of(alloc, net)?)
}

/// The formula of what is asked of the net.
pub(super) fn encoded(
    rt: &impl Abort,
    alloc: Global,
    net: Net,
    asked: Asked,
) -> Result<Encoded, Fail> {
    let inst = instance_of(rt, alloc, net)?;
    Ok(encode_asked(rt, alloc, &inst, asked)??)
}

/// The formula of what is asked of the instance, or why there is none.
pub(super) fn encode_asked(
    rt: &impl Abort,
    alloc: Global,
    inst: &Instance,
    asked: Asked,
) -> Result<Result<Encoded, EncodeRefusal>, Fail> {
    match asked {
        Asked::AtMost(bound) => Ok(encode(alloc, inst, &Task::Free, bound)),
        Asked::Given(borders) => {
            let borders = borders_of(alloc, borders)?;
            assert!(rt; borders.len() < 2000);
            let layout = Layout::new(inst, borders)?;
            Ok(encode(alloc, inst, &Task::Given(layout), 0))
        }
    }
}

/// The literal of that variable, negated where the number is.
pub(super) fn lit(number: i32) -> Lit {
    Lit {
        var: Var(number.unsigned_abs()),
        positive: number > 0,
    }
}
