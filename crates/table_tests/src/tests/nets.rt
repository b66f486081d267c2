//! Instances from short tables.

ghost use Rattle.std.specs.Prelude.{◌<◌, ◌↔◌, All, IsTrue, length};

use cell_net::{
    CellEnd, CellId, CellSpec, DirCell, End, Instance, InstanceParts, JoinSpec, NodeId, SectionId,
    TrainSpec,
};
use std::alloc::{AllocError, Global};
use std::process::Abort;
use std::test::Fail;
use vss_lists::Items;

/// Each cell is its low node, its high node and its section.
pub(super) type Cells<'a> = &'a [(u32, u32, u32)];

/// Each join is of the high end of a cell with the low end of another one.
pub(super) type Joins<'a> = &'a [(u32, u32)];

/// Cells and their joins, the nodes of the candidates, the cells of stations, and trains.
#[derive(Drop)]
pub(super) struct Net {
    pub cells: Vec<CellSpec>,
    pub joins: Vec<JoinSpec>,
    pub candidates: Vec<NodeId>,
    pub stations: Items<Items<CellId>>,
    pub trains: Items<TrainSpec>,
}

/// These cells alone, with candidates at these nodes.
pub(super) fn net_of(alloc: Global, cells: Cells, candidates: &[u32]) -> Result<Net, AllocError> {
    Ok(Net {
        cells: cells
            .iter()
            .map(|&(low, high, section)| cell_of(low, high, section))
            .collect(alloc)?,
        joins: Vec::new(alloc),
        candidates: candidates.iter().map(|&node| NodeId(node)).collect(alloc)?,
        stations: Items::new(alloc),
        trains: Items::new(alloc),
    })
}

pub(super) fn cell_of(low: u32, high: u32, section: u32) -> CellSpec {
    CellSpec {
        low: NodeId(low),
        high: NodeId(high),
        section: SectionId(section),
        limit: 20,
    }
}

pub(super) fn join_of(before: u32, after: u32) -> JoinSpec {
    JoinSpec {
        one: CellEnd {
            cell: CellId(before),
            end: End::High,
        },
        other: CellEnd {
            cell: CellId(after),
            end: End::Low,
        },
    }
}

/// A train of that length and that advance, from cell 0 to its high end back to it.
pub(super) fn train_of(alloc: Global, length: u32, advance: u32) -> TrainSpec {
    let cell = DirCell {
        cell: CellId(0),
        end: End::High,
    };
    TrainSpec {
        length,
        advance,
        entry: cell,
        goal: cell,
        start: 0,
        latest: 0,
        by: 2,
        stops: Items::new(alloc),
    }
}

/// The instance of the net, with three steps, four sections and ten thousand nodes.
pub(super) fn built(rt: &impl Abort, alloc: Global, net: Net) -> Result<Instance, Fail> {
    let Net {
        cells,
        joins,
        candidates,
        stations,
        trains,
    } = net;
    let parts = InstanceParts {
        nodes: 10_000,
        sections: 4,
        cells: Items::from_vec(cells),
        joins: Items::from_vec(joins),
        candidates: Items::from_vec(candidates),
        kept: Items::new(alloc),
        stations,
        trains,
        steps: 3,
    };
    assert!(rt; parts.cells.len() < 1000);
    assert!(rt; parts.joins.len() < 1000);
    assert!(rt; parts.candidates.len() < 100);
    assert!(rt; parts.stations.len() < 100);
    assert!(rt; parts.trains.len() < 100);
    assert!(rt; have_few_stops(parts.trains.as_slice()));
    Ok(Instance::build(alloc, parts)?)
}

fn have_few_stops(trains: &[TrainSpec]) -> bool
    ensures { IsTrue result ↔ All (λ t. length t.stops < 100) trains.now }
{
    trains.iter().all(|train| train.stops.len() < 100)
}
