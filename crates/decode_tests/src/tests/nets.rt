//! Instances from short tables.

ghost use Rattle.std.specs.Prelude.{◌<◌, ◌↔◌, All, IsTrue, length};

use cell_net::{
    CellEnd, CellId, CellSpec, DirCell, End, Instance, InstanceParts, JoinSpec, NodeId, SectionId,
    StationId, StopSpec, TrainSpec,
};
use std::alloc::{AllocError, Global};
use std::process::Abort;
use std::test::Fail;
use vss_lists::Items;

/// Cells in a row, of one section, each joined with the next one; the last may lead back to the first. Candidates stand at these
/// nodes, and each station is one cell.
#[derive(Clone, Copy)]
pub(super) struct Net {
    pub cells: u32,
    pub is_ring: bool,
    pub candidates: &'static [u32],
    pub stations: &'static [u32],
}

/// A train of one cell that advances by at most one: its first and its last cell, the steps at which it may enter, its last step,
/// and its stop, if it has one: the station, and from which step to before which it stands there for so many steps.
#[derive(Clone, Copy)]
pub(super) struct Train {
    pub entry: u32,
    pub goal: u32,
    pub start: u32,
    pub latest: u32,
    pub by: u32,
    pub stop: Option<(u32, u32, u32, u32)>,
}

/// The cell, headed to its high end.
pub(super) fn up(cell: u32) -> DirCell {
    DirCell {
        cell: CellId(cell),
        end: End::High,
    }
}

/// The instance of the net and the trains, with ten steps.
pub(super) fn instance_of(
    rt: &impl Abort,
    alloc: Global,
    net: Net,
    trains: &[Train],
) -> Result<Instance, Fail> {
    let parts = InstanceParts {
        nodes: 20,
        sections: 1,
        cells: cells_of(alloc, net)?,
        joins: joins_of(alloc, net)?,
        candidates: Items::from_vec(net.candidates.iter().map(|&n| NodeId(n)).collect(alloc)?),
        kept: Items::new(alloc),
        stations: stations_of(alloc, net.stations)?,
        trains: trains_of(alloc, trains)?,
        steps: 10,
    };
    assert!(rt; parts.cells.len() < 100);
    assert!(rt; parts.joins.len() < 100);
    assert!(rt; parts.candidates.len() < 100);
    assert!(rt; parts.kept.len() < 100);
    assert!(rt; parts.stations.len() < 100);
    assert!(rt; parts.trains.len() < 100);
    assert!(rt; have_few_stops(parts.trains.as_slice()));
    Ok(Instance::build(alloc, parts)?)
}

fn have_few_stops(trains: &[TrainSpec]) -> bool
    ensures { IsTrue result ↔ All (λ t. length t.stops < 100) trains.now }
{
    trains.iter().all(|train| train.stops.len() < 100)
}

/// The node behind the cell.
fn high_of(net: Net, cell: u32) -> u32 {
    let behind = cell.wrapping_add(1);
    if net.is_ring && behind == net.cells {
        0
    } else {
        behind
    }
}

fn cells_of(alloc: Global, net: Net) -> Result<Items<CellSpec>, AllocError> {
    let mut cells = Items::new(alloc);
    for cell in 0..net.cells {
        cells.push(CellSpec {
            low: NodeId(cell),
            high: NodeId(high_of(net, cell)),
            section: SectionId(0),
            limit: 1,
        })?;
    }
    Ok(cells)
}

fn joins_of(alloc: Global, net: Net) -> Result<Items<JoinSpec>, AllocError> {
    let mut joins = Items::new(alloc);
    for cell in 0..net.cells {
        let next = high_of(net, cell);
        if next < net.cells {
            joins.push(JoinSpec {
                one: CellEnd {
                    cell: CellId(cell),
                    end: End::High,
                },
                other: CellEnd {
                    cell: CellId(next),
                    end: End::Low,
                },
            })?;
        }
    }
    Ok(joins)
}

fn stations_of(alloc: Global, cells: &[u32]) -> Result<Items<Items<CellId>>, AllocError> {
    let mut stations = Items::new(alloc);
    for &cell in cells {
        let mut station = Items::new(alloc);
        station.push(CellId(cell))?;
        stations.push(station)?;
    }
    Ok(stations)
}

fn trains_of(alloc: Global, trains: &[Train]) -> Result<Items<TrainSpec>, AllocError> {
    let mut specs = Items::new(alloc);
    for train in trains {
        specs.push(TrainSpec {
            length: 1,
            advance: 1,
            entry: up(train.entry),
            goal: up(train.goal),
            start: train.start,
            latest: train.latest,
            by: train.by,
            stops: stops_of(alloc, train.stop)?,
        })?;
    }
    Ok(specs)
}

fn stops_of(
    alloc: Global,
    stop: Option<(u32, u32, u32, u32)>,
) -> Result<Items<StopSpec>, AllocError> {
    let mut stops = Items::new(alloc);
    if let Some((station, from, until, dwell)) = stop {
        stops.push(StopSpec {
            station: StationId(station),
            from,
            until,
            dwell,
        })?;
    }
    Ok(stops)
}
