//! Instances and layouts, from short tables.

ghost use Rattle.std.specs.Prelude.{◌<◌, ◌↔◌, All, IfOk, IsTrue, length};
ghost use Rattle.cell_net.specs.Borders.{IsBorderSet};

use cell_net::{
    CandidateId, CellEnd, CellId, CellSpec, DirCell, End, Instance, InstanceParts, JoinSpec,
    Layout, NodeId, SectionId, TrainSpec,
};
use std::alloc::{AllocError, Global};
use std::process::Abort;
use std::test::Fail;
use vss_lists::Items;

/// Every instance has so many time steps.
pub(super) const STEPS: u32 = 3;

/// Each cell is its low node, its high node and its section; each join is of the high end of a cell with
/// the low end of another one; and each candidate is its node.
#[derive(Clone, Copy)]
pub(super) struct Net<'a> {
    pub cells: &'a [(u32, u32, u32)],
    pub joins: &'a [(u32, u32)],
    pub candidates: &'a [u32],
    pub kept: &'a [u32],
}

/// What stands and runs on the net.
#[derive(Drop)]
pub(super) struct Traffic {
    pub stations: Items<Items<CellId>>,
    pub trains: Items<TrainSpec>,
}

pub(super) fn no_traffic(alloc: Global) -> Traffic {
    Traffic {
        stations: Items::new(alloc),
        trains: Items::new(alloc),
    }
}

/// The cell, headed to its high end.
pub(super) fn up(cell: u32) -> DirCell {
    DirCell {
        cell: CellId(cell),
        end: End::High,
    }
}

/// The cell, headed to its low end.
pub(super) fn down(cell: u32) -> DirCell {
    DirCell {
        cell: CellId(cell),
        end: End::Low,
    }
}

pub(super) fn instance_of(
    rt: &impl Abort,
    alloc: Global,
    net: Net,
    traffic: Traffic,
) -> Result<Instance, Fail> {
    let parts = parts_of(alloc, net, traffic)?;
    assert!(rt; parts.cells.len() < 100);
    assert!(rt; parts.joins.len() < 100);
    assert!(rt; parts.candidates.len() < 100);
    assert!(rt; parts.kept.len() < 100);
    assert!(rt; parts.stations.len() < 100);
    assert!(rt; parts.trains.len() < 100);
    assert!(rt; have_few_stops(parts.trains.as_slice()));
    Ok(Instance::build(alloc, parts)?)
}

fn have_few_stops(trains: &[TrainSpec]) -> bool
    ensures { IsTrue result ↔ All (λ t. length t.stops < 100) trains.now }
{
    trains.iter().all(|train| train.stops.len() < 100)
}

fn parts_of(alloc: Global, net: Net, traffic: Traffic) -> Result<InstanceParts, AllocError> {
    let Traffic { stations, trains } = traffic;
    Ok(InstanceParts {
        nodes: 6,
        sections: 2,
        cells: cells_of(alloc, net.cells)?,
        joins: joins_of(alloc, net.joins)?,
        candidates: nodes_of(alloc, net.candidates)?,
        kept: Items::from_vec(borders_of(alloc, net.kept)?),
        stations,
        trains,
        steps: STEPS,
    })
}

fn cells_of(alloc: Global, cells: &[(u32, u32, u32)]) -> Result<Items<CellSpec>, AllocError> {
    let cells: Vec<CellSpec> = cells
        .iter()
        .map(|&(low, high, section)| CellSpec {
            low: NodeId(low),
            high: NodeId(high),
            section: SectionId(section),
            limit: 20,
        })
        .collect(alloc)?;
    Ok(Items::from_vec(cells))
}

fn joins_of(alloc: Global, joins: &[(u32, u32)]) -> Result<Items<JoinSpec>, AllocError> {
    let joins: Vec<JoinSpec> = joins
        .iter()
        .map(|&(before, after)| JoinSpec {
            one: CellEnd {
                cell: CellId(before),
                end: End::High,
            },
            other: CellEnd {
                cell: CellId(after),
                end: End::Low,
            },
        })
        .collect(alloc)?;
    Ok(Items::from_vec(joins))
}

fn nodes_of(alloc: Global, nodes: &[u32]) -> Result<Items<NodeId>, AllocError> {
    let nodes: Vec<NodeId> = nodes.iter().map(|&node| NodeId(node)).collect(alloc)?;
    Ok(Items::from_vec(nodes))
}

fn borders_of(alloc: Global, borders: &[u32]) -> Result<Vec<CandidateId>, AllocError> {
    borders
        .iter()
        .map(|&border| CandidateId(border))
        .collect(alloc)
}

/// The layout of the borders at these candidates.
pub(super) fn layout_of(
    rt: &impl Abort,
    alloc: Global,
    inst: &Instance,
    borders: &[u32],
) -> Result<Layout, Fail>
    ensures { IfOk result (IsBorderSet inst.now) }
{
    let borders = borders_of(alloc, borders)?;
    assert!(rt; borders.len() < 100);
    Ok(Layout::new(inst, borders)?)
}
