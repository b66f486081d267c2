//! Rows of cells of one section, with a candidate between each two, and trains of one cell that go over the row by one cell a
//! step.
ghost use Rattle.std.specs.Prelude.{◌<◌, ◌↔◌, All, IsTrue, length};

use cell_net::{
    CandidateId, CellEnd, CellId, CellSpec, DirCell, End, Instance, InstanceParts, JoinSpec,
    NodeId, SectionId, TrainSpec,
};
use std::alloc::{AllocError, Global};
use std::process::Abort;
use std::test::Fail;
use vss_lists::Items;

/// A row: how many cells, the candidates whose border is kept, and for each train the step at which it enters and the last step
/// of its goal.
#[derive(Clone, Copy)]
pub(super) struct Row {
    pub(super) cells: u32,
    pub(super) kept: &'static [u32],
    pub(super) trains: &'static [(u32, u32)],
}

/// Two trains, the other two steps behind the one: a border must part them.
pub(super) const TWO: Row = Row {
    cells: 4,
    kept: &[],
    trains: &[(0, 4), (2, 8)],
};

/// The instance of the row.
pub(super) fn instance_of(rt: &impl Abort, alloc: Global, row: Row) -> Result<Instance, Fail> {
    assert!(rt; 0 < row.cells);
    assert!(rt; row.cells < 100);
    let parts = parts_of(alloc, row)?;
    assert!(rt; parts.cells.len() < 100);
    assert!(rt; parts.joins.len() < 100);
    assert!(rt; parts.candidates.len() < 100);
    assert!(rt; parts.kept.len() < 100);
    assert!(rt; parts.stations.len() < 100);
    assert!(rt; parts.trains.len() < 100);
    assert!(rt; have_few_stops(parts.trains.as_slice()));
    Ok(Instance::build(alloc, parts)?)
}

fn have_few_stops(trains: &[TrainSpec]) -> bool
    ensures { IsTrue result ↔ All (λ t. length t.stops < 100) trains.now }
{
    trains.iter().all(|train| train.stops.len() < 100)
}

fn parts_of(alloc: Global, row: Row) -> Result<InstanceParts, AllocError>
    requires { (0 < row.cells) × (row.cells < 100) }
{
    let mut kept = Vec::new(alloc);
    for number in row.kept {
        kept.push(CandidateId(*number))?;
    }
    Ok(InstanceParts {
        nodes: row.cells + 1,
        sections: 1,
        cells: cells_of(alloc, row.cells)?,
        joins: joins_of(alloc, row.cells)?,
        candidates: candidates_of(alloc, row.cells)?,
        kept: Items::from_vec(kept),
        stations: Items::new(alloc),
        trains: trains_of(alloc, row)?,
        steps: 12,
    })
}

fn cells_of(alloc: Global, count: u32) -> Result<Items<CellSpec>, AllocError>
    requires { count < 100 }
{
    let mut cells = Vec::new(alloc);
    for cell in 0..count {
        cells.push(CellSpec {
            low: NodeId(cell),
            high: NodeId(cell + 1),
            section: SectionId(0),
            limit: 1,
        })?;
    }
    Ok(Items::from_vec(cells))
}

fn joins_of(alloc: Global, count: u32) -> Result<Items<JoinSpec>, AllocError>
    requires { (0 < count) × (count < 100) }
{
    let mut joins = Vec::new(alloc);
    for cell in 0..count - 1 {
        joins.push(JoinSpec {
            one: CellEnd {
                cell: CellId(cell),
                end: End::High,
            },
            other: CellEnd {
                cell: CellId(cell + 1),
                end: End::Low,
            },
        })?;
    }
    Ok(Items::from_vec(joins))
}

fn candidates_of(alloc: Global, count: u32) -> Result<Items<NodeId>, AllocError>
    requires { count < 100 }
{
    let mut candidates = Vec::new(alloc);
    for cell in 1..count {
        candidates.push(NodeId(cell))?;
    }
    Ok(Items::from_vec(candidates))
}

fn trains_of(alloc: Global, row: Row) -> Result<Items<TrainSpec>, AllocError>
    requires { (0 < row.cells) × (row.cells < 100) }
{
    let mut trains = Vec::new(alloc);
    for (start, by) in row.trains {
        trains.push(TrainSpec {
            length: 1,
            advance: 1,
            entry: up(0),
            goal: up(row.cells - 1),
            start: *start,
            latest: *start,
            by: *by,
            stops: Items::new(alloc),
        })?;
    }
    Ok(Items::from_vec(trains))
}

fn up(cell: u32) -> DirCell {
    DirCell {
        cell: CellId(cell),
        end: End::High,
    }
}
