//! Cells, their ends, and the joins of ends.

ghost use Rattle.std.specs.Prelude.{◌≡◌, ◌↔◌, IsTrue};
ghost use Rattle.cell_net.specs.Space.{head_of, opposite, tail_of};

use super::ids::{CellId, NodeId, SectionId};

/// One of the two ends of a cell.
#[derive(Clone, Copy, Debug, PartialEq, Eq)]
pub enum End {
    Low,
    High,
}

/// A cell and the end that a train in it heads to.
#[derive(Clone, Copy, Debug, PartialEq, Eq)]
pub struct DirCell {
    pub cell: CellId,
    pub end: End,
}

/// One end of one cell.
#[derive(Clone, Copy, Debug, PartialEq, Eq)]
pub struct CellEnd {
    pub cell: CellId,
    pub end: End,
}

/// A cell, one space step of track: its two nodes, its section, and how many cells a train in it
/// may advance in one step (1 to 20).
#[derive(Clone, Copy, Debug, PartialEq, Eq)]
pub struct CellSpec {
    pub low: NodeId,
    pub high: NodeId,
    pub section: SectionId,
    pub limit: u32,
}

/// A passage between two cell ends at one node, in both directions.
#[derive(Clone, Copy, Debug, PartialEq, Eq)]
pub struct JoinSpec {
    pub one: CellEnd,
    pub other: CellEnd,
}

pub(crate) fn is_same_end(one: CellEnd, other: CellEnd) -> bool
    ensures { IsTrue result ↔ (one ≡ other) }
{
    one == other
}

/// The end that a directed cell heads to.
pub(crate) fn head_of(directed: DirCell) -> CellEnd
    ensures { result ≡ head_of directed }
{
    CellEnd {
        cell: directed.cell,
        end: directed.end,
    }
}

/// The end that it doesn't head to.
pub(crate) fn tail_of(directed: DirCell) -> CellEnd
    ensures { result ≡ tail_of directed }
{
    CellEnd {
        cell: directed.cell,
        end: opposite(directed.end),
    }
}

fn opposite(end: End) -> End
    ensures { result ≡ opposite end }
{
    match end {
        End::Low => End::High,
        End::High => End::Low,
    }
}
