//! What an instance is made of.

use super::cells::{CellSpec, JoinSpec};
use super::ids::{CandidateId, CellId, NodeId};
use super::trains::TrainSpec;
use vss_lists::Items;

/// What an instance is made of: the counts of nodes and sections, the cells, the joins of their
/// ends, the nodes where a virtual border may stand (rising), the candidates whose border is kept
/// (rising), the cells of each station, the trains, and the number of time steps.
#[derive(Debug, Drop)]
pub struct InstanceParts {
    pub nodes: u32,
    pub sections: u32,
    pub cells: Items<CellSpec>,
    pub joins: Items<JoinSpec>,
    pub candidates: Items<NodeId>,
    pub kept: Items<CandidateId>,
    pub stations: Items<Items<CellId>>,
    pub trains: Items<TrainSpec>,
    pub steps: u32,
}
