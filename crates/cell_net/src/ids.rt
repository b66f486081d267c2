//! Numbers of things: places in the lists of an instance, or numbers below its counts.

/// A cell, by its place in the list of cells, counted from 0 as all of these are.
#[derive(Clone, Copy, Debug, PartialEq, Eq)]
pub struct CellId(pub u32);

/// A node, where ends of cells meet. Nodes are numbers alone, below the instance's count of nodes.
#[derive(Clone, Copy, Debug, PartialEq, Eq)]
pub struct NodeId(pub u32);

/// A trackside train detection section, a number below the instance's count of sections.
#[derive(Clone, Copy, Debug, PartialEq, Eq)]
pub struct SectionId(pub u32);

/// A place where a virtual border may stand, by its place in the list of candidates.
#[derive(Clone, Copy, Debug, PartialEq, Eq)]
pub struct CandidateId(pub u32);

/// A station, by its place in the list of stations.
#[derive(Clone, Copy, Debug, PartialEq, Eq)]
pub struct StationId(pub u32);

/// A train, by its place in the list of trains.
#[derive(Clone, Copy, Debug, PartialEq, Eq)]
pub struct TrainId(pub u32);
