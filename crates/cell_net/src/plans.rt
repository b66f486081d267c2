//! Plans of trains.

use super::cells::DirCell;
use vss_lists::Items;

/// The cells that a train touches in one step, from its tail to its head.
#[derive(Debug, Drop)]
pub struct Sweep {
    pub cells: Items<DirCell>,
}

/// The sweeps of one train at the steps `start`, `start + 1` and so on.
#[derive(Debug, Drop)]
pub struct TrainRun {
    pub start: u32,
    pub sweeps: Items<Sweep>,
}

/// One run for each train, in the order of the trains.
#[derive(Debug, Drop)]
pub struct Plan {
    pub runs: Items<TrainRun>,
}
