//! Trains and their stops.

use super::cells::DirCell;
use super::ids::StationId;
use vss_lists::Items;

/// A stop: the train stands wholly in the station for `dwell` steps, all of them at or after step
/// `from` and before step `until`.
#[derive(Clone, Copy, Debug, PartialEq, Eq)]
pub struct StopSpec {
    pub station: StationId,
    pub from: u32,
    pub until: u32,
    pub dwell: u32,
}

/// A train: its length in cells (1 to 64), its greatest advance in cells per step (1 to 20), the
/// directed cells where it enters and leaves, the first and the last step at which it may enter, the last
/// step at which it may arrive, and its stops.
#[derive(Debug, Drop)]
pub struct TrainSpec {
    pub length: u32,
    pub advance: u32,
    pub entry: DirCell,
    pub goal: DirCell,
    pub start: u32,
    pub latest: u32,
    pub by: u32,
    pub stops: Items<StopSpec>,
}
