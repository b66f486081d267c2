//! The parts of a timetable, with nodes and stations by their numbers in the network.

use vss_lists::{Items, Text};

/// A stop of a train. Times are seconds from the start of the timetable.
#[derive(Clone, Copy, Debug)]
pub struct StopPart {
    /// The number of the station in which the train stands.
    pub station: u32,
    /// The time before which it isn't counted as standing.
    pub from_s: u64,
    /// The time by which it has stood long enough.
    pub until_s: u64,
    /// How many seconds it stands at least.
    pub dwell_s: u64,
}

/// A train. Times are seconds from the start of the timetable.
#[derive(Debug, Drop)]
pub struct TrainPart {
    pub name: Text,
    /// Its length in metres.
    pub length_m: u64,
    /// Its greatest speed in kilometres per hour.
    pub speed_kmh: u64,
    /// The number of the end node where it enters.
    pub from: u32,
    /// The number of the end node where it leaves.
    pub to: u32,
    /// The time from which it may enter.
    pub entry_s: u64,
    /// The time by which it has to be at its goal, if one is set.
    pub arrive_s: Option<u64>,
    /// The time by which it has to enter, if it may wait.
    pub entry_until_s: Option<u64>,
    pub stops: Items<StopPart>,
}

/// The trains of a network, and the steps of space and time in which they are looked at.
#[derive(Debug, Drop)]
pub struct Timetable {
    /// The length of a cell in metres.
    pub space_step_m: u64,
    /// The length of a step of time in seconds.
    pub time_step_s: u64,
    /// The time at which the timetable ends, in seconds from its start.
    pub horizon_s: u64,
    pub trains: Items<TrainPart>,
}
